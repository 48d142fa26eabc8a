// Opening a book (01, The book; 02, 3/14; cause 16).
ghost use Rattle.std.specs.Prelude.{◌≡◌};
ghost use Rattle.ledger.specs.Opening.{Opening, lists_fit};
ghost use Rattle.records.specs.Opening.{path_bases, kept_opening};
ghost use Rattle.opening.specs.Opened.{opening_asked, opened};

use crate::book_setup::BookSetup;
use crate::kept::{keep_lines, lists_fit, path_bases};
use crate::legality::is_legal;
use records::refusal::Refusal;
use records::setup::KeptOpening;

// Keeps an opening if its lists fit and it is legal. Its counts, lines and settings stand in `kept` already; the bases of its paths come to them.
pub(crate) fn keep_if_legal(kept: KeptOpening, lists: bool) -> Result<KeptOpening, Refusal>
    ensures { (o : Opening) → record kept { bases = path_bases o } ≡ kept_opening o → lists ≡ lists_fit o → result ≡ opened o }
{
    if lists && is_legal(&kept) {
        let bases = path_bases(&kept);
        return Ok(KeptOpening { bases, ..kept });
    }
    Err(Refusal::BreaksRules)
}

// Opens a book, for any counts, slices and settings.
pub fn open(setup: BookSetup) -> Result<KeptOpening, Refusal>
    ensures { result ≡ opened (opening_asked setup.entry) }
{
    keep_if_legal(keep_lines(setup), lists_fit(setup))
}
