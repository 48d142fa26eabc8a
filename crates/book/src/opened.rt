// Opening a book (01, The book; 02, 3/14; cause 16).
ghost use Rattle.std.specs.Prelude.{◌≡◌};
ghost use Rattle.ledger.specs.Ledger.{empty_ledger};
ghost use Rattle.ledger.specs.Opening.{Opening};
ghost use Rattle.opening.specs.Opened.{opening_asked, opening_listed, opened};
ghost use Rattle.slots.specs.Layout.{evidence_of};
ghost use Rattle.book.specs.Opened.{opening_outcome};
ghost use Rattle.book.specs.Reachable.{Reachable};
ghost use Rattle.book.specs.Reading.{book_of};

use crate::book::{Book, Outcome};
use opening::book_setup::BookSetup;
use opening::kept::keep_nothing;
use opening::opening::open;
use opening::setup_lists::SetupLists;
use records::refusal::Refusal;
use records::setup::KeptOpening;
use slots::layout::{EVIDENCE_COUNT, FIGURE_COUNT, POSTED_COUNT};
use source_evidence::evidence::Entry;

// No evidence filed.
pub fn no_evidence() -> [Entry; EVIDENCE_COUNT]
    ensures { result ≡ evidence_of empty_ledger }
{
    [Entry::default(); EVIDENCE_COUNT]
}

// The book of an opening and no calls.
fn blank_book(opening: KeptOpening) -> Book
    requires { Reachable (book_of opening empty_ledger) }
    ensures { result ≡ book_of opening empty_ledger }
{
    Book {
        opening,
        figures: [0u64; FIGURE_COUNT],
        posted: [false; POSTED_COUNT],
        evidence: no_evidence(),
    }
}

// What opening a book returns: the book of an opening that is kept, or beside the refusal one with nothing in it, so that there is always a book.
fn outcome_of_opening(opening: Result<KeptOpening, Refusal>) -> Outcome
    requires { (o : Opening) × (opening ≡ opened o) }
    ensures { (o : Opening) → opening ≡ opened o → result ≡ opening_outcome o }
{
    match opening {
        Ok(opening) => Outcome {
            answer: Ok(()),
            book: blank_book(opening),
        },
        Err(refusal) => Outcome {
            answer: Err(refusal),
            book: blank_book(keep_nothing()),
        },
    }
}

// Opens a book, for any counts, slices and settings.
pub fn open_book(setup: BookSetup) -> Outcome
    ensures { result ≡ opening_outcome (opening_asked setup.entry) }
{
    outcome_of_opening(open(setup))
}

// Opens a book, for any counts, lists and settings.
pub fn open_book_from_lists(lists: SetupLists) -> Outcome
    ensures { result ≡ opening_outcome (opening_listed lists.entry) }
{
    outcome_of_opening(lists.open())
}
