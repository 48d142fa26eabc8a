// Sums over the paths of a book (01, Limits and Tiers): what a holder has in a slot at a base, or from a source.
ghost use Rattle.std.specs.Prelude.{◌≡◌};
ghost use Rattle.ledger.specs.Limits.{sum_at_base};
ghost use Rattle.ledger.specs.Verification.{sum_from_source};
ghost use Rattle.records.specs.Opening.{opening_of};
ghost use Rattle.slots.specs.Sums.{on_path, Summable};

use crate::cells::read;
use crate::layout::Figures;
use records::setup::KeptOpening;

// What a holder has in a slot on the paths whose sink has this base.
pub fn sum_at_base(o: &KeptOpening, f: &Figures, h: u64, slot: u64, base: u64) -> u64
    requires { Summable o.now f.now h slot }
    ensures { result ≡ sum_at_base (opening_of o.entry) base (on_path f.now h slot) }
{
    (0..o.paths())
        .filter(|p| o.path_base(*p) == base)
        .map(|p| read(f, h, p, slot))
        .sum()
}

// What a holder has in a slot on the paths from this source.
pub fn sum_from_source(o: &KeptOpening, f: &Figures, h: u64, slot: u64, source: u64) -> u64
    requires { Summable o.now f.now h slot }
    ensures { result ≡ sum_from_source (opening_of o.entry) source (on_path f.now h slot) }
{
    (0..o.paths())
        .filter(|p| o.path_source(*p) == source)
        .map(|p| read(f, h, p, slot))
        .sum()
}
