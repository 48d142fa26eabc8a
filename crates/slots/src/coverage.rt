// What an entry of evidence gives for a term, kept as one number (02, 2/14).
ghost use Rattle.std.specs.Prelude.{◌≡◌};
ghost use Rattle.slots.specs.Cells.{HasCell, read_at};
ghost use Rattle.slots.specs.Layout.{figure_slots};
ghost use Rattle.slots.specs.Coverage.{coverage, covered_kw, is_covered};

use crate::cells::read;
use crate::layout::Figures;
use source_evidence::evidence::Entry;

// One more than the entry's kW where it counts for the term, else 0, so that evidence of 0 kW can be told from none.
#[tactic(auto, unfolding(crate::specs::Coverage::coverage, tariff::specs::Sum::when_true))]
pub fn coverage(e: Entry, term: u64) -> u64
    ensures { result ≡ coverage term e }
{
    if e.counts_for(term) {
        e.kw(term) + 1
    } else {
        0
    }
}

// The kW of the evidence that a slot of the figures keeps.
#[tactic(auto, unfolding(crate::specs::Coverage::covered_kw))]
pub fn covered_kw(f: &Figures, h: u64, s: u64, slot: u64) -> u64
    requires { HasCell figure_slots h s slot }
    ensures { result ≡ covered_kw (read_at figure_slots 0 f.now h s slot) }
{
    read(f, h, s, slot).saturating_sub(1)
}

// Whether it keeps any.
#[tactic(auto, unfolding(crate::specs::Coverage::is_covered))]
pub fn is_covered(f: &Figures, h: u64, s: u64, slot: u64) -> bool
    requires { HasCell figure_slots h s slot }
    ensures { result ≡ is_covered (read_at figure_slots 0 f.now h s slot) }
{
    read(f, h, s, slot) != 0
}
