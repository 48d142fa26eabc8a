// Whether an opening that is kept is legal (01, The book; 02, 3/14; cause 16).
ghost use Rattle.std.specs.Prelude.{◌≡◌};
ghost use Rattle.tariff.specs.Sum.{all_below};
ghost use Rattle.ledger.specs.Opening.{counts_fit, holder_legal, parent_legal, sink_legal, path_legal, paths_alike, path_new, legal};
ghost use Rattle.records.specs.Opening.{opening_of};

use records::kinds::SinkKind;
use records::setup::KeptOpening;
use tariff::sizes::{MAX_HOLDERS, MAX_PLACES};

// At most 8 holders, 16 sources, 16 sinks and 16 paths.
#[tactic(auto, unfolding(ledger::specs::Opening::counts_fit))]
fn counts_fit(o: &KeptOpening) -> bool
    ensures { result ≡ counts_fit (opening_of o.entry) }
{
    o.holders() <= MAX_HOLDERS as u64
        && o.sources() <= MAX_PLACES as u64
        && o.sinks() <= MAX_PLACES as u64
        && o.paths() <= MAX_PLACES as u64
}

// A holder is of kind 1 or 2.
#[tactic(auto, unfolding(ledger::specs::Opening::holder_legal, records::specs::Kinds::holder_kind_of))]
fn holder_legal(o: &KeptOpening, h: u64) -> bool
    ensures { result ≡ holder_legal (opening_of o.entry) h }
{
    o.holder_kind(h).is_some()
}

// A Sub-LAP's parent has a lower number and is a Default LAP.
#[tactic(auto, unfolding(ledger::specs::Opening::parent_legal), using(records::proofs::KindLaws::names_default_lap))]
fn parent_legal(o: &KeptOpening, s: u64) -> bool
    ensures { result ≡ parent_legal (opening_of o.entry) s }
{
    let parent = o.sink_base(s);
    parent < s && o.sink_kind(parent) == Some(SinkKind::DefaultLap)
}

// A sink is of kind 1 to 4; a Sub-LAP has a parent, any other sink names itself.
#[tactic(auto, unfolding(ledger::specs::Opening::sink_legal, records::specs::Kinds::sink_kind_of))]
fn sink_legal(o: &KeptOpening, s: u64) -> bool
    ensures { result ≡ sink_legal (opening_of o.entry) s }
{
    match o.sink_kind(s) {
        None => false,
        Some(SinkKind::SubLap) => parent_legal(o, s),
        Some(_) => o.sink_base(s) == s,
    }
}

// A path's source and sink are in the book.
#[tactic(auto, unfolding(ledger::specs::Opening::path_legal))]
fn path_legal(o: &KeptOpening, p: u64) -> bool
    ensures { result ≡ path_legal (opening_of o.entry) p }
{
    o.path_source(p) < o.sources() && o.path_sink(p) < o.sinks()
}

// Two paths share both source and sink.
#[tactic(auto, unfolding(ledger::specs::Opening::paths_alike))]
fn paths_alike(o: &KeptOpening, p: u64, q: u64) -> bool
    ensures { result ≡ paths_alike (opening_of o.entry) p q }
{
    o.path_line(p) == o.path_line(q)
}

// Every holder is legal.
fn holders_legal(o: &KeptOpening) -> bool
    ensures { result ≡ all_below (opening_of o.entry).holders (holder_legal (opening_of o.entry)) }
{
    (0..o.holders()).all(|h| holder_legal(o, h))
}

// Every sink is legal.
fn sinks_legal(o: &KeptOpening) -> bool
    ensures { result ≡ all_below (opening_of o.entry).sinks (sink_legal (opening_of o.entry)) }
{
    (0..o.sinks()).all(|s| sink_legal(o, s))
}

// Every path is legal.
fn paths_legal(o: &KeptOpening) -> bool
    ensures { result ≡ all_below (opening_of o.entry).paths (path_legal (opening_of o.entry)) }
{
    (0..o.paths()).all(|p| path_legal(o, p))
}

// No two paths share both source and sink. The first pair that does ends the search.
fn paths_differ(o: &KeptOpening) -> bool
    ensures { result ≡ all_below (opening_of o.entry).paths (path_new (opening_of o.entry)) }
{
    let mut differ = true;
    'pairs: for p in 0..o.paths() {
        for q in 0..p {
            if paths_alike(o, p, q) {
                differ = false;
                break 'pairs;
            }
        }
    }
    differ
}

// The opening breaks no rule. The counts come first, as they bound the loops of the rest.
#[tactic(auto, using(crate::proofs::KeptOpening::legal_by_lines))]
pub fn is_legal(o: &KeptOpening) -> bool
    ensures { result ≡ legal (opening_of o.entry) }
{
    counts_fit(o)
        && holders_legal(o)
        && sinks_legal(o)
        && paths_legal(o)
        && paths_differ(o)
        && o.settings.is_legal()
}
