// What a book keeps of its setup (01, The book; 02, 3/14).
ghost use Rattle.std.specs.Prelude.{◌≡◌};
ghost use Rattle.ledger.specs.Opening.{lists_fit};
ghost use Rattle.records.specs.Opening.{opening_of, path_bases, kept_opening, empty_opening};
ghost use Rattle.opening.specs.Opened.{opening_asked};

use crate::book_setup::BookSetup;
use records::setup::{KeptOpening, PathLine, SinkLine};
use tariff::entries::entry_at;
use tariff::settings::Settings;
use tariff::sizes::{MAX_HOLDERS, MAX_PLACES};

// An opening with nothing in it, by the present figures.
#[tactic(auto, unfolding(records::specs::Opening::with_room, records::specs::Opening::kept_opening, records::specs::Opening::empty_opening, records::specs::Opening::path_bases, ledger::specs::Opening::path_base, ledger::specs::Opening::base, tariff::specs::Sum::tabulate))]
pub fn keep_nothing() -> KeptOpening
    ensures { result ≡ kept_opening empty_opening }
{
    KeptOpening {
        holders: 0,
        sources: 0,
        sinks: 0,
        paths: 0,
        holder_kinds: [0; MAX_HOLDERS],
        sink_lines: [SinkLine::default(); MAX_PLACES],
        path_lines: [PathLine::default(); MAX_PLACES],
        settings: Settings::present(),
        bases: [0; MAX_PLACES],
    }
}

// The counts, lines and settings of a setup, with no bases yet. What finds no room is left out.
pub(crate) fn keep_lines(setup: BookSetup) -> KeptOpening
    ensures { record result { bases = path_bases (opening_asked setup.entry) } ≡ kept_opening (opening_asked setup.entry) }
{
    KeptOpening {
        holders: setup.holders,
        sources: setup.sources,
        sinks: setup.sinks,
        paths: setup.paths,
        holder_kinds: std::array::from_fn(|h| entry_at(setup.holder_kinds, h, 0)),
        sink_lines: std::array::from_fn(|s| entry_at(setup.sink_lines, s, SinkLine::default())),
        path_lines: std::array::from_fn(|p| entry_at(setup.path_lines, p, PathLine::default())),
        settings: setup.settings,
        bases: [0; MAX_PLACES],
    }
}

// The base of each path of an opening.
pub fn path_bases(o: &KeptOpening) -> [u64; MAX_PLACES]
    ensures { result ≡ path_bases (opening_of o.entry) }
{
    std::array::from_fn(|p| o.base_by_sink(p as u64))
}

// There are as many lines of each kind as are counted.
#[tactic(auto, unfolding(ledger::specs::Opening::lists_fit, records::specs::Opening::opening_from))]
pub fn lists_fit(setup: BookSetup) -> bool
    ensures { result ≡ lists_fit (opening_asked setup.entry) }
{
    setup.holder_kinds.len() as u64 == setup.holders
        && setup.sink_lines.len() as u64 == setup.sinks
        && setup.path_lines.len() as u64 == setup.paths
}
