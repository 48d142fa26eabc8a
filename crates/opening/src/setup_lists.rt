// What a book is opened with, where each number of a line stands in a list of its own (01, The book; 02, 3/14).
ghost use Rattle.std.specs.Prelude.{◌≡◌};
ghost use Rattle.ledger.specs.Opening.{lists_fit};
ghost use Rattle.records.specs.Opening.{sink_line, path_line, path_bases, kept_opening};
ghost use Rattle.opening.specs.Opened.{opening_listed, opened};

use crate::opening::keep_if_legal;
use records::refusal::Refusal;
use records::setup::{KeptOpening, PathLine, SinkLine};
use tariff::entries::entry_at;
use tariff::settings::Settings;
use tariff::sizes::MAX_PLACES;

// The counts beside the lists of the holders, sinks and paths, and the settings: any numbers, and lists of any lengths. Line k has the k-th number of each list of its kind.
#[derive(Clone, Copy)]
pub struct SetupLists<'a> {
    pub holders: u64,
    pub sources: u64,
    pub sinks: u64,
    pub paths: u64,
    pub holder_kinds: &'a [u64],
    pub sink_kinds: &'a [u64],
    pub sink_parents: &'a [u64],
    pub path_sources: &'a [u64],
    pub path_sinks: &'a [u64],
    pub settings: Settings,
}

impl SetupLists<'_> {
    // Each list has as many numbers as are counted.
    #[tactic(auto, unfolding(ledger::specs::Opening::lists_fit, records::specs::Opening::opening_from))]
    pub fn lists_fit(self) -> bool
        ensures { result ≡ lists_fit (opening_listed self.entry) }
    {
        self.holder_kinds.len() as u64 == self.holders
            && self.sink_kinds.len() as u64 == self.sinks
            && self.sink_parents.len() as u64 == self.sinks
            && self.path_sources.len() as u64 == self.paths
            && self.path_sinks.len() as u64 == self.paths
    }

    // The line of a sink; past the end of a list stands 0.
    #[tactic(auto, unfolding(records::specs::Opening::opening_from))]
    fn sink_line(self, s: usize) -> SinkLine
        ensures { result ≡ sink_line (opening_listed self.entry) s }
    {
        SinkLine {
            kind: entry_at(self.sink_kinds, s, 0),
            parent: entry_at(self.sink_parents, s, 0),
        }
    }

    // The line of a path; past the end of a list stands 0.
    #[tactic(auto, unfolding(records::specs::Opening::opening_from))]
    fn path_line(self, p: usize) -> PathLine
        ensures { result ≡ path_line (opening_listed self.entry) p }
    {
        PathLine {
            source: entry_at(self.path_sources, p, 0),
            sink: entry_at(self.path_sinks, p, 0),
        }
    }

    // The counts, lines and settings of the lists, with no bases yet. What finds no room is left out.
    fn keep(self) -> KeptOpening
        ensures { record result { bases = path_bases (opening_listed self.entry) } ≡ kept_opening (opening_listed self.entry) }
    {
        KeptOpening {
            holders: self.holders,
            sources: self.sources,
            sinks: self.sinks,
            paths: self.paths,
            holder_kinds: std::array::from_fn(|h| entry_at(self.holder_kinds, h, 0)),
            sink_lines: std::array::from_fn(|s| self.sink_line(s)),
            path_lines: std::array::from_fn(|p| self.path_line(p)),
            settings: self.settings,
            bases: [0; MAX_PLACES],
        }
    }

    // Opens a book, for any counts, lists and settings.
    pub fn open(self) -> Result<KeptOpening, Refusal>
        ensures { result ≡ opened (opening_listed self.entry) }
    {
        keep_if_legal(self.keep(), self.lists_fit())
    }
}
