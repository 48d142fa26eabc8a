// What a book was opened with (01, The book; 02, 3/14): the four counts, what stands on the line of each holder, sink and path, and the settings.
ghost use Rattle.std.specs.Prelude.{◌<◌, ◌≡◌, true, eqb};
ghost use Rattle.tariff.specs.Sizes.{max_places};
ghost use Rattle.tariff.specs.Settings.{settings_legal};
ghost use Rattle.ledger.specs.Opening.{obaalse, holder_kind, sink_kind, base, path_source, path_sink, path_base};
ghost use Rattle.ledger.specs.Ranges.{unknown_holder, unknown_source, unknown_sink, unknown_path};
ghost use Rattle.ledger.specs.Causes.{kind_ineligible, is_sub_lap};
ghost use Rattle.records.specs.Kinds.{holder_kind_of, sink_kind_of};
ghost use Rattle.records.specs.Opening.{opening_of, KeepsBases};

use crate::kinds::{HolderKind, SinkKind};
use crate::lists::counted_entry;
use tariff::legal_settings::LegalSettings;
use tariff::settings::Settings;
use tariff::sizes::{MAX_HOLDERS, MAX_PLACES};

// What stands on a sink's line: its kind, and the sink that it names. The default is what is read past the last line.
#[derive(Clone, Copy, Default)]
pub struct SinkLine {
    pub kind: u64,
    pub parent: u64,
}

// What stands on a path's line: the source that it comes from, and the sink that it ends at. The default is what is read past the last line.
#[derive(Clone, Copy, Default, PartialEq, Eq)]
pub struct PathLine {
    pub source: u64,
    pub sink: u64,
}

// An opening as a book keeps it, with room for as many lines as a book can have.
#[derive(Clone, Copy)]
pub struct KeptOpening {
    pub holders: u64,
    pub sources: u64,
    pub sinks: u64,
    pub paths: u64,
    pub holder_kinds: [u64; MAX_HOLDERS],
    pub sink_lines: [SinkLine; MAX_PLACES],
    pub path_lines: [PathLine; MAX_PLACES],
    pub settings: Settings,
    // The base of each path, so that it is looked up once.
    pub bases: [u64; MAX_PLACES],
}

impl KeptOpening {
    #[tactic(auto, unfolding(crate::specs::Opening::opening_in))]
    pub fn holders(&self) -> u64
        ensures { result ≡ (opening_of self.entry).holders }
    {
        self.holders
    }

    #[tactic(auto, unfolding(crate::specs::Opening::opening_in))]
    pub fn sources(&self) -> u64
        ensures { result ≡ (opening_of self.entry).sources }
    {
        self.sources
    }

    #[tactic(auto, unfolding(crate::specs::Opening::opening_in))]
    pub fn sinks(&self) -> u64
        ensures { result ≡ (opening_of self.entry).sinks }
    {
        self.sinks
    }

    #[tactic(auto, unfolding(crate::specs::Opening::opening_in))]
    pub fn paths(&self) -> u64
        ensures { result ≡ (opening_of self.entry).paths }
    {
        self.paths
    }

    #[tactic(auto, unfolding(ledger::specs::Ranges::unknown_holder))]
    pub fn unknown_holder(&self, h: u64) -> bool
        ensures { result ≡ unknown_holder (opening_of self.entry) h }
    {
        self.holders() <= h
    }

    #[tactic(auto, unfolding(ledger::specs::Ranges::unknown_source))]
    pub fn unknown_source(&self, s: u64) -> bool
        ensures { result ≡ unknown_source (opening_of self.entry) s }
    {
        self.sources() <= s
    }

    #[tactic(auto, unfolding(ledger::specs::Ranges::unknown_sink))]
    pub fn unknown_sink(&self, s: u64) -> bool
        ensures { result ≡ unknown_sink (opening_of self.entry) s }
    {
        self.sinks() <= s
    }

    #[tactic(auto, unfolding(ledger::specs::Ranges::unknown_path))]
    pub fn unknown_path(&self, p: u64) -> bool
        ensures { result ≡ unknown_path (opening_of self.entry) p }
    {
        self.paths() <= p
    }

    // The number of a holder's kind.
    #[tactic(auto, unfolding(crate::specs::Opening::opening_in, ledger::specs::Opening::holder_kind))]
    pub fn holder_number(&self, h: u64) -> u64
        ensures { result ≡ holder_kind (opening_of self.entry) h }
    {
        counted_entry(&self.holder_kinds, self.holders, h, 0)
    }

    pub fn holder_kind(&self, h: u64) -> Option<HolderKind>
        ensures { result ≡ holder_kind_of (holder_kind (opening_of self.entry) h) }
    {
        HolderKind::try_from(self.holder_number(h)).ok()
    }

    // The line of a sink, with the number of its kind.
    #[tactic(auto, using(crate::proofs::OpeningLaws::kind_read, crate::proofs::OpeningLaws::parent_read))]
    pub fn sink_line(&self, s: u64) -> SinkLine
        ensures kind { result.kind ≡ sink_kind (opening_of self.entry) s }
        ensures base { result.parent ≡ base (opening_of self.entry) s }
    {
        counted_entry(&self.sink_lines, self.sinks, s, SinkLine::default())
    }

    pub fn sink_kind(&self, s: u64) -> Option<SinkKind>
        ensures { result ≡ sink_kind_of (sink_kind (opening_of self.entry) s) }
    {
        SinkKind::try_from(self.sink_line(s).kind).ok()
    }

    pub fn sink_base(&self, s: u64) -> u64
        ensures { result ≡ base (opening_of self.entry) s }
    {
        self.sink_line(s).parent
    }

    // The line of a path.
    #[tactic(auto, using(crate::proofs::OpeningLaws::source_read, crate::proofs::OpeningLaws::end_read))]
    pub fn path_line(&self, p: u64) -> PathLine
        ensures source { result.source ≡ path_source (opening_of self.entry) p }
        ensures sink { result.sink ≡ path_sink (opening_of self.entry) p }
    {
        counted_entry(&self.path_lines, self.paths, p, PathLine::default())
    }

    pub fn path_source(&self, p: u64) -> u64
        ensures { result ≡ path_source (opening_of self.entry) p }
    {
        self.path_line(p).source
    }

    pub fn path_sink(&self, p: u64) -> u64
        ensures { result ≡ path_sink (opening_of self.entry) p }
    {
        self.path_line(p).sink
    }

    // The base of a path's sink, looked up by way of the sink.
    #[tactic(auto, unfolding(ledger::specs::Opening::path_base))]
    pub fn base_by_sink(&self, p: u64) -> u64
        ensures { result ≡ path_base (opening_of self.entry) p }
    {
        let sink = self.path_sink(p);
        self.sink_base(sink)
    }

    // The base of a path's sink, as it is kept.
    #[tactic(auto, using(crate::proofs::OpeningLaws::base_at))]
    pub fn path_base(&self, p: u64) -> u64
        requires { KeepsBases self.now × (p < max_places) }
        ensures { result ≡ path_base (opening_of self.entry) p }
    {
        self.bases[p as usize]
    }

    // The fractions of an opening that is legal.
    #[tactic(auto, unfolding(crate::specs::Opening::opening_in))]
    pub fn legal_settings(&self) -> LegalSettings
        requires { settings_legal (opening_of self).settings ≡ true }
        ensures { result.settings ≡ (opening_of self.entry).settings }
    {
        LegalSettings {
            settings: self.settings,
        }
    }

    // Cause 10 by kinds: a scheduling point is not for an LSE, and nothing else is for an OBAALSE.
    #[tactic(auto, unfolding(ledger::specs::Causes::kind_ineligible), using(crate::proofs::KindLaws::names_lse, crate::proofs::KindLaws::names_scheduling_point))]
    pub fn kind_ineligible(&self, h: u64, s: u64) -> bool
        ensures { result ≡ kind_ineligible (opening_of self.entry) h s }
    {
        let scheduling_point = self.sink_kind(s) == Some(SinkKind::SchedulingPoint);
        if self.holder_kind(h) == Some(HolderKind::Lse) {
            return scheduling_point;
        }
        !scheduling_point
    }

    // A holder is an OBAALSE.
    #[tactic(auto, using(crate::proofs::KindLaws::names_obaalse))]
    pub fn is_obaalse(&self, h: u64) -> bool
        ensures { result ≡ eqb (holder_kind (opening_of self.entry) h) obaalse }
    {
        self.holder_kind(h) == Some(HolderKind::Obaalse)
    }

    #[tactic(auto, unfolding(ledger::specs::Causes::is_sub_lap), using(crate::proofs::KindLaws::names_sub_lap))]
    pub fn is_sub_lap(&self, s: u64) -> bool
        ensures { result ≡ is_sub_lap (opening_of self.entry) s }
    {
        self.sink_kind(s) == Some(SinkKind::SubLap)
    }
}
