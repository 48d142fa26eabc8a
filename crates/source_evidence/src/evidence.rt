// Evidence of a right to a source, and what it gives (01, Posting, Verify; 02, 1/14).
ghost use Rattle.std.specs.Prelude.{◌+◌, ◌^◌, ◌<◌, ◌≡◌};

use tariff::sizes::{FULL_OWNERSHIP, LAST_MONTH};

// What a holder has shown: nothing, a part of a plant, or a contract.
#[derive(Clone, Copy, Default)]
pub enum Evidence {
    #[default]
    Empty,
    // The plant's capacity in kW, and the owned part of it in ten-thousandths.
    Ownership { capacity: u32, right: u16 },
    // The contract's kW.
    Contract { right: u32 },
}

impl Evidence {
    ghost use Rattle.source_evidence.specs.Evidence.{evidence_kw};

    // The kW that the evidence gives. One more fits 64 bits, whatever numbers the evidence has.
    #[tactic(auto, unfolding(crate::specs::Evidence::evidence_kw))]
    pub fn kw(self) -> u64
        ensures is { result ≡ evidence_kw self }
        ensures fits { result + 1 < 2 ^ 64 }
    {
        match self {
            Evidence::Empty => 0,
            Evidence::Ownership { capacity, right } => (capacity as u64) * (right as u64)
                / FULL_OWNERSHIP,
            Evidence::Contract { right } => right as u64,
        }
    }
}

// Evidence beside the first and the last month in which it holds, and whether it is marked as running for ten years. The default is an entry that nothing was filed in.
#[derive(Clone, Copy, Default)]
pub struct Entry {
    pub evidence: Evidence,
    pub first: u8,
    pub last: u8,
    pub ten_year: bool,
}

impl Entry {
    ghost use Rattle.source_evidence.specs.Evidence.{counts_for, entry_kw, is_ten_year};

    // Whether the entry counts for a term.
    #[tactic(auto, unfolding(crate::specs::Evidence::counts_for))]
    pub fn counts_for(self, term: u64) -> bool
        ensures { result ≡ counts_for term self }
    {
        let first = self.first as u64;
        let last = self.last as u64;
        if term == 0 {
            return first == 1 && last == LAST_MONTH;
        }
        (first..=last).contains(&term)
    }

    // The kW of the entry for a term.
    #[tactic(auto, unfolding(crate::specs::Evidence::entry_kw, tariff::specs::Sum::when_true))]
    pub fn kw(self, term: u64) -> u64
        ensures is { result ≡ entry_kw term self }
        ensures fits { result + 1 < 2 ^ 64 }
    {
        if self.counts_for(term) {
            self.evidence.kw()
        } else {
            0
        }
    }

    // Whether the entry is ten-year evidence for the season.
    #[tactic(auto, unfolding(crate::specs::Evidence::is_ten_year))]
    pub fn is_ten_year(self) -> bool
        ensures { result ≡ is_ten_year self }
    {
        self.ten_year && self.counts_for(0)
    }
}
