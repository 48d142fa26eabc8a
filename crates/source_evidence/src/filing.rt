// What a caller files with verify, and the entry that it comes to (01, Posting, Verify; 02, 1/14; cause 3).
#![tactic(auto, unfolding(crate::specs::Evidence::entry_of, crate::specs::Evidence::evidence_of, crate::specs::Evidence::highest_right, crate::specs::Filing::evidence_out_of_range, crate::specs::Filing::filed_of, crate::specs::Filing::filing_outcome, crate::specs::Kind::kind_of, tariff::specs::Ranges::kw_out_of_range, tariff::specs::Ranges::month_out_of_range, tariff::specs::Ranges::within, tariff::specs::Terms::is_month))]

ghost use Rattle.std.specs.Prelude.{◌≡◌, not};

use crate::evidence::{Entry, Evidence};
use crate::kind::EvidenceKind;
use tariff::sizes::{LAST_MONTH, MAX_KW, TEN_YEAR};

// What a caller files, as it stands on a verify line: any numbers.
#[derive(Clone, Copy)]
pub struct Filing {
    pub kind: u64,
    pub capacity: u64,
    pub right: u64,
    pub first: u64,
    pub last: u64,
    pub mark: u64,
}

// What numbers in range file: an entry, under its kind.
#[derive(Clone, Copy)]
pub struct Filed {
    pub kind: EvidenceKind,
    pub entry: Entry,
}

// A number that is outside its range.
#[derive(Clone, Copy, Debug, PartialEq, Eq)]
pub struct OutOfRange;

impl Filing {
    ghost use Rattle.source_evidence.specs.Kind.{number_of};
    ghost use Rattle.source_evidence.specs.Filing.{is_out_of_range_as, filing_outcome};

    // Whether the numbers beside the kind are in range, as those of a kind.
    fn is_in_range_as(self, kind: EvidenceKind) -> bool
        ensures { result ≡ not (is_out_of_range_as (number_of kind) self) }
    {
        (1..=MAX_KW).contains(&self.capacity)
            && (1..=kind.highest_right(self.capacity)).contains(&self.right)
            && (1..=LAST_MONTH).contains(&self.first)
            && (1..=LAST_MONTH).contains(&self.last)
            && self.first <= self.last
            && self.mark <= TEN_YEAR
    }

    // The entry that the numbers file, under its kind.
    pub fn filed(self) -> Result<Filed, OutOfRange>
        ensures { result ≡ filing_outcome self }
    {
        let kind = EvidenceKind::try_from(self.kind)?;
        if !self.is_in_range_as(kind) {
            return Err(OutOfRange);
        }
        let evidence = match kind {
            EvidenceKind::Ownership => Evidence::Ownership {
                capacity: self.capacity as u32,
                right: self.right as u16,
            },
            EvidenceKind::Contract => Evidence::Contract {
                right: self.right as u32,
            },
        };
        let entry = Entry {
            evidence,
            first: self.first as u8,
            last: self.last as u8,
            ten_year: self.mark == TEN_YEAR,
        };
        Ok(Filed { kind, entry })
    }
}
