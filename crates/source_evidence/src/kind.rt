// The kinds of evidence (01, Posting, Verify).
ghost use Rattle.std.specs.Prelude.{◌≡◌};

use crate::filing::OutOfRange;
use tariff::sizes::FULL_OWNERSHIP;

#[derive(Clone, Copy, Debug, PartialEq, Eq)]
pub enum EvidenceKind {
    // An owned part of a plant.
    Ownership,
    Contract,
}

impl EvidenceKind {
    ghost use Rattle.source_evidence.specs.Kind.{index_of, number_of};
    ghost use Rattle.source_evidence.specs.Evidence.{highest_right};

    // The place of the kind among the kinds, from 0.
    pub fn index(self) -> u64
        ensures { result ≡ index_of self }
    {
        self as u64
    }

    // The highest right that evidence of the kind can have.
    #[tactic(auto, unfolding(crate::specs::Evidence::highest_right))]
    pub fn highest_right(self, capacity: u64) -> u64
        ensures { result ≡ highest_right (number_of self) capacity }
    {
        match self {
            EvidenceKind::Ownership => FULL_OWNERSHIP,
            EvidenceKind::Contract => capacity,
        }
    }
}

// The kind that a caller's number names.
impl TryFrom<u64> for EvidenceKind {
    type Error = OutOfRange;

    ghost use Rattle.source_evidence.specs.Kind.{IsNamedBy};

    ghost try_from_gives = { IsNamedBy };

    #[tactic(auto, unfolding(tariff::specs::Ranges::within))]
    fn try_from(number: u64) -> Result<EvidenceKind, OutOfRange> {
        match number {
            1 => Ok(EvidenceKind::Ownership),
            2 => Ok(EvidenceKind::Contract),
            _ => Err(OutOfRange),
        }
    }
}
