// Why a call or a query is refused, each cause under its number (01, Refusals by cause; 02).

ghost use Rattle.std.specs.Prelude.{◌≡◌, ◌<◌};

use load_metric::load::BlockError;
use source_evidence::filing::OutOfRange;

#[derive(Clone, Copy, Debug, PartialEq, Eq)]
pub enum Refusal {
    Unreadable = 1,
    NotInBook = 2,
    OutOfRange = 3,
    NotAtThisTime = 4,
    PostedBefore = 5,
    BrokenBlocks = 6,
    HoursMissing = 7,
    NotBetweenLses = 8,
    LossAboveLoad = 9,
    SinkIneligible = 10,
    AboveVerified = 11,
    AbovePrior = 12,
    AboveLimit = 13,
    AboveNominated = 14,
    OutputTooShort = 15,
    BreaksRules = 16,
    AboveTier1Award = 17,
    NoTenYearEvidence = 18,
    Unverified = 19,
}

impl Refusal {
    ghost use Rattle.records.specs.Refusals.{number_of};

    // The number that a refusal is told by. It has two digits at most.
    pub fn number(self) -> u64
        ensures number { result ≡ number_of self }
        ensures two_digits { result < 100 }
    {
        self as u64
    }
}

// A block list is refused under cause 6 or 7.
impl From<BlockError> for Refusal {
    ghost use Rattle.records.specs.Refusals.{of_blocks};

    ghost from_gives = { λ e r. r ≡ of_blocks e };

    fn from(error: BlockError) -> Refusal {
        match error {
            BlockError::Broken => Refusal::BrokenBlocks,
            BlockError::Missing => Refusal::HoursMissing,
        }
    }
}

// A number outside its range is refused under cause 3.
impl From<OutOfRange> for Refusal {
    ghost use Rattle.records.specs.declared.refusal.Refusal.TheVariants.{OutOfRange};

    ghost from_gives = { λ _ r. r ≡ OutOfRange };

    fn from(_: OutOfRange) -> Refusal {
        Refusal::OutOfRange
    }
}
