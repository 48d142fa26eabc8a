// The kinds of holders and sinks that an opening names by number (01, The book).

#[derive(Clone, Copy, Debug, PartialEq, Eq)]
pub enum HolderKind {
    // A load-serving entity (LSE).
    Lse = 1,
    // A qualified entity outside the balancing area (OBAALSE).
    Obaalse = 2,
}

#[derive(Clone, Copy, Debug, PartialEq, Eq)]
pub enum SinkKind {
    DefaultLap = 1,
    SubLap = 2,
    CustomLapOrNode = 3,
    SchedulingPoint = 4,
}

// A number that names no kind.
#[derive(Clone, Copy, Debug, PartialEq, Eq)]
pub struct UnknownKind;

impl TryFrom<u64> for HolderKind {
    type Error = UnknownKind;

    ghost use Rattle.std.specs.Prelude.{◌≡◌, ok_or};
    ghost use Rattle.records.specs.Kinds.{holder_kind_of};

    ghost try_from_gives = { λ number named. named ≡ ok_or (holder_kind_of number) (record {}) };

    #[tactic(auto, unfolding(crate::specs::Kinds::holder_kind_of))]
    fn try_from(number: u64) -> Result<HolderKind, UnknownKind> {
        match number {
            1 => Ok(HolderKind::Lse),
            2 => Ok(HolderKind::Obaalse),
            _ => Err(UnknownKind),
        }
    }
}

impl TryFrom<u64> for SinkKind {
    type Error = UnknownKind;

    ghost use Rattle.std.specs.Prelude.{◌≡◌, ok_or};
    ghost use Rattle.records.specs.Kinds.{sink_kind_of};

    ghost try_from_gives = { λ number named. named ≡ ok_or (sink_kind_of number) (record {}) };

    #[tactic(auto, unfolding(crate::specs::Kinds::sink_kind_of))]
    fn try_from(number: u64) -> Result<SinkKind, UnknownKind> {
        match number {
            1 => Ok(SinkKind::DefaultLap),
            2 => Ok(SinkKind::SubLap),
            3 => Ok(SinkKind::CustomLapOrNode),
            4 => Ok(SinkKind::SchedulingPoint),
            _ => Err(UnknownKind),
        }
    }
}
