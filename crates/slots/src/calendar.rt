// The calendar and the open tier of a book, which stand after its figures.
ghost use Rattle.std.specs.Prelude.{◌≡◌};
ghost use Rattle.slots.specs.Layout.{calendar_in, current_tier_in};

use crate::layout::{CURRENT_TIER_AT, LAST_CLOSED_AT, STEP_HELD_AT};
use records::calendar::Calendar;
use tariff::entries::entry_at;

// The open tier, 0 for none.
#[tactic(auto, unfolding(crate::specs::Layout::current_tier_in))]
pub fn current_tier(f: &[u64]) -> u64
    ensures { result ≡ current_tier_in f.now }
{
    entry_at(f, CURRENT_TIER_AT, 0)
}

// How far the tiers of the book have come.
#[tactic(auto, unfolding(crate::specs::Layout::calendar_in, crate::specs::Layout::last_closed_in, crate::specs::Layout::step_held_in))]
pub fn calendar(f: &[u64]) -> Calendar
    ensures { result ≡ calendar_in f.now }
{
    Calendar {
        last_closed: entry_at(f, LAST_CLOSED_AT, 0),
        current_tier: current_tier(f),
        step_held: entry_at(f, STEP_HELD_AT, 0) == 1,
    }
}
