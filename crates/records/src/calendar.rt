// When a call can run, by the tier last closed, the open one, and whether the Long Term step was held (01, Tiers; 02, 1/14; cause 4).
ghost use Rattle.std.specs.Prelude.{◌≡◌, cond, eqb, suc};
ghost use Rattle.tariff.specs.Terms.{is_long_term_step};

use tariff::sizes::{LAST_SEASON_TIER, LONG_TERM_STEP};

// How far the tiers have come.
#[derive(Clone, Copy)]
pub struct Calendar {
    // The tier last closed, 0 for none. The Long Term step does not count.
    pub last_closed: u64,
    // The open tier, 0 for none.
    pub current_tier: u64,
    // Whether the Long Term step was held, or is open.
    pub step_held: bool,
}

impl Calendar {
    ghost use Rattle.ledger.specs.Calendar.{tier_is_open, before_tier, load_in_time, migration_in_time, step_in_time, is_next_tier};
    ghost use Rattle.records.specs.Calendar.{ledger_at};

    // A tier is open.
    #[tactic(auto, unfolding(crate::specs::Calendar::ledger_at, ledger::specs::Ledger::with_tiers, ledger::specs::Calendar::tier_is_open))]
    pub fn tier_is_open(self) -> bool
        ensures { result ≡ tier_is_open (ledger_at self) }
    {
        self.current_tier != 0
    }

    // No tier is open, and this one has never been.
    #[tactic(auto, unfolding(crate::specs::Calendar::ledger_at, ledger::specs::Ledger::with_tiers, ledger::specs::Calendar::before_tier))]
    pub fn before_tier(self, tier: u64) -> bool
        ensures { result ≡ before_tier tier (ledger_at self) }
    {
        !self.tier_is_open() && self.last_closed < tier
    }

    // The postings for a term have not ended: no tier is open, and tier 1, or for month k tier 2k + 2, has never been.
    // Half of the tier last closed is compared with the month, as twice a caller's number may not fit.
    #[tactic(auto, unfolding(crate::specs::Calendar::ledger_at, ledger::specs::Ledger::with_tiers, ledger::specs::Calendar::load_in_time, ledger::specs::Calendar::before_tier, tariff::specs::Terms::first_tier_of))]
    pub fn load_in_time(self, term: u64) -> bool
        ensures { result ≡ load_in_time term (ledger_at self) }
    {
        if term == 0 {
            return self.before_tier(1);
        }
        !self.tier_is_open() && self.last_closed / 2 <= term
    }

    // A migration comes at its time: as a posting for its term, and for a month after tier 3.
    #[tactic(auto, unfolding(crate::specs::Calendar::ledger_at, ledger::specs::Ledger::with_tiers, ledger::specs::Calendar::migration_in_time, ledger::specs::Calendar::load_in_time))]
    pub fn migration_in_time(self, term: u64) -> bool
        ensures { result ≡ migration_in_time term (ledger_at self) }
    {
        self.load_in_time(term) && (term == 0 || LAST_SEASON_TIER <= self.last_closed)
    }

    // The Long Term step comes at its time: between tiers 1 and 2, and once.
    #[tactic(auto, unfolding(crate::specs::Calendar::ledger_at, ledger::specs::Ledger::with_tiers, ledger::specs::Calendar::step_in_time))]
    fn step_in_time(self) -> bool
        ensures { result ≡ step_in_time (ledger_at self) }
    {
        self.last_closed == 1 && !self.step_held
    }

    // A tier is the one after the last closed.
    fn follows_last_closed(self, tier: u64) -> bool
        ensures { result ≡ eqb tier (suc self.last_closed) }
    {
        self.last_closed < tier && tier - self.last_closed == 1
    }

    // A tier comes in its order: the Long Term step at its time, any other after the last closed.
    #[tactic(auto, unfolding(tariff::specs::Terms::is_long_term_step))]
    fn is_in_order(self, tier: u64) -> bool
        ensures { result ≡ cond (is_long_term_step tier) (step_in_time (ledger_at self)) (eqb tier (suc self.last_closed)) }
    {
        if tier == LONG_TERM_STEP {
            return self.step_in_time();
        }
        self.follows_last_closed(tier)
    }

    // No tier is open, and this one comes in its order.
    #[tactic(auto, unfolding(crate::specs::Calendar::ledger_at, ledger::specs::Ledger::with_tiers, ledger::specs::Calendar::is_next_tier))]
    pub fn is_next_tier(self, tier: u64) -> bool
        ensures { result ≡ is_next_tier tier (ledger_at self) }
    {
        !self.tier_is_open() && self.is_in_order(tier)
    }
}
