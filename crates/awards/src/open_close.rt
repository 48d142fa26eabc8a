// Opening and closing a tier (01, Tiers), or the Long Term step (02, 1/14).
ghost use Rattle.std.specs.Prelude.{◌≡◌, Bool, cond, List};
ghost use Rattle.source_evidence.specs.declared.evidence.Entry.{Entry};
ghost use Rattle.tariff.specs.Terms.{is_long_term_step};
ghost use Rattle.ledger.specs.Call.{open_tier, close_tier};
ghost use Rattle.ledger.specs.Causes.{refusal};
ghost use Rattle.ledger.specs.Opening.{Opening};
ghost use Rattle.records.specs.Refusals.{refused_by};
ghost use Rattle.slots.specs.Layout.{ledger_in};
ghost use Rattle.slots.specs.Steps.{ReachableTier, TierStep};

use records::calendar::Calendar;
use records::ranges::tier_out_of_range;
use records::refusal::Refusal;
use slots::calendar::calendar;
use slots::cells::clear;
use slots::layout::{CURRENT_TIER_AT, Figures, LAST_CLOSED_AT, NOMINATED_SLOT, STEP_HELD_AT};
use tariff::sizes::LONG_TERM_STEP;

// Whether an open meets no cause, else the first that it meets.
#[tactic(auto, using(slots::proofs::CalendarLaws::next_as_ledger), unfolding(ledger::specs::Causes::refusal, ledger::specs::Causes::call_causes, ledger::specs::Causes::open_causes, ledger::specs::Numbers::first_met))]
fn check_open(f: &Figures, tier: u64) -> Result<(), Refusal>
    ensures { (O : Opening) (m : List Bool) (x : List Entry) → refused_by result ≡ refusal O (ledger_in f.now m x) (open_tier tier) }
{
    if tier_out_of_range(tier) {
        return Err(Refusal::OutOfRange);
    }
    if !calendar(f).is_next_tier(tier) {
        return Err(Refusal::NotAtThisTime);
    }
    Ok(())
}

// Whether a close meets no cause, else the one that it meets.
#[tactic(auto, using(slots::proofs::CalendarLaws::open_as_ledger), unfolding(ledger::specs::Causes::refusal, ledger::specs::Causes::call_causes, ledger::specs::Causes::close_causes, ledger::specs::Numbers::first_met))]
fn check_close(f: &Figures) -> Result<(), Refusal>
    ensures { (O : Opening) (m : List Bool) (x : List Entry) → refused_by result ≡ refusal O (ledger_in f.now m x) close_tier }
{
    if !calendar(f).tier_is_open() {
        return Err(Refusal::NotAtThisTime);
    }
    Ok(())
}

// Opens a tier, which has no nominations yet. The Long Term step is noted as held (02, 1/14).
pub fn open_tier(f: &mut Figures, tier: u64) -> Result<(), Refusal>
    requires { ReachableTier f.old }
    ensures { TierStep f.old (open_tier tier) result f.new }
{
    check_open(f, tier)?;
    let held = u64::from(tier == LONG_TERM_STEP || calendar(f).step_held);
    clear(f, NOMINATED_SLOT);
    f[CURRENT_TIER_AT] = tier;
    f[STEP_HELD_AT] = held;
    Ok(())
}

// The tier last closed once the open one is closed: the Long Term step does not count (02, 1/14).
#[tactic(auto, unfolding(tariff::specs::Terms::is_long_term_step))]
fn last_closed_after(calendar: Calendar) -> u64
    ensures { result ≡ cond (is_long_term_step calendar.current_tier) calendar.last_closed calendar.current_tier }
{
    if calendar.current_tier == LONG_TERM_STEP {
        calendar.last_closed
    } else {
        calendar.current_tier
    }
}

// Closes the open tier: what was not awarded is dropped.
pub fn close_tier(f: &mut Figures) -> Result<(), Refusal>
    requires { ReachableTier f.old }
    ensures { TierStep f.old close_tier result f.new }
{
    check_close(f)?;
    let closed = last_closed_after(calendar(f));
    clear(f, NOMINATED_SLOT);
    f[LAST_CLOSED_AT] = closed;
    f[CURRENT_TIER_AT] = 0;
    Ok(())
}
