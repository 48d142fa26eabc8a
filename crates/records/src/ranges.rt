// Which numbers of a call are outside their range (01, Refusals by cause; cause 3).
ghost use Rattle.std.specs.Prelude.{◌≡◌};
ghost use Rattle.tariff.specs.Ranges.{kw_out_of_range, term_out_of_range, month_out_of_range};
ghost use Rattle.ledger.specs.Ranges.{prior_out_of_range, tier_out_of_range};

use tariff::sizes::{LAST_MONTH, LAST_TERM, LONG_TERM_STEP, MAX_KW};

#[tactic(auto, unfolding(tariff::specs::Ranges::kw_out_of_range, tariff::specs::Ranges::within))]
pub fn kw_out_of_range(kw: u64) -> bool
    ensures { result ≡ kw_out_of_range kw }
{
    !(1..=MAX_KW).contains(&kw)
}

#[tactic(auto, unfolding(tariff::specs::Ranges::term_out_of_range))]
pub fn term_out_of_range(term: u64) -> bool
    ensures { result ≡ term_out_of_range term }
{
    LAST_TERM < term
}

#[tactic(auto, unfolding(tariff::specs::Ranges::month_out_of_range, tariff::specs::Terms::is_month))]
pub fn month_out_of_range(month: u64) -> bool
    ensures { result ≡ month_out_of_range month }
{
    !(1..=LAST_MONTH).contains(&month)
}

#[tactic(auto, unfolding(ledger::specs::Ranges::prior_out_of_range))]
pub fn prior_out_of_range(allocated: u64, long_term: u64) -> bool
    ensures { result ≡ prior_out_of_range allocated long_term }
{
    kw_out_of_range(allocated) || allocated < long_term
}

#[tactic(auto, unfolding(ledger::specs::Ranges::tier_out_of_range, tariff::specs::Ranges::within))]
pub fn tier_out_of_range(tier: u64) -> bool
    ensures { result ≡ tier_out_of_range tier }
{
    !(1..=LONG_TERM_STEP).contains(&tier)
}
