// The terms: 0 is the season, 1 to 3 its months (01, The book).
ghost use Rattle.std.specs.Prelude.{◌≡◌};
ghost use Rattle.tariff.specs.Terms.{term_of, has_month, entering_kw, carried_month};

use crate::sizes::{LAST_MONTH, LAST_TIER, LONG_TERM_STEP};

// The term of each tier, tier 1 first.
const TERM_TABLE: [u64; LAST_TIER as usize] = [0, 0, 0, 1, 1, 2, 2, 3, 3];

// The term of a tier; 0 for the Long Term step, and for a number that is no tier.
#[tactic(auto, unfolding(crate::specs::Terms::term_of, crate::specs::Terms::term_table))]
pub fn term_of(tier: u64) -> u64
    ensures { result ≡ term_of tier }
{
    if tier < 1 {
        return 0;
    }
    if LAST_TIER < tier {
        return 0;
    }
    TERM_TABLE[(tier - 1) as usize]
}

// Whether a term has a month: the season has all three.
#[tactic(auto, unfolding(crate::specs::Terms::has_month, crate::specs::Terms::is_month))]
pub fn has_month(term: u64, month: u64) -> bool
    ensures { result ≡ has_month term month }
{
    (1..=LAST_MONTH).contains(&month) && (term == 0 || term == month)
}

// What an award of kw adds to the holding of a month of its tier's term: nothing in the Long Term step.
#[tactic(auto, unfolding(crate::specs::Terms::entering_kw, crate::specs::Terms::is_long_term_step, crate::specs::Sum::when_true))]
pub fn entering_kw(tier: u64, kw: u64) -> u64
    ensures { result ≡ entering_kw tier kw }
{
    if tier == LONG_TERM_STEP { 0 } else { kw }
}

// The month whose carried rights count in a term's limits: month 1 for the season.
#[tactic(auto, unfolding(crate::specs::Terms::carried_month))]
pub fn carried_month(term: u64) -> u64
    ensures { result ≡ carried_month term }
{
    if term == 0 { 1 } else { term }
}
