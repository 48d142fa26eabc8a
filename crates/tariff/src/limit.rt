// The limit by tier, by the book's settings (01, Limits; 02, 1/14 and 3/14).
ghost use Rattle.std.specs.Prelude.{◌≡◌};
ghost use Rattle.tariff.specs.Limit.{limit_tier1, limit_tier2, limit_tier3, limit_even_tier, limit_odd_tier, long_term_eligible, limit_long_term, limit_by, rule_of, limit_of_sums};

use crate::legal_settings::LegalSettings;
use crate::sizes::{LAST_SEASON_TIER, LONG_TERM_STEP};
use crate::terms::term_of;

// What a limit is made of, for one holder, base and tier.
#[derive(Clone, Copy)]
pub struct Sums {
    // A: the load at the tier's term.
    pub load: u64,
    // LT: the carried holding, of the month, or of month 1 in tiers 1 to 3.
    pub carried: u64,
    // The sum of prior's a.
    pub prior: u64,
    // T1, T2, T3: the awards in tiers 1 to 3.
    pub tier1: u64,
    pub tier2: u64,
    pub tier3: u64,
    // The awards in the tier just before.
    pub before: u64,
    // E: the kW of the holder's ten-year evidence, in the Long Term step.
    pub ten_year_kw: u64,
    // Whether the holder is an OBAALSE.
    pub obaalse: bool,
}

// The formulas that a limit can have.
#[derive(Clone, Copy)]
pub enum Formula {
    First,
    Second,
    Third,
    Even,
    Odd,
    LongTerm,
}

// A tier's formula, and the term whose load it takes.
#[derive(Clone, Copy)]
pub struct TierRule {
    pub formula: Formula,
    pub term: u64,
}

// The formula and the term, by the tier's number. Tiers 1 to 3 are the season's, and so is the Long Term step.
#[tactic(auto, unfolding(crate::specs::Limit::rule_of, crate::specs::Limit::formula_of, crate::specs::Terms::is_long_term_step, crate::specs::Terms::term_of, crate::specs::Terms::term_table, crate::specs::Ranges::within))]
pub fn tier_rule(tier: u64) -> TierRule
    ensures { result ≡ rule_of tier }
{
    match tier {
        1 => TierRule {
            formula: Formula::First,
            term: 0,
        },
        2..=LAST_SEASON_TIER => TierRule {
            formula: if tier == 2 {
                Formula::Second
            } else {
                Formula::Third
            },
            term: 0,
        },
        LONG_TERM_STEP => TierRule {
            formula: Formula::LongTerm,
            term: 0,
        },
        _ => TierRule {
            formula: if tier % 2 == 0 {
                Formula::Even
            } else {
                Formula::Odd
            },
            term: term_of(tier),
        },
    }
}

impl Sums {
    // The awards come off one after the other, so that no sum wraps.
    #[tactic(auto, unfolding(crate::specs::Limit::limit_even_tier))]
    fn limit_even_tier(self) -> u64
        ensures { result ≡ limit_even_tier self }
    {
        self.load
            .saturating_sub(self.tier1)
            .saturating_sub(self.tier2)
            .saturating_sub(self.tier3)
            .saturating_sub(self.carried)
    }

    #[tactic(auto, unfolding(crate::specs::Limit::limit_odd_tier))]
    fn limit_odd_tier(self) -> u64
        ensures { result ≡ limit_odd_tier self }
    {
        self.limit_even_tier().saturating_sub(self.before)
    }
}

impl LegalSettings {
    #[tactic(auto, unfolding(crate::specs::Limit::limit_tier1))]
    fn limit_tier_1(self, s: Sums) -> u64
        ensures { result ≡ limit_tier1 self.settings s }
    {
        let by_load = self.priority_eligible(s.load).saturating_sub(s.carried);
        let by_prior = s.prior.saturating_sub(s.carried);
        let by_cap = self
            .eligible_with_evidence(s.load)
            .saturating_sub(s.carried);
        by_load.min(by_prior).min(by_cap)
    }

    #[tactic(auto, unfolding(crate::specs::Limit::limit_tier2))]
    fn limit_tier_2(self, s: Sums) -> u64
        ensures { result ≡ limit_tier2 self.settings s }
    {
        self.priority_eligible(s.load)
            .saturating_sub(s.tier1)
            .saturating_sub(s.carried)
    }

    #[tactic(auto, unfolding(crate::specs::Limit::limit_tier3))]
    fn limit_tier_3(self, s: Sums) -> u64
        ensures { result ≡ limit_tier3 self.settings s }
    {
        self.seasonal_eligible(s.load)
            .saturating_sub(s.tier1)
            .saturating_sub(s.tier2)
            .saturating_sub(s.carried)
    }

    // The part of a holder's load that the Long Term step is for.
    #[tactic(auto, unfolding(crate::specs::Limit::long_term_eligible, crate::specs::Limit::long_term_of_lse, crate::specs::Limit::eligible_by_evidence))]
    fn long_term_eligible(self, s: Sums) -> u64
        ensures { result ≡ long_term_eligible self.settings s }
    {
        let without = self.eligible_without_evidence(s.load);
        let most = self.eligible_with_evidence(s.load);
        if s.obaalse {
            return most;
        }
        if s.ten_year_kw <= without {
            return without;
        }
        s.ten_year_kw.min(most)
    }

    #[tactic(auto, unfolding(crate::specs::Limit::limit_long_term))]
    fn limit_long_term(self, s: Sums) -> u64
        ensures { result ≡ limit_long_term self.settings s }
    {
        self.long_term_eligible(s).saturating_sub(s.carried)
    }

    // The limit by a formula.
    #[tactic(auto, unfolding(crate::specs::Limit::limit_by))]
    pub fn limit_by(self, formula: Formula, s: Sums) -> u64
        ensures { result ≡ limit_by self.settings formula s }
    {
        match formula {
            Formula::First => self.limit_tier_1(s),
            Formula::Second => self.limit_tier_2(s),
            Formula::Third => self.limit_tier_3(s),
            Formula::Even => s.limit_even_tier(),
            Formula::Odd => s.limit_odd_tier(),
            Formula::LongTerm => self.limit_long_term(s),
        }
    }

    // The limit in a tier.
    #[tactic(auto, unfolding(crate::specs::Limit::limit_of_sums, crate::specs::Limit::rule_of))]
    pub fn limit_of_sums(self, tier: u64, s: Sums) -> u64
        ensures { result ≡ limit_of_sums self.settings tier s }
    {
        let rule = tier_rule(tier);
        self.limit_by(rule.formula, s)
    }
}
