// The fractions that a book is opened with (02, 3/14).
ghost use Rattle.std.specs.Prelude.{◌≡◌, true};
ghost use Rattle.tariff.specs.Settings.{part_of, fraction_legal, settings_legal, present_settings, settings_of, settings_numbers};

use crate::sizes::{MAX_FRACTION, SETTING_COUNT};

#[derive(Clone, Copy)]
pub struct Fraction {
    pub numerator: u64,
    pub denominator: u64,
}

// The six fractions, in the order of a set line.
#[derive(Clone, Copy)]
pub struct Settings {
    // S: the part of a load that a season gives.
    pub seasonal: Fraction,
    // P: the part of S that tiers 1 and 2 give.
    pub priority: Fraction,
    // The part of the present hours that may lie above the metric.
    pub exceedance: Fraction,
    // The part of the hours that may be missing.
    pub missing: Fraction,
    // The part of a load that the Long Term step gives without ten-year evidence.
    pub without_evidence: Fraction,
    // The most of a load that the step gives with such evidence, which caps tier 1 too.
    pub with_evidence: Fraction,
}

impl Fraction {
    // A fraction of a number, rounded down. By whole denominators and by what is left, so that no product wraps.
    #[tactic(auto, using(crate::proofs::Fractions::fraction_facts, crate::proofs::Fractions::by_whole, crate::proofs::Fractions::part_le), unfolding(crate::specs::Settings::part_of))]
    pub fn part_of(self, x: u64) -> u64
        requires { fraction_legal self ≡ true }
        ensures { result ≡ part_of self x }
    {
        let n = self.numerator;
        let d = self.denominator;
        x / d * n + x % d * n / d
    }

    // 0 to 1,000, 1 to 1,000, and the numerator not above the denominator.
    #[tactic(auto, unfolding(crate::specs::Settings::fraction_legal))]
    pub fn is_legal(self) -> bool
        ensures { result ≡ fraction_legal self }
    {
        let n = self.numerator;
        let d = self.denominator;
        n <= MAX_FRACTION && (1..=MAX_FRACTION).contains(&d) && n <= d
    }
}

impl Settings {
    // The fractions of a book that is opened without a set line.
    #[tactic(auto, unfolding(crate::specs::Settings::present_settings))]
    pub fn present() -> Settings
        ensures { result ≡ present_settings }
    {
        Settings::from([3, 4, 2, 3, 1, 200, 1, 50, 1, 5, 1, 2])
    }

    // Every fraction is legal.
    #[tactic(auto, unfolding(crate::specs::Settings::settings_legal))]
    pub fn is_legal(self) -> bool
        ensures { result ≡ settings_legal self }
    {
        self.seasonal.is_legal()
            && self.priority.is_legal()
            && self.exceedance.is_legal()
            && self.missing.is_legal()
            && self.without_evidence.is_legal()
            && self.with_evidence.is_legal()
    }
}

// Six pairs of a numerator and a denominator.
impl From<[u64; SETTING_COUNT]> for Settings {
    ghost from_gives = { λ n s. s ≡ settings_of n };

    #[tactic(auto, unfolding(crate::specs::Settings::settings_of, crate::specs::Settings::fraction_at))]
    fn from(n: [u64; SETTING_COUNT]) -> Settings {
        Settings {
            seasonal: Fraction {
                numerator: n[0],
                denominator: n[1],
            },
            priority: Fraction {
                numerator: n[2],
                denominator: n[3],
            },
            exceedance: Fraction {
                numerator: n[4],
                denominator: n[5],
            },
            missing: Fraction {
                numerator: n[6],
                denominator: n[7],
            },
            without_evidence: Fraction {
                numerator: n[8],
                denominator: n[9],
            },
            with_evidence: Fraction {
                numerator: n[10],
                denominator: n[11],
            },
        }
    }
}

// The six pairs as numbers.
impl From<Settings> for [u64; SETTING_COUNT] {
    ghost from_gives = { λ s n. n ≡ settings_numbers s };

    #[tactic(auto, unfolding(crate::specs::Settings::settings_numbers))]
    fn from(s: Settings) -> [u64; SETTING_COUNT] {
        [
            s.seasonal.numerator,
            s.seasonal.denominator,
            s.priority.numerator,
            s.priority.denominator,
            s.exceedance.numerator,
            s.exceedance.denominator,
            s.missing.numerator,
            s.missing.denominator,
            s.without_evidence.numerator,
            s.without_evidence.denominator,
            s.with_evidence.numerator,
            s.with_evidence.denominator,
        ]
    }
}
