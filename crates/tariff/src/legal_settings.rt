// The settings of a book, whose fractions are all legal, and what they give of a load (01, Limits; 02, 1/14 and 3/14).
ghost use Rattle.std.specs.Prelude.{◌≡◌, true, false, IfSome, IsSome, IsNone};
ghost use Rattle.tariff.specs.Settings.{part_of, settings_legal};
ghost use Rattle.tariff.specs.Eligible.{seasonal_eligible, priority_eligible, eligible_without_evidence, eligible_with_evidence};

use crate::settings::Settings;

#[derive(Clone, Copy)]
pub struct LegalSettings {
    pub settings: Settings,
    ghost legal: { settings_legal settings ≡ true },
}

impl Settings {
    // These settings as a book's, if they are legal.
    pub fn legal(self) -> Option<LegalSettings>
        ensures legal { settings_legal self ≡ true → IfSome result (λ s. s.settings ≡ self) × IsSome result }
        ensures illegal { settings_legal self ≡ false → IsNone result }
    {
        if self.is_legal() {
            Some(LegalSettings { settings: self })
        } else {
            None
        }
    }
}

impl LegalSettings {
    // S of a load.
    #[tactic(auto, unfolding(crate::specs::Eligible::seasonal_eligible, crate::specs::Settings::settings_legal))]
    pub fn seasonal_eligible(self, load: u64) -> u64
        ensures { result ≡ seasonal_eligible self.settings load }
    {
        self.settings.seasonal.part_of(load)
    }

    // P of a load, by its S.
    #[tactic(auto, unfolding(crate::specs::Eligible::priority_eligible, crate::specs::Settings::settings_legal))]
    pub fn priority_eligible(self, load: u64) -> u64
        ensures { result ≡ priority_eligible self.settings load }
    {
        self.settings.priority.part_of(self.seasonal_eligible(load))
    }

    // What the Long Term step needs no ten-year evidence for.
    #[tactic(auto, unfolding(crate::specs::Eligible::eligible_without_evidence, crate::specs::Settings::settings_legal))]
    pub fn eligible_without_evidence(self, load: u64) -> u64
        ensures { result ≡ eligible_without_evidence self.settings load }
    {
        self.settings.without_evidence.part_of(load)
    }

    // What the Long Term step can come to with such evidence, and the most of tier 1.
    #[tactic(auto, unfolding(crate::specs::Eligible::eligible_with_evidence, crate::specs::Settings::settings_legal))]
    pub fn eligible_with_evidence(self, load: u64) -> u64
        ensures { result ≡ eligible_with_evidence self.settings load }
    {
        self.settings.with_evidence.part_of(load)
    }

    // How many of the present hours may lie above the metric.
    #[tactic(auto, unfolding(crate::specs::Settings::settings_legal))]
    pub fn hours_above_metric(self, present: u64) -> u64
        ensures { result ≡ part_of self.settings.exceedance present }
    {
        self.settings.exceedance.part_of(present)
    }

    // How many of the hours may be missing.
    #[tactic(auto, unfolding(crate::specs::Settings::settings_legal))]
    pub fn hours_missing(self, hours: u64) -> u64
        ensures { result ≡ part_of self.settings.missing hours }
    {
        self.settings.missing.part_of(hours)
    }
}
