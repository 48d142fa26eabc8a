// What the Long Term step refuses: nominations above the tier 1 award, and sources without ten-year evidence (02, 1/14 and 3/14).
ghost use Rattle.std.specs.Prelude.{◌≡◌, not, ◌&&◌};
ghost use Rattle.tariff.specs.Sum.{any_below};
ghost use Rattle.ledger.specs.Opening.{path_base, path_source};
ghost use Rattle.ledger.specs.TenYear.{has_ten_year};
ghost use Rattle.ledger.specs.Causes.{exceeds_tier1_award, needs_ten_year, needs_evidence_at, lacks_ten_year};
ghost use Rattle.slots.specs.Steps.{InFigures};
ghost use Rattle.nomination_tests.specs.Inputs.{PathPair};

use crate::nomination::Nomination;
use records::setup::KeptOpening;
use slots::calendar::current_tier;
use slots::cells::read;
use slots::layout::{AWARDS_SLOT, CARRIED_SLOT, Figures, LOAD_SLOT, NOMINATED_SLOT};
use slots::sums::sum_at_base;
use tariff::sizes::LONG_TERM_STEP;
use tier_limits::ten_year::has_ten_year;

// Whether a nomination on path p that needs ten-year evidence needs it at the source of path q: at that of p itself, and of each path at its base that the
// holder has nominated on.
fn needs_evidence_at(o: &KeptOpening, f: &Figures, h: u64, p: u64, q: u64) -> bool
    requires { PathPair o.now f.now h p q }
    ensures { InFigures o.now f.now (λ O L. result ≡ needs_evidence_at O L L.tiers.current_tier h p q) }
{
    if q == p {
        return true;
    }
    o.path_base(q) == o.path_base(p) && 1 <= read(f, h, q, NOMINATED_SLOT)
}

// Whether it needs it there, where the source has none.
fn lacks_evidence_at(o: &KeptOpening, f: &Figures, h: u64, p: u64, q: u64) -> bool
    requires { PathPair o.now f.now h p q }
    ensures { InFigures o.now f.now (λ O L. result ≡ (needs_evidence_at O L L.tiers.current_tier h p q && not (has_ten_year L h (path_source O q)))) }
{
    needs_evidence_at(o, f, h, p, q) && !has_ten_year(o, f, h, o.path_source(q))
}

impl<'a> Nomination<'a> {
    ghost use Rattle.nomination_tests.specs.Nominated.{InNomination};

    // Cause 17: with kw more, a holder's nominations on a path in the step exceed its tier 1 award there.
    pub fn exceeds_tier_1_award(&self) -> bool
        ensures { InNomination self.now (λ O L h p kw. result ≡ exceeds_tier1_award L L.tiers.current_tier h p kw) }
    {
        self.exceeds_in_tier(LONG_TERM_STEP, AWARDS_SLOT + 1)
    }

    // Whether ten-year evidence is needed: by an OBAALSE always, by another holder where with kw more its nominations at the base, and its carried
    // holding of month 1, exceed what the step gives of its load of the season without it.
    #[tactic(auto, unfolding(ledger::specs::Causes::needs_ten_year))]
    fn needs_ten_year(&self) -> bool
        ensures { InNomination self.now (λ O L h p kw. result ≡ needs_ten_year O L L.tiers.current_tier h (path_base O p) kw) }
    {
        let (o, f, h) = (self.opening, self.figures, self.holder);
        if o.is_obaalse(h) {
            return true;
        }
        let base = o.path_base(self.path);
        let load = read(f, h, base, LOAD_SLOT);
        let nominated = sum_at_base(o, f, h, NOMINATED_SLOT, base);
        let carried = sum_at_base(o, f, h, CARRIED_SLOT, base);
        o.legal_settings().eligible_without_evidence(load) < nominated + self.kw + carried
    }

    // Whether it is needed at the source of some path that has none.
    fn some_path_lacks(&self) -> bool
        ensures { InNomination self.now (λ O L h p kw. result ≡ any_below O.paths (λ q. needs_evidence_at O L L.tiers.current_tier h p q && not (has_ten_year L h (path_source O q)))) }
    {
        let (o, f, h, p) = (self.opening, self.figures, self.holder, self.path);
        (0..o.paths()).any(|q| lacks_evidence_at(o, f, h, p, q))
    }

    // Cause 18: in the step, ten-year evidence is needed at a source that has none.
    #[tactic(auto, unfolding(ledger::specs::Causes::lacks_ten_year, tariff::specs::Terms::is_long_term_step, slots::specs::Layout::ledger_in))]
    pub fn lacks_ten_year(&self) -> bool
        ensures { InNomination self.now (λ O L h p kw. result ≡ lacks_ten_year O L L.tiers.current_tier h p kw) }
    {
        let f = self.figures;
        current_tier(f) == LONG_TERM_STEP && self.needs_ten_year() && self.some_path_lacks()
    }
}
