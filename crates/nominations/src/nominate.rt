// Nominate: what a holder asks for in the open tier (01, Tiers, Nominate; 02, 1/14 and 2/14).
ghost use Rattle.std.specs.Prelude.{◌≡◌, ◌||◌, ◌&&◌, drop, eqb};
ghost use Rattle.ledger.specs.Opening.{path_sink};
ghost use Rattle.ledger.specs.Call.{nominate};
ghost use Rattle.ledger.specs.Numbers.{first_met};
ghost use Rattle.ledger.specs.Causes.{kind_ineligible, is_sub_lap, needs_verification, lacks_evidence, exceeds_verified, exceeds_prior, exceeds_limit, nominate_causes, refusal};
ghost use Rattle.records.specs.Refusals.{refused_by};
ghost use Rattle.slots.specs.Steps.{ReachableFigures, InFigures, FiguresStep};
ghost use Rattle.nomination_tests.specs.Nominated.{InNomination};
ghost use Rattle.slots.specs.TierCall.{causes_before_tier};
ghost use Rattle.nominations.specs.CauseOrder.{causes_before_step};

use nomination_tests::nomination::Nomination;
use nomination_tests::source_usage::{has_evidence, source_usage, verified_kw};
use records::refusal::Refusal;
use records::setup::KeptOpening;
use slots::calendar::current_tier;
use slots::cells::add;
use slots::layout::{Figures, NOMINATED_SLOT, PRIOR_REMAINING_SLOT};
use slots::sums::sum_at_base;
use slots::tier_call::check_tier_call;
use tariff::sizes::LONG_TERM_STEP;
use tier_limits::limits::tier_limit;

// Cause 10: the path's sink is not for the holder, or is a Sub-LAP in tier 1.
#[tactic(auto, unfolding(slots::specs::Layout::ledger_in))]
fn sink_ineligible(n: &Nomination) -> bool
    ensures { InNomination n.now (λ O L h p kw. result ≡ (kind_ineligible O h (path_sink O p) || (eqb L.tiers.current_tier 1 && is_sub_lap O (path_sink O p)))) }
{
    let (o, f) = (n.opening, n.figures);
    let sink = o.path_sink(n.path);
    o.kind_ineligible(n.holder, sink) || (current_tier(f) == 1 && o.is_sub_lap(sink))
}

// Causes 19 and 11: whether a holder has to verify its sources. An OBAALSE has to, in every tier but the Long Term step.
#[tactic(auto, unfolding(ledger::specs::Causes::needs_verification, tariff::specs::Terms::is_long_term_step, slots::specs::Layout::ledger_in))]
fn needs_verification(n: &Nomination) -> bool
    ensures { InNomination n.now (λ O L h p kw. result ≡ needs_verification O L.tiers.current_tier h) }
{
    let (o, f) = (n.opening, n.figures);
    current_tier(f) != LONG_TERM_STEP && o.is_obaalse(n.holder)
}

// Cause 19: the path's source has no evidence for the tier's term.
#[tactic(auto, unfolding(ledger::specs::Causes::lacks_evidence))]
fn lacks_evidence(n: &Nomination) -> bool
    ensures { InNomination n.now (λ O L h p kw. result ≡ lacks_evidence O L L.tiers.current_tier h p) }
{
    let source = n.opening.path_source(n.path);
    needs_verification(n) && !has_evidence(n.opening, n.figures, n.holder, source)
}

// Cause 11: with kw more, the holder uses more of the path's source than it has verified.
#[tactic(auto, unfolding(ledger::specs::Causes::exceeds_verified))]
fn exceeds_verified(n: &Nomination) -> bool
    ensures { InNomination n.now (λ O L h p kw. result ≡ exceeds_verified O L L.tiers.current_tier h p kw) }
{
    if !needs_verification(n) {
        return false;
    }
    let (o, f, h) = (n.opening, n.figures, n.holder);
    let source = o.path_source(n.path);
    let verified = verified_kw(o, f, h, source);
    let wanted = source_usage(o, f, h, source) + n.kw;
    verified < wanted
}

// Cause 12: with kw more, a holder's tier 1 nominations on a path exceed what is left of last year's allocation.
fn exceeds_prior(n: &Nomination) -> bool
    ensures { InNomination n.now (λ O L h p kw. result ≡ exceeds_prior L L.tiers.current_tier h p kw) }
{
    n.exceeds_in_tier(1, PRIOR_REMAINING_SLOT)
}

// Cause 13: with kw more, a holder's nominations at the path's base exceed the limit.
fn exceeds_limit(n: &Nomination) -> bool
    ensures { InNomination n.now (λ O L h p kw. result ≡ exceeds_limit O L L.tiers.current_tier h p kw) }
{
    let (o, f, h) = (n.opening, n.figures, n.holder);
    let base = o.path_base(n.path);
    let limit = tier_limit(o, f, current_tier(f), h, base);
    let wanted = sum_at_base(o, f, h, NOMINATED_SLOT, base) + n.kw;
    limit < wanted
}

// Whether a nomination meets none of causes 17, 18 and 13, else the first that it meets: those of the Long Term step come before the limit.
#[tactic(auto, unfolding(ledger::specs::Causes::nominate_causes, ledger::specs::Numbers::first_met))]
fn check_limit(n: &Nomination) -> Result<(), Refusal>
    ensures { InNomination n.now (λ O L h p kw. refused_by result ≡ first_met (drop causes_before_step (nominate_causes O L h p kw))) }
{
    if n.exceeds_tier_1_award() {
        return Err(Refusal::AboveTier1Award);
    }
    if n.lacks_ten_year() {
        return Err(Refusal::NoTenYearEvidence);
    }
    if exceeds_limit(n) {
        return Err(Refusal::AboveLimit);
    }
    Ok(())
}

// Whether a nomination meets no cause in the open tier, else the first that it meets: 10, 19, 11, 12 and then those above.
#[tactic(auto, unfolding(ledger::specs::Causes::nominate_causes, ledger::specs::Numbers::first_met))]
fn check_in_tier(n: &Nomination) -> Result<(), Refusal>
    ensures { InNomination n.now (λ O L h p kw. refused_by result ≡ first_met (drop causes_before_tier (nominate_causes O L h p kw))) }
{
    if sink_ineligible(n) {
        return Err(Refusal::SinkIneligible);
    }
    if lacks_evidence(n) {
        return Err(Refusal::Unverified);
    }
    if exceeds_verified(n) {
        return Err(Refusal::AboveVerified);
    }
    if exceeds_prior(n) {
        return Err(Refusal::AbovePrior);
    }
    check_limit(n)
}

// Whether a nomination meets no cause, else the first that it meets. Each is looked for only where none before it is met.
#[tactic(auto, unfolding(ledger::specs::Causes::refusal, ledger::specs::Causes::call_causes, ledger::specs::Causes::nominate_causes, ledger::specs::Numbers::first_met))]
fn check_nominate(o: &KeptOpening, f: &Figures, h: u64, p: u64, kw: u64) -> Result<(), Refusal>
    requires { ReachableFigures o.now f.now }
    ensures { InFigures o.now f.now (λ O L. refused_by result ≡ refusal O L (nominate h p kw)) }
{
    check_tier_call(o, f, h, p, kw)?;
    check_in_tier(&Nomination {
        opening: o,
        figures: f,
        holder: h,
        path: p,
        kw,
    })
}

// Nominates kw for a holder on a path in the open tier.
pub fn nominate(o: &KeptOpening, f: &mut Figures, h: u64, p: u64, kw: u64) -> Result<(), Refusal>
    requires { ReachableFigures o.now f.old }
    ensures { FiguresStep o.now f.old (nominate h p kw) result f.new }
{
    check_nominate(o, f, h, p, kw)?;
    add(f, h, p, NOMINATED_SLOT, kw);
    Ok(())
}
