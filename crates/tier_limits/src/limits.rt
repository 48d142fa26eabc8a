// The limit of a tier: the sums that it is made of, added up in one pass over the paths, and the limit itself (01, Limits; 02, 1/14 and 3/14).
ghost use Rattle.std.specs.Prelude.{◌≡◌};
ghost use Rattle.ledger.specs.Call.{limit_of};
ghost use Rattle.ledger.specs.Causes.{query_refusal};
ghost use Rattle.ledger.specs.Limits.{limit_sums, tier_limit};
ghost use Rattle.records.specs.Opening.{opening_of};
ghost use Rattle.records.specs.Refusals.{refused_by};
ghost use Rattle.slots.specs.Steps.{ReachableFigures, InFigures, query_answer};
ghost use Rattle.tier_limits.specs.Inputs.{LimitInputs};
ghost use Rattle.tier_limits.specs.PathSums.{sums_to, PathsSummable};

use crate::ten_year::ten_year_in;
use records::refusal::Refusal;
use records::setup::KeptOpening;
use slots::calendar::{calendar, current_tier};
use slots::cells::read;
use slots::layout::{AWARDS_SLOT, CARRIED_SLOT, Figures, LOAD_SLOT, PRIOR_ALLOCATED_SLOT};
use tariff::limit::{Sums, tier_rule};
use tariff::terms::carried_month;

// The sums of a limit that run over paths.
#[derive(Clone, Copy, Default)]
pub struct PathSums {
    pub carried: u64,
    pub prior: u64,
    pub tier1: u64,
    pub tier2: u64,
    pub tier3: u64,
    pub before: u64,
}

// The two slots that a limit reads by its tier: that of the month's carried holding, and that of the awards of the tier before.
#[derive(Clone, Copy)]
pub struct TierSlots {
    pub carried: u64,
    pub before: u64,
}

impl PathSums {
    ghost use Rattle.tier_limits.specs.PathSums.{with_path, PathSummable};

    // The sums with the figures of one path more, where it counts.
    fn with_path(self, f: &Figures, h: u64, p: u64, slots: TierSlots, counts: bool) -> PathSums
        requires { PathSummable f.now h p slots self }
        ensures { result ≡ with_path f.now h p slots counts self }
    {
        if !counts {
            return self;
        }
        PathSums {
            carried: self.carried + read(f, h, p, slots.carried),
            prior: self.prior + read(f, h, p, PRIOR_ALLOCATED_SLOT),
            tier1: self.tier1 + read(f, h, p, AWARDS_SLOT + 1),
            tier2: self.tier2 + read(f, h, p, AWARDS_SLOT + 2),
            tier3: self.tier3 + read(f, h, p, AWARDS_SLOT + 3),
            before: self.before + read(f, h, p, slots.before),
        }
    }
}

// The sums over all paths whose sink has this base.
fn sum_paths(o: &KeptOpening, f: &Figures, h: u64, base: u64, slots: TierSlots) -> PathSums
    requires { PathsSummable o.now f.now h slots }
    ensures { result ≡ sums_to (opening_of o.entry) f.now h base slots (opening_of o.entry).paths }
{
    (0..o.paths()).fold(
        PathSums::default(),
        |sums, p| sums.with_path(f, h, p, slots, o.path_base(p) == base),
    )
}

// What a holder's limit at a base is made of in a tier.
fn limit_sums(o: &KeptOpening, f: &Figures, tier: u64, h: u64, base: u64) -> Sums
    requires { LimitInputs o.now f.now tier h base }
    ensures { InFigures o.now f.now (λ O L. result ≡ limit_sums O L tier h base) }
{
    let rule = tier_rule(tier);
    let term = rule.term;
    let month = carried_month(term);
    let last = tier.saturating_sub(1);
    let load = read(f, h, base, LOAD_SLOT + term);
    let slots = TierSlots {
        carried: CARRIED_SLOT + (month - 1),
        before: AWARDS_SLOT + last,
    };
    let PathSums {
        carried,
        prior,
        tier1,
        tier2,
        tier3,
        before,
    } = sum_paths(o, f, h, base, slots);
    let ten_year_kw = ten_year_in(o, f, tier, h);
    let obaalse = o.is_obaalse(h);
    Sums {
        load,
        carried,
        prior,
        tier1,
        tier2,
        tier3,
        before,
        ten_year_kw,
        obaalse,
    }
}

// The limit on what a holder nominates at a base in a tier.
pub fn tier_limit(o: &KeptOpening, f: &Figures, tier: u64, h: u64, base: u64) -> u64
    requires { LimitInputs o.now f.now tier h base }
    ensures { InFigures o.now f.now (λ O L. result ≡ tier_limit O L tier h base) }
{
    let sums = limit_sums(o, f, tier, h, base);
    o.legal_settings().limit_of_sums(tier, sums)
}

// Whether a limit query meets no cause, else the first that it meets.
#[tactic(auto, using(slots::proofs::CalendarLaws::open_as_ledger), unfolding(ledger::specs::Causes::query_refusal, ledger::specs::Causes::query_causes, ledger::specs::Causes::limit_causes, ledger::specs::Numbers::first_met))]
fn check_limit(o: &KeptOpening, f: &Figures, h: u64, s: u64) -> Result<(), Refusal>
    ensures { InFigures o.now f.now (λ O L. refused_by result ≡ query_refusal O L (limit_of h s)) }
{
    if o.unknown_holder(h) || o.unknown_sink(s) {
        return Err(Refusal::NotInBook);
    }
    if !calendar(f).tier_is_open() {
        return Err(Refusal::NotAtThisTime);
    }
    Ok(())
}

// A holder's limit at a sink's base in the open tier.
pub fn limit(o: &KeptOpening, f: &Figures, h: u64, s: u64) -> Result<u64, Refusal>
    requires { ReachableFigures o.now f.now }
    ensures { InFigures o.now f.now (λ O L. result ≡ query_answer O L (limit_of h s)) }
{
    check_limit(o, f, h, s)?;
    let base = o.sink_base(s);
    Ok(tier_limit(o, f, current_tier(f), h, base))
}
