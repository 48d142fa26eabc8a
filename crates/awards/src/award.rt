// Award: what of a holder's nominations is granted, in each month of the open tier's term; in the Long Term step in none (01, Tiers, Award; 02, 1/14).
ghost use Rattle.std.specs.Prelude.{◌≡◌, Bool, List, ◌≤◌};
ghost use Rattle.source_evidence.specs.declared.evidence.Entry.{Entry};
ghost use Rattle.tariff.specs.Sizes.{long_term_step};
ghost use Rattle.ledger.specs.Call.{award};
ghost use Rattle.ledger.specs.Causes.{exceeds_nominated, refusal};
ghost use Rattle.records.specs.Refusals.{refused_by};
ghost use Rattle.slots.specs.Layout.{current_tier_in, ledger_in, nominated_slot, ownership_slot};
ghost use Rattle.slots.specs.Months.{HasRoom};
ghost use Rattle.slots.specs.Steps.{ReachableFigures, InFigures, FiguresStep};

use records::refusal::Refusal;
use records::setup::KeptOpening;
use slots::calendar::current_tier;
use slots::cells::{add, read};
use slots::layout::{AWARDED_SLOT, AWARDS_SLOT, Figures, NOMINATED_SLOT};
use slots::months::add_in_term;
use slots::tier_call::check_tier_call;
use tariff::terms::{entering_kw, term_of};

// Cause 14: with kw more, a holder's awards on a path exceed its nominations in the open tier.
fn exceeds_nominated(f: &Figures, tier: u64, h: u64, p: u64, kw: u64) -> bool
    requires { (tier ≡ current_tier_in f.now) × (tier ≤ long_term_step) × HasRoom f.now h p nominated_slot ownership_slot kw }
    ensures { (m : List Bool) (x : List Entry) → result ≡ exceeds_nominated (ledger_in f.now m x) (current_tier_in f.now) h p kw }
{
    let nominated = read(f, h, p, NOMINATED_SLOT);
    let wanted = read(f, h, p, AWARDS_SLOT + tier) + kw;
    nominated < wanted
}

// Whether an award meets no cause, else the first that it meets.
#[tactic(auto, unfolding(ledger::specs::Causes::refusal, ledger::specs::Causes::call_causes, ledger::specs::Causes::award_causes, ledger::specs::Numbers::first_met, slots::specs::Layout::ledger_in))]
fn check_award(o: &KeptOpening, f: &Figures, h: u64, p: u64, kw: u64) -> Result<(), Refusal>
    requires { ReachableFigures o.now f.now }
    ensures { InFigures o.now f.now (λ O L. refused_by result ≡ refusal O L (award h p kw)) }
{
    check_tier_call(o, f, h, p, kw)?;
    if exceeds_nominated(f, current_tier(f), h, p, kw) {
        return Err(Refusal::AboveNominated);
    }
    Ok(())
}

// Awards kw to a holder on a path in the open tier. The Long Term step's awards enter no holding (02, 1/14).
pub fn award(o: &KeptOpening, f: &mut Figures, h: u64, p: u64, kw: u64) -> Result<(), Refusal>
    requires { ReachableFigures o.now f.old }
    ensures { FiguresStep o.now f.old (award h p kw) result f.new }
{
    check_award(o, f, h, p, kw)?;
    let tier = current_tier(f);
    let term = term_of(tier);
    add_in_term(f, h, p, AWARDED_SLOT, term, entering_kw(tier, kw));
    add(f, h, p, AWARDS_SLOT + tier, kw);
    Ok(())
}
