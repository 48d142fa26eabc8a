// What a nomination and an award are refused for alike (01, Refusals by cause): who and where, how much, and when.
ghost use Rattle.std.specs.Prelude.{◌≡◌, take};
ghost use Rattle.ledger.specs.Numbers.{first_met};
ghost use Rattle.ledger.specs.Causes.{nominate_causes, award_causes};
ghost use Rattle.records.specs.Refusals.{refused_by};
ghost use Rattle.slots.specs.Steps.{InFigures};
ghost use Rattle.slots.specs.TierCall.{causes_before_tier};

use crate::calendar::calendar;
use crate::layout::Figures;
use records::ranges::kw_out_of_range;
use records::refusal::Refusal;
use records::setup::KeptOpening;

// Whether a call for a holder on a path in the open tier meets none of 2, 3 and 4, else the first that it meets, as a nomination and as an award.
#[tactic(auto, using(crate::proofs::CalendarLaws::open_as_ledger), unfolding(ledger::specs::Causes::nominate_causes, ledger::specs::Causes::award_causes, ledger::specs::Numbers::first_met))]
pub fn check_tier_call(o: &KeptOpening, f: &Figures, h: u64, p: u64, kw: u64) -> Result<(), Refusal>
    ensures nominate { InFigures o.now f.now (λ O L. refused_by result ≡ first_met (take causes_before_tier (nominate_causes O L h p kw))) }
    ensures award { InFigures o.now f.now (λ O L. refused_by result ≡ first_met (take causes_before_tier (award_causes O L h p kw))) }
{
    if o.unknown_holder(h) || o.unknown_path(p) {
        return Err(Refusal::NotInBook);
    }
    if kw_out_of_range(kw) {
        return Err(Refusal::OutOfRange);
    }
    if !calendar(f).tier_is_open() {
        return Err(Refusal::NotAtThisTime);
    }
    Ok(())
}
