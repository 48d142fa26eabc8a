// What a posting on a path is refused for (01, Refusals by cause): a carry and a prior share all but their range and their slot.
ghost use Rattle.std.specs.Prelude.{◌≡◌, ℕ};
ghost use Rattle.tariff.specs.Ranges.{kw_out_of_range};
ghost use Rattle.ledger.specs.Call.{carry, prior};
ghost use Rattle.ledger.specs.Causes.{refusal};
ghost use Rattle.ledger.specs.Ranges.{prior_out_of_range};
ghost use Rattle.records.specs.Refusals.{refused_by};
ghost use Rattle.slots.specs.Layout.{carry_posted_slot, prior_posted_slot};
ghost use Rattle.slots.specs.Steps.{InPostings};

use records::refusal::Refusal;
use records::setup::KeptOpening;
use slots::calendar::calendar;
use slots::cells::is_posted;
use slots::layout::{Figures, Postings};

// A posting for a holder on a path: whether its numbers are out of range, and the slot that notes it.
#[derive(Clone, Copy)]
pub(crate) struct PathPosting {
    pub h: u64,
    pub p: u64,
    pub out_of_range: bool,
    pub slot: u64,
}

impl PathPosting {
    // Whether a posting meets no cause, else the first that it meets, as a carry or as a prior.
    #[tactic(auto, using(slots::proofs::CalendarLaws::before_as_ledger, slots::proofs::PostedLaws::posted_one), unfolding(ledger::specs::Causes::refusal, ledger::specs::Causes::call_causes, ledger::specs::Causes::carry_causes, ledger::specs::Causes::prior_causes, ledger::specs::Numbers::first_met, slots::specs::Layout::ledger_in))]
    pub(crate) fn check(self, o: &KeptOpening, f: &Figures, m: &Postings) -> Result<(), Refusal>
        ensures carry { (kw : ℕ) → self.out_of_range ≡ kw_out_of_range kw → self.slot ≡ carry_posted_slot → InPostings o.now f.now m.now (λ O L. refused_by result ≡ refusal O L (carry self.h self.p kw)) }
        ensures prior { (a l : ℕ) → self.out_of_range ≡ prior_out_of_range a l → self.slot ≡ prior_posted_slot → InPostings o.now f.now m.now (λ O L. refused_by result ≡ refusal O L (prior self.h self.p a l)) }
    {
        if o.unknown_holder(self.h) || o.unknown_path(self.p) {
            return Err(Refusal::NotInBook);
        }
        if self.out_of_range {
            return Err(Refusal::OutOfRange);
        }
        if !calendar(f).before_tier(1) {
            return Err(Refusal::NotAtThisTime);
        }
        if is_posted(m, self.h, self.p, self.slot) {
            return Err(Refusal::PostedBefore);
        }
        if o.kind_ineligible(self.h, o.path_sink(self.p)) {
            return Err(Refusal::SinkIneligible);
        }
        Ok(())
    }
}
