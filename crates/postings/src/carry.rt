// Carry: Long Term rights, held in each month (01, Posting, Carry).
ghost use Rattle.ledger.specs.Call.{carry};
ghost use Rattle.slots.specs.Steps.{ReachablePostings, PostingsStep};

use crate::path_posting::PathPosting;
use records::ranges::kw_out_of_range;
use records::refusal::Refusal;
use records::setup::KeptOpening;
use slots::cells::set_posted;
use slots::layout::{CARRIED_SLOT, CARRY_POSTED_SLOT, Figures, Postings};
use slots::months::add_in_term;

// Carries kw in for a holder on a path.
pub fn carry(
    o: &KeptOpening,
    f: &mut Figures,
    m: &mut Postings,
    h: u64,
    p: u64,
    kw: u64,
) -> Result<(), Refusal>
    requires { ReachablePostings o.now f.old m.old }
    ensures { PostingsStep o.now f.old m.old (carry h p kw) result f.new m.new }
{
    let posting = PathPosting {
        h,
        p,
        out_of_range: kw_out_of_range(kw),
        slot: CARRY_POSTED_SLOT,
    };
    posting.check(o, f, m)?;
    add_in_term(f, h, p, CARRIED_SLOT, 0, kw);
    set_posted(m, h, p, CARRY_POSTED_SLOT);
    Ok(())
}
