// Prior: what was allocated last year, and how much of it went to Long Term (01, Posting, Prior).
ghost use Rattle.ledger.specs.Call.{prior};
ghost use Rattle.slots.specs.Steps.{ReachablePostings, PostingsStep};

use crate::path_posting::PathPosting;
use records::ranges::prior_out_of_range;
use records::refusal::Refusal;
use records::setup::KeptOpening;
use slots::cells::{add, set_posted};
use slots::layout::{
    Figures, PRIOR_ALLOCATED_SLOT, PRIOR_POSTED_SLOT, PRIOR_REMAINING_SLOT, Postings,
};

// Posts the prior of a holder on a path: a allocated last year, of which l went to Long Term.
pub fn prior(
    o: &KeptOpening,
    f: &mut Figures,
    m: &mut Postings,
    h: u64,
    p: u64,
    a: u64,
    l: u64,
) -> Result<(), Refusal>
    requires { ReachablePostings o.now f.old m.old }
    ensures { PostingsStep o.now f.old m.old (prior h p a l) result f.new m.new }
{
    let posting = PathPosting {
        h,
        p,
        out_of_range: prior_out_of_range(a, l),
        slot: PRIOR_POSTED_SLOT,
    };
    posting.check(o, f, m)?;
    add(f, h, p, PRIOR_ALLOCATED_SLOT, a);
    let remaining = a - l;
    add(f, h, p, PRIOR_REMAINING_SLOT, remaining);
    set_posted(m, h, p, PRIOR_POSTED_SLOT);
    Ok(())
}
