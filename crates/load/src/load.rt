// Load: the metered hours of a holder at a sink, in blocks, and the load that is posted of them (01, Posting, Load; 02, 3/14).
ghost use Rattle.std.specs.Prelude.{◌≡◌, IfOk};
ghost use Rattle.std.specs.List.{list_any};
ghost use Rattle.load_metric.specs.Load.{load_posted};
ghost use Rattle.ledger.specs.Ranges.{load_out_of_range};
ghost use Rattle.ledger.specs.Causes.{refusal};
ghost use Rattle.records.specs.Opening.{opening_of};
ghost use Rattle.records.specs.Refusals.{refused_by};
ghost use Rattle.slots.specs.Steps.{ReachablePostings, InPostings, PostingsStep};
ghost use Rattle.load.specs.Loads.{exceeds_max_kw, load_of};

use crate::metered::Metered;
use load_metric::block::Block;
use load_metric::load::load_posted;
use records::ranges::term_out_of_range;
use records::refusal::Refusal;
use records::setup::KeptOpening;
use slots::calendar::calendar;
use slots::cells::{add, is_posted, set_posted};
use slots::layout::{Figures, LOAD_POSTED_SLOT, LOAD_SLOT, Postings};
use tariff::sizes::{MAX_HOURS, MAX_KW};

// Whether some block's kW exceeds the most.
#[tactic(auto, unfolding(crate::specs::Loads::exceeds_max_kw))]
fn any_exceeds_max_kw(blocks: &[Block]) -> bool
    ensures { result ≡ list_any exceeds_max_kw blocks.now }
{
    blocks.iter().any(|b| MAX_KW < b.kw)
}

// Whether a field is outside its range. Of a block only the kW has one.
#[tactic(auto, using(tariff::proofs::Lists::any_is), unfolding(ledger::specs::Ranges::load_out_of_range, tariff::specs::Ranges::within, crate::specs::Loads::exceeds_max_kw))]
fn load_out_of_range(metered: Metered) -> bool
    ensures { result ≡ load_out_of_range metered.entry.term metered.entry.contract metered.entry.n metered.entry.blocks.now }
{
    term_out_of_range(metered.term)
        || MAX_KW < metered.contract
        || !(1..=MAX_HOURS).contains(&metered.n)
        || (MAX_HOURS as usize) < metered.blocks.len()
        || any_exceeds_max_kw(metered.blocks)
}

// The kW that a load posts, or the first cause that it meets. The metric is found once, and only for a load that meets none of causes 2 to 5.
#[tactic(auto, using(slots::proofs::CalendarLaws::load_as_ledger, crate::proofs::BlockLaws::posted_in_term), unfolding(ledger::specs::Causes::refusal, ledger::specs::Causes::call_causes, ledger::specs::Causes::load_causes, ledger::specs::Numbers::first_met, slots::specs::Layout::ledger_in))]
fn kw_to_post(
    o: &KeptOpening,
    f: &Figures,
    m: &Postings,
    h: u64,
    s: u64,
    metered: Metered,
) -> Result<u64, Refusal>
    requires { ReachablePostings o.now f.now m.now }
    ensures refused { InPostings o.now f.now m.now (λ O L. refused_by result ≡ refusal O L (load_of h s metered.entry)) }
    ensures posted { IfOk result (λ kw. kw ≡ load_posted (opening_of o.entry).settings metered.entry.contract metered.entry.blocks.now) }
{
    if o.unknown_holder(h) || o.unknown_sink(s) {
        return Err(Refusal::NotInBook);
    }
    if load_out_of_range(metered) {
        return Err(Refusal::OutOfRange);
    }
    if !calendar(f).load_in_time(metered.term) {
        return Err(Refusal::NotAtThisTime);
    }
    if is_posted(m, h, s, LOAD_POSTED_SLOT + metered.term) {
        return Err(Refusal::PostedBefore);
    }
    let kw = load_posted(
        o.legal_settings(),
        metered.blocks,
        metered.n,
        metered.contract,
    )?;
    if o.kind_ineligible(h, s) || o.is_sub_lap(s) {
        return Err(Refusal::SinkIneligible);
    }
    Ok(kw)
}

// Posts the load of a holder at a sink in a term.
pub fn load(
    o: &KeptOpening,
    f: &mut Figures,
    m: &mut Postings,
    h: u64,
    s: u64,
    metered: Metered,
) -> Result<(), Refusal>
    requires { ReachablePostings o.now f.old m.old }
    ensures { PostingsStep o.now f.old m.old (load_of h s metered.entry) result f.new m.new }
{
    let kw = kw_to_post(o, f, m, h, s, metered)?;
    add(f, h, s, LOAD_SLOT + metered.term, kw);
    set_posted(m, h, s, LOAD_POSTED_SLOT + metered.term);
    Ok(())
}
