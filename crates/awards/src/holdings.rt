// The queries on holdings (01, Queries).
ghost use Rattle.std.specs.Prelude.{◌≡◌, Bool, List, ◌≤◌, ◌<◌};
ghost use Rattle.source_evidence.specs.declared.evidence.Entry.{Entry};
ghost use Rattle.tariff.specs.Sizes.{last_month};
ghost use Rattle.ledger.specs.Call.{held_on, net_on};
ghost use Rattle.ledger.specs.Causes.{query_refusal};
ghost use Rattle.ledger.specs.Ledger.{Ledger};
ghost use Rattle.ledger.specs.Season.{held, net};
ghost use Rattle.records.specs.Opening.{opening_of};
ghost use Rattle.records.specs.Refusals.{refused_by};
ghost use Rattle.slots.specs.Layout.{ledger_in};
ghost use Rattle.slots.specs.Steps.{ReachableFigures, InFigures, query_answer};
ghost use Rattle.awards.specs.Holdings.{HasHolding};

use records::ranges::month_out_of_range;
use records::refusal::Refusal;
use records::setup::KeptOpening;
use slots::cells::read;
use slots::layout::{AWARDED_SLOT, CARRIED_SLOT, Figures};

// A holder's holding on a path in a month: carried and awarded.
fn holding(f: &Figures, h: u64, p: u64, month: u64) -> u64
    requires { HasHolding f.now h p month }
    ensures { (m : List Bool) (x : List Entry) → result ≡ held (ledger_in f.now m x) h p month }
{
    let carried = read(f, h, p, CARRIED_SLOT + (month - 1));
    let awarded = read(f, h, p, AWARDED_SLOT + (month - 1));
    carried + awarded
}

// The holdings of all holders on a path in a month, added up.
fn net_holding(o: &KeptOpening, f: &Figures, p: u64, month: u64) -> u64
    requires { ReachableFigures o.now f.now × (p < (opening_of o).paths) × (1 ≤ month) × (month ≤ last_month) }
    ensures { InFigures o.now f.now (λ O L. result ≡ net O L p month) }
{
    (0..o.holders()).map(|h| holding(f, h, p, month)).sum()
}

// Whether a held query meets no cause, else the first that it meets: past the holder it is refused as a net query on the path is.
#[tactic(auto, unfolding(ledger::specs::Causes::query_refusal, ledger::specs::Causes::query_causes, ledger::specs::Causes::held_causes, ledger::specs::Numbers::first_met))]
fn check_held(o: &KeptOpening, h: u64, p: u64, month: u64) -> Result<(), Refusal>
    ensures { (L : Ledger) → refused_by result ≡ query_refusal (opening_of o.entry) L (held_on h p month) }
{
    if o.unknown_holder(h) {
        return Err(Refusal::NotInBook);
    }
    check_net(o, p, month)
}

// Whether a net query meets no cause, else the first that it meets.
#[tactic(auto, unfolding(ledger::specs::Causes::query_refusal, ledger::specs::Causes::query_causes, ledger::specs::Causes::net_causes, ledger::specs::Numbers::first_met))]
fn check_net(o: &KeptOpening, p: u64, month: u64) -> Result<(), Refusal>
    ensures { (L : Ledger) → refused_by result ≡ query_refusal (opening_of o.entry) L (net_on p month) }
{
    if o.unknown_path(p) {
        return Err(Refusal::NotInBook);
    }
    if month_out_of_range(month) {
        return Err(Refusal::OutOfRange);
    }
    Ok(())
}

// What a holder holds on a path in a month.
pub fn held(o: &KeptOpening, f: &Figures, h: u64, p: u64, month: u64) -> Result<u64, Refusal>
    requires { ReachableFigures o.now f.now }
    ensures { InFigures o.now f.now (λ O L. result ≡ query_answer O L (held_on h p month)) }
{
    check_held(o, h, p, month)?;
    Ok(holding(f, h, p, month))
}

// What all holders hold on a path in a month.
pub fn net(o: &KeptOpening, f: &Figures, p: u64, month: u64) -> Result<u64, Refusal>
    requires { ReachableFigures o.now f.now }
    ensures { InFigures o.now f.now (λ O L. result ≡ query_answer O L (net_on p month)) }
{
    check_net(o, p, month)?;
    Ok(net_holding(o, f, p, month))
}
