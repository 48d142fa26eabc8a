// Migrate: class lines netted, and the loads and rights that go with them (01, Migration).
ghost use Rattle.std.specs.Prelude.{◌≡◌, ℕ, ◌+◌, ◌^◌, ◌<◌, ◌≤◌, take, ltb};
ghost use Rattle.tariff.specs.Sizes.{max_holders};
ghost use Rattle.tariff.specs.Sum.{sum_to, any_below};
ghost use Rattle.netting.specs.Netting.{pair_at, holder_at};
ghost use Rattle.netting.specs.Columns.{lines_in, same_counts_in};
ghost use Rattle.ledger.specs.Call.{migrate};
ghost use Rattle.ledger.specs.Numbers.{first_met};
ghost use Rattle.ledger.specs.Ranges.{migration_out_of_range};
ghost use Rattle.ledger.specs.Causes.{migrate_causes};
ghost use Rattle.records.specs.Refusals.{refused_by};
ghost use Rattle.slots.specs.Layout.{load_slot};
ghost use Rattle.slots.specs.Steps.{ReachableFigures, InFigures, FiguresStepIf};
ghost use Rattle.migrate.specs.Lines.{early_causes, transfer_in};
ghost use Rattle.transfers.specs.Columns.{HasColumn};

use crate::class_tests::{any_not_between_lses, any_out_of_range, any_unknown};
use netting::netting::{ClassColumns, ClassLines};
use netting::shares::given_by;
use records::ranges::term_out_of_range;
use records::refusal::Refusal;
use records::setup::KeptOpening;
use slots::calendar::calendar;
use slots::layout::{Figures, LOAD_SLOT};
use tariff::sizes::{HOLDER_PAIRS, MAX_CLASS_LINES};
use transfers::transfers::{Transfer, column_at, transfer_load, transfer_rights};

// Whether some holder gives more in all than its load.
fn loss_exceeds_load(x: Transfer) -> bool
    requires { (x.holders ≤ max_holders) × ((i : ℕ) → i < max_holders → sum_to x.holders (λ j. pair_at x.m i j) < 2 ^ 64) }
    ensures { result ≡ any_below x.holders (λ i. ltb (holder_at x.load i) (sum_to x.holders (λ j. pair_at x.m i j))) }
{
    let holders = x.holders as usize;
    (0..holders).any(|i| x.load[i] < given_by(&x.m, i, holders))
}

// Whether the term, the count of the lines or a field of some line is outside its range.
#[tactic(auto, using(crate::proofs::LineCauses::line_count), unfolding(ledger::specs::Ranges::migration_out_of_range))]
fn out_of_range(term: u64, lines: ClassLines) -> bool
    ensures { result ≡ migration_out_of_range term (lines_in lines.entry.columns) }
{
    term_out_of_range(term)
        || MAX_CLASS_LINES < lines.columns.froms.len()
        || any_out_of_range(lines)
}

// Whether a migration meets none of causes 2, 3, 4 and 8, else the first that it meets: those that are found before anything is netted.
#[tactic(auto, using(slots::proofs::CalendarLaws::migration_as_ledger), unfolding(ledger::specs::Causes::migrate_causes, ledger::specs::Numbers::first_met))]
fn check_lines(
    o: &KeptOpening,
    f: &Figures,
    term: u64,
    sink: u64,
    lines: ClassLines,
) -> Result<(), Refusal>
    ensures { InFigures o.now f.now (λ O L. refused_by result ≡ first_met (take early_causes (migrate_causes O L term sink (lines_in lines.entry.columns)))) }
{
    if o.unknown_sink(sink) || any_unknown(o, lines) {
        return Err(Refusal::NotInBook);
    }
    if out_of_range(term, lines) {
        return Err(Refusal::OutOfRange);
    }
    if !calendar(f).migration_in_time(term) {
        return Err(Refusal::NotAtThisTime);
    }
    if any_not_between_lses(o, lines) {
        return Err(Refusal::NotBetweenLses);
    }
    Ok(())
}

// What the lines transfer at a sink and term: nothing where they are unfit.
fn transfer_of(o: &KeptOpening, f: &Figures, term: u64, sink: u64, lines: ClassLines) -> Transfer
    requires { HasColumn sink (load_slot + term) }
    ensures { result ≡ transfer_in o.now f.now term sink lines.entry.columns }
{
    let netting = lines.net();
    let load = column_at(f, sink, LOAD_SLOT + term);
    Transfer {
        term,
        sink,
        m: netting.unwrap_or([0; HOLDER_PAIRS]),
        load,
        holders: o.holders(),
    }
}

// Moves loads, rights and last year's allocations with the customers of class lines, whose fields stand in five slices.
pub fn migrate(
    o: &KeptOpening,
    f: &mut Figures,
    term: u64,
    sink: u64,
    columns: ClassColumns,
) -> Result<(), Refusal>
    requires { ReachableFigures o.now f.old }
    ensures { FiguresStepIf (same_counts_in columns.entry) o.now f.old (migrate term sink (lines_in columns.entry)) result f.new }
{
    let Some(lines) = columns.lines() else {
        return Err(Refusal::Unreadable);
    };
    check_lines(o, f, term, sink, lines)?;
    let x = transfer_of(o, f, term, sink, lines);
    if loss_exceeds_load(x) {
        return Err(Refusal::LossAboveLoad);
    }
    transfer_load(f, x);
    transfer_rights(f, o, x);
    Ok(())
}
