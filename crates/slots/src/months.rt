// kW added in the months of a term.
ghost use Rattle.std.specs.Prelude.{◌≡◌, ◌+◌, ◌-◌, ◌≤◌};
ghost use Rattle.tariff.specs.Sizes.{last_month};
ghost use Rattle.tariff.specs.Sum.{when_true};
ghost use Rattle.tariff.specs.Terms.{has_month};
ghost use Rattle.slots.specs.Layout.{figure_slots};
ghost use Rattle.slots.specs.Months.{added_in_term, HasRoom};

use crate::cells::add;
use crate::layout::Figures;
use records::sums::when_true;
use tariff::sizes::LAST_MONTH;
use tariff::terms::has_month;

// The slot of a month, where those of the three months begin at `from`.
fn month_slot(from: u64, month: u64) -> u64
    requires { (1 ≤ month) × (from + month ≤ figure_slots) }
    ensures { result ≡ (month - 1) + from }
{
    from + (month - 1)
}

// What kw in a term adds in a month.
fn month_kw(term: u64, month: u64, kw: u64) -> u64
    ensures { result ≡ when_true (has_month term month) kw }
{
    when_true(has_month(term, month), kw)
}

// kw more for a holder at a path in each month of a term; the slots of the three months begin at `from`.
pub fn add_in_term(f: &mut Figures, h: u64, p: u64, from: u64, term: u64, kw: u64)
    requires { HasRoom f.old h p from (from + last_month) kw }
    ensures { f.new ≡ added_in_term f.old h p from term kw }
{
    for month in 1..=LAST_MONTH {
        let entering = month_kw(term, month, kw);
        add(f, h, p, month_slot(from, month), entering);
    }
}
