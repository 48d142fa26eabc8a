// Migrate over a lent slice of class lines (01, Migration): the lines are taken apart, a column of numbers to a field, and the core migrates the columns.
ghost use Rattle.std.specs.Prelude.{◌≡◌, ◌≤◌, length};
ghost use Rattle.ledger.specs.Call.{migrate};
ghost use Rattle.ledger.specs.Ranges.{unknown_holder_in};
ghost use Rattle.records.specs.Opening.{opening_of};
ghost use Rattle.slots.specs.Steps.{ReachableFigures, FiguresStep};
ghost use Rattle.tariff.specs.Sizes.{max_class_lines};
ghost use Rattle.migrate.specs.ClassLines.{taken_apart};

use crate::class_tests::names_unknown;
use crate::migrate::migrate;
use netting::netting::{ClassColumns, ClassLine};
use records::refusal::Refusal;
use records::setup::KeptOpening;
use slots::layout::Figures;
use tariff::sizes::MAX_CLASS_LINES;

// The fields of the first 64 lines, a column to a field: past the last line each column holds 0.
#[derive(Clone, Copy)]
struct Columns {
    froms: [u64; MAX_CLASS_LINES],
    tos: [u64; MAX_CLASS_LINES],
    classes: [u64; MAX_CLASS_LINES],
    customers: [u64; MAX_CLASS_LINES],
    watts: [u64; MAX_CLASS_LINES],
}

// Up to 64 lines taken apart.
fn taken_apart(lines: &[ClassLine]) -> Columns
    requires { length lines.now ≤ max_class_lines }
    ensures { result ≡ taken_apart lines.now }
{
    let mut all = Columns {
        froms: [0; MAX_CLASS_LINES],
        tos: [0; MAX_CLASS_LINES],
        classes: [0; MAX_CLASS_LINES],
        customers: [0; MAX_CLASS_LINES],
        watts: [0; MAX_CLASS_LINES],
    };
    for (k, line) in lines.iter().enumerate() {
        all.froms[k] = line.from;
        all.tos[k] = line.to;
        all.classes[k] = line.class;
        all.customers[k] = line.customers;
        all.watts[k] = line.watts;
    }
    all
}

// Whether some line names a holder who is not in the book.
fn any_line_unknown(o: &KeptOpening, lines: &[ClassLine]) -> bool
    ensures { result ≡ unknown_holder_in (opening_of o.entry) lines.now }
{
    lines.iter().any(|&line| names_unknown(o, line))
}

// Moves loads, rights and last year's allocations with the customers of the class lines lent.
// More than 64 lines are refused: by cause 2 where the sink or a holder is not in the book, else by 3.
pub fn migrate_lines(
    o: &KeptOpening,
    f: &mut Figures,
    term: u64,
    sink: u64,
    lines: &[ClassLine],
) -> Result<(), Refusal>
    requires { ReachableFigures o.now f.old }
    ensures { FiguresStep o.now f.old (migrate term sink lines.now) result f.new }
{
    let n = lines.len();
    if MAX_CLASS_LINES < n {
        if o.unknown_sink(sink) || any_line_unknown(o, lines) {
            return Err(Refusal::NotInBook);
        }
        return Err(Refusal::OutOfRange);
    }
    let all = taken_apart(lines);
    let columns = ClassColumns {
        froms: &all.froms[..n],
        tos: &all.tos[..n],
        classes: &all.classes[..n],
        customers: &all.customers[..n],
        watts: &all.watts[..n],
    };
    migrate(o, f, term, sink, columns)
}
