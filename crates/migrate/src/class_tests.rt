// Tests on the lines of a migration (01, Refusals by cause; causes 2, 3 and 8).
ghost use Rattle.std.specs.Prelude.{◌≡◌, ◌||◌};
ghost use Rattle.tariff.specs.Sum.{any_of};
ghost use Rattle.netting.specs.ClassRanges.{class_line_out_of_range};
ghost use Rattle.netting.specs.Columns.{lines_in};
ghost use Rattle.ledger.specs.Ranges.{unknown_holder, unknown_holder_in};
ghost use Rattle.ledger.specs.Causes.{line_not_between_lses};
ghost use Rattle.records.specs.Opening.{opening_of};

use netting::netting::{ClassLine, ClassLines};
use records::setup::KeptOpening;

// A line that names a holder who is not in the book.
pub(crate) fn names_unknown(o: &KeptOpening, line: ClassLine) -> bool
    ensures { result ≡ (unknown_holder (opening_of o.entry) line.from || unknown_holder (opening_of o.entry) line.to) }
{
    o.unknown_holder(line.from) || o.unknown_holder(line.to)
}

// Whether some line names a holder who is not in the book.
pub fn any_unknown(o: &KeptOpening, lines: ClassLines) -> bool
    ensures { result ≡ unknown_holder_in (opening_of o.entry) (lines_in lines.entry.columns) }
{
    lines.any(|line| names_unknown(o, line))
}

// Whether some line has a field outside its range.
pub fn any_out_of_range(lines: ClassLines) -> bool
    ensures { result ≡ any_of (lines_in lines.entry.columns) class_line_out_of_range }
{
    lines.any(|line| line.is_out_of_range())
}

// A line from a holder to itself, or one that names an OBAALSE.
#[tactic(auto, unfolding(ledger::specs::Causes::line_not_between_lses))]
fn not_between_lses(o: &KeptOpening, line: ClassLine) -> bool
    ensures { result ≡ line_not_between_lses (opening_of o.entry) line }
{
    line.from == line.to || o.is_obaalse(line.from) || o.is_obaalse(line.to)
}

// Whether some line is not between two different LSEs.
pub fn any_not_between_lses(o: &KeptOpening, lines: ClassLines) -> bool
    ensures { result ≡ any_of (lines_in lines.entry.columns) (line_not_between_lses (opening_of o.entry)) }
{
    lines.any(|line| not_between_lses(o, line))
}
