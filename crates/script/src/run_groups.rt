// The groups of a script, answered one after another (01, Script and host).
ghost use Rattle.std.specs.Prelude.{◌≤◌, length};
ghost use Rattle.ledger.specs.Ledger.{empty_ledger};
ghost use Rattle.book.specs.Reading.{book_of};
ghost use Rattle.book.specs.Reachable.{Reachable};
ghost use Rattle.lines.specs.Rows.{rows_of};
ghost use Rattle.lines.specs.Writing.{Wrote};
ghost use Rattle.script.specs.Writing.{HasRoomForLines};
ghost use Rattle.script.specs.GroupTexts.{text_from};
ghost use Rattle.lines.specs.Text.{max_lines};

use crate::answers::write_answer;
use heads::heads::run_group;
use lines::output::Output;
use records::setup::KeptOpening;
use slots::layout::{FIGURE_COUNT, POSTED_COUNT};

// Puts what is left of a script to the book that was opened and writes the answers.
// The book's arrays stay here and are lent to each group, so that nothing of the book is copied for a line.
pub fn run_groups(mut rest: &[u8], o: &KeptOpening, out: &mut Output)
    requires reachable { Reachable (book_of o.now empty_ledger) }
    requires few { length (rows_of rest.now) ≤ max_lines }
    requires room { HasRoomForLines out.old (length (rows_of rest.now)) }
    ensures { Wrote out.old out.new (text_from (book_of o.now empty_ledger) rest.now) }
{
    let mut f = [0u64; FIGURE_COUNT];
    let mut m = [false; POSTED_COUNT];
    while !rest.is_empty() {
        let outcome = run_group(o, &mut f, &mut m, rest);
        write_answer(out, outcome.answer);
        rest = &rest[outcome.consumed..];
    }
}
