// The calls that count lines: a load with its blocks, and a migrate with its class lines (01, Script and host).
ghost use Rattle.std.specs.Prelude.{◌≡◌, ◌≤◌, ◌<◌, ◌*◌, ◌^◌, true, false, map, length, Err};
ghost use Rattle.std.specs.Mem.{type_size};
ghost use Rattle.records.specs.declared.refusal.Refusal.TheVariants.{Unreadable};
ghost use Rattle.slots.specs.Steps.{ReachableFigures, ReachablePostings};
ghost use Rattle.lines.specs.declared.rows.LineKind.TheVariants.{Load, Migrate};
ghost use Rattle.lines.specs.Rows.{rows_of, counted};
ghost use Rattle.counted_lines.specs.Counted.{bytes_of_lines, rows_counted};
ghost use Rattle.lines.specs.Text.{max_lines};
ghost use Rattle.groups.specs.Outcome.{head_group, head_bytes, FiguresAnswers, PostingsAnswers, AnswersLines};

use crate::outcome::GroupOutcome;
use counted_lines::counted::{CountedLine, read_counted};
use lines::rows::{LineKind, Row};
use lines::text::MAX_LINES;
use load::load::load;
use load::metered::Metered;
use migrate::class_lines::migrate_lines;
use records::answers::of_call;
use records::refusal::Refusal;
use records::setup::KeptOpening;
use slots::layout::{Figures, Postings};

// Up to so many lines are kept in a small array, and up to so many in one of middle size, so that a short group does not pay for room that it does not need.
// A script has no more lines than the large one keeps, MAX_LINES.
const FEW_LINES: usize = 8;

const SOME_LINES: usize = 64;

// Reads the lines that a head counts into an array that has a place for each of them, and puts them to a call, if they can be read. The call is lent, so
// that what it leaves in the arrays that it writes is known.
fn answer_with_room<
    T: CountedLine + Default,
    const N: usize,
    F: FnMut(&[T]) -> Result<(), Refusal>,
>(rest: &[u8], kind: LineKind, count: u64, call: &mut F) -> GroupOutcome
    requires callable { (lines : _) → F.pre call.old lines }
    requires room { length (rows_counted count rest.now) ≤ N }
    requires memory { N * type_size T.row < 2 ^ 63 }
    ensures read { counted kind count (rows_counted count rest.now) ≡ true → AnswersLines F.FnMut call.old (map T.line_of (rows_counted count rest.now)) result.answer call.new }
    ensures unread { counted kind count (rows_counted count rest.now) ≡ false → (result.answer ≡ Err Unreadable) × (call.new ≡ call.old) }
    ensures consumed { result.consumed ≡ bytes_of_lines count rest.now }
{
    let mut lines = [T::default(); N];
    let read = read_counted(rest, kind, count, &mut lines);
    let answer = if read.complete {
        of_call(call(&lines[..count as usize]))
    } else {
        Err(Refusal::Unreadable)
    };
    GroupOutcome {
        answer,
        consumed: read.consumed,
    }
}

// The same in the smallest of the three arrays that has room.
fn answer_counted<T: CountedLine + Default, F: FnMut(&[T]) -> Result<(), Refusal>>(
    rest: &[u8],
    kind: LineKind,
    count: u64,
    call: &mut F,
) -> GroupOutcome
    requires callable { (lines : _) → F.pre call.old lines }
    requires few { length (rows_of rest.now) ≤ max_lines }
    requires memory { max_lines * type_size T.row < 2 ^ 63 }
    ensures read { counted kind count (rows_counted count rest.now) ≡ true → AnswersLines F.FnMut call.old (map T.line_of (rows_counted count rest.now)) result.answer call.new }
    ensures unread { counted kind count (rows_counted count rest.now) ≡ false → (result.answer ≡ Err Unreadable) × (call.new ≡ call.old) }
    ensures consumed { result.consumed ≡ bytes_of_lines count rest.now }
{
    if count <= FEW_LINES as u64 {
        return answer_with_room::<T, FEW_LINES, F>(rest, kind, count, call);
    }
    if count <= SOME_LINES as u64 {
        return answer_with_room::<T, SOME_LINES, F>(rest, kind, count, call);
    }
    answer_with_room::<T, MAX_LINES, F>(rest, kind, count, call)
}

// A load with its block lines.
pub fn run_load(
    o: &KeptOpening,
    f: &mut Figures,
    m: &mut Postings,
    head: Row,
    rest: &[u8],
) -> GroupOutcome
    requires reachable { ReachablePostings o.now f.old m.old }
    requires load { head.kind ≡ Load }
    requires few { length (rows_of rest.now) ≤ max_lines }
    ensures answer { PostingsAnswers o.now f.old m.old (head_group head rest.now) result.answer f.new m.new }
    ensures consumed { result.consumed ≡ head_bytes head rest.now }
{
    let [h, s, term, contract, n, count, ..] = head.fields;
    answer_counted(
        rest,
        LineKind::Block,
        count,
        &mut |blocks| {
            let metered = Metered {
                term,
                contract,
                n,
                blocks,
            };
            load(o, f, m, h, s, metered)
        },
    )
}

// A migrate with its class lines.
pub fn run_migrate(o: &KeptOpening, f: &mut Figures, head: Row, rest: &[u8]) -> GroupOutcome
    requires reachable { ReachableFigures o.now f.old }
    requires migrate { head.kind ≡ Migrate }
    requires few { length (rows_of rest.now) ≤ max_lines }
    ensures answer { FiguresAnswers o.now f.old (head_group head rest.now) result.answer f.new }
    ensures consumed { result.consumed ≡ head_bytes head rest.now }
{
    let [term, sink, count, ..] = head.fields;
    answer_counted(
        rest,
        LineKind::Class,
        count,
        &mut |lines| migrate_lines(o, f, term, sink, lines),
    )
}
