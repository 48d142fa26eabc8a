// Groups: a head with the lines that it counts, put to a book's lent arrays (01, Script and host).
ghost use Rattle.std.specs.Prelude.{◌≡◌, List, ℕ, ◌≤◌, length};
ghost use Rattle.ledger.specs.Call.{nominate, award, limit_of, net_on};
ghost use Rattle.slots.specs.Steps.{ReachableFigures, ReachablePostings, FiguresStep, InFigures, query_answer};
ghost use Rattle.lines.specs.declared.rows.LineKind.TheVariants.{Verify};
ghost use Rattle.lines.specs.Rows.{rows_of};
ghost use Rattle.lines.specs.Text.{max_lines};
ghost use Rattle.groups.specs.Outcome.{head_group, head_bytes, first_group, group_bytes, GroupAnswers};

use awards::award::award;
use awards::holdings::{held, net};
use awards::open_close::{close_tier, open_tier};
use groups::counted_calls::{run_load, run_migrate};
use groups::outcome::{GroupOutcome, of_call_line, of_one_line, of_query_line};
use lines::lines::next_row;
use lines::rows::{LineKind, Row};
use nominations::nominate::nominate;
use postings::carry::carry;
use postings::prior::prior;
use records::refusal::Refusal;
use records::setup::KeptOpening;
use slots::layout::{Figures, Postings};
use source_evidence::filing::Filing;
use tier_limits::limits::limit;
use verify::verify::verify;

// The next four put one call or query to the book each and promise what it promises, so that a call that is put to the book as another breaks
// a promise by itself.

// A nomination put to the book by the numbers of its line.
fn run_nominate(
    o: &KeptOpening,
    f: &mut Figures,
    holder: u64,
    path: u64,
    nominated: u64,
) -> Result<(), Refusal>
    requires { ReachableFigures o.now f.old }
    ensures { FiguresStep o.now f.old (nominate holder path nominated) result f.new }
{
    nominate(o, f, holder, path, nominated)
}

// An award, likewise.
fn run_award(
    o: &KeptOpening,
    f: &mut Figures,
    holder: u64,
    path: u64,
    awarded: u64,
) -> Result<(), Refusal>
    requires { ReachableFigures o.now f.old }
    ensures { FiguresStep o.now f.old (award holder path awarded) result f.new }
{
    award(o, f, holder, path, awarded)
}

// A limit query, likewise.
fn run_limit(o: &KeptOpening, f: &Figures, holder: u64, sink: u64) -> Result<u64, Refusal>
    requires { ReachableFigures o.now f.now }
    ensures { InFigures o.now f.now (λ O L. result ≡ query_answer O L (limit_of holder sink)) }
{
    limit(o, f, holder, sink)
}

// A net query, likewise.
fn run_net(o: &KeptOpening, f: &Figures, path: u64, month: u64) -> Result<u64, Refusal>
    requires { ReachableFigures o.now f.now }
    ensures { InFigures o.now f.now (λ O L. result ≡ query_answer O L (net_on path month)) }
{
    net(o, f, path, month)
}

// Evidence: its line has more numbers than any other head's. It counts no lines, whatever stands after it.
fn run_verify(o: &KeptOpening, f: &mut Figures, m: &mut Postings, head: Row) -> GroupOutcome
    requires reachable { ReachablePostings o.now f.old m.old }
    requires verify { head.kind ≡ Verify }
    ensures answer { (rest : List ℕ) → GroupAnswers o.now f.old m.old (head_group head rest) result.answer f.new m.new }
    ensures consumed { (rest : List ℕ) → result.consumed ≡ head_bytes head rest }
{
    let [h, s, kind, capacity, right, first, last, mark, ..] = head.fields;
    let filing = Filing {
        kind,
        capacity,
        right,
        first,
        last,
        mark,
    };
    of_call_line(verify(o, f, m, h, s, filing))
}

// A head with the lines that stand after it. A line that is no head is unreadable by itself.
fn run_head(
    o: &KeptOpening,
    f: &mut Figures,
    m: &mut Postings,
    head: Row,
    rest: &[u8],
) -> GroupOutcome
    requires reachable { ReachablePostings o.now f.old m.old }
    requires few { length (rows_of rest.now) ≤ max_lines }
    ensures answer { GroupAnswers o.now f.old m.old (head_group head rest.now) result.answer f.new m.new }
    ensures consumed { result.consumed ≡ head_bytes head rest.now }
{
    // The first numbers of the head's line, in their order.
    let [a, b, c, d, ..] = head.fields;
    match head.kind {
        LineKind::Load => run_load(o, f, m, head, rest),
        LineKind::Carry => of_call_line(carry(o, f, m, a, b, c)),
        LineKind::Prior => of_call_line(prior(o, f, m, a, b, c, d)),
        LineKind::Verify => run_verify(o, f, m, head),
        LineKind::Migrate => run_migrate(o, f, head, rest),
        LineKind::Open => of_call_line(open_tier(f, a)),
        LineKind::Nominate => of_call_line(run_nominate(o, f, a, b, c)),
        LineKind::Award => of_call_line(run_award(o, f, a, b, c)),
        LineKind::Close => of_call_line(close_tier(f)),
        LineKind::Limit => of_query_line(run_limit(o, f, a, b)),
        LineKind::Held => of_query_line(held(o, f, a, b, c)),
        LineKind::Net => of_query_line(run_net(o, f, a, b)),
        _ => of_one_line(Err(Refusal::Unreadable)),
    }
}

// Puts the first group of what is left of a script to a book's lent arrays. The book's evidence is not lent: what the rules read of it stands among the figures.
pub fn run_group(o: &KeptOpening, f: &mut Figures, m: &mut Postings, rest: &[u8]) -> GroupOutcome
    requires reachable { ReachablePostings o.now f.old m.old }
    requires few { length (rows_of rest.now) ≤ max_lines }
    ensures answer { GroupAnswers o.now f.old m.old (first_group rest.now) result.answer f.new m.new }
    ensures consumed { result.consumed ≡ group_bytes rest.now }
{
    let next = next_row(rest);
    let head = next.row;
    let at_lines = next.consumed;
    let outcome = run_head(o, f, m, head, &rest[at_lines..]);
    GroupOutcome {
        consumed: at_lines + outcome.consumed,
        ..outcome
    }
}
