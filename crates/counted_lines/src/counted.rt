// The lines that a head counts, kept in one array (01, Script and host).
ghost use Rattle.std.specs.Prelude.{◌≡◌, map, slice_set};
ghost use Rattle.lines.specs.declared.rows.Row.{Row};
ghost use Rattle.lines.specs.Rows.{field};
ghost use Rattle.counted_lines.specs.Counted.{rows_counted, counted_of, block_of, class_line_of, sink_line_of, path_line_of, with_lines};

use lines::lines::next_row;
use lines::rows::{LineKind, Row};
use load_metric::block::Block;
use netting::netting::ClassLine;
use records::setup::{PathLine, SinkLine};

// A line that some head counts, as the head's call takes it.
pub trait CountedLine: Copy {
    // What the fields of a row say.
    ghost line_of: { Row → Self };

    fn from_row(row: Row) -> Self
        ensures { result ≡ line_of row };
}

impl CountedLine for Block {
    ghost line_of = { block_of };

    #[tactic(auto, unfolding(crate::specs::Counted::block_of, lines::specs::Rows::field))]
    fn from_row(row: Row) -> Block {
        let [first, hours, kw, ..] = row.fields;
        Block { first, hours, kw }
    }
}

impl CountedLine for ClassLine {
    ghost line_of = { class_line_of };

    #[tactic(auto, unfolding(crate::specs::Counted::class_line_of, lines::specs::Rows::field))]
    fn from_row(row: Row) -> ClassLine {
        let [from, to, class, customers, watts, ..] = row.fields;
        ClassLine {
            from,
            to,
            class,
            customers,
            watts,
        }
    }
}

// A holder's line has its kind alone.
impl CountedLine for u64 {
    ghost line_of = { field 0 };

    #[tactic(auto, unfolding(lines::specs::Rows::field))]
    fn from_row(row: Row) -> u64 {
        let [kind, ..] = row.fields;
        kind
    }
}

impl CountedLine for SinkLine {
    ghost line_of = { sink_line_of };

    #[tactic(auto, unfolding(crate::specs::Counted::sink_line_of, lines::specs::Rows::field))]
    fn from_row(row: Row) -> SinkLine {
        let [kind, parent, ..] = row.fields;
        SinkLine { kind, parent }
    }
}

impl CountedLine for PathLine {
    ghost line_of = { path_line_of };

    #[tactic(auto, unfolding(crate::specs::Counted::path_line_of, lines::specs::Rows::field))]
    fn from_row(row: Row) -> PathLine {
        let [source, sink, ..] = row.fields;
        PathLine { source, sink }
    }
}

// Whether there are as many lines as counted, all of one kind, and how many bytes they take.
#[derive(Clone, Copy)]
pub struct CountedLines {
    pub complete: bool,
    pub consumed: usize,
}

// Keeps line k, where the array has a place for it.
fn keep<T: Copy>(kept: &mut [T], k: usize, line: T)
    ensures { kept.new ≡ slice_set kept.old k line }
{
    if k < kept.len() {
        kept[k] = line;
    }
}

// Reads as many lines as are counted, or all that are left, and keeps as many as find room; past those only their kind matters.
pub fn read_counted<T: CountedLine>(
    rest: &[u8],
    kind: LineKind,
    count: u64,
    kept: &mut [T],
) -> CountedLines
    ensures counted { result ≡ counted_of kind count rest.now }
    ensures kept { kept.new ≡ with_lines (map T.line_of (rows_counted count rest.now)) kept.old }
{
    let mut complete = true;
    let mut consumed = 0;
    for k in 0..count {
        if rest.len() <= consumed {
            return CountedLines {
                complete: false,
                consumed,
            };
        }
        let next = next_row(&rest[consumed..]);
        complete &= next.row.kind == kind;
        keep(kept, k as usize, T::from_row(next.row));
        consumed += next.consumed;
    }
    CountedLines { complete, consumed }
}
