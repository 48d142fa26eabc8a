// The lines of the book group after its head: those that the head counts, read one kind after another (01, Script and host), and the set line (02, 3/14).
ghost use Rattle.std.specs.Prelude.{◌≡◌};
ghost use Rattle.counted_lines.specs.BookLines.{set_line_of, book_lines_of, read_lists_of};

use crate::counted::read_counted;
use lines::lines::next_row;
use lines::rows::{LineKind, Row};
use records::setup::{PathLine, SinkLine};
use tariff::settings::Settings;
use tariff::sizes::MAX_PLACES;

// The set line that may stand after the lines that a book head counts: its fractions, none where it cannot be read, and how many bytes it takes. Where no
// set line stands, the fractions are those that hold without one (02, 3/14).
#[derive(Clone, Copy)]
pub struct SetLine {
    pub settings: Option<Settings>,
    pub consumed: usize,
}

// What stands on the lines that a book head counts, the first 16 of each kind, and the fractions. A book with more than 16 of anything is refused, so no
// more are needed.
#[derive(Clone, Copy)]
pub struct BookLists {
    pub holder_kinds: [u64; MAX_PLACES],
    pub sink_lines: [SinkLine; MAX_PLACES],
    pub path_lines: [PathLine; MAX_PLACES],
    pub settings: Settings,
}

// What stands where the lines that a book head counts and the set line belong, whatever lines they are and as far as there are any, whether they are
// those lines, and how many bytes they take. A set line that cannot be read has the fractions that hold without one.
#[derive(Clone, Copy)]
pub struct ReadLists {
    pub lists: BookLists,
    pub complete: bool,
    pub consumed: usize,
}

// The lines that a book head counts and the set line after them: what stands on them, none where a line is absent, of another kind or cannot be read,
// and how many bytes they take.
#[derive(Clone, Copy)]
pub struct BookLines {
    pub lists: Option<BookLists>,
    pub consumed: usize,
}

// Reads the set line if one stands here; it is left alone where another line does.
#[tactic(auto, unfolding(crate::specs::BookLines::set_line_of, crate::specs::BookLines::settings_read, crate::specs::Counted::bytes_of_lines, lines::specs::Rows::not_broken, lines::specs::Rows::set_count, lines::specs::Rows::settings_on))]
fn read_set_line(rest: &[u8]) -> SetLine
    ensures { result ≡ set_line_of rest.now }
{
    let next = next_row(rest);
    let row = next.row;
    let fields = row.fields;
    match row.kind {
        LineKind::Set => SetLine {
            settings: Some(Settings::from(fields)),
            consumed: next.consumed,
        },
        LineKind::BrokenSet => SetLine {
            settings: None,
            consumed: next.consumed,
        },
        _ => SetLine {
            settings: Some(Settings::present()),
            consumed: 0,
        },
    }
}

// Reads the lines that a book head counts, holders, then sinks, then paths, and the set line after them.
pub fn read_book_lists(rest: &[u8], head: Row) -> ReadLists
    ensures { result ≡ read_lists_of head rest.now }
{
    let [holder_count, _, sink_count, path_count, ..] = head.fields;
    let mut holder_kinds = [0u64; MAX_PLACES];
    let mut sink_lines = [SinkLine::default(); MAX_PLACES];
    let mut path_lines = [PathLine::default(); MAX_PLACES];
    let holders = read_counted(rest, LineKind::Holder, holder_count, &mut holder_kinds);
    let at_sinks = holders.consumed;
    let sinks = read_counted(
        &rest[at_sinks..],
        LineKind::Sink,
        sink_count,
        &mut sink_lines,
    );
    let at_paths = at_sinks + sinks.consumed;
    let paths = read_counted(
        &rest[at_paths..],
        LineKind::Path,
        path_count,
        &mut path_lines,
    );
    let at_set = at_paths + paths.consumed;
    let set = read_set_line(&rest[at_set..]);
    ReadLists {
        lists: BookLists {
            holder_kinds,
            sink_lines,
            path_lines,
            settings: set.settings.unwrap_or(Settings::present()),
        },
        complete: holders.complete & sinks.complete & paths.complete & set.settings.is_some(),
        consumed: at_set + set.consumed,
    }
}

// The same where the lines are complete, and none of it where they are not.
#[tactic(auto, unfolding(crate::specs::BookLines::book_lines_of, crate::specs::BookLines::read_lists_of))]
pub fn read_book_lines(rest: &[u8], head: Row) -> BookLines
    ensures { result ≡ book_lines_of head rest.now }
{
    let read = read_book_lists(rest, head);
    let lists = if read.complete {
        Some(read.lists)
    } else {
        None
    };
    BookLines {
        lists,
        consumed: read.consumed,
    }
}
