// What a line of a script says: its kind, by its word and count of fields, and its numbers (01, Script and host).
ghost use Rattle.std.specs.Prelude.{◌≡◌};
ghost use Rattle.lines.specs.Rows.{begins_set, unread_row};
ghost use Rattle.lines.specs.Reading.{fields_read};

use crate::text::{LINE_FEED, read_field};

// The kinds of lines.
#[derive(Clone, Copy, PartialEq, Eq)]
pub enum LineKind {
    // One that cannot be read.
    Unreadable,
    Book,
    Holder,
    Sink,
    Path,
    Load,
    Block,
    Carry,
    Prior,
    Verify,
    Migrate,
    Class,
    Open,
    Nominate,
    Award,
    Close,
    Limit,
    Held,
    Net,
    Set,
    // One that begins as a set line and cannot be read. It is told apart, since directly after the book lines it belongs to the book group (02, 3/14).
    BrokenSet,
}

const COMMA: u8 = b',';

// No line has more fields.
pub const MAX_FIELDS: usize = 12;

// A line's kind and its numbers, 0 past the last.
#[derive(Clone, Copy)]
pub struct Row {
    pub kind: LineKind,
    pub fields: [u64; MAX_FIELDS],
}

// The fields after a line's word: how many, their values, 0 past the last, and where the LF after them stands, counted from the word's end.
#[derive(Clone, Copy)]
pub struct Fields {
    pub count: u64,
    pub numbers: [u64; MAX_FIELDS],
    pub end: usize,
}

// Whether a line begins with `set,` (02, 3/14).
#[tactic(auto, using(crate::proofs::BeginLaws::starts_set))]
fn begins_set(rest: &[u8]) -> bool
    ensures { result ≡ begins_set rest.now }
{
    rest.starts_with(b"set,")
}

// The row of the next line, where that cannot be read.
#[tactic(auto, unfolding(crate::specs::Rows::unread_row, crate::specs::Rows::unreadable_row, crate::specs::Rows::row, tariff::specs::Sum::tabulate))]
pub fn unread_row(rest: &[u8]) -> Row
    ensures { result ≡ unread_row rest.now }
{
    let kind = if begins_set(rest) {
        LineKind::BrokenSet
    } else {
        LineKind::Unreadable
    };
    Row {
        kind,
        fields: [0u64; MAX_FIELDS],
    }
}

// The fields of a line after its word, if they can be read up to its LF. One more than a line can have ends the reading.
#[tactic(auto, using(crate::proofs::FieldLaws::line_ends, crate::proofs::FieldLaws::stops_at_end, crate::proofs::FieldLaws::stops_at_byte))]
pub fn read_fields(rest: &[u8]) -> Option<Fields>
    ensures { result ≡ fields_read rest.now }
{
    let mut numbers = [0u64; MAX_FIELDS];
    let mut count = 0;
    let mut left = rest;
    while count < MAX_FIELDS
        && let [COMMA, after @ ..] = left
    {
        let field = read_field(after)?;
        numbers[count] = field.value;
        count += 1;
        left = &after[field.end..];
    }
    match left {
        [LINE_FEED, ..] => Some(Fields {
            count: count as u64,
            numbers,
            end: rest.len() - left.len(),
        }),
        _ => None,
    }
}
