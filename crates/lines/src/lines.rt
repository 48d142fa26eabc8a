// The lines of a script, read one after another (01, Script and host).
ghost use Rattle.std.specs.Prelude.{◌≡◌};
ghost use Rattle.lines.specs.Reading.{next_row, unreadable_line};

use crate::rows::{LineKind, Row, read_fields, unread_row};
use crate::text::line_length;
use crate::words::{kind_of, read_word};

// The row of the next line, and how many bytes that line takes, its LF included.
#[derive(Clone, Copy)]
pub struct NextRow {
    pub row: Row,
    pub consumed: usize,
}

// A line that cannot be read: it is passed over with its LF, or to the end where none is left.
#[tactic(auto, using(crate::proofs::NextRowLaws::ended_bytes, crate::proofs::NextRowLaws::unended_bytes), unfolding(crate::specs::Reading::unreadable_line))]
fn unreadable_line(rest: &[u8]) -> NextRow
    ensures { result ≡ unreadable_line rest.now }
{
    let length = line_length(rest);
    // Field by field: the bytes beside a kind would be copied with a whole row, and waited for.
    let Row { kind, fields } = unread_row(rest);
    let row = Row { kind, fields };
    if length < rest.len() {
        return NextRow {
            row,
            consumed: length + 1,
        };
    }
    NextRow {
        row,
        consumed: length,
    }
}

// The next line of what is left of a script, read in one pass. Where no LF ends it, it cannot be read, and is all that is left.
#[tactic(auto, using(crate::proofs::ReadRowLaws::word_within))]
pub fn next_row(rest: &[u8]) -> NextRow
    ensures { result ≡ next_row rest.now }
{
    let word = read_word(rest);
    let Some(fields) = read_fields(&rest[word.end..]) else {
        return unreadable_line(rest);
    };
    let kind = kind_of(word.value, fields.count);
    if kind == LineKind::Unreadable {
        return unreadable_line(rest);
    }
    let end = word.end + fields.end;
    // Number by number, out of registers: a copy of the whole array would wait for the numbers that were just stored in it.
    let n = fields.numbers;
    let numbers = [
        n[0], n[1], n[2], n[3], n[4], n[5], n[6], n[7], n[8], n[9], n[10], n[11],
    ];
    NextRow {
        row: Row {
            kind,
            fields: numbers,
        },
        consumed: end + 1,
    }
}
