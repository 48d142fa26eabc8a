// Lines and numbers of the vectors' format.
use lines::text::read_number;

// Where N starts in `#times N LINE`, `#cut N` and `#lend N`.
const TIMES_AT: usize = 7;

const CUT_AT: usize = 5;

const LEND_AT: usize = 6;

// What a line says to the program.
#[derive(Clone, Copy)]
pub enum Line<'a> {
    Script,
    Vector,
    // What stands after the word: how often, and the line.
    Times(&'a [u8]),
    Cut(usize),
    Lend(usize),
    Note,
}

impl<'a> From<&'a [u8]> for Line<'a> {
    fn from(line: &'a [u8]) -> Self {
        match line {
            [b'#', b' ', ..] => Line::Vector,
            [b'#', b't', ..] => Line::Times(line.get(TIMES_AT..).unwrap_or(&[])),
            [b'#', b'c', ..] => Line::Cut(number_from(line, CUT_AT)),
            [b'#', b'l', ..] => Line::Lend(number_from(line, LEND_AT)),
            [b'#', ..] => Line::Note,
            _ => Line::Script,
        }
    }
}

// The number that a field writes, as in a script; 0 where it writes none.
pub fn number_of(field: &[u8]) -> usize {
    read_number(field).map_or(0, |number| number as usize)
}

// The number that stands from a place of a line to its LF; 0 where none does.
pub fn number_from(line: &[u8], start: usize) -> usize {
    let rest = line.get(start..).unwrap_or(&[]);
    number_of(rest.strip_suffix(b"\n").unwrap_or(rest))
}
