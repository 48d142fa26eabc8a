// The words that lines begin with, and the kinds of lines that they say (01, Script and host).
ghost use Rattle.std.specs.Prelude.{◌≡◌, ℕ, ◌≤◌, ◌<◌, List};
ghost use Rattle.lines.specs.Rows.{max_fields, forms, kind_of};
ghost use Rattle.lines.specs.Words.{word_key, word_at, key_limit, kind_numbered};

use crate::rows::LineKind;
use crate::text::Token;

// The most letters of a word.
const MAX_LETTERS: usize = 8;

// Every count of fields is less.
const COUNT_LIMIT: u64 = 16;

// The form of lines of a word of at most eight letters with so many fields after it, as one number: the word's, letter by letter as `read_word` has it, and
// the count. A macro, since the value of a constant calls no function.
macro_rules! form_number {
    ($word:literal, $fields:literal) => {
        form_number!(@ $word, 0, 0 1 2 3 4 5 6 7) * COUNT_LIMIT + $fields
    };
    (@ $word:literal, $key:expr,) => {
        $key
    };
    (@ $word:literal, $key:expr, $k:literal $($later:literal)*) => {
        if $k < $word.len() {
            form_number!(@ $word, $key * 32 + ($word[$k] - b'a' + 1) as u64, $($later)*)
        } else {
            $key
        }
    };
}

// The forms of lines.
const BOOK: u64 = form_number!(b"book", 4);

const HOLDER: u64 = form_number!(b"holder", 1);

const SINK: u64 = form_number!(b"sink", 2);

const PATH: u64 = form_number!(b"path", 2);

const LOAD: u64 = form_number!(b"load", 6);

const BLOCK: u64 = form_number!(b"block", 3);

const CARRY: u64 = form_number!(b"carry", 3);

const PRIOR: u64 = form_number!(b"prior", 4);

// It ends in the ten-year mark (02, 1/14).
const VERIFY: u64 = form_number!(b"verify", 8);

const MIGRATE: u64 = form_number!(b"migrate", 3);

const CLASS: u64 = form_number!(b"class", 5);

const OPEN: u64 = form_number!(b"open", 1);

const NOMINATE: u64 = form_number!(b"nominate", 3);

const AWARD: u64 = form_number!(b"award", 3);

const CLOSE: u64 = form_number!(b"close", 0);

const LIMIT: u64 = form_number!(b"limit", 2);

const HELD: u64 = form_number!(b"held", 3);

const NET: u64 = form_number!(b"net", 2);

// It has six pairs (02, 3/14).
const SET: u64 = form_number!(b"set", 12);

// The letters at the start of a line, at most eight: 5 bits to a letter, the first letter highest.
pub fn read_word(rest: &[u8]) -> Token
    ensures { result ≡ word_at rest.now }
{
    let limit = rest.len().min(MAX_LETTERS);
    let mut key: u64 = 0;
    for (i, &byte) in rest[..limit].iter().enumerate() {
        if !byte.is_ascii_lowercase() {
            return Token { value: key, end: i };
        }
        key = key * 32 + (byte - b'a' + 1) as u64;
    }
    Token {
        value: key,
        end: limit,
    }
}

// The kind of the lines of a form.
#[tactic(auto, unfolding(crate::specs::Words::kind_numbered, crate::specs::Words::kind_in, crate::specs::Rows::forms, crate::specs::Words::form_number, crate::specs::Words::letter_key, crate::specs::Words::key_after, crate::specs::Text::bytes_of))]
fn kind_numbered(form: u64) -> LineKind
    ensures { result ≡ kind_numbered form forms }
{
    match form {
        BOOK => LineKind::Book,
        HOLDER => LineKind::Holder,
        SINK => LineKind::Sink,
        PATH => LineKind::Path,
        LOAD => LineKind::Load,
        BLOCK => LineKind::Block,
        CARRY => LineKind::Carry,
        PRIOR => LineKind::Prior,
        VERIFY => LineKind::Verify,
        MIGRATE => LineKind::Migrate,
        CLASS => LineKind::Class,
        OPEN => LineKind::Open,
        NOMINATE => LineKind::Nominate,
        AWARD => LineKind::Award,
        CLOSE => LineKind::Close,
        LIMIT => LineKind::Limit,
        HELD => LineKind::Held,
        NET => LineKind::Net,
        SET => LineKind::Set,
        _ => LineKind::Unreadable,
    }
}

// The kind of a word with so many fields after it.
#[tactic(auto, using(crate::proofs::WordLaws::kind_is))]
pub fn kind_of(key: u64, count: u64) -> LineKind
    requires { (key < key_limit) × (count ≤ max_fields) }
    ensures { (word : List ℕ) → key ≡ word_key word → result ≡ kind_of word count }
{
    kind_numbered(key * COUNT_LIMIT + count)
}
