// The bytes of a script: where a line or a field ends, how many lines there are, and the number that a field writes (01, Script and host).
ghost use Rattle.std.specs.Prelude.{◌≡◌, ◌≤◌, length};
ghost use Rattle.lines.specs.Text.{line_feed, lines_of};
ghost use Rattle.lines.specs.Reading.{chunk_bytes, line_feeds_in, bytes_before, numeral, digits_at, field_at};

// The most bytes that a run takes.
pub const MAX_BYTES: usize = 65536;

// The most lines that a run takes, and so the most that one head can count.
pub const MAX_LINES: usize = 4096;

// The bytes of output that a run needs for each line of its script.
pub const BYTES_PER_LINE: u64 = 16;

// The most digits of a number.
const MAX_DIGITS: usize = 9;

pub const LINE_FEED: u8 = b'\n';

// The bytes whose LFs are counted together: few enough for a count of one byte.
const CHUNK_BYTES: usize = 128;

// Letters or digits that bytes start with: the number that they write, and where they end.
#[derive(Clone, Copy)]
pub struct Token {
    pub value: u64,
    pub end: usize,
}

// How many bytes stand before the first that is `stop`: all of them if none is.
pub fn bytes_before(rest: &[u8], stop: u8) -> usize
    ensures { result ≡ bytes_before stop rest.now }
{
    rest.iter()
        .position(|&byte| byte == stop)
        .unwrap_or(rest.len())
}

// How many bytes stand before the first LF.
pub fn line_length(rest: &[u8]) -> usize
    ensures { result ≡ bytes_before line_feed rest.now }
{
    bytes_before(rest, LINE_FEED)
}

// How many of a few bytes are LF. The count takes one byte, so that many are compared at once.
#[tactic(auto, using(crate::proofs::FeedLaws::feeds_summed))]
fn line_feeds_in(chunk: &[u8]) -> u8
    requires { length chunk.now ≤ chunk_bytes }
    ensures { result ≡ line_feeds_in chunk.now }
{
    chunk.iter().map(|&byte| u8::from(byte == LINE_FEED)).sum()
}

// How many bytes of a script are LF: whole chunks, and what is left.
#[tactic(auto, using(crate::proofs::FeedLaws::chunks_few, crate::proofs::FeedLaws::parts_few, crate::proofs::FeedLaws::parts_summed))]
fn count_line_feeds(script: &[u8]) -> u64
    ensures { result ≡ line_feeds_in script.now }
{
    let (chunks, rest) = script.as_chunks::<CHUNK_BYTES>();
    chunks
        .iter()
        .map(|chunk| line_feeds_in(chunk) as u64)
        .sum::<u64>()
        + line_feeds_in(rest) as u64
}

// How many lines a script has: one to each LF, and one more if bytes follow the last LF.
#[tactic(auto, using(crate::proofs::FeedLaws::feeds_few, crate::proofs::FeedLaws::no_bytes, crate::proofs::FeedLaws::feed_last, crate::proofs::FeedLaws::other_last))]
pub fn count_lines(script: &[u8]) -> u64
    ensures { result ≡ length (lines_of script.now) }
{
    match script {
        [] => 0,
        [.., LINE_FEED] => count_line_feeds(script),
        _ => count_line_feeds(script) + 1,
    }
}

// The digits that bytes start with, at most 9: so no value of more is worked out.
fn read_digits(rest: &[u8]) -> Token
    ensures { result ≡ digits_at rest.now }
{
    let limit = rest.len().min(MAX_DIGITS);
    let mut value: u64 = 0;
    for (i, &byte) in rest[..limit].iter().enumerate() {
        if !byte.is_ascii_digit() {
            return Token { value, end: i };
        }
        value = value * 10 + (byte - b'0') as u64;
    }
    Token { value, end: limit }
}

// The number whose digits bytes start with, if they are one: 1 to 9 of them, and no leading zero but 0 itself.
#[tactic(auto, using(crate::proofs::NumberLaws::no_digit, crate::proofs::NumberLaws::zero_leads, crate::proofs::NumberLaws::one_digit_read, crate::proofs::NumberLaws::other_first_read, crate::proofs::NumberLaws::digits_within))]
pub fn read_field(rest: &[u8]) -> Option<Token>
    ensures { result ≡ field_at rest.now }
{
    let digits = read_digits(rest);
    if digits.end == 0 {
        return None;
    }
    let zero_leads = rest[0] == b'0';
    if zero_leads && 1 < digits.end {
        return None;
    }
    Some(digits)
}

// The number that the bytes of a field write, if they are one.
#[tactic(auto, using(crate::proofs::NumberLaws::numeral_none, crate::proofs::NumberLaws::numeral_part, crate::proofs::NumberLaws::numeral_read))]
pub fn read_number(field: &[u8]) -> Option<u64>
    ensures { result ≡ numeral field.now }
{
    let number = read_field(field)?;
    if number.end < field.len() {
        return None;
    }
    Some(number.value)
}
