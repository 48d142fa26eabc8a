// Numbers as decimal digits.
ghost use Rattle.std.specs.Prelude.{◌<◌, ◌≡◌};
ghost use Rattle.lines.specs.Text.{decimal, digit};
ghost use Rattle.lines.specs.Writing.{HasRoom, Wrote};

use crate::output::Output;

// The byte of a digit.
#[tactic(auto, unfolding(crate::specs::Text::digit))]
pub fn digit_byte(d: u64) -> u8
    requires { d < 10 }
    ensures { result ≡ digit d }
{
    b'0' + d as u8
}

// Writes a number.
pub fn write_decimal(out: &mut Output, v: u64)
    requires { HasRoom out.old (decimal v) }
    ensures { Wrote out.old out.new (decimal v) }
{
    // The digits are found from the last to the first; a number of 64 bits has at most 20.
    let mut digits = [0u8; 20];
    let mut first = 19;
    let mut rest = v;
    while 10 <= rest {
        digits[first] = digit_byte(rest % 10);
        first -= 1;
        rest /= 10;
    }
    digits[first] = digit_byte(rest);
    out.write(&digits[first..]);
}
