// The line of an answer: ok, ok,V or no,NN (01, Script and host).
ghost use Rattle.std.specs.Prelude.{Ok, ◌<◌};
ghost use Rattle.ledger.specs.Season.{value, refused};
ghost use Rattle.records.specs.Answers.{answer_in};
ghost use Rattle.records.specs.Refusals.{number_of};
ghost use Rattle.lines.specs.Writing.{HasRoom, Wrote};
ghost use Rattle.script.specs.Answers.{value_field, text_of};

use lines::digits::{digit_byte, write_decimal};
use lines::output::Output;
use records::answers::Answer;
use records::refusal::Refusal;

// Writes the field of a value: a comma and the value's digits.
fn write_field(out: &mut Output, v: u64)
    requires { HasRoom out.old (value_field v) }
    ensures { Wrote out.old out.new (value_field v) }
{
    out.write(b",");
    write_decimal(out, v);
}

// Writes `ok` and the field of a value.
fn write_value(out: &mut Output, v: u64)
    requires { HasRoom out.old (text_of (value v)) }
    ensures { Wrote out.old out.new (text_of (value v)) }
{
    out.write(b"ok");
    write_field(out, v);
    out.write(b"\n");
}

// Writes `no,` and the two digits of a number, which need not be that of a cause.
pub fn write_refused(out: &mut Output, number: u64)
    requires two_digits { number < 100 }
    requires room { HasRoom out.old (text_of (refused number)) }
    ensures { Wrote out.old out.new (text_of (refused number)) }
{
    let tens = digit_byte(number / 10 % 10);
    let ones = digit_byte(number % 10);
    out.write(&[b'n', b'o', b',', tens, ones, b'\n']);
}

// Writes the line of a refusal.
fn write_refusal(out: &mut Output, refusal: Refusal)
    requires { HasRoom out.old (text_of (refused (number_of refusal))) }
    ensures { Wrote out.old out.new (text_of (refused (number_of refusal))) }
{
    write_refused(out, refusal.number());
}

// Writes `ok`, with the field of a figure where there is one.
fn write_done(out: &mut Output, figure: Option<u64>)
    requires { HasRoom out.old (text_of (answer_in (Ok figure))) }
    ensures { Wrote out.old out.new (text_of (answer_in (Ok figure))) }
{
    match figure {
        None => out.write(b"ok\n"),
        Some(v) => write_value(out, v),
    }
}

// Writes the line of an answer.
pub fn write_answer(out: &mut Output, answer: Answer)
    requires { HasRoom out.old (text_of (answer_in answer)) }
    ensures { Wrote out.old out.new (text_of (answer_in answer)) }
{
    match answer {
        Ok(figure) => write_done(out, figure),
        Err(refusal) => write_refusal(out, refusal),
    }
}
