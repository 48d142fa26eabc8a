// The answers of a season, written as they come. What a program writes is in no promise, so nothing is stated of the lines: the stored output holds every one.
ghost use Rattle.std.specs.Prelude.{◌≡◌, IfOk};

use book::book::{Book, Outcome};
use records::answers::{Answer, of_call, of_query};
use records::refusal::Refusal;
use std::io;

// Writes the line above a case.
pub fn write_case(rt: &impl Print, number: u64) -> io::Result<()> {
    println!(rt; "case,{number}")
}

// Writes the line of an answer.
fn write_line(rt: &impl Print, answer: Answer) -> io::Result<()> {
    match answer {
        Ok(None) => println!(rt; "ok"),
        Ok(Some(figure)) => println!(rt; "ok,{figure}"),
        Err(refusal) => {
            let number = refusal.number();
            println!(rt; "no,{number:02}")
        }
    }
}

// Writes the answer of a call, and gives the book that stands beside it.
pub fn write_outcome(rt: &impl Print, outcome: Outcome) -> io::Result<Book>
    ensures { IfOk result (λ b. b ≡ outcome.book) }
{
    write_line(rt, of_call(outcome.answer))?;
    Ok(outcome.book)
}

// Writes the answer of a query.
pub fn write_query(rt: &impl Print, queried: Result<u64, Refusal>) -> io::Result<()> {
    write_line(rt, of_query(queried))
}
