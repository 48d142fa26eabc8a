// A run over a lent script and a lent output buffer (01, Script and host).
ghost use Rattle.std.specs.Prelude.{◌≡◌, ◌≤◌, length};
ghost use Rattle.std.specs.Result.{result_unwrap_or};
ghost use Rattle.lines.specs.Rows.{rows_of};
ghost use Rattle.lines.specs.Writing.{Wrote};
ghost use Rattle.script.specs.Writing.{HasRoomForLines};
ghost use Rattle.records.specs.Refusals.{refused_by};
ghost use Rattle.script.specs.Run.{answers_text, written, run_refusal, run_number, output_after};
ghost use Rattle.lines.specs.Text.{max_lines};

use crate::answers::write_answer;
use crate::run_groups::run_groups;
use book_group::book_group::open_from_script;
use lines::output::Output;
use lines::text::{BYTES_PER_LINE, MAX_BYTES, MAX_LINES, count_lines};
use records::refusal::Refusal;

// The refusal of a whole run is given in these units, so that a length fits below.
pub const REFUSAL_UNIT: u64 = 1_000_000;

// Answers a script that is neither too long for a run nor too long for the buffer. A refused book group ends the run.
fn answer_script(script: &[u8], out: &mut Output)
    requires some { 1 ≤ length script.now }
    requires few { length (rows_of script.now) ≤ max_lines }
    requires room { HasRoomForLines out.old (length (rows_of script.now)) }
    ensures { Wrote out.old out.new (answers_text script.now) }
{
    let group = open_from_script(script);
    match group.opened {
        Err(refusal) => write_answer(out, Err(refusal)),
        Ok(opening) => {
            write_answer(out, Ok(None));
            run_groups(&script[group.consumed..], &opening, out);
        }
    }
}

// Runs a script: the written length, or the refusal of the whole run, which writes nothing. Nothing is asked of the two slices.
pub fn run_script(script: &[u8], out: &mut [u8]) -> Result<usize, Refusal>
    ensures refused { refused_by result ≡ run_refusal script.now out.old }
    ensures written { result_unwrap_or result 0 ≡ length (written script.now out.old) }
    ensures within { result_unwrap_or result 0 ≤ length out.old }
    ensures output { out.new ≡ output_after script.now out.old }
{
    if MAX_BYTES < script.len() {
        return Err(Refusal::Unreadable);
    }
    let lines = count_lines(script);
    if (MAX_LINES as u64) < lines {
        return Err(Refusal::Unreadable);
    }
    if (out.len() as u64) < BYTES_PER_LINE * lines {
        return Err(Refusal::OutputTooShort);
    }
    if script.is_empty() {
        return Ok(0);
    }
    let mut output = Output::new(out);
    answer_script(script, &mut output);
    Ok(output.length)
}

// The same as the one number that a host gets: the refusal, 0 for a run, times 1,000,000, plus the written length.
#[tactic(auto, unfolding(crate::specs::Run::run_number))]
pub fn run(script: &[u8], out: &mut [u8]) -> u64
    ensures number { result ≡ run_number script.now out.old }
    ensures output { out.new ≡ output_after script.now out.old }
{
    match run_script(script, out) {
        Ok(length) => length as u64,
        Err(refusal) => refusal.number() * REFUSAL_UNIT,
    }
}
