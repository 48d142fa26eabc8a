// Answers a season's script: reads standard input to its end and prints the answers. A script over the limits is answered no,01.
// A read or a write that fails is said in one line on standard error; where a read fails, nothing is answered.
#![tactic(auto)]

use input::read::read_into;
use lines::text::{BYTES_PER_LINE, MAX_BYTES, MAX_LINES};
use script::run::run_script;
use std::io;

// One byte more than a script may have shows that there are too many.
const SCRIPT_ROOM: usize = MAX_BYTES + 1;

// The most bytes of output that a run needs.
const OUTPUT_ROOM: usize = MAX_LINES * BYTES_PER_LINE as usize;

// Writes answers to standard output, and says where that fails.
fn write_answers(rt: &(impl Print + Eprint), answers: &[u8]) -> io::Result<()> {
    rt.write_all(answers)
        .or_else(|_| eprintln!(rt; "season: the answers cannot be written"))
}

// Answers a script.
fn answer(rt: &(impl Print + Eprint), script: &[u8]) -> io::Result<()> {
    let mut out = [0u8; OUTPUT_ROOM];
    match run_script(script, &mut out) {
        Ok(length) => write_answers(rt, &out[..length]),
        Err(_) => write_answers(rt, b"no,01\n"),
    }
}

fn main(rt: HostRuntime) -> io::Result<()> {
    let mut script = [0u8; SCRIPT_ROOM];
    let read = read_into(&mut rt.stdin(), &mut script);
    if read.end.is_err() {
        return eprintln!(rt; "season: the script cannot be read");
    }
    answer(&rt, &script[..read.length])
}
