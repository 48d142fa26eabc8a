// Runs stored scripts, the vectors, through `run`: reads them from standard input, up to 262,144 bytes, and prints for each
//
//   # NAME         the line that begins it
//   N              the number that `run` gave, in decimal
//   ..             the bytes that `run` wrote, where it refused nothing
//
// Every line of the input ends in LF. One that begins with `#` speaks to the program, by the byte after the `#`:
//
//   # NAME         a blank: begins a vector. Lines before the first of these are passed over
//   #times N LINE  a t: N copies of LINE, each with its LF. LINE may be empty, and may begin with `#`
//   #cut N         a c: takes the last N bytes off the script so far, all of it where it has fewer. `#cut 1` leaves a last line without its LF
//   #lend N        an l: lends `run` an output buffer of N bytes. Without this line, or with a larger N, it has 65,536
//   #..            anything else: a note, passed over
//
// Any other line is, with its LF, a line of the script as it stands. N has 1 to 9 digits, as a number of a script;
// anything else counts as 0. A script is built up in 65,600 bytes, and what finds no room there is left out: `run` refuses more than 65,536 bytes whatever
// they are.
//
// What a program writes is in no promise, so these functions state no more than the bounds that their callers need: the stored output holds
// every line.
#![tactic(auto)]

use crate::reading::Line;
use crate::vector::Vector;
use input::read::read_into;
use lines::text::LINE_FEED;
use std::io;

mod reading;
mod script_text;
mod vector;

// The most bytes of vectors that are read.
const ROOM: usize = 262_144;

// Runs a vector that has begun.
fn run_begun(rt: &impl Print, vector: &Option<Vector>) -> io::Result<()> {
    match vector {
        Some(vector) => vector.run(rt),
        None => Ok(()),
    }
}

// Runs each vector: the lines from one that begins a vector up to the next such line.
fn run_vectors(rt: &impl Print, text: &[u8]) -> io::Result<()> {
    let mut vector: Option<Vector> = None;
    for line in text.split_inclusive(|&byte| byte == LINE_FEED) {
        if matches!(Line::from(line), Line::Vector) {
            run_begun(rt, &vector)?;
            vector = Some(Vector::new(line));
        } else if let Some(begun) = &mut vector {
            begun.take(line);
        }
    }
    run_begun(rt, &vector)
}

// Reads the vectors until the text is full, the input ends or a read fails, and runs those that were read.
fn main(rt: HostRuntime) -> io::Result<()> {
    let mut text = [0u8; ROOM];
    let read = read_into(&mut rt.stdin(), &mut text);
    run_vectors(&rt, &text[..read.length])
}
