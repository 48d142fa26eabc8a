// A vector: what its lines make of it, and what is printed of its run.
ghost use Rattle.std.specs.Prelude.{◌≤◌};
ghost use Rattle.vectors.specs.declared.vector.TheConstants.{MAX_LENT};

use crate::reading::Line;
use crate::script_text::ScriptText;
use script::run::{REFUSAL_UNIT, run};
use std::io;

// The most bytes that are lent for the output.
const MAX_LENT: usize = 65_536;

// The line that begins a vector, its script so far, and how many bytes are lent for the output.
#[derive(Drop)]
pub struct Vector<'a> {
    title: &'a [u8],
    script: ScriptText,
    lent: usize,
    ghost within: { lent ≤ MAX_LENT },
}

impl<'a> Vector<'a> {
    pub fn new(title: &'a [u8]) -> Vector<'a> {
        Vector {
            title,
            script: ScriptText::empty(),
            lent: MAX_LENT,
        }
    }

    // Does what a line says.
    pub fn take(&mut self, line: &[u8]) {
        match Line::from(line) {
            Line::Script => self.script.append(line),
            Line::Times(said) => self.script.append_copies(said),
            Line::Cut(count) => self.script.cut(count),
            Line::Lend(count) => self.lent = count.min(MAX_LENT),
            Line::Vector | Line::Note => {}
        }
    }

    // Prints the line that begins the vector, the number that `run` gives and what it writes.
    pub fn run(&self, rt: &impl Print) -> io::Result<()> {
        rt.write_all(self.title)?;
        let mut out = [0u8; MAX_LENT];
        let number = run(self.script.as_slice(), &mut out[..self.lent]);
        println!(rt; "{number}")?;
        if number < REFUSAL_UNIT {
            let written = self.lent.min(number as usize);
            rt.write_all(&out[..written])?;
        }
        Ok(())
    }
}
