// A reader's bytes, read into a lent buffer.
ghost use Rattle.std.specs.Prelude.{◌≤◌, ◌<◌, length, take, IsErr, IsOk};
ghost use Rattle.std.specs.Io.KnownBytes.{Consumes, IsAtEnd};

use std::io;
use std::io::Read;

// How many bytes stand at the start of the buffer, and whether a read failed after them. What stands behind them is left to the reader.
#[derive(Drop)]
pub struct Input {
    pub length: usize,
    pub end: io::Result<()>,
}

// Reads until the buffer is full, the reader ends or a read fails. Where it is known what the reader has, those bytes are the first of it, and all where no
// read failed and room is left.
pub fn read_into<R: Read>(reader: &mut R, buffer: &mut [u8]) -> Input
    ensures bound { result.length ≤ length buffer.new }
    ensures failed { IsErr result.end → result.length < length buffer.new }
    ensures whole { IsOk result.end → result.length < length buffer.new → IsAtEnd (R.remaining reader.new) }
    ensures bytes { Consumes (R.remaining reader.old) (R.remaining reader.new) (take result.length buffer.new) }
{
    let mut length = 0;
    while length < buffer.len() {
        let more = match reader.read(&mut buffer[length..]) {
            Ok(more) => more,
            Err(e) => {
                return Input {
                    length,
                    end: Err(e),
                };
            }
        };
        if more == 0 {
            break;
        }
        length += more;
    }
    Input {
        length,
        end: Ok(()),
    }
}
