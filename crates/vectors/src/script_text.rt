// The script of a vector, built up line by line in a vector of fixed capacity.
use crate::reading::number_of;
use arrayvec::ArrayVec;

// The bytes that a script is built up in.
const ROOM: usize = 65_600;

// The script so far.
#[derive(Drop)]
pub struct ScriptText {
    bytes: ArrayVec<u8, ROOM>,
}

impl ScriptText {
    pub fn empty() -> ScriptText {
        ScriptText {
            bytes: ArrayVec::new(),
        }
    }

    pub fn as_slice(&self) -> &[u8] {
        self.bytes.as_slice()
    }

    // Puts bytes after those so far, as many as find room.
    pub fn append(&mut self, bytes: &[u8]) {
        let count = bytes.len().min(self.bytes.remaining_capacity());
        // So many fit, and none are refused.
        let _ = self.bytes.try_extend_from_slice(&bytes[..count]);
    }

    // What `N LINE` asks for: so many copies of a line, which starts after the blank that follows the number.
    pub fn append_copies(&mut self, said: &[u8]) {
        let Some(blank) = said.iter().position(|&byte| byte == b' ') else {
            return;
        };
        // A line has a byte or more, so past so many copies none finds room.
        let times = number_of(&said[..blank]).min(ROOM);
        for _ in 0..times {
            self.append(&said[blank + 1..]);
        }
    }

    // Takes so many bytes off the end, all of them where there are fewer.
    pub fn cut(&mut self, count: usize) {
        self.bytes.truncate(self.bytes.len().saturating_sub(count));
    }
}
