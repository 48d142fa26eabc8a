// A lent buffer that texts are written into, one after another.
ghost use Rattle.std.specs.Prelude.{◌≡◌};
ghost use Rattle.lines.specs.Writing.{HasRoom, Wrote};

// The buffer, and how many of its bytes are written.
#[derive(Drop)]
pub struct Output<'a> {
    pub bytes: &'a mut [u8],
    pub length: usize,
}

impl<'a> Output<'a> {
    // A buffer in which nothing is written yet.
    pub fn new(bytes: &'a mut [u8]) -> Output<'a>
        ensures same_buffer { result.bytes.ghost_name ≡ bytes.entry.ghost_name }
        ensures bytes { result.bytes.now ≡ bytes.old }
        ensures nothing_written { result.length ≡ 0 }
    {
        Output { bytes, length: 0 }
    }

    // Writes a text after those so far.
    #[tactic(auto, unfolding(crate::specs::Writing::written_at))]
    pub fn write(&mut self, text: &[u8])
        requires { HasRoom self.old text.now }
        ensures { Wrote self.old self.new text.now }
    {
        let end = self.length + text.len();
        self.bytes[self.length..end].copy_from_slice(text);
        self.length = end;
    }
}
