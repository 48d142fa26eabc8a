// A block of metered hours (01, Posting, Load).
ghost use Rattle.std.specs.Prelude.{◌≡◌, ◌+◌, ◌&&◌, leb};

// A run of hours with one load: its first hour, counted from 0, how many hours it has, and the kW.
#[derive(Clone, Copy, Default)]
pub struct Block {
    pub first: u64,
    pub hours: u64,
    pub kw: u64,
}

impl Block {
    // Whether it begins no earlier than hour `from`, has an hour or more and ends by hour n.
    pub fn stands_between(self, from: u64, n: u64) -> bool
        ensures { result ≡ (leb from self.first && leb 1 self.hours && leb (self.first + self.hours) n) }
    {
        from <= self.first && 1 <= self.hours && self.first <= n && self.hours <= n - self.first
    }
}
