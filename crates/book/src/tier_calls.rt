// The calls of the tiers (01, Tiers): the book's arrays are lent to the call, and the next book is made of them.
ghost use Rattle.std.specs.Prelude.{◌≡◌};
ghost use Rattle.ledger.specs.Call.{open_tier, nominate, award, close_tier};
ghost use Rattle.book.specs.Outcomes.{outcome_of};

use crate::book::{Book, Outcome};
use awards::award::award;
use awards::open_close::{close_tier, open_tier};
use nominations::nominate::nominate;

impl Book {
    // Opens a tier.
    pub fn open_tier(mut self, tier: u64) -> Outcome
        ensures { result ≡ outcome_of self (open_tier tier) }
    {
        let answer = open_tier(&mut self.figures, tier);
        Outcome { answer, book: self }
    }

    // Nominates kw for a holder on a path in the open tier.
    pub fn nominate(mut self, h: u64, p: u64, kw: u64) -> Outcome
        ensures { result ≡ outcome_of self (nominate h p kw) }
    {
        let answer = nominate(&self.opening, &mut self.figures, h, p, kw);
        Outcome { answer, book: self }
    }

    // Awards kw to a holder on a path in the open tier.
    pub fn award(mut self, h: u64, p: u64, kw: u64) -> Outcome
        ensures { result ≡ outcome_of self (award h p kw) }
    {
        let answer = award(&self.opening, &mut self.figures, h, p, kw);
        Outcome { answer, book: self }
    }

    // Closes the open tier: what was not awarded is dropped.
    pub fn close_tier(mut self) -> Outcome
        ensures { result ≡ outcome_of self close_tier }
    {
        let answer = close_tier(&mut self.figures);
        Outcome { answer, book: self }
    }
}
