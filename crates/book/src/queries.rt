// The queries (01, Queries): the book's opening and figures are lent, and nothing is changed.
ghost use Rattle.std.specs.Prelude.{◌≡◌};
ghost use Rattle.ledger.specs.Call.{limit_of, held_on, net_on};
ghost use Rattle.book.specs.Outcomes.{query_answer_in};

use crate::book::Book;
use awards::holdings::{held, net};
use records::refusal::Refusal;
use tier_limits::limits::limit;

impl Book {
    // A holder's limit at a sink's base in the open tier.
    pub fn limit(self, h: u64, s: u64) -> Result<u64, Refusal>
        ensures { result ≡ query_answer_in self (limit_of h s) }
    {
        limit(&self.opening, &self.figures, h, s)
    }

    // What a holder holds on a path in a month.
    pub fn held(self, h: u64, p: u64, month: u64) -> Result<u64, Refusal>
        ensures { result ≡ query_answer_in self (held_on h p month) }
    {
        held(&self.opening, &self.figures, h, p, month)
    }

    // What all holders hold on a path in a month.
    pub fn net(self, p: u64, month: u64) -> Result<u64, Refusal>
        ensures { result ≡ query_answer_in self (net_on p month) }
    {
        net(&self.opening, &self.figures, p, month)
    }
}
