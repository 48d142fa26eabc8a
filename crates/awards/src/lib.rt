// The tiers' opening and closing, awards, and the queries on holdings. A call changes a book's lent figures, and a query reads them.
#![tactic(auto)]

pub mod award;
pub mod holdings;
pub mod open_close;
