// Load: its causes, the load posted, and what it adds to a book's lent arrays.
#![tactic(auto)]

pub mod columns;
pub mod load;
pub mod metered;
