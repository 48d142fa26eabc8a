// Posting: Long Term rights carried in and last year's allocations. Each changes a book's lent arrays. Loads and evidence have crates of their own.
#![tactic(auto)]

pub mod carry;
pub mod path_posting;
pub mod prior;
