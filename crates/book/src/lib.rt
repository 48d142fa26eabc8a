// The season book. Each call takes the book as it is and returns the next one.
#![tactic(auto)]

pub mod book;
pub mod opened;
pub mod posting_calls;
pub mod queries;
pub mod tier_calls;
