// Groups: what their rows ask of a book and what it answers; load and migrate, the heads that count lines, put to a book's lent arrays.
#![tactic(auto)]

pub mod counted_calls;
pub mod outcome;
