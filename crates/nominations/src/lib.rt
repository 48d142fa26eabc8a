// Nominations: their causes and what an accepted one adds. Each function reads or changes a book's lent arrays.
#![tactic(auto)]

pub mod nominate;
