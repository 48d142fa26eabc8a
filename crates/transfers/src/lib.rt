// What a migration takes and adds: columns of eight holders' values, and their transfer in a book's lent arrays.
#![tactic(auto)]

pub mod transfers;
