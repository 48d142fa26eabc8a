// A group put to a book's lent arrays by its head.
#![tactic(auto)]

pub mod heads;
