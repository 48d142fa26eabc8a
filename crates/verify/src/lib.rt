// Verify: a holder's evidence of a source, filed and kept by term in a book's lent arrays.
#![tactic(auto)]

pub mod verify;
