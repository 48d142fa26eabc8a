// The lines that a head counts, blocks and class lines, each kept whole, and the lines of the book group.
#![tactic(auto)]

pub mod book_lines;
pub mod counted;
