// The book group: its head and lines read, and a book opened from them.
#![tactic(auto)]

pub mod book_group;
