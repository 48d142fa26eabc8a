// Opening a book: what it keeps of its counts and lines, and whether they break a rule.
#![tactic(auto)]

pub mod book_setup;
pub mod kept;
pub mod legality;
pub mod opening;
pub mod setup_lists;
