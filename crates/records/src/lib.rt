// What every call reads beside a book's figures: the opening that a book keeps, the calendar's tests, the refusals and their numbers, the answers.
#![tactic(auto)]

pub mod answers;
pub mod calendar;
pub mod kinds;
pub mod lists;
pub mod opening_numbers;
pub mod ranges;
pub mod refusal;
pub mod setup;
pub mod sums;
