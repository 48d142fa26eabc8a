// A book's figures, postings and evidence, by holder, place and slot, lent as arrays.
#![tactic(auto)]

pub mod calendar;
pub mod cells;
pub mod coverage;
pub mod layout;
pub mod months;
pub mod sums;
pub mod tier_call;
