// What a migration moves, on numbers and slices of numbers. Each function equals a definition of specs/.
#![tactic(auto)]

pub mod netting;
pub mod shares;
