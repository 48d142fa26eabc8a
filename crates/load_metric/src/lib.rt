// The load metric and the load posted, over blocks of metered hours. Each function equals a definition of specs/.
#![tactic(auto)]

pub mod block;
pub mod columns;
pub mod load;
