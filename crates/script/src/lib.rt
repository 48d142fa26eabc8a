// Scripts: the groups of a season one after another, and the answers to them; `run` over lent bytes.
#![tactic(auto)]

pub mod answers;
pub mod run;
pub mod run_groups;
