// What a nomination is tested by beside its limit: evidence of its source and what uses it, and the causes of the Long Term step.
#![tactic(auto)]

pub mod long_term_step;
pub mod nomination;
pub mod source_usage;
