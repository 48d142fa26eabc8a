// The tariff's rules on numbers, each function equal to a definition of specs/; and one entry of a list, which the crates above read by one function.
#![tactic(auto)]

pub mod entries;
pub mod legal_settings;
pub mod limit;
pub mod settings;
pub mod sizes;
pub mod terms;
