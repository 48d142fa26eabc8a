// What a program is given to read, in a buffer of fixed size.
#![tactic(auto)]

pub mod read;
