// A script's text: bytes read as rows of a kind and numbers, and numbers written as digits.
#![tactic(auto)]

pub mod digits;
pub mod lines;
pub mod output;
pub mod rows;
pub mod text;
pub mod words;
