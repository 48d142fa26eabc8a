// Migrations: what class lines transfer, and the loads, rights and allocations of a book's lent figures after it.
#![tactic(auto)]

pub mod class_lines;
pub mod class_tests;
pub mod migrate;
