// This crate has definitions alone: the plain ledger of document 01 and the sums over its calls. They stand in specs/.
#![tactic(auto)]
