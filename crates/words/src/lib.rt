// Runs of 64-bit words, of any length.
#![tactic(auto)]

pub mod columns;
pub mod compare;
pub mod run;
