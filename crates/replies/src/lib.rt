// What is printed for a call and its answer.
#![tactic(auto)]

pub mod reply;
