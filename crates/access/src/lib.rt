// READ and WRITE, and the check on each access.
#![tactic(auto)]

pub mod check;
pub mod transfer;
