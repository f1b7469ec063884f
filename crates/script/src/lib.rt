// Scripts: the run of a text, whole or in pieces.
#![tactic(auto)]

pub mod run;
pub mod stream;
