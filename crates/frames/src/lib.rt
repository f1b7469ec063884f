// The frames of a memory, each a run of 512 words.
#![tactic(auto)]

pub mod frame;
