// Numbers as a script has them, read and printed, and the bytes that they are printed to.
#![tactic(auto)]

pub mod buffer;
pub mod digits;
pub mod number;
