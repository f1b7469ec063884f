// Lines of a script: what a line says, and the reader, which keeps a text and its place in it together.
#![tactic(auto)]

pub mod line;
pub mod reader;
