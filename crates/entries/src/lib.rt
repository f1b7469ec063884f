// The entries of the table that says which guest owns which page (the RMP), and the words of its leaf pages.
#![tactic(auto)]

pub mod entry;
pub mod leaf;
pub mod reason;
