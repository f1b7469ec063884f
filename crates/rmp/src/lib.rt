// The table that says which guest owns which page (the RMP), as a lent run of words: the two words of an entry, and its place in the
// table.
#![tactic(auto)]

pub mod encoding;
pub mod table;
