// What each instruction needs of the frames that it names: when a need is met. The table of needs is a definition here.
#![tactic(auto)]

pub mod need;
pub mod table;
