// PMERGE and PUNMERGE: pages of equal contents share one frame, each guest at the address that it has in the frame's leaf.
#![tactic(auto)]

pub mod merge;
pub mod unmerge;

pub use crate::merge::pmerge;
pub use crate::unmerge::punmerge;
