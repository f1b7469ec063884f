// PFIX and PUNFIX: a page gets a leaf, so that pages of other guests can be merged into it, and gives the leaf back.
#![tactic(auto)]

pub mod fix;
pub mod scan;
pub mod unfix;

pub use crate::fix::pfix;
pub use crate::unfix::punfix;
