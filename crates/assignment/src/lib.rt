// RMPUPDATE and PVALIDATE: the host gives a frame to a guest, and the guest accepts it.
#![tactic(auto)]

pub mod update;
pub mod validate;

pub use crate::update::rmpupdate;
pub use crate::validate::pvalidate;
