// The walk of page tables: the host half, the guest's walk above it, and the checks that a call by virtual address begins with.
#![tactic(auto)]

pub mod begin;
pub mod entry;
pub mod guest;
pub mod host;
pub mod read;
