// What the calls share: answers and refusals, the state that they look at, the checks that each call begins with, the entries of the
// frames that it names, and the leaf of a fixed page.
#![tactic(auto)]

pub mod answer;
pub mod arguments;
pub mod begin;
pub mod ensure;
pub mod leaves;
pub mod named;
pub mod refusal;
pub mod state;
