// No code: `specs/` has the rules of paper 01 as definitions, and `proofs/` the laws about them.
#![tactic(auto)]
