// No code: `specs/` has page tables and their walk as definitions, and `proofs/` the laws about them.
#![tactic(auto)]
