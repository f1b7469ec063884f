// No code: `specs/` has the calls of paper 02 as definitions above those of paper 01, with what is claimed of lists of requests and of runs,
// and `proofs/` the proofs.
#![tactic(auto)]
