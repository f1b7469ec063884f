// No code: examples of the calls, and the worked script of paper 01, run on the definitions of `rules` and `requests`.
#![tactic(auto)]
