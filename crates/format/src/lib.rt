// The script's format. There is no code here: the definitions are in `specs/`.
#![tactic(auto)]
