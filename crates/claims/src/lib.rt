// What is claimed, demand by demand; no code.

#![tactic(auto)]
