// Theorems, no code: how tables hold what 01 speaks of.

#![tactic(auto)]
