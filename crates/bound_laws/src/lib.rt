// Theorems, no code: every number of the walk fits 16 bits, where the walk ends, and the walk as a recursion.

#![tactic(auto)]
