// Theorems, no code: what visits are charged, and the final figures.

#![tactic(auto)]
