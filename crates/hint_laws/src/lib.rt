// Theorems, no code: the hints that a source asks for and a lowered tree gives.

#![tactic(auto)]
