// Theorems, no code: every visit on tables is 01's.

#![tactic(auto)]
