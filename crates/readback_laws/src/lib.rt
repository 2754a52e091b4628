// Theorems, no code: the written bytes, read back.

#![tactic(auto)]
