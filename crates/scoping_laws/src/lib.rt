// Theorems, no code: the scopes and symbols that a context and Program's items make are 01's.

#![tactic(auto)]
