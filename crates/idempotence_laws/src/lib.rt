// Theorems, no code: what lowering writes is lowered to itself.

#![tactic(auto)]
