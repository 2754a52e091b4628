// Theorems, no code: the scope rows agree with the tree.

#![tactic(auto)]
