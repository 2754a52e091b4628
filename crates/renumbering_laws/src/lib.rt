// Theorems, no code: scopes numbered in the order in which the tree names them.

#![tactic(auto)]
