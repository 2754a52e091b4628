// Theorems, no code: what streaming and placing do to the rows of a tree.

#![tactic(auto)]
