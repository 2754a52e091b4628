// Theorems, no code: how the figures of a file grow when one const becomes a using.

#![tactic(auto)]
