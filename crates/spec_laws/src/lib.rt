// Small laws that all theorems share; no code.

#![tactic(auto)]
