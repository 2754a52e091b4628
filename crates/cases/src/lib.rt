// The cases of 01 and of the requests as tables; no code.

#![tactic(auto)]
