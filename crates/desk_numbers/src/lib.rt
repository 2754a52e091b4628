// What the calls for C answer and leave, in numbers; no code.

#![tactic(auto)]
