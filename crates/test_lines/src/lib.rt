// What the test program compares, apart from the calls themselves: lines of text, states of a walk, and lent memory.
#![tactic(auto)]

pub mod lines;
pub mod memory;
pub mod states;
#[cfg(test)]
mod tests;
