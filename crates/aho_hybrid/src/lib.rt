//! Automata that are made from an `NFA`, and whose states have rows: a step is one look-up.
#![tactic(auto)]

pub mod answers;
mod budget;
mod fill;
pub mod hybrid;
mod lists;
mod rows;
