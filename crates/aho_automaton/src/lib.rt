//! Automata with their laws, and the search that every automaton has.
#![tactic(auto)]

pub mod automaton;
pub mod cover;
pub mod find;
pub mod iter;
pub mod open_runs;
pub mod overlapping;
pub mod patience;
pub mod patient;
pub mod replace;
pub mod walk;
