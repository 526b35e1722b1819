//! The table of an automaton's states.
#![tactic(auto)]

pub mod alphabet;
pub mod impls;
pub mod links;
pub mod lists;
pub mod remapper;
