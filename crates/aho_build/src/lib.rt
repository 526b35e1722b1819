//! The build of an automaton: from patterns to a table of states.
#![tactic(auto)]

pub mod compiler;
pub mod impls;
pub mod settings;
pub mod sizes;
pub mod special;
pub mod steps;
