//! The searches that every automaton has: in memory, with replacement, and in streams. Its items are defined in
//! `aho_automaton`, `aho_devices` and `aho_stream`, where their contracts and definitions stand.
#![tactic(auto)]

pub mod stream;

pub use aho_automaton::{automaton, replace};
pub use aho_devices::buffer;
