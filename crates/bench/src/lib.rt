//! The plain program that computes what a search answers, in the open: it looks at every range of the span, and so takes
//! the product of its places, the patterns and their lengths.
//!
//! Its contracts are the definitions themselves, so what it answers is what any other search has to answer. The tests of
//! `library_tests` go over the worked rows, every short input and random ones with it and with the automaton.
#![tactic(auto)]

pub mod callers;
pub mod listing;
pub mod numbers;
pub mod one_byte;
pub mod pattern_set;
pub mod plain;
pub mod relinked;
pub mod scripted;
pub mod tally;

pub use pattern_set::PatternSet;
