//! Lists that share one vector: lists of transitions, and lists of patterns.

pub mod matches;
mod numbers;
mod places;
pub mod renumber;
pub mod transitions;
mod words;
