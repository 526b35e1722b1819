//! What every multi-pattern search speaks of: numbers, spans, matches, inputs and texts, and the definitions of what a
//! search answers.
#![tactic(auto)]

pub mod error;
pub mod impls;
pub mod letters;
pub mod search;
