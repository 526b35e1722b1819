//! Finds of the leftmost kinds in linear time, whatever the patterns are: by a walk backward over each block of a text.
#![tactic(auto)]

pub mod backward;
mod block;
mod builder;
mod choose;
pub mod error;
pub mod find_all;
mod leading;
pub mod overhang;
mod replace;
pub mod stream;
mod walk_back;
