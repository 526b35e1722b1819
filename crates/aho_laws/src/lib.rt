//! Laws that show the definitions are the right ones, each the contract of a function that does nothing.
#![tactic(auto)]

pub mod cover;
pub mod cuts;
pub mod search;
pub mod trie;
