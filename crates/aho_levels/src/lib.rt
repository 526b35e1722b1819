//! An automaton of many patterns: its states are numbered level by level, and made of the sorted patterns.
#![tactic(auto)]

mod child;
pub mod levels;
mod links;
mod lists;
mod order;
mod states;
mod tree;
mod trie;
