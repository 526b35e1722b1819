//! Search and replacement in streams: endless bytes, read in any pieces through a buffer of fixed length.
#![tactic(auto)]

pub mod chunks;
pub mod count;
pub mod finds;
pub mod impls;
mod pieces;
pub mod progress;
pub mod push;
pub mod replace;
mod settle;
mod skip;
pub mod start;
