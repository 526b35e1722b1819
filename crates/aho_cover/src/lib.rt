//! Covers of streams: each byte that lies in some match is kept from the sink, and a piece is written for each run of such bytes.
#![tactic(auto)]

mod hand;
mod output;
pub mod pieces;
mod progress;
mod refill;
mod skip;
pub mod start;
mod steps;
pub mod stream;
mod walk;
mod words;
