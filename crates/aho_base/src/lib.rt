//! What a caller of any search names: spans, matches, inputs and texts, prefilters, and errors. Its items are defined in
//! `aho_core` and `aho_prefilter`, where their contracts and definitions stand.
#![tactic(auto)]

pub mod search;

pub use aho_core::error;
pub use aho_prefilter::prefilter;
