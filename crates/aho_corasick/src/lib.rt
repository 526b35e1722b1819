//! The noncontiguous Aho-Corasick automaton and its builder, with the names that a caller needs beside them.
//!
//! ```
//! use aho_corasick::noncontiguous::NFA;
//! use aho_corasick::{Automaton, Input, MatchKind};
//! ```
#![tactic(auto)]

pub mod answers;
pub mod builder;
pub mod impls;
pub mod noncontiguous;

pub use aho_automaton::automaton::Automaton;
pub use aho_build::special;
pub use aho_core::error::{BuildError, Fault, MatchError, ReplaceError, StreamError};
pub use aho_core::search::{Anchored, Input, Match, MatchKind, PatternID, Span, StateID};
pub use aho_table::{alphabet, links, remapper};
