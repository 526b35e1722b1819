//! Multiple-pattern search.
#![tactic(auto)]

pub mod answers;
pub mod any;
pub mod automaton;
mod backward;
pub mod builder;
pub mod cover;
mod cover_iter;
mod engine;
pub mod find;
mod find_all;
pub mod forms;
pub mod impls;
pub mod input;
pub mod iter;
pub mod kinds;
mod levels;
mod overlapping;
mod prefilters;
mod push;
pub mod replace;
pub mod searcher;
mod standing;
pub mod stream;
mod stream_iter;

pub use aho_automaton::automaton::{Automaton, OverlappingState};
pub use aho_backward::error::BackwardError;
pub use aho_backward::overhang;
pub use aho_corasick::noncontiguous;
pub use aho_corasick::noncontiguous::Limits;
pub use aho_core::error::{
    BuildError, Fault, MatchError, MatchErrorKind, ReplaceError, StreamError,
};
pub use aho_core::search::{Anchored, Input, Match, MatchKind, PatternID, Span, StateID};
pub use aho_devices::adapters::{FromRead, FromWrite};
pub use aho_devices::device::{Sink, Source};
pub use aho_devices::write::{Nowhere, write_whole};
pub use aho_prefilter::text::{Bytes, Text};
pub use aho_stream::progress::{StreamPiece, StreamProgress};
pub use backward::Backward;
pub use builder::AhoCorasickBuilder;
pub use cover::CoverIter;
pub use find::{FindIter, FindOverlappingIter};
pub use input::Searchable;
pub use kinds::{AhoCorasickKind, StartKind};
pub use searcher::AhoCorasick;
pub use stream::{StreamFindIter, StreamStart, stream_finds};
