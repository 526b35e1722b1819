//! One `use` for each public item, by the crate and the module that it belongs to. The gate builds it only if all are there.

pub use aho_base::error::{
    BuildError, Fault, MatchError, MatchErrorKind, ReplaceError, StreamError,
};
pub use aho_base::prefilter::{Candidate, Prefilter, PrefilterBuilder};
pub use aho_base::search::{
    Anchored, Bytes, Input, Match, MatchKind, PatternID, PatternIDError, SmallIndex,
    SmallIndexError, Span, StateID, StateIDError, Text, Work,
};
pub use aho_corasick::alphabet::{ByteClassSet, ByteClasses};
pub use aho_corasick::links::{DEAD, FAIL, Matches, Table, Transitions};
pub use aho_corasick::noncontiguous::{Builder, Limits, NFA};
pub use aho_corasick::remapper::{Remappable, Remapper};
pub use aho_corasick::special::Special;
pub use aho_search::automaton::{
    Automaton, Counted, FindIter, FindOverlappingIter, OverlappingState, Patience, Walk, find_in,
    find_in_by,
};
pub use aho_search::buffer::{Buffer, Filled};
pub use aho_search::stream::{
    FromRead, FromWrite, Sink, Source, StreamChunk, StreamChunkIter, StreamFindIter,
    try_stream_find_iter, try_stream_replace_all, try_stream_replace_all_with,
    try_stream_replace_all_with_mut, write_whole,
};
