//! Searches over any automaton: the rows of a searcher (`AhoCorasick::rows`), the searcher itself, or an `Automaton` of a caller's own.

pub use aho_automaton::automaton::{Counted, find_in, find_in_by};
pub use aho_automaton::patience::Patience;
pub use aho_backward::backward::Backward;
pub use aho_cover::pieces::{PatternPieces, Pieces};
pub use aho_cover::start::StreamCoverStart;
pub use aho_cover::stream::{
    cover_counted, cover_made, cover_stream, cover_with, try_stream_cover_all,
};
pub use aho_stream::finds::{StreamFindIter, try_stream_find_iter};
pub use aho_stream::replace::{
    bytes_for, replace_stream, try_stream_replace_all, try_stream_replace_all_with,
    try_stream_replace_all_with_mut,
};
pub use aho_stream::start::StreamStart;
