//! Numbers, spans, matches, inputs, and the texts that are searched.

pub use aho_core::search::{
    Anchored, Input, Match, MatchKind, PatternID, PatternIDError, SmallIndex, SmallIndexError,
    Span, StateID, StateIDError, Work,
};
pub use aho_prefilter::text::{Bytes, Text};
