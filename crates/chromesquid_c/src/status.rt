//! The numbers that the functions answer. The header has the same, with CS_ before each.

/// All is done. A search found nothing.
pub const DONE: u32 = 0;

/// A search found a match.
pub const FOUND: u32 = 1;

/// The handle has no searcher.
pub const NO_SEARCHER: u32 = 2;

/// The searcher was not built for such a search.
pub const REFUSED: u32 = 3;

/// The haystack has no such span.
pub const NO_SPAN: u32 = 4;

/// Memory ran out.
pub const NO_MEMORY: u32 = 5;

/// A number of the options means nothing.
pub const NO_OPTION: u32 = 6;

/// The patterns need more states than there may be.
pub const TOO_MANY_STATES: u32 = 7;

/// There are more patterns than there may be.
pub const TOO_MANY_PATTERNS: u32 = 8;

/// A pattern is longer than it may be.
pub const TOO_LONG: u32 = 9;

/// There is not one replacement for each pattern.
pub const NOT_ONE_EACH: u32 = 10;

/// The room is too small.
pub const NO_ROOM: u32 = 11;

/// The stream has ended.
pub const ENDED: u32 = 12;

/// As many bytes were pushed as may be.
pub const TOO_MANY_BYTES: u32 = 13;

/// A pattern is empty.
pub const EMPTY_PATTERN: u32 = 14;

/// The secret has fewer than four bytes.
pub const TOO_SHORT: u32 = 15;

/// The state does not list so many patterns.
pub const NO_PATTERN: u32 = 16;

/// The option of the match kind.
pub const MATCH_KIND: u32 = 1;

/// The option of the start kind.
pub const START_KIND: u32 = 2;

/// The option of the automaton.
pub const AUTOMATON: u32 = 3;

/// The size of the options.
pub const SIZE: u32 = 4;

/// An option of a later version.
pub const LATER: u32 = 5;
