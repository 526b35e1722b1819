//! What C passes and gets as a struct.

/// The form of `CsOptions`: 4 is the one with room for options of later versions.
pub const OPTIONS_FORM: u32 = 4;

/// How many bytes `CsOptions` has.
pub const OPTIONS_SIZE: u32 = 80;

/// How a searcher is built. A number that is not named here means nothing.
#[repr(C)]
#[derive(Clone, Copy)]
pub struct CsOptions {
    /// How many bytes these options have, as their caller knows them: `OPTIONS_SIZE`, and another number in those of another version.
    pub size: u32,
    /// Which of several matches is found: 0 Standard, 1 leftmost-first, 2 leftmost-longest.
    pub match_kind: u32,
    /// Which searches are answered: 0 those that are not anchored, 1 anchored ones, 2 both.
    pub start_kind: u32,
    /// Whether ASCII letters are the same in both cases.
    pub ignore_case: bool,
    /// Whether a prefilter may be held. No answer depends on it.
    pub prefilter: bool,
    /// Which automaton searches: 0 the one that the rule takes, 1 the noncontiguous one, 2 one of rows. No answer depends on it.
    pub automaton: u32,
    /// The greatest index of a state, of a transition and of a listed pattern. Above 2^31 - 2 it counts as that.
    pub max_index: usize,
    /// The greatest number of a pattern. Above 2^31 - 2 it counts as that.
    pub max_pattern: usize,
    /// The greatest length of a pattern, in bytes. Above 2^31 - 2 it counts as that.
    pub max_len: usize,
    /// Room for an option of a later version, and 0: what asks for none.
    pub later_a: u64,
    /// The same.
    pub later_b: u64,
    /// The same.
    pub later_c: u64,
    /// The same.
    pub later_d: u64,
}

/// Why a build failed: what was answered, and the numbers that say the rest. A number that nothing is said of here is 0.
#[repr(C)]
#[derive(Clone, Copy)]
pub struct CsError {
    /// What the build answered: 5, 6, 7, 8 or 9.
    pub status: u32,
    /// With 6, whose number means nothing: 1 the match kind's, 2 the start kind's, 3 the automaton's, 4 the size, 5 a later option's.
    pub option: u32,
    /// With 8 and 9, the number of the pattern.
    pub pattern: usize,
    /// With 6, the number that means nothing. Else the number that is above its limit: with 7 an index of a table, with 8 the
    /// number of the pattern, with 9 its length.
    pub requested: u64,
    /// With 7, 8 and 9, the limit.
    pub max: u64,
}

/// A match.
#[repr(C)]
#[derive(Clone, Copy)]
pub struct CsMatch {
    /// The number of the pattern, by its place from 0 on.
    pub pattern: usize,
    /// The place of the first byte, from 0 on.
    pub start: usize,
    /// The place behind the last byte.
    pub end: usize,
}

/// What is told of a state.
#[repr(C)]
#[derive(Clone, Copy)]
pub struct CsState {
    /// Whether it is dead: nothing that follows is found any more, and each byte leads to a dead state.
    pub is_dead: bool,
    /// Whether it lists a pattern.
    pub is_match: bool,
    /// Whether it is a start: what ends later begins where it is held, or behind.
    pub is_start: bool,
    /// Whether a search has to look at it: it is where it is dead or lists a pattern, and may be where it is a start.
    pub is_special: bool,
    /// How many patterns it lists.
    pub patterns: usize,
}

/// What is known of a searcher.
#[repr(C)]
#[derive(Clone, Copy)]
pub struct CsFacts {
    /// How many patterns it was built from.
    pub patterns: usize,
    /// How many bytes the shortest pattern has; the greatest `usize` where there is none.
    pub min_len: usize,
    /// How many bytes the longest pattern has; 0 where there is none.
    pub max_len: usize,
    /// How many bytes of memory it holds, by the stated sizes of its parts.
    pub memory: usize,
}
