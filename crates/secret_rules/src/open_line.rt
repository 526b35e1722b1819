//! What covers lines, and the line that is being read.

use crate::marker::Marker;
use crate::marks::Mark;
use aho_core::search::{Match, PatternID};

/// How lines are covered.
#[derive(Drop)]
pub(crate) struct Setting<'a, A> {
    /// Searches for the patterns, if there are some.
    pub(crate) automaton: Option<&'a A>,
    /// Whether words alone count of them.
    pub(crate) words: bool,
    /// How many bytes a line may have that is not covered whole.
    pub(crate) most: usize,
    /// How many patterns there are: the number of the first rule.
    pub(crate) patterns: usize,
    /// The number of lines that are covered whole.
    pub(crate) whole: PatternID,
}

/// What covers lines, and the line that is being read. Its calls stand in `lines`: a contract of this file could not name the struct.
#[derive(Drop)]
pub(crate) struct OpenLine<'r, 'a, A> {
    pub(crate) setting: Setting<'a, A>,
    pub(crate) marker: Marker<'r>,
    /// The bytes of the line so far, where it is not too long.
    pub(crate) line: Vec<u8>,
    /// Whether it is.
    pub(crate) long: bool,
    pub(crate) marks: Vec<Mark>,
    pub(crate) found: Vec<Match>,
    pub(crate) runs: Vec<Match>,
}
