//! The states of an automaton that are not like the others.

use aho_core::search::StateID;

/// The numbers by which an automaton knows its special states. DEAD and FAIL have the same numbers in each automaton; behind
/// them stand the states that list a pattern and are no start, then the two starts, then the rest.
#[derive(Clone, Copy, Debug, PartialEq, Eq)]
pub struct Special {
    /// The greatest number of a state that a search has to look at: the anchored start where a prefilter is held, else
    /// `max_match_id`.
    pub max_special_id: StateID,
    /// The greatest number of a state that lists a pattern: the anchored start where a pattern is empty, else the number
    /// before the unanchored start, which is FAIL's where no state lists one.
    pub max_match_id: StateID,
    /// Where the searches start that are not anchored.
    pub start_unanchored_id: StateID,
    /// Where the anchored searches start.
    pub start_anchored_id: StateID,
}
