//! What the arguments say.

use crate::trial::{Trial, trial_of};
use anyhow::{Context, Result};

/// A call of the program.
#[derive(Clone, Copy)]
pub(crate) struct Call<'w> {
    pub(crate) trial: Trial,
    /// The greatest depth of a dense state.
    pub(crate) depth: usize,
    /// How many times the text is searched.
    pub(crate) times: u32,
    /// The file of the patterns.
    pub(crate) patterns: &'w str,
    /// The file of the text.
    pub(crate) text: &'w str,
}

/// The call that the arguments say; none where they are too few or too many.
pub(crate) fn call_of<'w>(words: &'w [String]) -> Result<Option<Call<'w>>> {
    let [
        automaton,
        kind,
        case,
        prefilter,
        depth,
        times,
        patterns,
        text,
    ] = words
    else {
        return Ok(None);
    };
    let trial = trial_of(
        automaton.as_str(),
        kind.as_str(),
        case.as_str(),
        prefilter.as_str(),
    )?;
    Ok(Some(Call {
        trial,
        depth: depth.parse::<usize>().context("reading DEPTH")?,
        times: times.parse::<u32>().context("reading TIMES")?,
        patterns: patterns.as_str(),
        text: text.as_str(),
    }))
}
