//! What is measured, as the arguments say it.

use aho_core::search::MatchKind;
use anyhow::{Result, bail};

/// By which automaton the text is searched.
#[derive(Copy, Clone)]
pub(crate) enum Searched {
    Nfa,
    Hybrid,
}

/// By which prefilter the search skips.
#[derive(Copy, Clone)]
pub(crate) enum Skips {
    /// By none.
    No,
    /// By the one that the `NFA` holds.
    Own,
    /// By the quickest one, of each kind.
    Quickest,
}

/// What is measured.
#[derive(Copy, Clone)]
pub(crate) struct Trial {
    pub(crate) searched: Searched,
    pub(crate) kind: MatchKind,
    pub(crate) ignore_case: bool,
    pub(crate) skips: Skips,
}

/// What AUTOMATON, KIND, CASE and PREFILTER say.
pub(crate) fn trial_of(automaton: &str, kind: &str, case: &str, prefilter: &str) -> Result<Trial> {
    Ok(Trial {
        searched: searched_of(automaton)?,
        kind: kind_of(kind)?,
        ignore_case: is_on(case)?,
        skips: skips_of(prefilter)?,
    })
}

/// The automaton that a letter names.
fn searched_of(word: &str) -> Result<Searched> {
    match word {
        "n" => Ok(Searched::Nfa),
        "h" => Ok(Searched::Hybrid),
        _ => bail!("AUTOMATON is n or h"),
    }
}

/// The kind that a letter names.
fn kind_of(word: &str) -> Result<MatchKind> {
    match word {
        "s" => Ok(MatchKind::Standard),
        "f" => Ok(MatchKind::LeftmostFirst),
        "l" => Ok(MatchKind::LeftmostLongest),
        _ => bail!("KIND is s, f or l"),
    }
}

/// Whether a setting is on.
fn is_on(word: &str) -> Result<bool> {
    match word {
        "0" => Ok(false),
        "1" => Ok(true),
        _ => bail!("CASE is 0 or 1"),
    }
}

/// The prefilter that a word names.
fn skips_of(word: &str) -> Result<Skips> {
    match word {
        "0" => Ok(Skips::No),
        "1" => Ok(Skips::Own),
        "q" => Ok(Skips::Quickest),
        _ => bail!("PREFILTER is 0, 1 or q"),
    }
}
