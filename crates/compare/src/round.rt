//! One case of a round of comparisons.

use crate::automata::compare_automata;
use crate::backward::{compare_backward, compare_backward_streams};
use crate::case::Case;
use crate::count::Count;
use crate::hostile::Family;
use crate::memory::Asked;
use crate::parts::Parts;
use crate::pieces::{bytes_of, pieces_for};
use crate::searchers::compare_searchers;
use aho_core::search::{MatchKind, PatternID};
use anyhow::{Result, bail};
use bench::numbers::Numbers;
use bench::pattern_set::PatternSet;
use std::alloc::Global;

/// Compares the calls of the case of this seed and this family.
pub(crate) fn compare(
    alloc: Global,
    seed: u64,
    family: Family,
    parts: Parts,
    count: &mut Count,
) -> Result<()> {
    let case = Case::new(alloc, seed, family)?;
    let mut words = Vec::new(alloc);
    for pattern in case.patterns() {
        words.push(pattern.as_slice())?;
    }
    let searched = Searched {
        text: case.text(),
        kind: case.kind(),
        ignore_case: case.ignore_case(),
    };
    compare_words(alloc, seed, parts, searched, words.as_slice(), count)
}

/// What words are searched for in, and how.
#[derive(Clone, Copy)]
pub(crate) struct Searched<'t> {
    pub(crate) text: &'t [u8],
    pub(crate) kind: MatchKind,
    pub(crate) ignore_case: bool,
}

/// Compares the calls of these words, by numbers of this seed.
pub(crate) fn compare_words(
    alloc: Global,
    seed: u64,
    parts: Parts,
    searched: Searched<'_>,
    words: &[&[u8]],
    count: &mut Count,
) -> Result<()> {
    if words.len() > PatternID::MAX.as_usize() {
        bail!("too many patterns");
    }
    let settings = (searched.kind, searched.ignore_case);
    let patterns = PatternSet::new(words, settings.0, settings.1);
    let pieces = pieces_for(alloc, words.len())?;
    let bytes = bytes_of(alloc, pieces.as_slice())?;
    let texts = (pieces.as_slice(), bytes.as_slice());
    let asked = Asked::new(alloc, &patterns, searched.text, texts, parts)?;
    let mut numbers = Numbers::new(!seed);
    if parts.memory || parts.streams {
        compare_automata(alloc, words, settings, &asked, &mut numbers, count)?;
    }
    if parts.memory {
        compare_backward(alloc, words, settings, &asked, count)?;
    }
    if parts.streams {
        compare_backward_streams(alloc, words, settings, &asked, &mut numbers, count)?;
    }
    if parts.searcher {
        compare_searchers(alloc, words, settings, &asked, &mut numbers, count)?;
    }
    Ok(())
}
