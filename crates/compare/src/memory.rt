//! Searches, lists and replacements in memory, by any automaton, against the plain program.

ghost use Rattle.std.specs.Prelude.{◌≡◌, length};
ghost use Rattle.aho_core.specs.Patterns.{Patterns};

use crate::count::Count;
use crate::parts::Parts;
use crate::pieces::{bracketed, on_boundaries, replaced};
use aho_automaton::automaton::{Automaton, OverlappingState};
use aho_core::error::MatchError;
use aho_core::search::{Anchored, Input, Match, MatchKind, Span};
use anyhow::{Result, bail};
use bench::listing::{all, anchored, finds};
use bench::numbers::Numbers;
use bench::pattern_set::PatternSet;
use bench::plain::plain;
use std::alloc::{AllocError, Global};
use std::str;

/// More matches than any text here has.
pub(crate) const MANY: usize = 10_000_000;

/// What is asked of each automaton, and what the plain program finds in the whole text.
#[derive(Drop)]
pub(crate) struct Asked<'c> {
    pub(crate) patterns: &'c PatternSet<'c>,
    pub(crate) text: &'c [u8],
    /// A text for each pattern.
    pub(crate) pieces: &'c [&'c str],
    /// The same texts as bytes.
    pub(crate) bytes: &'c [&'c [u8]],
    /// The matches of iteration.
    pub(crate) finds: Vec<Match>,
    /// All matches.
    pub(crate) all: Vec<Match>,
    pub(crate) parts: Parts,
}

/// The span of the whole text.
fn whole(text: &[u8]) -> Span
    ensures start { result.start ≡ 0 }
    ensures end { result.end ≡ length text.now }
{
    Span {
        start: 0,
        end: text.len(),
    }
}

impl<'c> Asked<'c> {
    /// What is asked of this text.
    pub(crate) fn new(
        alloc: Global,
        patterns: &'c PatternSet<'c>,
        text: &'c [u8],
        texts: (&'c [&'c str], &'c [&'c [u8]]),
        parts: Parts,
    ) -> Result<Asked<'c>, AllocError> {
        Ok(Asked {
            patterns,
            text,
            pieces: texts.0,
            bytes: texts.1,
            parts,
            finds: finds(alloc, patterns, Input::new(text))?,
            all: all(alloc, patterns, text, whole(text))?,
        })
    }
}

/// A search of a part of this text.
pub(crate) fn some_input<'h>(numbers: &mut Numbers, text: &'h [u8]) -> Input<'h> {
    let end = numbers.below(text.len() + 1);
    let start = numbers.below(end + 2);
    let anchored = if numbers.once_in(3) {
        Anchored::Yes
    } else {
        Anchored::No
    };
    Input::new(text)
        .span(Span { start, end })
        .anchored(anchored)
        .earliest(numbers.once_in(3))
}

/// Compares one search.
pub(crate) fn search<A: Automaton>(
    automaton: &A,
    patterns: &PatternSet<'_>,
    input: &Input<'_>,
    has_anchored: bool,
    count: &mut Count,
) -> Result<()>
    requires of { (p : Patterns) × A.is_of automaton.now p }
{
    let (span, anchored) = (input.get_span(), input.get_anchored());
    let refused = !has_anchored && anchored == Anchored::Yes && !input.is_done();
    let wanted = if refused {
        Err(MatchError::invalid_input_anchored())
    } else {
        Ok(plain(patterns, input))
    };
    let found = automaton.try_find(input);
    let case = (span, anchored, input.get_earliest());
    count.same("try_find", &(case, found), &(case, wanted))
}

/// The matches of iteration over the whole of a text.
pub(crate) fn finds_in<A: Automaton>(
    alloc: Global,
    automaton: &A,
    text: &[u8],
) -> Result<Vec<Match>>
    requires of { (p : Patterns) × A.is_of automaton.now p }
{
    Ok(automaton.try_find_iter(Input::new(text))?.collect(alloc)?)
}

/// Compares iteration.
pub(crate) fn iterate<A: Automaton>(
    alloc: Global,
    automaton: &A,
    patterns: &PatternSet<'_>,
    input: Input<'_>,
    has_anchored: bool,
    count: &mut Count,
) -> Result<()>
    requires of { (p : Patterns) × A.is_of automaton.now p }
{
    if !has_anchored && input.get_anchored() == Anchored::Yes {
        let refused = automaton.try_find_iter(input).err();
        let wanted = Some(MatchError::invalid_input_anchored());
        return count.same("try_find_iter, refused", &refused, &wanted);
    }
    let case = (input.get_span(), input.get_anchored(), input.get_earliest());
    let wanted = finds(alloc, patterns, input.clone()?)?;
    let found = automaton.try_find_iter(input)?.collect(alloc)?;
    count.same("try_find_iter", &(case, found), &(case, wanted))
}

/// The matches that one call after another lists, up to the first call that lists none.
fn listed_by_calls<A: Automaton>(
    alloc: Global,
    automaton: &A,
    input: &Input<'_>,
) -> Result<Vec<Match>>
    requires of { (p : Patterns) × A.is_of automaton.now p }
{
    let mut found = Vec::new(alloc);
    let mut state = OverlappingState::start();
    for _ in 0..MANY {
        automaton.try_find_overlapping(input, &mut state)?;
        let Some(m) = state.get_match() else {
            return Ok(found);
        };
        found.push(m)?;
    }
    bail!("no end of matches")
}

/// Compares the list of a part of the text, by one call after another.
pub(crate) fn list<A: Automaton>(
    alloc: Global,
    automaton: &A,
    patterns: &PatternSet<'_>,
    input: &Input<'_>,
    count: &mut Count,
) -> Result<()>
    requires of { (p : Patterns) × A.is_of automaton.now p }
{
    let (text, anchoring) = (input.haystack(), input.get_anchored());
    let span = Span {
        start: input.start(),
        end: input.end(),
    };
    let wanted = match anchoring {
        Anchored::Yes => anchored(alloc, patterns, text, span)?,
        Anchored::No => all(alloc, patterns, text, span)?,
    };
    let found = listed_by_calls(alloc, automaton, input)?;
    count.same(
        "try_find_overlapping",
        &(span, anchoring, found),
        &(span, anchoring, wanted),
    )
}

/// Compares what is listed, or that it is refused.
fn lists<A: Automaton>(
    alloc: Global,
    automaton: &A,
    asked: &Asked<'_>,
    has_anchored: bool,
    numbers: &mut Numbers,
    count: &mut Count,
) -> Result<()>
    requires of { (p : Patterns) × A.is_of automaton.now p }
{
    let kind = automaton.match_kind();
    if kind != MatchKind::Standard {
        let refused = automaton
            .try_find_overlapping_iter(Input::new(asked.text))
            .err();
        let wanted = Some(MatchError::unsupported_overlapping(kind));
        return count.same("try_find_overlapping_iter, refused", &refused, &wanted);
    }
    let listed = automaton.try_find_overlapping_iter(Input::new(asked.text))?;
    let found = listed.collect(alloc)?;
    count.same("try_find_overlapping_iter", &found, &asked.all)?;
    let input = some_input(numbers, asked.text);
    if !has_anchored && input.get_anchored() == Anchored::Yes {
        return Ok(());
    }
    list(alloc, automaton, asked.patterns, &input, count)
}

/// Compares the replacement of bytes, by pieces.
fn replace_bytes<A: Automaton>(
    alloc: Global,
    automaton: &A,
    asked: &Asked<'_>,
    count: &mut Count,
) -> Result<()>
    requires of { (p : Patterns) × A.is_of automaton.now p }
{
    if asked.bytes.len() != automaton.patterns_len() {
        bail!("patterns_len");
    }
    let found = automaton.try_replace_all_bytes(alloc, asked.text, asked.bytes)?;
    let wanted = replaced(alloc, asked.text, asked.finds.as_slice(), asked.bytes)?;
    count.same("try_replace_all_bytes", &found, &wanted)
}

/// Compares the replacement of a text, by pieces.
fn replace_text<A: Automaton>(
    alloc: Global,
    automaton: &A,
    asked: &Asked<'_>,
    count: &mut Count,
) -> Result<()>
    requires of { (p : Patterns) × A.is_of automaton.now p }
{
    let Ok(text) = str::from_utf8(asked.text) else {
        return Ok(());
    };
    if asked.pieces.len() != automaton.patterns_len() {
        bail!("patterns_len");
    }
    let found = automaton.try_replace_all(alloc, text, asked.pieces)?;
    let kept = on_boundaries(alloc, text, asked.finds.as_slice())?;
    let wanted = replaced(alloc, asked.text, kept.as_slice(), asked.bytes)?;
    count.same("try_replace_all", &found.as_bytes(), &wanted.as_slice())
}

/// Compares the replacement of bytes by a closure that puts brackets around so many matches and then stops.
fn replace_with<A: Automaton>(
    alloc: Global,
    automaton: &A,
    asked: &Asked<'_>,
    most: usize,
    count: &mut Count,
) -> Result<()>
    requires of { (p : Patterns) × A.is_of automaton.now p }
{
    let mut found = Vec::new(alloc);
    let mut left = most;
    automaton.try_replace_all_with_bytes(asked.text, &mut found, |_m, matched, bytes| {
        left = left.saturating_sub(1);
        bytes.push(b'[')?;
        bytes.extend_from_slice(matched)?;
        bytes.push(b']')?;
        Ok(left > 0)
    })?;
    let wanted = bracketed(alloc, asked.text, asked.finds.as_slice(), most.max(1))?;
    count.same("try_replace_all_with_bytes", &found, &wanted)
}

/// Compares the replacement of a text by a closure that puts what matched in its place, and then goes on or stops.
fn keep_text<A: Automaton>(
    alloc: Global,
    automaton: &A,
    asked: &Asked<'_>,
    goes_on: bool,
    count: &mut Count,
) -> Result<()>
    requires of { (p : Patterns) × A.is_of automaton.now p }
{
    let Ok(text) = str::from_utf8(asked.text) else {
        return Ok(());
    };
    let mut found = String::new(alloc);
    automaton.try_replace_all_with(text, &mut found, |_m, matched, dst| {
        dst.push_str(matched)?;
        Ok(goes_on)
    })?;
    count.same("try_replace_all_with", &found.as_str(), &text)
}

/// Compares replacements in memory.
fn replacements<A: Automaton>(
    alloc: Global,
    automaton: &A,
    asked: &Asked<'_>,
    numbers: &mut Numbers,
    count: &mut Count,
) -> Result<()>
    requires of { (p : Patterns) × A.is_of automaton.now p }
{
    replace_bytes(alloc, automaton, asked, count)?;
    replace_text(alloc, automaton, asked, count)?;
    replace_with(alloc, automaton, asked, numbers.below(4), count)?;
    keep_text(alloc, automaton, asked, numbers.once_in(2), count)
}

/// Compares each call of an automaton in memory. It may have no start for anchored searches.
pub(crate) fn compare_in_memory<A: Automaton>(
    alloc: Global,
    automaton: &A,
    asked: &Asked<'_>,
    has_anchored: bool,
    numbers: &mut Numbers,
    count: &mut Count,
) -> Result<()>
    requires of { (p : Patterns) × A.is_of automaton.now p }
{
    let found = finds_in(alloc, automaton, asked.text)?;
    count.same("try_find_iter", &found, &asked.finds)?;
    for _ in 0..3 {
        let input = some_input(numbers, asked.text);
        search(automaton, asked.patterns, &input, has_anchored, count)?;
    }
    let input = some_input(numbers, asked.text);
    iterate(alloc, automaton, asked.patterns, input, has_anchored, count)?;
    lists(alloc, automaton, asked, has_anchored, numbers, count)?;
    replacements(alloc, automaton, asked, numbers, count)
}
