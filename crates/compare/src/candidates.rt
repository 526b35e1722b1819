//! Where a prefilter says that a match may start.

ghost use Rattle.std.specs.Prelude.{◌≤◌, length};

use crate::count::Count;
use aho_core::search::{Input, Match, Span};
use aho_prefilter::prefilter::{Candidate, Prefilter};
use anyhow::Result;
use bench::numbers::Numbers;
use bench::pattern_set::PatternSet;
use bench::plain::plain;

/// Whether a candidate of a span is right where this is the best match: it is that match, or a place of the span before
/// which the match does not start.
fn is_right(candidate: &Candidate, span: Span, best: &Option<Match>) -> bool {
    match candidate {
        Candidate::None => best.is_none(),
        Candidate::Match(found) => match best {
            Some(best) => found == best,
            None => false,
        },
        Candidate::PossibleStartOfMatch(place) => {
            let start = match best {
                Some(best) => best.start(),
                None => *place,
            };
            span.start <= *place && *place < span.end && *place <= start
        }
    }
}

/// Compares the candidate of a span with the best match of it.
pub(crate) fn compare_candidate(
    prefilter: &Prefilter,
    patterns: &PatternSet<'_>,
    text: &[u8],
    span: Span,
    count: &mut Count,
) -> Result<()>
    requires ordered { span.start ≤ span.end }
    requires within { span.end ≤ length text.now }
{
    let candidate = prefilter.find_in(text, span);
    let best = plain(patterns, &Input::new(text).span(span));
    let right = is_right(&candidate, span, &best);
    count.same("Prefilter::find_in", &(span, right), &(span, true))
}

/// Compares the candidates of some spans.
pub(crate) fn compare_candidates(
    prefilter: &Prefilter,
    patterns: &PatternSet<'_>,
    text: &[u8],
    numbers: &mut Numbers,
    count: &mut Count,
) -> Result<()> {
    for _ in 0..4 {
        let end = numbers.below(text.len() + 1);
        let start = numbers.below(end + 1);
        compare_candidate(prefilter, patterns, text, Span { start, end }, count)?;
    }
    Ok(())
}

/// Whether a word begins with this byte, by the case rule.
fn begins(word: &[u8], byte: u8, ignore_case: bool) -> bool {
    match word.first() {
        None => false,
        Some(first) => *first == byte || ignore_case && first.eq_ignore_ascii_case(&byte),
    }
}

/// With how many bytes the words begin.
fn first_bytes(words: &[&[u8]], ignore_case: bool) -> usize {
    (0..=255u8)
        .filter(|byte| words.iter().any(|word| begins(word, *byte, ignore_case)))
        .count()
}

/// At how many bytes a prefilter stops, each alone in a text.
fn stops(prefilter: &Prefilter) -> usize {
    let whole = Span { start: 0, end: 1 };
    (0..=255u8)
        .filter(|byte| prefilter.find_in(&[*byte], whole).into_option().is_some())
        .count()
}

/// How many bytes the only word has, where it is compared as it is.
fn lone_length(words: &[&[u8]], ignore_case: bool) -> Option<usize> {
    match words {
        [word] if !ignore_case => Some(word.len()),
        _ => None,
    }
}

/// Compares which prefilter is held for these words: none where it is not wanted, for no words, where one is empty, and for
/// more than three first bytes; for one word that is compared as it is the search for the whole of it.
pub(crate) fn compare_held(
    held: Option<&Prefilter>,
    is_wanted: bool,
    words: &[&[u8]],
    ignore_case: bool,
    count: &mut Count,
) -> Result<()> {
    let firsts = first_bytes(words, ignore_case);
    let some_empty = words.iter().any(|word| word.is_empty());
    let alone = lone_length(words, ignore_case);
    let none = !is_wanted || words.is_empty() || some_empty || alone.is_none() && firsts > 3;
    count.same("a prefilter is held", &held.is_some(), &!none)?;
    let Some(prefilter) = held else {
        return Ok(());
    };
    if let Some(length) = alone {
        return count.same(
            "Prefilter::memory_usage",
            &prefilter.memory_usage(),
            &length,
        );
    }
    let found = (prefilter.memory_usage(), stops(prefilter));
    count.same("where a prefilter stops", &found, &(0, firsts))
}
