//! Every occurrence of a span, and the matches of iteration.

ghost use Rattle.std.specs.Prelude.{◌≡◌, ◌+◌, ◌<◌, ◌≤◌, ◌++◌, length, slice_range, OnOk, IfOk, IfSome, Some, None, suc};
ghost use Rattle.aho_core.specs.Bytes.{folded_word};
ghost use Rattle.aho_core.specs.Iteration.{IsNextFind, AreFinds};
ghost use Rattle.aho_core.specs.Overlapping.{occurrences_at, occurrences_ending, all_occurrences, anchored_occurrences, begins_some};
ghost use Rattle.aho_core.specs.Trie.{begins, pattern_word};

use crate::pattern_set::PatternSet;
use crate::plain::{is_same_word, match_at, plain, stands_at};
use aho_core::search::{Input, Match, Span};
use std::alloc::{AllocError, Global};

/// Adds the occurrences at one range, by number.
fn push_at(
    found: &mut Vec<Match>,
    patterns: &PatternSet<'_>,
    haystack: &[u8],
    at: Span,
) -> Result<(), AllocError>
    requires ordered { at.start ≤ at.end }
    requires within { at.end ≤ length haystack.now }
    ensures pushed { OnOk result (found.new.items
        ≡ found.old.items ++ occurrences_at patterns.now haystack.now at.start at.end) }
{
    for number in 0..patterns.patterns_len() {
        if stands_at(patterns, number, haystack, at) {
            found.push(match_at(patterns, number, at))?;
        }
    }
    Ok(())
}

/// Adds the occurrences that end at one place, by start, then number.
fn push_ending(
    found: &mut Vec<Match>,
    patterns: &PatternSet<'_>,
    haystack: &[u8],
    at: Span,
) -> Result<(), AllocError>
    requires ordered { at.start ≤ at.end }
    requires within { at.end ≤ length haystack.now }
    ensures pushed { OnOk result (found.new.items
        ≡ found.old.items ++ occurrences_ending patterns.now haystack.now at.start at.end) }
{
    for start in at.start..=at.end {
        push_at(found, patterns, haystack, Span { start, end: at.end })?;
    }
    Ok(())
}

/// All occurrences of a span, by end, then start, then number: what an overlapping search that is not anchored lists.
/// The match kind plays no part in it.
///
/// The span lies in the haystack, and its start is at most one above its end, where nothing occurs.
///
/// # Errors
///
/// The error says that memory ran out.
pub fn all(
    alloc: Global,
    patterns: &PatternSet<'_>,
    haystack: &[u8],
    span: Span,
) -> Result<Vec<Match>, AllocError>
    requires within { span.end ≤ length haystack.now }
    requires ordered { span.start ≤ span.end + 1 }
    ensures all { IfOk result (λ found.
        found.items ≡ all_occurrences patterns.now haystack.now span.start span.end) }
{
    let mut found = Vec::new(alloc);
    for end in span.start..=span.end {
        let at = Span {
            start: span.start,
            end,
        };
        push_ending(&mut found, patterns, haystack, at)?;
    }
    Ok(found)
}

/// Whether the word begins the pattern of this number.
fn begins_pattern(patterns: &PatternSet<'_>, number: usize, word: &[u8]) -> bool
    requires there { number < length patterns.now.words }
    ensures begins_pattern { result
        ≡ begins (folded_word patterns.now word.now) (pattern_word patterns.now number) }
{
    let pattern = patterns.pattern(number);
    word.len() <= pattern.len() && is_same_word(patterns, word, &pattern[..word.len()])
}

/// Whether the bytes of the range begin some pattern.
fn begins_some(patterns: &PatternSet<'_>, haystack: &[u8], at: Span) -> bool
    requires ordered { at.start ≤ at.end }
    requires within { at.end ≤ length haystack.now }
    ensures begins_some { result
        ≡ begins_some patterns.now (slice_range haystack.now at.start at.end) }
{
    let word = &haystack[at.start..at.end];
    for number in 0..patterns.patterns_len() {
        if begins_pattern(patterns, number, word) {
            return true;
        }
    }
    false
}

/// The occurrences of a span that an anchored overlapping search lists, in the order of `all`: those that end where the
/// bytes from the start of the span on begin some pattern. They may start later than the span. The match kind plays no
/// part in it.
///
/// The span lies in the haystack, and its start is at most one above its end, where nothing occurs.
///
/// # Errors
///
/// The error says that memory ran out.
pub fn anchored(
    alloc: Global,
    patterns: &PatternSet<'_>,
    haystack: &[u8],
    span: Span,
) -> Result<Vec<Match>, AllocError>
    requires within { span.end ≤ length haystack.now }
    requires ordered { span.start ≤ span.end + 1 }
    ensures anchored { IfOk result (λ found.
        found.items ≡ anchored_occurrences patterns.now haystack.now span.start span.end) }
{
    let listed = all(alloc, patterns, haystack, span)?;
    let mut found = Vec::new(alloc);
    for m in &listed {
        let at = Span {
            start: span.start,
            end: m.end(),
        };
        if begins_some(patterns, haystack, at) {
            found.push(*m)?;
        }
    }
    Ok(found)
}

/// The same input from one place on.
fn one_place_on<'h>(input: &Input<'h>) -> Input<'h>
    requires room { input.now.start ≤ input.now.end }
    ensures moved { result ≡ record input.now { start = suc input.now.start } }
{
    let end = input.end();
    let rest = Span {
        start: input.start() + 1,
        end,
    };
    Input::new(input.haystack())
        .span(rest)
        .anchored(input.get_anchored())
        .earliest(input.get_earliest())
}

/// The match that comes next in iteration, where the last one ended at `last`.
fn next_find(patterns: &PatternSet<'_>, input: &Input<'_>, last: Option<usize>) -> Option<Match>
    ensures next { IsNextFind patterns.now input.now last result }
    ensures within { IfSome result (λ m. m.end ≤ input.now.end) }
    ensures onward { IfSome result (λ m. input.now.start ≤ m.end) }
    ensures progress { last ≡ Some input.now.start → IfSome result (λ m. input.now.start < m.end) }
{
    let found = plain(patterns, input);
    if let (Some(m), Some(last)) = (found, last)
        && m.is_empty()
        && m.end() == last
    {
        return plain(patterns, &one_place_on(input));
    }
    found
}

/// The matches of iteration, in order: each search begins at the end of the match before, and what it finds is not an
/// empty match there.
///
/// # Errors
///
/// The error says that memory ran out.
pub fn finds(
    alloc: Global,
    patterns: &PatternSet<'_>,
    mut input: Input<'_>,
) -> Result<Vec<Match>, AllocError>
    ensures finds { IfOk result (λ found. AreFinds patterns.now input.entry None found.items) }
{
    let mut found = Vec::new(alloc);
    let mut last = None;
    while let Some(m) = next_find(patterns, &input, last) {
        found.push(m)?;
        input.set_start(m.end());
        last = Some(m.end());
    }
    Ok(found)
}
