//! The search that tries each pattern at each range of the span.

ghost use Rattle.std.specs.Prelude.{◌≡◌, ◌<◌, ◌≤◌, ◌↔◌, length, slice_range, IsTrue};
ghost use Rattle.aho_core.specs.Answer.{IsAnswer, IsEarliestAnswer};
ghost use Rattle.aho_core.specs.Best.{IsBestOrNone};
ghost use Rattle.aho_core.specs.Bytes.{folded, is_same_word};
ghost use Rattle.aho_core.specs.declared.search.Anchored.TheVariants.{Yes};
ghost use Rattle.aho_core.specs.Occurrence.{occurrence};
ghost use Rattle.aho_core.specs.Occurs.{OccursIn};
ghost use Rattle.aho_core.specs.Order.{IsBefore};
ghost use Rattle.aho_core.specs.Patterns.{pattern_at};
ghost use Rattle.bench.specs.Better.{IsBetter};
ghost use Rattle.bench.specs.Range.{OccursAt, OccursEndingAt};

use crate::pattern_set::PatternSet;
use aho_core::search::{Anchored, Input, Match, MatchKind, PatternID, Span};

/// A byte as it is compared.
fn folded_byte(patterns: &PatternSet<'_>, byte: u8) -> u8
    ensures folded { result ≡ folded patterns.now byte }
{
    if patterns.ignore_case() && 65 <= byte && byte <= 90 {
        byte + 32
    } else {
        byte
    }
}

/// Whether two words are the same: of one length, with bytes that are the same one by one.
#[tactic(auto, using(aho_laws::proofs::SameWords::same_words, crate::proofs::WordTests::tests))]
pub(crate) fn is_same_word(patterns: &PatternSet<'_>, x: &[u8], y: &[u8]) -> bool
    ensures is_same_word { result ≡ is_same_word patterns.now x.now y.now }
{
    if x.len() != y.len() {
        return false;
    }
    for i in 0..x.len() {
        if folded_byte(patterns, x[i]) != folded_byte(patterns, y[i]) {
            return false;
        }
    }
    true
}

/// Whether the first of two matches is before the second.
fn is_before(kind: MatchKind, x: &Match, y: &Match) -> bool
    ensures is_before { IsTrue result ↔ IsBefore kind x.now y.now }
{
    let (start, end) = (x.start(), x.end());
    let (other_start, other_end) = (y.start(), y.end());
    let number = x.pattern().as_usize();
    let other_number = y.pattern().as_usize();
    match kind {
        MatchKind::Standard => {
            end < other_end
                || end == other_end
                    && (start < other_start || start == other_start && number < other_number)
        }
        MatchKind::LeftmostFirst => {
            start < other_start || start == other_start && number < other_number
        }
        MatchKind::LeftmostLongest => {
            start < other_start
                || start == other_start
                    && (other_end < end || end == other_end && number < other_number)
        }
    }
}

/// The better of two matches.
fn better(patterns: &PatternSet<'_>, x: Option<Match>, y: Option<Match>) -> Option<Match>
    ensures better { IsBetter patterns.now.kind x y result }
{
    match (x, y) {
        (Some(x), Some(y)) => if is_before(patterns.kind(), &y, &x) {
            Some(y)
        } else {
            Some(x)
        },
        (Some(x), None) => Some(x),
        (None, y) => y,
    }
}

/// Whether the pattern of this number stands at this range.
pub(crate) fn stands_at(patterns: &PatternSet<'_>, number: usize, haystack: &[u8], at: Span) -> bool
    requires there { number < length patterns.now.words }
    requires ordered { at.start ≤ at.end }
    requires within { at.end ≤ length haystack.now }
    ensures stands_at { result ≡ is_same_word patterns.now
        (pattern_at patterns.now number) (slice_range haystack.now at.start at.end) }
{
    is_same_word(
        patterns,
        patterns.pattern(number),
        &haystack[at.start..at.end],
    )
}

/// The match of the pattern of this number at this range.
pub(crate) fn match_at(patterns: &PatternSet<'_>, number: usize, at: Span) -> Match
    requires there { number < length patterns.now.words }
    requires ordered { at.start ≤ at.end }
    ensures match_at { result ≡ occurrence at.start at.end number }
{
    let _count = patterns.patterns_len();
    Match::new(PatternID::new(number).unwrap(), at)
}

/// Whether a match may start at this place: anywhere, or in an anchored search at the start of the span alone.
fn is_admitted(input: &Input<'_>, start: usize) -> bool
    ensures is_admitted { IsTrue result ↔ (input.now.anchored ≡ Yes → start ≡ input.now.start) }
{
    match input.get_anchored() {
        Anchored::No => true,
        Anchored::Yes => start == input.start(),
    }
}

/// The best of the occurrences at one range: that of least number.
fn best_at(patterns: &PatternSet<'_>, input: &Input<'_>, at: Span) -> Option<Match>
    requires after_start { input.now.start ≤ at.start }
    requires ordered { at.start ≤ at.end }
    requires before_end { at.end ≤ input.now.end }
    ensures best { IsBestOrNone patterns.now.kind
        (OccursAt patterns.now input.now at.start at.end) result }
{
    let _end = input.end();
    if !is_admitted(input, at.start) {
        return None;
    }
    for number in 0..patterns.patterns_len() {
        if stands_at(patterns, number, input.haystack(), at) {
            return Some(match_at(patterns, number, at));
        }
    }
    None
}

/// The best of the occurrences that end at one place.
fn best_ending(patterns: &PatternSet<'_>, input: &Input<'_>, end: usize) -> Option<Match>
    requires after_start { input.now.start ≤ end }
    requires before_end { end ≤ input.now.end }
    ensures best { IsBestOrNone patterns.now.kind
        (OccursEndingAt patterns.now input.now end) result }
{
    let mut best = None;
    for start in input.start()..=end {
        best = better(
            patterns,
            best,
            best_at(patterns, input, Span { start, end }),
        );
    }
    best
}

/// The best of the occurrences that end first.
fn first_ending(patterns: &PatternSet<'_>, input: &Input<'_>) -> Option<Match>
    ensures earliest { IsEarliestAnswer patterns.now input.now result }
{
    for end in input.start()..=input.end() {
        let best = best_ending(patterns, input, end);
        if best.is_some() {
            return best;
        }
    }
    None
}

/// The best of all occurrences.
fn best_of_all(patterns: &PatternSet<'_>, input: &Input<'_>) -> Option<Match>
    ensures best { IsBestOrNone patterns.now.kind (OccursIn patterns.now input.now) result }
{
    let mut best = None;
    for end in input.start()..=input.end() {
        best = better(patterns, best, best_ending(patterns, input, end));
    }
    best
}

/// What a search answers: the best of the occurrences in the input's span, or in an earliest search the best of those
/// that end first. It is `None` where nothing occurs.
pub fn plain(patterns: &PatternSet<'_>, input: &Input<'_>) -> Option<Match>
    ensures answer { IsAnswer patterns.now input.now result }
{
    if input.get_earliest() {
        first_ending(patterns, input)
    } else {
        best_of_all(patterns, input)
    }
}
