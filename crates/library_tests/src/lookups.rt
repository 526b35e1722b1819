//! What searches over an automaton cost: look-ups of transitions, bytes read, and calls of its steps.

ghost use Rattle.std.specs.Prelude.{◌+◌, ◌<◌, ◌≤◌, ◌^◌, length};
ghost use Rattle.aho_core.specs.Patterns.{Patterns};

use crate::asserts::{assert_in, assert_same, assert_same_in};
use crate::automata::{DEPTHS, nfa_with, relinked_of};
use crate::reading::Reading;
use aho_automaton::automaton::{Automaton, Counted, find_in};
use aho_corasick::answers::best_occurrence;
use aho_corasick::noncontiguous::NFA;
use aho_core::error::MatchError;
use aho_core::search::{Anchored, Input, Match, MatchKind, PatternID, Span};
use aho_prefilter::text::{Bytes, Text};
use bench::one_byte::OneByte;
use bench::relinked::Relinked;
use bench::tally::Tally;
use std::alloc::Global;
use std::process::Abort;
use std::test::Fail;

/// A search, the look-ups that it makes, and the bytes that it reads outside a prefilter, all from the span's start on.
struct Row {
    kind: MatchKind,
    patterns: &'static [&'static [u8]],
    haystack: &'static [u8],
    span: Span,
    anchored: Anchored,
    prefilter: bool,
    lookups: u128,
    reads: usize,
}

const ROWS: &[Row] = &[
    Row {
        kind: MatchKind::Standard,
        patterns: &[b"abcd", b"cef"],
        haystack: b"abcef",
        span: Span { start: 0, end: 5 },
        anchored: Anchored::No,
        prefilter: false,
        lookups: 6,
        reads: 5,
    },
    Row {
        kind: MatchKind::LeftmostLongest,
        patterns: &[b"abcd", b"b", b"bce"],
        haystack: b"abce",
        span: Span { start: 0, end: 4 },
        anchored: Anchored::No,
        prefilter: false,
        lookups: 5,
        reads: 4,
    },
    Row {
        kind: MatchKind::LeftmostLongest,
        patterns: &[b"abcd", b"ab"],
        haystack: b"abxxxxxxxx",
        span: Span { start: 0, end: 10 },
        anchored: Anchored::No,
        prefilter: false,
        lookups: 4,
        reads: 3,
    },
    Row {
        kind: MatchKind::Standard,
        patterns: &[b"aaab"],
        haystack: b"aaaaaaaa",
        span: Span { start: 0, end: 8 },
        anchored: Anchored::No,
        prefilter: false,
        lookups: 13,
        reads: 8,
    },
    Row {
        kind: MatchKind::Standard,
        patterns: &[b"aaab"],
        haystack: b"aaaaaaaa",
        span: Span { start: 0, end: 8 },
        anchored: Anchored::No,
        prefilter: true,
        lookups: 0,
        reads: 0,
    },
    Row {
        kind: MatchKind::Standard,
        patterns: &[b"ab"],
        haystack: b"aab",
        span: Span { start: 0, end: 3 },
        anchored: Anchored::Yes,
        prefilter: false,
        lookups: 2,
        reads: 2,
    },
    Row {
        kind: MatchKind::Standard,
        patterns: &[b"ab"],
        haystack: b"aab",
        span: Span { start: 3, end: 2 },
        anchored: Anchored::No,
        prefilter: false,
        lookups: 0,
        reads: 0,
    },
];

/// The look-ups of a search over this text.
fn lookups_over<A: Automaton, T: Text>(
    automaton: &A,
    text: &mut T,
    span: Span,
    anchored: Anchored,
) -> Result<u128, MatchError>
    requires of { (p : Patterns) × A.is_of automaton.now p }
    requires within { span.end ≤ length (T.bytes text.old) }
    requires ordered { span.start ≤ span.end + 1 }
    requires unread { T.next text.old ≤ span.start }
    requires room { span.end < 2 ^ 63 }
{
    let mut walk = Counted::new(automaton);
    let _found = find_in(&mut walk, text, span, anchored, false)?;
    Ok(walk.lookups())
}

/// A row's search over a slice makes its look-ups.
fn row_is_looked_up<A: Automaton>(
    rt: &impl Abort,
    row: &Row,
    automaton: &A,
) -> Result<(), MatchError>
    requires of { (p : Patterns) × A.is_of automaton.now p }
{
    let (haystack, span) = (row.haystack, row.span);
    assert!(rt; span.end <= haystack.len());
    assert!(rt; span.start <= span.end + 1);
    let mut bytes = Bytes::new(haystack);
    let lookups = lookups_over(automaton, &mut bytes, span, row.anchored)?;
    let case = (row.kind, row.patterns, haystack, span, row.anchored);
    assert_same_in(rt, &case, lookups, row.lookups);
    Ok(())
}

/// How many bytes a row's search reads. It makes its look-ups, and ends where it should.
fn reads_of<A: Automaton>(rt: &impl Abort, row: &Row, automaton: &A) -> Result<usize, MatchError>
    requires of { (p : Patterns) × A.is_of automaton.now p }
{
    let (haystack, span) = (row.haystack, row.span);
    assert!(rt; span.end <= haystack.len());
    assert!(rt; span.start <= span.end + 1);
    let mut text = Reading::new(haystack);
    let lookups = lookups_over(automaton, &mut text, span, row.anchored)?;
    let case = (row.kind, row.patterns, haystack, span, row.anchored);
    assert_same_in(rt, &case, lookups, row.lookups);
    assert_same_in(rt, &case, text.next_place(), row.reads);
    Ok(text.reads())
}

/// The best occurrence of a row's span is found at the row's cost.
fn best_costs_as_much(rt: &impl Abort, row: &Row, nfa: &NFA)
    requires of { (p : Patterns) × ⟦<NFA as Automaton>⟧.is_of nfa.now p }
{
    let (haystack, span) = (row.haystack, row.span);
    assert!(rt; span.end <= haystack.len());
    assert!(rt; span.start <= span.end + 1);
    let mut text = Bytes::new(haystack);
    let (_found, lookups) = best_occurrence(nfa, &mut text, span, row.anchored, false);
    let case = (row.kind, row.patterns, haystack, span, row.anchored);
    assert_same_in(rt, &case, lookups, row.lookups);
    assert_same_in(rt, &case, text.reads(), row.reads);
}

/// A row's search over an automaton makes its look-ups, and reads its bytes.
fn row_is_read<A: Automaton>(rt: &impl Abort, row: &Row, automaton: &A) -> Result<(), MatchError>
    requires of { (p : Patterns) × A.is_of automaton.now p }
{
    row_is_looked_up(rt, row, automaton)?;
    let reads = reads_of(rt, row, automaton)?;
    let case = (row.kind, row.patterns, row.haystack, row.span, row.anchored);
    assert_same_in(rt, &case, reads, row.reads);
    Ok(())
}

/// The automaton of a row with rows up to this depth.
fn nfa_of_row(rt: &impl Abort, alloc: Global, row: &Row, depth: usize) -> NFA
    ensures of { (p : Patterns) × ⟦<NFA as Automaton>⟧.is_of result p }
{
    let (words, kind) = (row.patterns, row.kind);
    nfa_with(rt, alloc, words, kind, false, row.prefilter, depth)
}

/// The automaton that is made of what a row's automaton tells.
fn relinked_of_row(rt: &impl Abort, alloc: Global, row: &Row) -> Relinked
    ensures of { (p : Patterns) × ⟦<Relinked as Automaton>⟧.is_of result p }
{
    relinked_of(rt, alloc, &nfa_of_row(rt, alloc, row, 0))
}

#[test]
fn searches_cost_what_they_should(rt: HostRuntime) -> Result<(), Fail> {
    for row in ROWS {
        for depth in DEPTHS {
            row_is_read(&rt, row, &nfa_of_row(&rt, rt.alloc(), row, depth))?;
        }
    }
    Ok(())
}

#[test]
fn the_best_occurrence_costs_what_it_should(rt: HostRuntime) {
    for row in ROWS {
        for depth in DEPTHS {
            best_costs_as_much(&rt, row, &nfa_of_row(&rt, rt.alloc(), row, depth));
        }
    }
}

#[test]
fn searches_of_relinked_automata_cost_as_much(rt: HostRuntime) -> Result<(), Fail> {
    for row in ROWS {
        if !row.prefilter {
            let _reads = reads_of(&rt, row, &relinked_of_row(&rt, rt.alloc(), row))?;
        }
    }
    Ok(())
}

/// A row's search makes as many steps as it reads bytes, and asks for no next state.
fn row_steps(rt: &impl Abort, row: &Row, nfa: NFA) -> Result<(), MatchError>
    requires of { (p : Patterns) × ⟦<NFA as Automaton>⟧.is_of nfa p }
{
    let tally = Tally::new(nfa);
    let (haystack, span) = (row.haystack, row.span);
    let case = (row.kind, row.patterns, haystack, span, row.anchored);
    assert!(rt; span.end <= haystack.len());
    assert!(rt; span.start <= span.end + 1);
    let input = Input::new(haystack).span(span).anchored(row.anchored);
    let _found = tally.try_find(&input)?;
    assert_same_in(rt, &case, tally.steps(), row.reads as u64);
    assert_same_in(rt, &case, tally.next_states(), 0);
    Ok(())
}

#[test]
fn searches_step_once_a_byte(rt: HostRuntime) -> Result<(), Fail> {
    for row in ROWS {
        for depth in DEPTHS {
            row_steps(&rt, row, nfa_of_row(&rt, rt.alloc(), row, depth))?;
        }
    }
    Ok(())
}

#[test]
fn one_byte_is_looked_up_once_a_byte(rt: HostRuntime) -> Result<(), Fail> {
    let tally = Tally::new(OneByte::new(b'w'));
    let haystack = b"samwise";
    let span = Span { start: 1, end: 7 };
    let mut text = Reading::new(haystack);
    assert_same(&rt, lookups_over(&tally, &mut text, span, Anchored::No)?, 3);
    assert_same(&rt, text.reads(), 3);
    assert_same(&rt, text.next_place(), 4);
    assert_same(&rt, tally.steps(), 3);
    let mut text = Reading::new(haystack);
    assert!(rt; lookups_over(&tally, &mut text, span, Anchored::Yes).is_err());
    assert_same(&rt, text.reads(), 0);
    assert_same(&rt, tally.steps(), 3);
    Ok(())
}

#[test]
fn the_best_occurrence_may_be_the_earliest(rt: HostRuntime) {
    let words: [&[u8]; 2] = [b"abcd", b"b"];
    let nfa = nfa_with(
        &rt,
        rt.alloc(),
        &words,
        MatchKind::LeftmostFirst,
        false,
        true,
        2,
    );
    let whole = Match::new(PatternID::new_unchecked(0), Span { start: 0, end: 4 });
    let inner = Match::new(PatternID::new_unchecked(1), Span { start: 1, end: 2 });
    for (earliest, wanted) in [(false, whole), (true, inner)] {
        let mut text = Bytes::new(b"abcd");
        let span = Span { start: 0, end: 4 };
        let (found, _lookups) = best_occurrence(&nfa, &mut text, span, Anchored::No, earliest);
        assert_same_in(&rt, earliest, found, Some(wanted));
    }
}
