//! Overlapping search: what its calls and its iterator find, one after another, and what they refuse.

ghost use Rattle.std.specs.Prelude.{◌≡◌, ◌≤◌};
ghost use Rattle.aho_core.specs.Patterns.{Patterns};
ghost use Rattle.aho_core.specs.Progress.{without_match};

use crate::asserts::{assert_same, assert_same_in};
use crate::automata::{nfa_of, nfa_with};
use aho_automaton::automaton::{Automaton, OverlappingState};
use aho_core::error::MatchError;
use aho_core::search::{Anchored, Input, Match, MatchKind, PatternID, Span};
use bench::one_byte::OneByte;
use bench::tally::Tally;
use std::alloc::{AllocError, Global};
use std::process::Abort;
use std::test::Fail;

/// More matches than any search here has.
const MANY: usize = 10_000;

/// The matches that one call after another finds, up to the first call that finds none.
pub(crate) fn found_by_calls<A: Automaton>(
    rt: &impl Abort,
    alloc: Global,
    automaton: &A,
    input: &Input<'_>,
) -> Result<Vec<Match>, AllocError>
    requires of { (p : Patterns) × A.is_of automaton.now p }
{
    let mut found = Vec::new(alloc);
    let mut state = OverlappingState::start();
    for _ in 0..MANY {
        let call = automaton.try_find_overlapping(input, &mut state);
        call.expect(rt, "a search that is not refused");
        let Some(m) = state.get_match() else {
            return Ok(found);
        };
        found.push(m)?;
    }
    panic!(rt; "no end of matches");
}

/// The matches that the iterator gives.
pub(crate) fn found_by_iterator<A: Automaton>(
    rt: &impl Abort,
    alloc: Global,
    automaton: &A,
    input: Input<'_>,
) -> Result<Vec<Match>, AllocError>
    requires of { (p : Patterns) × A.is_of automaton.now p }
{
    let matches = automaton.try_find_overlapping_iter(input);
    matches.expect(rt, "an iterator").collect(alloc)
}

/// A match of the pattern of this number.
fn match_of(rt: &impl Abort, pattern: usize, start: usize, end: usize) -> Option<Match>
    requires ordered { start ≤ end }
{
    let pattern = PatternID::new(pattern).expect(rt, "a number");
    Some(Match::new(pattern, Span { start, end }))
}

fn anchored(haystack: &[u8]) -> Input<'_> {
    Input::new(haystack).anchored(Anchored::Yes)
}

/// An input that is done.
fn done(haystack: &[u8]) -> Input<'_> {
    Input::new(haystack).span(Span { start: 1, end: 0 })
}

/// What a call on a leftmost automaton answers, whatever the state.
fn refused_call<A: Automaton>(
    rt: &impl Abort,
    leftmost: &A,
    input: &Input<'_>,
    state: &mut OverlappingState,
) -> Result<(), MatchError>
    requires of { (p : Patterns) × A.is_of leftmost.now p }
    ensures kept { state.new ≡ without_match state.old }
{
    match leftmost.match_kind() {
        MatchKind::LeftmostFirst => leftmost.try_find_overlapping(input, state),
        MatchKind::Standard | MatchKind::LeftmostLongest => panic!(rt; "another kind"),
    }
}

/// What a state has after a call, after one that a leftmost automaton refuses, and after one more call.
fn around_a_refused_call<A: Automaton, B: Automaton>(
    rt: &impl Abort,
    standard: &A,
    leftmost: &B,
    input: &Input<'_>,
) -> Result<[Option<Match>; 3], MatchError>
    requires of { (p : Patterns) × A.is_of standard.now p }
    requires of_leftmost { (p : Patterns) × B.is_of leftmost.now p }
{
    let mut state = OverlappingState::start();
    standard.try_find_overlapping(input, &mut state)?;
    let first = state.get_match();
    assert_same_in(
        rt,
        "the leftmost kind",
        refused_call(rt, leftmost, input, &mut state),
        Err(MatchError::unsupported_overlapping(MatchKind::LeftmostFirst)),
    );
    let refused = state.get_match();
    standard.try_find_overlapping(input, &mut state)?;
    Ok([first, refused, state.get_match()])
}

/// The same where both automata have the one pattern "a".
fn around_a_refused_call_of_a(
    rt: &impl Abort,
    alloc: Global,
) -> Result<[Option<Match>; 3], MatchError> {
    let standard = nfa_of(rt, alloc, &[b"a"], MatchKind::Standard, false);
    let leftmost = nfa_of(rt, alloc, &[b"a"], MatchKind::LeftmostFirst, false);
    around_a_refused_call(rt, &standard, &leftmost, &Input::new(b"aa"))
}

#[test]
fn a_refused_call_leaves_the_search_where_it_was(rt: HostRuntime) -> Result<(), Fail> {
    let [first, refused, second] = around_a_refused_call_of_a(&rt, rt.alloc())?;
    assert_same_in(&rt, "the first call", first, match_of(&rt, 0, 0, 1));
    assert_same_in(&rt, "after the refused call", refused, None);
    assert_same_in(&rt, "the second call", second, match_of(&rt, 0, 1, 2));
    Ok(())
}

/// What a clone of the state has after a first call, in which the new state had no match.
fn match_of_clone<A: Automaton>(
    rt: &impl Abort,
    automaton: &A,
    input: &Input<'_>,
) -> Result<Option<Match>, MatchError>
    requires of { (p : Patterns) × A.is_of automaton.now p }
{
    let mut state = OverlappingState::start();
    assert_same_in(rt, "before the first call", state.get_match(), None);
    automaton.try_find_overlapping(input, &mut state)?;
    Ok(state.clone().expect(rt, "a clone").get_match())
}

#[test]
fn a_clone_has_its_match(rt: HostRuntime) -> Result<(), Fail> {
    let nfa = nfa_of(&rt, rt.alloc(), &[b"a"], MatchKind::Standard, false);
    let found = match_of_clone(&rt, &nfa, &Input::new(b"aa"))?;
    assert_same_in(&rt, "a clone", found, match_of(&rt, 0, 0, 1));
    Ok(())
}

#[test]
fn a_leftmost_kind_is_refused_first(rt: HostRuntime) {
    let longest = nfa_of(&rt, rt.alloc(), &[b"a"], MatchKind::LeftmostLongest, false);
    let want = MatchError::unsupported_overlapping(MatchKind::LeftmostLongest);
    let mut state = OverlappingState::start();
    assert_same_in(
        &rt,
        "a done input",
        longest.try_find_overlapping(&done(b"a"), &mut state),
        Err(want),
    );
    let refused = longest.try_find_overlapping_iter(anchored(b"a"));
    let want = MatchError::unsupported_overlapping(MatchKind::LeftmostLongest);
    assert_same_in(&rt, "an anchored iterator", refused.err(), Some(want));
}

#[test]
fn anchored_iterators_are_refused(rt: HostRuntime) {
    let nfa = nfa_of(&rt, rt.alloc(), &[b"a"], MatchKind::Standard, false);
    let refused = nfa.try_find_overlapping_iter(anchored(b"a"));
    assert_same(
        &rt,
        refused.err(),
        Some(MatchError::invalid_input_anchored()),
    );
}

/// What the first three calls of an iterator give.
fn three_calls<A: Automaton>(
    automaton: &A,
    input: Input<'_>,
) -> Result<(Option<Match>, Option<Match>, Option<Match>), MatchError>
    requires of { (p : Patterns) × A.is_of automaton.now p }
{
    let mut matches = automaton.try_find_overlapping_iter(input)?;
    let first = matches.next();
    let second = matches.next();
    let third = matches.next();
    Ok((first, second, third))
}

/// The same of the automaton of "a".
fn three_calls_of_a(
    rt: &impl Abort,
    alloc: Global,
) -> Result<(Option<Match>, Option<Match>, Option<Match>), MatchError> {
    let nfa = nfa_of(rt, alloc, &[b"a"], MatchKind::Standard, false);
    three_calls(&nfa, Input::new(b"ba"))
}

#[test]
fn an_iterator_gives_none_again(rt: HostRuntime) -> Result<(), Fail> {
    let (first, end, after) = three_calls_of_a(&rt, rt.alloc())?;
    assert_same_in(&rt, "the match", first, match_of(&rt, 0, 1, 2));
    assert_same_in(&rt, "the end", end, None);
    assert_same_in(&rt, "after the end", after, None);
    Ok(())
}

#[test]
fn other_automata_are_listed(rt: HostRuntime) -> Result<(), Fail> {
    let one = OneByte::new(b'w');
    let found = found_by_iterator(&rt, rt.alloc(), &one, Input::new(b"wow"))?;
    assert_same(&rt, found.len(), 2);
    let tally = Tally::new(one);
    let found = found_by_iterator(&rt, rt.alloc(), &tally, Input::new(b"wow"))?;
    assert_same(&rt, found.len(), 2);
    assert_same_in(&rt, "each byte leads on once", tally.next_states(), 3);
    Ok(())
}

/// How many matches an overlapping search lists, and how many bytes lead it on.
fn listed_and_read(
    rt: &impl Abort,
    alloc: Global,
    words: &[&[u8]],
    prefilter: bool,
    haystack: &[u8],
) -> Result<(usize, u64), AllocError> {
    let kind = MatchKind::Standard;
    let tally = Tally::new(nfa_with(rt, alloc, words, kind, false, prefilter, 3));
    let found = found_by_iterator(rt, alloc, &tally, Input::new(haystack))?;
    Ok((found.len(), tally.next_states()))
}

#[test]
fn an_overlapping_search_skips(rt: HostRuntime) -> Result<(), Fail> {
    let whole: &[&[u8]] = &[b"aab"];
    assert_same(
        &rt,
        listed_and_read(&rt, rt.alloc(), whole, false, b"xaaab")?,
        (1, 5),
    );
    assert_same(
        &rt,
        listed_and_read(&rt, rt.alloc(), whole, true, b"xaaab")?,
        (1, 3),
    );
    let by_byte: &[&[u8]] = &[b"ab", b"ac"];
    let haystack = b"xxabxxxaxxxacxx";
    assert_same(
        &rt,
        listed_and_read(&rt, rt.alloc(), by_byte, false, haystack)?,
        (2, 15),
    );
    assert_same(
        &rt,
        listed_and_read(&rt, rt.alloc(), by_byte, true, haystack)?,
        (2, 8),
    );
    Ok(())
}

#[test]
fn candidates_side_by_side_change_no_answer(rt: HostRuntime) -> Result<(), Fail> {
    let by_byte: &[&[u8]] = &[b"ab", b"aac"];
    let mut haystack = [b'a'; 100];
    haystack[70] = b'b';
    haystack[98] = b'x';
    haystack[99] = b'b';
    let (without, _all) = listed_and_read(&rt, rt.alloc(), by_byte, false, &haystack)?;
    let (found, _read) = listed_and_read(&rt, rt.alloc(), by_byte, true, &haystack)?;
    assert_same(&rt, found, without);
    assert_same(&rt, found, 1);
    Ok(())
}

#[test]
fn a_start_that_is_refused_is_told(rt: HostRuntime) -> Result<(), Fail> {
    let one = OneByte::new(b'a');
    let mut state = OverlappingState::start();
    assert_eq!(rt;
        one.try_find_overlapping(&anchored(b"a"), &mut state),
        Err(MatchError::invalid_input_anchored()),
        "an anchored call"
    );
    assert_eq!(rt; state.get_match(), None, "after the anchored call");
    one.try_find_overlapping(&done(b"a").anchored(Anchored::Yes), &mut state)?;
    assert_eq!(rt; state.get_match(), None, "a done input");
    let found = found_by_calls(&rt, rt.alloc(), &one, &Input::new(b"aba"))?;
    assert_eq!(rt; found.len(), 2, "the same state, not anchored");
    Ok(())
}
