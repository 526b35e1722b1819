//! Iteration, one call at a time, and over other automata.

ghost use Rattle.aho_core.specs.Patterns.{Patterns};

use crate::asserts::{assert_same, assert_same_in};
use crate::automata::nfa_of;
use aho_automaton::automaton::Automaton;
use aho_corasick::noncontiguous::NFA;
use aho_core::error::MatchError;
use aho_core::search::{Anchored, Input, Match, MatchKind, Span};
use bench::callers::{first_matches, match_ends, matches_in};
use bench::one_byte::OneByte;
use bench::tally::Tally;
use std::alloc::{AllocError, Global};
use std::process::Abort;
use std::test::Fail;

/// A pattern's number, and where its match starts and ends.
fn found_of(m: Match) -> (usize, usize, usize) {
    (m.pattern().as_usize(), m.start(), m.end())
}

#[test]
fn none_comes_again(rt: HostRuntime) {
    let nfa = nfa_of(
        &rt,
        rt.alloc(),
        &[b"xyz", b""],
        MatchKind::LeftmostFirst,
        false,
    );
    gives_two_and_none_again(&rt, &nfa);
}

/// Two empty matches are given, and then none, however often it is asked. (Of every automaton, so that the proof sees no
/// inside of one.)
fn gives_two_and_none_again<A: Automaton>(rt: &impl Abort, automaton: &A)
    requires of { (p : Patterns) × A.is_of automaton.now p }
{
    let mut it = automaton
        .try_find_iter(Input::new(b"x"))
        .expect(rt, "an iterator");
    assert_same(rt, it.next().map(found_of), Some((1, 0, 0)));
    assert_same(rt, it.next().map(found_of), Some((1, 1, 1)));
    assert_same(rt, it.next(), None);
    assert_same(rt, it.next(), None);
}

/// How many matches there are in a haystack.
fn matches_len(alloc: Global, nfa: &NFA) -> Result<usize, AllocError>
    requires of { (p : Patterns) × ⟦<NFA as Automaton>⟧.is_of nfa.now p }
{
    Ok(matches_in(alloc, nfa, b"abxb")?.len())
}

/// The matches in it end there.
fn assert_ends(rt: &impl Abort, alloc: Global, nfa: &NFA) -> Result<(), AllocError>
    requires of { (p : Patterns) × ⟦<NFA as Automaton>⟧.is_of nfa.now p }
{
    let ends = match_ends(alloc, nfa, Input::new(b"abxb"))?;
    assert_same(rt, ends.as_slice(), [2, 4].as_slice());
    Ok(())
}

/// How many of its first matches are given where one is asked for.
fn first_matches_len(alloc: Global, nfa: &NFA) -> Result<usize, AllocError>
    requires of { (p : Patterns) × ⟦<NFA as Automaton>⟧.is_of nfa.now p }
{
    Ok(first_matches(alloc, nfa, Input::new(b"abxb"), 1)?.len())
}

#[test]
fn callers_are_given_matches(rt: HostRuntime) -> Result<(), Fail> {
    let (alloc, words): (Global, [&[u8]; 2]) = (rt.alloc(), [b"ab", b"b"]);
    let nfa = nfa_of(&rt, alloc, &words, MatchKind::Standard, false);
    assert_same(&rt, matches_len(alloc, &nfa)?, 2);
    assert_ends(&rt, alloc, &nfa)?;
    assert_same(&rt, first_matches_len(alloc, &nfa)?, 1);
    Ok(())
}

#[test]
fn other_automata_are_iterated(rt: HostRuntime) -> Result<(), Fail> {
    let one = OneByte::new(b'w');
    let input = Input::new(b"wow");
    assert_same(
        &rt,
        match_ends(rt.alloc(), &one, input)?.as_slice(),
        [1, 3].as_slice(),
    );
    let tally = Tally::new(one);
    let input = Input::new(b"wow");
    assert_same(
        &rt,
        match_ends(rt.alloc(), &tally, input)?.as_slice(),
        [1, 3].as_slice(),
    );
    assert_same(&rt, tally.steps(), 3);
    Ok(())
}

#[test]
fn a_refusal_comes_before_the_first_match(rt: HostRuntime) {
    let one = OneByte::new(b'w');
    for span in [Span { start: 0, end: 3 }, Span { start: 3, end: 2 }] {
        let input = Input::new(b"wow").span(span).anchored(Anchored::Yes);
        let refusal = one.try_find_iter(input).err();
        assert_same_in(
            &rt,
            &span,
            refusal,
            Some(MatchError::invalid_input_anchored()),
        );
    }
}
