//! An automaton with rows near the start, made from what an `NFA` tells: what it costs, and its own calls.

ghost use Rattle.aho_core.specs.Patterns.{Patterns};

use crate::asserts::assert_same;
use crate::automata::{listed, nfa_with, start_of, state_after};
use aho_automaton::automaton::{Automaton, Counted, find_in};
use aho_core::error::MatchError;
use aho_core::search::{Anchored, MatchKind, Span};
use aho_hybrid::hybrid::Hybrid;
use aho_prefilter::text::Bytes;
use std::alloc::{AllocError, Global};
use std::process::Abort;
use std::test::Fail;

/// The automaton of these patterns, with rows of so many bytes at most.
fn hybrid_of(
    rt: &impl Abort,
    alloc: Global,
    words: &[&[u8]],
    kind: MatchKind,
    ignore_case: bool,
    prefilter: bool,
    budget: usize,
) -> Hybrid
    ensures of { (p : Patterns) × ⟦<Hybrid as Automaton>⟧.is_of result p }
{
    let nfa = nfa_with(rt, alloc, words, kind, ignore_case, prefilter, 1);
    Hybrid::with_budget(alloc, &nfa, budget).expect(rt, "an automaton")
}

/// How many look-ups an unanchored search of this haystack makes.
pub(crate) fn lookups_of<A: Automaton>(automaton: &A, haystack: &[u8]) -> Result<u128, MatchError>
    requires of { (p : Patterns) × A.is_of automaton.now p }
{
    let mut walk = Counted::new(automaton);
    let mut text = Bytes::new(haystack);
    let span = Span {
        start: 0,
        end: haystack.len(),
    };
    let _found = find_in(&mut walk, &mut text, span, Anchored::No, false)?;
    Ok(walk.lookups())
}

#[test]
fn a_byte_is_looked_up_once_by_rows(rt: HostRuntime) -> Result<(), Fail> {
    let words: [&[u8]; 2] = [b"aaab", b"aab"];
    let hybrid = hybrid_of(
        &rt,
        rt.alloc(),
        &words,
        MatchKind::Standard,
        false,
        false,
        usize::MAX,
    );
    assert_same(&rt, lookups_of(&hybrid, b"aaaaaaaa")?, 8);
    assert_same(&rt, lookups_of(&hybrid, b"aaaab")?, 5);
    Ok(())
}

#[test]
fn a_link_is_one_look_up_more(rt: HostRuntime) -> Result<(), Fail> {
    let words: [&[u8]; 2] = [b"aaab", b"aab"];
    let hybrid = hybrid_of(
        &rt,
        rt.alloc(),
        &words,
        MatchKind::Standard,
        false,
        false,
        0,
    );
    assert_same(&rt, lookups_of(&hybrid, b"aaaaaaaa")?, 13);
    assert_same(&rt, lookups_of(&hybrid, b"aaaab")?, 6);
    Ok(())
}

/// What the states tell that are led to.
fn leads<A: Automaton>(rt: &impl Abort, alloc: Global, automaton: &A) -> Result<(), AllocError> {
    let start = start_of(rt, automaton, Anchored::No);
    assert!(rt; automaton.is_start(start) && !automaton.is_special(start));
    let found = state_after(rt, automaton, Anchored::No, b"xabc");
    assert!(rt; automaton.is_match(found) && automaton.is_special(found));
    assert!(rt; !automaton.is_dead(found) && !automaton.is_start(found));
    let listed = listed(alloc, automaton, found)?;
    assert_same(rt, listed.as_slice(), [0, 1].as_slice());
    let back = state_after(rt, automaton, Anchored::No, b"abcx");
    assert!(rt; automaton.is_start(back) && !automaton.is_match(back));
    let begun = state_after(rt, automaton, Anchored::No, b"abcab");
    assert_same(rt, automaton.reach_back(back), 0);
    assert_same(rt, automaton.reach_back(begun), 2);
    assert_same(rt, automaton.reach_back(found), 3);
    Ok(())
}

/// What the automaton tells of itself.
fn tells<A: Automaton>(rt: &impl Abort, automaton: &A) {
    assert_same(rt, automaton.match_kind(), MatchKind::Standard);
    assert_same(rt, automaton.patterns_len(), 2);
    let lens = (automaton.min_pattern_len(), automaton.max_pattern_len());
    assert_same(rt, lens, (2, 3));
    assert!(rt; automaton.prefilter().is_none());
    let refusal = automaton.start_state(Anchored::Yes).err();
    assert_same(rt, refusal, Some(MatchError::invalid_input_anchored()));
}

/// An automaton of these words, with rows of so many bytes at most, takes so much memory, and so does its clone.
fn made(
    rt: &impl Abort,
    alloc: Global,
    words: &[&[u8]],
    budget: usize,
    bytes: usize,
) -> Result<(), AllocError> {
    let hybrid = hybrid_of(rt, alloc, words, MatchKind::Standard, false, false, budget);
    assert_same(rt, hybrid.memory_usage(), bytes);
    tells(rt, &hybrid);
    leads(rt, alloc, &hybrid)?;
    let clone = hybrid.try_clone()?;
    assert_same(rt, clone.memory_usage(), bytes);
    tells(rt, &clone);
    leads(rt, alloc, &clone)
}

#[test]
fn it_is_made_with_rows_for_all_states(rt: HostRuntime) -> Result<(), Fail> {
    // Nine states with entries for five classes and a list, and a depth, 6 entries of lists, and two lengths.
    Ok(made(
        &rt,
        rt.alloc(),
        &[b"abc", b"bc"],
        usize::MAX,
        4 * (9 * 7 + 6 + 2),
    )?)
}

#[test]
fn it_is_made_with_rows_for_the_states_without_depth(rt: HostRuntime) -> Result<(), Fail> {
    // Four states with such entries and a depth, five records of five words, three transitions, 6 entries of lists, and two lengths.
    Ok(made(
        &rt,
        rt.alloc(),
        &[b"abc", b"bc"],
        0,
        4 * (4 * 7 + 5 * 5 + 3 * 2 + 6 + 2),
    )?)
}
