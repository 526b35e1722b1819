//! An automaton of sorted patterns, numbered level by level: what it costs, and its own calls.

ghost use Rattle.aho_core.specs.Patterns.{Patterns};

use crate::asserts::assert_same;
use crate::automata::{listed, start_of, state_after};
use crate::hybrid::lookups_of;
use aho_automaton::automaton::Automaton;
use aho_core::search::{Anchored, MatchKind};
use aho_levels::levels::Levels;
use std::alloc::{AllocError, Global};
use std::process::Abort;
use std::test::Fail;

/// The automaton of these patterns, with so many rows at most, and without a prefilter.
pub(crate) fn levels_of(
    rt: &impl Abort,
    alloc: Global,
    words: &[&[u8]],
    kind: MatchKind,
    ignore_case: bool,
    most_rows: usize,
) -> Levels
    ensures of { (p : Patterns) × ⟦<Levels as Automaton>⟧.is_of result p }
{
    Levels::with_rows(alloc, kind, ignore_case, words, None, most_rows).expect(rt, "an automaton")
}

/// The automaton of these patterns, which has so many rows at most.
fn standard_of(rt: &impl Abort, alloc: Global, words: &[&[u8]], most_rows: usize) -> Levels
    ensures of { (p : Patterns) × ⟦<Levels as Automaton>⟧.is_of result p }
{
    levels_of(rt, alloc, words, MatchKind::Standard, false, most_rows)
}

#[test]
fn a_byte_is_looked_up_once_by_rows(rt: HostRuntime) -> Result<(), Fail> {
    let levels = standard_of(&rt, rt.alloc(), &[b"aaab", b"aab"], usize::MAX);
    assert_same(&rt, lookups_of(&levels, b"aaaaaaaa")?, 8);
    assert_same(&rt, lookups_of(&levels, b"aaaab")?, 5);
    Ok(())
}

#[test]
fn a_link_is_one_look_up_more(rt: HostRuntime) -> Result<(), Fail> {
    let levels = standard_of(&rt, rt.alloc(), &[b"aaab", b"aab"], 0);
    assert_same(&rt, lookups_of(&levels, b"aaaaaaaa")?, 13);
    assert_same(&rt, lookups_of(&levels, b"aaaab")?, 6);
    Ok(())
}

/// What the states tell that are led to.
fn leads<A: Automaton>(rt: &impl Abort, alloc: Global, automaton: &A) -> Result<(), AllocError> {
    let start = start_of(rt, automaton, Anchored::No);
    assert!(rt; automaton.is_start(start) && !automaton.is_special(start));
    let found = state_after(rt, automaton, Anchored::No, b"xabc");
    assert!(rt; automaton.is_match(found) && automaton.is_special(found));
    assert!(rt; !automaton.is_dead(found) && !automaton.is_start(found));
    let listed = listed(alloc, automaton, found)?;
    assert_same(rt, listed.as_slice(), [0, 1].as_slice());
    let back = state_after(rt, automaton, Anchored::No, b"abcx");
    assert!(rt; automaton.is_start(back) && !automaton.is_match(back));
    let begun = state_after(rt, automaton, Anchored::No, b"abcab");
    assert_same(rt, automaton.reach_back(back), 0);
    assert_same(rt, automaton.reach_back(begun), 2);
    assert_same(rt, automaton.reach_back(found), 3);
    Ok(())
}

/// Where anchored steps lead: to children, and else to the dead state.
fn leads_anchored<A: Automaton>(rt: &impl Abort, automaton: &A) {
    let start = start_of(rt, automaton, Anchored::Yes);
    assert!(rt; automaton.is_start(start));
    let found = state_after(rt, automaton, Anchored::Yes, b"abc");
    assert!(rt; automaton.is_match(found));
    let dead = state_after(rt, automaton, Anchored::Yes, b"xabc");
    assert!(rt; automaton.is_dead(dead) && automaton.is_special(dead) && !automaton.is_match(dead));
}

/// What the automaton tells of itself.
fn tells(rt: &impl Abort, levels: &Levels) {
    assert_same(rt, levels.match_kind(), MatchKind::Standard);
    assert_same(rt, levels.patterns_len(), 2);
    let lens = (levels.min_pattern_len(), levels.max_pattern_len());
    assert_same(rt, lens, (2, 3));
    assert!(rt; levels.prefilter().is_none());
    assert_same(rt, levels.most_listed(), 2);
}

/// An automaton of two words, with so many rows at most, takes so much memory, and so does its clone.
fn made(rt: &impl Abort, alloc: Global, most_rows: usize, bytes: usize) -> Result<(), AllocError> {
    let levels = standard_of(rt, alloc, &[b"abc", b"bc"], most_rows);
    assert_same(rt, levels.memory_usage(), bytes);
    tells(rt, &levels);
    leads(rt, alloc, &levels)?;
    leads_anchored(rt, &levels);
    let clone = levels.try_clone()?;
    assert_same(rt, clone.memory_usage(), bytes);
    tells(rt, &clone);
    leads(rt, alloc, &clone)?;
    leads_anchored(rt, &clone);
    Ok(())
}

#[test]
fn it_is_made_with_rows_for_all_states(rt: HostRuntime) -> Result<(), Fail> {
    // Seven states of four words and a byte, one first child more, seven rows, 6 words of lists, and two lengths.
    Ok(made(
        &rt,
        rt.alloc(),
        usize::MAX,
        7 * 17 + 4 + 4 * (7 * 256 + 6 + 2),
    )?)
}

#[test]
fn it_is_made_with_rows_for_the_dead_state_and_the_root(rt: HostRuntime) -> Result<(), Fail> {
    // The same, with two rows.
    Ok(made(&rt, rt.alloc(), 0, 7 * 17 + 4 + 4 * (2 * 256 + 6 + 2))?)
}

#[test]
fn patterns_that_an_earlier_one_begins_are_left_out(rt: HostRuntime) -> Result<(), Fail> {
    // The dead state, the root and "a" alone: "ab" can never be the first that is found.
    let words: [&[u8]; 2] = [b"a", b"ab"];
    let levels = levels_of(&rt, rt.alloc(), &words, MatchKind::LeftmostFirst, false, 0);
    assert_same(
        &rt,
        levels.memory_usage(),
        3 * 17 + 4 + 4 * (2 * 256 + 3 + 2),
    );
    assert_same(&rt, levels.most_listed(), 1);
    Ok(())
}
