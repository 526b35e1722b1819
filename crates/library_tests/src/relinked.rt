//! An automaton that is made from what another one tells: its own calls.

use crate::asserts::assert_same;
use crate::automata::{listed, nfa_with, relinked_of, state_after};
use aho_automaton::automaton::Automaton;
use aho_core::search::{Anchored, MatchKind};
use std::alloc::{AllocError, Global};
use std::process::Abort;
use std::test::Fail;

/// The automaton leads where its original does, and tells what it is at the states that are led to.
fn leads_as<A: Automaton, B: Automaton>(
    rt: &impl Abort,
    alloc: Global,
    relinked: &A,
    original: &B,
    anchored: Anchored,
) -> Result<(), AllocError> {
    let start = state_after(rt, relinked, anchored, b"");
    assert_same(rt, start, state_after(rt, original, anchored, b""));
    assert!(rt; relinked.is_start(start) && !relinked.is_special(start));
    let found = state_after(rt, relinked, anchored, b"abc");
    assert_same(rt, found, state_after(rt, original, anchored, b"abc"));
    assert!(rt; relinked.is_match(found) && relinked.is_special(found));
    assert!(rt; !relinked.is_dead(found));
    let listed = listed(alloc, relinked, found)?;
    assert_same(rt, listed.as_slice(), [0].as_slice());
    Ok(())
}

/// What the automaton tells of itself.
fn tells<A: Automaton>(rt: &impl Abort, relinked: &A) {
    assert_same(rt, relinked.memory_usage(), 7103);
    assert!(rt; relinked.prefilter().is_none());
    assert_same(rt, relinked.match_kind(), MatchKind::Standard);
    assert_same(rt, relinked.patterns_len(), 1);
    let lens = (relinked.min_pattern_len(), relinked.max_pattern_len());
    assert_same(rt, lens, (3, 3));
}

#[test]
fn an_automaton_is_made_from_what_is_told(rt: HostRuntime) -> Result<(), Fail> {
    let alloc = rt.alloc();
    let nfa = nfa_with(&rt, alloc, &[b"abc"], MatchKind::Standard, false, true, 3);
    let relinked = relinked_of(&rt, alloc, &nfa);
    tells(&rt, &relinked);
    leads_as(&rt, alloc, &relinked, &nfa, Anchored::No)?;
    leads_as(&rt, alloc, &relinked, &nfa, Anchored::Yes)?;
    Ok(())
}
