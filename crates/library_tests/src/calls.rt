//! What an automaton's own calls answer, one by one.

ghost use Rattle.std.specs.Prelude.{◌+◌, ◌<◌, ◌^◌};

use crate::asserts::{assert_in, assert_same, assert_same_in};
use crate::automata::{listed, nfa_of, nfa_with, start_of, state_after};
use aho_automaton::automaton::Automaton;
use aho_core::search::{Anchored, MatchKind, PatternID, StateID, Work};
use bench::one_byte::OneByte;
use std::alloc::{AllocError, Global};
use std::process::Abort;
use std::test::Fail;

/// An anchoring, the bytes that lead to a state from its start, and what the state lists; a dead state has no list.
type Reached = (Anchored, &'static [u8], Option<&'static [usize]>);

/// An automaton, with some of its states.
struct States {
    kind: MatchKind,
    patterns: &'static [&'static [u8]],
    reached: &'static [Reached],
}

const STATES: &[States] = &[
    States {
        kind: MatchKind::Standard,
        patterns: &[b"abcd", b"cef"],
        reached: &[
            (Anchored::Yes, b"", Some(&[])),
            (Anchored::Yes, b"a", Some(&[])),
            (Anchored::Yes, b"ab", Some(&[])),
            (Anchored::Yes, b"abc", Some(&[])),
            (Anchored::Yes, b"abcd", Some(&[0])),
            (Anchored::Yes, b"c", Some(&[])),
            (Anchored::Yes, b"ce", Some(&[])),
            (Anchored::Yes, b"cef", Some(&[1])),
            (Anchored::Yes, b"abce", None),
            (Anchored::No, b"abce", Some(&[])),
            (Anchored::No, b"abcef", Some(&[1])),
        ],
    },
    States {
        kind: MatchKind::LeftmostLongest,
        patterns: &[b"abcd", b"b", b"bce"],
        reached: &[
            (Anchored::Yes, b"a", Some(&[])),
            (Anchored::Yes, b"ab", Some(&[1])),
            (Anchored::Yes, b"abc", Some(&[])),
            (Anchored::Yes, b"abcd", Some(&[0])),
            (Anchored::Yes, b"b", Some(&[1])),
            (Anchored::Yes, b"bc", Some(&[])),
            (Anchored::Yes, b"bce", Some(&[2])),
            (Anchored::No, b"abce", Some(&[2])),
            (Anchored::No, b"bx", None),
            (Anchored::No, b"bcex", None),
            (Anchored::No, b"bxb", None),
        ],
    },
    States {
        kind: MatchKind::Standard,
        patterns: &[b"", b"ab"],
        reached: &[
            (Anchored::Yes, b"", Some(&[0])),
            (Anchored::No, b"", Some(&[0])),
            (Anchored::Yes, b"ab", Some(&[1, 0])),
        ],
    },
    States {
        kind: MatchKind::LeftmostFirst,
        patterns: &[b"xyz", b""],
        reached: &[
            (Anchored::Yes, b"", Some(&[1])),
            (Anchored::No, b"", Some(&[1])),
            (Anchored::Yes, b"xyz", Some(&[0])),
            (Anchored::Yes, b"xa", None),
            (Anchored::No, b"xa", None),
        ],
    },
];

/// The state that a word leads to is dead, matches, is special and lists as is wanted.
fn state_answers<A: Automaton>(
    rt: &impl Abort,
    alloc: Global,
    states: &States,
    automaton: &A,
    (anchored, word, listing): Reached,
) -> Result<(), AllocError> {
    let sid = state_after(rt, automaton, anchored, word);
    let want = listing.unwrap_or(&[]);
    let case = (states.kind, states.patterns, anchored, word);
    assert_same_in(rt, &case, automaton.is_dead(sid), listing.is_none());
    assert_same_in(rt, &case, automaton.is_match(sid), !want.is_empty());
    let skips = automaton.prefilter().is_some() && automaton.is_start(sid);
    let is_special = listing.is_none() || !want.is_empty() || skips;
    assert_same_in(rt, &case, automaton.is_special(sid), is_special);
    let listed = listed(alloc, automaton, sid)?;
    assert_same_in(rt, &case, listed.as_slice(), want);
    Ok(())
}

/// Each state of an automaton that a row tells answers as is wanted.
fn states_answer<A: Automaton>(
    rt: &impl Abort,
    alloc: Global,
    states: &States,
    automaton: &A,
) -> Result<(), AllocError> {
    for reached in states.reached {
        state_answers(rt, alloc, states, automaton, *reached)?;
    }
    Ok(())
}

#[test]
fn states_list_their_patterns(rt: HostRuntime) -> Result<(), Fail> {
    for states in STATES {
        let nfa = nfa_of(&rt, rt.alloc(), states.patterns, states.kind, false);
        states_answer(&rt, rt.alloc(), states, &nfa)?;
    }
    Ok(())
}

#[test]
fn a_failed_word_goes_on_at_its_suffix(rt: HostRuntime) {
    let nfa = nfa_of(
        &rt,
        rt.alloc(),
        &[b"abcd", b"cef"],
        MatchKind::Standard,
        false,
    );
    let by_links = state_after(&rt, &nfa, Anchored::No, b"abce");
    assert_same(&rt, by_links, state_after(&rt, &nfa, Anchored::Yes, b"ce"));
    assert_same(&rt, by_links, state_after(&rt, &nfa, Anchored::No, b"ce"));
}

/// A start is told from the state after a letter.
fn start_is_told<A: Automaton>(rt: &impl Abort, automaton: &A, anchored: Anchored) {
    let start = start_of(rt, automaton, anchored);
    assert_in(rt, &anchored, automaton.is_start(start));
    let after = state_after(rt, automaton, anchored, b"a");
    assert_in(rt, (&anchored, "after a"), !automaton.is_start(after));
}

/// A word that fails leads back to the start, and to a dead state where a search is anchored.
fn failure_is_told<A: Automaton>(rt: &impl Abort, automaton: &A) {
    let back = state_after(rt, automaton, Anchored::No, b"ax");
    assert_same(rt, back, start_of(rt, automaton, Anchored::No));
    let dead = state_after(rt, automaton, Anchored::Yes, b"ax");
    assert!(rt; automaton.is_dead(dead));
    assert!(rt; !automaton.is_start(dead));
}

#[test]
fn starts_are_told(rt: HostRuntime) {
    let nfa = nfa_of(&rt, rt.alloc(), &[b"ab"], MatchKind::Standard, false);
    start_is_told(&rt, &nfa, Anchored::No);
    start_is_told(&rt, &nfa, Anchored::Yes);
    failure_is_told(&rt, &nfa);
}

#[test]
fn starts_are_special_where_a_prefilter_is_held(rt: HostRuntime) {
    for prefilter in [true, false] {
        let words: [&[u8]; 1] = [b"abc"];
        let nfa = nfa_with(
            &rt,
            rt.alloc(),
            &words,
            MatchKind::Standard,
            false,
            prefilter,
            1,
        );
        assert_same(&rt, nfa.prefilter().is_some(), prefilter);
        for anchored in [Anchored::No, Anchored::Yes] {
            let start = start_of(&rt, &nfa, anchored);
            assert_same_in(&rt, &anchored, nfa.is_special(start), prefilter);
        }
        let memory = if prefilter { 7166 } else { 7163 };
        assert_same(&rt, nfa.memory_usage(), memory);
    }
}

/// From the state that is held after this word, each byte leads `step` where it leads `next_state`.
fn assert_steps_agree_from<A: Automaton>(
    rt: &impl Abort,
    automaton: &A,
    anchored: Anchored,
    sid: StateID,
    word: &[u8],
)
    requires valid { A.valid automaton.now sid }
    requires room { A.depth automaton.now sid + 2 < 2 ^ 128 }
{
    let kind = automaton.match_kind();
    for byte in 0..=u8::MAX {
        let next = automaton.next_state(anchored, sid, byte);
        let stepped = automaton.step(anchored, sid, byte, &mut Work::new());
        assert_same_in(rt, (&kind, &anchored, &word, &byte), stepped, next);
    }
}

/// The same from each state on the way of a word.
fn assert_steps_agree_along<A: Automaton>(
    rt: &impl Abort,
    automaton: &A,
    anchored: Anchored,
    word: &[u8],
) {
    let mut work = Work::new();
    let mut sid = start_of(rt, automaton, anchored);
    assert_steps_agree_from(rt, automaton, anchored, sid, &word[..0]);
    for at in 0..word.len() {
        sid = automaton.step(anchored, sid, word[at], &mut work);
        assert_steps_agree_from(rt, automaton, anchored, sid, &word[..at + 1]);
    }
}

/// The same from each state on the way of the words of a row, anchored and not.
fn assert_steps_agree_in<A: Automaton>(rt: &impl Abort, automaton: &A, states: &States) {
    for (_, word, _) in states.reached {
        assert_steps_agree_along(rt, automaton, Anchored::No, word);
        assert_steps_agree_along(rt, automaton, Anchored::Yes, word);
    }
}

#[test]
fn a_step_leads_where_next_state_does(rt: HostRuntime) {
    for states in STATES {
        let nfa = nfa_of(&rt, rt.alloc(), states.patterns, states.kind, false);
        assert_steps_agree_in(&rt, &nfa, states);
    }
    let one = OneByte::new(b'w');
    assert_steps_agree_along(&rt, &one, Anchored::No, b"samwise");
    assert_steps_agree_along(&rt, &&one, Anchored::No, b"samwise");
}

/// The first match of a search of the whole haystack, by a loop over an automaton's calls: the pattern's number, and
/// where the match starts and ends.
fn found_by_calls<A: Automaton>(
    rt: &impl Abort,
    automaton: &A,
    haystack: &[u8],
) -> Option<(usize, usize, usize)> {
    let mut best = None;
    let mut sid = start_of(rt, automaton, Anchored::No);
    for at in 0..haystack.len() {
        sid = automaton.next_state(Anchored::No, sid, haystack[at]);
        if automaton.is_special(sid) {
            if automaton.is_dead(sid) {
                return best;
            }
            if automaton.is_match(sid) {
                let pattern = automaton.match_pattern(sid, 0);
                assert!(rt; pattern.as_usize() < automaton.patterns_len());
                let len = automaton.pattern_len(pattern);
                assert!(rt; len <= at + 1);
                best = Some((pattern.as_usize(), at + 1 - len, at + 1));
                if automaton.match_kind() == MatchKind::Standard {
                    return best;
                }
            }
        }
    }
    best
}

/// The loop finds this in a word, by the automaton and by a reference to it.
fn loop_finds<A: Automaton>(rt: &impl Abort, automaton: &A, want: (usize, usize, usize)) {
    let kind = automaton.match_kind();
    let found = found_by_calls(rt, automaton, b"samwise");
    assert_same_in(rt, &kind, found, Some(want));
    let by_reference = found_by_calls(rt, &automaton, b"samwise");
    assert_same_in(rt, (&kind, "by a reference"), by_reference, Some(want));
}

#[test]
fn a_loop_over_the_calls_finds(rt: HostRuntime) {
    for (kind, want) in [
        (MatchKind::Standard, (1, 0, 3)),
        (MatchKind::LeftmostFirst, (0, 0, 7)),
        (MatchKind::LeftmostLongest, (0, 0, 7)),
    ] {
        let nfa = nfa_of(&rt, rt.alloc(), &[b"samwise", b"sam"], kind, false);
        loop_finds(&rt, &nfa, want);
    }
    let one = OneByte::new(b'w');
    assert_same(&rt, found_by_calls(&rt, &one, b"samwise"), Some((0, 3, 4)));
    assert_same(&rt, found_by_calls(&rt, &&one, b"sam"), None);
}

/// What an automaton tells of its patterns.
struct Told {
    kind: MatchKind,
    patterns: &'static [&'static [u8]],
    lens: &'static [usize],
    shortest: usize,
    longest: usize,
    memory: usize,
}

const TOLD: &[Told] = &[
    Told {
        kind: MatchKind::LeftmostFirst,
        patterns: &[b"abc"],
        lens: &[3],
        shortest: 3,
        longest: 3,
        memory: 7206,
    },
    Told {
        kind: MatchKind::Standard,
        patterns: &[b"", b"ab"],
        lens: &[0, 2],
        shortest: 0,
        longest: 2,
        memory: 7174,
    },
    Told {
        kind: MatchKind::LeftmostLongest,
        patterns: &[],
        lens: &[],
        shortest: usize::MAX,
        longest: 0,
        memory: 7021,
    },
];

/// The automaton tells what is wanted of its patterns together.
fn tells<A: Automaton>(rt: &impl Abort, automaton: &A, told: &Told) {
    let case = (told.kind, told.patterns);
    assert_same_in(rt, &case, automaton.match_kind(), told.kind);
    assert_same_in(rt, &case, automaton.min_pattern_len(), told.shortest);
    assert_same_in(rt, &case, automaton.max_pattern_len(), told.longest);
    assert_same_in(rt, &case, automaton.memory_usage(), told.memory);
    assert_same_in(rt, &case, automaton.patterns_len(), told.lens.len());
}

/// The automaton tells how long each of its patterns is.
fn tells_lens<A: Automaton>(rt: &impl Abort, automaton: &A, told: &Told) -> Result<(), Fail> {
    let case = (told.kind, told.patterns);
    for (number, len) in told.lens.iter().enumerate() {
        let pattern = PatternID::new(number)?;
        assert!(rt; number < automaton.patterns_len());
        assert_same_in(rt, &case, automaton.pattern_len(pattern), *len);
    }
    Ok(())
}

#[test]
fn patterns_are_told(rt: HostRuntime) -> Result<(), Fail> {
    for told in TOLD {
        let nfa = nfa_of(&rt, rt.alloc(), told.patterns, told.kind, false);
        tells(&rt, &nfa, told);
        tells_lens(&rt, &nfa, told)?;
    }
    Ok(())
}
