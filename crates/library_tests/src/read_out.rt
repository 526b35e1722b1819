//! What an automaton tells of its states.

ghost use Rattle.std.specs.Prelude.{◌<◌, length};
ghost use Rattle.aho_corasick.specs.ReadOut.{states_of};

use crate::asserts::{assert_same, assert_same_in};
use crate::automata::{listed, nfa_of, nfa_with, state_after};
use aho_corasick::links::{DEAD, FAIL};
use aho_corasick::noncontiguous::NFA;
use aho_core::search::{Anchored, MatchKind, PatternID, StateID};
use std::alloc::{AllocError, Global};
use std::process::Abort;
use std::test::Fail;

/// A state of a worked table of links, by its word: the word of its link, none where that is DEAD, and what it lists.
struct Link {
    word: &'static [u8],
    link: Option<&'static [u8]>,
    matches: &'static [usize],
}

const STANDARD: &[Link] = &[
    Link {
        word: b"a",
        link: Some(b""),
        matches: &[],
    },
    Link {
        word: b"ab",
        link: Some(b""),
        matches: &[],
    },
    Link {
        word: b"abc",
        link: Some(b"c"),
        matches: &[],
    },
    Link {
        word: b"abcd",
        link: Some(b""),
        matches: &[0],
    },
    Link {
        word: b"c",
        link: Some(b""),
        matches: &[],
    },
    Link {
        word: b"ce",
        link: Some(b""),
        matches: &[],
    },
    Link {
        word: b"cef",
        link: Some(b""),
        matches: &[1],
    },
];

const LONGEST: &[Link] = &[
    Link {
        word: b"a",
        link: Some(b""),
        matches: &[],
    },
    Link {
        word: b"ab",
        link: Some(b"b"),
        matches: &[1],
    },
    Link {
        word: b"abc",
        link: Some(b"bc"),
        matches: &[],
    },
    Link {
        word: b"abcd",
        link: None,
        matches: &[0],
    },
    Link {
        word: b"b",
        link: None,
        matches: &[1],
    },
    Link {
        word: b"bc",
        link: None,
        matches: &[],
    },
    Link {
        word: b"bce",
        link: None,
        matches: &[2],
    },
];

/// The state of a word, and DEAD for none.
fn state_of(rt: &impl Abort, nfa: &NFA, word: Option<&[u8]>) -> StateID {
    match word {
        Some(word) => state_after(rt, nfa, Anchored::No, word),
        None => DEAD,
    }
}

/// The states tell what a worked table has.
fn tells(rt: &impl Abort, alloc: Global, nfa: &NFA, table: &[Link]) -> Result<(), Fail> {
    for row in table {
        let sid = state_after(rt, nfa, Anchored::No, row.word);
        assert!(rt; sid.as_usize() < nfa.states_len());
        assert_same_in(rt, &row.word, nfa.depth(sid), row.word.len());
        assert_same_in(rt, &row.word, nfa.fail(sid), state_of(rt, nfa, row.link));
        let mut patterns = Vec::new(alloc);
        for pattern in nfa.matches(sid) {
            patterns.push(pattern.as_usize())?;
        }
        assert_same_in(rt, &row.word, patterns.as_slice(), row.matches);
        assert_same_in(
            rt,
            &row.word,
            listed(alloc, nfa, sid)?.as_slice(),
            row.matches,
        );
    }
    Ok(())
}

#[test]
fn links_are_those_of_the_worked_tables(rt: HostRuntime) -> Result<(), Fail> {
    let alloc = rt.alloc();
    let words: [&[u8]; 2] = [b"abcd", b"cef"];
    let nfa = nfa_of(&rt, alloc, &words, MatchKind::Standard, false);
    tells(&rt, alloc, &nfa, STANDARD)?;
    let words: [&[u8]; 3] = [b"abcd", b"b", b"bce"];
    let nfa = nfa_of(&rt, alloc, &words, MatchKind::LeftmostLongest, false);
    tells(&rt, alloc, &nfa, LONGEST)
}

/// The transitions of a state.
fn transitions_of(alloc: Global, nfa: &NFA, sid: StateID) -> Result<Vec<(u8, StateID)>, AllocError>
    requires within { sid < length (states_of nfa.now) }
{
    nfa.transitions(sid).collect(alloc)
}

/// A state of the automaton of "abc" tells what it should: how many transitions, its pattern, and its link.
fn state_is_told(rt: &impl Abort, alloc: Global, nfa: &NFA, sid: StateID) -> Result<(), AllocError>
    requires within { sid < length (states_of nfa.now) }
{
    let special = *nfa.special();
    let (root, anchored) = (special.start_unanchored_id, special.start_anchored_id);
    let is_whole = nfa.depth(sid) == 3;
    let is_full = sid == DEAD || sid == root || sid == anchored;
    let count = match (is_full, sid == FAIL || is_whole) {
        (true, _) => 256,
        (false, true) => 0,
        (false, false) => 1,
    };
    let case = ("state", sid.as_usize());
    assert_same_in(rt, &case, transitions_of(alloc, nfa, sid)?.len(), count);
    assert_same(
        rt,
        matches_len(alloc, nfa, sid)?,
        if is_whole { 1 } else { 0 },
    );
    let link = if is_full || sid == FAIL { DEAD } else { root };
    assert_same_in(rt, &case, nfa.fail(sid), link);
    Ok(())
}

/// How many patterns a state lists.
fn matches_len(alloc: Global, nfa: &NFA, sid: StateID) -> Result<usize, AllocError>
    requires within { sid < length (states_of nfa.now) }
{
    let matches: Vec<PatternID> = nfa.matches(sid).collect(alloc)?;
    Ok(matches.len())
}

/// The depths of all states, from the least.
fn depths_of(alloc: Global, nfa: &NFA) -> Result<Vec<usize>, AllocError> {
    let mut depths = Vec::new(alloc);
    for index in 0..nfa.states_len() {
        depths.push(nfa.depth(StateID::new_unchecked(index)))?;
    }
    depths.sort()?;
    Ok(depths)
}

/// The states of the automaton of "abc" tell what they should.
fn states_are_told(rt: &impl Abort, alloc: Global, nfa: &NFA) -> Result<(), AllocError> {
    assert_same(rt, nfa.states_len(), 7);
    for index in 0..nfa.states_len() {
        state_is_told(rt, alloc, nfa, StateID::new_unchecked(index))?;
    }
    let depths = depths_of(alloc, nfa)?;
    assert_same(rt, depths.as_slice(), [0, 0, 0, 0, 1, 2, 3].as_slice());
    Ok(())
}

#[test]
fn the_states_of_one_pattern_are_told(rt: HostRuntime) -> Result<(), Fail> {
    let alloc = rt.alloc();
    let nfa = nfa_with(&rt, alloc, &[b"abc"], MatchKind::Standard, false, false, 3);
    states_are_told(&rt, alloc, &nfa)?;
    assert_same(&rt, nfa.byte_classes().alphabet_len(), 5);
    assert_same(&rt, nfa.pattern_lens().len(), 1);
    Ok(())
}

#[test]
fn full_states_lead_by_every_byte(rt: HostRuntime) -> Result<(), Fail> {
    let alloc = rt.alloc();
    let words: [&[u8]; 2] = [b"B", b""];
    for (kind, back_to_root) in [
        (MatchKind::Standard, true),
        (MatchKind::LeftmostFirst, false),
    ] {
        let nfa = nfa_of(&rt, alloc, &words, kind, true);
        let special = *nfa.special();
        let node = state_after(&rt, &nfa, Anchored::No, b"b");
        let (root, anchored) = (special.start_unanchored_id, special.start_anchored_id);
        let back = if back_to_root { root } else { DEAD };
        for (sid, other) in [(DEAD, DEAD), (root, back), (anchored, FAIL)] {
            assert!(&rt; sid.as_usize() < nfa.states_len());
            for (byte, next) in nfa.transitions(sid) {
                let leads = sid != DEAD && (byte == b'b' || byte == b'B');
                assert_same_in(&rt, (&kind, &byte), next, if leads { node } else { other });
            }
        }
    }
    Ok(())
}
