//! Two automata of the same patterns, of which the second has neither dense rows nor a prefilter: they answer the same, and
//! what they should.

ghost use Rattle.aho_core.specs.Patterns.{Patterns};

use crate::asserts::assert_same;
use aho_automaton::automaton::Automaton;
use aho_corasick::answers::{
    settings_do_not_change_answers, settings_do_not_change_finds,
    settings_do_not_change_overlapping_finds, settings_do_not_change_replaced_bytes,
    settings_do_not_change_replaced_text,
};
use aho_corasick::noncontiguous::NFA;
use aho_core::search::{Input, Match, MatchKind};
use bench::callers::{helpless_automaton, standard_automaton};
use std::alloc::{AllocError, Global};
use std::process::Abort;
use std::test::Fail;

/// A text in which both patterns of the tests stand, and they overlap.
const TEXT: &str = "abcef abcd";

/// Where the matches end, as a sum that each of them changes.
fn ends_of(matches: &[Match]) -> usize {
    let mut ends = 0_usize;
    for m in matches {
        ends = ends.wrapping_mul(100).wrapping_add(m.end());
    }
    ends
}

/// Each search of the two answers the same.
fn searches_agree(
    rt: &impl Abort,
    alloc: Global,
    first: &NFA,
    second: &NFA,
) -> Result<(), AllocError>
    requires of { (p : Patterns) × ⟦<NFA as Automaton>⟧.is_of first.now p
        × ⟦<NFA as Automaton>⟧.is_of second.now p }
{
    let input = Input::new(TEXT.as_bytes());
    let (one, other) = settings_do_not_change_answers(first, second, &input);
    assert_same(rt, one.map(|m| m.end()), Some(5));
    assert_same(rt, other.map(|m| m.end()), Some(5));
    let (ones, others) = settings_do_not_change_finds(alloc, first, second, &input)?;
    assert_same(rt, ends_of(&ones), 510);
    assert_same(rt, ends_of(&others), 510);
    assert!(rt; first.match_kind() == MatchKind::Standard);
    let text = TEXT.as_bytes();
    let (ones, others) = settings_do_not_change_overlapping_finds(alloc, first, second, text)?;
    assert_same(rt, ends_of(&ones), 510);
    assert_same(rt, ends_of(&others), 510);
    Ok(())
}

/// Each replacement by the two gives the same.
fn replacements_agree(
    rt: &impl Abort,
    alloc: Global,
    first: &NFA,
    second: &NFA,
) -> Result<(), AllocError>
    requires of { (p : Patterns) × ⟦<NFA as Automaton>⟧.is_of first.now p
        × ⟦<NFA as Automaton>⟧.is_of second.now p }
{
    assert!(rt; first.patterns_len() == 2);
    let texts: [&str; 2] = ["<0>", "<1>"];
    let (one, other) = settings_do_not_change_replaced_text(alloc, first, second, TEXT, &texts)?;
    assert_same(rt, one.as_str(), "ab<1> <0>");
    assert_same(rt, other.as_str(), "ab<1> <0>");
    let pieces: [&[u8]; 2] = [b"<0>", b"<1>"];
    let bytes = TEXT.as_bytes();
    let (one, other) = settings_do_not_change_replaced_bytes(alloc, first, second, bytes, &pieces)?;
    assert_same(rt, one.as_slice(), b"ab<1> <0>");
    assert_same(rt, other.as_slice(), b"ab<1> <0>");
    Ok(())
}

#[test]
fn settings_change_no_answer(rt: HostRuntime) -> Result<(), Fail> {
    let patterns: [&[u8]; 2] = [b"abcd", b"cef"];
    let first = standard_automaton(rt.alloc(), &patterns)?;
    let second = helpless_automaton(rt.alloc(), &patterns)?;
    searches_agree(&rt, rt.alloc(), &first, &second)?;
    replacements_agree(&rt, rt.alloc(), &first, &second)?;
    Ok(())
}
