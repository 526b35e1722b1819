//! Covers in memory: worked rows, and what is refused.

ghost use Rattle.aho_core.specs.Patterns.{Patterns};

use crate::asserts::{assert_same, assert_same_in};
use crate::automata::nfa_of;
use aho_automaton::automaton::Automaton;
use aho_core::error::{MatchError, ReplaceError};
use aho_core::search::MatchKind;
use std::alloc::Global;
use std::process::Abort;
use std::test::Fail;

/// A haystack with its cover: the pieces are `<0>`, `<1>` and `<2>`.
struct Row {
    name: &'static str,
    patterns: &'static [&'static [u8]],
    haystack: &'static [u8],
    cover: &'static [u8],
}

const ROWS: &[Row] = &[
    Row {
        name: "two that overlap",
        patterns: &[b"ab", b"bcd"],
        haystack: b"abcd",
        cover: b"<0>",
    },
    Row {
        name: "one that ends later begins before the other",
        patterns: &[b"b", b"abc"],
        haystack: b"xabc",
        cover: b"x<1>",
    },
    Row {
        name: "two that touch",
        patterns: &[b"cd", b"ab"],
        haystack: b"xabcdx",
        cover: b"x<1>x",
    },
    Row {
        name: "one that joins two runs",
        patterns: &[b"cd", b"ab", b"abxcde"],
        haystack: b"yabxcdezabxcd",
        cover: b"y<2>z<1>x<0>",
    },
    Row {
        name: "nothing",
        patterns: &[b"a"],
        haystack: b"bcd",
        cover: b"bcd",
    },
];

/// The automaton covers a row's haystack.
fn row_is_covered<A: Automaton>(
    rt: &impl Abort,
    alloc: Global,
    row: &Row,
    automaton: &A,
) -> Result<(), Fail>
    requires of { (p : Patterns) × A.is_of automaton.now p }
{
    let all: [&[u8]; 3] = [b"<0>", b"<1>", b"<2>"];
    let pieces = &all[..row.patterns.len().min(3)];
    assert_eq!(rt; pieces.len(), automaton.patterns_len());
    let bytes = automaton.try_cover_all_bytes(alloc, row.haystack, pieces)?;
    assert_same_in(rt, &row.name, bytes.as_slice(), row.cover);
    Ok(())
}

#[test]
fn rows_are_covered(rt: HostRuntime) -> Result<(), Fail> {
    for row in ROWS {
        let nfa = nfa_of(&rt, rt.alloc(), row.patterns, MatchKind::Standard, false);
        row_is_covered(&rt, rt.alloc(), row, &nfa)?;
    }
    Ok(())
}

/// The automaton refuses a cover so.
fn refuses<A: Automaton>(
    rt: &impl Abort,
    alloc: Global,
    automaton: &A,
    refusal: MatchError,
) -> Result<(), Fail>
    requires of { (p : Patterns) × A.is_of automaton.now p }
{
    let answer = automaton.try_cover_iter(alloc, b"a");
    assert_same(rt, answer.err(), Some(ReplaceError::Match(refusal)));
    Ok(())
}

#[test]
fn leftmost_kinds_are_refused(rt: HostRuntime) -> Result<(), Fail> {
    let nfa = nfa_of(&rt, rt.alloc(), &[b"a"], MatchKind::LeftmostFirst, false);
    let refusal = MatchError::unsupported_overlapping(MatchKind::LeftmostFirst);
    refuses(&rt, rt.alloc(), &nfa, refusal)
}

#[test]
fn empty_patterns_are_refused(rt: HostRuntime) -> Result<(), Fail> {
    let nfa = nfa_of(&rt, rt.alloc(), &[b"a", b""], MatchKind::Standard, false);
    refuses(&rt, rt.alloc(), &nfa, MatchError::unsupported_empty())
}
