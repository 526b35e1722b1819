//! Streams of the leftmost kinds: worked rows, and patterns that begin one another.

ghost use Rattle.aho_core.specs.Patterns.{Patterns};

use crate::asserts::{assert_in, assert_same_in};
use crate::automata::nfa_of;
use crate::stream::automata::{Setting, Trial, try_over_each};
use crate::stream::scripted::{ScriptedSource, Turn};
use crate::stream::stream_finds::{ONE_BYTE, Told, found_of, told_under};
use crate::stream::streams::{Far, behind, written};
use aho_automaton::automaton::Automaton;
use aho_core::error::StreamError;
use aho_core::search::{Input, MatchKind, PatternID};
use bench::listing::finds;
use bench::pattern_set::PatternSet;
use std::alloc::{AllocError, Global};
use std::fmt::Debug;
use std::process::Abort;
use std::test::Fail;

/// What a call of a stream tells: a pattern's number with a range, or a fault.
#[derive(Clone, Copy, PartialEq)]
enum Item {
    Match(usize, usize, usize),
    Read,
    Limit,
    Other,
}

/// A stream, its reads, how many bytes it may give, and what is told of it.
#[derive(Clone, Copy)]
struct Row {
    kind: MatchKind,
    patterns: &'static [&'static [u8]],
    given: &'static [u8],
    reads: &'static [Turn],
    limit: u64,
    told: &'static [Item],
}

const SAM: &[&[u8]] = &[b"samwise", b"sam"];

/// A stream of "samwise" or "sam", which may give so many bytes.
fn sam(given: &'static [u8], reads: &'static [Turn], limit: u64, told: &'static [Item]) -> Row {
    Row {
        kind: MatchKind::LeftmostFirst,
        patterns: SAM,
        given,
        reads,
        limit,
        told,
    }
}

const FAILS_ONCE: &[Turn] = &[Turn::Move(3), Turn::Fail, Turn::Move(4)];

fn rows() -> [Row; 8] {
    [
        sam(b"xsamwise", ONE_BYTE, 100, &[Item::Match(0, 1, 8)]),
        sam(
            b"samwise",
            FAILS_ONCE,
            100,
            &[Item::Read, Item::Match(0, 0, 7)],
        ),
        sam(b"samwise!", &[], 3, &[Item::Limit]),
        sam(b"samwise!", &[], 7, &[Item::Limit]),
        sam(b"samwise!", &[], 8, &[Item::Match(0, 0, 7), Item::Limit]),
        sam(b"samX", &[], 4, &[Item::Match(1, 0, 3), Item::Limit]),
        Row {
            kind: MatchKind::LeftmostLongest,
            patterns: &[b"abcd", b"ab", b"c"],
            given: b"abcx",
            reads: &[],
            limit: 100,
            told: &[Item::Match(1, 0, 2), Item::Match(2, 2, 3)],
        },
        Row {
            kind: MatchKind::LeftmostFirst,
            patterns: &[b"a"],
            given: b"a",
            reads: &[],
            limit: 100,
            told: &[Item::Match(0, 0, 1)],
        },
    ]
}

/// What is told, without the fault's own words.
fn item_of(told: &Result<(usize, usize, usize), StreamError>) -> Item {
    match told {
        Ok((number, start, end)) => Item::Match(*number, *start, *end),
        Err(StreamError::Read(_)) => Item::Read,
        Err(StreamError::PositionLimit) => Item::Limit,
        Err(_) => Item::Other,
    }
}

/// What the stream of a row tells.
fn items_of<A: Automaton>(alloc: Global, automaton: &A, row: &Row) -> Result<Vec<Item>, Fail>
    requires of { (p : Patterns) × A.is_of automaton.now p }
{
    let mut source = ScriptedSource::new(row.given, row.reads);
    let told = told_under(alloc, automaton, &mut source, row.limit)?;
    let mut items = Vec::new(alloc);
    for item in &told.items {
        items.push(item_of(item))?;
    }
    Ok(items)
}

/// The stream of a row tells what is wanted.
impl Trial for Row {
    fn run<H: Abort, A: Automaton>(
        &self,
        rt: &H,
        alloc: Global,
        automaton: &A,
        setting: Setting,
    ) -> Result<(), Fail> {
        let items = items_of(alloc, automaton, self)?;
        let case = (setting, self.given, self.limit);
        assert_in(rt, case, items.as_slice() == self.told);
        Ok(())
    }
}

#[test]
fn a_leftmost_match_waits_until_it_is_settled(rt: HostRuntime) -> Result<(), Fail> {
    for row in rows() {
        try_over_each(&rt, rt.alloc(), row.patterns, row.kind, &row)?;
    }
    Ok(())
}

/// So many bytes of "abcx" are walked.
#[derive(Clone, Copy)]
struct WalksAgain {
    position: u128,
}

impl Trial for WalksAgain {
    fn run<H: Abort, A: Automaton>(
        &self,
        rt: &H,
        alloc: Global,
        automaton: &A,
        setting: Setting,
    ) -> Result<(), Fail> {
        let mut source = ScriptedSource::new(b"abcx", &[]);
        let told = told_under(alloc, automaton, &mut source, 100)?;
        assert_same_in(rt, setting, told.position, self.position);
        Ok(())
    }
}

#[test]
fn the_walk_starts_again_behind_a_match(rt: HostRuntime) -> Result<(), Fail> {
    let words: [&[u8]; 3] = [b"abcd", b"ab", b"c"];
    let trial = WalksAgain { position: 7 };
    try_over_each(&rt, rt.alloc(), &words, MatchKind::LeftmostLongest, &trial)
}

/// This is written in the place of "samwi", which comes byte by byte.
#[derive(Clone, Copy)]
struct IsReplaced {
    written: &'static [u8],
}

impl Trial for IsReplaced {
    fn run<H: Abort, A: Automaton>(
        &self,
        rt: &H,
        alloc: Global,
        automaton: &A,
        setting: Setting,
    ) -> Result<(), Fail> {
        let written = written(rt, alloc, automaton, &[b"A", b"B"], b"samwi", ONE_BYTE)?;
        assert_same_in(rt, setting, written.as_slice(), self.written);
        Ok(())
    }
}

#[test]
fn leftmost_matches_are_replaced(rt: HostRuntime) -> Result<(), Fail> {
    let trial = IsReplaced { written: b"Bwi" };
    try_over_each(&rt, rt.alloc(), SAM, MatchKind::LeftmostFirst, &trial)
}

#[test]
fn a_leftmost_match_behind_a_buffer_is_replaced(rt: HostRuntime) -> Result<(), Fail> {
    let words: [&[u8]; 2] = [b"foobarbaz", b"foo"];
    let given = behind(rt.alloc(), 65_530, b"foobarqux")?;
    let written = behind(rt.alloc(), 65_530, b"Bbarqux")?;
    let trial = Far {
        given: given.as_slice(),
        place: (1, 65_530, 65_533),
        pieces: &[b"A", b"B"],
        written: written.as_slice(),
    };
    try_over_each(&rt, rt.alloc(), &words, MatchKind::LeftmostLongest, &trial)
}

/// The matches of plain iteration over these bytes.
fn plainly_found(
    alloc: Global,
    patterns: &PatternSet<'_>,
    bytes: &[u8],
) -> Result<Vec<(usize, usize, usize)>, AllocError> {
    let mut found = Vec::new(alloc);
    for m in finds(alloc, patterns, Input::new(bytes))? {
        found.push(found_of(m))?;
    }
    Ok(found)
}

/// The matches that are told are these. A message tells the case.
fn has_matches<C: Debug + Drop>(
    rt: &impl Abort,
    case: C,
    told: &Told,
    wanted: &[(usize, usize, usize)],
) {
    let matches = told.items.iter().filter_map(|item| item.as_ref().ok());
    assert_in(rt, case, matches.eq(wanted.iter()));
}

/// The beginnings of a word, by length.
fn beginnings<'w>(alloc: Global, word: &'w [u8]) -> Result<Vec<&'w [u8]>, AllocError> {
    let mut beginnings = Vec::new(alloc);
    for count in 1..=word.len() {
        beginnings.push(&word[..count])?;
    }
    Ok(beginnings)
}

/// These matches are told of bytes that come one by one, though each walk goes over the bytes behind a match again.
fn walks_again<A: Automaton>(
    rt: &impl Abort,
    alloc: Global,
    automaton: &A,
    kind: MatchKind,
    given: &[u8],
    wanted: &[(usize, usize, usize)],
) -> Result<(), Fail>
    requires of { (p : Patterns) × A.is_of automaton.now p }
{
    let mut source = ScriptedSource::new(given, ONE_BYTE);
    let told = told_under(alloc, automaton, &mut source, 1_000)?;
    has_matches(rt, &kind, &told, wanted);
    assert_in(rt, &kind, told.position <= 65 * 150);
    Ok(())
}

/// The matches of these words are told of these bytes.
fn is_walked_again(
    rt: &impl Abort,
    alloc: Global,
    words: &[&[u8]],
    kind: MatchKind,
    given: &[u8],
) -> Result<(), Fail> {
    assert!(rt; words.len() <= PatternID::MAX.as_usize());
    let patterns = PatternSet::new(words, kind, false);
    let wanted = plainly_found(alloc, &patterns, given)?;
    let nfa = nfa_of(rt, alloc, words, kind, false);
    walks_again(rt, alloc, &nfa, kind, given, &wanted)
}

#[test]
fn nested_patterns_are_walked_again(rt: HostRuntime) -> Result<(), Fail> {
    let words = beginnings(rt.alloc(), &[b'a'; 64])?;
    let given = vec![in rt.alloc(); b'a'; 150]?;
    for kind in [MatchKind::LeftmostFirst, MatchKind::LeftmostLongest] {
        is_walked_again(&rt, rt.alloc(), &words, kind, &given)?;
    }
    Ok(())
}
