//! What a builder builds, and what its limits refuse.

ghost use Rattle.aho_core.specs.Patterns.{Patterns};

use crate::asserts::{assert_in, assert_same, assert_same_in};
use crate::automata::{builder_of, nfa_by, nfa_of};
use aho_automaton::automaton::Automaton;
use aho_corasick::noncontiguous::{Builder, Limits, NFA};
use aho_core::error::BuildError;
use aho_core::search::{Input, Match, MatchKind, PatternID};
use std::alloc::{AllocError, Global};
use std::process::Abort;
use std::test::Fail;

const NO_LIMITS: Limits = Limits {
    id: usize::MAX,
    pattern: usize::MAX,
    length: usize::MAX,
};

/// Up to which distance from the start states have rows: none, the first, those of a new builder, and all.
const DEPTHS: [usize; 4] = [0, 1, 3, usize::MAX];

/// Why these patterns are refused under these limits, where states up to this depth have rows; none where they are not.
fn refusal(alloc: Global, depth: usize, patterns: &[&[u8]], limits: Limits) -> Option<BuildError> {
    let mut builder = Builder::new();
    builder.limits(limits).dense_depth(depth);
    match builder.build(alloc, patterns.iter().copied()) {
        Ok(_nfa) => None,
        Err(error) => Some(error),
    }
}

/// These patterns are refused so under these limits, where states up to this depth have rows.
fn check_at(
    rt: &impl Abort,
    alloc: Global,
    (name, depth): (&str, usize),
    patterns: &[&[u8]],
    limits: Limits,
    want: &Option<BuildError>,
) {
    let refusal = refusal(alloc, depth, patterns, limits);
    let case = (name, "depth", depth, patterns, limits);
    assert_same_in(rt, &case, &refusal, want);
}

/// These patterns are refused so under these limits, whatever states have rows. A message tells the case by its name.
fn check(
    rt: &impl Abort,
    alloc: Global,
    name: &str,
    patterns: &[&[u8]],
    limits: Limits,
    want: Option<BuildError>,
) {
    for depth in DEPTHS {
        check_at(rt, alloc, (name, depth), patterns, limits, &want);
    }
}

/// A limit on indexes alone.
fn by_id(id: usize) -> Limits {
    Limits { id, ..NO_LIMITS }
}

/// A table would pass this limit by one.
fn is_full(max: u64) -> Option<BuildError> {
    Some(BuildError::StateIDOverflow {
        max,
        requested: max.saturating_add(1),
    })
}

/// A pattern so many times.
fn repeated(
    alloc: Global,
    pattern: &'static [u8],
    count: usize,
) -> Result<Vec<&'static [u8]>, AllocError> {
    let mut patterns = Vec::new(alloc);
    for _ in 0..count {
        patterns.push(pattern)?;
    }
    Ok(patterns)
}

/// The words that a word begins with, from the shortest, but the empty one.
fn beginnings(alloc: Global, word: &[u8]) -> Result<Vec<&[u8]>, AllocError> {
    let mut patterns = Vec::new(alloc);
    for last in 0..word.len() {
        patterns.push(&word[..last + 1])?;
    }
    Ok(patterns)
}

#[test]
fn indexes_are_limited(rt: HostRuntime) {
    let alloc = rt.alloc();
    check(
        &rt,
        alloc,
        "as many transitions as fit",
        &[b"abc"],
        by_id(770),
        None,
    );
    check(
        &rt,
        alloc,
        "a transition too many",
        &[b"abcd"],
        by_id(770),
        is_full(770),
    );
    check(
        &rt,
        alloc,
        "the starts' transitions fit",
        &[],
        by_id(768),
        None,
    );
    check(
        &rt,
        alloc,
        "no room for the starts' transitions",
        &[],
        by_id(767),
        is_full(767),
    );
    check(
        &rt,
        alloc,
        "no room for the starts",
        &[],
        by_id(2),
        is_full(2),
    );
}

#[test]
fn listed_patterns_are_limited(rt: HostRuntime) -> Result<(), Fail> {
    let alloc = rt.alloc();
    for (name, pattern, most) in [
        ("matches of one state", b"a".as_slice(), 768),
        ("matches of both starts", b"".as_slice(), 384),
    ] {
        let patterns = repeated(alloc, pattern, most)?;
        check(&rt, alloc, name, &patterns, by_id(768), None);
        let patterns = repeated(alloc, pattern, most + 1)?;
        check(&rt, alloc, name, &patterns, by_id(768), is_full(768));
    }
    Ok(())
}

/// The words that this one begins with are refused so, where indexes up to 1000 are allowed.
fn check_beginnings(
    rt: &impl Abort,
    alloc: Global,
    name: &str,
    word: &[u8],
    want: Option<BuildError>,
) -> Result<(), AllocError> {
    let patterns = beginnings(alloc, word)?;
    check(rt, alloc, name, &patterns, by_id(1000), want);
    Ok(())
}

#[test]
fn copied_matches_are_limited(rt: HostRuntime) -> Result<(), Fail> {
    let (name, word) = ("as many copied matches as fit", [b'a'; 44]);
    check_beginnings(&rt, rt.alloc(), name, &word, None)?;
    let (name, word) = ("a copied match too many", [b'a'; 45]);
    check_beginnings(&rt, rt.alloc(), name, &word, is_full(1000))?;
    Ok(())
}

/// A row would start here, past this limit.
fn is_past(max: u64, requested: u64) -> Option<BuildError> {
    Some(BuildError::StateIDOverflow { max, requested })
}

#[test]
fn starts_of_rows_are_limited(rt: HostRuntime) -> Result<(), Fail> {
    let alloc = rt.alloc();
    let mut bytes = [0; 256];
    for byte in 0..256u16 {
        bytes[byte as usize] = byte as u8;
    }
    let mut patterns: Vec<&[u8]> = Vec::new(alloc);
    for byte in &bytes {
        patterns.push(std::slice::from_ref(byte))?;
    }
    // The rows of the two starts and of the 256 states start at 1, 257, .., 65793.
    for (id, want) in [
        (1000, is_past(1000, 1025)),
        (65792, is_past(65792, 65793)),
        (65793, None),
    ] {
        for depth in [1, 3] {
            let refusal = refusal(alloc, depth, &patterns, by_id(id));
            assert_same_in(&rt, ("depth", &depth, &id), &refusal, &want);
        }
        let refusal = refusal(alloc, 0, &patterns, by_id(id));
        assert_same_in(&rt, ("no rows", &id), refusal, None);
    }
    Ok(())
}

/// A pattern is longer than this limit.
fn is_too_long(number: usize, len: usize, max: usize) -> Result<Option<BuildError>, Fail> {
    let pattern = PatternID::new(number)?;
    Ok(Some(BuildError::PatternTooLong { pattern, len, max }))
}

#[test]
fn lengths_are_limited(rt: HostRuntime) -> Result<(), Fail> {
    let alloc = rt.alloc();
    let short = Limits {
        length: 2,
        ..NO_LIMITS
    };
    check(
        &rt,
        alloc,
        "as long as allowed",
        &[b"ab", b"ab"],
        short,
        None,
    );
    check(
        &rt,
        alloc,
        "a byte too long",
        &[b"ab", b"abc"],
        short,
        is_too_long(1, 3, 2)?,
    );
    Ok(())
}

#[test]
fn numbers_are_limited_before_lengths(rt: HostRuntime) -> Result<(), Fail> {
    let alloc = rt.alloc();
    let one = Limits {
        pattern: 0,
        ..NO_LIMITS
    };
    let one_short = Limits { length: 2, ..one };
    let one_more = Some(BuildError::PatternIDOverflow {
        max: 0,
        requested: 1,
    });
    check(&rt, alloc, "one pattern", &[b"a"], one, None);
    check(
        &rt,
        alloc,
        "a pattern too many",
        &[b"a", b"b"],
        one,
        one_more.clone()?,
    );
    check(
        &rt,
        alloc,
        "the first too long",
        &[b"abc", b"b"],
        one_short,
        is_too_long(0, 3, 2)?,
    );
    check(
        &rt,
        alloc,
        "the one too many too long",
        &[b"a", b"abc"],
        one_short,
        one_more,
    );
    Ok(())
}

/// A match, from the number of the pattern on.
type Found = (usize, usize, usize);

fn found_of(m: Match) -> Found {
    (m.pattern().as_usize(), m.start(), m.end())
}

/// The automaton of these patterns finds this first. A message tells the case.
fn finds_first<A: Automaton>(
    rt: &impl Abort,
    name: &str,
    patterns: &[&[u8]],
    automaton: &A,
    haystack: &[u8],
    want: Option<Found>,
)
    requires of { (p : Patterns) × A.is_of automaton.now p }
{
    let answer = automaton.try_find(&Input::new(haystack));
    let found = answer.expect(rt, "an answer").map(found_of);
    let case = (name, automaton.match_kind(), patterns, haystack);
    assert_same_in(rt, &case, found, want);
}

/// A builder's automaton of these patterns finds this first. A message tells the case by its name.
fn check_found(
    rt: &impl Abort,
    alloc: Global,
    (name, builder): (&str, &Builder),
    patterns: &[&[u8]],
    haystack: &[u8],
    want: Option<Found>,
) {
    let nfa = nfa_by(rt, alloc, builder, patterns);
    finds_first(rt, name, patterns, &nfa, haystack, want);
}

/// A builder that refused a pattern, since its states would pass a limit.
fn refused_builder(rt: &impl Abort, alloc: Global) -> Builder {
    let mut builder = Builder::new();
    builder.limits(by_id(770));
    let patterns: [&[u8]; 1] = [b"abcd"];
    let is_refused = builder.build(alloc, patterns.iter().copied()).is_err();
    let case = ("Standard", &patterns, "with states up to 770");
    assert_in(rt, case, is_refused);
    builder
}

#[test]
fn a_builder_that_refused_builds_again(rt: HostRuntime) {
    let alloc = rt.alloc();
    let builder = refused_builder(&rt, alloc);
    let again = ("built after a refusal", &builder);
    check_found(&rt, alloc, again, &[b"abc"], b"xabc", Some((0, 1, 4)));
    check_found(&rt, alloc, again, &[b"", b"abc"], b"abc", Some((0, 0, 0)));
}

/// Patterns of which the last is found by a new builder's automaton.
const CASED: &[&[u8]] = &[b"abc", b"AB", b"ab"];

/// A new builder's automaton finds the first match that ends, with regard to case.
fn is_new(rt: &impl Abort, alloc: Global, name: &str, builder: Builder) {
    let want = Some((2, 0, 2));
    check_found(rt, alloc, (name, &builder), CASED, b"abc", want);
}

/// What a new automaton tells of itself.
fn tells_as_new<A: Automaton>(rt: &impl Abort, automaton: &A) {
    assert_same_in(rt, "NFA::new", automaton.match_kind(), MatchKind::Standard);
    assert_same_in(rt, "NFA::new", automaton.patterns_len(), 3);
}

#[test]
fn a_new_builder_is_standard_with_regard_to_case(rt: HostRuntime) -> Result<(), Fail> {
    let alloc = rt.alloc();
    is_new(&rt, alloc, "Builder::new", Builder::new());
    is_new(&rt, alloc, "Builder::default", Builder::default());
    is_new(&rt, alloc, "NFA::builder", NFA::builder());
    is_new(&rt, alloc, "a clone", NFA::builder().clone()?);
    tells_as_new(&rt, &NFA::new(alloc, CASED.iter().copied())?);
    Ok(())
}

/// The clones of a builder that was set to the least number, and then to the longest.
fn clones_in_between() -> Result<(Builder, Builder), AllocError> {
    let mut builder = Builder::new();
    builder.match_kind(MatchKind::LeftmostFirst);
    let first = builder.clone()?;
    builder.match_kind(MatchKind::LeftmostLongest);
    let longest = builder.clone()?;
    Ok((first, longest))
}

/// A builder's automaton finds this first where each of three patterns matches under some settings.
fn is_set(rt: &impl Abort, alloc: Global, name: &str, builder: Builder, want: Found) {
    let patterns: [&[u8]; 3] = [b"abc", b"AB", b"abcd"];
    check_found(rt, alloc, (name, &builder), &patterns, b"abcd", Some(want));
}

#[test]
fn a_builder_builds_as_it_is_set(rt: HostRuntime) -> Result<(), Fail> {
    let alloc = rt.alloc();
    let (first, longest) = clones_in_between()?;
    is_set(&rt, alloc, "set to the least number", first, (0, 0, 3));
    is_set(&rt, alloc, "set to the longest", longest, (2, 0, 4));
    let both = builder_of(MatchKind::Standard, true);
    is_set(&rt, alloc, "set to both cases", both, (1, 0, 2));
    is_set(&rt, alloc, "set back to one case", set_back(), (0, 0, 3));
    Ok(())
}

/// A builder that was set to both cases and to few patterns, and then back.
fn set_back() -> Builder {
    let mut builder = builder_of(MatchKind::Standard, true);
    builder.limits(Limits {
        pattern: 1,
        ..NO_LIMITS
    });
    builder.ascii_case_insensitive(false).limits(NO_LIMITS);
    builder
}

/// The clone is as large as its original, and tells this of its patterns.
fn is_as_large<A: Automaton>(rt: &impl Abort, clone: &A, original: &A) {
    assert_same(rt, clone.memory_usage(), original.memory_usage());
    let lens = (clone.min_pattern_len(), clone.max_pattern_len());
    assert_same(rt, (lens, clone.patterns_len()), ((2, 4), 3));
}

/// The clone of the automaton of these patterns.
fn clone_of(rt: &impl Abort, alloc: Global, patterns: &[&[u8]]) -> NFA
    ensures of { (p : Patterns) × ⟦<NFA as Automaton>⟧.is_of result p }
{
    let nfa = nfa_of(rt, alloc, patterns, MatchKind::LeftmostLongest, true);
    let clone = nfa.try_clone().expect(rt, "memory for a clone");
    is_as_large(rt, &clone, &nfa);
    clone
}

#[test]
fn a_clone_is_as_large_and_finds_as_much(rt: HostRuntime) {
    let patterns: [&[u8]; 3] = [b"abc", b"AB", b"abcd"];
    let clone = clone_of(&rt, rt.alloc(), &patterns);
    finds_first(
        &rt,
        "a clone of",
        &patterns,
        &clone,
        b"xABCDx",
        Some((2, 1, 5)),
    );
    finds_first(&rt, "a clone of", &patterns, &clone, b"xAxBxx", None);
}
