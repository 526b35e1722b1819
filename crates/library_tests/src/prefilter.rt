//! Prefilters: the worked table, and when which one is held.

use crate::asserts::{assert_same, assert_same_in};
use aho_core::search::{Input, Match, MatchKind, PatternID, Span};
use aho_prefilter::prefilter::{Candidate, PackedBuilder, Prefilter, PrefilterBuilder};
use bench::callers::{automaton_of, find_by, packed_prefilter_of};
use bench::pattern_set::PatternSet;
use bench::plain::plain;
use std::alloc::{AllocError, Global};
use std::process::Abort;
use std::test::Fail;

/// The prefilter for these patterns, if there is one.
fn prefilter_of(
    alloc: Global,
    patterns: &[&[u8]],
    ignore_case: bool,
) -> Result<Option<Prefilter>, AllocError> {
    let mut builder = PrefilterBuilder::new(alloc, ignore_case);
    for pattern in patterns {
        builder.add(pattern)?;
    }
    builder.build()
}

/// The prefilter for these patterns where it may be a packed search, if there is one.
fn packed_of(
    alloc: Global,
    patterns: &[&[u8]],
    ignore_case: bool,
) -> Result<Option<Prefilter>, AllocError> {
    let mut builder = PackedBuilder::new(alloc, ignore_case);
    for pattern in patterns {
        builder.add(pattern)?;
    }
    builder.build()
}

/// At how many bytes it stops, each alone in a haystack.
fn stops(prefilter: &Prefilter) -> usize {
    let whole = Span { start: 0, end: 1 };
    (0..=255u8)
        .filter(|byte| {
            let haystack = [*byte];
            prefilter.find_in(&haystack, whole).into_option().is_some()
        })
        .count()
}

/// What a prefilter of some patterns answers for a haystack up to a place.
struct Row {
    patterns: &'static [&'static [u8]],
    ignore_case: bool,
    /// At how many bytes it stops, each alone, and how many bytes it holds.
    stops: usize,
    memory: usize,
    haystack: &'static [u8],
    end: usize,
    /// Where a match starts or may start.
    place: Option<usize>,
}

const ROWS: &[Row] = &[
    Row {
        patterns: &[b"aab"],
        ignore_case: false,
        stops: 0,
        memory: 3,
        haystack: b"xaaab",
        end: 5,
        place: Some(2),
    },
    Row {
        patterns: &[b"aab"],
        ignore_case: false,
        stops: 0,
        memory: 3,
        haystack: b"xaaab",
        end: 4,
        place: None,
    },
    Row {
        patterns: &[b"ab", b"cd"],
        ignore_case: false,
        stops: 2,
        memory: 0,
        haystack: b"xxcx",
        end: 4,
        place: Some(2),
    },
    Row {
        patterns: &[b"Sam"],
        ignore_case: true,
        stops: 2,
        memory: 0,
        haystack: b"xsam",
        end: 4,
        place: Some(1),
    },
    Row {
        patterns: &[b"1a"],
        ignore_case: true,
        stops: 1,
        memory: 0,
        haystack: b"a1",
        end: 2,
        place: Some(1),
    },
    Row {
        patterns: &[b"ab", b"1"],
        ignore_case: true,
        stops: 3,
        memory: 0,
        haystack: b"xyz",
        end: 3,
        place: None,
    },
];

/// That a prefilter holds and answers what the row says.
fn look_at_row(rt: &impl Abort, prefilter: &Prefilter, row: &Row) {
    assert_same_in(rt, &row.patterns, stops(prefilter), row.stops);
    assert_same_in(rt, &row.patterns, prefilter.memory_usage(), row.memory);
    let end = row.end;
    assert!(rt; end <= row.haystack.len());
    let candidate = prefilter.find_in(row.haystack, Span { start: 0, end });
    if let Candidate::Match(found) = &candidate {
        let whole = Span { start: 2, end: 5 };
        assert_same(rt, *found, Match::new(PatternID::new_unchecked(0), whole));
    }
    assert_same_in(rt, &row.patterns, candidate.into_option(), row.place);
}

#[test]
fn worked_candidates(rt: HostRuntime) -> Result<(), Fail> {
    for row in ROWS {
        let held = prefilter_of(rt.alloc(), row.patterns, row.ignore_case)?;
        let prefilter = held.expect(&rt, "a prefilter");
        look_at_row(&rt, &prefilter, row);
        look_at_row(&rt, &prefilter.try_clone()?, row);
    }
    Ok(())
}

#[test]
fn no_prefilter_is_held(rt: HostRuntime) -> Result<(), Fail> {
    let four: [&[u8]; 2] = [b"ab", b"cd"];
    assert!(&rt; prefilter_of(rt.alloc(), &four, true)?.is_none());
    let empty: [&[u8]; 2] = [b"a", b""];
    assert!(&rt; prefilter_of(rt.alloc(), &empty, false)?.is_none());
    assert!(&rt; prefilter_of(rt.alloc(), &[], false)?.is_none());
    Ok(())
}

/// Whether a packed search is held for so many patterns.
fn are_held_packed(alloc: Global, count: u8) -> Result<bool, AllocError> {
    let mut builder = PackedBuilder::new(alloc, false);
    for number in 0..count {
        builder.add(&[number, 1])?;
    }
    Ok(builder.build()?.is_some())
}

#[test]
fn a_packed_search_is_held_for_a_hundred(rt: HostRuntime) -> Result<(), Fail> {
    assert!(&rt; are_held_packed(rt.alloc(), 100)?);
    assert!(&rt; !are_held_packed(rt.alloc(), 101)?);
    assert!(&rt; packed_of(rt.alloc(), &[], true)?.is_none());
    let short: [&[u8]; 4] = [b"ab", b"cd", b"ef", b"g"];
    assert!(&rt; packed_of(rt.alloc(), &short, false)?.is_none());
    let four = packed_of(rt.alloc(), &short[..2], true)?;
    let held = four.expect(&rt, "a prefilter");
    let candidate = held.find_in(b"xxCD", Span { start: 0, end: 4 });
    assert_same(&rt, candidate.into_option(), Some(2));
    Ok(())
}

#[test]
fn a_packed_search_comes_before_the_first_bytes_of_words(rt: HostRuntime) -> Result<(), Fail> {
    let span = Span { start: 0, end: 4 };
    let words = packed_of(rt.alloc(), &[b"ab", b"cd"], false)?.expect(&rt, "a prefilter");
    assert_same(&rt, words.find_in(b"xxcx", span).into_option(), None);
    let marks = packed_of(rt.alloc(), &[b"<b", b"[i"], false)?.expect(&rt, "a prefilter");
    assert_same(&rt, marks.find_in(b"xx[x", span).into_option(), Some(2));
    Ok(())
}

/// Letters that stand often in texts.
const LETTERS: &[u8; 9] = b"etaoinsrh";

/// A word of six bytes: a number and five letters, or letters alone, which stand often in texts.
fn word_of(number: u8, is_common: bool) -> [u8; 6] {
    if !is_common {
        return [number, b'a', b'b', b'c', b'd', b'e'];
    }
    let (first, second) = ((number % 9) as usize, (number / 9) as usize);
    [
        LETTERS[first],
        LETTERS[second % 9],
        LETTERS[second * 2 % 9],
        LETTERS[second * 4 % 9],
        LETTERS[second * 5 % 9],
        LETTERS[second * 7 % 9],
    ]
}

/// The quickest prefilter of so many patterns of so many bytes, six at most.
fn quickest_of(
    alloc: Global,
    count: u8,
    len: usize,
    is_common: bool,
    ignore_case: bool,
) -> Result<Option<Prefilter>, AllocError> {
    let mut words = Vec::new(alloc);
    for number in 0..count {
        words.push(word_of(number, is_common))?;
    }
    let mut patterns: Vec<&[u8]> = Vec::new(alloc);
    for word in &words {
        patterns.push(&word[..len.min(word.len())])?;
    }
    Prefilter::quickest(alloc, ignore_case, patterns.as_slice())
}

/// By what such a prefilter searches. A packed search stops where three bytes are those of a pattern, one with heads does not.
fn searches_by(held: Option<Prefilter>) -> &'static str {
    let Some(prefilter) = held else {
        return "none";
    };
    if prefilter.memory_usage() > 0 {
        return "strided";
    }
    let begun = prefilter.find_in(b"\x00ab...", Span { start: 0, end: 6 });
    if begun.into_option().is_some() {
        "packed"
    } else {
        "packed with heads"
    }
}

#[test]
fn the_quickest_is_held_by_number_and_length(rt: HostRuntime) -> Result<(), Fail> {
    let rows: [(u8, usize, &str); 8] = [
        (7, 3, "packed"),
        (7, 4, "packed with heads"),
        (32, 6, "packed with heads"),
        (33, 5, "packed with heads"),
        (33, 6, "packed with heads"),
        (100, 5, "packed with heads"),
        (101, 4, "packed with heads"),
        (255, 6, "packed with heads"),
    ];
    for (count, len, wanted) in &rows {
        let held = quickest_of(rt.alloc(), *count, *len, false, false)?;
        assert_same(&rt, searches_by(held), *wanted);
    }
    Ok(())
}

#[test]
fn where_many_places_meet_none_with_heads_is_held(rt: HostRuntime) -> Result<(), Fail> {
    let rows: [(u8, usize, &str); 4] = [
        (101, 2, "none"),
        (101, 4, "none"),
        (101, 5, "strided"),
        (255, 6, "strided"),
    ];
    for (count, len, wanted) in &rows {
        let held = quickest_of(rt.alloc(), *count, *len, true, false)?;
        assert_same(&rt, searches_by(held), *wanted);
    }
    Ok(())
}

#[test]
fn a_strided_search_holds_its_tables(rt: HostRuntime) -> Result<(), Fail> {
    let few = quickest_of(rt.alloc(), 100, 6, false, false)?.expect(&rt, "a prefilter");
    assert_same(&rt, few.memory_usage(), 0);
    let both_cases = quickest_of(rt.alloc(), 101, 6, true, true)?.expect(&rt, "a prefilter");
    assert_same(&rt, both_cases.memory_usage(), 8 * (909 + 101));
    let many = quickest_of(rt.alloc(), 101, 6, true, false)?.expect(&rt, "a prefilter");
    assert_same(&rt, many.memory_usage(), 8 * (909 + 101));
    Ok(())
}

#[test]
fn a_strided_search_stops_where_a_pattern_stands(rt: HostRuntime) -> Result<(), Fail> {
    let held = quickest_of(rt.alloc(), 101, 6, true, false)?.expect(&rt, "a prefilter");
    let short = held.find_in(b"..eeeeee", Span { start: 0, end: 8 });
    assert_same(&rt, short.into_option(), Some(2));
    let cut = held.find_in(b"..eeeeee", Span { start: 0, end: 7 });
    assert_same(&rt, cut.into_option(), None);
    let long = b"......................................eeeeee";
    let found = held.find_in(long, Span { start: 1, end: 44 });
    assert_same(&rt, found.into_option(), Some(38));
    Ok(())
}

/// That the search of both cases answers alike with a packed search and by the plain program.
fn look_at_answer(
    rt: &impl Abort,
    alloc: Global,
    words: &[&[u8]],
    haystack: &[u8],
) -> Result<(), Fail> {
    let nfa = automaton_of(alloc, words)?;
    let held = packed_prefilter_of(alloc, words)?;
    assert!(rt; words.len() <= PatternID::MAX.as_usize());
    let patterns = PatternSet::new(words, MatchKind::LeftmostFirst, true);
    if let Some(prefilter) = held {
        let found = find_by(&nfa, &prefilter, haystack).expect(rt, "an answer");
        let best = plain(&patterns, &Input::new(haystack));
        assert_same_in(rt, &patterns, found, best);
    }
    Ok(())
}

#[test]
fn a_packed_search_finds_as_plainly(rt: HostRuntime) -> Result<(), Fail> {
    let words: [&[u8]; 4] = [b"ab", b"cd", b"efg", b"gh"];
    look_at_answer(&rt, rt.alloc(), &words, b"a@`[{AbxxCD")?;
    look_at_answer(&rt, rt.alloc(), &words, b"....................efEfGh")
}
