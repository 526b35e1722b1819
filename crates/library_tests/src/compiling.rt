//! How large a build becomes: which patterns share states, which are left out, and which states have dense rows.

use crate::asserts::assert_same_in;
use aho_automaton::automaton::Automaton;
use aho_corasick::noncontiguous::Builder;
use aho_core::search::{Input, MatchKind};
use std::test::Fail;

#[test]
fn a_letter_leads_by_both_cases(rt: HostRuntime) -> Result<(), Fail> {
    let alloc = rt.alloc();
    let patterns: [&[u8]; 2] = [b"ab", b"aB"];
    let mut builder = Builder::new();
    builder.ascii_case_insensitive(true).dense_depth(0);
    let nfa = builder.build(alloc, patterns.iter().copied())?;
    // Six states, 769 + 2 transitions, 1 + 2 listed patterns and two lengths.
    assert_same_in(
        &rt,
        (&patterns, "without regard to case"),
        nfa.memory_usage(),
        7095,
    );
    for haystack in [b"ab", b"aB", b"Ab", b"AB"] {
        let found = nfa.try_find(&Input::new(haystack))?;
        let place = found.map(|m| (m.pattern().as_usize(), m.start(), m.end()));
        assert_same_in(&rt, (&patterns, "in", &haystack), place, Some((0, 0, 2)));
    }
    Ok(())
}

#[test]
fn a_pattern_behind_a_prefix_adds_no_state(rt: HostRuntime) -> Result<(), Fail> {
    let alloc = rt.alloc();
    let patterns: [&[u8]; 2] = [b"a", b"ab"];
    for (kind, memory) in [
        (MatchKind::Standard, 7086),
        (MatchKind::LeftmostFirst, 7049),
        (MatchKind::LeftmostLongest, 7086),
    ] {
        let mut builder = Builder::new();
        builder.match_kind(kind).dense_depth(0);
        let nfa = builder.build(alloc, patterns.iter().copied())?;
        let case = (&patterns, "by", &kind);
        assert_same_in(&rt, &case, nfa.memory_usage(), memory);
        assert_same_in(&rt, &case, nfa.patterns_len(), 2);
    }
    Ok(())
}

/// Patterns, and the bytes of their automaton at a depth of dense rows, with a prefilter where they can have one or without.
struct Sum {
    kind: MatchKind,
    patterns: &'static [&'static [u8]],
    prefilter: bool,
    dense_depth: usize,
    memory: usize,
}

const SUMS: &[Sum] = &[
    Sum {
        kind: MatchKind::Standard,
        patterns: &[b"abc"],
        prefilter: false,
        dense_depth: 0,
        memory: 7103,
    },
    Sum {
        kind: MatchKind::LeftmostLongest,
        patterns: &[b"abc"],
        prefilter: false,
        dense_depth: 1,
        memory: 7163,
    },
    Sum {
        kind: MatchKind::Standard,
        patterns: &[b"abc"],
        prefilter: false,
        dense_depth: 3,
        memory: 7203,
    },
    Sum {
        kind: MatchKind::LeftmostFirst,
        patterns: &[b"abc"],
        prefilter: false,
        dense_depth: usize::MAX,
        memory: 7203,
    },
    Sum {
        kind: MatchKind::Standard,
        patterns: &[b"", b"ab"],
        prefilter: false,
        dense_depth: 3,
        memory: 7174,
    },
    Sum {
        kind: MatchKind::LeftmostFirst,
        patterns: &[b"", b"xyz"],
        prefilter: false,
        dense_depth: 3,
        memory: 7045,
    },
    Sum {
        kind: MatchKind::Standard,
        patterns: &[b"", b"ab"],
        prefilter: true,
        dense_depth: 0,
        memory: 7110,
    },
    Sum {
        kind: MatchKind::Standard,
        patterns: &[b"abc"],
        prefilter: true,
        dense_depth: 0,
        memory: 7106,
    },
    Sum {
        kind: MatchKind::Standard,
        patterns: &[b"abc"],
        prefilter: true,
        dense_depth: 1,
        memory: 7166,
    },
];

#[test]
fn rows_and_prefilters_take_memory(rt: HostRuntime) -> Result<(), Fail> {
    for sum in SUMS {
        let mut builder = Builder::new();
        builder
            .match_kind(sum.kind)
            .prefilter(sum.prefilter)
            .dense_depth(sum.dense_depth);
        let nfa = builder.build(rt.alloc(), sum.patterns.iter().copied())?;
        let case = (sum.kind, sum.patterns, sum.prefilter, sum.dense_depth);
        assert_same_in(&rt, &case, nfa.memory_usage(), sum.memory);
        assert_same_in(&rt, &case, nfa.try_clone()?.memory_usage(), sum.memory);
    }
    Ok(())
}
