//! Every text of up to six letters over two letters, at every span.

ghost use Rattle.std.specs.Prelude.{◌+◌, ◌≤◌, length};
ghost use Rattle.aho_core.specs.Patterns.{Patterns};

use crate::automata::{BUDGETS, DEPTHS, automaton_of};
use crate::count::Count;
use crate::memory::{iterate, list, search};
use aho_automaton::automaton::Automaton;
use aho_core::search::{Anchored, Input, MatchKind, PatternID, Span};
use aho_hybrid::hybrid::Hybrid;
use anyhow::{Result, bail};
use bench::pattern_set::PatternSet;
use std::alloc::Global;

/// Some patterns, to be searched for in texts over two letters.
struct Row {
    name: &'static str,
    patterns: &'static [&'static [u8]],
    ignore_case: bool,
    letters: [u8; 2],
}

const ROWS: &[Row] = &[
    Row {
        name: "no patterns",
        patterns: &[],
        ignore_case: false,
        letters: *b"ab",
    },
    Row {
        name: "an empty pattern",
        patterns: &[b"", b"ab"],
        ignore_case: false,
        letters: *b"ab",
    },
    Row {
        name: "each pattern twice or a part of another",
        patterns: &[b"ab", b"", b"ab", b"", b"a"],
        ignore_case: false,
        letters: *b"ab",
    },
    Row {
        name: "one pattern",
        patterns: &[b"aab"],
        ignore_case: false,
        letters: *b"ab",
    },
    Row {
        name: "patterns that end others",
        patterns: &[b"aab", b"ab", b"b", b"aabb", b"ba"],
        ignore_case: false,
        letters: *b"ab",
    },
    Row {
        name: "runs of one letter",
        patterns: &[b"a", b"aa", b"aaa", b"baaa", b"abab"],
        ignore_case: false,
        letters: *b"ab",
    },
    Row {
        name: "patterns that overlap",
        patterns: &[b"abba", b"bb", b"bab", b"bbaa"],
        ignore_case: false,
        letters: *b"ab",
    },
    Row {
        name: "both cases, one pattern in four spellings",
        patterns: &[b"aA", b"Aa", b"AAA", b"a"],
        ignore_case: true,
        letters: *b"aA",
    },
    Row {
        name: "both cases, with an empty pattern",
        patterns: &[b"aAB", b"BA", b"ab", b""],
        ignore_case: true,
        letters: *b"Ab",
    },
    Row {
        name: "with regard to case",
        patterns: &[b"aAB", b"AB", b"Ab", b"abaa"],
        ignore_case: false,
        letters: *b"Ab",
    },
];

const KINDS: [MatchKind; 3] = [
    MatchKind::Standard,
    MatchKind::LeftmostFirst,
    MatchKind::LeftmostLongest,
];

/// The sizes of texts, and how many there are of each.
const SIZES: [(usize, usize); 7] = [(0, 1), (1, 2), (2, 4), (3, 8), (4, 16), (5, 32), (6, 64)];

/// Compares each kind of search of one span.
fn compare_span<A: Automaton>(
    alloc: Global,
    automaton: &A,
    patterns: &PatternSet<'_>,
    text: &[u8],
    span: Span,
    has_anchored: bool,
    count: &mut Count,
) -> Result<()>
    requires of { (p : Patterns) × A.is_of automaton.now p }
    requires within { span.end ≤ length text.now }
    requires ordered { span.start ≤ span.end + 1 }
{
    for anchored in [Anchored::No, Anchored::Yes] {
        for earliest in [false, true] {
            let input = Input::new(text)
                .span(span)
                .anchored(anchored)
                .earliest(earliest);
            search(automaton, patterns, &input, has_anchored, count)?;
            if text.len() < 5 {
                iterate(alloc, automaton, patterns, input, has_anchored, count)?;
            }
        }
        let is_listed = anchored == Anchored::No || has_anchored;
        if is_listed && automaton.match_kind() == MatchKind::Standard {
            let input = Input::new(text).span(span).anchored(anchored);
            list(alloc, automaton, patterns, &input, count)?;
        }
    }
    Ok(())
}

/// Compares every span of a text.
fn compare_text<A: Automaton>(
    alloc: Global,
    automaton: &A,
    patterns: &PatternSet<'_>,
    text: &[u8],
    has_anchored: bool,
    count: &mut Count,
) -> Result<()>
    requires of { (p : Patterns) × A.is_of automaton.now p }
{
    for end in 0..=text.len() {
        for start in 0..=end + 1 {
            let span = Span { start, end };
            compare_span(alloc, automaton, patterns, text, span, has_anchored, count)?;
        }
    }
    Ok(())
}

/// The text of this number: its binary digits as letters, from the last one on.
fn text_of(number: usize, letters: [u8; 2]) -> [u8; 6] {
    let [zero, one] = letters;
    let mut rest = number;
    let mut text = [zero; 6];
    for byte in text.iter_mut() {
        if rest % 2 == 1 {
            *byte = one;
        }
        rest /= 2;
    }
    text
}

/// Compares every text over these letters.
fn compare_texts<A: Automaton>(
    alloc: Global,
    automaton: &A,
    patterns: &PatternSet<'_>,
    letters: [u8; 2],
    has_anchored: bool,
    count: &mut Count,
) -> Result<()>
    requires of { (p : Patterns) × A.is_of automaton.now p }
{
    for (size, texts) in SIZES {
        for number in 0..texts {
            let text = text_of(number, letters);
            let text = text.get(..size).unwrap_or(&text);
            compare_text(alloc, automaton, patterns, text, has_anchored, count)?;
        }
    }
    Ok(())
}

/// Compares every text over a row's letters by one automaton of its patterns, and by one with rows that is made of it.
fn compare_row(
    alloc: Global,
    row: &Row,
    kind: MatchKind,
    setting: usize,
    count: &mut Count,
) -> Result<()> {
    if row.patterns.len() > PatternID::MAX.as_usize() {
        bail!("too many patterns");
    }
    let patterns = PatternSet::new(row.patterns, kind, row.ignore_case);
    // A prefilter and rows have nothing to do with each other, so half of the pairs will do.
    let prefilter = setting % 2 == 1;
    let depth = DEPTHS[setting % 4];
    let nfa = automaton_of(alloc, row.patterns, kind, row.ignore_case, prefilter, depth)?;
    compare_texts(alloc, &nfa, &patterns, row.letters, true, count)?;
    let hybrid = Hybrid::with_budget(alloc, &nfa, BUDGETS[setting % 5])?;
    compare_texts(alloc, &hybrid, &patterns, row.letters, false, count)
}

/// Compares every short text for the patterns of each row, at each match kind and under several settings.
pub(crate) fn compare_short(alloc: Global, count: &mut Count) -> Result<()> {
    for row in ROWS {
        for kind in KINDS {
            for setting in 0..4 {
                let compared = compare_row(alloc, row, kind, setting, count);
                compared.map_err(|error| error.context(row.name))?;
            }
        }
    }
    Ok(())
}
