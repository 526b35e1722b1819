//! Patterns and texts that are the same in each run, with which the calls of a round are made as well.

use crate::count::Count;
use crate::parts::Parts;
use crate::round::{Searched, compare_words};
use aho_core::search::MatchKind;
use anyhow::Result;
use std::alloc::Global;

/// Patterns, and texts to be searched for them.
struct Row {
    name: &'static str,
    patterns: &'static [&'static [u8]],
    texts: &'static [&'static [u8]],
}

/// Short texts over two letters.
const SHORT: &[&[u8]] = &[
    b"", b"a", b"b", b"ab", b"ba", b"aa", b"aab", b"aba", b"abb", b"bab", b"abab", b"aabb",
    b"ababa", b"bbaab",
];

/// Texts with letters of two and three bytes.
const LETTERS: &[&[u8]] = &[
    b"",
    b"a",
    b"\xc3\xa9",
    b"a\xc3\xa9",
    b"\xc3\xa9a",
    b"\xc3\xa9\xc3\xa9",
    b"a\xc3\xa9a",
    b"\xc3\xa9a\xc3\xa9",
    b"a\xc3\xa9\xc3\xa8a",
    b"\xe6\x97\xa5a\xe6\x9c\xac",
];

const ROWS: &[Row] = &[
    Row {
        name: "an empty pattern and two letters",
        patterns: &[b"", b"ab"],
        texts: SHORT,
    },
    Row {
        name: "patterns of one letter and of two",
        patterns: &[b"a", b"bb"],
        texts: SHORT,
    },
    Row {
        name: "patterns that begin others",
        patterns: &[b"ab", b"a", b"abab", b"ba"],
        texts: SHORT,
    },
    Row {
        name: "parts of letters",
        patterns: &[b"\xc3", b"\xa9", b"\xa9a", b"\x97"],
        texts: LETTERS,
    },
    Row {
        name: "letters and parts of them",
        patterns: &[b"\xc3\xa9", b"", b"\xa9", b"\xe6\x9c\xac", b"a"],
        texts: LETTERS,
    },
    Row {
        name: "words with an empty one, and bytes that are no letters",
        patterns: &[
            b"samwise",
            b"sam",
            b"wise",
            b"amw",
            b"\x00\xff",
            b"\xff",
            b"ise",
            b"mwisest",
            b"estate",
            b"",
        ],
        texts: &[b"samwisestate\x00\xffSAM", b"samwisest"],
    },
    Row {
        name: "the same words without the empty one",
        patterns: &[
            b"samwise",
            b"sam",
            b"wise",
            b"amw",
            b"\x00\xff",
            b"\xff",
            b"ise",
            b"mwisest",
            b"estate",
        ],
        texts: &[b"samwisestate\x00\xffSAM", b"xsamwise samX sam"],
    },
    Row {
        name: "no patterns",
        patterns: &[],
        texts: &[b"", b"abc", b"samwisestate\x00\xffSAM"],
    },
    Row {
        name: "streams",
        patterns: &[b"fox", b"brown", b"quick"],
        texts: &[b"The quick brown fox."],
    },
    Row {
        name: "pairs in a run",
        patterns: &[b"aa"],
        texts: &[b"aaaaa"],
    },
    Row {
        name: "a word that begins late",
        patterns: &[b"aab"],
        texts: &[b"xaaaabaxaaabaab.....aab"],
    },
    Row {
        name: "a walk that falls back",
        patterns: &[b"aaab"],
        texts: &[b"aaaaaaaa"],
    },
    Row {
        name: "words that begin others",
        patterns: &[b"samwise", b"sam", b"wise"],
        texts: &[b"xsamwise samX sam"],
    },
    Row {
        name: "parts of one another",
        patterns: &[b"abcd", b"ab", b"bcd", b"c", b"dab"],
        texts: &[b"abcabcddabxabcdab"],
    },
    Row {
        name: "runs and a word",
        patterns: &[b"a", b"aa", b"aaa", b"baa", b"b", b"cab"],
        texts: &[b"aaaabaaacabaa"],
    },
];

const KINDS: [MatchKind; 3] = [
    MatchKind::Standard,
    MatchKind::LeftmostFirst,
    MatchKind::LeftmostLongest,
];

/// Compares the calls of a row's texts, at each match kind and under both case rules.
fn compare_row(alloc: Global, row: &Row, parts: Parts, count: &mut Count) -> Result<()> {
    for text in row.texts {
        for kind in KINDS {
            for ignore_case in [false, true] {
                let searched = Searched {
                    text,
                    kind,
                    ignore_case,
                };
                compare_words(alloc, count.calls(), parts, searched, row.patterns, count)?;
            }
        }
    }
    Ok(())
}

/// Compares the calls of each row.
pub(crate) fn compare_fixed(alloc: Global, parts: Parts, count: &mut Count) -> Result<()> {
    for row in ROWS {
        let compared = compare_row(alloc, row, parts, count);
        compared.map_err(|error| error.context(row.name))?;
    }
    Ok(())
}
