//! The worked rows, which a reader can check by hand. One table.

use aho_core::search::{Anchored, MatchKind, Span};

/// A pattern's number, and where its match starts and ends.
pub(crate) type Found = (usize, usize, usize);

/// What is wanted of a row.
#[derive(Debug)]
pub(crate) enum Want {
    /// What the search answers.
    First(Option<Found>),
    /// What iteration gives, of which the first is what the search answers.
    Finds(&'static [Found]),
    /// What an overlapping search lists.
    Listing(&'static [Found]),
}

/// A search, at each of the match kinds, with what is wanted. No span is the whole haystack.
#[derive(Debug)]
pub(crate) struct Row {
    pub(crate) name: &'static str,
    pub(crate) kinds: &'static [MatchKind],
    pub(crate) patterns: &'static [&'static [u8]],
    pub(crate) ignore_case: bool,
    pub(crate) haystack: &'static [u8],
    pub(crate) span: Option<Span>,
    pub(crate) anchored: Anchored,
    pub(crate) earliest: bool,
    pub(crate) want: Want,
}

const STANDARD: &[MatchKind] = &[MatchKind::Standard];

const FIRST: &[MatchKind] = &[MatchKind::LeftmostFirst];

const LONGEST: &[MatchKind] = &[MatchKind::LeftmostLongest];

const LEFTMOST: &[MatchKind] = &[MatchKind::LeftmostFirst, MatchKind::LeftmostLongest];

const ANY: &[MatchKind] = &[
    MatchKind::Standard,
    MatchKind::LeftmostFirst,
    MatchKind::LeftmostLongest,
];

/// What a row leaves out.
const PLAIN: Row = Row {
    name: "",
    kinds: STANDARD,
    patterns: &[],
    ignore_case: false,
    haystack: b"",
    span: None,
    anchored: Anchored::No,
    earliest: false,
    want: Want::First(None),
};

pub(crate) const ROWS: &[Row] = &[
    Row {
        name: "the match that ends first",
        patterns: &[b"b", b"abc", b"abcd"],
        haystack: b"abcd",
        want: Want::First(Some((0, 1, 2))),
        ..PLAIN
    },
    Row {
        name: "a shorter pattern ends first",
        patterns: &[b"samwise", b"sam"],
        haystack: b"samwise",
        want: Want::First(Some((1, 0, 3))),
        ..PLAIN
    },
    Row {
        name: "the pattern of least number",
        kinds: FIRST,
        patterns: &[b"samwise", b"sam"],
        haystack: b"samwise",
        want: Want::First(Some((0, 0, 7))),
        ..PLAIN
    },
    Row {
        name: "overlapping matches by end, then start, then number",
        patterns: &[b"append", b"appendage", b"app"],
        haystack: b"append the app to the appendage",
        want: Want::Listing(&[
            (2, 0, 3),
            (0, 0, 6),
            (2, 11, 14),
            (2, 22, 25),
            (0, 22, 28),
            (1, 22, 31),
        ]),
        ..PLAIN
    },
    Row {
        name: "of two that end together the one that starts first",
        patterns: &[b"bc", b"abc"],
        haystack: b"abc",
        want: Want::First(Some((1, 0, 3))),
        ..PLAIN
    },
    Row {
        name: "iteration goes on at the end of a match",
        kinds: FIRST,
        patterns: &[b"abcd", b"b", b"bce", b"ce"],
        haystack: b"abce",
        want: Want::Finds(&[(1, 1, 2), (3, 2, 4)]),
        ..PLAIN
    },
    Row {
        name: "iteration over the longest matches",
        kinds: LONGEST,
        patterns: &[b"abcd", b"b", b"bce"],
        haystack: b"abce",
        want: Want::Finds(&[(2, 1, 4)]),
        ..PLAIN
    },
    Row {
        name: "an empty match before a later one",
        kinds: LONGEST,
        patterns: &[b"", b"ab", b"c"],
        haystack: b"ac",
        want: Want::First(Some((0, 0, 0))),
        ..PLAIN
    },
    Row {
        name: "empty matches at every place",
        kinds: FIRST,
        patterns: &[b"xyz", b""],
        haystack: b"xy",
        want: Want::Finds(&[(1, 0, 0), (1, 1, 1), (1, 2, 2)]),
        ..PLAIN
    },
    Row {
        name: "overlapping empty matches",
        patterns: &[b"", b"ab"],
        haystack: b"ab",
        want: Want::Listing(&[(0, 0, 0), (0, 1, 1), (1, 0, 2), (0, 2, 2)]),
        ..PLAIN
    },
    Row {
        name: "no empty match where a match has ended",
        kinds: LONGEST,
        patterns: &[b"", b"a"],
        haystack: b"ab",
        want: Want::Finds(&[(1, 0, 1), (0, 2, 2)]),
        ..PLAIN
    },
    Row {
        name: "the longest match",
        kinds: LONGEST,
        patterns: &[b"abcd", b"ab"],
        haystack: b"abcd",
        want: Want::First(Some((0, 0, 4))),
        ..PLAIN
    },
    Row {
        name: "the earliest match",
        kinds: LONGEST,
        patterns: &[b"abcd", b"ab"],
        haystack: b"abcd",
        earliest: true,
        want: Want::First(Some((1, 0, 2))),
        ..PLAIN
    },
    Row {
        name: "a span, anchored",
        kinds: LONGEST,
        patterns: &[b"ab", b"abcd"],
        haystack: b"xabcdy",
        span: Some(Span { start: 1, end: 4 }),
        anchored: Anchored::Yes,
        want: Want::First(Some((0, 1, 3))),
        ..PLAIN
    },
    Row {
        name: "no patterns",
        kinds: ANY,
        patterns: &[],
        haystack: b"ab",
        want: Want::First(None),
        ..PLAIN
    },
    Row {
        name: "a span that starts above its end",
        kinds: ANY,
        patterns: &[b""],
        haystack: b"ab",
        span: Some(Span { start: 3, end: 2 }),
        want: Want::First(None),
        ..PLAIN
    },
    Row {
        name: "iteration over a span that starts above its end",
        kinds: ANY,
        patterns: &[b"", b"a"],
        haystack: b"ab",
        span: Some(Span { start: 3, end: 2 }),
        want: Want::Finds(&[]),
        ..PLAIN
    },
    Row {
        name: "both cases of ASCII letters",
        patterns: &[b"apple", b"maple", b"snapple"],
        haystack: b"Nobody likes maple in their apple flavored Snapple.",
        ignore_case: true,
        want: Want::Finds(&[(1, 13, 18), (0, 28, 33), (2, 43, 50)]),
        ..PLAIN
    },
    Row {
        name: "a pattern at the end",
        patterns: &[b"aab"],
        haystack: b"xaaab",
        want: Want::First(Some((0, 2, 5))),
        ..PLAIN
    },
    Row {
        name: "overlapping, a pattern at the end",
        patterns: &[b"aab"],
        haystack: b"xaaab",
        want: Want::Listing(&[(0, 2, 5)]),
        ..PLAIN
    },
    Row {
        name: "anchored and overlapping, a match that starts later",
        patterns: &[b"abc", b"b"],
        haystack: b"abcb",
        anchored: Anchored::Yes,
        want: Want::Listing(&[(1, 1, 2), (0, 0, 3)]),
        ..PLAIN
    },
    Row {
        name: "a match after one that breaks off",
        patterns: &[b"abcd", b"cef"],
        haystack: b"abcef",
        want: Want::First(Some((1, 2, 5))),
        ..PLAIN
    },
    Row {
        name: "an empty pattern ends first",
        patterns: &[b"", b"ab"],
        haystack: b"ab",
        want: Want::First(Some((0, 0, 0))),
        ..PLAIN
    },
    Row {
        name: "a span that ends too soon",
        patterns: &[b"ab"],
        haystack: b"ab",
        span: Some(Span { start: 0, end: 1 }),
        want: Want::First(None),
        ..PLAIN
    },
    Row {
        name: "a match that starts before the last one seen",
        kinds: LEFTMOST,
        patterns: &[b"z", b"abcdefghi", b"hz", b"abcdefgh"],
        haystack: b"abcdefghz",
        want: Want::First(Some((3, 0, 8))),
        ..PLAIN
    },
    Row {
        name: "bytes of value zero",
        kinds: LEFTMOST,
        patterns: &[b"\x00\x00\x01", b"\x00\x00\x00"],
        haystack: b"\x00\x00\x00",
        want: Want::First(Some((1, 0, 3))),
        ..PLAIN
    },
    Row {
        name: "a short pattern of least number",
        kinds: FIRST,
        patterns: &[b"a", b"abcdefghi", b"hz", b"abcdefgh"],
        haystack: b"abcdefghz",
        want: Want::First(Some((0, 0, 1))),
        ..PLAIN
    },
    Row {
        name: "longer than an empty match",
        kinds: LONGEST,
        patterns: &[b"", b"ab", b"c"],
        haystack: b"ab",
        want: Want::First(Some((1, 0, 2))),
        ..PLAIN
    },
    Row {
        name: "an empty match that starts first",
        kinds: LONGEST,
        patterns: &[b"", b"ab", b"c"],
        haystack: b"xab",
        want: Want::First(Some((0, 0, 0))),
        ..PLAIN
    },
    Row {
        name: "an empty match where nothing else is",
        kinds: FIRST,
        patterns: &[b"xyz", b""],
        haystack: b"xy",
        want: Want::First(Some((1, 0, 0))),
        ..PLAIN
    },
    Row {
        name: "anchored, past a match that starts later",
        patterns: &[b"abc", b"b"],
        haystack: b"abcb",
        anchored: Anchored::Yes,
        want: Want::First(Some((0, 0, 3))),
        ..PLAIN
    },
    Row {
        name: "anchored before the match",
        patterns: &[b"b"],
        haystack: b"ab",
        anchored: Anchored::Yes,
        want: Want::First(None),
        ..PLAIN
    },
    Row {
        name: "anchored at the match",
        patterns: &[b"b"],
        haystack: b"ab",
        span: Some(Span { start: 1, end: 2 }),
        anchored: Anchored::Yes,
        want: Want::First(Some((0, 1, 2))),
        ..PLAIN
    },
    Row {
        name: "both cases, the pattern of least number",
        kinds: FIRST,
        patterns: &[b"A", b"ab"],
        haystack: b"AB",
        ignore_case: true,
        want: Want::First(Some((0, 0, 1))),
        ..PLAIN
    },
    Row {
        name: "both cases, patterns that are the same",
        patterns: &[b"aB", b"Ab"],
        haystack: b"AB",
        ignore_case: true,
        want: Want::First(Some((0, 0, 2))),
        ..PLAIN
    },
    Row {
        name: "a byte after the upper-case letters",
        patterns: &[b"["],
        haystack: b"{",
        ignore_case: true,
        want: Want::First(None),
        ..PLAIN
    },
    Row {
        name: "letters outside ASCII",
        patterns: &[b"\xC3\x89"],
        haystack: b"\xC3\xA9",
        ignore_case: true,
        want: Want::First(None),
        ..PLAIN
    },
    Row {
        name: "both cases, overlapping",
        patterns: &[b"", b"a"],
        haystack: b"A",
        ignore_case: true,
        want: Want::Listing(&[(0, 0, 0), (1, 0, 1), (0, 1, 1)]),
        ..PLAIN
    },
    Row {
        name: "two patterns that are equal",
        patterns: &[b"ab", b"ab"],
        haystack: b"ab",
        want: Want::Listing(&[(0, 0, 2), (1, 0, 2)]),
        ..PLAIN
    },
    Row {
        name: "anchored and overlapping, empty matches",
        patterns: &[b"", b"ab"],
        haystack: b"abx",
        anchored: Anchored::Yes,
        want: Want::Listing(&[(0, 0, 0), (0, 1, 1), (1, 0, 2), (0, 2, 2)]),
        ..PLAIN
    },
    Row {
        name: "anchored iteration",
        kinds: ANY,
        patterns: &[b"a"],
        haystack: b"aab",
        anchored: Anchored::Yes,
        want: Want::Finds(&[(0, 0, 1), (0, 1, 2)]),
        ..PLAIN
    },
];
