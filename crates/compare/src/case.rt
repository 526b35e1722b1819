//! The patterns and the text of a round.

ghost use Rattle.std.specs.Prelude.{◌<◌};

use crate::hostile::{Family, Made, fibonacci, nested, periodic};
use aho_core::search::MatchKind;
use anyhow::Result;
use bench::numbers::Numbers;
use std::alloc::{AllocError, Global};

/// What is searched for, and where.
#[derive(Drop)]
pub(crate) struct Case {
    patterns: Vec<Vec<u8>>,
    text: Vec<u8>,
    kind: MatchKind,
    ignore_case: bool,
}

const KINDS: [MatchKind; 3] = [
    MatchKind::Standard,
    MatchKind::LeftmostFirst,
    MatchKind::LeftmostLongest,
];

/// The letters of which patterns and texts are made. A letter may have several bytes.
const ALPHABETS: [&[&[u8]]; 8] = [
    &[b"a", b"b"],
    &[b"a", b"b"],
    &[b"a", b"b", b"c"],
    &[b"a", b"A", b"b", b"B"],
    &[b"e", b"t", b"a", b"o", b"i", b"n", b" "],
    &[b"a", b"\xc3\xa9", b"\xc3\xa8", b"\xe2\x82\xac"],
    &[
        b"a", b"\x00", b"\xff", b"\x80", b"@", b"[", b"`", b"{", b"Z", b"z",
    ],
    &[
        b"a", b"b", b"c", b"d", b"e", b"f", b"g", b"h", b"i", b"j", b"k", b"l", b"m", b"n", b"o",
        b"p",
    ],
];

/// Bytes with which patterns may begin, that are in few texts or in none.
const FIRST: [u8; 5] = *b"#QzeA";

/// How long texts are.
const SIZES: [usize; 8] = [0, 6, 20, 30, 40, 60, 90, 160];

/// How patterns and texts are made.
#[derive(Clone, Copy)]
struct Making {
    letters: &'static [&'static [u8]],
    /// Where patterns begin with few bytes: the first of these, and how many there are.
    first: Option<(usize, usize)>,
    /// Whether some patterns may be empty.
    empty: bool,
    /// Whether each pattern has two or three letters. A packed search looks at as many, so a cut of a read falls between them.
    short: bool,
    /// Whether there are many patterns, each with five letters or more: for these a strided search may be held.
    long: bool,
    /// The greatest number of letters of most patterns.
    most: usize,
}

impl Making {
    /// The way that these numbers lead to.
    fn new(numbers: &mut Numbers) -> Making {
        let first = (numbers.below(5), 1 + numbers.below(3));
        Making {
            letters: ALPHABETS[numbers.below(8)],
            first: if numbers.once_in(2) {
                Some(first)
            } else {
                None
            },
            empty: numbers.once_in(8),
            short: numbers.once_in(4),
            long: numbers.once_in(12),
            most: 1 + numbers.below(7),
        }
    }

    /// Adds a letter.
    fn push_letter(&self, numbers: &mut Numbers, bytes: &mut Vec<u8>) -> Result<(), AllocError> {
        let at = numbers.below(16);
        let count = self.letters.len().max(1);
        bytes.extend_from_slice(self.letters.get(at % count).unwrap_or(&b"a".as_slice()))
    }

    /// Adds so many letters.
    fn push_letters(
        &self,
        numbers: &mut Numbers,
        count: usize,
        bytes: &mut Vec<u8>,
    ) -> Result<(), AllocError> {
        for _ in 0..count {
            self.push_letter(numbers, bytes)?;
        }
        Ok(())
    }

    /// How many letters the next pattern has.
    fn size(&self, numbers: &mut Numbers) -> usize {
        if numbers.once_in(12) {
            return numbers.below(40);
        }
        numbers.below(8).min(self.most)
    }

    /// The next pattern, which may have a part of an earlier one.
    fn pattern(
        &self,
        alloc: Global,
        numbers: &mut Numbers,
        earlier: &[Vec<u8>],
    ) -> Result<Vec<u8>, AllocError> {
        let mut pattern = Vec::new(alloc);
        if self.long {
            let size = 5 + numbers.below(8).min(self.most);
            self.push_letters(numbers, size, &mut pattern)?;
            return Ok(pattern);
        }
        if self.short {
            let size = 2 + numbers.below(2);
            self.push_letters(numbers, size, &mut pattern)?;
            return Ok(pattern);
        }
        if self.empty && numbers.once_in(3) {
            return Ok(pattern);
        }
        if let Some((at, count)) = self.first {
            let at = at.saturating_add(numbers.below(3).min(count.saturating_sub(1)));
            pattern.push(FIRST[at % 5])?;
        }
        if numbers.once_in(3) {
            pattern.extend_from_slice(part_of_some(numbers, earlier))?;
        }
        let size = self.size(numbers);
        self.push_letters(numbers, size, &mut pattern)?;
        if pattern.is_empty() {
            self.push_letter(numbers, &mut pattern)?;
        }
        Ok(pattern)
    }

    /// How many patterns there are: one, few, some, or about as many as a packed search is held for. There are 28 to 127 long ones.
    fn count(&self, numbers: &mut Numbers) -> usize {
        if self.long {
            return 28 + numbers.below(100);
        }
        match numbers.below(16) {
            0 | 1 | 2 => 1,
            3 | 4 => 3 + numbers.below(20),
            5 => 95 + numbers.below(10),
            _ => numbers.below(7),
        }
    }

    /// The patterns.
    fn patterns(&self, alloc: Global, numbers: &mut Numbers) -> Result<Vec<Vec<u8>>, AllocError> {
        let mut patterns = Vec::new(alloc);
        for _ in 0..self.count(numbers) {
            let pattern = self.pattern(alloc, numbers, patterns.as_slice())?;
            patterns.push(pattern)?;
        }
        Ok(patterns)
    }

    /// Adds a pattern, a part of one, or letters to the text.
    fn push_more(
        &self,
        numbers: &mut Numbers,
        patterns: &[Vec<u8>],
        text: &mut Vec<u8>,
    ) -> Result<(), AllocError> {
        match numbers.below(4) {
            0 => text.extend_from_slice(some_of(numbers, patterns)),
            1 => text.extend_from_slice(part_of_some(numbers, patterns)),
            2 => {
                let count = numbers.below(24);
                self.push_letters(numbers, count, text)
            }
            _ => self.push_letter(numbers, text),
        }
    }

    /// The text, which has some of the patterns and beginnings of them.
    fn text(
        &self,
        alloc: Global,
        numbers: &mut Numbers,
        patterns: &[Vec<u8>],
    ) -> Result<Vec<u8>, AllocError> {
        let most = if patterns.len() > 12 { 6 } else { 8 };
        let size = SIZES[numbers.below(most)];
        let mut text = Vec::new(alloc);
        for _ in 0..size {
            if text.len() < size {
                self.push_more(numbers, patterns, &mut text)?;
            }
        }
        Ok(text)
    }
}

/// One of these, or nothing where there is none.
fn some_of<'w>(numbers: &mut Numbers, words: &'w [Vec<u8>]) -> &'w [u8] {
    match words.get(numbers.below(words.len().max(1))) {
        Some(word) => word.as_slice(),
        None => &[],
    }
}

/// A part of one of these.
fn part_of_some<'w>(numbers: &mut Numbers, words: &'w [Vec<u8>]) -> &'w [u8] {
    let word = some_of(numbers, words);
    let start = numbers.below(word.len().max(1)).min(numbers.below(4));
    let end = numbers.below(word.len().saturating_add(1));
    word.get(start..end).unwrap_or(&[])
}

/// Some patterns of random letters, and a text that is made for them.
fn random(alloc: Global, numbers: &mut Numbers) -> Result<Made, AllocError> {
    let making = Making::new(numbers);
    let patterns = making.patterns(alloc, numbers)?;
    let text = making.text(alloc, numbers, patterns.as_slice())?;
    Ok(Made { patterns, text })
}

impl Case {
    /// The case of this seed and this family.
    pub(crate) fn new(alloc: Global, seed: u64, family: Family) -> Result<Case, AllocError> {
        let mut numbers = Numbers::new(seed);
        let made = match family {
            Family::Random => random(alloc, &mut numbers)?,
            Family::Nested => nested(alloc, &mut numbers)?,
            Family::Periodic => periodic(alloc, &mut numbers)?,
            Family::Fibonacci => fibonacci(alloc, &mut numbers)?,
        };
        Ok(Case {
            patterns: made.patterns,
            text: made.text,
            kind: KINDS[numbers.below(3)],
            ignore_case: numbers.once_in(3),
        })
    }

    /// What is searched for.
    pub(crate) fn patterns(&self) -> &[Vec<u8>] {
        self.patterns.as_slice()
    }

    /// Where it is searched for.
    pub(crate) fn text(&self) -> &[u8] {
        self.text.as_slice()
    }

    /// Which of several matches is found.
    pub(crate) fn kind(&self) -> MatchKind {
        self.kind
    }

    /// Whether an ASCII letter is the same in both cases.
    pub(crate) fn ignore_case(&self) -> bool {
        self.ignore_case
    }
}

/// These bytes as a Rust literal has them.
pub(crate) fn shown(alloc: Global, bytes: &[u8]) -> Result<String, AllocError> {
    let mut shown = String::new(alloc);
    shown.push('"')?;
    for byte in bytes {
        if (byte.is_ascii_graphic() || *byte == b' ') && *byte != b'"' && *byte != b'\\' {
            shown.push(char::from(*byte))?;
        } else {
            shown.push_str(format!(in alloc; "\\x{byte:02x}")?.as_str())?;
        }
    }
    shown.push('"')?;
    Ok(shown)
}
