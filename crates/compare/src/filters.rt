//! Each kind of prefilter, with and without the case rule, over spans of every length from 0 to 200 bytes.

use crate::candidates::compare_candidate;
use crate::count::Count;
use aho_core::search::{MatchKind, PatternID, Span};
use aho_prefilter::prefilter::Prefilter;
use anyhow::{Result, bail};
use bench::numbers::Numbers;
use bench::pattern_set::PatternSet;
use std::alloc::{AllocError, Global};

/// How many bytes the longest span has.
const LONGEST: usize = 200;

/// How many bytes stand before a span, and behind it.
const AROUND: usize = 9;

/// Patterns for which one kind of prefilter is held.
struct Row {
    name: &'static str,
    /// How many there are.
    count: usize,
    /// The bytes with which they begin, in turn, if not with any of the others.
    begins: &'static [u8],
    /// The bytes of which they are made: the first, and how many there are.
    letters: (u8, usize),
    /// How many of these the shortest has, and how many more the longest.
    sizes: (usize, usize),
    /// The bytes with which each of them ends.
    ends: &'static [u8],
}

const ROWS: &[Row] = &[
    Row {
        name: "the whole of a pattern",
        count: 1,
        begins: b"",
        letters: (b'a', 26),
        sizes: (4, 0),
        ends: b"",
    },
    Row {
        name: "one first byte",
        count: 3,
        begins: b"#",
        letters: (b'a', 26),
        sizes: (2, 5),
        ends: b"",
    },
    Row {
        name: "two first bytes",
        count: 4,
        begins: b"#<",
        letters: (b'a', 26),
        sizes: (2, 5),
        ends: b"",
    },
    Row {
        name: "three first bytes",
        count: 6,
        begins: b"#<[",
        letters: (b'a', 26),
        sizes: (2, 5),
        ends: b"",
    },
    Row {
        name: "a packed search",
        count: 7,
        begins: b"",
        letters: (b'a', 26),
        sizes: (2, 1),
        ends: b"",
    },
    Row {
        name: "both halves of four bytes, short patterns",
        count: 9,
        begins: b"",
        letters: (b'a', 26),
        sizes: (2, 3),
        ends: b"",
    },
    Row {
        name: "both halves of four bytes, a few patterns",
        count: 60,
        begins: b"",
        letters: (b'a', 26),
        sizes: (4, 8),
        ends: b"",
    },
    Row {
        name: "both halves of four bytes, where few places meet them",
        count: 150,
        begins: b"",
        letters: (0x80, 26),
        sizes: (3, 9),
        ends: b"q",
    },
    Row {
        name: "low halves of four bytes",
        count: 5,
        begins: b"",
        letters: (b'a', 26),
        sizes: (4, 8),
        ends: b"",
    },
    Row {
        name: "low halves of five bytes",
        count: 12,
        begins: b"",
        letters: (b'a', 26),
        sizes: (5, 8),
        ends: b"",
    },
    Row {
        name: "low halves of six bytes",
        count: 30,
        begins: b"",
        letters: (b'a', 26),
        sizes: (6, 12),
        ends: b"",
    },
    Row {
        name: "low halves of six bytes, long patterns",
        count: 30,
        begins: b"",
        letters: (b'a', 26),
        sizes: (16, 30),
        ends: b"",
    },
    Row {
        name: "strides of two places",
        count: 150,
        begins: b"",
        letters: (b'a', 26),
        sizes: (5, 6),
        ends: b"",
    },
    Row {
        name: "strides of three places",
        count: 150,
        begins: b"",
        letters: (b'a', 26),
        sizes: (6, 6),
        ends: b"",
    },
    Row {
        name: "strides of four places",
        count: 150,
        begins: b"",
        letters: (b'a', 26),
        sizes: (7, 6),
        ends: b"",
    },
    Row {
        name: "strides of five places",
        count: 150,
        begins: b"",
        letters: (b'a', 26),
        sizes: (8, 6),
        ends: b"",
    },
    Row {
        name: "strides of six places",
        count: 150,
        begins: b"",
        letters: (b'a', 26),
        sizes: (9, 6),
        ends: b"",
    },
    Row {
        name: "strides of seven places",
        count: 150,
        begins: b"",
        letters: (b'a', 26),
        sizes: (10, 6),
        ends: b"",
    },
    Row {
        name: "strides of eight places",
        count: 150,
        begins: b"",
        letters: (b'a', 26),
        sizes: (16, 16),
        ends: b"",
    },
    Row {
        name: "strides of long grams",
        count: 120,
        begins: b"",
        letters: (b'c', 4),
        sizes: (10, 4),
        ends: b"",
    },
    Row {
        name: "lines, strides of two places",
        count: 200,
        begins: b"",
        letters: (0, 256),
        sizes: (5, 3),
        ends: b"",
    },
    Row {
        name: "lines, strides of five places",
        count: 150,
        begins: b"",
        letters: (0, 256),
        sizes: (8, 0),
        ends: b"",
    },
    Row {
        name: "lines, strides of eight places",
        count: 120,
        begins: b"",
        letters: (0, 256),
        sizes: (16, 20),
        ends: b"",
    },
    Row {
        name: "windows, a's before a b",
        count: 5,
        begins: b"",
        letters: (b'a', 1),
        sizes: (3, 60),
        ends: b"b",
    },
    Row {
        name: "windows of words",
        count: 8,
        begins: b"eat",
        letters: (b'n', 2),
        sizes: (4, 9),
        ends: b"b",
    },
];

impl Row {
    /// Adds a byte of those of which the patterns are made.
    fn push_letter(&self, numbers: &mut Numbers, bytes: &mut Vec<u8>) -> Result<(), AllocError> {
        let (first, count) = self.letters;
        let step = numbers.below(count.max(1)) % 256;
        bytes.push(first.wrapping_add(step as u8))?;
        Ok(())
    }

    /// Adds so many of them.
    fn push_letters(
        &self,
        numbers: &mut Numbers,
        count: usize,
        bytes: &mut Vec<u8>,
    ) -> Result<(), AllocError> {
        for _ in 0..count {
            self.push_letter(numbers, bytes)?;
        }
        Ok(())
    }

    /// The pattern of this number.
    fn pattern(
        &self,
        alloc: Global,
        numbers: &mut Numbers,
        number: usize,
    ) -> Result<Vec<u8>, AllocError> {
        let mut pattern = Vec::new(alloc);
        if let Some(byte) = self.begins.get(number % self.begins.len().max(1)) {
            pattern.push(*byte)?;
        }
        let (least, more) = self.sizes;
        let size = least.saturating_add(numbers.below(more.saturating_add(1).max(1)));
        self.push_letters(numbers, size, &mut pattern)?;
        pattern.extend_from_slice(self.ends)?;
        Ok(pattern)
    }

    /// The patterns.
    fn patterns(&self, alloc: Global, numbers: &mut Numbers) -> Result<Vec<Vec<u8>>, AllocError> {
        let mut patterns = Vec::new(alloc);
        for number in 0..self.count {
            let pattern = self.pattern(alloc, numbers, number)?;
            patterns.push(pattern)?;
        }
        Ok(patterns)
    }

    /// Compares the prefilter of the row's patterns under a case rule.
    fn compare(&self, alloc: Global, ignore_case: bool, count: &mut Count) -> Result<()> {
        let mut numbers = Numbers::new(self.count as u64);
        let patterns = self.patterns(alloc, &mut numbers)?;
        let mut words = Vec::new(alloc);
        for pattern in patterns.as_slice() {
            words.push(pattern.as_slice())?;
        }
        if words.len() > PatternID::MAX.as_usize() {
            bail!("too many patterns");
        }
        let held = Prefilter::quickest(alloc, ignore_case, words.as_slice())?;
        let Some(prefilter) = held else {
            bail!("no prefilter is held");
        };
        let set = PatternSet::new(words.as_slice(), MatchKind::LeftmostFirst, ignore_case);
        let filter = Filter {
            row: self,
            words: words.as_slice(),
            ignore_case,
            prefilter: &prefilter,
            patterns: &set,
        };
        for length in 0..LONGEST + 1 {
            filter.compare(alloc, length, &mut numbers, count)?;
        }
        Ok(())
    }
}

/// A prefilter, and for which patterns it is held.
#[derive(Clone, Copy)]
struct Filter<'r, 'p, 's, 'w> {
    row: &'r Row,
    words: &'w [&'w [u8]],
    ignore_case: bool,
    prefilter: &'p Prefilter,
    patterns: &'s PatternSet<'w>,
}

impl Filter<'_, '_, '_, '_> {
    /// One of the patterns, under the case rule in some letters of the other case.
    fn word(&self, alloc: Global, numbers: &mut Numbers) -> Result<Vec<u8>, AllocError> {
        let mut word = Vec::new(alloc);
        let number = numbers.below(self.words.len().max(1));
        for byte in *self.words.get(number).unwrap_or(&b"".as_slice()) {
            if self.ignore_case && numbers.once_in(3) {
                word.push(byte.to_ascii_uppercase())?;
            } else {
                word.push(*byte)?;
            }
        }
        Ok(word)
    }

    /// A text of so many bytes, and more around them. It has a pattern at this place, or a part of one where it ends before.
    fn text(
        &self,
        alloc: Global,
        length: usize,
        place: usize,
        numbers: &mut Numbers,
    ) -> Result<Vec<u8>, AllocError> {
        let mut text = Vec::new(alloc);
        self.row.push_letters(numbers, place, &mut text)?;
        let word = self.word(alloc, numbers)?;
        text.extend_from_slice(word.as_slice())?;
        let left = length.saturating_add(2 * AROUND).saturating_sub(text.len());
        self.row.push_letters(numbers, left, &mut text)?;
        Ok(text)
    }

    /// Compares what it answers for spans of so many bytes.
    fn compare(
        &self,
        alloc: Global,
        length: usize,
        numbers: &mut Numbers,
        count: &mut Count,
    ) -> Result<()> {
        for _ in 0..3 {
            let place = numbers.below(length.saturating_add(2 * AROUND).max(1));
            let text = self.text(alloc, length, place, numbers)?;
            let start = AROUND.min(text.len());
            let end = start.saturating_add(length).min(text.len());
            let span = Span { start, end };
            compare_candidate(self.prefilter, self.patterns, text.as_slice(), span, count)?;
        }
        Ok(())
    }
}

/// Compares each of them.
pub(crate) fn compare_filters(alloc: Global, count: &mut Count) -> Result<()> {
    for row in ROWS {
        for ignore_case in [false, true] {
            let compared = row.compare(alloc, ignore_case, count);
            compared.map_err(|error| error.context(row.name))?;
        }
    }
    Ok(())
}
