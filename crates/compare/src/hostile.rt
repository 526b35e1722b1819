//! Words that are hostile to a search: they begin, end and hold one another, so many matches overlap and a miss falls back far.

ghost use Rattle.std.specs.Prelude.{◌<◌};

use bench::numbers::Numbers;
use std::alloc::{AllocError, Global};

/// Which words a case has.
#[derive(Clone, Copy, Debug)]
pub(crate) enum Family {
    /// Words of random letters.
    Random,
    /// Powers of a letter, as a, aa and aaa; or each of them with another letter behind it.
    Nested,
    /// Powers of a short word, as ab and abab, and some with a part of it behind them, as aba.
    Periodic,
    /// Words of which each is the two before it, as a, ab, aba and abaab, and some of them turned, as baaba.
    Fibonacci,
}

/// The words of a round, one family after another.
pub(crate) const FAMILIES: [Family; 4] = [
    Family::Random,
    Family::Nested,
    Family::Periodic,
    Family::Fibonacci,
];

/// Pairs of letters of which words are made.
const PAIRS: [[u8; 2]; 4] = [*b"ab", *b"aA", *b"\x00\xff", *b"z@"];

/// Patterns, and a text that is made for them.
#[derive(Drop)]
pub(crate) struct Made {
    pub(crate) patterns: Vec<Vec<u8>>,
    pub(crate) text: Vec<u8>,
}

/// So many copies of a word, and this many of its bytes behind them.
fn power(alloc: Global, word: &[u8], copies: usize, more: usize) -> Result<Vec<u8>, AllocError> {
    let mut power = Vec::new(alloc);
    for _ in 0..copies {
        power.extend_from_slice(word)?;
    }
    power.extend_from_slice(word.get(..more).unwrap_or(&[]))?;
    Ok(power)
}

/// Powers of the first of two letters, each with the other one behind it or none, from the shortest on or from the longest.
pub(crate) fn nested(alloc: Global, numbers: &mut Numbers) -> Result<Made, AllocError> {
    let letters = PAIRS[numbers.below(4)];
    let [letter, _] = letters;
    let most = 1 + numbers.below(12);
    let ends = numbers.once_in(3);
    let grows = numbers.once_in(2);
    let mut patterns = Vec::new(alloc);
    for copies in 0..most {
        let copies = if grows { copies } else { most - copies };
        let mut word = power(alloc, &[letter], copies, 1)?;
        if ends {
            word.extend_from_slice(&letters[1..])?;
        }
        patterns.push(word)?;
    }
    let long = power(alloc, &[letter], 40, 0)?;
    let text = text_of(
        alloc,
        numbers,
        letters,
        patterns.as_slice(),
        long.as_slice(),
    )?;
    Ok(Made { patterns, text })
}

/// Powers of a word of up to four letters, and some with a part of it behind them.
pub(crate) fn periodic(alloc: Global, numbers: &mut Numbers) -> Result<Made, AllocError> {
    let letters = PAIRS[numbers.below(4)];
    let mut period = Vec::new(alloc);
    for _ in 0..1 + numbers.below(4) {
        period.push(letters[numbers.below(2)])?;
    }
    let mut patterns = Vec::new(alloc);
    for copies in 1..2 + numbers.below(7) {
        patterns.push(power(alloc, period.as_slice(), copies, 0)?)?;
        if numbers.once_in(2) {
            let more = numbers.below(4);
            patterns.push(power(alloc, period.as_slice(), copies, more)?)?;
        }
    }
    let long = power(alloc, period.as_slice(), 14, 0)?;
    let text = text_of(
        alloc,
        numbers,
        letters,
        patterns.as_slice(),
        long.as_slice(),
    )?;
    Ok(Made { patterns, text })
}

/// The Fibonacci word of this number: that of 0 is the first letter, that of 1 both, and each later one the two before it.
fn fibonacci_word(alloc: Global, letters: [u8; 2], number: usize) -> Result<Vec<u8>, AllocError> {
    let mut before = Vec::from_slice(alloc, &letters[1..])?;
    let mut word = Vec::from_slice(alloc, &letters[..1])?;
    for _ in 0..number {
        let mut next = Vec::from_slice(alloc, word.as_slice())?;
        next.extend_from_slice(before.as_slice())?;
        before = word;
        word = next;
    }
    Ok(word)
}

/// A word that begins at this place of another and goes on from its beginning.
fn turned(alloc: Global, word: &[u8], place: usize) -> Result<Vec<u8>, AllocError> {
    let mut turned = Vec::from_slice(alloc, word.get(place..).unwrap_or(&[]))?;
    turned.extend_from_slice(word.get(..place).unwrap_or(word))?;
    Ok(turned)
}

/// The first Fibonacci words, and some of them turned.
pub(crate) fn fibonacci(alloc: Global, numbers: &mut Numbers) -> Result<Made, AllocError> {
    let letters = PAIRS[numbers.below(4)];
    let mut patterns = Vec::new(alloc);
    for number in 0..1 + numbers.below(8) {
        let word = fibonacci_word(alloc, letters, number)?;
        if numbers.once_in(2) {
            let place = numbers.below(word.len().max(1));
            patterns.push(turned(alloc, word.as_slice(), place)?)?;
        }
        patterns.push(word)?;
    }
    let long = fibonacci_word(alloc, letters, 8)?;
    let text = text_of(
        alloc,
        numbers,
        letters,
        patterns.as_slice(),
        long.as_slice(),
    )?;
    Ok(Made { patterns, text })
}

/// A text of parts of a long word of the family, of patterns, and of letters that break them.
fn text_of(
    alloc: Global,
    numbers: &mut Numbers,
    letters: [u8; 2],
    patterns: &[Vec<u8>],
    long: &[u8],
) -> Result<Vec<u8>, AllocError> {
    let mut text = Vec::new(alloc);
    for _ in 0..1 + numbers.below(5) {
        match numbers.below(4) {
            0 => text.push(letters[numbers.below(2)])?,
            1 => {
                let place = numbers.below(patterns.len().max(1));
                if let Some(pattern) = patterns.get(place) {
                    text.extend_from_slice(pattern.as_slice())?;
                }
            }
            _ => {
                let start = numbers.below(4);
                let end = numbers.below(long.len().saturating_add(1));
                text.extend_from_slice(long.get(start..end).unwrap_or(&[]))?;
            }
        }
    }
    Ok(text)
}
