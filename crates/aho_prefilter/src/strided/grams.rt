//! The grams of a strided search: which bits of a table are theirs.
//!
//! A gram has one bit, which its hash tells. Of many patterns it has two bits of one word, and the word is one of eight in a row,
//! which its first three bytes tell. A text has few different runs of three bytes, so the rows that it asks for stay at hand.

ghost use Rattle.std.specs.Prelude.{◌≡◌, ◌↔◌, ◌+◌, ◌<◌, ◌≤◌, ◌^◌, false, length, IsTrue};
ghost use Rattle.aho_prefilter.specs.Strided.{AreStrideSizes, HasBits, IsTable, gram_place, place_by, with_bits, with_grams};

use crate::strided::sizes::Sizes;
use crate::strided::{GRAM, HIGH, bits_kept, factor_for, high_half, place_in, word_at};

/// How many bytes of a gram tell its line.
const LINE_BYTES: usize = 3;

/// Where the bits of a gram are.
#[derive(Clone, Copy)]
pub(crate) struct Place {
    /// The word of the table.
    word: usize,
    /// A bit of it.
    first: u32,
    /// And another one, or the same.
    second: u32,
}

/// Where the bits of a gram are in a table of so many words, by a hash of its first bytes and one of all of them.
#[inline(always)]
fn place_by(lines: bool, words: usize, line: u64, hash: u64) -> Place
    requires some { 8 ≤ words }
    requires few { words ≤ 2 ^ 18 }
    ensures place { result ≡ place_by lines words line hash }
    ensures within { result.word < words }
    ensures first { result.first < 64 }
    ensures second { result.second < 64 }
{
    if lines {
        Place {
            word: high_half(line, words / 8) * 8 + (hash >> 61) as usize,
            first: (hash >> 55) as u32 % 64,
            second: (hash >> 49) as u32 % 64,
        }
    } else {
        let place = place_in(words, hash);
        let bit = (place % 64) as u32;
        Place {
            word: place / 64,
            first: bit,
            second: bit,
        }
    }
}

/// Whether both bits are set. Without lines they are the same one.
#[inline(always)]
pub(super) fn has_bits(lines: bool, table: &[u64], place: Place) -> bool
    requires alike { lines ≡ false → place.second ≡ place.first }
    requires within { place.word < length table.now }
    requires first { place.first < 64 }
    requires second { place.second < 64 }
    ensures set { IsTrue result ↔ HasBits table.now place }
{
    let word = table[place.word];
    word >> place.first & 1 == 1 && (!lines || word >> place.second & 1 == 1)
}

/// Sets both bits.
fn set_bits(table: &mut [u64], place: Place)
    requires within { place.word < length table.old }
    requires first { place.first < 64 }
    requires second { place.second < 64 }
    ensures set { table.new ≡ with_bits table.old place }
{
    table[place.word] |= 1 << place.first | 1 << place.second;
}

impl Sizes {
    /// Where the bits of the gram at a place of these bytes are. `lines` tells whether its first bytes tell a line.
    #[inline(always)]
    pub(super) fn gram_place(self, lines: bool, words: usize, bytes: &[u8], at: usize) -> Place
        requires sized { AreStrideSizes self }
        requires lines { lines ≡ self.lines }
        requires some { 8 ≤ words }
        requires few { words ≤ 2 ^ 18 }
        requires within { at + 8 ≤ length bytes.now }
        ensures place { result ≡ gram_place self words bytes.now at }
        ensures bounded { result.word < words }
        ensures first { result.first < 64 }
        ensures second { result.second < 64 }
    {
        let word = word_at(bytes, at, bits_kept(self.ignore_case));
        let line = word.wrapping_mul(factor_for(HIGH, LINE_BYTES));
        let hash = word.wrapping_mul(factor_for(GRAM, self.gram));
        place_by(lines, words, line, hash)
    }

    /// Sets the bits of the grams at the first places of these bytes.
    pub(super) fn mark_grams(self, grams: &mut [u64], bytes: &[u8])
        requires sized { AreStrideSizes self }
        requires table { IsTable grams.old }
        requires within { 15 ≤ length bytes.now }
        ensures marked { grams.new ≡ with_grams self bytes.now self.stride grams.old }
    {
        for offset in 0..self.stride {
            let place = self.gram_place(self.lines, grams.len(), bytes, offset);
            set_bits(grams, place);
        }
    }
}
