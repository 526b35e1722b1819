//! The strided search: it looks up a few bytes, a gram, at the last of each so many places, and passes over the others.
//!
//! # The tables
//!
//! Of each pattern the first bytes are looked at, as many as the shortest one has, and sixteen at most: its head. For each of
//! the first `stride` places of a head the gram that begins there has its bits in the table of grams, and the head has one in
//! the table of heads. Which bits these are, hashes tell.
//!
//! # The search
//!
//! Whatever starts at one of `stride` places in a row has a gram at the last of them. So one gram is looked up for all of
//! them. Where its bits are set, each of these places is looked at once more, by its head. A place that is found may start no
//! pattern, since different bytes may have the same bit. The last places, behind which too few bytes stand, are copied in front
//! of zeros, so nothing is read past the end.

ghost use Rattle.std.specs.Prelude.{◌≡◌, ◌↔◌, ℕ, ◌+◌, ◌-◌, ◌*◌, ◌/◌, ◌<◌, ◌≤◌, ◌^◌, Bool, length, IfOk, IsTrue};
ghost use Rattle.memchr.specs.Find.{IsFirst};
ghost use Rattle.aho_core.specs.Replacement.{pieces_of};
ghost use Rattle.aho_prefilter.specs.Strided.{HasGramIn, HasHead, HasMark, HaveHeads, IsFirstMarked, IsMarkedAt, AreStrideSizes, IsTable, MayStartAt, bits_kept, empty_table, end_of, factor_for, hash_of_head, head_hash, head_words, marks_of, marks_with, number_of_bytes, place_in, with_mark};

mod grams;
pub(crate) mod sizes;

use crate::packed::padded;
use grams::has_bits;
use sizes::Sizes;
use std::alloc::{AllocError, Global};
use std::marker::Model;

/// What hashes are made with: odd numbers without a pattern.
const GRAM: u64 = 0x9E37_79B9_7F4A_7C15;

const LOW: u64 = 0xD6E8_FEB8_6659_FD93;

const HIGH: u64 = 0xA076_1D64_78BD_642F;

/// In each byte all bits but the one in which the two cases of a letter differ.
const CASELESS: u64 = 0xDFDF_DFDF_DFDF_DFDF;

/// How many words of 64 bits a table has at most.
const MOST: usize = 1 << 18;

/// How many that of heads has at most.
const MOST_OF_HEADS: usize = 1 << 16;

/// How many places have to stand behind a place, for its head to be read without a copy.
pub(crate) const BEHIND: usize = 15;

/// A search for places where the bits of some pattern are set.
#[derive(Drop)]
pub(crate) struct Strided {
    sizes: Sizes,
    /// The bits of grams.
    grams: Vec<u64>,
    /// A bit for each hash of a head.
    heads: Vec<u64>,
}

impl Model for Strided {
    ghost use Rattle.aho_prefilter.specs.Strided.{AreSoundMarks, Marks};

    ghost Value = { Marks };

    ghost view = { λ s. record { sizes = s.sizes; grams = s.grams.items; heads = s.heads.items } };

    ghost invariant = { λ s. AreSoundMarks (record { sizes = s.sizes; grams = s.grams.items; heads = s.heads.items }) };
}

/// The bits of each word that are hashed: under the case rule not those in which the two cases of a letter differ.
#[inline(always)]
fn bits_kept(ignore_case: bool) -> u64
    ensures kept { result ≡ bits_kept ignore_case }
{
    if ignore_case { CASELESS } else { u64::MAX }
}

/// The eight bytes from a place on, as a number, with these bits of it alone.
#[inline(always)]
fn word_at(bytes: &[u8], at: usize, bits: u64) -> u64
    requires within { at + 8 ≤ length bytes.now }
    ensures word { (ignore_case : Bool) → bits ≡ bits_kept ignore_case
        → result ≡ number_of_bytes ignore_case 8 bytes.now at }
{
    let word = u64::from_le_bytes([
        bytes[at],
        bytes[at + 1],
        bytes[at + 2],
        bytes[at + 3],
        bytes[at + 4],
        bytes[at + 5],
        bytes[at + 6],
        bytes[at + 7],
    ]);
    word & bits
}

/// What a word is multiplied by, so that its first bytes alone tell the hash.
#[inline(always)]
fn factor_for(number: u64, count: usize) -> u64
    requires some { 0 < count }
    requires few { count ≤ 8 }
    ensures factor { result ≡ factor_for number count }
{
    number << (64 - 8 * count as u32)
}

/// Which of so many numbers a hash tells: the high half of the product.
#[inline(always)]
fn high_half(hash: u64, count: usize) -> usize
    requires few { count ≤ 2 ^ 24 }
    ensures half { result ≡ hash * count / 2 ^ 64 }
{
    (hash as u128 * count as u128 >> 64) as usize
}

/// The place of a hash's bit in a table of so many words.
#[inline(always)]
fn place_in(words: usize, hash: u64) -> usize
    requires some { 0 < words }
    requires few { words ≤ 2 ^ 18 }
    ensures place { result ≡ place_in words hash }
    ensures within { result < 64 * words }
{
    high_half(hash, 64 * words)
}

/// The hash of a head of so many bytes at a place.
#[inline(always)]
pub(crate) fn hash_of_head(ignore_case: bool, head: usize, bytes: &[u8], at: usize) -> u64
    requires some { 0 < head }
    requires short { head ≤ 16 }
    requires within { at + 16 ≤ length bytes.now }
    ensures hash { result ≡ hash_of_head ignore_case head bytes.now at }
{
    let bits = bits_kept(ignore_case);
    let count = head.min(8);
    let first = word_at(bytes, at, bits).wrapping_mul(factor_for(LOW, count));
    let later = at + (head - count);
    let last = word_at(bytes, later, bits).wrapping_mul(factor_for(HIGH, count));
    first.wrapping_add(last)
}

/// Whether the bit of a hash is set.
#[inline(always)]
pub(crate) fn is_marked(table: &[u64], hash: u64) -> bool
    requires table { IsTable table.now }
    ensures marked { IsTrue result ↔ HasMark table.now hash }
{
    let place = place_in(table.len(), hash);
    table[place / 64] >> (place % 64) as u32 & 1 == 1
}

/// Sets the bit of a hash.
pub(crate) fn mark(table: &mut [u64], hash: u64)
    requires table { IsTable table.old }
    ensures marked { table.new ≡ with_mark table.old hash }
{
    let place = place_in(table.len(), hash);
    table[place / 64] |= 1 << (place % 64) as u32;
}

/// A table of so many words, but of 64 at least and of `MOST` at most, with no bit set.
fn empty_table(alloc: Global, words: usize) -> Result<Vec<u64>, AllocError>
    ensures empty { IfOk result (λ table. table.items ≡ empty_table words) }
{
    vec![in alloc; 0; words.max(64).min(MOST)]
}

/// How many words the table of so many heads has.
fn head_words(count: usize) -> usize
    ensures words { result ≡ head_words count }
{
    (count / 2).max(count.min(8192)).min(MOST_OF_HEADS)
}

impl Sizes {
    /// How many strides there are in so many places. A division by a number that is known is a product.
    #[inline(always)]
    fn strides_in(self, places: usize) -> usize
        requires sized { AreStrideSizes self }
        ensures strides { result ≡ places / self.stride }
    {
        match self.stride {
            1 => places,
            2 => places / 2,
            3 => places / 3,
            4 => places / 4,
            5 => places / 5,
            6 => places / 6,
            7 => places / 7,
            _ => places / 8,
        }
    }

    /// The hash of the head at a place.
    #[inline(always)]
    fn head_hash(self, bytes: &[u8], at: usize) -> u64
        requires sized { AreStrideSizes self }
        requires within { at + 16 ≤ length bytes.now }
        ensures hash { result ≡ head_hash self bytes.now at }
    {
        hash_of_head(self.ignore_case, self.head, bytes, at)
    }
}

impl Strided {
    /// The search for these patterns, each of which has a head of the size that is given.
    ///
    /// # Errors
    ///
    /// Out of memory, for the tables.
    pub(crate) fn new(
        alloc: Global,
        sizes: Sizes,
        patterns: &[&[u8]],
    ) -> Result<Strided, AllocError>
        requires sized { AreStrideSizes sizes }
        requires heads { HaveHeads sizes (pieces_of patterns.now) }
        ensures made { IfOk result (λ made. made ≡ marks_of sizes (pieces_of patterns.now)) }
    {
        let mut made = Strided {
            sizes,
            grams: empty_table(alloc, sizes.words)?,
            heads: empty_table(alloc, head_words(patterns.len()))?,
        };
        for pattern in patterns {
            made.add(pattern);
        }
        Ok(made)
    }

    /// Sets the bits of a pattern.
    fn add(&mut self, pattern: &[u8])
        requires head { self.old.sizes.head ≤ length pattern.now }
        ensures added { self.new ≡ marks_with self.old pattern.now }
    {
        let start = padded(&pattern[..self.sizes.head], 0);
        self.sizes.mark_grams(&mut self.grams, &start);
        mark(&mut self.heads, self.sizes.head_hash(&start, 0));
    }

    /// The first place of these bytes where a pattern may start. It takes no memory.
    #[inline(never)]
    pub(crate) fn find(&self, bytes: &[u8]) -> Option<usize>
        ensures first { IsFirstMarked self.now bytes.now result }
    {
        if bytes.len() < self.sizes.head {
            return None;
        }
        let turns = self.sizes.strides_in(bytes.len().saturating_sub(BEHIND));
        match self.find_in_turns(bytes, turns) {
            Some(place) => Some(place),
            None => self.find_in_rest(bytes, turns),
        }
    }

    /// The same of so many strides.
    #[inline(always)]
    fn find_in_turns(&self, bytes: &[u8], turns: usize) -> Option<usize>
        requires within { end_of self.now turns ≤ length bytes.now - 15 }
        ensures first { IsFirst (IsMarkedAt self.now bytes.now) 0 (end_of self.now turns) result }
    {
        let mut from = 0;
        for _ in 0..turns {
            let Some(turn) = self.next_turn(bytes, from, turns) else {
                return None;
            };
            if let Some(place) = self.find_head(bytes, turn * self.sizes.stride) {
                return Some(place);
            }
            from = turn + 1;
        }
        None
    }

    /// The first stride, from this one on, whose gram has its bits set. It is a function of its own, so that all that it takes
    /// stays in registers.
    #[inline(never)]
    fn next_turn(&self, bytes: &[u8], from: usize, turns: usize) -> Option<usize>
        requires within { end_of self.now turns ≤ length bytes.now - 15 }
        ensures next { IsFirst (HasGramIn self.now bytes.now) from turns result }
    {
        if self.sizes.lines {
            self.next_by(true, bytes, from, turns)
        } else {
            self.next_by(false, bytes, from, turns)
        }
    }

    /// The same by one bit, or by two in a line: a loop of its own for each.
    #[inline(always)]
    fn next_by(&self, lines: bool, bytes: &[u8], from: usize, turns: usize) -> Option<usize>
        requires lines { lines ≡ self.now.sizes.lines }
        requires within { end_of self.now turns ≤ length bytes.now - 15 }
        ensures next { IsFirst (HasGramIn self.now bytes.now) from turns result }
    {
        let sizes = self.sizes;
        let grams = self.grams.as_slice();
        for turn in from..turns {
            let last = turn * sizes.stride + (sizes.stride - 1);
            if has_bits(
                lines,
                grams,
                sizes.gram_place(lines, grams.len(), bytes, last),
            ) {
                return Some(turn);
            }
        }
        None
    }

    /// The first place of a stride where the bit of its head is set.
    #[inline(never)]
    fn find_head(&self, bytes: &[u8], from: usize) -> Option<usize>
        requires within { from + self.now.sizes.stride + 15 ≤ length bytes.now }
        ensures first { IsFirst (HasHead self.now bytes.now)
            from (from + self.now.sizes.stride) result }
    {
        for place in from..from + self.sizes.stride {
            let hash = self.sizes.head_hash(bytes, place);
            if is_marked(&self.heads, hash) {
                return Some(place);
            }
        }
        None
    }

    /// The same of the last places.
    #[inline(never)]
    fn find_in_rest(&self, bytes: &[u8], turns: usize) -> Option<usize>
        requires within { end_of self.now turns ≤ length bytes.now }
        requires few { length bytes.now < end_of self.now (turns + 1) + 15 }
        ensures first { IsFirst (MayStartAt self.now bytes.now)
            (end_of self.now turns) (length bytes.now) result }
    {
        let from = turns * self.sizes.stride;
        let left = bytes.len() - from;
        if left < self.sizes.head {
            return None;
        }
        let rest = padded(bytes, from);
        match self.find_in_turns(&rest, self.sizes.strides_in(left - self.sizes.head) + 1) {
            Some(place) if place + self.sizes.head <= left => Some(from + place),
            _ => None,
        }
    }

    /// How many bytes its tables have.
    pub(crate) fn memory_usage(&self) -> usize
        ensures memory_usage { result ≡ 8 * (length self.now.grams + length self.now.heads) }
        ensures bound { result ≤ 2 ^ 22 }
    {
        8 * (self.grams.len() + self.heads.len())
    }

    /// The same search once more.
    ///
    /// # Errors
    ///
    /// Out of memory, for the tables.
    pub(crate) fn try_clone(&self) -> Result<Strided, AllocError>
        ensures same { IfOk result (λ copy. copy ≡ self.now) }
    {
        Ok(Strided {
            sizes: self.sizes,
            grams: self.grams.clone()?,
            heads: self.heads.clone()?,
        })
    }
}
