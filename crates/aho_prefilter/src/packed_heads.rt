//! The packed search with heads: for places whose first bytes meet the fingerprints of some group of patterns, and whose head
//! is the one of some pattern.
//!
//! # The masks
//!
//! They are those of a packed search, for up to three bytes more. The groups are eight runs of the patterns in the order of
//! their first four bytes. So eight patterns have a group each, and what else is in a group begins alike. Of more than a hundred
//! patterns the first byte tells the group.
//!
//! # The search
//!
//! Four to six bytes are looked up for each of thirty-two places at once, by their low halves alone: that takes one shuffle for
//! each byte, and both cases of a letter have the same low half. Where patterns are short, or many, that would meet too many
//! places, and both halves of four bytes are looked up. Where some of these places meet a group, each of them is looked at once
//! more, by its head: the first bytes of a pattern, as many as the shortest one has, and sixteen at most. A hash of them has its
//! bit set for each pattern. A place that is found may still start no pattern, since different bytes may have the same bit.
//!
//! The last block ends where the bytes end, and overlaps the one before. Where some of the last places meet a group, they are copied
//! in front of zeros, so nothing is read past the end.

ghost use Rattle.std.specs.Prelude.{◌≡◌, ℕ, ◌+◌, ◌-◌, ◌*◌, ◌<◌, ◌≤◌, length, slice_index, IsTrue};
ghost use Rattle.std.specs.Int.{bit_at};
ghost use Rattle.memchr.specs.Find.{IsFirst, Nowhere};
ghost use Rattle.aho_core.specs.Replacement.{pieces_of};
ghost use Rattle.aho_prefilter.specs.Packed.{HasLanes};
ghost use Rattle.aho_prefilter.specs.PackedHeads.{AreBitsOf, HaveSize, IsFirstHeaded, IsNextBlock, MayStartAt, MeetsBy, MeetsHeadAt, TellsHeadAt, bytes_tested, count_before, four_groups_at, group_among, low_five_at, low_four_at, low_six_at, order_of, packed_heads_of, packed_heads_with, tested_groups_at};
ghost use Rattle.aho_prefilter.specs.Strided.{caseless};

use crate::heads::Heads;
use crate::packed::{LANES, Masks, Packed, lanes_met, load, padded};
use crate::strided::BEHIND;
use std::simd::prelude::*;

/// How many patterns are put in order at most, for their groups.
const MOST_ORDERED: usize = 100;

/// Which halves of how many bytes are looked up.
#[derive(Clone, Copy)]
pub(crate) enum Tested {
    /// Both halves of four bytes.
    Four,
    /// The low halves of four bytes.
    LowFour,
    /// Those of five.
    LowFive,
    /// Those of six.
    LowSix,
}

impl Tested {
    /// How many bytes are looked up.
    #[inline(always)]
    fn bytes(self) -> usize
        ensures bytes { result ≡ bytes_tested self }
        ensures few { result ≤ 6 }
    {
        match self {
            Tested::Four | Tested::LowFour => 4,
            Tested::LowFive => 5,
            Tested::LowSix => 6,
        }
    }
}

/// A search for places that meet the fingerprints of four to six bytes and the heads of patterns.
#[derive(Clone, Copy)]
pub(crate) struct PackedHeads {
    tested: Tested,
    /// The masks of the first three bytes.
    pub(crate) packed: Packed,
    pub(crate) fourth: Masks,
    fifth: Masks,
    sixth: Masks,
    heads: Heads,
}

/// A byte by which patterns are ordered: under the case rule without the bit in which the two cases of a letter differ.
fn caseless(ignore_case: bool, byte: u8) -> u8
    ensures caseless { result ≡ caseless ignore_case byte }
{
    if ignore_case { byte & 0xDF } else { byte }
}

/// The byte of a pattern at a place, and behind its end a zero.
pub(crate) fn byte_at(pattern: &[u8], place: usize) -> u8
    ensures byte { result ≡ slice_index pattern.now place }
{
    match pattern.get(place) {
        Some(byte) => *byte,
        None => 0,
    }
}

/// The first four bytes of a pattern, as a number: patterns are ordered by it.
fn order_of(ignore_case: bool, pattern: &[u8]) -> u32
    ensures order { result ≡ order_of ignore_case pattern.now }
{
    u32::from_be_bytes([
        caseless(ignore_case, byte_at(pattern, 0)),
        caseless(ignore_case, byte_at(pattern, 1)),
        caseless(ignore_case, byte_at(pattern, 2)),
        caseless(ignore_case, byte_at(pattern, 3)),
    ])
}

/// How many of these patterns come before a pattern.
fn count_before(ignore_case: bool, patterns: &[&[u8]], pattern: &[u8]) -> usize
    ensures count { result ≡ count_before ignore_case (pieces_of patterns.now) pattern.now }
    ensures few { result ≤ length patterns.now }
{
    let own = order_of(ignore_case, pattern);
    let mut count = 0;
    for other in patterns {
        if order_of(ignore_case, other) < own {
            count += 1;
        }
    }
    count
}

/// The group of a pattern among all patterns, as a bit. Up to a hundred patterns are put in order, and the groups are eight runs
/// of them. For more patterns that would take long, and the group is told by the first byte.
fn group_among(ignore_case: bool, patterns: &[&[u8]], pattern: &[u8]) -> u8
    requires some { 0 < length patterns.now }
    ensures group { result ≡ group_among ignore_case (pieces_of patterns.now) pattern.now }
{
    if patterns.len() > MOST_ORDERED {
        return 1 << (byte_at(pattern, 0) % 8) as u32;
    }
    let before = count_before(ignore_case, patterns, pattern);
    1 << (before * 8 / patterns.len()).min(7) as u32
}

/// A block of thirty-two places, some of which meet a group.
#[derive(Clone, Copy)]
struct Block {
    number: usize,
    /// A bit for each place that does.
    met: u64,
}

impl PackedHeads {
    /// The search for these patterns, whose heads have so many bytes.
    pub(crate) fn new(
        ignore_case: bool,
        tested: Tested,
        size: usize,
        patterns: &[&[u8]],
    ) -> PackedHeads
        requires some { 0 < size }
        requires short { size ≤ 16 }
        requires long { HaveSize size (pieces_of patterns.now) }
        ensures made { result ≡ packed_heads_of ignore_case tested size (pieces_of patterns.now) }
    {
        let mut made = PackedHeads {
            tested,
            packed: Packed::new(),
            fourth: Masks::new(),
            fifth: Masks::new(),
            sixth: Masks::new(),
            heads: Heads::new(size, ignore_case),
        };
        for pattern in patterns {
            let group = group_among(ignore_case, patterns, pattern);
            made.add(ignore_case, group, pattern);
        }
        made
    }

    /// Adds a pattern to a group.
    fn add(&mut self, ignore_case: bool, group: u8, pattern: &[u8])
        requires long { self.old.heads.size ≤ length pattern.now }
        ensures added { self.new ≡ packed_heads_with ignore_case group self.old pattern.now }
    {
        self.packed.add_to(ignore_case, group, pattern);
        self.fourth.add_place(ignore_case, group, pattern, 3);
        self.fifth.add_place(ignore_case, group, pattern, 4);
        self.sixth.add_place(ignore_case, group, pattern, 5);
        self.heads.add(pattern);
    }

    /// The groups that each of thirty-two places meets by both halves of four bytes.
    #[inline(always)]
    fn four(&self, bytes: &[u8], at: usize) -> u8x32
        requires within { at + 35 ≤ length bytes.now }
        ensures groups { HasLanes result (λ k. four_groups_at self.now bytes.now (at + k)) }
    {
        self.packed.groups(bytes, at) & self.fourth.groups(load(bytes, at + 3))
    }

    /// The same by the low halves of four bytes.
    #[inline(always)]
    fn low_four(&self, bytes: &[u8], at: usize) -> u8x32
        requires within { at + 35 ≤ length bytes.now }
        ensures groups { HasLanes result (λ k. low_four_at self.now bytes.now (at + k)) }
    {
        self.packed.low_groups(bytes, at) & self.fourth.low_groups(load(bytes, at + 3))
    }

    /// The same by those of five.
    #[inline(always)]
    fn low_five(&self, bytes: &[u8], at: usize) -> u8x32
        requires within { at + 36 ≤ length bytes.now }
        ensures groups { HasLanes result (λ k. low_five_at self.now bytes.now (at + k)) }
    {
        self.low_four(bytes, at) & self.fifth.low_groups(load(bytes, at + 4))
    }

    /// The same by those of six.
    #[inline(always)]
    fn low_six(&self, bytes: &[u8], at: usize) -> u8x32
        requires within { at + 37 ≤ length bytes.now }
        ensures groups { HasLanes result (λ k. low_six_at self.now bytes.now (at + k)) }
    {
        self.low_five(bytes, at) & self.sixth.low_groups(load(bytes, at + 5))
    }

    /// The groups that each of thirty-two places meets.
    #[inline(always)]
    fn groups(&self, tested: Tested, bytes: &[u8], at: usize) -> u8x32
        requires within { at + 31 + bytes_tested tested ≤ length bytes.now }
        ensures groups { HasLanes result
            (λ k. tested_groups_at tested self.now bytes.now (at + k)) }
    {
        match tested {
            Tested::Four => self.four(bytes, at),
            Tested::LowFour => self.low_four(bytes, at),
            Tested::LowFive => self.low_five(bytes, at),
            Tested::LowSix => self.low_six(bytes, at),
        }
    }

    /// The first place of these bytes where a pattern may start. It takes no memory.
    #[inline(never)]
    pub(crate) fn find(&self, bytes: &[u8]) -> Option<usize>
        ensures first { IsFirstHeaded self.now bytes.now result }
    {
        let size = self.heads.size();
        if bytes.len() < size {
            return None;
        }
        let blocks = bytes.len().saturating_sub(BEHIND) / LANES;
        match self.find_in_blocks(bytes, blocks) {
            Some(place) => Some(place),
            None => self.find_in_end(bytes, blocks * LANES, size),
        }
    }

    /// The same of so many blocks of thirty-two places.
    #[inline(always)]
    fn find_in_blocks(&self, bytes: &[u8], blocks: usize) -> Option<usize>
        requires within { blocks * 32 ≤ length bytes.now - 15 }
        ensures first { IsFirst (MeetsHeadAt self.now bytes.now) 0 (blocks * 32) result }
    {
        let mut from = 0;
        for _ in 0..blocks {
            let Some(block) = self.next_block(bytes, from, blocks) else {
                return None;
            };
            let at = block.number * LANES;
            if let Some(place) = find_head(&self.heads, bytes, at, block.met) {
                return Some(place);
            }
            from = block.number + 1;
        }
        None
    }

    /// The first block, from this one on, of which some places meet a group. It is a function of its own, so that the masks stay
    /// in registers while it looks.
    #[inline(never)]
    fn next_block(&self, bytes: &[u8], from: usize, blocks: usize) -> Option<Block>
        requires within { blocks * 32 ≤ length bytes.now - 15 }
        ensures next { IsNextBlock self.now.tested self.now bytes.now from blocks result }
    {
        match self.tested {
            Tested::Four => self.next_tested(Tested::Four, bytes, from, blocks),
            Tested::LowFour => self.next_tested(Tested::LowFour, bytes, from, blocks),
            Tested::LowFive => self.next_tested(Tested::LowFive, bytes, from, blocks),
            Tested::LowSix => self.next_tested(Tested::LowSix, bytes, from, blocks),
        }
    }

    /// The same by these halves: a loop of its own for each.
    #[inline(always)]
    fn next_tested(&self, tested: Tested, bytes: &[u8], from: usize, blocks: usize) -> Option<Block>
        requires within { blocks * 32 ≤ length bytes.now - 15 }
        ensures next { IsNextBlock tested self.now bytes.now from blocks result }
    {
        for number in from..blocks {
            let met = self.places_met(tested, bytes, number * LANES);
            if met != 0 {
                return Some(Block { number, met });
            }
        }
        None
    }

    /// Which of thirty-two places meet some group, a bit for each.
    #[inline(always)]
    fn places_met(&self, tested: Tested, bytes: &[u8], at: usize) -> u64
        requires within { at + 31 + bytes_tested tested ≤ length bytes.now }
        ensures met { AreBitsOf tested self.now bytes.now at result }
    {
        lanes_met(self.groups(tested, bytes, at))
    }

    /// Whether no place of a block meets a group.
    #[inline(always)]
    fn is_bare(&self, tested: Tested, bytes: &[u8], at: usize) -> bool
        requires within { at + 31 + bytes_tested tested ≤ length bytes.now }
        ensures bare { IsTrue result
            → Nowhere (MeetsBy tested self.now bytes.now) at (at + 32) }
    {
        self.places_met(tested, bytes, at) == 0
    }

    /// Whether no pattern may start at one of the last places, since none of them meets a group. The last block ends where the
    /// bytes end, so it overlaps the one before. Where it does not begin early enough, there is one more before it.
    #[inline(always)]
    fn is_bare_from(&self, tested: Tested, bytes: &[u8], from: usize, size: usize) -> bool
        requires tested { tested ≡ self.now.tested }
        requires few { length bytes.now < from + 47 }
        requires size { size ≡ self.now.heads.size }
        ensures bare { IsTrue result
            → Nowhere (MayStartAt self.now bytes.now) from (length bytes.now) }
    {
        let end = LANES - 1 + tested.bytes();
        if size < tested.bytes() || bytes.len() < end {
            return false;
        }
        let last = bytes.len() - end;
        if last <= from {
            return self.is_bare(tested, bytes, last);
        }
        if !self.is_bare(tested, bytes, from) {
            return false;
        }
        self.is_bare(tested, bytes, last)
    }

    /// The same by the halves that are looked up.
    #[inline(never)]
    fn is_bare_behind(&self, bytes: &[u8], from: usize, size: usize) -> bool
        requires few { length bytes.now < from + 47 }
        requires size { size ≡ self.now.heads.size }
        ensures bare { IsTrue result
            → Nowhere (MayStartAt self.now bytes.now) from (length bytes.now) }
    {
        match self.tested {
            Tested::Four => self.is_bare_from(Tested::Four, bytes, from, size),
            Tested::LowFour => self.is_bare_from(Tested::LowFour, bytes, from, size),
            Tested::LowFive => self.is_bare_from(Tested::LowFive, bytes, from, size),
            Tested::LowSix => self.is_bare_from(Tested::LowSix, bytes, from, size),
        }
    }

    /// The first of the last places where a pattern may start. They are copied only where some of them meets a group, or where
    /// the bytes are too few for a block.
    #[inline(always)]
    fn find_in_end(&self, bytes: &[u8], from: usize, size: usize) -> Option<usize>
        requires within { from ≤ length bytes.now }
        requires few { length bytes.now < from + 47 }
        requires size { size ≡ self.now.heads.size }
        requires some { 0 < size }
        requires short { size ≤ 16 }
        ensures first { IsFirst (MayStartAt self.now bytes.now) from (length bytes.now) result }
    {
        if self.is_bare_behind(bytes, from, size) {
            return None;
        }
        self.find_in_rest(bytes, from, size)
    }

    /// The same by a copy.
    #[inline(never)]
    fn find_in_rest(&self, bytes: &[u8], from: usize, size: usize) -> Option<usize>
        requires within { from ≤ length bytes.now }
        requires few { length bytes.now < from + 47 }
        requires size { size ≡ self.now.heads.size }
        requires some { 0 < size }
        requires short { size ≤ 16 }
        ensures first { IsFirst (MayStartAt self.now bytes.now) from (length bytes.now) result }
    {
        let left = bytes.len() - from;
        if left < size {
            return None;
        }
        let rest = padded(bytes, from);
        let blocks = (left - size) / LANES + 1;
        match self.find_in_blocks(&rest, blocks) {
            Some(place) if place + size <= left => Some(from + place),
            _ => None,
        }
    }
}

/// The first of thirty-two places where the bit of its head is set, of those that these bits tell.
#[inline(never)]
fn find_head(heads: &Heads, bytes: &[u8], at: usize, met: u64) -> Option<usize>
    requires within { at + 47 ≤ length bytes.now }
    requires few { (k : ℕ) → bit_at met k ≡ 1 → k < 32 }
    ensures first { IsFirst (TellsHeadAt heads.now bytes.now at met) at (at + 32) result }
{
    let mut left = met;
    let mut place = at;
    for _ in 0..LANES {
        if left == 0 {
            return None;
        }
        let skipped = left.trailing_zeros();
        place += skipped as usize;
        if heads.stands_at(bytes, place) {
            return Some(place);
        }
        left = left >> skipped >> 1;
        place += 1;
    }
    None
}
