//! The packed search: for places whose first three bytes meet the fingerprints of some group of patterns.
//!
//! # The masks
//!
//! Each pattern belongs to one of eight groups, by its first byte. A group's fingerprint is what its patterns have for their
//! first, second and third byte. For each of these three there are two tables, one for each half of a byte, with an entry for
//! each value of the half: a bit for each group that has a byte with this half. A byte meets a group where both of its halves
//! have the group's bit. Where a pattern is shorter than three bytes, every byte meets its group behind its end.
//!
//! # The search
//!
//! A place may start a pattern only if it and the two places behind it meet one group. A byte shuffle looks up the halves of
//! thirty-two bytes at once, so thirty-two places are tested by six of them; where a processor's vectors have sixteen bytes, it
//! takes each shuffle twice. The last places, which are too few for a block, are copied in front of zeros, so nothing is read
//! past the end.
//!
//! A place that is found may start no pattern: the halves of a byte, and the bytes of a fingerprint, may come from different
//! patterns of the group.

ghost use Rattle.std.specs.Prelude.{◌≡◌, ◌≢◌, ◌↔◌, ℕ, ◌+◌, ◌-◌, ◌*◌, ◌/◌, ◌%◌, ◌<◌, ◌≤◌, length, slice_index, bit_and};
ghost use Rattle.std.specs.Int.{bit_at};
ghost use Rattle.memchr.specs.Find.{IsFirst};
ghost use Rattle.aho_prefilter.specs.Packed.{HasLanes, IsFirstMet, MeetsAt, groups_at, groups_of, low_groups_at, low_groups_of, masks_with, masks_with_all, masks_with_cases, masks_with_place, no_masks, packed_with, packed_with_groups};

use aho_core::letters::opposite_ascii_case;
use std::simd::prelude::*;

/// How many places are looked at at once.
pub(crate) const LANES: usize = 32;

/// The masks of one byte of the fingerprints: for each half of a byte the groups that it meets, a bit for each.
#[derive(Clone, Copy)]
pub struct Masks {
    low: [u8; 16],
    high: [u8; 16],
}

/// The masks of the first three bytes of patterns in eight groups.
#[derive(Clone, Copy)]
pub struct Packed {
    pub(crate) first: Masks,
    pub(crate) second: Masks,
    pub(crate) third: Masks,
}

impl Masks {
    /// The masks that no byte meets.
    pub(crate) fn new() -> Masks
        ensures none { result ≡ no_masks }
    {
        Masks {
            low: [0; 16],
            high: [0; 16],
        }
    }

    /// Lets a byte meet these groups.
    fn add(&mut self, groups: u8, byte: u8)
        ensures added { self.new ≡ masks_with groups self.old byte }
    {
        self.low[(byte % 16) as usize] |= groups;
        self.high[(byte / 16) as usize] |= groups;
    }

    /// Lets every byte meet these groups.
    fn add_all(&mut self, groups: u8)
        ensures added { self.new ≡ masks_with_all groups self.old }
    {
        let more = u8x16::splat(groups);
        self.low = (u8x16::from_array(self.low) | more).to_array();
        self.high = (u8x16::from_array(self.high) | more).to_array();
    }

    /// Lets what stands at this place of a pattern meet these groups: behind its end every byte.
    pub(crate) fn add_place(&mut self, ignore_case: bool, groups: u8, pattern: &[u8], place: usize)
        ensures added { self.new
            ≡ masks_with_place ignore_case groups self.old pattern.now place }
    {
        if place >= pattern.len() {
            self.add_all(groups);
        } else {
            self.add_cases(ignore_case, groups, pattern[place]);
        }
    }

    /// Lets a byte meet these groups, and under the case rule its other case.
    fn add_cases(&mut self, ignore_case: bool, groups: u8, byte: u8)
        ensures added { self.new ≡ masks_with_cases ignore_case groups self.old byte }
    {
        self.add(groups, byte);
        if ignore_case {
            self.add(groups, opposite_ascii_case(byte));
        }
    }

    /// The groups that each of these bytes meets.
    #[inline(always)]
    pub(crate) fn groups(&self, bytes: u8x32) -> u8x32
        ensures groups { HasLanes result (λ k. groups_of self.now (slice_index bytes k)) }
    {
        self.low_groups(bytes) & by_high_half(&self.high, bytes)
    }

    /// The groups that one byte meets.
    pub(crate) fn groups_of(&self, byte: u8) -> u8
        ensures groups { result ≡ groups_of self.now byte }
    {
        self.low[(byte % 16) as usize] & self.high[(byte / 16) as usize]
    }

    /// The groups that the low half of each of these bytes meets.
    #[inline(always)]
    pub(crate) fn low_groups(&self, bytes: u8x32) -> u8x32
        ensures groups { HasLanes result (λ k. low_groups_of self.now (slice_index bytes k)) }
    {
        by_low_half(&self.low, bytes)
    }
}

/// A table twice, one behind the other: a vector of thirty-two bytes looks up each half of itself in a table of its own.
#[inline(always)]
fn twice(table: &[u8; 16]) -> u8x32
    ensures held { HasLanes result (λ k. slice_index table.now (k % 16)) }
{
    u8x16::from_slice(table).swizzle([
        0, 1, 2, 3, 4, 5, 6, 7, 8, 9, 10, 11, 12, 13, 14, 15, 0, 1, 2, 3, 4, 5, 6, 7, 8, 9, 10, 11,
        12, 13, 14, 15,
    ])
}

/// What a table holds at the low half of each byte.
#[inline(always)]
fn by_low_half(table: &[u8; 16], bytes: u8x32) -> u8x32
    ensures held { HasLanes result (λ k. slice_index table.now (slice_index bytes k % 16)) }
{
    twice(table).swizzle_dyn_within::<16>(bytes & u8x32::splat(15))
}

/// What a table holds at the high half of each byte.
#[inline(always)]
fn by_high_half(table: &[u8; 16], bytes: u8x32) -> u8x32
    ensures held { HasLanes result (λ k. slice_index table.now (slice_index bytes k / 16 % 16)) }
{
    twice(table).swizzle_dyn_within::<16>(bytes >> u8x32::splat(4))
}

/// The bytes from a place on.
#[inline(always)]
pub(crate) fn load(bytes: &[u8], at: usize) -> u8x32
    requires within { at + 32 ≤ length bytes.now }
    ensures loaded { HasLanes result (λ k. slice_index bytes.now (at + k)) }
{
    u8x32::from_slice(&bytes[at..])
}

/// The lanes that meet some group, a bit for each.
#[inline(always)]
pub(crate) fn lanes_met(groups: u8x32) -> u64
    ensures met { (k : ℕ) → (bit_at result k ≡ 1) ↔ (slice_index groups k ≢ 0) }
{
    groups.simd_ne(u8x32::splat(0)).to_bitmask()
}

impl Packed {
    /// The search for no pattern, which stops nowhere.
    pub fn new() -> Packed
        ensures none { result ≡ record { first = no_masks; second = no_masks; third = no_masks } }
    {
        Packed {
            first: Masks::new(),
            second: Masks::new(),
            third: Masks::new(),
        }
    }

    /// Adds a pattern that is not empty. `ignore_case` makes an ASCII letter the same in both cases.
    pub fn add(&mut self, ignore_case: bool, pattern: &[u8])
        requires some { 0 < length pattern.now }
        ensures added { self.new ≡ packed_with ignore_case self.old pattern.now }
    {
        self.add_to(ignore_case, 1 << (pattern[0] % 8), pattern);
    }

    /// Adds a pattern to these groups.
    pub(crate) fn add_to(&mut self, ignore_case: bool, groups: u8, pattern: &[u8])
        ensures added { self.new ≡ packed_with_groups ignore_case groups self.old pattern.now }
    {
        self.first.add_place(ignore_case, groups, pattern, 0);
        self.second.add_place(ignore_case, groups, pattern, 1);
        self.third.add_place(ignore_case, groups, pattern, 2);
    }

    /// The groups that each of thirty-two places meets.
    #[inline(always)]
    pub(crate) fn groups(&self, bytes: &[u8], at: usize) -> u8x32
        requires within { at + 34 ≤ length bytes.now }
        ensures groups { HasLanes result (λ k. groups_at self.now bytes.now (at + k)) }
    {
        let first = self.first.groups(load(bytes, at));
        let second = self.second.groups(load(bytes, at + 1));
        let third = self.third.groups(load(bytes, at + 2));
        first & second & third
    }

    /// The groups that each of thirty-two places meets by the low halves of its bytes.
    #[inline(always)]
    pub(crate) fn low_groups(&self, bytes: &[u8], at: usize) -> u8x32
        requires within { at + 34 ≤ length bytes.now }
        ensures groups { HasLanes result (λ k. low_groups_at self.now bytes.now (at + k)) }
    {
        let first = self.first.low_groups(load(bytes, at));
        let second = self.second.low_groups(load(bytes, at + 1));
        let third = self.third.low_groups(load(bytes, at + 2));
        first & second & third
    }

    /// The first of thirty-two places that meets some group.
    #[inline(always)]
    fn find_in_block(&self, bytes: &[u8], at: usize) -> Option<usize>
        requires within { at + 34 ≤ length bytes.now }
        ensures first { IsFirst (MeetsAt self.now bytes.now) at (at + 32) result }
    {
        let met = lanes_met(self.groups(bytes, at));
        if met == 0 {
            return None;
        }
        Some(at + met.trailing_zeros() as usize)
    }

    /// The first place of so many blocks that meets some group.
    #[inline(always)]
    fn find_in_blocks(&self, bytes: &[u8], blocks: usize) -> Option<usize>
        requires within { blocks * 32 ≤ length bytes.now - 2 }
        ensures first { IsFirst (MeetsAt self.now bytes.now) 0 (blocks * 32) result }
    {
        for block in 0..blocks {
            if let Some(at) = self.find_in_block(bytes, block * LANES) {
                return Some(at);
            }
        }
        None
    }

    /// The first place of these bytes that meets some group: a place where a match may start. It takes no memory.
    #[inline(never)]
    pub fn find(&self, bytes: &[u8]) -> Option<usize>
        ensures first { IsFirstMet self.now bytes.now result }
    {
        if bytes.is_empty() {
            return None;
        }
        let blocks = bytes.len().saturating_sub(2) / LANES;
        match self.find_in_blocks(bytes, blocks) {
            Some(at) => Some(at),
            None => self.find_in_rest(bytes, blocks * LANES),
        }
    }

    /// The same of the last places, which are too few for a block.
    #[inline(never)]
    fn find_in_rest(&self, bytes: &[u8], from: usize) -> Option<usize>
        requires within { from ≤ length bytes.now }
        requires few { length bytes.now < from + 34 }
        ensures first { IsFirst (MeetsAt self.now bytes.now) from (length bytes.now) result }
    {
        let rest = padded(bytes, from);
        let left = bytes.len() - from;
        match self.find_in_blocks(&rest, left.div_ceil(LANES)) {
            Some(at) if at < left => Some(from + at),
            _ => None,
        }
    }
}

/// The bytes from a place on, with zeros behind them.
pub(crate) fn padded(bytes: &[u8], from: usize) -> [u8; 80]
    requires within { from ≤ length bytes.now }
    requires few { length bytes.now ≤ from + 80 }
    ensures same { (k : ℕ) → slice_index result k ≡ slice_index bytes.now (from + k) }
{
    let rest = &bytes[from..];
    let mut padded = [0; 80];
    padded[..rest.len()].copy_from_slice(rest);
    padded
}
