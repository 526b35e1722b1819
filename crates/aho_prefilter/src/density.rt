//! How many places of a text meet a packed search with heads, by an estimate.
//!
//! It takes the bytes of a text as if each stood at its place by chance, as often as in most texts. Where that is wrong, a search
//! is slower, and answers the same.

ghost use Rattle.std.specs.Prelude.{◌≡◌, ◌<◌, ◌≤◌, ◌^◌, max};
ghost use Rattle.aho_prefilter.specs.Density.{density, is_common, places_met_by, share_of, weight};

use crate::packed::Masks;
use crate::packed_heads::PackedHeads;

/// Whether a byte is one of the eight letters that stand most often in texts.
pub(crate) fn is_common(byte: u8) -> bool
    ensures common { result ≡ is_common byte }
{
    byte == b'e'
        || byte == b't'
        || byte == b'a'
        || byte == b'o'
        || byte == b'i'
        || byte == b'n'
        || byte == b's'
        || byte == b'r'
}

/// How many of 1,024 bytes of a text are this one, roughly.
fn weight(byte: u8) -> u64
    ensures weight { result ≡ weight byte }
    ensures few { result ≤ 128 }
{
    if byte == b' ' {
        128
    } else if is_common(byte) {
        52
    } else if byte.is_ascii_lowercase() {
        13
    } else if byte.is_ascii_digit() {
        5
    } else if byte.is_ascii_uppercase() {
        3
    } else {
        1
    }
}

/// The same, but so many at least.
fn weight_from(least: u64, byte: u8) -> u64
    requires least { least ≤ 128 }
    ensures weight { result ≡ max (weight byte) least }
    ensures few { result ≤ 128 }
{
    weight(byte).max(least)
}

/// How many of 1,024 bytes of a text meet the group of this number by both of their halves, roughly, where each of them stands so
/// many times at least.
fn share(masks: &Masks, least: u64, group: u32) -> u64
    requires least { least ≤ 128 }
    requires group { group < 8 }
    ensures share { result ≡ share_of masks.now least group }
    ensures few { result ≤ 2 ^ 15 }
{
    let mut share = 0;
    for number in 0..256u32 {
        let byte = number as u8;
        share += weight_from(least, byte) * (masks.groups_of(byte) >> group & 1) as u64;
    }
    share
}

impl PackedHeads {
    /// How many of 2 ^ 40 places of a text meet a group by both halves of four bytes, roughly, where each of these bytes stands so
    /// many times at least among 1,024.
    pub(crate) fn density(&self, least: u64) -> u64
        requires least { least ≤ 128 }
        ensures density { result ≡ density self.now least }
    {
        let mut density = 0;
        for group in 0..8u32 {
            density += self.places_met_by(least, group);
        }
        density
    }

    /// How many of them meet the group of this number.
    fn places_met_by(&self, least: u64, group: u32) -> u64
        requires least { least ≤ 128 }
        requires group { group < 8 }
        ensures met { result ≡ places_met_by self.now least group }
        ensures few { result ≤ 2 ^ 60 }
    {
        let first = share(&self.packed.first, least, group);
        let second = share(&self.packed.second, least, group);
        let third = share(&self.packed.third, least, group);
        let fourth = share(&self.fourth, least, group);
        (first * second) * (third * fourth)
    }
}
