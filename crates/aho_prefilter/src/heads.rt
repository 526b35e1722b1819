//! The heads of a few patterns: a bit for each hash of the first bytes of one.

ghost use Rattle.std.specs.Prelude.{◌≡◌, ◌↔◌, ◌+◌, ◌<◌, ◌≤◌, length, IsTrue};
ghost use Rattle.aho_prefilter.specs.Heads.{StandsHead, heads_with, no_heads};

use crate::packed::padded;
use crate::strided::{hash_of_head, is_marked, mark};
use std::marker::Model;

/// How many words of 64 bits the table has.
const WORDS: usize = 64;

/// A bit for each hash of a head: of the first bytes of a pattern, as many for each.
#[derive(Clone, Copy)]
pub(crate) struct Heads {
    /// How many bytes a head has.
    size: usize,
    /// Whether ASCII letters are the same in both cases.
    ignore_case: bool,
    /// The bits.
    table: [u64; WORDS],
}

impl Model for Heads {
    ghost use Rattle.aho_prefilter.specs.Heads.{AreSoundHeads, HeadMarks};

    ghost Value = { HeadMarks };

    ghost view = { λ h. record { size = h.size; ignore_case = h.ignore_case; table = h.table } };

    ghost inverse = { λ m. record { size = m.size; ignore_case = m.ignore_case; table = m.table } };

    ghost invariant = { λ h. AreSoundHeads (record { size = h.size; ignore_case = h.ignore_case; table = h.table }) };
}

impl Heads {
    /// Those of no pattern. A head has so many bytes.
    pub(crate) fn new(size: usize, ignore_case: bool) -> Heads
        requires some { 0 < size }
        requires short { size ≤ 16 }
        ensures none { result ≡ no_heads size ignore_case }
    {
        Heads {
            size,
            ignore_case,
            table: [0; WORDS],
        }
    }

    /// Sets the bit of a pattern's head.
    pub(crate) fn add(&mut self, pattern: &[u8])
        requires long { self.old.size ≤ length pattern.now }
        ensures added { self.new ≡ heads_with self.old pattern.now }
    {
        let start = padded(&pattern[..self.size], 0);
        let hash = hash_of_head(self.ignore_case, self.size, &start, 0);
        mark(&mut self.table, hash);
    }

    /// How many bytes a head has.
    pub(crate) fn size(&self) -> usize
        ensures size { result ≡ self.now.size }
        ensures some { 0 < result }
        ensures short { result ≤ 16 }
    {
        self.size
    }

    /// Whether the bit of the head at a place is set.
    #[inline(always)]
    pub(crate) fn stands_at(&self, bytes: &[u8], at: usize) -> bool
        requires within { at + 16 ≤ length bytes.now }
        ensures stands { IsTrue result ↔ StandsHead self.now bytes.now at }
    {
        is_marked(
            &self.table,
            hash_of_head(self.ignore_case, self.size, bytes, at),
        )
    }
}
