//! For which patterns a strided search is held, and with what sizes.

ghost use Rattle.std.specs.Prelude.{◌≡◌, ℕ, ◌<◌, ◌≤◌, false, slice_index, if◌then◌else◌};
ghost use Rattle.aho_core.specs.Replacement.{pieces_of};
ghost use Rattle.aho_prefilter.specs.FirstBytes.{has_byte};
ghost use Rattle.aho_prefilter.specs.Sizes.{gram_for, has_heads, has_lines, heads_for, is_crowded, is_few, is_many, is_random, is_small, is_sparse, least_head, least_weight, shape_of, sizes_for, stride_for, takes, tested_for, used_below, wanted_gram, words_for};

use crate::packed_heads::{PackedHeads, Tested};

/// The sizes of a strided search.
#[derive(Clone, Copy)]
pub(crate) struct Sizes {
    /// How many bytes a gram has.
    pub(super) gram: usize,
    /// How many places one gram is looked up for.
    pub(super) stride: usize,
    /// How many of the first bytes of each pattern are looked at.
    pub(super) head: usize,
    /// Whether ASCII letters are the same in both cases.
    pub(super) ignore_case: bool,
    /// Whether the first bytes of a gram tell where its two bits are.
    pub(super) lines: bool,
    /// How many words the table of grams has.
    pub(super) words: usize,
}

/// What the sizes for some patterns depend on.
#[derive(Clone, Copy)]
pub(crate) struct Shape {
    /// How many patterns there are.
    count: usize,
    /// How many bytes the shortest has, but sixteen at most.
    head: usize,
    /// How many different bytes they are made of.
    letters: usize,
    /// Whether ASCII letters are the same in both cases.
    ignore_case: bool,
}

impl Shape {
    /// The shape of these patterns.
    pub(crate) fn of(ignore_case: bool, patterns: &[&[u8]]) -> Shape
        ensures of { result ≡ shape_of ignore_case (pieces_of patterns.now) }
    {
        Shape {
            count: patterns.len(),
            head: least_head(patterns),
            letters: letters_of(patterns),
            ignore_case,
        }
    }

    /// How many bytes a head has, if a packed search with heads may be held for patterns of this shape.
    pub(crate) fn heads(self) -> Option<usize>
        ensures heads { result ≡ heads_for self }
    {
        if self.is_few() || self.is_many() {
            Some(self.head)
        } else {
            None
        }
    }

    /// Whether there are so many patterns that one is held only where few places meet it. It is held for none of up to eight bytes,
    /// since the text may be made of these alone.
    fn is_many(self) -> bool
        ensures many { result ≡ is_many self }
    {
        self.count > 32 && self.head >= 2 && self.letters > 8
    }

    /// Whether this packed search with heads is the one for patterns of this shape.
    pub(crate) fn takes(self, search: &PackedHeads) -> bool
        ensures takes { result ≡ takes self search.now }
    {
        self.is_few() || self.is_sparse(search)
    }

    /// Whether few places of a text meet this search: one in sixty-four, or in as many as a fourth of the patterns, but one in
    /// 1,024 at least.
    fn is_sparse(self, search: &PackedHeads) -> bool
        ensures sparse { result ≡ is_sparse self search.now }
    {
        let places = (self.count / 4).max(64).min(1024) as u64;
        search.density(self.least_weight()) <= (1 << 40) / places
    }

    /// How many of 1,024 bytes of a text are one of which patterns are made, at least. Where a strided search may be held too, the
    /// text is taken for one that may be made of the same bytes as the patterns.
    fn least_weight(self) -> u64
        ensures weight { result ≡ least_weight self }
        ensures few { result ≤ 128 }
    {
        if self.is_small() {
            0
        } else {
            1024 / self.letters.max(8) as u64
        }
    }

    /// Whether there are a few patterns, and they are long enough, or so many that three bytes of them stand at many places of a
    /// text.
    fn is_few(self) -> bool
        ensures few { result ≡ is_few self }
    {
        self.count >= 1
            && self.head >= 2
            && (self.count <= 32 && (self.head >= 4 || self.count >= 8)
                || self.count <= 100 && self.has_heads())
    }

    /// Whether more than thirty-two patterns have heads for which a packed search is better than a strided one: short ones, or
    /// those of words.
    fn has_heads(self) -> bool
        ensures heads { result ≡ has_heads self }
    {
        self.head >= 3
            && (self.head <= 5 || self.head <= 7 && self.letters > 8 && self.letters <= 32)
    }

    /// Which halves of how many bytes a packed search with heads looks up: the more patterns, the more bytes. Where the shortest
    /// pattern has too few for that, and where there are more than a few patterns, both halves of four.
    pub(crate) fn tested(self) -> Tested
        ensures tested { result ≡ tested_for self }
    {
        if !self.is_few()
            || self.head < 4
            || self.count > 20 && self.head < 5
            || self.count > 32 && self.head < 6
        {
            Tested::Four
        } else if self.head < 5 || self.count <= 8 {
            Tested::LowFour
        } else if self.head < 6 || self.count <= 20 {
            Tested::LowFive
        } else {
            Tested::LowSix
        }
    }

    /// The sizes for patterns of this shape, if a strided search is held for them.
    pub(crate) fn sizes(self) -> Option<Sizes>
        requires short { self.head ≤ 16 }
        ensures sizes { result ≡ sizes_for self }
    {
        if self.is_small() {
            return None;
        }
        let gram = self.gram();
        let stride = (self.head + 1 - gram).min(8);
        if self.is_crowded(gram, stride) {
            return None;
        }
        Some(Sizes {
            gram,
            stride,
            head: self.head,
            ignore_case: self.ignore_case,
            lines: self.has_lines(),
            words: self.words(stride),
        })
    }

    /// Whether there are too few patterns, or they are too short.
    fn is_small(self) -> bool
        ensures small { result ≡ is_small self }
    {
        self.head < 5
            || self.count <= 32
            || self.head < 6 && (self.count <= 100 || self.count > 8192)
    }

    /// How many bytes a gram has.
    fn gram(self) -> usize
        requires large { is_small self ≡ false }
        requires short { self.head ≤ 16 }
        ensures gram { result ≡ gram_for self }
    {
        self.wanted_gram().max(4).min(8).min(self.head - 1)
    }

    /// How many bytes a gram is to have, so that few places of a text have one by chance.
    fn wanted_gram(self) -> usize
        requires short { self.head ≤ 16 }
        ensures wanted { result ≡ wanted_gram self }
    {
        if self.letters <= 8 {
            8
        } else if self.is_random() {
            4
        } else if self.count <= 200 {
            4
        } else if self.count <= 8192 {
            (self.head + 2) / 2
        } else {
            (self.head + 4) / 2
        }
    }

    /// Whether patterns are made of so many different bytes that they may be any.
    fn is_random(self) -> bool
        ensures random { result ≡ is_random self }
    {
        self.letters > 128
    }

    /// Whether the first bytes of a gram tell where its two bits are: for many patterns, and for those of any bytes.
    fn has_lines(self) -> bool
        ensures lines { result ≡ has_lines self }
    {
        self.count > 8192 || self.is_random()
    }

    /// How many words the table of grams has: one for each, or more of them for a few; fewer for patterns of any bytes, since a
    /// text of any bytes meets all of the table.
    fn words(self, stride: usize) -> usize
        requires stride { stride ≡ stride_for self }
        requires few { stride ≤ 8 }
        ensures words { result ≡ words_for self }
    {
        let grams = self.count.min(1 << 18) * stride;
        if self.is_random() {
            (grams / 2).min(1 << 16)
        } else {
            grams.max((3 * grams).min(8192))
        }
    }

    /// Whether half of all grams of a few letters, or more, would have their bits set.
    fn is_crowded(self, gram: usize, stride: usize) -> bool
        requires gram { gram ≡ gram_for self }
        requires stride { stride ≡ stride_for self }
        requires steps { 0 < stride }
        ensures crowded { result ≡ is_crowded self }
    {
        if self.letters > 8 || self.head >= 12 {
            return false;
        }
        self.count > self.letters.pow(gram as u32) / (2 * stride)
    }
}

/// How many bytes the shortest of these patterns has, but sixteen at most.
pub(crate) fn least_head(patterns: &[&[u8]]) -> usize
    ensures head { result ≡ least_head (pieces_of patterns.now) }
{
    let mut head = 16;
    for pattern in patterns {
        head = head.min(pattern.len());
    }
    head
}

/// How many different bytes these patterns are made of.
fn letters_of(patterns: &[&[u8]]) -> usize
    ensures letters { result ≡ used_below (pieces_of patterns.now) 256 }
{
    let mut seen = [0u8; 256];
    for pattern in patterns {
        see(&mut seen, pattern);
    }
    let mut letters = 0;
    for one in seen {
        letters += one as usize;
    }
    letters
}

/// Notes the bytes of a pattern.
fn see(seen: &mut [u8; 256], pattern: &[u8])
    ensures seen { (byte : ℕ) → byte < 256 → slice_index seen.new byte
        ≡ (if has_byte pattern.now byte then 1 else slice_index seen.old byte) }
{
    for byte in pattern {
        seen[*byte as usize] = 1;
    }
}
