//! Which prefilter there is for some patterns where each kind may be held.

ghost use Rattle.std.specs.Prelude.{◌≡◌, ◌<◌, false, length, IfOk, IfErr, IfSome};
ghost use Rattle.aho_core.specs.Replacement.{pieces_of};
ghost use Rattle.aho_core.specs.declared.search.MatchKind.{MatchKind};
ghost use Rattle.aho_prefilter.specs.Sizes.{shape_of};
ghost use Rattle.aho_prefilter.specs.Prefilter.{IsPrefilterOf, held_or_packed, is_passed_by, packed_heads_for, patterns_from, quickest_for, windows_for, yields};

use crate::packed_heads::{PackedHeads, Tested};
use crate::prefilter::packed_builder::stops_in_words;
use crate::prefilter::{PackedBuilder, Prefilter, Searcher};
use crate::strided::Strided;
use crate::strided::sizes::{Shape, least_head};
use crate::windows::{Windows, most_before, windows_of};
use std::alloc::{AllocError, Global};

/// For how many patterns windows are searched for at most. With more of them they are met at many places.
const MOST_WITH_WINDOWS: usize = 8;

/// How many bytes stand before a window at most.
const MOST_BEFORE: usize = 64;

impl Prefilter {
    /// The prefilter for these patterns where it may be of each kind, or none. `ignore_case` makes an ASCII letter the same in
    /// both cases.
    ///
    /// It is a search for windows for up to eight patterns, some of which begin with four bytes of which texts are full, where each
    /// has four others that do not lie behind the first 64. Else it is a packed search with heads for up to thirty-two patterns of
    /// four bytes or more each (two, for eight and more), and for up to a hundred where the shortest has three to five, or six or
    /// seven and they are made of nine to thirty-two different bytes. It is one too for more patterns of two bytes or more each, of
    /// nine different bytes or more, where by an estimate few places of a text meet its fingerprints: one in sixty-four, or fewer.
    /// Else it is a strided search, if there are more patterns, and each has five bytes or more (six, for up to a hundred and for
    /// more than 8,192 patterns). But it is the one of a `PackedBuilder` where that one searches for first bytes of which words are
    /// not made, and for fewer patterns, or where too many grams of a few letters would be marked.
    ///
    /// # Errors
    ///
    /// Out of memory, for the copy of the first pattern, or for the tables of a strided search.
    pub fn quickest(
        alloc: Global,
        ignore_case: bool,
        patterns: &[&[u8]],
    ) -> Result<Option<Prefilter>, AllocError>
        ensures held { (kind : MatchKind) → IfOk result (λ held.
            held ≡ quickest_for (patterns_from kind ignore_case (pieces_of patterns.now))) }
        ensures of { (kind : MatchKind) → IfOk result (λ held. IfSome held (λ prefilter.
            IsPrefilterOf prefilter (patterns_from kind ignore_case (pieces_of patterns.now)))) }
        ensures some { IfErr result (λ _. 0 < length patterns.now) }
    {
        let other = packed_or_other(alloc, ignore_case, patterns)?;
        if !yields(&other) {
            return Ok(other);
        }
        let windows = windows_for(alloc, ignore_case, patterns)?;
        if let Some(searcher) = windows {
            return Ok(Some(Prefilter { searcher }));
        }
        let shape = Shape::of(ignore_case, patterns);
        if let Some(searcher) = packed_heads_for(shape, ignore_case, patterns) {
            return Ok(Some(Prefilter { searcher }));
        }
        let Some(sizes) = shape.sizes() else {
            return Ok(other);
        };
        let strided = Strided::new(alloc, sizes, patterns)?;
        Ok(Some(Prefilter {
            searcher: Searcher::Strided(strided),
        }))
    }
}

/// The search for the windows of these patterns, if there are a few, and some begin with bytes of which texts are full, and each of
/// them goes on with other ones.
fn windows_for(
    alloc: Global,
    ignore_case: bool,
    patterns: &[&[u8]],
) -> Result<Option<Searcher>, AllocError>
    ensures held { (kind : MatchKind) → IfOk result (λ held.
        held ≡ windows_for (patterns_from kind ignore_case (pieces_of patterns.now))) }
    ensures some { IfErr result (λ _. 0 < length patterns.now) }
{
    if patterns.len() > MOST_WITH_WINDOWS {
        return Ok(None);
    }
    let before = most_before(ignore_case, patterns);
    if before == 0 || before > MOST_BEFORE {
        return Ok(None);
    }
    let windows = windows_of(alloc, ignore_case, patterns)?;
    let size = least_head(&windows);
    if size < 4 {
        return Ok(None);
    }
    let search = PackedHeads::new(ignore_case, Tested::LowFour, size, &windows);
    Ok(Some(Searcher::Windows(Windows { search, before })))
}

/// The packed search with heads for these patterns, if there are a few, or few places of a text meet it.
fn packed_heads_for(shape: Shape, ignore_case: bool, patterns: &[&[u8]]) -> Option<Searcher>
    requires shape { shape ≡ shape_of ignore_case (pieces_of patterns.now) }
    ensures held { (kind : MatchKind)
        → result ≡ packed_heads_for (patterns_from kind ignore_case (pieces_of patterns.now)) }
{
    let Some(size) = shape.heads() else {
        return None;
    };
    let search = PackedHeads::new(ignore_case, shape.tested(), size, patterns);
    if shape.takes(&search) {
        Some(Searcher::PackedHeads(search))
    } else {
        None
    }
}

/// The prefilter that a `PackedBuilder` makes of these patterns.
fn packed_or_other(
    alloc: Global,
    ignore_case: bool,
    patterns: &[&[u8]],
) -> Result<Option<Prefilter>, AllocError>
    ensures held { (kind : MatchKind) → IfOk result (λ held.
        held ≡ held_or_packed (patterns_from kind ignore_case (pieces_of patterns.now))) }
    ensures exact { IfErr result (λ _. ignore_case ≡ false) }
    ensures some { IfErr result (λ _. 0 < length patterns.now) }
{
    let mut builder = PackedBuilder::new(alloc, ignore_case);
    for pattern in patterns {
        builder.add(pattern)?;
    }
    builder.build()
}

/// Whether a strided search is better than this prefilter.
fn yields(other: &Option<Prefilter>) -> bool
    ensures yields { result ≡ yields other.now }
{
    match other {
        Some(prefilter) => is_passed_by(&prefilter.searcher),
        None => true,
    }
}

/// Whether a strided search is better than this one.
fn is_passed_by(searcher: &Searcher) -> bool
    ensures passed { result ≡ is_passed_by searcher.now }
{
    match searcher {
        Searcher::Packed(_) => true,
        _ => stops_in_words(searcher),
    }
}
