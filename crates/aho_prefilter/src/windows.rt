//! The search for windows: for patterns that begin with bytes of which texts are full.
//!
//! The window of a pattern is the rest of it from its first four bytes on that do not all stand often in texts. A packed search with
//! heads looks for the windows in the place of the patterns. Before a window there stand as many bytes of its pattern as stand
//! before the window of any, at most. So where the first window stands, a pattern may start that many places before, and none starts
//! sooner.

ghost use Rattle.std.specs.Prelude.{◌≡◌, ◌+◌, ◌<◌, ◌≤◌, length, IfOk, IfErr, IsTrue};
ghost use Rattle.aho_core.specs.Replacement.{pieces_of};
ghost use Rattle.aho_prefilter.specs.Windows.{FindsWindow, begins_often, bytes_before, is_frequent, most_before, windows_of};

use crate::density::is_common;
use crate::packed_heads::{PackedHeads, byte_at};
use aho_core::letters::opposite_ascii_case;
use std::alloc::{AllocError, Global};

/// A search for the windows of patterns.
#[derive(Clone, Copy)]
pub(crate) struct Windows {
    /// The search for the windows.
    pub(crate) search: PackedHeads,
    /// How many bytes of a pattern stand before its window, at most.
    pub(crate) before: usize,
}

impl Windows {
    /// A place of these bytes before which no pattern starts, if one may start at all. It takes no memory.
    #[inline(always)]
    pub(crate) fn find(&self, bytes: &[u8]) -> Option<usize>
        ensures first { FindsWindow self.now bytes.now result }
    {
        match self.search.find(bytes) {
            Some(hit) => Some(hit.saturating_sub(self.before)),
            None => None,
        }
    }
}

/// Whether a byte stands often in texts: a space, or a common letter.
fn is_frequent(ignore_case: bool, byte: u8) -> bool
    ensures frequent { result ≡ is_frequent ignore_case byte }
{
    byte == b' ' || is_common(byte) || ignore_case && is_common(opposite_ascii_case(byte))
}

/// Whether the first four bytes of a word all do.
fn begins_often(ignore_case: bool, word: &[u8]) -> bool
    ensures often { result ≡ begins_often ignore_case word.now }
{
    is_frequent(ignore_case, byte_at(word, 0))
        && is_frequent(ignore_case, byte_at(word, 1))
        && is_frequent(ignore_case, byte_at(word, 2))
        && is_frequent(ignore_case, byte_at(word, 3))
}

/// How many bytes of a pattern stand before its window.
fn bytes_before(ignore_case: bool, pattern: &[u8]) -> usize
    ensures before { result ≡ bytes_before ignore_case pattern.now }
    ensures within { result ≤ length pattern.now }
{
    for place in 0..pattern.len() {
        if !begins_often(ignore_case, &pattern[place..]) {
            return place;
        }
    }
    pattern.len()
}

/// How many do at most.
pub(crate) fn most_before(ignore_case: bool, patterns: &[&[u8]]) -> usize
    ensures most { result ≡ most_before ignore_case (pieces_of patterns.now) }
{
    let mut most = 0;
    for pattern in patterns {
        most = most.max(bytes_before(ignore_case, pattern));
    }
    most
}

/// The windows of these patterns.
///
/// # Errors
///
/// Out of memory.
pub(crate) fn windows_of<'p>(
    alloc: Global,
    ignore_case: bool,
    patterns: &[&'p [u8]],
) -> Result<Vec<&'p [u8]>, AllocError>
    ensures windows { IfOk result (λ windows.
        pieces_of windows.items ≡ windows_of ignore_case (pieces_of patterns.now)) }
    ensures some { IfErr result (λ _. 0 < length patterns.now) }
{
    let mut windows = Vec::new(alloc);
    for pattern in patterns {
        let before = bytes_before(ignore_case, pattern);
        windows.push(&pattern[before..pattern.len()])?;
    }
    Ok(windows)
}
