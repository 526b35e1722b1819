//! A haystack whose finds are all there is copied, with other bytes in their places.

ghost use Rattle.std.specs.Prelude.{◌≡◌, ◌++◌, [], IfOk, OnOk, length, slice_index_or, vec_items};
ghost use Rattle.aho_core.specs.Replacement.{pieces_of, replaced};
ghost use Rattle.aho_backward.specs.Replacing.{StandInTurn};

use aho_core::search::Match;
use std::alloc::{AllocError, Global};

/// Appends the piece of a match's pattern, and nothing where that has none.
fn append_piece(dst: &mut Vec<u8>, pieces: &[&[u8]], m: &Match) -> Result<(), AllocError>
    ensures appended { OnOk result (vec_items dst.new ≡ vec_items dst.old
        ++ slice_index_or (pieces_of pieces.now) m.now.pattern []) }
{
    if let Some(piece) = pieces.get(m.pattern().as_usize()) {
        dst.extend_from_slice(piece)?;
    }
    Ok(())
}

/// The haystack with the piece of its pattern in the place of each of these matches, which stand one behind the other.
pub(crate) fn replace_finds(
    alloc: Global,
    haystack: &[u8],
    finds: &[Match],
    pieces: &[&[u8]],
) -> Result<Vec<u8>, AllocError>
    requires apart { StandInTurn 0 (length haystack.now) finds.now }
    ensures replaced { IfOk result (λ bytes. vec_items bytes
        ≡ replaced haystack.now finds.now (pieces_of pieces.now)) }
{
    let mut dst = Vec::new(alloc);
    let mut copied = 0;
    let mut left = finds;
    while let Some((m, rest)) = left.split_first() {
        dst.extend_from_slice(&haystack[copied..m.start()])?;
        append_piece(&mut dst, pieces, m)?;
        copied = m.end();
        left = rest;
    }
    dst.extend_from_slice(&haystack[copied..])?;
    Ok(dst)
}
