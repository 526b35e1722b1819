//! The runs of a cover, and covers of bytes.

ghost use Rattle.std.specs.Prelude.{◌≡◌, IfOk, length};
ghost use Rattle.chromesquid.specs.Rules.{AreRuns, CanCoverAll, CoversBytes, ForItsPatterns, patterns_len_of};

use chromesquid::{AhoCorasick, Match, ReplaceError};
use std::alloc::{AllocError, Global};

/// The runs of a text's cover.
pub fn runs_in(alloc: Global, searcher: &AhoCorasick, text: &[u8]) -> Result<Vec<Match>, AllocError>
    requires can { CanCoverAll searcher.now }
    ensures runs { ForItsPatterns searcher.now (λ p. IfOk result (λ runs.
        AreRuns p text.now runs.items)) }
{
    Ok(searcher.cover_iter(alloc, text)?.collect(alloc)?)
}

/// The bytes with a mask in the place of each run.
pub fn covered_bytes(
    alloc: Global,
    searcher: &AhoCorasick,
    bytes: &[u8],
    masks: &[&[u8]],
) -> Result<Vec<u8>, AllocError>
    requires can { CanCoverAll searcher.now }
    requires one_each { length masks.now ≡ patterns_len_of searcher.now }
    ensures covered { CoversBytes searcher.now bytes.now masks.now result }
{
    searcher.cover_all_bytes(alloc, bytes, masks)
}

/// The bytes with a mask in the place of each run, if the searcher covers.
pub fn try_covered_bytes(
    alloc: Global,
    searcher: &AhoCorasick,
    bytes: &[u8],
    masks: &[&[u8]],
) -> Result<Vec<u8>, ReplaceError>
    requires one_each { length masks.now ≡ patterns_len_of searcher.now }
    ensures covered { CoversBytes searcher.now bytes.now masks.now result }
{
    searcher.try_cover_all_bytes(alloc, bytes, masks)
}
