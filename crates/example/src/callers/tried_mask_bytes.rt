//! Replacement of bytes that may be refused.

ghost use Rattle.std.specs.Prelude.{◌≡◌, length};
ghost use Rattle.chromesquid.specs.Rules.{ReplacesBytes, patterns_len_of};

use chromesquid::{AhoCorasick, ReplaceError};
use std::alloc::Global;

/// The bytes with each match replaced by the mask of its pattern, if the searcher answers such a search.
pub fn bytes_masked_by(
    alloc: Global,
    searcher: &AhoCorasick,
    masks: &[&[u8]],
    bytes: &[u8],
) -> Result<Vec<u8>, ReplaceError>
    requires one_each { length masks.now ≡ patterns_len_of searcher.now }
    ensures masked { ReplacesBytes searcher.now bytes.now masks.now result }
{
    searcher.try_replace_all_bytes(alloc, bytes, masks)
}
