//! Replacement of bytes.

ghost use Rattle.std.specs.Prelude.{◌≡◌, length};
ghost use Rattle.chromesquid.specs.Rules.{Answers, No, ReplacesBytes, patterns_len_of};

use chromesquid::AhoCorasick;
use std::alloc::{AllocError, Global};

/// The bytes with each match replaced by the mask of its pattern.
pub fn masked_bytes(
    alloc: Global,
    searcher: &AhoCorasick,
    masks: &[&[u8]],
    bytes: &[u8],
) -> Result<Vec<u8>, AllocError>
    requires starts { Answers searcher.now No }
    requires one_each { length masks.now ≡ patterns_len_of searcher.now }
    ensures masked { ReplacesBytes searcher.now bytes.now masks.now result }
{
    searcher.replace_all_bytes(alloc, bytes, masks)
}
