//! Replacement of bytes by a closure that may be refused.

ghost use Rattle.chromesquid.specs.Rules.{EndsOverBytes};

use chromesquid::{AhoCorasick, Match, ReplaceError};
use std::alloc::AllocError;

/// Appends bytes to others, with what the closure appends in the place of each match, if the searcher answers such a search.
pub fn try_append_rewritten_bytes<F>(
    searcher: &AhoCorasick,
    bytes: &[u8],
    out: &mut Vec<u8>,
    rewrite: F,
) -> Result<(), ReplaceError>
where
    F: FnMut(&Match, &[u8], &mut Vec<u8>) -> Result<bool, AllocError>,
    requires callable { F.IsAlwaysCallable rewrite }
    ensures run { EndsOverBytes searcher.now F.FnMut bytes.now rewrite out.old result out.new }
{
    searcher.try_replace_all_with_bytes(bytes, out, rewrite)
}
