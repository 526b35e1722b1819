//! Replacement of bytes by a closure.

ghost use Rattle.chromesquid.specs.Rules.{Answers, No, RunsOverBytes};

use chromesquid::{AhoCorasick, Match};
use std::alloc::AllocError;

/// Appends bytes to others, with what the closure appends in the place of each match.
pub fn append_rewritten_bytes<F>(
    searcher: &AhoCorasick,
    bytes: &[u8],
    out: &mut Vec<u8>,
    rewrite: F,
) -> Result<(), AllocError>
where
    F: FnMut(&Match, &[u8], &mut Vec<u8>) -> Result<bool, AllocError>,
    requires starts { Answers searcher.now No }
    requires callable { F.IsAlwaysCallable rewrite }
    ensures run { RunsOverBytes searcher.now F.FnMut bytes.now rewrite out.old result out.new }
{
    searcher.replace_all_with_bytes(bytes, out, rewrite)
}
