//! Builds from an iterator and from a slice.

ghost use Rattle.std.specs.Prelude.{IfErr, IfOk};
ghost use Rattle.chromesquid.specs.Rules.{IsBuiltFrom, IsFailureOf, default_settings, patterns_of};

use chromesquid::{AhoCorasick, BuildError};
use std::alloc::Global;

/// The searcher of words from an iterator.
pub fn searcher_of(alloc: Global, words: &[&[u8]]) -> Result<AhoCorasick, BuildError>
    ensures of { IfOk result (λ searcher.
        IsBuiltFrom searcher (patterns_of default_settings words.now)) }
{
    AhoCorasick::new_from_iter(alloc, words.iter().copied())
}

/// The searcher of some words, and why there is none.
pub fn searcher_or_reason(alloc: Global, words: &[&[u8]]) -> Result<AhoCorasick, BuildError>
    ensures refused { IfErr result
        (IsFailureOf default_settings (patterns_of default_settings words.now)) }
{
    AhoCorasick::new(alloc, words)
}
