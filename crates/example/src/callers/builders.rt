//! Builders of their own, and builds by them.

ghost use Rattle.std.specs.Prelude.{IfOk, true};
ghost use Rattle.chromesquid.specs.Rules.{IsBuiltFrom, default_settings, patterns_of};

use chromesquid::{AhoCorasick, AhoCorasickBuilder, BuildError};
use std::alloc::Global;

/// The searcher of words from an iterator, where ASCII letters are the same in both cases.
pub fn searcher_of_both_cases(alloc: Global, words: &[&[u8]]) -> Result<AhoCorasick, BuildError>
    ensures of { IfOk result (λ searcher. IsBuiltFrom searcher
        (patterns_of (record default_settings { ignore_case = true }) words.now)) }
{
    let builder = AhoCorasickBuilder::new().ascii_case_insensitive(true);
    builder.build_from_iter(alloc, words.iter().copied())
}

/// The searcher that is built where nothing is set.
pub fn default_searcher(alloc: Global, words: &[&[u8]]) -> Result<AhoCorasick, BuildError>
    ensures of { IfOk result (λ searcher.
        IsBuiltFrom searcher (patterns_of default_settings words.now)) }
{
    AhoCorasickBuilder::default().build(alloc, words)
}
