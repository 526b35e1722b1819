//! A build with settings.

ghost use Rattle.std.specs.Prelude.{◌≡◌, IfOk};
ghost use Rattle.chromesquid.specs.Rules.{IsBuiltFrom, default_settings, patterns_of};

use chromesquid::{AhoCorasick, BuildError, Limits, StartKind};
use std::alloc::Global;

/// A searcher that takes little memory, for all searches. Long words are refused.
pub fn small_searcher(alloc: Global, words: &[&[u8]]) -> Result<AhoCorasick, BuildError>
    ensures of { IfOk result (λ searcher.
        IsBuiltFrom searcher (patterns_of default_settings words.now)) }
    ensures starts { IfOk result (λ searcher. searcher.start_kind ≡ StartKind.Both) }
{
    let limits = Limits {
        id: 1_000_000,
        pattern: 1_000,
        length: 100,
    };
    AhoCorasick::builder()
        .start_kind(StartKind::Both)
        .prefilter(false)
        .dense_depth(0)
        .limits(limits)
        .build(alloc, words)
}
