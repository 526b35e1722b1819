//! A search.

ghost use Rattle.std.specs.Prelude.{IfOk};
ghost use Rattle.chromesquid.specs.Rules.{Answers, IsAnswer, IsBuiltFrom, LeftmostFirst, No, default_settings, patterns_of, plain_search};

use chromesquid::{AhoCorasick, BuildError, Match, MatchKind};
use std::alloc::Global;

/// A searcher for these words that prefers, of two that begin together, the one that stands first in the list.
fn searcher_for(alloc: Global, words: &[&[u8]]) -> Result<AhoCorasick, BuildError>
    ensures of { IfOk result (λ searcher. IsBuiltFrom searcher
        (patterns_of (record default_settings { kind = LeftmostFirst }) words.now)) }
    ensures starts { IfOk result (λ searcher. Answers searcher No) }
{
    AhoCorasick::builder()
        .match_kind(MatchKind::LeftmostFirst)
        .build(alloc, words)
}

/// The first of these words in a text: of two that begin together the one that stands first in the list.
pub fn first_of(alloc: Global, words: &[&[u8]], text: &[u8]) -> Result<Option<Match>, BuildError>
    ensures found { IfOk result (IsAnswer
        (patterns_of (record default_settings { kind = LeftmostFirst }) words.now)
        (plain_search text.now)) }
{
    let searcher = searcher_for(alloc, words)?;
    Ok(searcher.find(text))
}
