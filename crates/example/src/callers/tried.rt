//! Searches that may be refused.

ghost use Rattle.std.specs.Prelude.{IfOk, None};
ghost use Rattle.chromesquid.specs.Rules.{AreFinds, IsAnswer, IsBuiltFrom, Patterns};

use anyhow::Result;
use chromesquid::{AhoCorasick, Input, Match, MatchError};
use std::alloc::Global;

/// The match that a search finds.
pub fn find(searcher: &AhoCorasick, input: Input<'_>) -> Result<Option<Match>, MatchError>
    ensures found { (p : Patterns) → IsBuiltFrom searcher.now p
        → IfOk result (IsAnswer p input.entry) }
{
    searcher.try_find(input)
}

/// The matches of a search.
pub fn find_all(alloc: Global, searcher: &AhoCorasick, input: Input<'_>) -> Result<Vec<Match>>
    ensures finds { (p : Patterns) → IsBuiltFrom searcher.now p
        → IfOk result (λ found. AreFinds p input.entry None found.items) }
{
    Ok(searcher.try_find_iter(input)?.collect(alloc)?)
}
