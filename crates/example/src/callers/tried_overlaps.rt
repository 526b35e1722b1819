//! All matches, by a searcher that may refuse to list them.

ghost use Rattle.std.specs.Prelude.{◌≡◌, IfOk, length, true};
ghost use Rattle.chromesquid.specs.Rules.{Answers, IsBuiltFrom, No, Patterns, Standard, all_occurrences, match_kind_of};

use anyhow::Result;
use chromesquid::{AhoCorasick, Match};
use std::alloc::Global;

/// All occurrences of the patterns in a text.
pub fn try_all_in(alloc: Global, searcher: &AhoCorasick, text: &[u8]) -> Result<Vec<Match>>
    ensures all { (p : Patterns) → IsBuiltFrom searcher.now p → IfOk result (λ found.
        found.items ≡ all_occurrences p text.now 0 (length text.now)) }
{
    Ok(searcher.try_find_overlapping_iter(text)?.collect(alloc)?)
}

/// Whether the searcher lists them.
pub fn can_list_all(searcher: &AhoCorasick, text: &[u8]) -> bool
    ensures lists { match_kind_of searcher.now ≡ Standard → Answers searcher.now No
        → result ≡ true }
{
    searcher.try_find_overlapping_iter(text).is_ok()
}
