//! All matches, those that overlap too.

ghost use Rattle.std.specs.Prelude.{◌≡◌, IfOk, length};
ghost use Rattle.chromesquid.specs.Rules.{Answers, IsBuiltFrom, No, Patterns, Standard, all_occurrences, match_kind_of};

use chromesquid::{AhoCorasick, Match};
use std::alloc::{AllocError, Global};

/// All occurrences of the patterns in a text: by end, then start, then number.
pub fn all_in(alloc: Global, searcher: &AhoCorasick, text: &[u8]) -> Result<Vec<Match>, AllocError>
    requires standard { match_kind_of searcher.now ≡ Standard }
    requires starts { Answers searcher.now No }
    ensures all { (p : Patterns) → IsBuiltFrom searcher.now p → IfOk result (λ found.
        found.items ≡ all_occurrences p text.now 0 (length text.now)) }
{
    Ok(searcher.find_overlapping_iter(text).collect(alloc)?)
}
