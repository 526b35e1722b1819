//! Replacement of text by a closure that may be refused.

ghost use Rattle.chromesquid.specs.Rules.{EndsOverText};

use chromesquid::{AhoCorasick, Match, ReplaceError};
use std::alloc::AllocError;

/// Appends a text to another, with what the closure appends in the place of each match, if the searcher answers such a search.
pub fn try_append_rewritten<F>(
    searcher: &AhoCorasick,
    text: &str,
    out: &mut String,
    rewrite: F,
) -> Result<(), ReplaceError>
where
    F: FnMut(&Match, &str, &mut String) -> Result<bool, AllocError>,
    requires callable { F.IsAlwaysCallable rewrite }
    ensures run { EndsOverText searcher.now F.FnMut text.now rewrite out.old result out.new }
{
    searcher.try_replace_all_with(text, out, rewrite)
}
