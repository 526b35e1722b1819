//! Replacement by a closure.

ghost use Rattle.chromesquid.specs.Rules.{Answers, No, RunsOverText};

use chromesquid::{AhoCorasick, Match};
use std::alloc::AllocError;

/// Appends a text to another, with what the closure appends in the place of each match.
pub fn append_rewritten<F>(
    searcher: &AhoCorasick,
    text: &str,
    out: &mut String,
    rewrite: F,
) -> Result<(), AllocError>
where
    F: FnMut(&Match, &str, &mut String) -> Result<bool, AllocError>,
    requires starts { Answers searcher.now No }
    requires callable { F.IsAlwaysCallable rewrite }
    ensures run { RunsOverText searcher.now F.FnMut text.now rewrite out.old result out.new }
{
    searcher.replace_all_with(text, out, rewrite)
}
