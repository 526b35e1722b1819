//! The first answers of a search in a stream.

ghost use Rattle.std.specs.Prelude.{IfOk};
ghost use Rattle.chromesquid.specs.Rules.{Answers, FindsBeginning, HasNoEmpty, IsBuiltFrom, No, Patterns};

use crate::callers::first_items::first_items;
use chromesquid::{AhoCorasick, Match, Source, StreamError};
use std::alloc::{AllocError, Global};

/// The first answers of a search of what a source gives: matches, and errors between them.
pub fn first_of<R: Source>(
    alloc: Global,
    searcher: &AhoCorasick,
    source: &mut R,
    count: usize,
) -> Result<Vec<Result<Match, StreamError>>, AllocError>
    requires no_empty { HasNoEmpty searcher.now }
    requires starts { Answers searcher.now No }
    ensures first { (p : Patterns) → IsBuiltFrom searcher.now p → IfOk result (λ found.
        FindsBeginning R.Source p source.old found.items) }
{
    let matches = searcher.stream_find_iter(alloc, source)?;
    first_items::<R, _>(alloc, searcher, matches, count)
}
