//! The first items of an iterator over the finds of a stream.

ghost use Rattle.std.specs.Prelude.{IfOk};
ghost use Rattle.chromesquid.specs.Rules.{FindsBeginning, ForItsPatterns, RunsFindBeginning};

use chromesquid::{AhoCorasick, Match, Source, StreamError};
use std::alloc::{AllocError, Global};

/// The first items: what is promised of all runs of the iterator is true of them.
pub fn first_items<R: Source, I: Iterator<Item = Result<Match, StreamError>> + Drop>(
    alloc: Global,
    searcher: &AhoCorasick,
    items: I,
    count: usize,
) -> Result<Vec<Result<Match, StreamError>>, AllocError>
    requires can { I.can_next items }
    ensures first { (source : R)
        → RunsFindBeginning R.Source I.next_gives searcher.now source items
        → ForItsPatterns searcher.now (λ p. IfOk result (λ found.
        FindsBeginning R.Source p source found.items)) }
{
    items.take(count).collect(alloc)
}
