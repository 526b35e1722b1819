//! A search in a stream that may be refused.

ghost use Rattle.std.specs.Prelude.{IfOk, IsOkUnless};
ghost use Rattle.chromesquid.specs.Rules.{Answers, HasNoEmpty, No, RunsFindBeginning};

use chromesquid::{AhoCorasick, Source, StreamError, StreamFindIter};
use std::alloc::Global;

/// The matches of a stream. Where the searcher answers such searches, they are refused only where memory runs out.
pub fn matches_of<'a, 'r, R: Source>(
    alloc: Global,
    searcher: &'a AhoCorasick,
    source: &'r mut R,
) -> Result<StreamFindIter<'a, 'r, R>, StreamError>
    ensures memory { HasNoEmpty searcher.entry.now → Answers searcher.entry.now No
        → IsOkUnless result StreamError.Memory }
    ensures first { IfOk result (RunsFindBeginning R.Source
        ⟦<StreamFindIter<'a, 'r, R> as Iterator>⟧.next_gives searcher.entry.now source.entry.now) }
{
    searcher.try_stream_find_iter(alloc, source)
}
