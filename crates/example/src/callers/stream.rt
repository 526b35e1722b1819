//! The matches of a stream.

ghost use Rattle.std.specs.Prelude.{IfOk};
ghost use Rattle.chromesquid.specs.Rules.{Answers, HasNoEmpty, No, RunsFindBeginning};

use chromesquid::{AhoCorasick, Source, StreamFindIter};
use std::alloc::{AllocError, Global};

/// A search of what a source gives: at any time it has told the first of the finds.
pub fn matches_in<'a, 'r, R: Source>(
    alloc: Global,
    searcher: &'a AhoCorasick,
    source: &'r mut R,
) -> Result<StreamFindIter<'a, 'r, R>, AllocError>
    requires no_empty { HasNoEmpty searcher.now }
    requires starts { Answers searcher.now No }
    ensures first { IfOk result (RunsFindBeginning R.Source
        ⟦<StreamFindIter<'a, 'r, R> as Iterator>⟧.next_gives searcher.entry.now source.entry.now) }
{
    searcher.stream_find_iter(alloc, source)
}
