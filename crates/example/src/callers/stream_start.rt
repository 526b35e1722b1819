//! A search in a stream that is refused before there is a source.

ghost use Rattle.chromesquid.specs.Rules.{Answers, HasNoEmpty, No, RunsFindBeginning};
ghost use Rattle.std.specs.Prelude.{IfOk};

use chromesquid::{AhoCorasick, Source, StreamFindIter, stream_finds};
use std::alloc::{AllocError, Global};

/// The matches of what a source gives. Where there is no memory for the search, the source was not lent to it.
pub fn matches_after_start<'a, 'r, R: Source>(
    alloc: Global,
    searcher: &'a AhoCorasick,
    source: &'r mut R,
) -> Result<StreamFindIter<'a, 'r, R>, AllocError>
    requires no_empty { HasNoEmpty searcher.now }
    requires starts { Answers searcher.now No }
    ensures first { IfOk result (RunsFindBeginning R.Source
        ⟦<StreamFindIter<'a, 'r, R> as Iterator>⟧.next_gives searcher.entry.now source.entry.now) }
{
    let start = searcher.stream_start(alloc)?;
    Ok(stream_finds(start, source))
}
