//! Replacement in a stream by a closure that may be refused.

ghost use Rattle.chromesquid.specs.Rules.{Answers, HasNoEmpty, No, RunsStream};

use chromesquid::{AhoCorasick, Match, Sink, Source, StreamError};
use std::alloc::Global;

/// Writes what the source gives to the sink, with what the closure writes in the place of each match.
pub fn try_rewrite_stream<R: Source, W: Sink, F>(
    alloc: Global,
    searcher: &AhoCorasick,
    source: &mut R,
    sink: &mut W,
    rewrite: F,
) -> Result<(), StreamError>
where
    F: FnMut(&Match, &[u8], &mut W) -> Result<(), StreamError>,
    requires no_empty { HasNoEmpty searcher.now }
    requires starts { Answers searcher.now No }
    requires callable { F.IsAlwaysCallable rewrite }
    ensures runs { RunsStream R.Source W.Sink searcher.now F.FnMut
        source.old source.new rewrite sink.old result sink.new }
{
    searcher.try_stream_replace_all_with(alloc, source, sink, rewrite)
}
