//! Replacement in a stream.

ghost use Rattle.std.specs.Prelude.{◌≡◌, length};
ghost use Rattle.chromesquid.specs.Rules.{Answers, HasNoEmpty, No, ReplacesWhole, patterns_len_of};

use chromesquid::{AhoCorasick, Sink, Source, StreamError};
use std::alloc::Global;

/// Writes what the source gives to the sink, with a mask in the place of each match.
pub fn mask_stream<R: Source, W: Sink>(
    alloc: Global,
    searcher: &AhoCorasick,
    masks: &[&[u8]],
    source: &mut R,
    sink: &mut W,
) -> Result<(), StreamError>
    requires one_each { length masks.now ≡ patterns_len_of searcher.now }
    requires no_empty { HasNoEmpty searcher.now }
    requires starts { Answers searcher.now No }
    ensures masked { ReplacesWhole R.Source W.Sink searcher.now masks.now
        source.old source.new sink.old sink.new result }
{
    searcher.stream_replace_all(alloc, source, sink, masks)
}
