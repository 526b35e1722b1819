//! Covers of streams.

ghost use Rattle.std.specs.Prelude.{◌≡◌, OnOk, length};
ghost use Rattle.chromesquid.specs.Rules.{CanCoverAll, CoversWhole, IsStreamCovered, default_settings, patterns_len_of, patterns_of, pieces_of};

use anyhow::Result;
use chromesquid::{AhoCorasick, Sink, Source, StreamError};
use std::alloc::Global;

/// Writes what the source gives to the sink, with a mask in the place of each run of its cover.
pub fn covered_stream<R: Source, W: Sink>(
    alloc: Global,
    searcher: &AhoCorasick,
    source: &mut R,
    sink: &mut W,
    masks: &[&[u8]],
) -> Result<(), StreamError>
    requires can { CanCoverAll searcher.now }
    requires one_each { length masks.now ≡ patterns_len_of searcher.now }
    ensures covered { CoversWhole R.Source W.Sink searcher.now masks.now
        source.old source.new sink.old sink.new result }
{
    searcher.stream_cover_all(alloc, source, sink, masks)
}

/// Writes what the source gives to the sink, and no byte that lies in one of these secrets, whichever of them overlap.
pub fn cover_secrets<R: Source, W: Sink>(
    alloc: Global,
    secrets: &[&[u8]],
    masks: &[&[u8]],
    source: &mut R,
    sink: &mut W,
) -> Result<()>
    requires one_each { length masks.now ≡ length secrets.now }
    ensures covered { OnOk result (IsStreamCovered R.Source W.Sink (patterns_of default_settings secrets.now)
        (pieces_of masks.now) source.old source.new sink.old sink.new) }
{
    let searcher = AhoCorasick::new(alloc, secrets)?;
    Ok(searcher.try_stream_cover_all(alloc, source, sink, masks)?)
}
