//! A redactor: a stream with a mask in the place of each secret.

ghost use Rattle.std.specs.Prelude.{◌≡◌, OnOk, length};
ghost use Rattle.chromesquid.specs.Rules.{IsReplaced, default_settings, patterns_of, pieces_of};

use anyhow::Result;
use chromesquid::{AhoCorasick, Sink, Source};
use std::alloc::Global;

/// Writes what the source gives to the sink, with its mask in the place of each secret.
pub fn redact<R: Source, W: Sink>(
    alloc: Global,
    secrets: &[&[u8]],
    masks: &[&[u8]],
    source: &mut R,
    sink: &mut W,
) -> Result<()>
    requires one_each { length masks.now ≡ length secrets.now }
    ensures redacted { OnOk result (IsReplaced R.Source W.Sink (patterns_of default_settings secrets.now)
        (pieces_of masks.now) source.old source.new sink.old sink.new) }
{
    let searcher = AhoCorasick::new(alloc, secrets)?;
    Ok(searcher.try_stream_replace_all(alloc, source, sink, masks)?)
}
