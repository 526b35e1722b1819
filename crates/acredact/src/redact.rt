//! The redaction of one stream by matches that are counted.

ghost use Rattle.std.specs.Prelude.{◌∷◌, [], false, slice_index_or};
ghost use Rattle.aho_core.specs.Replacement.{pieces_of};
ghost use Rattle.aho_cover.specs.Counting.{CountsThese};
ghost use Rattle.acredact.specs.Files.{deed_of};
ghost use Rattle.acredact.specs.Secrets.{CanRedact, IfOf, redactor_by};
ghost use Rattle.acredact.specs.Streams.{DoesStream, WritesPiece};

use chromesquid::any::try_stream_replace_all_with_mut;
use chromesquid::{Automaton, Match, Sink, Source, StreamError, write_whole};
use std::alloc::Global;

/// Writes what the source gives to the sink, with its replacement in the place of each match, and counts the matches of each pattern.
///
/// # Errors
///
/// `Read` and `Write` exactly where a read or a write fails, `WriteZero` where a write takes nothing, `PositionLimit` where the
/// source gave 2^63 - 1 bytes, and `Memory`. What was written is then a beginning of the redaction.
pub fn redact_counting<A: Automaton, R: Source, W: Sink>(
    alloc: Global,
    automaton: &A,
    replacements: &[&[u8]],
    counts: &mut [u64],
    source: &mut R,
    sink: &mut W,
) -> Result<(), StreamError>
    requires ready { CanRedact A.Automaton automaton.now false replacements.now }
    ensures { IfOf A.Automaton automaton.now (λ p. DoesStream R.Source W.Sink (deed_of (redactor_by p false false replacements.now))
        source.old source.new sink.old sink.new result counts.old counts.new) }
{
    let mut put = |found: &Match, _matched: &[u8], sink: &mut W| {
        put_counted(counts, replacements, found, sink)
    };
    try_stream_replace_all_with_mut(alloc, automaton, source, sink, &mut put)
}

/// Counts a match, and writes what stands in its place.
fn put_counted<W: Sink>(
    counts: &mut [u64],
    replacements: &[&[u8]],
    found: &Match,
    sink: &mut W,
) -> Result<(), StreamError>
    ensures written { WritesPiece W.Sink result sink.old sink.new
        (slice_index_or (pieces_of replacements.now) found.now.pattern []) }
    ensures counted { CountsThese (found.now ∷ []) counts.old counts.new }
{
    count_match(counts, found);
    match replacements.get(found.pattern().as_usize()) {
        Some(replacement) => write_whole(sink, replacement),
        None => Ok(()),
    }
}

/// One match more of its pattern, where that has a count. A count stops at the greatest number.
fn count_match(counts: &mut [u64], found: &Match)
    ensures counted { CountsThese (found.now ∷ []) counts.old counts.new }
{
    let number = found.pattern().as_usize();
    if number < counts.len() {
        counts[number] = counts[number].saturating_add(1);
    }
}
