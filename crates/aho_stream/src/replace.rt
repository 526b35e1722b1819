//! Replacement in streams.

ghost use Rattle.std.specs.Prelude.{◌⊎◌, ◌≡◌, ◌≢◌, ◌≤◌, ℕ, Ok, Err, IfErr, false, length};
ghost use Rattle.aho_core.specs.Laws.{shortest};
ghost use Rattle.aho_core.specs.Patterns.{Patterns};
ghost use Rattle.aho_core.specs.Replacement.{pieces_of};
ghost use Rattle.aho_core.specs.declared.error.MatchErrorKind.{MatchErrorKind};
ghost use Rattle.aho_core.specs.declared.error.MatchErrorKind.TheVariants.{UnsupportedEmpty};
ghost use Rattle.aho_core.specs.declared.search.Anchored.TheVariants.{No};
ghost use Rattle.aho_devices.specs.Errors.{CountsErrors};
ghost use Rattle.aho_stream.specs.After.{greatest_position};
ghost use Rattle.aho_stream.specs.Iterators.{HasNotBegun, automaton_of};
ghost use Rattle.aho_stream.specs.Starts.{IsFreshStart};
ghost use Rattle.aho_stream.specs.StreamRun.{CanBegin, RefusesAllUntouched, RefusesUntouched, RunsAndLeaves, RunsLent, RunsOver};
ghost use Rattle.aho_stream.specs.Replacing.{IsMakingRefusal, IsStreamFault, LeavesReplaced, chunk_bytes};

use crate::chunks::StreamChunkIter;
use crate::progress::StreamPiece;
use crate::start::StreamStart;
use aho_automaton::automaton::Automaton;
use aho_core::error::StreamError;
use aho_core::search::Match;
use aho_devices::device::{Sink, Source};
use aho_devices::write::write_whole;
use std::alloc::Global;

/// What is written for a chunk where matches are replaced: its bytes, or the bytes for the pattern of its match; none where there are
/// none for it.
pub fn bytes_for<'b>(piece: &StreamPiece, bytes: &'b [u8], replace_with: &[&'b [u8]]) -> &'b [u8]
    ensures bytes { result.now ≡ chunk_bytes piece.now bytes.now (pieces_of replace_with.now) }
{
    match piece {
        StreamPiece::NonMatch => bytes,
        StreamPiece::Match { mat } => match replace_with.get(mat.pattern().as_usize()) {
            Some(piece) => piece,
            None => &[],
        },
    }
}

/// Writes what is written for each chunk of a stream, of which none was told yet.
fn replace_chunks<'a, 'r, A: Automaton, R: Source, W: Sink>(
    chunks: &mut StreamChunkIter<'a, 'r, A, R>,
    sink: &mut W,
    replace_with: &[&[u8]],
) -> Result<(), StreamError>
    requires some { (p : Patterns) × A.is_of (automaton_of chunks.old) p }
    requires after { HasNotBegun A.Automaton chunks.old }
    requires open { chunks.old.progress.ended ≡ false }
    requires below { chunks.old.progress.refused ≡ false }
    ensures same_source { chunks.new.source.ghost_name ≡ chunks.old.source.ghost_name }
    ensures leaves { LeavesReplaced R.Source W.Sink
        (A.is_of (automaton_of chunks.old)) (pieces_of replace_with.now)
        chunks.old.source.now chunks.new.source.now sink.old sink.new
        chunks.old.progress.limit result }
    ensures errors { CountsErrors R.Source W.Sink
        chunks.old.source.now chunks.new.source.now sink.old sink.new result }
    ensures only { IfErr result IsStreamFault }
{
    while let Some(answer) = chunks.advance_flushing(sink)? {
        let piece = answer?;
        let bytes = bytes_for(&piece, chunks.bytes(), &*replace_with);
        write_whole(sink, bytes)?;
    }
    Ok(())
}

/// Writes what the source gives to the sink, with the bytes for its pattern in the place of each match.
///
/// There is one replacement for each pattern. It ends where the source's end is seen. The matches are those that
/// replacement in memory of the same bytes finds, whatever the pieces in which they are read. It keeps no memory but
/// the buffer of the start, which it fills again and again.
///
/// # Errors
///
/// `Read` exactly where a read fails, `Write` where a write fails, `WriteZero` where a write of some bytes takes none,
/// and `PositionLimit` where as many bytes were given as the start allows and the end was not seen. Nothing is tried
/// again, and what was written then is a beginning of the replacement: after `Read` and `PositionLimit` all of it up to a
/// place that is as far from the last byte given as the longest pattern is long, at most.
pub fn replace_stream<'a, A: Automaton, R: Source, W: Sink>(
    start: StreamStart<'a, A>,
    source: &mut R,
    sink: &mut W,
    replace_with: &[&[u8]],
) -> Result<(), StreamError>
    requires of { (p : Patterns) × A.is_of start.automaton.now p }
    requires fresh { IsFreshStart A.Automaton start }
    requires open { start.progress.ended ≡ false }
    requires below { start.progress.refused ≡ false }
    requires one_each { length replace_with.now ≡ length (A.lengths start.automaton.now) }
    ensures leaves { LeavesReplaced R.Source W.Sink
        (A.is_of start.entry.automaton.now) (pieces_of replace_with.now)
        source.old source.new sink.old sink.new start.entry.progress.limit result }
    ensures errors { CountsErrors R.Source W.Sink
        source.old source.new sink.old sink.new result }
    ensures only { IfErr result IsStreamFault }
{
    let mut chunks = start.over(source);
    let replaced = replace_chunks(&mut chunks, sink, replace_with);
    let _source = chunks.into_source();
    replaced
}

/// Writes what the source gives to the sink, with the bytes for its pattern in the place of each match: `StreamStart::new`
/// and `replace_stream` in one call. The source may give 2^63 - 1 bytes.
///
/// # Errors
///
/// `Match` and `Memory` as `StreamChunkIter::new`, before anything is read. Then as `replace_stream`.
pub fn try_stream_replace_all<A: Automaton, R: Source, W: Sink>(
    alloc: Global,
    automaton: &A,
    source: &mut R,
    sink: &mut W,
    replace_with: &[&[u8]],
) -> Result<(), StreamError>
    requires of { (p : Patterns) × A.is_of automaton.now p }
    requires one_each { length replace_with.now ≡ length (A.lengths automaton.now) }
    ensures leaves { LeavesReplaced R.Source W.Sink
        (A.is_of automaton.now) (pieces_of replace_with.now)
        source.old source.new sink.old sink.new greatest_position result }
    ensures errors { CountsErrors R.Source W.Sink
        source.old source.new sink.old sink.new result }
    ensures untouched { IfErr result (λ error. IsMakingRefusal error →
        (source.new ≡ source.old) × (sink.new ≡ sink.old)) }
    ensures empty { shortest (A.lengths automaton.now) ≡ 0
        → result ≡ Err (StreamError.Match UnsupportedEmpty) }
    ensures refused { (reason : MatchErrorKind) → 1 ≤ shortest (A.lengths automaton.now)
        → A.start automaton.now No ≡ Err reason → result ≡ Err (StreamError.Match reason) }
    ensures suits { (sid : ℕ) (reason : MatchErrorKind) → 1 ≤ shortest (A.lengths automaton.now)
        → A.start automaton.now No ≡ Ok sid → result ≢ Err (StreamError.Match reason) }
{
    let start = StreamStart::new(alloc, automaton)?;
    replace_stream(start, source, sink, replace_with)
}

/// Writes the bytes of a stream that are outside of every match, and calls the closure on each match, of which none was
/// told yet.
fn replace_chunks_with<'a, 'r, A: Automaton, R: Source, W: Sink, F>(
    chunks: &mut StreamChunkIter<'a, 'r, A, R>,
    sink: &mut W,
    replace_with: &mut F,
) -> Result<(), StreamError>
where
    F: FnMut(&Match, &[u8], &mut W) -> Result<(), StreamError>,
    requires some { (p : Patterns) × A.is_of (automaton_of chunks.old) p }
    requires after { HasNotBegun A.Automaton chunks.old }
    requires open { chunks.old.progress.ended ≡ false }
    requires below { chunks.old.progress.refused ≡ false }
    requires limit { chunks.old.progress.limit ≡ greatest_position }
    requires callable { F.IsAlwaysCallable replace_with.old }
    ensures same_source { chunks.new.source.ghost_name ≡ chunks.old.source.ghost_name }
    ensures runs { RunsAndLeaves R.Source W.Sink (A.is_of (automaton_of chunks.old)) F.FnMut
        chunks.old.source.now chunks.new.source.now
        replace_with.old sink.old result replace_with.new sink.new }
    ensures callable { F.IsAlwaysCallable replace_with.new }
{
    while let Some(answer) = chunks.advance() {
        match answer? {
            StreamPiece::NonMatch => write_whole(sink, chunks.bytes())?,
            StreamPiece::Match { mat } => replace_with(&mat, chunks.bytes(), sink)?,
        }
    }
    Ok(())
}

/// Writes what the source gives to the sink, but in the place of each match calls the closure on the match, its bytes and
/// the sink.
///
/// It ends where the source's end is seen. The matches are those that replacement in memory of the same bytes finds,
/// whatever the pieces in which they are read. The closure is lent: afterwards it is what its calls made of it, so what it
/// counted is known.
///
/// # Errors
///
/// `Match` and `Memory` as `StreamChunkIter::new`, before anything is read. An error of the closure ends the replacing
/// and is passed on. Else `Read` exactly where a read fails, `Write` where a write of bytes outside of a match fails,
/// `WriteZero` where such a write takes none, and `PositionLimit` where 2^63 - 1 bytes were given and the end was not
/// seen. Nothing is tried again, and of the bytes behind the last match a beginning was written then. After a
/// failed read, and at the limit, every match was passed on and all was written up to a place that is as far from the
/// last byte given as the longest pattern is long, at most.
pub fn try_stream_replace_all_with_mut<A: Automaton, R: Source, W: Sink, F>(
    alloc: Global,
    automaton: &A,
    source: &mut R,
    sink: &mut W,
    replace_with: &mut F,
) -> Result<(), StreamError>
where
    F: FnMut(&Match, &[u8], &mut W) -> Result<(), StreamError>,
    requires of { (p : Patterns) × A.is_of automaton.now p }
    requires callable { F.IsAlwaysCallable replace_with.old }
    ensures runs { CanBegin A.Automaton automaton.now
        → RunsLent R.Source W.Sink (A.is_of automaton.now) F.FnMut
        source.old source.new replace_with.old sink.old result replace_with.new sink.new }
    ensures empty { shortest (A.lengths automaton.now) ≡ 0
        → RefusesAllUntouched result (StreamError.Match UnsupportedEmpty)
        source.old source.new replace_with.old replace_with.new sink.old sink.new }
    ensures refused { (reason : MatchErrorKind)
        → 1 ≤ shortest (A.lengths automaton.now) → A.start automaton.now No ≡ Err reason
        → RefusesAllUntouched result (StreamError.Match reason)
        source.old source.new replace_with.old replace_with.new sink.old sink.new }
    ensures callable { F.IsAlwaysCallable replace_with.new }
{
    let mut chunks = StreamStart::new(alloc, automaton)?.over(source);
    let answer = replace_chunks_with(&mut chunks, sink, replace_with);
    let _source = chunks.into_source();
    answer
}

/// The same with a closure of its own, of which nothing is known afterwards.
///
/// # Errors
///
/// As those of `try_stream_replace_all_with_mut`.
pub fn try_stream_replace_all_with<A: Automaton, R: Source, W: Sink, F>(
    alloc: Global,
    automaton: &A,
    source: &mut R,
    sink: &mut W,
    mut replace_with: F,
) -> Result<(), StreamError>
where
    F: FnMut(&Match, &[u8], &mut W) -> Result<(), StreamError>,
    requires of { (p : Patterns) × A.is_of automaton.now p }
    requires callable { F.IsAlwaysCallable replace_with }
    ensures runs { CanBegin A.Automaton automaton.now
        → RefusesUntouched result StreamError.Memory source.old source.new sink.old sink.new
        ⊎ RunsOver R.Source W.Sink (A.is_of automaton.now) F.FnMut
        source.old source.new replace_with sink.old result sink.new }
    ensures empty { shortest (A.lengths automaton.now) ≡ 0
        → RefusesUntouched result (StreamError.Match UnsupportedEmpty)
        source.old source.new sink.old sink.new }
    ensures refused { (reason : MatchErrorKind)
        → 1 ≤ shortest (A.lengths automaton.now) → A.start automaton.now No ≡ Err reason
        → RefusesUntouched result (StreamError.Match reason)
        source.old source.new sink.old sink.new }
{
    try_stream_replace_all_with_mut(alloc, automaton, source, sink, &mut replace_with)
}
