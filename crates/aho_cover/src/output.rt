//! What is written for a run, and how it is counted.

ghost use Rattle.std.specs.Prelude.{◌≡◌, ◌++◌, [], ◌∷◌, OnErr, OnOk, slice_index_or};
ghost use Rattle.std.specs.Io.KnownBytes.{Appends};
ghost use Rattle.aho_core.specs.Replacement.{pieces_of};
ghost use Rattle.aho_devices.specs.Counts.{AppendsBeginning};
ghost use Rattle.aho_cover.specs.Counting.{CountsThese};
ghost use Rattle.aho_cover.specs.Writes.{TellsWrites};

use aho_core::error::StreamError;
use aho_core::search::{Match, PatternID};
use aho_devices::device::Sink;
use aho_devices::write::write_whole;

/// The piece of a pattern: no byte, where there is none.
pub(crate) fn piece_of<'b>(pieces: &[&'b [u8]], pattern: PatternID) -> &'b [u8]
    ensures piece { result.now ≡ slice_index_or (pieces_of pieces.now) pattern [] }
{
    match pieces.get(pattern.as_usize()) {
        Some(piece) => piece,
        None => &[],
    }
}

/// Counts a run for its pattern, where there is a count for that. A count stops at the greatest number.
pub(crate) fn count_run(counts: &mut [u64], run: &Match)
    ensures counted { CountsThese (run.now ∷ []) counts.old counts.new }
{
    let number = run.pattern().as_usize();
    if number < counts.len() {
        counts[number] = counts[number].saturating_add(1);
    }
}

/// Writes some bytes, and a piece behind them.
pub(crate) fn write_both<W: Sink>(
    sink: &mut W,
    bytes: &[u8],
    piece: &[u8],
) -> Result<(), StreamError>
    ensures whole { OnOk result
        (Appends (W.taken sink.old) (W.taken sink.new) (bytes.now ++ piece.now)) }
    ensures beginning { OnErr result
        (AppendsBeginning (W.taken sink.old) (W.taken sink.new) (bytes.now ++ piece.now)) }
    ensures tells { TellsWrites W.Sink sink.old sink.new result }
{
    write_whole(sink, bytes)?;
    write_whole(sink, piece)
}
