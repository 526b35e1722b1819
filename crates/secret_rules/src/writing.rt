//! Writing a line with the pieces of its runs in their places.

ghost use Rattle.std.specs.Prelude.{◌≡◌, ◌≤◌, ◌++◌, ◌∷◌, [], OnErr, OnOk, drop, length, slice_range};
ghost use Rattle.std.specs.Io.KnownBytes.{Appends};
ghost use Rattle.aho_core.specs.Occurrence.{Occurrence};
ghost use Rattle.aho_core.specs.Replacement.{replaced_by};
ghost use Rattle.aho_cover.specs.Counting.{CountsThese};
ghost use Rattle.aho_cover.specs.Pieces.{piece_in};
ghost use Rattle.aho_cover.specs.Writes.{TellsWrites};
ghost use Rattle.aho_devices.specs.Counts.{AppendsBeginning};
ghost use Rattle.secret_rules.specs.Writing.{LieFrom};

use aho_core::error::StreamError;
use aho_core::search::{Match, PatternID};
use aho_cover::pieces::Pieces;
use aho_devices::device::Sink;
use aho_devices::write::write_whole;

/// Makes the piece of a run.
fn make<P: Pieces>(pieces: &mut P, line: &[u8], run: &Match)
    requires within { run.now.end ≤ length line.now }
    ensures made { P.made pieces.new run.now.pattern ≡ piece_in (P.rule pieces.old) line.now run.now }
    ensures rule { P.rule pieces.new ≡ P.rule pieces.old }
{
    pieces.begin();
    pieces.feed(&line[run.start()..run.end()]);
    pieces.end(run.pattern());
}

/// Writes some bytes, and others behind them.
pub(crate) fn write_both<W: Sink>(
    sink: &mut W,
    bytes: &[u8],
    more: &[u8],
) -> Result<(), StreamError>
    ensures whole { OnOk result
        (Appends (W.taken sink.old) (W.taken sink.new) (bytes.now ++ more.now)) }
    ensures beginning { OnErr result
        (AppendsBeginning (W.taken sink.old) (W.taken sink.new) (bytes.now ++ more.now)) }
    ensures tells { TellsWrites W.Sink sink.old sink.new result }
{
    write_whole(sink, bytes)?;
    write_whole(sink, more)
}

/// Writes the bytes before a run, and its piece.
fn write_run<W: Sink, P: Pieces>(
    sink: &mut W,
    pieces: &mut P,
    line: &[u8],
    from: usize,
    run: &Match,
) -> Result<(), StreamError>
    requires after { from ≤ run.now.start }
    requires ordered { run.now.start ≤ run.now.end }
    requires within { run.now.end ≤ length line.now }
    ensures whole { OnOk result (Appends (W.taken sink.old) (W.taken sink.new)
        (slice_range line.now from run.now.start ++ piece_in (P.rule pieces.old) line.now run.now)) }
    ensures beginning { OnErr result (AppendsBeginning (W.taken sink.old) (W.taken sink.new)
        (slice_range line.now from run.now.start ++ piece_in (P.rule pieces.old) line.now run.now)) }
    ensures tells { TellsWrites W.Sink sink.old sink.new result }
    ensures rule { P.rule pieces.new ≡ P.rule pieces.old }
{
    make(pieces, line, run);
    let before = &line[from..run.start()];
    write_both(sink, before, pieces.piece(run.pattern()))
}

/// Writes a line with the piece of each run in its place, and its end behind it.
pub(crate) fn write_line<W: Sink, P: Pieces>(
    sink: &mut W,
    pieces: &mut P,
    line: &[u8],
    runs: &[Match],
    end: &[u8],
) -> Result<(), StreamError>
    requires lie { LieFrom line.now 0 runs.now }
    ensures whole { OnOk result (Appends (W.taken sink.old) (W.taken sink.new)
        (replaced_by line.now runs.now (piece_in (P.rule pieces.old) line.now) ++ end.now)) }
    ensures beginning { OnErr result (AppendsBeginning (W.taken sink.old) (W.taken sink.new)
        (replaced_by line.now runs.now (piece_in (P.rule pieces.old) line.now) ++ end.now)) }
    ensures tells { TellsWrites W.Sink sink.old sink.new result }
    ensures rule { P.rule pieces.new ≡ P.rule pieces.old }
{
    let mut at = 0;
    for run in runs {
        write_run(sink, pieces, line, at, run)?;
        at = run.end();
    }
    write_both(sink, &line[at..], end)
}

/// Counts a run for its number, where there is a count for that. A count stops at the greatest number.
pub(crate) fn count_number(counts: &mut [u64], number: PatternID)
    ensures counted { (run : Occurrence) → run.pattern ≡ number
        → CountsThese (run ∷ []) counts.old counts.new }
{
    let number = number.as_usize();
    if number < counts.len() {
        counts[number] = counts[number].saturating_add(1);
    }
}

/// Counts each run.
pub(crate) fn count_runs(counts: &mut [u64], runs: &[Match])
    ensures counted { CountsThese runs.now counts.old counts.new }
{
    for run in runs {
        count_number(counts, run.pattern());
    }
}
