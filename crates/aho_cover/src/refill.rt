//! Reading on: one read behind the bytes that are kept.

ghost use Rattle.std.specs.Prelude.{◌≡◌, ◌<◌, ℕ, List, length, min, IfErr, OnErr, OnOk, Ok, true, false};
ghost use Rattle.aho_devices.specs.Counts.{counted};
ghost use Rattle.aho_devices.specs.Refusals.{IsFillRefusal, is_read_fault};
ghost use Rattle.aho_stream.specs.After.{EndsWith, greatest_position};
ghost use Rattle.aho_stream.specs.Refills.{is_limit};
ghost use Rattle.aho_cover.specs.Feeds.{HasFedFirst};
ghost use Rattle.aho_cover.specs.Progress.{IsSoundCover, KeepsRoom, walk_end};
ghost use Rattle.aho_cover.specs.Refilling.{TakesIn, sees_end};
ghost use Rattle.aho_cover.specs.Steps.{MayRoll};

use crate::progress::CoverProgress;
use aho_core::error::StreamError;
use aho_devices::buffer::Buffer;
use aho_devices::device::{Sink, Source};

/// The most bytes that a stream may give: 2^63 - 1.
const MAX_POSITION: u64 = 9_223_372_036_854_775_807;

/// Lets go of all but the last bytes of a buffer, where it holds more than it has to keep.
fn make_room(buffer: &mut Buffer)
    ensures free { length buffer.new.bytes < buffer.new.size }
    ensures last { (given : List ℕ) → EndsWith given buffer.old.bytes
        → EndsWith given buffer.new.bytes }
    ensures kept { length buffer.new.bytes ≡ min buffer.old.least (length buffer.old.bytes) }
    ensures least { buffer.new.least ≡ buffer.old.least }
{
    buffer.facts();
    if buffer.buffer().len() >= buffer.min_buffer_len() {
        buffer.roll();
    }
}

/// Reads once, behind the bytes that are kept. Says whether the end of the stream was seen. The sink shows that all that was written
/// by now was flushed.
pub(crate) fn refill<R: Source, W: Sink>(
    progress: &mut CoverProgress,
    source: &mut R,
    _sink: &W,
) -> Result<bool, StreamError>
    requires flushed { W.flushed _sink.now ≡ true }
    requires sound { IsSoundCover progress.old (walk_end progress.old) }
    requires near { MayRoll progress.old }
    requires fed { HasFedFirst progress.old }
    ensures sound { OnOk result (IsSoundCover progress.new (walk_end progress.old)) }
    ensures takes { TakesIn progress.old progress.new (R.remaining source.old) (R.remaining source.new) }
    ensures more { result ≡ Ok false → progress.old.read < progress.new.read }
    ensures none { result ≡ Ok true → progress.new.read ≡ progress.old.read }
    ensures fails { OnErr result (progress.new.read ≡ progress.old.read) }
    ensures room { KeepsRoom progress.old progress.new }
    ensures ended { R.empty_reads source.new
        ≡ counted (sees_end result) (R.empty_reads source.old) }
    ensures read_failed { R.failures source.new
        ≡ counted (is_read_fault result) (R.failures source.old) }
    ensures limit { is_limit result ≡ true → progress.old.read ≡ greatest_position }
    ensures only { IfErr result IsFillRefusal }
{
    make_room(&mut progress.buffer);
    let room = MAX_POSITION - progress.read as u64;
    let filled = progress.buffer.fill_once(source, room)?;
    progress.read += filled.read as usize;
    Ok(filled.ended)
}
