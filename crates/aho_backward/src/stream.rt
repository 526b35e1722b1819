//! Replacement in streams, by a walk backward over one block after another.
//!
//! What was read and not written yet stands in a buffer. A block is all of it but the last bytes, so many as the longest pattern has
//! less one: what begins in the block ends among these bytes at the latest. It is written once it has at least as many places as
//! bytes lie behind it. So at most twice as many bytes are walked for it as it has places, and with at most two look-ups for each of
//! them all look-ups together are at most four for each byte of the stream, whatever the patterns are and wherever they match. At
//! the stream's end the block is all that is left.
//!
//! Before each read all blocks were written and flushed. Then fewer bytes are left than twice as many as lie behind a block.

ghost use Rattle.std.specs.Prelude.{◌≡◌, ◌+◌, ◌-◌, ◌*◌, ◌<◌, ◌≤◌, ◌^◌, ◌⊎◌, max, Err, IfErr, IfOk, IsOk, OnErr, OnOk, drop, false, length, true};
ghost use Rattle.aho_core.specs.Laws.{longest};
ghost use Rattle.aho_core.specs.Numbers.{greatest_index};
ghost use Rattle.aho_core.specs.Patterns.{Patterns};
ghost use Rattle.aho_core.specs.Replacement.{pieces_of};
ghost use Rattle.aho_core.specs.declared.error.stream.StreamError.{StreamError};
ghost use Rattle.aho_core.specs.declared.search.Anchored.TheVariants.{No};
ghost use Rattle.aho_automaton.specs.Effects.{BeginsIn};
ghost use Rattle.aho_devices.specs.Buffer.{Gains, capacity_for, saw_end};
ghost use Rattle.aho_devices.specs.Counts.{counted};
ghost use Rattle.aho_devices.specs.Errors.{CountsErrors};
ghost use Rattle.aho_devices.specs.Refusals.{IsFillRefusal, IsWriteRefusal, is_read_fault, is_write_fault, is_write_of_nothing};
ghost use Rattle.aho_stream.specs.After.{greatest_position, kept_for};
ghost use Rattle.aho_stream.specs.Replacing.{IsMakingRefusal, IsStreamFault};
ghost use Rattle.aho_backward.specs.Backward.{IsTurnedFrom};
ghost use Rattle.aho_backward.specs.Streams.{FourAByte, LeavesByBlocks, SettlesTo, WritesSome};

use crate::block::write_block;
use aho_automaton::walk::Walk;
use aho_core::error::StreamError;
use aho_core::search::{Anchored, PatternID, StateID};
use aho_devices::buffer::{Buffer, Filled};
use aho_devices::device::{Sink, Source};
use std::alloc::{AllocError, Global};

/// The most bytes that a stream may give: 2^63 - 1.
const MAX_POSITION: u64 = 9_223_372_036_854_775_807;

/// How many bytes are walked at once at most, where the longest pattern does not have more than half as many.
const WALKED: usize = 65_536;

/// A state for each byte that is walked at once.
fn states_for(alloc: Global, start: StateID, reach: usize) -> Result<Vec<StateID>, AllocError>
    requires small { reach ≤ greatest_index }
    ensures room { IfOk result (λ states. 2 * max 1 reach ≤ length states.items) }
{
    vec![in alloc; start; WALKED.max(2 * reach)]
}

/// Lets go of bytes at the front of a buffer that were written, and answers how many of these it still holds.
fn let_go(buffer: &mut Buffer, passed: usize) -> usize
    requires within { passed ≤ length buffer.old.bytes }
    requires few { length buffer.old.bytes ≤ passed + buffer.old.least }
    requires enough { buffer.old.least ≤ length buffer.old.bytes }
    ensures held { drop result buffer.new.bytes ≡ drop passed buffer.old.bytes }
    ensures within { result ≤ length buffer.new.bytes }
    ensures passed { result ≤ buffer.old.least }
    ensures least { buffer.new.least ≡ buffer.old.least }
    ensures size { buffer.new.size ≡ buffer.old.size }
{
    let gone = buffer.buffer().len() - buffer.min_buffer_len();
    buffer.roll();
    passed - gone
}

/// Reads once, at most `most` bytes. The sink shows that all that was written by now was flushed.
fn read_on<R: Source, K: Sink>(
    buffer: &mut Buffer,
    source: &mut R,
    _sink: &K,
    room: u64,
    most: usize,
) -> Result<Filled, StreamError>
    requires flushed { K.flushed _sink.now ≡ true }
    requires free { length buffer.old.bytes < buffer.old.size }
    requires some { 0 < most }
    ensures gained { Gains buffer.old buffer.new (R.remaining source.old) (R.remaining source.new) }
    ensures limited { IfOk result (λ filled. (filled.read ≤ room) × (filled.read ≤ most)) }
    ensures told { IfOk result (λ filled.
        length buffer.new.bytes ≡ length buffer.old.bytes + filled.read) }
    ensures some_or_ended { IfOk result (λ filled. (filled.ended ≡ false → 0 < filled.read)
        × (filled.ended ≡ true → filled.read ≡ 0)) }
    ensures nothing { OnErr result (length buffer.new.bytes ≡ length buffer.old.bytes) }
    ensures ended { R.empty_reads source.new
        ≡ counted (saw_end result) (R.empty_reads source.old) }
    ensures read_failed { R.failures source.new
        ≡ counted (is_read_fault result) (R.failures source.old) }
    ensures limit { result ≡ Err StreamError.PositionLimit → room ≡ 0 }
    ensures only { IfErr result IsFillRefusal }
{
    buffer.fill_once(source, room.min(most as u64))
}

/// The bytes that a buffer holds behind those at its front that were written.
fn unwritten(buffer: &Buffer, passed: usize) -> &[u8]
    requires within { passed ≤ length buffer.now.bytes }
    ensures bytes { result.now ≡ drop passed buffer.now.bytes }
{
    &buffer.buffer()[passed..]
}

/// Writes a block of what a buffer holds behind the bytes at its front that were written, where there is enough for one. Answers
/// how many bytes at its front were written then.
fn write_settled<W: Walk, K: Sink>(
    walk: &mut W,
    start: StateID,
    given: &[PatternID],
    buffer: &mut Buffer,
    passed: usize,
    states: &mut [StateID],
    sink: &mut K,
    replace_with: &[&[u8]],
) -> Result<usize, StreamError>
    requires of { (p : Patterns) × IsTurnedFrom W.Of.Automaton (W.of walk.old) given.now p }
    requires begins { BeginsIn W.Of.Automaton (W.of walk.old) No start }
    requires least { (1 ≤ buffer.old.least) × (buffer.old.least ≤ greatest_index) }
    requires some { passed < length buffer.old.bytes }
    requires passed { passed ≤ buffer.old.least }
    requires long { length buffer.old.bytes ≤ passed + length states.old }
    requires room { W.lookups walk.old + 2 * (length buffer.old.bytes - passed) < 2 ^ 128 }
    ensures settled { IfOk result (λ now. SettlesTo W.Of.Automaton K.Sink (W.of walk.old) given.now
        (buffer.old.least - 1) (pieces_of replace_with.now)
        (drop passed buffer.old.bytes) (drop now buffer.new.bytes)
        sink.old sink.new (W.lookups walk.old) (W.lookups walk.new)) }
    ensures begun { OnErr result (WritesSome W.Of.Automaton K.Sink (W.of walk.old) given.now
        (drop passed buffer.old.bytes) (buffer.old.least - 1) (pieces_of replace_with.now)
        sink.old sink.new) }
    ensures cost { W.lookups walk.new
        ≤ W.lookups walk.old + 2 * (length buffer.old.bytes - passed) }
    ensures within { IfOk result (λ now. now ≤ length buffer.new.bytes) }
    ensures passed { IfOk result (λ now. now ≤ buffer.old.least) }
    ensures least { buffer.new.least ≡ buffer.old.least }
    ensures size { buffer.new.size ≡ buffer.old.size }
    ensures same { W.of walk.new ≡ W.of walk.old }
    ensures write_failed { K.failures sink.new
        ≡ counted (is_write_fault result) (K.failures sink.old) }
    ensures took_nothing { K.empty_writes sink.new
        ≡ counted (is_write_of_nothing result) (K.empty_writes sink.old) }
    ensures only { IfErr result IsWriteRefusal }
{
    let behind = buffer.min_buffer_len() - 1;
    let bytes = unwritten(buffer, passed);
    if bytes.len() < 2 * behind {
        return Ok(passed);
    }
    let count = write_block(
        walk,
        start,
        given,
        bytes,
        behind,
        states,
        sink,
        replace_with,
    )?;
    Ok(let_go(buffer, passed + count))
}

/// Replaces what the source gives, block after block. All memory that it needs is there.
fn replace_blocks<W: Walk, R: Source, K: Sink>(
    walk: &mut W,
    start: StateID,
    given: &[PatternID],
    buffer: &mut Buffer,
    states: &mut [StateID],
    source: &mut R,
    sink: &mut K,
    replace_with: &[&[u8]],
) -> Result<(), StreamError>
    requires of { (p : Patterns) × IsTurnedFrom W.Of.Automaton (W.of walk.old) given.now p }
    requires begins { BeginsIn W.Of.Automaton (W.of walk.old) No start }
    requires empty { length buffer.old.bytes ≡ 0 }
    requires least { buffer.old.least ≡ kept_for (W.Of.lengths (W.of walk.old)) }
    requires small { buffer.old.least ≤ greatest_index }
    requires size { buffer.old.size ≡ capacity_for buffer.old.least }
    requires states { 2 * buffer.old.least ≤ length states.old }
    requires room { W.lookups walk.old + 4 * greatest_position < 2 ^ 128 }
    ensures leaves { LeavesByBlocks R.Source K.Sink
        (λ p. IsTurnedFrom W.Of.Automaton (W.of walk.old) given.now p) (pieces_of replace_with.now)
        source.old source.new sink.old sink.new greatest_position result }
    ensures errors { CountsErrors R.Source K.Sink
        source.old source.new sink.old sink.new result }
    ensures four_look_ups_a_byte { FourAByte R.Source source.old source.new
        (W.lookups walk.old) (W.lookups walk.new) }
    ensures only { IfErr result IsStreamFault }
    ensures same { W.of walk.new ≡ W.of walk.old }
{
    let mut passed = 0;
    let mut room = MAX_POSITION;
    loop {
        sink.flush()?;
        let most = states.len() - (buffer.buffer().len() - passed);
        let filled = read_on(buffer, source, &*sink, room, most)?;
        if filled.ended {
            break;
        }
        room -= filled.read;
        passed = write_settled(
            walk,
            start,
            given,
            buffer,
            passed,
            states,
            sink,
            &*replace_with,
        )?;
    }
    let rest = unwritten(buffer, passed);
    write_block(walk, start, given, rest, 0, states, sink, replace_with)?;
    Ok(())
}

/// Writes what the source gives to the sink, with the bytes for its pattern in the place of each find, by an automaton of the
/// patterns turned round. `reach` is the longest pattern's length. Nothing is written for a pattern that has no bytes there.
///
/// It takes all its memory before it reads: a buffer of 8 times as many bytes as the longest pattern has, and 65536 at least, and
/// four bytes for each of 65536 places, or of twice as many as the longest pattern has bytes where that is more.
///
/// # Errors
///
/// `Memory` where an allocation fails; then nothing was read or written. Else as `Backward::try_stream_replace_all`.
pub fn stream_replace_in<W: Walk, R: Source, K: Sink>(
    alloc: Global,
    walk: &mut W,
    given: &[PatternID],
    reach: usize,
    source: &mut R,
    sink: &mut K,
    replace_with: &[&[u8]],
) -> Result<(), StreamError>
    requires of { (p : Patterns) × IsTurnedFrom W.Of.Automaton (W.of walk.old) given.now p }
    requires starts { IsOk (W.Of.start (W.of walk.old) No) }
    requires reach { reach ≡ longest (W.Of.lengths (W.of walk.old)) }
    requires small { reach ≤ greatest_index }
    requires room { W.lookups walk.old + 4 * greatest_position < 2 ^ 128 }
    ensures leaves { LeavesByBlocks R.Source K.Sink
        (λ p. IsTurnedFrom W.Of.Automaton (W.of walk.old) given.now p) (pieces_of replace_with.now)
        source.old source.new sink.old sink.new greatest_position result }
    ensures errors { CountsErrors R.Source K.Sink
        source.old source.new sink.old sink.new result }
    ensures four_look_ups_a_byte { FourAByte R.Source source.old source.new
        (W.lookups walk.old) (W.lookups walk.new) }
    ensures only { IfErr result (λ error. (error ≡ StreamError.Memory) ⊎ IsStreamFault error) }
    ensures untouched { IfErr result (λ error. IsMakingRefusal error →
        (source.new ≡ source.old) × (sink.new ≡ sink.old)) }
    ensures same { W.of walk.new ≡ W.of walk.old }
{
    let start = walk.start_state(Anchored::No).unwrap();
    let mut buffer = Buffer::new(alloc, reach)?;
    let mut states = states_for(alloc, start, reach)?;
    buffer.facts();
    replace_blocks(
        walk,
        start,
        given,
        &mut buffer,
        states.as_mut_slice(),
        source,
        sink,
        replace_with,
    )
}
