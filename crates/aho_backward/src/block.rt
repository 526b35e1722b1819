//! One block of a stream: the walk over it and what lies behind it, and what is written for it.

ghost use Rattle.std.specs.Prelude.{◌≡◌, ◌+◌, ◌-◌, ◌*◌, ◌<◌, ◌≤◌, ◌^◌, ◌++◌, IfErr, IfOk, OnErr, OnOk, [], length};
ghost use Rattle.std.specs.Io.KnownBytes.{Appends};
ghost use Rattle.aho_core.specs.Laws.{longest};
ghost use Rattle.aho_core.specs.Patterns.{Patterns};
ghost use Rattle.aho_core.specs.Replacement.{pieces_of};
ghost use Rattle.aho_core.specs.declared.search.Anchored.TheVariants.{No};
ghost use Rattle.aho_automaton.specs.Effects.{BeginsIn};
ghost use Rattle.aho_devices.specs.Counts.{AppendsBeginning, counted};
ghost use Rattle.aho_devices.specs.Refusals.{IsWriteRefusal, is_write_fault, is_write_of_nothing};
ghost use Rattle.aho_stream.specs.Replacing.{piece_for};
ghost use Rattle.aho_backward.specs.Backward.{IsTurnedFrom};
ghost use Rattle.aho_backward.specs.Streams.{AreHeldAt, WritesMore, WritesSome};

use crate::choose::told_from;
use aho_automaton::walk::Walk;
use aho_core::error::StreamError;
use aho_core::search::{Anchored, Match, PatternID, StateID};
use aho_devices::device::Sink;
use aho_devices::write::write_whole;

/// Walks over bytes from the last to the first, and puts each state that it is led to at the place of its byte.
#[inline(always)]
fn walk_into<W: Walk>(walk: &mut W, start: StateID, bytes: &[u8], states: &mut [StateID])
    requires begins { BeginsIn W.Of.Automaton (W.of walk.old) No start }
    requires long { length bytes.now ≤ length states.old }
    requires room { W.lookups walk.old + 2 * length bytes.now < 2 ^ 128 }
    ensures held { AreHeldAt W.Of.Automaton (W.of walk.old) bytes.now states.new }
    ensures same { W.of walk.new ≡ W.of walk.old }
    ensures cost { W.lookups walk.new ≤ W.lookups walk.old + 2 * length bytes.now }
{
    let mut sid = start;
    let mut place = bytes.len();
    while place > 0 {
        place -= 1;
        sid = walk.step(Anchored::No, sid, bytes[place]);
        states[place] = sid;
    }
}

/// What is written for a match: the bytes for its pattern, and none where there are none for it.
#[inline(always)]
fn piece_of<'b>(m: &Match, replace_with: &[&'b [u8]]) -> &'b [u8]
    ensures piece { result.now ≡ piece_for (pieces_of replace_with.now) m.now }
{
    match replace_with.get(m.pattern().as_usize()) {
        Some(piece) => piece,
        None => &[],
    }
}

/// Writes the bytes before a find, and then what stands for it.
#[inline(always)]
fn write_find<K: Sink>(sink: &mut K, before: &[u8], piece: &[u8]) -> Result<(), StreamError>
    ensures whole { OnOk result
        (Appends (K.taken sink.old) (K.taken sink.new) (before.now ++ piece.now)) }
    ensures beginning { OnErr result
        (AppendsBeginning (K.taken sink.old) (K.taken sink.new) (before.now ++ piece.now)) }
    ensures write_failed { K.failures sink.new
        ≡ counted (is_write_fault result) (K.failures sink.old) }
    ensures took_nothing { K.empty_writes sink.new
        ≡ counted (is_write_of_nothing result) (K.empty_writes sink.old) }
    ensures only { IfErr result IsWriteRefusal }
{
    write_whole(sink, before)?;
    write_whole(sink, piece)
}

/// Writes the bytes from the first on, with the bytes for its pattern in the place of each find that begins before the last ones,
/// so many as lie behind the block. The states tell what begins at each place. Answers the place up to which all was written:
/// the block's end or, where a find goes further, the end of that.
#[inline(always)]
fn write_finds<W: Walk, K: Sink>(
    walk: &W,
    given: &[PatternID],
    states: &[StateID],
    bytes: &[u8],
    behind: usize,
    sink: &mut K,
    replace_with: &[&[u8]],
) -> Result<usize, StreamError>
    requires of { (p : Patterns) × IsTurnedFrom W.Of.Automaton (W.of walk.now) given.now p }
    requires held { AreHeldAt W.Of.Automaton (W.of walk.now) bytes.now states.now }
    requires behind { behind ≤ length bytes.now }
    ensures written { IfOk result (WritesMore W.Of.Automaton K.Sink (W.of walk.now) given.now
        bytes.now behind (pieces_of replace_with.now) sink.old sink.new) }
    ensures begun { OnErr result (WritesSome W.Of.Automaton K.Sink (W.of walk.now) given.now
        bytes.now behind (pieces_of replace_with.now) sink.old sink.new) }
    ensures further { IfOk result (λ place. length bytes.now ≤ place + behind) }
    ensures within { IfOk result (λ place. place ≤ length bytes.now) }
    ensures write_failed { K.failures sink.new
        ≡ counted (is_write_fault result) (K.failures sink.old) }
    ensures took_nothing { K.empty_writes sink.new
        ≡ counted (is_write_of_nothing result) (K.empty_writes sink.old) }
    ensures only { IfErr result IsWriteRefusal }
{
    let places = bytes.len() - behind;
    let mut copied = 0;
    let mut at = 0;
    while at < places {
        match told_from(walk, given, states[at], at) {
            Some(m) => {
                write_find(sink, &bytes[copied..at], piece_of(&m, replace_with))?;
                at = m.end();
                copied = at;
            }
            None => at += 1,
        }
    }
    write_whole(sink, &bytes[copied..at])?;
    Ok(at)
}

/// Writes a block: these bytes but the last ones, so many as lie behind it. Answers how many bytes were written or replaced: those
/// of the block and, where a find goes further, those of that.
#[inline(always)]
pub(crate) fn write_block<W: Walk, K: Sink>(
    walk: &mut W,
    start: StateID,
    given: &[PatternID],
    bytes: &[u8],
    behind: usize,
    states: &mut [StateID],
    sink: &mut K,
    replace_with: &[&[u8]],
) -> Result<usize, StreamError>
    requires of { (p : Patterns) × IsTurnedFrom W.Of.Automaton (W.of walk.old) given.now p }
    requires begins { BeginsIn W.Of.Automaton (W.of walk.old) No start }
    requires long { length bytes.now ≤ length states.old }
    requires behind { behind ≤ length bytes.now }
    requires room { W.lookups walk.old + 2 * length bytes.now < 2 ^ 128 }
    ensures written { IfOk result (WritesMore W.Of.Automaton K.Sink (W.of walk.old) given.now
        bytes.now behind (pieces_of replace_with.now) sink.old sink.new) }
    ensures begun { OnErr result (WritesSome W.Of.Automaton K.Sink (W.of walk.old) given.now
        bytes.now behind (pieces_of replace_with.now) sink.old sink.new) }
    ensures further { IfOk result (λ count. length bytes.now ≤ count + behind) }
    ensures within { IfOk result (λ count. count ≤ length bytes.now) }
    ensures same { W.of walk.new ≡ W.of walk.old }
    ensures cost { W.lookups walk.new ≤ W.lookups walk.old + 2 * length bytes.now }
    ensures write_failed { K.failures sink.new
        ≡ counted (is_write_fault result) (K.failures sink.old) }
    ensures took_nothing { K.empty_writes sink.new
        ≡ counted (is_write_of_nothing result) (K.empty_writes sink.old) }
    ensures only { IfErr result IsWriteRefusal }
{
    walk_into(walk, start, bytes, states);
    write_finds(&*walk, given, &*states, bytes, behind, sink, replace_with)
}
