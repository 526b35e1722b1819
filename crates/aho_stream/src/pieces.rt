//! The next chunk of what was read: the walk up to where it is settled, and what it tells.

ghost use Rattle.std.specs.Prelude.{◌≡◌, ◌≢◌, ◌+◌, ◌<◌, ◌≤◌, None, Some, IfSome, true, false};
ghost use Rattle.aho_stream.specs.After.{IsDue, IsOutside, IsUnderWay, IsUnsettled, OnlyWalks, ReportsAtStart, StaysAfter};
ghost use Rattle.aho_stream.specs.Chunks.{TellsNext};

use crate::progress::{StreamPiece, StreamProgress};
use crate::settle::{is_settled, walk_on};
use crate::skip::{is_at_beginning, skip};
use aho_automaton::walk::Walk;
use aho_core::search::Match;

/// Walks on over what was read and not walked yet, until the match in hand is settled or, where it may wait, in a start with
/// nothing in hand.
#[inline(always)]
fn walk_further<W: Walk>(walk: &mut W, progress: &mut StreamProgress, may_wait: bool)
    requires after { IsUnderWay W.Of.Automaton (W.of walk.old) (W.lookups walk.old) progress.old }
    requires open { progress.old.refused ≡ false }
    requires unsettled { IsUnsettled W.Of.Automaton (W.of walk.old) progress.old }
    ensures after { StaysAfter W.Of.Automaton (W.of walk.old)
        (W.lookups walk.old) progress.old (W.lookups walk.new) progress.new }
    ensures all { may_wait ≡ false → IsUnsettled W.Of.Automaton (W.of walk.old) progress.new
        → progress.new.walked ≡ progress.new.read }
    ensures on { progress.old.walked ≤ progress.new.walked }
    ensures further { progress.old.walked < progress.old.read
        → progress.old.walked < progress.new.walked }
    ensures same { W.of walk.new ≡ W.of walk.old }
    ensures others { OnlyWalks progress.old progress.new }
{
    let at = (progress.walked - progress.origin) as usize;
    let bytes = progress.bytes(progress.walked, progress.read);
    let walked = walk_on(walk, bytes, at, progress.sid, progress.in_hand, may_wait);
    progress.walked += walked.count as u64;
    progress.position += walked.count as u128;
    progress.sid = walked.sid;
    progress.in_hand = walked.found;
}

/// Whether a walk may wait for a candidate: the automaton has a prefilter for streams, there is patience left, and what is left
/// of the bytes read is as long as a match may be.
fn may_wait<W: Walk>(walk: &W, progress: &StreamProgress) -> bool
    requires walked { progress.now.walked ≤ progress.now.read }
{
    if progress.patience == 0 || walk.stream_prefilter().is_none() {
        return false;
    }
    progress.read - progress.walked >= progress.buffer.min_buffer_len() as u64
}

/// Whether all that was read was walked, or the match in hand is settled.
fn is_searched<W: Walk>(walk: &W, progress: &StreamProgress) -> bool
    requires valid { W.Of.valid (W.of walk.now) progress.now.sid }
    ensures all { result ≡ true → IsUnsettled W.Of.Automaton (W.of walk.now) progress.now
        → progress.now.walked ≡ progress.now.read }
    ensures left { result ≡ false → progress.now.walked ≢ progress.now.read }
    ensures unsettled { result ≡ false → IsUnsettled W.Of.Automaton (W.of walk.now) progress.now }
{
    if progress.walked == progress.read {
        return true;
    }
    is_settled(walk, progress.sid, &progress.in_hand)
}

/// Walks on over what was read and not walked yet, until the match in hand is settled. It skips to the next candidate in each
/// start with nothing in hand, as long as the patience of the bytes read lasts.
#[inline(always)]
fn search_skipping<W: Walk>(walk: &mut W, progress: &mut StreamProgress)
    requires after { IsUnderWay W.Of.Automaton (W.of walk.old) (W.lookups walk.old) progress.old }
    requires open { progress.old.refused ≡ false }
    requires unsettled { IsUnsettled W.Of.Automaton (W.of walk.old) progress.old }
    ensures after { StaysAfter W.Of.Automaton (W.of walk.old)
        (W.lookups walk.old) progress.old (W.lookups walk.new) progress.new }
    ensures all { IsUnsettled W.Of.Automaton (W.of walk.old) progress.new
        → progress.new.walked ≡ progress.new.read }
    ensures same { W.of walk.new ≡ W.of walk.old }
    ensures others { OnlyWalks progress.old progress.new }
{
    while may_wait(walk, progress) {
        skip(walk, progress);
        walk_further(walk, progress, true);
        if is_searched(walk, progress) {
            return;
        }
    }
    walk_further(walk, progress, false);
}

/// Walks on over what was read and not walked yet, until the match in hand is settled.
fn search<W: Walk>(walk: &mut W, progress: &mut StreamProgress)
    requires after { IsUnderWay W.Of.Automaton (W.of walk.old) (W.lookups walk.old) progress.old }
    requires open { progress.old.refused ≡ false }
    ensures after { StaysAfter W.Of.Automaton (W.of walk.old)
        (W.lookups walk.old) progress.old (W.lookups walk.new) progress.new }
    ensures all { IsUnsettled W.Of.Automaton (W.of walk.old) progress.new
        → progress.new.walked ≡ progress.new.read }
    ensures same { W.of walk.new ≡ W.of walk.old }
    ensures others { OnlyWalks progress.old progress.new }
{
    if is_settled(walk, progress.sid, &progress.in_hand) {
        return;
    }
    search_skipping(walk, progress);
}

/// The place up to which bytes are outside of every match, where all that was read was walked and a match in hand is not
/// given yet.
///
/// A match that ends later is no longer than the longest pattern, and starts behind what the walk read where that ended in
/// a start state. A match in hand starts no farther back, while the state is not dead.
fn outside<W: Walk>(walk: &W, progress: &StreamProgress) -> u64
    requires valid { W.Of.valid (W.of walk.now) progress.now.sid }
    ensures ended { progress.now.ended ≡ true → result ≡ progress.now.read }
    ensures open { progress.now.ended ≡ false
        → IsOutside W.Of.Automaton (W.of walk.now) progress.now result }
{
    if progress.ended {
        return progress.read;
    }
    if is_at_beginning(walk, progress) {
        return progress.walked;
    }
    progress
        .walked
        .saturating_sub(progress.buffer.min_buffer_len() as u64)
}

/// The match that is given next: the one in hand, once it is settled or the end of the stream was seen.
fn next_match<W: Walk>(walk: &W, progress: &StreamProgress) -> Option<Match>
    requires valid { W.Of.valid (W.of walk.now) progress.now.sid }
    ensures in_hand { IfSome result (λ m. progress.now.in_hand ≡ Some m) }
    ensures due { IfSome result (λ m. IsDue W.Of.Automaton (W.of walk.now) progress.now) }
    ensures none { result ≡ None → IsUnsettled W.Of.Automaton (W.of walk.now) progress.now
        × (progress.now.ended ≡ true → progress.now.in_hand ≡ None) }
{
    if progress.ended || is_settled(walk, progress.sid, &progress.in_hand) {
        return progress.in_hand;
    }
    None
}

/// The next chunk of what was walked: the match that is given next, and before it the bytes that are outside of every match.
fn piece<W: Walk>(walk: &W, progress: &mut StreamProgress) -> Option<StreamPiece>
    requires after { IsUnderWay W.Of.Automaton (W.of walk.now) (W.lookups walk.now) progress.old }
    requires walked { IsUnsettled W.Of.Automaton (W.of walk.now) progress.old
        → progress.old.walked ≡ progress.old.read }
    requires open { progress.old.refused ≡ false }
    ensures after { StaysAfter W.Of.Automaton (W.of walk.now)
        (W.lookups walk.now) progress.old (W.lookups walk.now) progress.new }
    ensures tells { TellsNext W.Of.Automaton (W.of walk.now)
        (W.lookups walk.now) progress.old progress.new result }
    ensures none { result ≡ None → progress.new ≡ progress.old }
    ensures unsettled { result ≡ None → IsUnsettled W.Of.Automaton (W.of walk.now) progress.old }
    ensures near { result ≡ None
        → progress.new.walked ≤ progress.new.reported + progress.new.buffer.least }
    ensures start { result ≡ None
        → ReportsAtStart W.Of.Automaton (W.of walk.now) progress.new }
    ensures buffer { progress.new.buffer ≡ progress.old.buffer }
    ensures end { result ≡ None → progress.new.ended ≡ true
        → (progress.new.read ≤ progress.new.reported) × (progress.new.in_hand ≡ None) }
    ensures ended { progress.new.ended ≡ progress.old.ended }
    ensures refused { progress.new.refused ≡ progress.old.refused }
    ensures limit { progress.new.limit ≡ progress.old.limit }
{
    let Some(m) = next_match(walk, progress) else {
        let end = outside(walk, progress);
        return progress.report(end);
    };
    let start = progress.origin + m.start() as u64;
    match progress.report(start) {
        Some(piece) => Some(piece),
        None => Some(StreamPiece::Match {
            mat: progress.give(m),
        }),
    }
}

/// The next chunk of what was read, by walking on where no match in hand is settled; none where more has to be read first.
pub(crate) fn next_piece<W: Walk>(
    walk: &mut W,
    progress: &mut StreamProgress,
) -> Option<StreamPiece>
    requires after { IsUnderWay W.Of.Automaton (W.of walk.old) (W.lookups walk.old) progress.old }
    requires open { progress.old.refused ≡ false }
    ensures after { StaysAfter W.Of.Automaton (W.of walk.old)
        (W.lookups walk.old) progress.old (W.lookups walk.new) progress.new }
    ensures tells { TellsNext W.Of.Automaton (W.of walk.old)
        (W.lookups walk.old) progress.old progress.new result }
    ensures none { result ≡ None → OnlyWalks progress.old progress.new }
    ensures walked { result ≡ None → IsUnsettled W.Of.Automaton (W.of walk.old) progress.new
        × (progress.new.walked ≡ progress.new.read) }
    ensures near { result ≡ None
        → progress.new.read ≤ progress.new.reported + progress.new.buffer.least }
    ensures start { result ≡ None
        → ReportsAtStart W.Of.Automaton (W.of walk.old) progress.new }
    ensures buffer { progress.new.buffer ≡ progress.old.buffer }
    ensures end { result ≡ None → progress.new.ended ≡ true
        → (progress.new.read ≤ progress.new.reported) × (progress.new.in_hand ≡ None) }
    ensures limit { progress.new.limit ≡ progress.old.limit }
    ensures ended { progress.new.ended ≡ progress.old.ended }
    ensures refused { progress.new.refused ≡ progress.old.refused }
    ensures same { W.of walk.new ≡ W.of walk.old }
{
    search(walk, progress);
    piece(walk, progress)
}
