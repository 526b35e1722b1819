//! The walk over the bytes of a stream, from where it stands up to where the next match is known.

ghost use Rattle.std.specs.Prelude.{◌≡◌, ◌+◌, ◌*◌, ◌<◌, ◌≤◌, ◌^◌, None, false, true, length};
ghost use Rattle.aho_core.specs.Laws.{Fits, better};
ghost use Rattle.aho_core.specs.declared.search.MatchKind.TheVariants.{Standard};
ghost use Rattle.aho_stream.specs.After.{settles};
ghost use Rattle.aho_stream.specs.Walking.{IsHeldAt, WalksFrom, told_here};

use aho_automaton::find::{looks_at, told_at};
use aho_automaton::walk::Walk;
use aho_core::search::{Anchored, Match, MatchKind, StateID};

/// How far a walk over some bytes came.
#[derive(Clone, Copy)]
pub struct Walked {
    /// How many of the bytes were walked.
    pub count: usize,
    /// The state that is held after them.
    pub sid: StateID,
    /// The best match in all that was walked. Its places count from the end of the match before.
    pub found: Option<Match>,
}

/// Whether a match in hand is the next one, whatever follows: under `Standard` always, under the leftmost kinds where the
/// state is dead.
pub fn is_settled<W: Walk>(walk: &W, sid: StateID, in_hand: &Option<Match>) -> bool
    requires valid { W.Of.valid (W.of walk.now) sid }
    ensures settled { result ≡ settles W.Of.Automaton (W.of walk.now) sid in_hand.now }
{
    if in_hand.is_none() {
        return false;
    }
    match walk.match_kind() {
        MatchKind::Standard => true,
        MatchKind::LeftmostFirst | MatchKind::LeftmostLongest => walk.is_dead(sid),
    }
}

/// The best match after one byte more, by the best before it and by what the state tells. Under `Standard` none was found
/// before.
fn better_at<W: Walk>(walk: &W, sid: StateID, at: usize, best: Option<Match>) -> Option<Match>
    requires valid { W.Of.valid (W.of walk.now) sid }
    requires fits { Fits (W.Of.lengths (W.of walk.now)) at (W.Of.list (W.of walk.now) sid) }
    requires first { W.Of.kind (W.of walk.now) ≡ Standard → best ≡ None }
    ensures better { result ≡ better (W.Of.kind (W.of walk.now)) best
        (told_here W.Of.Automaton (W.of walk.now) at sid) }
{
    match told_at(walk, Anchored::No, sid, 0, at) {
        Some(m) => Some(m),
        None => best,
    }
}

/// Whether a walk ends in a state: the match in hand is settled or, where it may wait, none is in hand and the state is a start.
fn ends_in<W: Walk>(walk: &W, may_wait: bool, sid: StateID, in_hand: &Option<Match>) -> bool
    requires valid { W.Of.valid (W.of walk.now) sid }
    ensures settled { result ≡ true → may_wait ≡ false
        → settles W.Of.Automaton (W.of walk.now) sid in_hand.now ≡ true }
    ensures going { result ≡ false
        → settles W.Of.Automaton (W.of walk.now) sid in_hand.now ≡ false }
{
    if may_wait && in_hand.is_none() {
        return walk.is_start(sid);
    }
    is_settled(walk, sid, in_hand)
}

/// Walks over bytes until the match in hand is settled, from a state that is held after `at` bytes of which it is the best
/// match. Where it may wait, it ends as well in the first start that it is led to with nothing in hand.
#[inline(always)]
pub fn walk_on<W: Walk>(
    walk: &mut W,
    bytes: &[u8],
    at: usize,
    sid: StateID,
    in_hand: Option<Match>,
    may_wait: bool,
) -> Walked
    requires unsettled { settles W.Of.Automaton (W.of walk.old) sid in_hand ≡ false }
    requires valid { W.Of.valid (W.of walk.old) sid }
    requires held { IsHeldAt W.Of.Automaton (W.of walk.old) at sid }
    requires places { at + length bytes.now < 2 ^ 64 }
    requires room { W.lookups walk.old + W.Of.depth (W.of walk.old) sid
        + 2 * length bytes.now < 2 ^ 128 }
    ensures walks { WalksFrom W.Of.Automaton (W.of walk.old) at sid in_hand bytes.now result }
    ensures valid { W.Of.valid (W.of walk.old) result.sid }
    ensures within { result.count ≤ length bytes.now }
    ensures all { may_wait ≡ false
        → settles W.Of.Automaton (W.of walk.old) result.sid result.found ≡ false
        → result.count ≡ length bytes.now }
    ensures some { 0 < length bytes.now → 0 < result.count }
    ensures same { W.of walk.new ≡ W.of walk.old }
    ensures cost { W.lookups walk.new + W.Of.depth (W.of walk.old) result.sid
        ≤ W.lookups walk.old + W.Of.depth (W.of walk.old) sid + 2 * result.count }
{
    let mut sid = sid;
    let mut found = in_hand;
    for count in 0..bytes.len() {
        sid = walk.step(Anchored::No, sid, bytes[count]);
        if looks_at(walk, may_wait, sid) {
            found = better_at(walk, sid, at + count + 1, found);
            if ends_in(walk, may_wait, sid, &found) {
                return Walked {
                    count: count + 1,
                    sid,
                    found,
                };
            }
        }
    }
    Walked {
        count: bytes.len(),
        sid,
        found,
    }
}
