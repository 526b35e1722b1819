//! The walk over the bytes of a stream, from one match that is told to the next.

ghost use Rattle.std.specs.Prelude.{◌≡◌, ◌+◌, ◌*◌, ◌<◌, ◌≤◌, ◌^◌, None, length};
ghost use Rattle.aho_cover.specs.Walks.{LiesAheadOfSome, ReachesFrom};

use aho_automaton::automaton::Automaton;
use aho_automaton::find::{looks_at, told_at};
use aho_automaton::walk::{Counted, Walk};
use aho_core::search::{Anchored, Match, StateID};

/// How far a walk over some bytes came.
#[derive(Clone, Copy)]
pub(crate) struct Reached {
    /// How many of the bytes were walked.
    pub(crate) count: usize,
    /// The state that is held after them.
    pub(crate) sid: StateID,
    /// The longest match that ends there, where one does.
    pub(crate) found: Option<Match>,
}

/// Whether a walk that may wait ends in a state that tells no match: the state is a start.
fn waits_in<A: Automaton>(walk: &Counted<'_, A>, may_wait: bool, sid: StateID) -> bool
    requires valid { A.valid walk.now.automaton.now sid }
{
    may_wait && walk.is_start(sid)
}

/// Walks over bytes until a match ends, from a state that is held after `at` bytes. It tells the longest match that ends there.
/// Where it may wait, it ends as well in the first special start that it is led to.
#[inline(always)]
pub(crate) fn walk_to_match<A: Automaton>(
    walk: &mut Counted<'_, A>,
    bytes: &[u8],
    at: usize,
    sid: StateID,
    may_wait: bool,
) -> Reached
    requires valid { A.valid walk.old.automaton.now sid }
    requires ahead { LiesAheadOfSome A.Automaton walk.old.automaton.now at sid bytes.now }
    requires some { 0 < length bytes.now }
    requires places { at + length bytes.now < 2 ^ 64 }
    requires room { walk.old.work + A.depth walk.old.automaton.now sid
        + 2 * length bytes.now < 2 ^ 128 }
    ensures reaches { ReachesFrom A.Automaton walk.old.automaton.now at sid bytes.now result }
    ensures valid { A.valid walk.old.automaton.now result.sid }
    ensures within { result.count ≤ length bytes.now }
    ensures some { 0 < result.count }
    ensures same { walk.new.automaton.now ≡ walk.old.automaton.now }
    ensures cost { walk.new.work + A.depth walk.old.automaton.now result.sid
        ≤ walk.old.work + A.depth walk.old.automaton.now sid + 2 * result.count }
{
    let mut sid = sid;
    for count in 0..bytes.len() {
        sid = walk.step(Anchored::No, sid, bytes[count]);
        let place = at + count + 1;
        if looks_at(walk, may_wait, sid) {
            let found = told_at(walk, Anchored::No, sid, 0, place);
            if found.is_some() {
                return Reached {
                    count: count + 1,
                    sid,
                    found,
                };
            }
            if waits_in(walk, may_wait, sid) {
                return Reached {
                    count: count + 1,
                    sid,
                    found: None,
                };
            }
        }
    }
    Reached {
        count: bytes.len(),
        sid,
        found: None,
    }
}
