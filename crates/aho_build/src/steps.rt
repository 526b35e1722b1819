//! One step over a table of states.

ghost use Rattle.std.specs.Prelude.{◌≡◌, ◌+◌, ◌<◌, ◌≤◌, ◌^◌};
ghost use Rattle.aho_core.specs.Steps.{IsPaid};
ghost use Rattle.aho_table.specs.Table.{depth_in};
ghost use Rattle.aho_build.specs.Automaton.{FollowsWords, CountsAsWords};
ghost use Rattle.aho_build.specs.Walking.{IsSound, IsState, step_in};

use aho_core::search::{Anchored, StateID, Work};
use aho_table::links::{DEAD, FAIL, Table};

/// The state that the byte leads to from a state, with the look-ups added to the work.
///
/// Unanchored it goes down the failure links until a state takes the byte. It ends, since each link leads nearer to the
/// start, the start takes every byte, and so does DEAD.
#[inline(always)]
pub fn step(table: &Table, anchored: Anchored, from: StateID, byte: u8, work: &mut Work) -> StateID
    requires sound { IsSound table.now.states }
    requires state { IsState table.now.states from }
    requires room { work.old + depth_in table.now.states from + 2 < 2 ^ 128 }
    ensures state { IsState table.now.states result }
    ensures next { result ≡ step_in table.now.states anchored from byte }
    ensures cost { IsPaid (depth_in table.now.states) from result work.old work.new }
    ensures grows { work.old ≤ work.new }
    ensures follows { FollowsWords table.now.states anchored from byte result }
    ensures counted { CountsAsWords table.now.states anchored from byte work.old work.new }
{
    let mut sid = from;
    'links: loop {
        let next = table.follow(sid, byte, work);
        if next != FAIL {
            return next;
        }
        match anchored {
            Anchored::Yes => return DEAD,
            Anchored::No => sid = table.fail(sid),
        }
    }
}
