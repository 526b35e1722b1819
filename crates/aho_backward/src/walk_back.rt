//! The walk over some bytes from the last to the first.

ghost use Rattle.std.specs.Prelude.{◌≡◌, ◌+◌, ◌*◌, ◌<◌, ◌≤◌, ◌^◌, OnOk, length};
ghost use Rattle.aho_core.specs.declared.search.Anchored.TheVariants.{No};
ghost use Rattle.aho_automaton.specs.Effects.{BeginsIn};
ghost use Rattle.aho_backward.specs.Backward.{AreHeldBack};

use aho_automaton::walk::Walk;
use aho_core::search::{Anchored, StateID};
use std::alloc::AllocError;

/// Walks over bytes from the last to the first. Each state that it is led to is put into `states`, that after the last byte first,
/// in place of what was there.
#[inline(always)]
pub(crate) fn walk_back<W: Walk>(
    walk: &mut W,
    start: StateID,
    bytes: &[u8],
    states: &mut Vec<StateID>,
) -> Result<(), AllocError>
    requires begins { BeginsIn W.Of.Automaton (W.of walk.old) No start }
    requires room { W.lookups walk.old + 2 * length bytes.now < 2 ^ 128 }
    ensures held { OnOk result
        (AreHeldBack W.Of.Automaton (W.of walk.old) bytes.now states.new.items) }
    ensures same { W.of walk.new ≡ W.of walk.old }
    ensures cost { W.lookups walk.new ≤ W.lookups walk.old + 2 * length bytes.now }
{
    states.clear();
    let mut sid = start;
    for count in 0..bytes.len() {
        sid = walk.step(Anchored::No, sid, bytes[bytes.len() - 1 - count]);
        states.push(sid)?;
    }
    Ok(())
}
