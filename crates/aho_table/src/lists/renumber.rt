//! Numbers of states that are exchanged for others.

ghost use Rattle.aho_table.specs.Renaming.{IsLed};

use crate::lists::transitions::FAIL;
use aho_core::search::StateID;

/// The number that the closure answers. FAIL names no state, and stays.
pub fn renamed<F: Fn(StateID) -> StateID>(sid: StateID, map: &F) -> StateID
    requires callable { F.IsAlwaysCallable map.now }
    ensures led { IsLed (F.post map.now) sid result }
{
    if sid == FAIL { FAIL } else { map(sid) }
}
