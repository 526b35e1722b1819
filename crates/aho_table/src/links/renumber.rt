//! Renumbering of a table: its states change places, and every number in a list, a link or a row is exchanged.

ghost use Rattle.aho_table.specs.Renaming.{IsRenamed};

use super::Table;
use crate::remapper::Remappable;
use aho_core::search::StateID;

impl Remappable for Table {
    ghost use Rattle.std.specs.Prelude.{[], Bool};
    ghost use Rattle.aho_table.specs.Table.{State as StateValue, Tables};
    ghost use Rattle.aho_table.specs.Renaming.{IsRenamed-weaker};

    ghost State = { StateValue };

    ghost states = { λ t. t.states };

    ghost is_renamed = { IsRenamed };

    ghost renames_by = { λ f g fewer x y renamed. IsRenamed-weaker f g fewer x y renamed };

    ghost Kept = { Tables };

    ghost Mark = { Bool };

    ghost marks = { λ t. t.rows };

    ghost kept = { λ t. record t { states = []; rows = [] } };

    fn state_len(&self) -> usize {
        self.states.len()
    }

    fn swap_states(&mut self, a: StateID, b: StateID) {
        self.states.swap(a, b);
        self.starts.swap(a.as_usize(), b.as_usize());
    }

    /// FAIL names no state, and stays.
    fn remap<F: Fn(StateID) -> StateID>(&mut self, map: F) {
        self.states.rename(&map);
        self.rows.rename(&map);
    }
}
