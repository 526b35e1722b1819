//! The last phase of a build: the states get the numbers that they keep.

ghost use Rattle.std.specs.Prelude.{◌≡◌, ◌+◌, ◌<◌, ◌≤◌, [], length, IfOk, OnOk, OnErr};
ghost use Rattle.aho_core.specs.Numbers.{greatest_index};
ghost use Rattle.std.specs.List.{range_with_len};
ghost use Rattle.aho_build.specs.FirstStates.{anchored_id};
ghost use Rattle.aho_build.specs.Shuffled.{AreGathered, AreShuffled, RowsAreMoved};

use crate::compiler::starts::{anchored_start, unanchored_start};
use crate::special::Special;
use aho_core::search::StateID;
use aho_table::links::Table;
use aho_table::remapper::Remapper;
use std::alloc::{AllocError, Global};

/// Gives the states the numbers that they keep: DEAD, FAIL, the states that list a pattern and are no start, the unanchored
/// start, the anchored start, the rest. So a comparison tells whether a state lists a pattern.
///
/// Where a search may skip from a start, each start is special.
///
/// # Errors
///
/// Out of memory. The table is then unchanged.
pub fn shuffle(alloc: Global, table: &mut Table, skips: bool) -> Result<Special, AllocError>
    requires starts { anchored_id < length table.old.states }
    ensures shuffled { IfOk result (AreShuffled skips table.old table.new) }
    ensures kept { OnOk result (record table.new { states = []; rows = [] }
        ≡ record table.old { states = []; rows = [] }) }
    ensures unchanged { OnErr result (table.new ≡ table.old) }
{
    table.facts();
    let mut remapper = Remapper::new(alloc, &*table)?;
    let next = gather_matches(table, &mut remapper);
    let start_unanchored_id = StateID::new_unchecked(next - 2);
    let start_anchored_id = StateID::new_unchecked(next - 1);
    remapper.swap(table, anchored_start(), start_anchored_id);
    remapper.swap(table, unanchored_start(), start_unanchored_id);
    remapper.remap(table);
    let max_match_id = if table.match_len(start_anchored_id) > 0 {
        start_anchored_id
    } else {
        StateID::new_unchecked(next - 3)
    };
    Ok(Special {
        max_special_id: if skips {
            start_anchored_id
        } else {
            max_match_id
        },
        max_match_id,
        start_unanchored_id,
        start_anchored_id,
    })
}

/// Moves the states that list a pattern, but for the first four, to the numbers behind these. Answers the number behind them.
fn gather_matches(table: &mut Table, remapper: &mut Remapper) -> usize
    requires starts { anchored_id < length table.old.states }
    requires stay { remapper.old ≡ range_with_len 0 (length table.old.states) }
    ensures gathered { AreGathered result (length table.old.states) remapper.new table.old.states table.new.states }
    ensures rows { RowsAreMoved remapper.new table.old.rows table.new.rows }
    ensures kept { record table.new { states = []; rows = [] }
        ≡ record table.old { states = []; rows = [] } }
    ensures bound { result ≤ greatest_index + 1 }
{
    table.facts();
    let mut next = 4;
    for index in 4..table.len() {
        let sid = StateID::new_unchecked(index);
        if table.match_len(sid) > 0 {
            remapper.swap(table, sid, StateID::new_unchecked(next));
            next += 1;
        }
    }
    next
}
