//! Dense rows: for the states near the start, so that a step from them is one look.

ghost use Rattle.std.specs.Prelude.{◌≡◌, ℕ, ◌<◌, ◌≤◌, length, IfErr, OnOk};
ghost use Rattle.aho_table.specs.Table.{state_at, LeadsAlike};
ghost use Rattle.aho_build.specs.Dense.{is_dense, AreDense, dense_count, row_start, AreWithinLimit, IsRowRefusal};

use aho_core::error::BuildError;
use aho_core::search::StateID;
use aho_table::alphabet::ByteClasses;
use aho_table::links::Table;

/// Whether the state is to have a row, where states up to this distance from the start have one, and none at 0.
fn has_row(table: &Table, sid: StateID, depth: usize) -> bool
    requires added { sid < length table.now.states }
    ensures dense { result ≡ is_dense depth (state_at table.now.states sid) }
{
    depth > 0 && table.depth(sid) <= depth
}

/// Gives the states other than DEAD and FAIL up to this distance from the start rows by these classes, in the order of
/// their numbers.
///
/// # Errors
///
/// `StateIDOverflow` at the first row that would start above the limit, by its start; or `OutOfMemory`.
pub fn densify(table: &mut Table, classes: ByteClasses, depth: usize) -> Result<(), BuildError>
    requires alike { (sid : ℕ) → 2 ≤ sid → sid < length table.old.states
        → LeadsAlike classes (state_at table.old.states sid).transitions }
    ensures dense { OnOk result (table.new ≡ record table.old {
      classes = classes;
      dense_len = row_start classes (dense_count depth table.old.states);
      rows = table.new.rows;
    }) }
    ensures rows { OnOk result (AreDense depth table.old.states table.new.rows) }
    ensures within { OnOk result
        (AreWithinLimit table.old.limit classes (dense_count depth table.old.states)) }
    ensures refused { IfErr result
        (IsRowRefusal table.old.limit classes (dense_count depth table.old.states)) }
{
    table.set_byte_classes(classes);
    for index in 2..table.len() {
        let sid = StateID::new_unchecked(index);
        if has_row(table, sid, depth) {
            table.add_row(sid)?;
        }
    }
    Ok(())
}
