//! Rows of states in one vector: an entry for each class of bytes, so that a step is one look.

ghost use Rattle.std.specs.Prelude.{◌≡◌, ℕ, ◌+◌, ◌<◌, ◌≤◌, ◌^◌, [], length, slice_index_or, IfOk, OnOk, OnErr};
ghost use Rattle.aho_table.specs.Alphabet.{no_borders, class_of};
ghost use Rattle.aho_table.specs.Table.{IsRising, transition_at, LeadsAlike};
ghost use Rattle.std.specs.List.{AllZip};
ghost use Rattle.aho_table.specs.Renaming.{IsLed};
ghost use Rattle.aho_table.specs.Inside.{row_next, IsRow, IsRowAdded};

use crate::alphabet::{ByteClassSet, ByteClasses};
use crate::lists::renumber::renamed;
use crate::lists::transitions::{FAIL, Transitions};
use aho_core::search::StateID;
use std::alloc::{AllocError, Global};

/// The rows of a table. A row is named by the index at which it starts; index 0 is taken from the start.
#[derive(Drop)]
pub struct Rows {
    classes: ByteClasses,
    /// Those from index 1 on.
    entries: Vec<StateID>,
}

impl Rows {
    /// No row, and all bytes are of one class. Takes no memory.
    pub(super) fn new(alloc: Global) -> Rows
        ensures classes { result.classes ≡ no_borders }
        ensures empty { result.entries.items ≡ [] }
    {
        Rows {
            classes: ByteClassSet::empty().byte_classes(),
            entries: Vec::new(alloc),
        }
    }

    /// Forgets every row, and goes by other classes.
    pub(super) fn set_classes(&mut self, classes: ByteClasses)
        ensures classes { self.new.classes ≡ classes }
        ensures empty { self.new.entries.items ≡ [] }
    {
        self.classes = classes;
        self.entries.clear();
    }

    /// The classes that the rows go by.
    pub(super) fn classes(&self) -> &ByteClasses
        ensures classes { result.now ≡ self.now.classes }
    {
        &self.classes
    }

    /// How many entries there are, the one at index 0 among them: the start of the row that is added next.
    pub(super) fn len(&self) -> usize
        requires small { length self.now.entries.items + 1 < 2 ^ 32 }
        ensures len { result ≡ length self.now.entries.items + 1 }
    {
        self.entries.len() + 1
    }

    /// Where the byte leads by the row that starts here.
    pub(super) fn next(&self, start: u32, byte: u8) -> StateID
        requires row { IsRow self.now.classes self.now.entries.items start }
        ensures next { result ≡ row_next self.now.classes self.now.entries.items start byte }
    {
        self.entries[start as usize + self.classes.get(byte) as usize - 1]
    }

    /// One row more, which leads where the list leads.
    ///
    /// # Errors
    ///
    /// Out of memory. The rows are then unchanged.
    pub(super) fn add(&mut self, transitions: Transitions<'_>) -> Result<(), AllocError>
        requires rising { IsRising transitions }
        requires alike { LeadsAlike self.old.classes transitions }
        ensures classes { self.new.classes ≡ self.old.classes }
        ensures added { OnOk result
            (IsRowAdded self.old.classes self.old.entries.items transitions.entry self.new.entries.items) }
        ensures unchanged { OnErr result (self.new.entries.items ≡ self.old.entries.items) }
    {
        let row = row_of(&self.classes, transitions);
        let len = self.classes.alphabet_len();
        self.entries.extend_from_slice(&row[..len])?;
        Ok(())
    }

    /// Each number that stands in a row is exchanged for the one that the closure answers for it.
    pub(super) fn rename<F: Fn(StateID) -> StateID>(&mut self, map: &F)
        requires callable { F.IsAlwaysCallable map.now }
        ensures classes { self.new.classes ≡ self.old.classes }
        ensures renamed { AllZip (IsLed (F.post map.now)) self.old.entries.items self.new.entries.items }
    {
        for entry in self.entries.iter_mut() {
            *entry = renamed(*entry, map);
        }
    }

    pub(super) fn try_clone(&self, alloc: Global) -> Result<Rows, AllocError>
        ensures classes { IfOk result (λ rows. rows.classes ≡ self.now.classes) }
        ensures entries { IfOk result (λ rows. rows.entries.items ≡ self.now.entries.items) }
    {
        Ok(Rows {
            classes: self.classes.copy(),
            entries: Vec::from_slice(alloc, &self.entries)?,
        })
    }
}

/// Where each class of bytes leads by the list, and FAIL behind the last class.
fn row_of(classes: &ByteClasses, transitions: Transitions<'_>) -> [StateID; 256]
    requires rising { IsRising transitions }
    requires alike { LeadsAlike classes.now transitions }
    ensures leads { (byte : ℕ) → byte < 256
        → slice_index_or result (class_of classes.now byte) 1 ≡ transition_at transitions.entry byte }
    ensures sized { length result ≡ 256 }
{
    let mut row = [FAIL; 256];
    for (byte, next) in transitions {
        row[classes.get(byte) as usize] = next;
    }
    row
}
