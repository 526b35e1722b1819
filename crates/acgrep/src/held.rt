//! The lines that were passed over last, which are written where the next selected line is near.

ghost use Rattle.std.specs.List.{sum};
ghost use Rattle.std.specs.Prelude.{◌≡◌, ◌++◌, ◌∷◌, [], ◌≤◌, ◌<◌, ◌+◌, OnOk, drop, length, vec_len};

use std::alloc::{AllocError, Global};
use std::collections::VecDeque;

/// Lines one behind the other, after what was dropped of the room, and how many bytes each has.
#[derive(Drop)]
pub struct Held {
    room: Vec<u8>,
    from: usize,
    /// How many bytes each line has.
    pub sizes: VecDeque<usize>,
    ghost within: { from ≤ vec_len room },
    ghost sized: { from + sum sizes.items ≡ vec_len room },
}

impl Held {
    ghost use Rattle.acgrep.specs.Filled.{held_bytes, held_lines};

    /// No line.
    pub fn new(alloc: Global) -> Held
        ensures none { held_lines result ≡ [] }
    {
        Held {
            room: Vec::new(alloc),
            from: 0,
            sizes: VecDeque::new(alloc),
        }
    }

    /// The bytes of all lines.
    pub fn bytes(&self) -> &[u8]
        ensures bytes { result.now ≡ held_bytes self.now }
    {
        &self.room[self.from..]
    }

    /// Forgets all lines.
    pub fn clear(&mut self)
        ensures none { held_lines self.new ≡ [] }
    {
        self.room.clear();
        self.from = 0;
        self.sizes.clear();
    }

    /// Adds a line. What was dropped is first made room where it is more than what is held. Where memory runs out no line is held.
    pub fn push(&mut self, line: &[u8]) -> Result<(), AllocError>
        ensures more { OnOk result (held_lines self.new
            ≡ held_lines self.old ++ (line.now ∷ [])) }
    {
        self.close_up();
        if let Err(error) = add(&mut self.room, &mut self.sizes, line) {
            self.room.clear();
            self.from = 0;
            self.sizes.clear();
            return Err(error);
        }
        Ok(())
    }

    /// The first line.
    pub fn first(&self) -> &[u8]
        requires some { 0 < length self.now.sizes.items }
        ensures first { held_lines self.now ≡ result.now ∷ drop 1 (held_lines self.now) }
    {
        &self.bytes()[..self.sizes[0]]
    }

    /// Drops the first line.
    pub fn drop_first(&mut self)
        requires some { 0 < length self.now.sizes.items }
        ensures rest { held_lines self.new ≡ drop 1 (held_lines self.old) }
    {
        if let Some(size) = self.sizes.pop_front() {
            self.from += size;
        }
    }

    /// Moves what is held to the front of the room, where it is the smaller part.
    fn close_up(&mut self)
        ensures same { held_bytes self.new ≡ held_bytes self.old }
        ensures sizes { self.new.sizes.items ≡ self.old.sizes.items }
    {
        let len = self.room.len();
        if self.from <= len / 2 {
            return;
        }
        self.room.copy_within(self.from..len, 0);
        self.room.truncate(len - self.from);
        self.from = 0;
    }
}

/// Adds the bytes of a line, and how many they are.
fn add(room: &mut Vec<u8>, sizes: &mut VecDeque<usize>, line: &[u8]) -> Result<(), AllocError>
    ensures bytes { OnOk result (room.new.items ≡ room.old.items ++ line.now) }
    ensures sizes { OnOk result (sizes.new.items ≡ sizes.old.items ++ (length line.now ∷ [])) }
{
    room.extend_from_slice(line)?;
    sizes.push_back(line.len())?;
    Ok(())
}
