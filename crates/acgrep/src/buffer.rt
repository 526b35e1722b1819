//! The bytes that were read and not searched yet.

ghost use Rattle.std.specs.Prelude.{◌≡◌, ◌≤◌, ◌<◌, [], IfOk, OnOk, drop, length, vec_len};

use std::alloc::{AllocError, Global};
use std::io;
use std::io::Read;

/// The room of a new buffer.
const ROOM: usize = 64 * 1024;

/// The bytes that were read and not searched yet, at the front of the room.
#[derive(Drop)]
pub struct Buffer {
    room: Vec<u8>,
    held: usize,
    ghost within: { held ≤ vec_len room },
}

impl Buffer {
    ghost use Rattle.acgrep.specs.Filled.{FillsBuffer, ReadsOn, bytes_buffered};

    /// A buffer of the first size.
    pub fn new(alloc: Global) -> Result<Buffer, AllocError> {
        Ok(Buffer {
            room: Vec::from_elem(alloc, 0, ROOM)?,
            held: 0,
        })
    }

    /// Forgets all bytes.
    pub fn clear(&mut self)
        ensures none { self.new.held ≡ 0 }
        ensures bytes { bytes_buffered self.new ≡ [] }
    {
        self.held = 0;
    }

    /// The bytes.
    pub fn bytes(&self) -> &[u8]
        ensures bytes { result.now ≡ bytes_buffered self.now }
        ensures len { length result.now ≡ self.now.held }
    {
        &self.room[..self.held]
    }

    /// Doubles the room where it is full.
    pub fn make_room(&mut self) -> Result<(), AllocError>
        ensures held { self.new.held ≡ self.old.held }
        ensures bytes { OnOk result (bytes_buffered self.new ≡ bytes_buffered self.old) }
        ensures room { OnOk result (self.new.held < vec_len self.new.room) }
    {
        let len = self.room.len();
        if self.held >= len {
            self.room.resize(len.saturating_mul(2).max(ROOM), 0)?;
        }
        Ok(())
    }

    /// Reads once behind the bytes, and answers how many came.
    pub fn fill<R: Read>(&mut self, input: &mut R) -> io::Result<usize>
        requires room { self.now.held < vec_len self.now.room }
        ensures filled { IfOk result (FillsBuffer self.old self.new
            (R.remaining input.old) (R.remaining input.new)) }
        ensures reads { ReadsOn (R.remaining input.old) (R.remaining input.new) }
    {
        let count = input.read(&mut self.room[self.held..])?;
        self.held += count;
        Ok(count)
    }

    /// Drops bytes from the front.
    pub fn drop_front(&mut self, count: usize)
        requires within { count ≤ self.now.held }
        ensures rest { bytes_buffered self.new ≡ drop count (bytes_buffered self.old) }
    {
        if count == 0 {
            return;
        }
        self.room.copy_within(count..self.held, 0);
        self.held -= count;
    }
}
