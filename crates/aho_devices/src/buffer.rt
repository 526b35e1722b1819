//! The buffer of fixed length between a source and a search of its stream.

ghost use Rattle.std.specs.Prelude.{◌≡◌, ◌<◌, ◌≤◌, ◌+◌, ◌-◌, ◌++◌, ◌↔◌, ◌⊎◌, ◌==◌, max, [], ℕ, length, take, drop, vec_len, vec_capacity, IfOk, IfErr, OnErr, MatchResult, IsTrue, is_err, true, false, Err};
ghost use Rattle.std.specs.Io.KnownBytes.{Consumes, Keeps};
ghost use Rattle.aho_core.specs.Numbers.{greatest_index};
ghost use Rattle.aho_devices.specs.Buffer.{Buffered, Gains, capacity_for, rolled, saw_end};
ghost use Rattle.aho_devices.specs.Counts.{counted, moves_nothing};
ghost use Rattle.aho_devices.specs.Refusals.{is_read_fault, IsFillRefusal};

use crate::device::Source;
use aho_core::error::{Fault, StreamError};
use std::alloc::{AllocError, Global};
use std::marker::Model;

/// The least length of a buffer in bytes.
const DEFAULT_BUFFER_CAPACITY: usize = 65_536;

/// A buffer of fixed length, which holds the last bytes of a stream: what a fill reads goes behind the bytes that are
/// held, and a roll lets go of all but the last ones.
#[derive(Drop)]
pub struct Buffer {
    buf: Vec<u8>,
    /// How many bytes at the front of `buf` are held.
    end: usize,
    /// How many of them a roll keeps.
    least: usize,
}

impl Model for Buffer {
    ghost Value = { Buffered };

    ghost view = { λ b.
        record { bytes = take b.end b.buf.items; least = b.least; size = vec_capacity b.buf } };

    ghost invariant = { λ b. (b.end ≤ vec_len b.buf) × (1 ≤ b.least)
        × (vec_len b.buf ≡ vec_capacity b.buf) × (vec_capacity b.buf ≡ capacity_for b.least) };
}

impl Buffer {
    /// An empty buffer that keeps `min_buffer_len` bytes at a roll, and one where that is 0. Its length is 8 times as
    /// many bytes, and 65536 at least. It takes all its memory here, that many bytes, and a refused allocation is the
    /// only error.
    pub fn new(alloc: Global, min_buffer_len: usize) -> Result<Buffer, AllocError>
        requires small { min_buffer_len ≤ greatest_index + 1 }
        ensures empty { IfOk result (λ b. b.bytes ≡ []) }
        ensures least { IfOk result (λ b. b.least ≡ max 1 min_buffer_len) }
        ensures size { IfOk result (λ b. b.size ≡ capacity_for (max 1 min_buffer_len)) }
    {
        let least = min_buffer_len.max(1);
        let size = (8 * least).max(DEFAULT_BUFFER_CAPACITY);
        let buf = block(alloc, size)?;
        Ok(Buffer { buf, end: 0, least })
    }

    /// What is true of every buffer. It does nothing, and tells it to a proof.
    pub fn facts(&self)
        ensures within { length self.now.bytes ≤ self.now.size }
        ensures positive { 1 ≤ self.now.least }
        ensures size { self.now.size ≡ capacity_for self.now.least }
    {
        let _least = &self.least;
    }

    /// The bytes that are held.
    pub fn buffer(&self) -> &[u8]
        ensures bytes { result.now ≡ self.now.bytes }
    {
        &self.buf[..self.end]
    }

    /// How many bytes a roll keeps, and a fill wants.
    pub fn min_buffer_len(&self) -> usize
        ensures least { result ≡ self.now.least }
    {
        self.least
    }

    /// Whether there is no room for a further byte.
    pub fn is_full(&self) -> bool
        ensures full { IsTrue result ↔ (self.now.size ≤ length self.now.bytes) }
    {
        self.end == self.buf.len()
    }

    /// Lets go of all but the last bytes, `min_buffer_len` of them. The buffer keeps its length.
    pub fn roll(&mut self)
        requires enough { self.old.least ≤ length self.old.bytes }
        ensures rolled { self.new ≡ rolled self.old }
        ensures len { length self.new.bytes ≡ self.old.least }
    {
        let start = self.end - self.least;
        self.buf.copy_within(start..self.end, 0);
        self.end = self.least;
    }

    /// Lets go of all bytes. The buffer keeps its length.
    pub fn clear(&mut self)
        ensures cleared { self.new ≡ record self.old { bytes = [] } }
    {
        self.end = 0;
    }

    /// Puts bytes behind those that are held, from the front of `bytes` as many as there is room for, and says how many. The
    /// buffer keeps its length.
    pub fn push(&mut self, bytes: &[u8]) -> usize
        ensures within { result ≤ length bytes.now }
        ensures all { length bytes.now ≤ self.old.size - length self.old.bytes
            → result ≡ length bytes.now }
        ensures full { result < length bytes.now → length self.new.bytes ≡ self.old.size }
        ensures held { self.new.bytes ≡ self.old.bytes ++ take result bytes.now }
        ensures least { self.new.least ≡ self.old.least }
        ensures size { self.new.size ≡ self.old.size }
    {
        let count = bytes.len().min(self.buf.len() - self.end);
        self.buf[self.end..self.end + count].copy_from_slice(&bytes[..count]);
        self.end += count;
        count
    }

    /// Reads at least once, and on until `min_buffer_len` bytes are held, a read is empty or fails, or `room` bytes
    /// were read. No read asks for more than what is left of `room`. With no room at all nothing is read, and
    /// `PositionLimit` is answered. What was read before a fault is kept. The buffer keeps its length.
    pub fn fill<R: Source>(&mut self, source: &mut R, room: u64) -> Result<Filled, StreamError>
        requires free { length self.old.bytes < self.old.size }
        ensures gained { Gains self.old self.new (R.remaining source.old) (R.remaining source.new) }
        ensures within { length self.new.bytes ≤ self.new.size }
        ensures limited { length self.new.bytes ≤ length self.old.bytes + room }
        ensures told { IfOk result (λ filled.
            length self.new.bytes ≡ length self.old.bytes + filled.read) }
        ensures some_or_ended { IfOk result (λ filled. filled.ended ≡ false → 1 ≤ filled.read) }
        ensures enough { IfOk result (λ filled. filled.ended ≡ false →
            (self.new.least ≤ length self.new.bytes) ⊎ (filled.read ≡ room)) }

        // Once there are enough bytes, nothing more is read.
        ensures wanted { MatchResult result
            (λ filled. filled.ended ≡ true →
            (length self.new.bytes ≡ length self.old.bytes)
            ⊎ (length self.new.bytes < self.new.least))
            (λ _. (length self.new.bytes ≡ length self.old.bytes)
            ⊎ (length self.new.bytes < self.new.least)) }

        // An empty read, and each error, is answered exactly where it came.
        ensures ended { R.empty_reads source.new
            ≡ counted (saw_end result) (R.empty_reads source.old) }
        ensures read_failed { R.failures source.new
            ≡ counted (is_read_fault result) (R.failures source.old) }
        ensures limit { (result ≡ Err StreamError.PositionLimit) ↔ (room ≡ 0) }
        ensures unread { room ≡ 0 → source.new ≡ source.old }
        ensures only { IfErr result IsFillRefusal }
    {
        if room == 0 {
            return Err(StreamError::PositionLimit);
        }
        let mut read = 0u64;
        loop {
            match self.read_once(source, room - read) {
                Ok(0) => return Ok(Filled { read, ended: true }),
                Ok(count) => {
                    read += count as u64;
                    if self.end >= self.least || read == room {
                        return Ok(Filled { read, ended: false });
                    }
                }
                Err(fault) => return Err(StreamError::Read(fault)),
            }
        }
    }

    /// Reads once, at most `room` bytes. With no room at all nothing is read, and `PositionLimit` is answered. The buffer
    /// keeps its length.
    pub fn fill_once<R: Source>(&mut self, source: &mut R, room: u64) -> Result<Filled, StreamError>
        requires free { length self.old.bytes < self.old.size }
        ensures gained { Gains self.old self.new (R.remaining source.old) (R.remaining source.new) }
        ensures within { length self.new.bytes ≤ self.new.size }
        ensures limited { length self.new.bytes ≤ length self.old.bytes + room }
        ensures told { IfOk result (λ filled.
            length self.new.bytes ≡ length self.old.bytes + filled.read) }
        ensures some_or_ended { IfOk result (λ filled.
            filled.ended ≡ (filled.read == 0)) }
        ensures nothing { OnErr result (length self.new.bytes ≡ length self.old.bytes) }

        // An empty read, and each error, is answered exactly where it came.
        ensures ended { R.empty_reads source.new
            ≡ counted (saw_end result) (R.empty_reads source.old) }
        ensures read_failed { R.failures source.new
            ≡ counted (is_read_fault result) (R.failures source.old) }
        ensures limit { (result ≡ Err StreamError.PositionLimit) ↔ (room ≡ 0) }
        ensures unread { room ≡ 0 → source.new ≡ source.old }
        ensures only { IfErr result IsFillRefusal }
    {
        if room == 0 {
            return Err(StreamError::PositionLimit);
        }
        match self.read_once(source, room) {
            Ok(count) => Ok(Filled {
                read: count as u64,
                ended: count == 0,
            }),
            Err(fault) => Err(StreamError::Read(fault)),
        }
    }

    /// One read of at most `room` bytes, behind those that are held.
    fn read_once<R: Source>(&mut self, source: &mut R, room: u64) -> Result<usize, Fault>
        requires free { length self.old.bytes < self.old.size }
        requires room { 0 < room }
        ensures gained { Gains self.old self.new (R.remaining source.old) (R.remaining source.new) }
        ensures within { length self.new.bytes ≤ self.new.size }
        ensures limited { IfOk result (λ count. count ≤ room) }
        ensures told { IfOk result (λ count.
            length self.new.bytes ≡ length self.old.bytes + count) }
        ensures nothing { OnErr result (length self.new.bytes ≡ length self.old.bytes) }
        ensures failures { R.failures source.new ≡ counted (is_err result) (R.failures source.old) }
        ensures empty_reads { R.empty_reads source.new
            ≡ counted (moves_nothing result) (R.empty_reads source.old) }
    {
        let free = self.buf.len() - self.end;
        let end = self.end + free.min(room as usize);
        let count = read_between(source, self.buf.as_mut_slice(), self.end, end)?;
        self.end += count;
        Ok(count)
    }
}

/// What a fill did.
#[derive(Clone, Copy, Debug, PartialEq, Eq)]
pub struct Filled {
    /// How many bytes it read.
    pub read: u64,
    /// Whether its last read, with room, gave nothing.
    pub ended: bool,
}

/// So many bytes, in memory of just that length.
fn block(alloc: Global, size: usize) -> Result<Vec<u8>, AllocError>
    ensures len { IfOk result (λ bytes. vec_len bytes ≡ size) }
    ensures capacity { IfOk result (λ bytes. vec_capacity bytes ≡ size) }
{
    let bytes = vec![in alloc; 0; size]?;

    // std does not promise that this memory has just that length, so it is looked at.
    if bytes.capacity() != size {
        return filled_block(alloc, size);
    }
    Ok(bytes)
}

/// The same, put one by one into memory that was asked for first: of this std promises that it keeps its length.
fn filled_block(alloc: Global, size: usize) -> Result<Vec<u8>, AllocError>
    ensures len { IfOk result (λ bytes. vec_len bytes ≡ size) }
    ensures capacity { IfOk result (λ bytes. vec_capacity bytes ≡ size) }
{
    let mut bytes = Vec::with_capacity(alloc, size)?;
    for place in 0..size {
        bytes.insert(place, 0)?;
    }
    Ok(bytes)
}

/// One read into the part of `buf` from `start` up to `end`.
fn read_between<R: Source>(
    source: &mut R,
    buf: &mut [u8],
    start: usize,
    end: usize,
) -> Result<usize, Fault>
    requires part { start < end }
    requires inside { end ≤ length buf.old }
    ensures front { take start buf.new ≡ take start buf.old }
    ensures within { IfOk result (λ count. count ≤ end - start) }
    ensures given { MatchResult result
        (λ count. Consumes (R.remaining source.old) (R.remaining source.new)
        (take count (drop start buf.new)))
        (λ _. Keeps (R.remaining source.old) (R.remaining source.new)) }
    ensures failures { R.failures source.new ≡ counted (is_err result) (R.failures source.old) }
    ensures empty_reads { R.empty_reads source.new
        ≡ counted (moves_nothing result) (R.empty_reads source.old) }
{
    source.read(&mut buf[start..end])
}
