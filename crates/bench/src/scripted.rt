//! Devices in memory whose calls go by a list: they cut, end, come back after an end, and fail.

ghost use Rattle.std.specs.Prelude.{◌≡◌, Some, true};

use aho_core::error::{Fault, StreamError};
use aho_devices::device::{Sink, Source};
use std::alloc::Global;

/// What one call of a scripted device does.
#[derive(Clone, Copy, Debug)]
pub enum Turn {
    /// It moves at most this many bytes. With 0 a source ends for now, and a sink takes none.
    Move(usize),
    /// It fails.
    Fail,
}

/// A source over bytes in memory. Its first reads go by a list, and later ones give all that fits.
#[derive(Drop)]
pub struct ScriptedSource<'a> {
    rest: &'a [u8],
    turns: &'a [Turn],
    reads: usize,
    failures: u64,
    empty_reads: u64,
}

impl<'a> ScriptedSource<'a> {
    /// The source of these bytes, of which nothing was read.
    pub fn new(bytes: &'a [u8], turns: &'a [Turn]) -> ScriptedSource<'a>
        ensures remaining { ⟦<ScriptedSource<'a> as Source>⟧.remaining result
            ≡ Some bytes.entry.now }
    {
        ScriptedSource {
            rest: bytes,
            turns,
            reads: 0,
            failures: 0,
            empty_reads: 0,
        }
    }

    /// The bytes that it has not given.
    pub fn rest(&self) -> &[u8] {
        self.rest
    }

    /// How many reads were made, those that failed or gave nothing among them.
    pub fn reads(&self) -> usize {
        self.reads
    }
}

impl<'a> Source for ScriptedSource<'a> {
    ghost remaining = { λ source. Some source.rest.now };

    ghost failures = { λ source. source.failures };

    ghost empty_reads = { λ source. source.empty_reads };

    fn read(&mut self, buf: &mut [u8]) -> Result<usize, Fault> {
        self.reads = self.reads.saturating_add(1);
        let mut most = buf.len();
        if let Some((turn, later)) = self.turns.split_first() {
            self.turns = later;
            match turn {
                Turn::Move(count) => most = most.min(*count),
                Turn::Fail => {
                    self.failures = self.failures.wrapping_add(1);
                    return Err(Fault);
                }
            }
        }
        let count = most.min(self.rest.len());
        let (given, rest) = self.rest.split_at(count);
        buf[..count].copy_from_slice(given);
        self.rest = rest;
        if count == 0 && !buf.is_empty() {
            self.empty_reads = self.empty_reads.wrapping_add(1);
        }
        Ok(count)
    }
}

/// A sink into memory. Its first writes go by a list, and later ones take all. It fails too where it finds no memory.
#[derive(Drop)]
pub struct ScriptedSink<'a> {
    taken: Vec<u8>,
    turns: &'a [Turn],
    writes: usize,
    failures: u64,
    empty_writes: u64,
}

impl<'a> ScriptedSink<'a> {
    /// A sink that has taken nothing.
    pub fn new(alloc: Global, turns: &'a [Turn]) -> ScriptedSink<'a> {
        ScriptedSink {
            taken: Vec::new(alloc),
            turns,
            writes: 0,
            failures: 0,
            empty_writes: 0,
        }
    }

    /// The bytes that it has taken.
    pub fn taken(&self) -> &[u8] {
        self.taken.as_slice()
    }

    /// How many writes were made, those that failed or took nothing among them.
    pub fn writes(&self) -> usize {
        self.writes
    }
}

impl<'a> Sink for ScriptedSink<'a> {
    ghost taken = { λ sink. Some sink.taken.items };

    ghost failures = { λ sink. sink.failures };

    ghost empty_writes = { λ sink. sink.empty_writes };

    ghost flushed = { λ _. true };

    fn write(&mut self, piece: &[u8]) -> Result<usize, Fault> {
        self.writes = self.writes.saturating_add(1);
        let mut most = piece.len();
        if let Some((turn, later)) = self.turns.split_first() {
            self.turns = later;
            match turn {
                Turn::Move(count) => most = most.min(*count),
                Turn::Fail => {
                    self.failures = self.failures.wrapping_add(1);
                    return Err(Fault);
                }
            }
        }
        if self.taken.extend_from_slice(&piece[..most]).is_err() {
            self.failures = self.failures.wrapping_add(1);
            return Err(Fault);
        }
        if most == 0 && !piece.is_empty() {
            self.empty_writes = self.empty_writes.wrapping_add(1);
        }
        Ok(most)
    }

    fn flush(&mut self) -> Result<(), StreamError> {
        Ok(())
    }
}
