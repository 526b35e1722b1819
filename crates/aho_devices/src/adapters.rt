//! Devices made of std's readers and writers. No call is tried again, whatever the kind of its error.

ghost use Rattle.std.specs.Prelude.{◌≡◌, ◌≢◌, ◌≤◌, ℕ, List, [], Some, Ok, true, length, take, is_ok, is_err, IfOk, IfErr, MatchResult};
ghost use Rattle.std.specs.Io.KnownBytes.{Appends, Consumes, IsAtEnd, Keeps};
ghost use Rattle.aho_devices.specs.Counts.{counted, is_empty_read, is_empty_write, Asks};
ghost use Rattle.aho_devices.specs.Refusals.{is_write_fault, is_write_of_nothing, IsWriteRefusal};

use crate::calls::{CalledReader, CalledWriter};
use crate::device::{Sink, Source};
use aho_core::error::{Fault, StreamError};
use std::io::{Read, Write};

/// A source that reads from a reader of std. Once a read gave nothing the reader is at its end, and it is called no more
/// until a `restart`.
#[derive(Drop)]
pub struct FromRead<R: Read> {
    pub(crate) device: CalledReader<R>,
    failures: u64,
    empty_reads: u64,
    ghost ended: { (bytes : List ℕ) → empty_reads ≢ 0 → R.remaining device.reader ≡ Some bytes
        → bytes ≡ [] },
}

impl<R: Read> FromRead<R> {
    /// The source over this reader. Its counts begin at 0.
    pub fn new(reader: R) -> FromRead<R>
        ensures reader { result.device.reader ≡ reader }
        ensures remaining { ⟦<FromRead<R> as Source>⟧.remaining result ≡ R.remaining reader }
        ensures failures { ⟦<FromRead<R> as Source>⟧.failures result ≡ 0 }
        ensures empty_reads { ⟦<FromRead<R> as Source>⟧.empty_reads result ≡ 0 }
    {
        FromRead {
            device: CalledReader::new(reader),
            failures: 0,
            empty_reads: 0,
        }
    }

    /// Has the reader be called again where it was at its end. The count of empty reads begins at 0 again.
    pub fn restart(&mut self)
        ensures device { self.new.device ≡ self.old.device }
        ensures failures { self.new.failures ≡ self.old.failures }
        ensures empty_reads { self.new.empty_reads ≡ 0 }
    {
        self.empty_reads = 0;
    }

    /// The reader, with what it has not given yet.
    pub fn into_inner(self) -> R
        ensures reader { result ≡ self.device.reader }
        ensures remaining { R.remaining result
            ≡ ⟦<FromRead<R> as Source>⟧.remaining self }
    {
        self.device.reader
    }
}

impl<R: Read> Source for FromRead<R> {
    ghost remaining = { λ source. R.remaining source.device.reader };

    ghost failures = { λ source. source.failures };

    ghost empty_reads = { λ source. source.empty_reads };

    fn read(&mut self, buf: &mut [u8]) -> Result<usize, Fault>
        ensures within { IfOk result (λ count. count ≤ length buf.new) }
        ensures given { MatchResult result
            (λ count. Consumes (R.remaining self.old.device.reader)
            (R.remaining self.new.device.reader) (take count buf.new))
            (λ _. Keeps (R.remaining self.old.device.reader)
            (R.remaining self.new.device.reader)) }
        ensures failures { self.new.failures ≡ counted (is_err result) self.old.failures }
        ensures empty_reads { self.new.empty_reads
            ≡ counted (is_empty_read result buf.new) self.old.empty_reads }

        // The reader is called once, and its answer is handed on.
        ensures called { Asks self.old.empty_reads buf.old
            → self.new.device.calls ≡ counted true self.old.device.calls }
        ensures answer { Asks self.old.empty_reads buf.old → result ≡ self.new.device.last }

        // At its end, and where there is no room, it is not called.
        ensures ended { self.old.empty_reads ≢ 0 → self.new.device ≡ self.old.device }
        ensures no_room { length buf.old ≡ 0 → self.new.device ≡ self.old.device }
        ensures at_end { IfOk result (λ count. count ≡ 0 → length buf.new ≢ 0
            → IsAtEnd (R.remaining self.new.device.reader)) }
    {
        if buf.is_empty() {
            return Ok(0);
        }
        if self.empty_reads > 0 {
            self.empty_reads = self.empty_reads.wrapping_add(1);
            return Ok(0);
        }
        match self.device.read(buf) {
            Ok(0) => {
                self.empty_reads = 1;
                Ok(0)
            }
            Ok(count) => Ok(count),
            Err(fault) => {
                self.failures = self.failures.wrapping_add(1);
                Err(fault)
            }
        }
    }
}

/// A sink that writes to a writer of std. Where a buffer tells by its error's kind that a write behind it took no bytes,
/// the sink took none.
#[derive(Drop)]
pub struct FromWrite<W> {
    pub(crate) device: CalledWriter<W>,
    failures: u64,
    empty_writes: u64,
}

impl<W: Write> FromWrite<W> {
    /// The sink over this writer. Its counts begin at 0.
    pub fn new(writer: W) -> FromWrite<W>
        ensures writer { result.device.writer ≡ writer }
        ensures taken { ⟦<FromWrite<W> as Sink>⟧.taken result ≡ W.contents writer }
        ensures failures { ⟦<FromWrite<W> as Sink>⟧.failures result ≡ 0 }
        ensures empty_writes { ⟦<FromWrite<W> as Sink>⟧.empty_writes result ≡ 0 }
    {
        FromWrite {
            device: CalledWriter::new(writer),
            failures: 0,
            empty_writes: 0,
        }
    }

    /// The writer, with what it has taken. It is not flushed.
    pub fn into_inner(self) -> W
        ensures writer { result ≡ self.device.writer }
        ensures taken { W.contents result ≡ ⟦<FromWrite<W> as Sink>⟧.taken self }
    {
        self.device.writer
    }
}

impl<W: Write> Sink for FromWrite<W> {
    ghost taken = { λ sink. W.contents sink.device.writer };

    ghost failures = { λ sink. sink.failures };

    ghost empty_writes = { λ sink. sink.empty_writes };

    ghost flushed = { λ sink. sink.device.flushed };

    fn write(&mut self, piece: &[u8]) -> Result<usize, Fault>
        ensures within { IfOk result (λ count. count ≤ length piece.now) }
        ensures taken { MatchResult result
            (λ count. Appends (W.contents self.old.device.writer)
            (W.contents self.new.device.writer) (take count piece.now))
            (λ _. Keeps (W.contents self.old.device.writer)
            (W.contents self.new.device.writer)) }
        ensures failures { self.new.failures ≡ counted (is_err result) self.old.failures }
        ensures empty_writes { self.new.empty_writes
            ≡ counted (is_empty_write result piece.now) self.old.empty_writes }

        // The writer is called once, and its answer is handed on.
        ensures called { self.new.device.calls ≡ counted true self.old.device.calls }
        ensures answer { result ≡ self.new.device.last }
    {
        match self.device.write(piece) {
            Ok(count) => {
                if count == 0 && !piece.is_empty() {
                    self.empty_writes = self.empty_writes.wrapping_add(1);
                }
                Ok(count)
            }
            Err(fault) => {
                self.failures = self.failures.wrapping_add(1);
                Err(fault)
            }
        }
    }

    /// Has the writer hand on what it keeps, by one call. A flush that fails is not tried again.
    fn flush(&mut self) -> Result<(), StreamError>
        ensures called { self.new.device.calls ≡ counted true self.old.device.calls }
        ensures flushed { self.new.device.flushed ≡ is_ok result }
        ensures kept { Keeps (W.contents self.old.device.writer)
            (W.contents self.new.device.writer) }
        ensures failures { self.new.failures
            ≡ counted (is_write_fault result) self.old.failures }
        ensures empty_writes { self.new.empty_writes
            ≡ counted (is_write_of_nothing result) self.old.empty_writes }
        ensures only { IfErr result IsWriteRefusal }
    {
        let answer = self.device.flush();
        match answer {
            Err(StreamError::Write(_)) => self.failures = self.failures.wrapping_add(1),
            Err(StreamError::WriteZero) => {
                self.empty_writes = self.empty_writes.wrapping_add(1);
            }
            _ => {}
        }
        answer
    }
}
