//! The calls of a reader and of a writer of std.
//!
//! std does not say when a call fails. So each call is counted here and its answer is kept: by these two the contracts of
//! `FromRead` and `FromWrite` say that one call was made and that its answer was handed on. `read`, `write` and `flush`
//! below are the only places that call a device of std. That each of them calls it once is shown by tests.

ghost use Rattle.std.specs.Prelude.{◌≡◌, ◌↔◌, true, false, IsTrue, is_ok, IfErr};
ghost use Rattle.std.specs.Io.{ReadsAtMost, WritesAtMost};
ghost use Rattle.std.specs.Io.KnownBytes.{Keeps, ReadConsumes, WriteAppends};
ghost use Rattle.std.specs.IoError.{error_kind};
ghost use Rattle.aho_devices.specs.Counts.{counted};
ghost use Rattle.aho_devices.specs.Refusals.{IsWriteRefusal};

use aho_core::error::{Fault, StreamError};
use std::io;
use std::io::{ErrorKind, Read, Write};

/// A reader, how often it was called, and what it answered last.
#[derive(Drop)]
pub struct CalledReader<R> {
    pub(crate) reader: R,
    calls: u64,
    last: Result<usize, Fault>,
}

impl<R> CalledReader<R> {
    /// A reader that was not called yet.
    pub fn new(reader: R) -> CalledReader<R>
        ensures reader { result.reader ≡ reader }
        ensures calls { result.calls ≡ 0 }
    {
        CalledReader {
            reader,
            calls: 0,
            last: Ok(0),
        }
    }
}

impl<R: Read> CalledReader<R> {
    /// Calls the reader once.
    pub fn read(&mut self, buf: &mut [u8]) -> Result<usize, Fault>
        ensures called { self.new.calls ≡ counted true self.old.calls }
        ensures last { result ≡ self.new.last }
        ensures within { ReadsAtMost result buf.new }
        ensures bytes { ReadConsumes (R.remaining self.old.reader) (R.remaining self.new.reader)
            result buf.new }
    {
        self.calls = self.calls.wrapping_add(1);
        self.last = match self.reader.read(buf) {
            Ok(count) => Ok(count),
            Err(_) => Err(Fault),
        };
        self.last
    }
}

/// A writer, how often it was called, what its last write answered, and whether its last call was a flush that did not
/// fail.
#[derive(Drop)]
pub struct CalledWriter<W> {
    pub(crate) writer: W,
    calls: u64,
    last: Result<usize, Fault>,
    flushed: bool,
}

impl<W> CalledWriter<W> {
    /// A writer that was not called yet.
    pub fn new(writer: W) -> CalledWriter<W>
        ensures writer { result.writer ≡ writer }
        ensures calls { result.calls ≡ 0 }
    {
        CalledWriter {
            writer,
            calls: 0,
            last: Ok(0),
            flushed: false,
        }
    }
}

impl<W: Write> CalledWriter<W> {
    /// Calls the writer once. Where a buffer tells by its error's kind that a write behind it took no bytes of the piece,
    /// the answer is that it took none.
    pub fn write(&mut self, piece: &[u8]) -> Result<usize, Fault>
        ensures called { self.new.calls ≡ counted true self.old.calls }
        ensures last { result ≡ self.new.last }
        ensures unflushed { self.new.flushed ≡ false }
        ensures within { WritesAtMost result piece.now }
        ensures bytes { WriteAppends (W.contents self.old.writer) (W.contents self.new.writer)
            result piece.now }
    {
        self.calls = self.calls.wrapping_add(1);
        self.flushed = false;
        self.last = match self.writer.write(piece) {
            Ok(count) => Ok(count),
            Err(error) if took_nothing(&error) && !piece.is_empty() => Ok(0),
            Err(_) => Err(Fault),
        };
        self.last
    }

    /// Has the writer hand on what it keeps, by one call.
    pub fn flush(&mut self) -> Result<(), StreamError>
        ensures called { self.new.calls ≡ counted true self.old.calls }
        ensures flushed { self.new.flushed ≡ is_ok result }
        ensures kept { Keeps (W.contents self.old.writer) (W.contents self.new.writer) }
        ensures only { IfErr result IsWriteRefusal }
    {
        self.calls = self.calls.wrapping_add(1);
        let answer = match self.writer.flush() {
            Ok(()) => Ok(()),
            Err(error) if took_nothing(&error) => Err(StreamError::WriteZero),
            Err(_) => Err(StreamError::Write(Fault)),
        };
        self.flushed = answer.is_ok();
        answer
    }
}

/// Whether a buffer tells by its error that a write behind it took no bytes.
fn took_nothing(error: &io::Error) -> bool
    ensures told { IsTrue result ↔ (error_kind error.now ≡ ErrorKind.WriteZero) }
{
    matches!(error.kind(), ErrorKind::WriteZero)
}
