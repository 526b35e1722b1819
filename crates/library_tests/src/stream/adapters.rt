//! `FromRead` and `FromWrite` over devices of std that fail, end in mid-stream or take nothing. No contract of std says when a
//! call of a device fails, so what the one call of each adapter hands on is shown here.

use crate::asserts::{assert_in, assert_same, assert_same_in};
use aho_core::error::{Fault, StreamError};
use aho_devices::adapters::{FromRead, FromWrite};
use aho_devices::buffer::{Buffer, Filled};
use aho_devices::device::{Sink, Source};
use aho_devices::write::write_whole;
use std::alloc::Global;
use std::io;
use std::io::{ErrorKind, Read, Write};
use std::process::Abort;
use std::test::Fail;

/// What one call of a device does.
#[derive(Clone, Copy, Debug)]
enum Act {
    /// It moves at most this many bytes.
    Move(usize),
    /// It fails with an error of this kind.
    Fail(ErrorKind),
}

const KINDS: [ErrorKind; 3] = [
    ErrorKind::Other,
    ErrorKind::Interrupted,
    ErrorKind::OutOfMemory,
];

/// A reader whose first calls go by a list; later ones give all that fits.
#[derive(Drop)]
struct ActedReader<'a> {
    rest: &'a [u8],
    acts: &'a [Act],
    calls: usize,
}

impl<'a> ActedReader<'a> {
    fn new(rest: &'a [u8], acts: &'a [Act]) -> ActedReader<'a> {
        ActedReader {
            rest,
            acts,
            calls: 0,
        }
    }
}

impl<'a> Read for ActedReader<'a> {
    fn read(&mut self, buf: &mut [u8]) -> io::Result<usize> {
        self.calls = self.calls.saturating_add(1);
        let mut most = buf.len();
        if let Some((act, later)) = self.acts.split_first() {
            self.acts = later;
            match act {
                Act::Move(count) => most = most.min(*count),
                Act::Fail(kind) => return Err(io::Error::from(*kind)),
            }
        }
        self.rest.read(&mut buf[..most])
    }
}

/// A writer whose first calls go by a list; later ones take all.
#[derive(Drop)]
struct ActedWriter<'a> {
    held: Vec<u8>,
    acts: &'a [Act],
    calls: usize,
    flushes: usize,
}

impl<'a> ActedWriter<'a> {
    fn new(alloc: Global, acts: &'a [Act]) -> ActedWriter<'a> {
        ActedWriter {
            held: Vec::new(alloc),
            acts,
            calls: 0,
            flushes: 0,
        }
    }
}

impl<'a> Write for ActedWriter<'a> {
    fn write(&mut self, piece: &[u8]) -> io::Result<usize> {
        self.calls = self.calls.saturating_add(1);
        let mut most = piece.len();
        if let Some((act, later)) = self.acts.split_first() {
            self.acts = later;
            match act {
                Act::Move(count) => most = most.min(*count),
                Act::Fail(kind) => return Err(io::Error::from(*kind)),
            }
        }
        self.held.extend_from_slice(&piece[..most])?;
        Ok(most)
    }

    fn flush(&mut self) -> io::Result<()> {
        self.flushes = self.flushes.saturating_add(1);
        if let Some((act, later)) = self.acts.split_first() {
            self.acts = later;
            if let Act::Fail(kind) = act {
                return Err(io::Error::from(*kind));
            }
        }
        Ok(())
    }
}

/// The next read gives these bytes.
fn gives<'a>(rt: &impl Abort, source: &mut FromRead<ActedReader<'a>>, bytes: &[u8]) {
    let mut buf = [0; 8];
    let found = source.read(&mut buf);
    assert_same(rt, found, Ok(bytes.len()));
    assert_in(rt, &bytes, buf.starts_with(bytes));
}

/// The next read fails.
fn fails<'a>(rt: &impl Abort, source: &mut FromRead<ActedReader<'a>>) {
    let found = source.read(&mut [0; 8]);
    assert_same(rt, found, Err(Fault));
}

#[test]
fn a_failed_read_is_told_and_not_tried_again(rt: HostRuntime) -> Result<(), Fail> {
    for kind in KINDS {
        let acts = [Act::Move(2), Act::Fail(kind), Act::Fail(kind)];
        let mut source = FromRead::new(ActedReader::new(b"abcd", &acts));
        gives(&rt, &mut source, b"ab");
        fails(&rt, &mut source);
        fails(&rt, &mut source);
        gives(&rt, &mut source, b"cd");
        assert_same_in(&rt, &kind, source.into_inner().calls, 4);
    }
    Ok(())
}

#[test]
fn a_reader_at_its_end_is_not_called_until_a_restart(rt: HostRuntime) -> Result<(), Fail> {
    let acts = [Act::Move(2), Act::Move(0)];
    let mut source = FromRead::new(ActedReader::new(b"abcd", &acts));
    gives(&rt, &mut source, b"ab");
    gives(&rt, &mut source, b"");
    gives(&rt, &mut source, b"");
    source.restart();
    gives(&rt, &mut source, b"cd");
    assert_same(&rt, source.into_inner().calls, 3);
    Ok(())
}

#[test]
fn a_read_without_room_calls_no_reader(rt: HostRuntime) -> Result<(), Fail> {
    let mut source = FromRead::new(ActedReader::new(b"abcd", &[]));
    assert_same(&rt, source.read(&mut []), Ok(0));
    gives(&rt, &mut source, b"abcd");
    assert_same(&rt, source.into_inner().calls, 1);
    Ok(())
}

/// A fill of this buffer.
fn fill<'a>(
    rt: &impl Abort,
    buffer: &mut Buffer,
    source: &mut FromRead<ActedReader<'a>>,
) -> Result<Filled, StreamError> {
    assert!(rt; !buffer.is_full());
    buffer.fill(source, 100)
}

#[test]
fn a_fill_tells_a_reader_that_fails_in_mid_stream(rt: HostRuntime) -> Result<(), Fail> {
    for kind in KINDS {
        let acts = [Act::Move(2), Act::Fail(kind)];
        let mut source = FromRead::new(ActedReader::new(b"abcd", &acts));
        let mut buffer = Buffer::new(rt.alloc(), 4)?;
        let failed = fill(&rt, &mut buffer, &mut source);
        assert_same_in(&rt, &kind, failed, Err(StreamError::Read(Fault)));
        assert_same_in(&rt, &kind, buffer.buffer(), b"ab".as_slice());
        assert_same_in(&rt, &kind, source.into_inner().calls, 2);
    }
    Ok(())
}

#[test]
fn a_failed_write_is_told_and_not_tried_again(rt: HostRuntime) -> Result<(), Fail> {
    for kind in KINDS {
        let acts = [Act::Move(2), Act::Fail(kind), Act::Fail(kind)];
        let mut sink = FromWrite::new(ActedWriter::new(rt.alloc(), &acts));
        assert_same_in(&rt, &kind, sink.write(b"abcd"), Ok(2));
        assert_same_in(&rt, &kind, sink.write(b"cd"), Err(Fault));
        assert_same_in(&rt, &kind, sink.write(b"cd"), Err(Fault));
        assert_same_in(&rt, &kind, sink.write(b"cd"), Ok(2));
        let writer = sink.into_inner();
        assert_same_in(&rt, &kind, writer.calls, 4);
        assert_same_in(&rt, &kind, writer.held.as_slice(), b"abcd".as_slice());
    }
    Ok(())
}

#[test]
fn a_writer_that_takes_nothing_is_told(rt: HostRuntime) -> Result<(), Fail> {
    for act in [Act::Move(0), Act::Fail(ErrorKind::WriteZero)] {
        let acts = [Act::Move(1), act];
        let mut sink = FromWrite::new(ActedWriter::new(rt.alloc(), &acts));
        let answer = write_whole(&mut sink, b"abcd");
        assert_same_in(&rt, &act, answer, Err(StreamError::WriteZero));
        let writer = sink.into_inner();
        assert_same_in(&rt, &act, writer.calls, 2);
        assert_same_in(&rt, &act, writer.held.as_slice(), b"a".as_slice());
    }
    let acts = [Act::Fail(ErrorKind::WriteZero)];
    let mut sink = FromWrite::new(ActedWriter::new(rt.alloc(), &acts));
    assert_same(&rt, sink.write(b""), Err(Fault));
    Ok(())
}

/// A flush whose call does this answers this, by one call.
fn is_flushed(
    rt: &impl Abort,
    alloc: Global,
    acts: &[Act],
    wanted: Result<(), StreamError>,
) -> Result<(), Fail> {
    let mut sink = FromWrite::new(ActedWriter::new(alloc, acts));
    assert_same_in(rt, &acts, sink.flush(), wanted);
    assert_same_in(rt, &acts, sink.into_inner().flushes, 1);
    Ok(())
}

#[test]
fn a_flush_is_made_once_and_its_failure_told(rt: HostRuntime) -> Result<(), Fail> {
    is_flushed(&rt, rt.alloc(), &[], Ok(()))?;
    for kind in KINDS {
        let acts = [Act::Fail(kind)];
        is_flushed(&rt, rt.alloc(), &acts, Err(StreamError::Write(Fault)))?;
    }
    let zero = [Act::Fail(ErrorKind::WriteZero)];
    is_flushed(&rt, rt.alloc(), &zero, Err(StreamError::WriteZero))
}
