//! Readers and writers that are slow, fail, or take nothing.

use std::alloc::Global;
use std::io;
use std::io::{ErrorKind, Read, Write};

/// A reader that gives some bytes, then fails once, and then gives some more.
#[derive(Drop)]
pub(crate) struct Broken<'b> {
    pub(crate) first: &'b [u8],
    pub(crate) kind: Option<ErrorKind>,
    pub(crate) rest: &'b [u8],
}

impl<'b> Read for Broken<'b> {
    fn read(&mut self, buf: &mut [u8]) -> io::Result<usize> {
        if !self.first.is_empty() {
            return self.first.read(buf);
        }
        match self.kind.take() {
            Some(kind) => Err(io::Error::from(kind)),
            None => self.rest.read(buf),
        }
    }
}

/// A reader that gives a byte at a time.
#[derive(Drop)]
pub(crate) struct Slow<'b> {
    pub(crate) rest: &'b [u8],
}

impl<'b> Read for Slow<'b> {
    fn read(&mut self, buf: &mut [u8]) -> io::Result<usize> {
        let most = buf.len().min(1);
        self.rest.read(&mut buf[..most])
    }
}

/// What a writer does with a write once it has taken its first bytes.
#[derive(Clone, Copy)]
pub(crate) enum Then {
    /// It goes on to take them.
    Takes,
    /// It takes none.
    TakesNone,
    /// It fails once, and then takes them.
    Fails(ErrorKind),
}

/// A writer that takes a byte at a time, `first` of them at least, and keeps what it took until it is flushed. The first flush
/// of some bytes may fail.
#[derive(Drop)]
pub(crate) struct Device {
    pub(crate) first: usize,
    pub(crate) then: Then,
    pub(crate) flush: Option<ErrorKind>,
    pub(crate) held: Vec<u8>,
    pub(crate) flushed: Vec<u8>,
}

impl Device {
    pub(crate) fn new(alloc: Global, first: usize, then: Then, flush: Option<ErrorKind>) -> Device {
        Device {
            first,
            then,
            flush,
            held: Vec::new(alloc),
            flushed: Vec::new(alloc),
        }
    }
}

impl Write for Device {
    fn write(&mut self, buf: &[u8]) -> io::Result<usize> {
        let Some(byte) = buf.first() else {
            return Ok(0);
        };
        if self.held.len() >= self.first {
            match self.then {
                Then::Takes => {}
                Then::TakesNone => return Ok(0),
                Then::Fails(kind) => {
                    self.then = Then::Takes;
                    return Err(io::Error::from(kind));
                }
            }
        }
        self.held.push(*byte)?;
        Ok(1)
    }

    fn flush(&mut self) -> io::Result<()> {
        if self.held.is_empty() {
            return Ok(());
        }
        if let Some(kind) = self.flush.take() {
            return Err(io::Error::from(kind));
        }
        self.flushed.extend_from_slice(self.held.as_slice())?;
        self.held.truncate(0);
        Ok(())
    }
}
