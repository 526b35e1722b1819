//! Why a call of the output failed, and a closed pipe: where nobody reads the output any more, nothing is told of that. A
//! program that is ended by the signal for it says nothing either.

ghost use Rattle.std.specs.Prelude.{◌≡◌};

use crate::reason::Reason;
use std::cell::Cell;
use std::io;
use std::io::Write;

/// A writer that notes why its last call failed that did.
#[derive(Drop)]
pub struct Noted<'c, W> {
    writer: W,
    reason: &'c Cell<Option<Reason>>,
}

impl<'c, W> Noted<'c, W> {
    /// The writer over this one, which notes it there.
    pub fn new(writer: W, reason: &'c Cell<Option<Reason>>) -> Noted<'c, W>
        ensures writer { result.writer ≡ writer }
        ensures noted { result.reason ≡ reason.entry }
    {
        Noted { writer, reason }
    }

    /// Notes why a call failed, if it did.
    fn note<T>(&self, answer: &io::Result<T>) {
        if let Err(error) = answer {
            self.reason.set(Some(Reason::of(error)));
        }
    }
}

impl<W: Write> Write for Noted<'_, W> {
    ghost contents = { λ noted. W.contents noted.writer };

    fn write(&mut self, buf: &[u8]) -> io::Result<usize> {
        let answer = self.writer.write(buf);
        self.note(&answer);
        answer
    }

    fn flush(&mut self) -> io::Result<()> {
        let answer = self.writer.flush();
        self.note(&answer);
        answer
    }
}

/// A writer that writes nothing more once it is noted that the output is closed.
#[derive(Drop)]
pub struct Quiet<'c, E> {
    writer: E,
    reason: &'c Cell<Option<Reason>>,
}

impl<'c, E> Quiet<'c, E> {
    /// The writer over this one, by what is noted there.
    pub fn new(writer: E, reason: &'c Cell<Option<Reason>>) -> Quiet<'c, E>
        ensures writer { result.writer ≡ writer }
        ensures noted { result.reason ≡ reason.entry }
    {
        Quiet { writer, reason }
    }
}

impl<E: Write> Write for Quiet<'_, E> {
    fn write(&mut self, buf: &[u8]) -> io::Result<usize> {
        match self.reason.get() {
            Some(Reason::Closed) => Ok(buf.len()),
            _ => self.writer.write(buf),
        }
    }

    fn flush(&mut self) -> io::Result<()> {
        self.writer.flush()
    }
}
