//! A reader that notes why it cannot be read, and how many lines end in what it gave.

ghost use Rattle.std.specs.Prelude.{◌≡◌};

use std::cell::Cell;
use std::io;
use std::io::Read;
use tool_parts::reason::Reason;

/// A reader that notes why the last read that failed did so, and how many line ends the last read gave.
#[derive(Drop)]
pub struct Noting<'c, R> {
    /// The reader.
    reader: R,
    /// Where the reason is noted.
    reason: &'c Cell<Option<Reason>>,
    /// Where the number of line ends is.
    ends: &'c Cell<usize>,
}

impl<'c, R> Noting<'c, R> {
    /// Returns the reader over this one, which makes its notes in these two cells.
    pub fn new(reader: R, reason: &'c Cell<Option<Reason>>, ends: &'c Cell<usize>) -> Noting<'c, R>
        ensures reader { result.reader ≡ reader }
    {
        Noting {
            reader,
            reason,
            ends,
        }
    }
}

impl<R: Read> Read for Noting<'_, R> {
    ghost remaining = { λ noting. R.remaining noting.reader };

    fn read(&mut self, buf: &mut [u8]) -> io::Result<usize> {
        let answer = self.reader.read(buf);
        match &answer {
            Ok(count) => self.ends.set(line_ends(&buf[..*count])),
            Err(error) => self.reason.set(Some(Reason::of(error))),
        }
        answer
    }
}

/// Counts the line ends in these bytes.
fn line_ends(bytes: &[u8]) -> usize {
    let mut count = 0usize;
    for byte in bytes {
        if *byte == b'\n' {
            count = count.wrapping_add(1);
        }
    }
    count
}
