//! A stream that waits where it gives or takes nothing now. Another program may have set it so for all that share it.

ghost use Rattle.std.specs.Prelude.{◌≡◌};

use std::io::{ErrorKind, Read, Write};
use std::time::{Clock, Duration};
use std::{io, thread};

/// How long is waited at first, in milliseconds, and how much longer each time after.
const STEP: u64 = 1;

/// How long is waited at most, in milliseconds.
const LONGEST: u64 = 50;

/// A stream that waits where it gives or takes nothing now.
#[derive(Drop)]
pub struct Patient<'c, S, C> {
    stream: S,
    clock: &'c C,
}

impl<'c, S, C: Clock> Patient<'c, S, C> {
    /// The stream over this one, which waits by this clock.
    pub fn new(stream: S, clock: &'c C) -> Patient<'c, S, C>
        ensures stream { result.stream ≡ stream }
    {
        Patient { stream, clock }
    }

    /// Waits, the longer the more often that was done.
    fn wait(&self, turn: u64) {
        let wait = turn.saturating_add(STEP).min(LONGEST);
        thread::sleep(self.clock, Duration::from_millis(wait));
    }
}

/// Whether a call fails only because the stream gives or takes nothing now.
fn has_to_wait(error: &io::Error) -> bool {
    error.kind() == ErrorKind::WouldBlock
}

impl<R: Read, C: Clock> Read for Patient<'_, R, C> {
    ghost remaining = { λ patient. R.remaining patient.stream };

    #[tactic(auto, using(crate::proofs::Waiting::keeps_on))]
    fn read(&mut self, buf: &mut [u8]) -> io::Result<usize> {
        for turn in 0..u64::MAX {
            match self.stream.read(buf) {
                Err(error) if has_to_wait(&error) => self.wait(turn),
                answer => return answer,
            }
        }
        Err(io::Error::from(ErrorKind::WouldBlock))
    }
}

impl<W: Write, C: Clock> Write for Patient<'_, W, C> {
    ghost contents = { λ patient. W.contents patient.stream };

    #[tactic(auto, using(crate::proofs::Waiting::keeps_on))]
    fn write(&mut self, buf: &[u8]) -> io::Result<usize> {
        for turn in 0..u64::MAX {
            match self.stream.write(buf) {
                Err(error) if has_to_wait(&error) => self.wait(turn),
                answer => return answer,
            }
        }
        Err(io::Error::from(ErrorKind::WouldBlock))
    }

    fn flush(&mut self) -> io::Result<()> {
        self.stream.flush()
    }
}
