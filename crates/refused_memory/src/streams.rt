//! Streams.

ghost use Rattle.std.specs.Prelude.{◌≡◌, None, length, true};
ghost use Rattle.aho_core.specs.Patterns.{Patterns};

use crate::builds::automaton;
use crate::wants::{Want, Wrong};
use aho_automaton::automaton::Automaton;
use aho_corasick::noncontiguous::Builder;
use aho_core::error::{Fault, StreamError};
use aho_devices::adapters::FromRead;
use aho_devices::device::{Sink, Source};
use aho_devices::write::write_whole;
use aho_stream::chunks::StreamChunkIter;
use aho_stream::replace::{try_stream_replace_all, try_stream_replace_all_with};
use std::alloc::Global;

const GIVEN: &[u8] = b"the fox and the fox";

const WRITTEN: &[u8] = b"the sloth and the sloth";

/// A sink that compares what it takes with what is wanted. It takes no memory.
#[derive(Drop)]
struct Compare<'w> {
    rest: &'w [u8],
    differs: bool,
}

impl<'w> Compare<'w> {
    /// One that has taken nothing.
    fn new() -> Compare<'static> {
        Compare {
            rest: WRITTEN,
            differs: false,
        }
    }

    /// Looks at what a refused replacement has written.
    fn is_unwritten(&self) -> Result<(), Wrong> {
        if self.rest != WRITTEN || self.differs {
            return Err("a refused replacement has written");
        }
        Ok(())
    }

    /// Looks at what a replacement has written.
    fn is_replaced(&self) -> Result<(), Wrong> {
        if self.differs || !self.rest.is_empty() {
            return Err("a stream is replaced wrong");
        }
        Ok(())
    }
}

impl<'w> Sink for Compare<'w> {
    ghost taken = { λ _. None };

    ghost failures = { λ _. 0 };

    ghost empty_writes = { λ _. 0 };

    ghost flushed = { λ _. true };

    fn write(&mut self, piece: &[u8]) -> Result<usize, Fault> {
        match self.rest.strip_prefix(piece) {
            Some(rest) => self.rest = rest,
            None => self.differs = true,
        }
        Ok(piece.len())
    }

    fn flush(&mut self) -> Result<(), StreamError> {
        Ok(())
    }
}

/// `StreamChunkIter::new`, which leaves the source unread where it is refused.
pub fn chunks(alloc: Global, want: &mut Want) -> Result<(), Wrong> {
    let nfa = automaton(alloc, &Builder::new(), &[b"fox"], want)?;
    let mut source = FromRead::new(GIVEN);
    if is_refused(alloc, &nfa, &mut source)? {
        want.meet()?;
        if is_refused(alloc, &nfa, &mut source)? {
            return Err("a second stream was refused");
        }
    }
    is_unread(source.into_inner())
}

/// Whether a stream is refused for want of memory.
fn is_refused<A: Automaton, R: Source>(
    alloc: Global,
    automaton: &A,
    source: &mut R,
) -> Result<bool, Wrong>
    requires of { (p : Patterns) × A.is_of automaton.now p }
{
    match StreamChunkIter::new(alloc, automaton, source) {
        Ok(_) => Ok(false),
        Err(StreamError::Memory) => Ok(true),
        Err(_) => Err("a stream was refused for another cause"),
    }
}

/// `try_stream_replace_all`, which leaves the source unread and the sink unwritten where it is refused.
pub fn replace(alloc: Global, want: &mut Want) -> Result<(), Wrong> {
    let nfa = automaton(alloc, &Builder::new(), &[b"fox"], want)?;
    if nfa.patterns_len() != 1 {
        return Err("an automaton of another number of patterns");
    }
    replace_by(alloc, &nfa, want)
}

fn replace_by<A: Automaton>(alloc: Global, automaton: &A, want: &mut Want) -> Result<(), Wrong>
    requires of { (p : Patterns) × A.is_of automaton.now p }
    requires one { length (A.lengths automaton.now) ≡ 1 }
{
    let mut input = GIVEN;
    let mut source = FromRead::new(&mut input);
    let mut sink = Compare::new();
    match try_stream_replace_all(alloc, automaton, &mut source, &mut sink, &[b"sloth"]) {
        Ok(()) => sink.is_replaced(),
        Err(StreamError::Memory) => {
            want.meet()?;
            sink.is_unwritten()?;
            match try_stream_replace_all(alloc, automaton, &mut source, &mut sink, &[b"sloth"]) {
                Ok(()) => sink.is_replaced(),
                Err(_) => Err("a second replacement was refused"),
            }
        }
        Err(_) => Err("a replacement was refused for another cause"),
    }
}

/// `try_stream_replace_all_with`, which leaves the source unread and the sink unwritten where it is refused.
pub fn replace_with(alloc: Global, want: &mut Want) -> Result<(), Wrong> {
    let nfa = automaton(alloc, &Builder::new(), &[b"fox"], want)?;
    replace_with_by(alloc, &nfa, want)
}

fn replace_with_by<A: Automaton>(alloc: Global, automaton: &A, want: &mut Want) -> Result<(), Wrong>
    requires of { (p : Patterns) × A.is_of automaton.now p }
{
    let mut input = GIVEN;
    let mut source = FromRead::new(&mut input);
    let mut sink = Compare::new();
    match replace_each(alloc, automaton, &mut source, &mut sink) {
        Ok(()) => sink.is_replaced(),
        Err(StreamError::Memory) => {
            want.meet()?;
            sink.is_unwritten()?;
            match replace_each(alloc, automaton, &mut source, &mut sink) {
                Ok(()) => sink.is_replaced(),
                Err(_) => Err("a second replacement was refused"),
            }
        }
        Err(_) => Err("a replacement was refused for another cause"),
    }
}

/// A closure writes the other word for each match.
fn replace_each<A: Automaton, R: Source>(
    alloc: Global,
    automaton: &A,
    source: &mut R,
    sink: &mut Compare<'_>,
) -> Result<(), StreamError>
    requires of { (p : Patterns) × A.is_of automaton.now p }
{
    try_stream_replace_all_with(alloc, automaton, source, sink, |_m, _matched, sink| {
        write_whole(sink, b"sloth")
    })
}

/// Looks at what is left of the bytes of a stream that was not begun.
fn is_unread(rest: &[u8]) -> Result<(), Wrong> {
    if rest == GIVEN {
        Ok(())
    } else {
        Err("a stream was read before it was begun")
    }
}
