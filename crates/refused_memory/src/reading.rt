//! The calls that read streams. Their starts have taken all memory before.

ghost use Rattle.std.specs.Prelude.{◌≡◌, IfOk, None, length, false, true};
ghost use Rattle.aho_core.specs.Patterns.{Patterns};
ghost use Rattle.aho_stream.specs.Starts.{IsFreshStart};

use crate::answers::Answers;
use crate::searching::TEXT;
use crate::wants::Wrong;
use aho_automaton::automaton::Automaton;
use aho_core::error::{Fault, StreamError};
use aho_devices::adapters::FromRead;
use aho_devices::buffer::Buffer;
use aho_devices::device::Sink;
use aho_stream::chunks::StreamChunk;
use aho_stream::replace::replace_stream;
use aho_stream::start::StreamStart;
use std::alloc::Global;
use std::io;
use std::io::Read;

/// How often the text comes: more bytes than a buffer has.
const TIMES: usize = 3_000;

/// More chunks than these bytes have.
const MANY: usize = 60_000;

/// A reader that gives the text so many times, at most the whole of it at once.
#[derive(Drop)]
struct Repeated {
    times: usize,
}

impl Read for Repeated {
    fn read(&mut self, buf: &mut [u8]) -> io::Result<usize> {
        if self.times == 0 {
            return Ok(0);
        }
        self.times -= 1;
        let mut rest = TEXT;
        rest.read(buf)
    }
}

/// A sink that keeps one number of all bytes that it has taken.
#[derive(Drop)]
struct Summed {
    sum: usize,
}

impl Sink for Summed {
    ghost taken = { λ _. None };

    ghost failures = { λ _. 0 };

    ghost empty_writes = { λ _. 0 };

    ghost flushed = { λ _. true };

    fn write(&mut self, piece: &[u8]) -> Result<usize, Fault> {
        for byte in piece {
            self.sum = self.sum.wrapping_mul(31).wrapping_add(*byte as usize);
        }
        Ok(piece.len())
    }

    fn flush(&mut self) -> Result<(), StreamError> {
        Ok(())
    }
}

/// Buffers that are filled and rolled, the second of them where every allocation is refused.
pub fn buffers<R: Read>(alloc: Global, input: &mut R) -> Result<(), Wrong> {
    let (Ok(mut one), Ok(mut other)) = (Buffer::new(alloc, 40), Buffer::new(alloc, 40)) else {
        return Err("a buffer was refused");
    };
    let mut answers = Answers::new(alloc);
    fills(&mut one, &mut answers);
    answers.begin_again(input)?;
    fills(&mut other, &mut answers);
    answers.are_the_same()
}

/// A fill of a buffer, and a roll.
fn fills(buffer: &mut Buffer, answers: &mut Answers) {
    let mut source = FromRead::new(Repeated { times: 9 });
    if !buffer.is_full() {
        answers.tell_whether(buffer.fill(&mut source, 1_000).is_ok());
    }
    if buffer.buffer().len() >= buffer.min_buffer_len() {
        buffer.roll();
    }
    answers.tell_bytes(buffer.buffer());
}

/// A search of a stream that has taken its memory.
pub fn begin<'a, A: Automaton>(alloc: Global, automaton: &'a A) -> Result<StreamStart<'a, A>, Wrong>
    requires of { (p : Patterns) × A.is_of automaton.now p }
    ensures of { IfOk result (λ start. start.automaton.now ≡ automaton.entry.now) }
    ensures fresh { IfOk result (λ start. IsFreshStart A.Automaton start) }
    ensures open { IfOk result (λ start. start.progress.ended ≡ false) }
    ensures below { IfOk result (λ start. start.progress.refused ≡ false) }
{
    match StreamStart::new(alloc, automaton) {
        Ok(start) => Ok(start),
        Err(_) => Err("a stream was refused"),
    }
}

/// The first chunk of a stream is lent.
pub fn lends<'a, A: Automaton>(start: StreamStart<'a, A>, answers: &mut Answers)
    requires of { (p : Patterns) × A.is_of start.automaton.now p }
    requires fresh { IsFreshStart A.Automaton start }
{
    let mut source = FromRead::new(Repeated { times: TIMES });
    let mut chunks = start.over(&mut source);
    match chunks.next() {
        Some(Ok(StreamChunk::NonMatch { bytes })) => answers.tell_bytes(bytes),
        Some(Ok(StreamChunk::Match { bytes, mat })) => {
            answers.tell_bytes(bytes);
            answers.tell_match(Some(*mat));
        }
        Some(Err(_)) => answers.tell(usize::MAX - 1),
        None => answers.tell(usize::MAX),
    }
}

/// All chunks of a stream, with what they cost.
pub fn advances<'a, A: Automaton>(start: StreamStart<'a, A>, answers: &mut Answers)
    requires of { (p : Patterns) × A.is_of start.automaton.now p }
    requires fresh { IsFreshStart A.Automaton start }
{
    let mut source = FromRead::new(Repeated { times: TIMES });
    let mut chunks = start.over(&mut source);
    for _ in 0..MANY {
        match chunks.advance() {
            None => {}
            Some(Err(_)) => answers.tell(usize::MAX - 1),
            Some(Ok(piece)) => {
                answers.tell_match(piece.found());
                answers.tell(chunks.bytes().len());
            }
        }
    }
    answers.tell(low_half(chunks.lookups()));
    answers.tell(low_half(chunks.position()));
}

/// The low half of the bits of a number.
fn low_half(number: u128) -> usize {
    (number % (1 << 64)) as usize
}

/// All matches of a stream.
pub fn finds<'a, A: Automaton>(start: StreamStart<'a, A>, answers: &mut Answers)
    requires of { (p : Patterns) × A.is_of start.automaton.now p }
    requires fresh { IsFreshStart A.Automaton start }
    requires open { start.progress.ended ≡ false }
    requires below { start.progress.refused ≡ false }
{
    let mut source = FromRead::new(Repeated { times: TIMES });
    for item in start.finds(&mut source).take(MANY) {
        match item {
            Ok(m) => answers.tell_match(Some(m)),
            Err(_) => answers.tell(usize::MAX - 1),
        }
    }
}

/// The replacement of a stream.
pub fn replaces<'a, A: Automaton>(
    start: StreamStart<'a, A>,
    pieces: &[&[u8]],
    answers: &mut Answers,
)
    requires of { (p : Patterns) × A.is_of start.automaton.now p }
    requires fresh { IsFreshStart A.Automaton start }
    requires open { start.progress.ended ≡ false }
    requires below { start.progress.refused ≡ false }
    requires one_each { length pieces.now ≡ length (A.lengths start.automaton.now) }
{
    let mut source = FromRead::new(Repeated { times: TIMES });
    let mut sink = Summed { sum: 0 };
    let replaced = replace_stream(start, &mut source, &mut sink, pieces);
    answers.tell_whether(replaced.is_ok());
    answers.tell(sink.sum);
}
