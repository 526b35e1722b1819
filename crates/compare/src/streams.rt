//! Streams whose devices cut, end and fail, by any automaton, against the same search in memory.

ghost use Rattle.aho_core.specs.Patterns.{Patterns};

use crate::count::Count;
use crate::covers::compare_covers;
use crate::memory::{MANY, finds_in};
use crate::pieces::{bracketed, replaced};
use crate::turns::{answer_of, failed, last, turns};
use aho_automaton::automaton::Automaton;
use aho_core::error::{MatchError, StreamError};
use aho_core::search::{Anchored, Match, MatchKind};
use aho_devices::write::write_whole;
use aho_stream::chunks::StreamChunkIter;
use aho_stream::finds::try_stream_find_iter;
use aho_stream::replace::{try_stream_replace_all, try_stream_replace_all_with};
use anyhow::{Result, bail};
use bench::numbers::Numbers;
use bench::scripted::{ScriptedSink, ScriptedSource, Turn};
use std::alloc::{AllocError, Global};

/// What a stream told.
#[derive(Drop)]
struct Told {
    /// The matches and the faults, in order.
    items: Vec<Result<Match, StreamError>>,
    /// The bytes of all chunks.
    bytes: Vec<u8>,
    /// How many look-ups were made, and how many bytes were walked.
    cost: (u128, u128),
}

impl Told {
    /// The matches.
    fn matches(&self, alloc: Global) -> Result<Vec<Match>, AllocError> {
        let mut matches = Vec::new(alloc);
        for item in &self.items {
            if let Ok(m) = item {
                matches.push(*m)?;
            }
        }
        Ok(matches)
    }

    /// How many faults are those of a read, those of the limit, and others.
    fn faults(&self) -> (usize, usize, usize) {
        let (mut reads, mut limits, mut others) = (0usize, 0usize, 0usize);
        for item in &self.items {
            match item {
                Ok(_) => {}
                Err(StreamError::Read(_)) => reads = reads.saturating_add(1),
                Err(StreamError::PositionLimit) => limits = limits.saturating_add(1),
                Err(_) => others = others.saturating_add(1),
            }
        }
        (reads, limits, others)
    }
}

/// What the chunks of a stream tell, of which so many bytes may be given.
fn told_under<A: Automaton>(
    alloc: Global,
    automaton: &A,
    source: &mut ScriptedSource<'_>,
    limit: u64,
) -> Result<Told>
    requires of { (p : Patterns) × A.is_of automaton.now p }
{
    let (mut items, mut bytes) = (Vec::new(alloc), Vec::new(alloc));
    let mut chunks = StreamChunkIter::with_limit(alloc, automaton, source, limit)?;
    for _ in 0..MANY {
        match chunks.advance() {
            None => {
                let cost = (chunks.lookups(), chunks.position());
                return Ok(Told { items, bytes, cost });
            }
            Some(Err(error)) => items.push(Err(error))?,
            Some(Ok(piece)) => {
                if let Some(m) = piece.found() {
                    items.push(Ok(m))?;
                }
                bytes.extend_from_slice(chunks.bytes())?;
            }
        }
    }
    bail!("no end of chunks")
}

/// The bytes that a source has given.
pub(crate) fn given<'t>(text: &'t [u8], source: &ScriptedSource<'_>) -> &'t [u8] {
    let count = text.len().saturating_sub(source.rest().len());
    text.get(..count).unwrap_or(text)
}

/// Compares what the chunks of a stream tell up to its end, which may come before all bytes are given.
fn chunks<A: Automaton>(
    alloc: Global,
    automaton: &A,
    text: &[u8],
    reads: &[Turn],
    count: &mut Count,
) -> Result<()>
    requires of { (p : Patterns) × A.is_of automaton.now p }
{
    let mut source = ScriptedSource::new(text, reads);
    let told = told_under(alloc, automaton, &mut source, u64::MAX)?;
    let given = given(text, &source);
    count.same(
        "StreamChunkIter, matches",
        &told.matches(alloc)?,
        &finds_in(alloc, automaton, given)?,
    )?;
    count.same("StreamChunkIter, bytes", &told.bytes.as_slice(), &given)?;
    count.same(
        "StreamChunkIter, faults",
        &told.faults(),
        &(failed(reads, source.reads()), 0, 0),
    )?;
    let most = told.cost.1.saturating_mul(2);
    count.same("StreamChunkIter, cost", &(told.cost.0 <= most), &true)
}

/// What becomes of a stream whose matches are replaced: the answer, what was written, and how often its devices were called.
#[derive(Debug, Drop, PartialEq)]
struct Outcome {
    answer: Result<(), StreamError>,
    written: Vec<u8>,
    reads: usize,
    writes: usize,
}

/// What becomes of a stream whose matches are put in brackets.
fn outcome_of<A: Automaton>(
    alloc: Global,
    automaton: &A,
    text: &[u8],
    turns: &[Turn],
) -> Result<Outcome, AllocError>
    requires of { (p : Patterns) × A.is_of automaton.now p }
{
    let mut source = ScriptedSource::new(text, turns);
    let mut sink = ScriptedSink::new(alloc, turns);
    Ok(Outcome {
        answer: by_brackets(alloc, automaton, &mut source, &mut sink),
        written: Vec::from_slice(alloc, sink.taken())?,
        reads: source.reads(),
        writes: sink.writes(),
    })
}

/// Compares what two automata of the same patterns make of a stream. They tell the same in the same order, call the devices as
/// often, and cost the same, or the first one walks no further where it skips some bytes.
pub(crate) fn compare_two<A: Automaton, B: Automaton>(
    alloc: Global,
    first: &A,
    second: &B,
    text: &[u8],
    saves: bool,
    numbers: &mut Numbers,
    count: &mut Count,
) -> Result<()>
    requires first { (p : Patterns) × A.is_of first.now p }
    requires second { (p : Patterns) × B.is_of second.now p }
{
    let turns = turns(alloc, numbers, true)?;
    let outcome = outcome_of(alloc, first, text, turns.as_slice())?;
    count.same(
        "two replacements",
        &outcome,
        &outcome_of(alloc, second, text, turns.as_slice())?,
    )?;
    if first.min_pattern_len() == 0 {
        return Ok(());
    }
    let limit = numbers.below(text.len() + 20) as u64;
    let mut source = ScriptedSource::new(text, turns.as_slice());
    let one = told_under(alloc, first, &mut source, limit)?;
    let mut source = ScriptedSource::new(text, turns.as_slice());
    let other = told_under(alloc, second, &mut source, limit)?;
    count.same("two streams", &one.items, &other.items)?;
    cost_as_much(one.cost, other.cost, saves, count)
}

/// Compares two costs: they are the same, or the first one is of no more bytes where it may skip some. It may make more look-ups
/// then: behind skipped bytes a walk knows less of them, and may fail at several bytes where the other goes on.
fn cost_as_much(
    first: (u128, u128),
    second: (u128, u128),
    saves: bool,
    count: &mut Count,
) -> Result<()> {
    if saves && first.1 <= second.1 && first.0 <= first.1.saturating_mul(2) {
        return Ok(());
    }
    count.same("the costs of two streams", &first, &second)
}

/// Whether more bytes may change the first match in these: under a leftmost kind where the walk over them does not die.
fn is_open_after<A: Automaton>(automaton: &A, bytes: &[u8]) -> Result<bool> {
    if automaton.match_kind() == MatchKind::Standard {
        return Ok(false);
    }
    let mut sid = automaton.start_state(Anchored::No)?;
    for byte in bytes {
        sid = automaton.next_state(Anchored::No, sid, *byte);
    }
    Ok(!automaton.is_dead(sid))
}

/// The matches that are told of these bytes before more are wanted: under a leftmost kind up to the first at which the walk
/// over the rest does not die.
fn settled<A: Automaton>(alloc: Global, automaton: &A, bytes: &[u8]) -> Result<Vec<Match>>
    requires of { (p : Patterns) × A.is_of automaton.now p }
{
    let mut told = Vec::new(alloc);
    let mut from = 0;
    for m in finds_in(alloc, automaton, bytes)? {
        if is_open_after(automaton, bytes.get(from..).unwrap_or(&[]))? {
            return Ok(told);
        }
        told.push(m)?;
        from = m.end();
    }
    Ok(told)
}

/// Compares what the chunks of a stream tell that meets its limit, which is one of its places.
fn limited<A: Automaton>(
    alloc: Global,
    automaton: &A,
    text: &[u8],
    limit: usize,
    reads: &[Turn],
    count: &mut Count,
) -> Result<()>
    requires of { (p : Patterns) × A.is_of automaton.now p }
{
    let Some(front) = text.get(..limit) else {
        return Ok(());
    };
    let mut source = ScriptedSource::new(text, reads);
    let told = told_under(alloc, automaton, &mut source, limit as u64)?;
    count.same(
        "with_limit, matches",
        &told.matches(alloc)?,
        &settled(alloc, automaton, front)?,
    )?;
    count.same(
        "with_limit, bytes",
        &front.starts_with(told.bytes.as_slice()),
        &true,
    )?;
    count.same(
        "with_limit, faults",
        &told.faults(),
        &(failed(reads, source.reads()), 1, 0),
    )
}

/// Compares the matches that a stream's iterator gives.
fn found<A: Automaton>(
    alloc: Global,
    automaton: &A,
    text: &[u8],
    reads: &[Turn],
    count: &mut Count,
) -> Result<()>
    requires of { (p : Patterns) × A.is_of automaton.now p }
{
    let mut source = ScriptedSource::new(text, reads);
    let mut found = Vec::new(alloc);
    for item in try_stream_find_iter(alloc, automaton, &mut source)?.take(MANY) {
        if let Ok(m) = item {
            found.push(m)?;
        }
    }
    let wanted = finds_in(alloc, automaton, given(text, &source))?;
    count.same("try_stream_find_iter", &found, &wanted)
}

/// Compares what was written and answered: all that is wanted of the given bytes, or where a device failed a beginning of
/// what is wanted of the text, or of the given bytes where they had ended.
pub(crate) fn judged(
    call: &str,
    answer: &Result<(), StreamError>,
    wanted: &Result<(), StreamError>,
    written: &[u8],
    whole: &[u8],
    count: &mut Count,
) -> Result<()> {
    count.same(call, answer, wanted)?;
    if answer.is_ok() {
        return count.same(call, &written, &whole);
    }
    count.same(call, &whole.get(..written.len()), &Some(written))
}

/// Compares a replacement by pieces, or where there are none by brackets.
fn replacement<A: Automaton>(
    alloc: Global,
    automaton: &A,
    text: &[u8],
    pieces: Option<&[&[u8]]>,
    both: (&[Turn], &[Turn]),
    count: &mut Count,
) -> Result<()>
    requires of { (p : Patterns) × A.is_of automaton.now p }
{
    let (reads, writes) = both;
    let mut source = ScriptedSource::new(text, reads);
    let mut sink = ScriptedSink::new(alloc, writes);
    let answer = match pieces {
        Some(pieces) => by_pieces(alloc, automaton, &mut source, &mut sink, pieces),
        None => by_brackets(alloc, automaton, &mut source, &mut sink),
    };
    let last_read = last(reads, source.reads());
    let wanted = answer_of(last_read, last(writes, sink.writes()));
    let ended = answer.is_ok() || matches!(last_read, Some(Turn::Move(0)));
    let bytes = if ended { given(text, &source) } else { text };
    let finds = finds_in(alloc, automaton, bytes)?;
    let whole = match pieces {
        Some(pieces) => replaced(alloc, bytes, finds.as_slice(), pieces)?,
        None => bracketed(alloc, bytes, finds.as_slice(), usize::MAX)?,
    };
    judged(
        "try_stream_replace_all",
        &answer,
        &wanted,
        sink.taken(),
        whole.as_slice(),
        count,
    )
}

/// What a replacement by pieces answers.
fn by_pieces<A: Automaton>(
    alloc: Global,
    automaton: &A,
    source: &mut ScriptedSource<'_>,
    sink: &mut ScriptedSink<'_>,
    pieces: &[&[u8]],
) -> Result<(), StreamError>
    requires of { (p : Patterns) × A.is_of automaton.now p }
{
    if pieces.len() != automaton.patterns_len() {
        return Err(StreamError::PositionLimit);
    }
    try_stream_replace_all(alloc, automaton, source, sink, pieces)
}

/// What a replacement by a closure answers that puts brackets around each match.
fn by_brackets<A: Automaton>(
    alloc: Global,
    automaton: &A,
    source: &mut ScriptedSource<'_>,
    sink: &mut ScriptedSink<'_>,
) -> Result<(), StreamError>
    requires of { (p : Patterns) × A.is_of automaton.now p }
{
    try_stream_replace_all_with(alloc, automaton, source, sink, |_m, matched, sink| {
        write_whole(sink, b"[")?;
        write_whole(sink, matched)?;
        write_whole(sink, b"]")
    })
}

/// Compares that streams are refused that are searched for an empty pattern, and that nothing is read.
fn refused<A: Automaton>(alloc: Global, automaton: &A, text: &[u8], count: &mut Count) -> Result<()>
    requires of { (p : Patterns) × A.is_of automaton.now p }
{
    let mut source = ScriptedSource::new(text, &[]);
    let error = try_stream_find_iter(alloc, automaton, &mut source).err();
    let wanted = Some(StreamError::Match(MatchError::unsupported_empty()));
    count.same("try_stream_find_iter, refused", &error, &wanted)?;
    count.same("reads of a refused stream", &source.reads(), &0)
}

/// Compares each call of an automaton over a stream of this text, whose devices go by random turns.
pub(crate) fn compare_streams<A: Automaton>(
    alloc: Global,
    automaton: &A,
    text: &[u8],
    pieces: &[&[u8]],
    numbers: &mut Numbers,
    count: &mut Count,
) -> Result<()>
    requires of { (p : Patterns) × A.is_of automaton.now p }
{
    compare_covers(alloc, automaton, text, pieces, numbers, count)?;
    if automaton.min_pattern_len() == 0 {
        return refused(alloc, automaton, text, count);
    }
    let reads = turns(alloc, numbers, true)?;
    chunks(alloc, automaton, text, reads.as_slice(), count)?;
    let reads = turns(alloc, numbers, false)?;
    found(alloc, automaton, text, reads.as_slice(), count)?;
    if text.len() < 1_000 {
        let limit = numbers.below(text.len() + 1);
        limited(alloc, automaton, text, limit, reads.as_slice(), count)?;
    }
    let reads = turns(alloc, numbers, true)?;
    let writes = turns(alloc, numbers, true)?;
    let both = (reads.as_slice(), writes.as_slice());
    replacement(alloc, automaton, text, Some(pieces), both, count)?;
    replacement(alloc, automaton, text, None, both, count)
}
