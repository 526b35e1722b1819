//! Calls that are made twice: while there is memory, and once more where every allocation is refused. Then each answers the same.

ghost use Rattle.std.specs.Prelude.{◌≡◌, ◌<◌, IfOk, length, false};
ghost use Rattle.aho_core.specs.Patterns.{Patterns};
ghost use Rattle.aho_corasick.specs.ReadOut.{states_of};
ghost use Rattle.aho_stream.specs.Starts.{IsFreshStart};

use crate::answers::Answers;
use crate::builds::{PATTERNS, automaton};
use crate::reading::{advances, begin, finds, lends, replaces};
use crate::searching::all;
use crate::wants::{Want, Wrong};
use aho_automaton::automaton::Automaton;
use aho_corasick::noncontiguous::{Builder, NFA};
use aho_core::search::StateID;
use aho_hybrid::hybrid::Hybrid;
use aho_stream::start::StreamStart;
use std::alloc::Global;
use std::io::Read;

/// What stands in the place of each pattern.
const PIECES: [&[u8]; 6] = [b"0", b"", b"<2>", b"3", b"4", b"5"];

/// The calls that are made.
#[derive(Clone, Copy)]
pub enum Calls {
    /// Searches, iteration, steps, and what an automaton tells.
    Searches,
    /// One chunk of a stream that is lent.
    Lends,
    /// All chunks of a stream.
    Advances,
    /// The matches of a stream.
    Finds,
    /// The replacement of a stream.
    Replaces,
}

/// Makes these calls of the automaton that a builder makes, or of the one with its rows.
pub fn make<R: Read>(
    alloc: Global,
    calls: Calls,
    builder: &Builder,
    with_rows: bool,
    input: &mut R,
    want: &mut Want,
) -> Result<(), Wrong> {
    let nfa = automaton(alloc, builder, &PATTERNS, want)?;
    if with_rows {
        calls_by_rows(alloc, calls, &nfa, input)
    } else {
        calls_of(alloc, calls, &nfa, input)
    }
}

/// The same of the automaton with rows.
fn calls_by_rows<R: Read>(
    alloc: Global,
    calls: Calls,
    nfa: &NFA,
    input: &mut R,
) -> Result<(), Wrong>
    requires of { (p : Patterns) × ⟦<NFA as Automaton>⟧.is_of nfa.now p }
{
    match Hybrid::from_nfa(alloc, nfa) {
        Ok(rows) => calls_of(alloc, calls, &rows, input),
        Err(_) => Err("an automaton with rows was refused"),
    }
}

/// These calls of an automaton.
fn calls_of<A: Automaton, R: Read>(
    alloc: Global,
    calls: Calls,
    automaton: &A,
    input: &mut R,
) -> Result<(), Wrong>
    requires of { (p : Patterns) × A.is_of automaton.now p }
{
    match calls {
        Calls::Searches => searches(alloc, automaton, input),
        _ => streams(alloc, calls, automaton, input),
    }
}

/// All calls of an automaton in memory.
fn searches<A: Automaton, R: Read>(alloc: Global, automaton: &A, input: &mut R) -> Result<(), Wrong>
    requires of { (p : Patterns) × A.is_of automaton.now p }
{
    let mut answers = Answers::new(alloc);
    all(automaton, &mut answers);
    answers.begin_again(input)?;
    all(automaton, &mut answers);
    answers.are_the_same()
}

/// The calls over a stream, each time of one that has taken its memory before.
fn streams<A: Automaton, R: Read>(
    alloc: Global,
    calls: Calls,
    automaton: &A,
    input: &mut R,
) -> Result<(), Wrong>
    requires of { (p : Patterns) × A.is_of automaton.now p }
{
    let pieces: &[&[u8]] = &PIECES;
    if automaton.patterns_len() != pieces.len() {
        return Err("there is not one piece for each pattern");
    }
    streams_by(alloc, calls, automaton, pieces, input)
}

/// The same with pieces of which there is one for each pattern.
fn streams_by<A: Automaton, R: Read>(
    alloc: Global,
    calls: Calls,
    automaton: &A,
    pieces: &[&[u8]],
    input: &mut R,
) -> Result<(), Wrong>
    requires of { (p : Patterns) × A.is_of automaton.now p }
    requires one_each { length pieces.now ≡ length (A.lengths automaton.now) }
{
    let (first, second) = (begin(alloc, automaton)?, begin(alloc, automaton)?);
    let mut answers = Answers::new(alloc);
    over_stream(calls, first, pieces, &mut answers);
    answers.begin_again(input)?;
    over_stream(calls, second, pieces, &mut answers);
    answers.are_the_same()
}

/// One stream.
fn over_stream<'a, A: Automaton>(
    calls: Calls,
    start: StreamStart<'a, A>,
    pieces: &[&[u8]],
    answers: &mut Answers,
)
    requires of { (p : Patterns) × A.is_of start.automaton.now p }
    requires fresh { IsFreshStart A.Automaton start }
    requires open { start.progress.ended ≡ false }
    requires below { start.progress.refused ≡ false }
    requires one_each { length pieces.now ≡ length (A.lengths start.automaton.now) }
{
    match calls {
        Calls::Lends => lends(start, answers),
        Calls::Advances => advances(start, answers),
        Calls::Finds => finds(start, answers),
        _ => replaces(start, pieces, answers),
    }
}

/// What an automaton tells of its states.
pub fn read_out<R: Read>(
    alloc: Global,
    builder: &Builder,
    input: &mut R,
    want: &mut Want,
) -> Result<(), Wrong> {
    let nfa = automaton(alloc, builder, &PATTERNS, want)?;
    let mut answers = Answers::new(alloc);
    states_tell(&nfa, &mut answers);
    answers.begin_again(input)?;
    states_tell(&nfa, &mut answers);
    answers.are_the_same()
}

fn states_tell(nfa: &NFA, answers: &mut Answers) {
    for index in 0..nfa.states_len() {
        state_tells(nfa, StateID::new_unchecked(index), answers);
    }
    answers.tell(nfa.byte_classes().alphabet_len());
    answers.tell(nfa.pattern_lens().len());
    answers.tell(nfa.special().max_match_id.as_usize());
}

/// What one state tells.
fn state_tells(nfa: &NFA, sid: StateID, answers: &mut Answers)
    requires within { sid < length (states_of nfa.now) }
{
    answers.tell(nfa.depth(sid));
    answers.tell(nfa.fail(sid).as_usize());
    for (byte, next) in nfa.transitions(sid) {
        answers.tell(byte as usize);
        answers.tell(next.as_usize());
    }
    for pattern in nfa.matches(sid) {
        answers.tell(pattern.as_usize());
    }
}
