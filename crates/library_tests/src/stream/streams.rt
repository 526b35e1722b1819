//! Replacement in streams: worked rows under every cut into pieces, and devices that fail.

ghost use Rattle.std.specs.Prelude.{◌≡◌, length};
ghost use Rattle.aho_core.specs.Patterns.{Patterns};

use crate::asserts::{assert_in, assert_same, assert_same_in};
use crate::automata::nfa_of;
use crate::stream::automata::{Setting, Trial, try_over_each};
use crate::stream::scripted::{ScriptedSink, ScriptedSource, Turn};
use crate::stream::stream_finds::{ONE_BYTE, items};
use aho_automaton::automaton::Automaton;
use aho_core::error::{Fault, MatchError, StreamError};
use aho_core::search::MatchKind;
use aho_devices::write::write_whole;
use aho_stream::chunks::{StreamChunk, StreamChunkIter};
use aho_stream::replace::{replace_stream, try_stream_replace_all, try_stream_replace_all_with};
use aho_stream::start::StreamStart;
use std::alloc::{AllocError, Global};
use std::process::Abort;
use std::test::Fail;

/// A stream with what is written in its place, where each pattern is replaced by its piece.
#[derive(Clone, Copy)]
struct Row {
    patterns: &'static [&'static [u8]],
    pieces: &'static [&'static [u8]],
    given: &'static [u8],
    written: &'static [u8],
}

const ANIMALS: Row = Row {
    patterns: &[b"fox", b"brown", b"quick"],
    pieces: &[b"sloth", b"grey", b"slow"],
    given: b"The quick brown fox.",
    written: b"The slow grey sloth.",
};

const ROWS: &[Row] = &[
    ANIMALS,
    Row {
        patterns: &[b"aa"],
        pieces: &[b"b"],
        given: b"aaaaa",
        written: b"bba",
    },
    Row {
        patterns: &[b"a"],
        pieces: &[b""],
        given: b"bab",
        written: b"bb",
    },
    Row {
        patterns: &[],
        pieces: &[],
        given: b"abc",
        written: b"abc",
    },
    Row {
        patterns: &[],
        pieces: &[],
        given: b"",
        written: b"",
    },
    Row {
        patterns: &[b"ab"],
        pieces: &[b"-"],
        given: b"aab",
        written: b"a-",
    },
];

/// As many turns of one kind.
fn turns_of(alloc: Global, turn: Turn, count: usize) -> Result<Vec<Turn>, AllocError> {
    let mut turns = Vec::new(alloc);
    for _ in 0..count {
        turns.push(turn)?;
    }
    Ok(turns)
}

/// What the replacement of a stream answers, and whether it wrote this.
pub(crate) fn replaces<A: Automaton>(
    rt: &impl Abort,
    alloc: Global,
    automaton: &A,
    pieces: &[&[u8]],
    source: &mut ScriptedSource<'_>,
    sink: &mut ScriptedSink<'_>,
) -> Result<(), StreamError>
    requires of { (p : Patterns) × A.is_of automaton.now p }
{
    assert_eq!(rt; pieces.len(), automaton.patterns_len());
    try_stream_replace_all(alloc, automaton, source, sink, pieces)
}

/// What the replacement of these bytes writes, whose source goes by these turns.
pub(crate) fn written<A: Automaton>(
    rt: &impl Abort,
    alloc: Global,
    automaton: &A,
    pieces: &[&[u8]],
    given: &[u8],
    reads: &[Turn],
) -> Result<Vec<u8>, Fail>
    requires of { (p : Patterns) × A.is_of automaton.now p }
{
    let mut source = ScriptedSource::new(given, reads);
    let mut sink = ScriptedSink::new(alloc, &[]);
    replaces(rt, alloc, automaton, pieces, &mut source, &mut sink)?;
    Ok(Vec::from_slice(alloc, sink.taken())?)
}

/// What the replacement of a stream answers, where each match is put in brackets, and the closure answers this.
fn puts_in_brackets<A: Automaton>(
    alloc: Global,
    automaton: &A,
    source: &mut ScriptedSource<'_>,
    sink: &mut ScriptedSink<'_>,
    answer: Result<(), StreamError>,
) -> Result<(), StreamError>
    requires of { (p : Patterns) × A.is_of automaton.now p }
{
    try_stream_replace_all_with(alloc, automaton, source, sink, |_m, matched, sink| {
        write_whole(sink, b"[")?;
        write_whole(sink, matched)?;
        write_whole(sink, b"]")?;
        answer
    })
}

/// What the replacement of a stream answers, where "X" is written for each match, and the closure answers this.
fn puts_an_x<A: Automaton>(
    alloc: Global,
    automaton: &A,
    source: &mut ScriptedSource<'_>,
    sink: &mut ScriptedSink<'_>,
    answer: Result<(), StreamError>,
) -> Result<(), StreamError>
    requires of { (p : Patterns) × A.is_of automaton.now p }
{
    try_stream_replace_all_with(alloc, automaton, source, sink, |_m, _matched, sink| {
        write_whole(sink, b"X")?;
        answer
    })
}

/// The stream of a row is replaced where its devices move so many bytes at once.
fn is_replaced_under_a_cut<A: Automaton>(
    rt: &impl Abort,
    alloc: Global,
    automaton: &A,
    setting: Setting,
    row: &Row,
    count: usize,
) -> Result<(), Fail>
    requires of { (p : Patterns) × A.is_of automaton.now p }
{
    let turns = turns_of(alloc, Turn::Move(count), row.given.len())?;
    let mut source = ScriptedSource::new(row.given, &turns);
    let mut sink = ScriptedSink::new(alloc, &turns);
    replaces(rt, alloc, automaton, row.pieces, &mut source, &mut sink)?;
    let case = (setting, count, "bytes at once");
    assert_same_in(rt, case, sink.taken(), row.written);
    Ok(())
}

/// The stream of a row is replaced, whatever its devices move at once.
impl Trial for Row {
    fn run<H: Abort, A: Automaton>(
        &self,
        rt: &H,
        alloc: Global,
        automaton: &A,
        setting: Setting,
    ) -> Result<(), Fail> {
        for count in 1..=self.given.len() + 1 {
            is_replaced_under_a_cut(rt, alloc, automaton, setting, self, count)?;
        }
        Ok(())
    }
}

#[test]
fn each_row_is_replaced_under_every_cut(rt: HostRuntime) -> Result<(), Fail> {
    for row in ROWS {
        try_over_each(&rt, rt.alloc(), row.patterns, MatchKind::Standard, row)?;
    }
    Ok(())
}

/// A search of the animals' stream that was begun before its devices were there replaces it.
fn replaces_by_a_start<A: Automaton>(
    rt: &impl Abort,
    alloc: Global,
    automaton: &A,
) -> Result<(), Fail>
    requires of { (p : Patterns) × A.is_of automaton.now p }
{
    assert_eq!(rt; ANIMALS.pieces.len(), automaton.patterns_len());
    let start = StreamStart::new(alloc, automaton)?;
    let mut source = ScriptedSource::new(ANIMALS.given, ONE_BYTE);
    let mut sink = ScriptedSink::new(alloc, ONE_BYTE);
    replace_stream(start, &mut source, &mut sink, ANIMALS.pieces)?;
    assert_same(rt, sink.taken(), ANIMALS.written);
    Ok(())
}

#[test]
fn a_start_replaces_a_stream_that_comes_later(rt: HostRuntime) -> Result<(), Fail> {
    let alloc = rt.alloc();
    let nfa = nfa_of(&rt, alloc, ANIMALS.patterns, MatchKind::Standard, false);
    replaces_by_a_start(&rt, alloc, &nfa)
}

/// A replacement of the animals' stream: the turns of the source and the sink, what it answers, what is written, and what the source
/// has left.
#[derive(Clone, Copy)]
struct Scripted<'t> {
    reads: &'t [Turn],
    writes: &'t [Turn],
    answer: Result<(), StreamError>,
    written: &'t [u8],
    left: &'t [u8],
}

impl<'t> Trial for Scripted<'t> {
    fn run<H: Abort, A: Automaton>(
        &self,
        rt: &H,
        alloc: Global,
        automaton: &A,
        setting: Setting,
    ) -> Result<(), Fail> {
        let mut source = ScriptedSource::new(ANIMALS.given, self.reads);
        let mut sink = ScriptedSink::new(alloc, self.writes);
        let answer = replaces(rt, alloc, automaton, ANIMALS.pieces, &mut source, &mut sink);
        assert_same_in(rt, setting, sink.taken(), self.written);
        assert_same_in(rt, setting, answer, self.answer);
        assert_same_in(rt, setting, source.rest(), self.left);
        Ok(())
    }
}

/// A row of the animals' stream is met by each automaton.
fn is_met(rt: &impl Abort, alloc: Global, row: &Scripted<'_>) -> Result<(), Fail> {
    try_over_each(rt, alloc, ANIMALS.patterns, MatchKind::Standard, row)
}

#[test]
fn an_empty_read_ends_the_stream(rt: HostRuntime) -> Result<(), Fail> {
    let row = Scripted {
        reads: &[Turn::Move(6), Turn::Move(0)],
        writes: &[],
        answer: Ok(()),
        written: b"The qu",
        left: b"ick brown fox.",
    };
    is_met(&rt, rt.alloc(), &row)
}

#[test]
fn a_failed_read_leaves_a_beginning(rt: HostRuntime) -> Result<(), Fail> {
    let row = Scripted {
        reads: &[Turn::Move(7), Turn::Fail],
        writes: &[],
        answer: Err(StreamError::Read(Fault)),
        written: b"Th",
        left: b"ck brown fox.",
    };
    is_met(&rt, rt.alloc(), &row)
}

#[test]
fn a_failed_write_leaves_a_beginning(rt: HostRuntime) -> Result<(), Fail> {
    for count in 0..ANIMALS.written.len() {
        let mut turns = turns_of(rt.alloc(), Turn::Move(1), count)?;
        turns.push(Turn::Fail)?;
        let row = Scripted {
            reads: &[],
            writes: turns.as_slice(),
            answer: Err(StreamError::Write(Fault)),
            written: &ANIMALS.written[..count],
            left: b"",
        };
        is_met(&rt, rt.alloc(), &row)?;
    }
    Ok(())
}

#[test]
fn a_write_of_nothing_is_told(rt: HostRuntime) -> Result<(), Fail> {
    let row = Scripted {
        reads: &[],
        writes: &[Turn::Move(0)],
        answer: Err(StreamError::WriteZero),
        written: b"",
        left: b"",
    };
    is_met(&rt, rt.alloc(), &row)
}

/// A replacement of the animals' stream by a closure that puts brackets around each match, and then answers that the
/// position limit was met, or well: the turns of the source and the sink, and what is written.
#[derive(Clone, Copy)]
struct ClosureRow {
    reads: &'static [Turn],
    writes: &'static [Turn],
    refuses: bool,
    written: &'static [u8],
}

const CLOSURE_ROWS: [ClosureRow; 5] = [
    ClosureRow {
        reads: &[Turn::Move(1); 64],
        writes: &[Turn::Move(1); 64],
        refuses: false,
        written: b"The [quick] [brown] [fox].",
    },
    ClosureRow {
        reads: &[],
        writes: &[],
        refuses: true,
        written: b"The [quick]",
    },
    ClosureRow {
        reads: &[Turn::Move(10), Turn::Fail],
        writes: &[],
        refuses: false,
        written: b"The [quick] ",
    },
    ClosureRow {
        reads: &[],
        writes: &[Turn::Move(2), Turn::Fail],
        refuses: false,
        written: b"Th",
    },
    ClosureRow {
        reads: &[],
        writes: &[Turn::Move(4), Turn::Move(1), Turn::Move(0)],
        refuses: false,
        written: b"The [",
    },
];

/// A closure row, and what its replacement answers.
#[derive(Clone, Copy)]
struct InBrackets<'r> {
    row: &'r ClosureRow,
    wanted: Result<(), StreamError>,
}

impl<'r> Trial for InBrackets<'r> {
    fn run<H: Abort, A: Automaton>(
        &self,
        rt: &H,
        alloc: Global,
        automaton: &A,
        setting: Setting,
    ) -> Result<(), Fail> {
        let row = self.row;
        let closure = if row.refuses { self.wanted } else { Ok(()) };
        let mut source = ScriptedSource::new(ANIMALS.given, row.reads);
        let mut sink = ScriptedSink::new(alloc, row.writes);
        let answer = puts_in_brackets(alloc, automaton, &mut source, &mut sink, closure);
        assert_same_in(rt, setting, sink.taken(), row.written);
        assert_same_in(rt, setting, answer, self.wanted);
        Ok(())
    }
}

#[test]
fn a_closure_is_called_on_each_match(rt: HostRuntime) -> Result<(), Fail> {
    let answers = [
        Ok(()),
        Err(StreamError::PositionLimit),
        Err(StreamError::Read(Fault)),
        Err(StreamError::Write(Fault)),
        Err(StreamError::WriteZero),
    ];
    for at in 0..5 {
        let trial = InBrackets {
            row: &CLOSURE_ROWS[at],
            wanted: answers[at],
        };
        let words = ANIMALS.patterns;
        try_over_each(&rt, rt.alloc(), words, MatchKind::Standard, &trial)?;
    }
    Ok(())
}

/// A closure that answers this writes "X" for the one match of "bac", and no more where it refuses.
#[derive(Clone, Copy)]
struct PutsAnX {
    closure: Result<(), StreamError>,
    written: &'static [u8],
}

impl Trial for PutsAnX {
    fn run<H: Abort, A: Automaton>(
        &self,
        rt: &H,
        alloc: Global,
        automaton: &A,
        setting: Setting,
    ) -> Result<(), Fail> {
        let mut source = ScriptedSource::new(b"bac", &[]);
        let mut sink = ScriptedSink::new(alloc, &[]);
        let answer = puts_an_x(alloc, automaton, &mut source, &mut sink, self.closure);
        assert_same_in(rt, setting, sink.taken(), self.written);
        assert_same_in(rt, setting, answer, self.closure);
        Ok(())
    }
}

#[test]
fn a_closure_that_refuses_ends_the_replacement(rt: HostRuntime) -> Result<(), Fail> {
    let words: [&[u8]; 1] = [b"a"];
    let rows = [
        PutsAnX {
            closure: Ok(()),
            written: b"bXc",
        },
        PutsAnX {
            closure: Err(StreamError::PositionLimit),
            written: b"bX",
        },
    ];
    for row in &rows {
        try_over_each(&rt, rt.alloc(), &words, MatchKind::Standard, row)?;
    }
    Ok(())
}

#[test]
fn what_cannot_search_a_stream_reads_nothing(rt: HostRuntime) -> Result<(), Fail> {
    let alloc = rt.alloc();
    let empty: [&[u8]; 2] = [b"a", b""];
    for kind in [MatchKind::Standard, MatchKind::LeftmostFirst] {
        let nfa = nfa_of(&rt, alloc, &empty, kind, false);
        let mut source = ScriptedSource::new(b"ab", &[]);
        let mut sink = ScriptedSink::new(alloc, &[]);
        let answer = replaces(&rt, alloc, &nfa, &[b"x", b"y"], &mut source, &mut sink);
        let reason = MatchError::unsupported_empty();
        assert_same(&rt, answer, Err(StreamError::Match(reason)));
        assert_same(&rt, source.reads(), 0);
        assert_same(&rt, sink.writes(), 0);
    }
    Ok(())
}

/// Some bytes "x", and these behind them.
pub(crate) fn behind(alloc: Global, count: usize, last: &[u8]) -> Result<Vec<u8>, AllocError> {
    let mut bytes = vec![in alloc; 120; count]?;
    bytes.extend_from_slice(last)?;
    Ok(bytes)
}

/// Some bytes "x", this word, and a "z".
fn between(alloc: Global, count: usize, word: &[u8]) -> Result<Vec<u8>, AllocError> {
    let mut bytes = behind(alloc, count, word)?;
    bytes.push(b'z')?;
    Ok(bytes)
}

/// A stream in which one match is found at this place and replaced, of patterns with these pieces.
#[derive(Clone, Copy)]
pub(crate) struct Far<'g> {
    pub(crate) given: &'g [u8],
    pub(crate) place: (usize, usize, usize),
    pub(crate) pieces: &'g [&'g [u8]],
    pub(crate) written: &'g [u8],
}

impl<'g> Trial for Far<'g> {
    fn run<H: Abort, A: Automaton>(
        &self,
        rt: &H,
        alloc: Global,
        automaton: &A,
        setting: Setting,
    ) -> Result<(), Fail> {
        let mut source = ScriptedSource::new(self.given, &[]);
        let found = items(alloc, automaton, &mut source)?;
        assert_same_in(rt, setting, found.as_slice(), [Ok(self.place)].as_slice());
        let written = written(rt, alloc, automaton, self.pieces, self.given, &[])?;
        assert_in(rt, setting, written.as_slice() == self.written);
        Ok(())
    }
}

/// A match of this word, behind so many bytes, is found there and replaced.
fn is_replaced_behind(
    rt: &impl Abort,
    alloc: Global,
    word: &[u8],
    count: usize,
    end: usize,
) -> Result<(), Fail> {
    let given = between(alloc, count, word)?;
    let written = behind(alloc, count, b"!z")?;
    let trial = Far {
        given: given.as_slice(),
        place: (0, count, end),
        pieces: &[b"!"],
        written: written.as_slice(),
    };
    try_over_each(rt, alloc, &[word], MatchKind::Standard, &trial)
}

#[test]
fn a_match_across_the_end_of_the_buffer_is_replaced(rt: HostRuntime) -> Result<(), Fail> {
    let alloc = rt.alloc();
    is_replaced_behind(&rt, alloc, b"foobar", 65_533, 65_539)?;
    let long = behind(alloc, 9_000, b"y")?;
    is_replaced_behind(&rt, alloc, &long, 70_000, 79_001)
}

#[test]
fn a_chunk_is_lent(rt: HostRuntime) -> Result<(), Fail> {
    let nfa = nfa_of(&rt, rt.alloc(), &[b"fox"], MatchKind::Standard, false);
    lends_a_chunk(&rt, rt.alloc(), &nfa)
}

/// The chunk before a match is lent by the iterator, which nothing is asked of as long as it is looked at.
fn lends_a_chunk<A: Automaton>(rt: &impl Abort, alloc: Global, automaton: &A) -> Result<(), Fail>
    requires of { (p : Patterns) × A.is_of automaton.now p }
{
    let mut source = ScriptedSource::new(b"the fox", &[]);
    let mut chunks = StreamChunkIter::new(alloc, automaton, &mut source)?;
    match chunks.next() {
        Some(Ok(StreamChunk::NonMatch { bytes })) => assert_same(rt, bytes, b"the ".as_slice()),
        _ => panic!(rt; "a match, a fault or none"),
    }
    Ok(())
}
