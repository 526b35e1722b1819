//! The matches and the chunks of streams, whose sources cut, end and fail.

ghost use Rattle.aho_core.specs.Patterns.{Patterns};
ghost use Rattle.aho_prefilter.specs.Prefilter.{IsPrefilterOf};

use crate::asserts::{assert_in, assert_same, assert_same_in};
use crate::automata::{DEPTHS, nfa_of, nfa_with};
use crate::stream::automata::{Setting, Trial, try_over_each};
use crate::stream::collect::matches_of;
use crate::stream::scripted::{ScriptedSource, Turn};
use aho_automaton::automaton::{Automaton, WithPrefilter};
use aho_corasick::noncontiguous::NFA;
use aho_core::error::{Fault, MatchError, StreamError};
use aho_core::search::{Match, MatchKind};
use aho_hybrid::hybrid::Hybrid;
use aho_prefilter::prefilter::Prefilter;
use aho_stream::chunks::StreamChunkIter;
use aho_stream::finds::try_stream_find_iter;
use aho_stream::start::StreamStart;
use bench::callers::{automaton_of, prefilter_of};
use bench::one_byte::OneByte;
use bench::tally::Tally;
use std::alloc::{AllocError, Global};
use std::process::Abort;
use std::test::Fail;

/// The patterns of the worked streams, and their bytes.
const WORDS: &[&[u8]] = &[b"fox", b"brown", b"quick"];

const TEXT: &[u8] = b"The quick brown fox.";

/// A source that gives one byte a read.
pub(crate) const ONE_BYTE: &[Turn] = &[Turn::Move(1); 64];

/// A pattern's number, and where its match starts and ends.
pub(crate) fn found_of(m: Match) -> (usize, usize, usize) {
    (m.pattern().as_usize(), m.start(), m.end())
}

/// The first items of a stream's search, at most a hundred.
pub(crate) fn items<A: Automaton>(
    alloc: Global,
    automaton: &A,
    source: &mut ScriptedSource<'_>,
) -> Result<Vec<Result<(usize, usize, usize), StreamError>>, Fail>
    requires of { (p : Patterns) × A.is_of automaton.now p }
{
    let mut items = Vec::new(alloc);
    for item in try_stream_find_iter(alloc, automaton, source)?.take(100) {
        items.push(item.map(found_of))?;
    }
    Ok(items)
}

/// What the chunks of a stream told: its matches and its faults, how many look-ups were made, and how many bytes were walked.
#[derive(Drop)]
pub(crate) struct Told {
    pub(crate) items: Vec<Result<(usize, usize, usize), StreamError>>,
    pub(crate) lookups: u128,
    pub(crate) position: u128,
}

/// What the first two hundred chunks of a stream tell, of which so many bytes may be given.
pub(crate) fn told_under<A: Automaton>(
    alloc: Global,
    automaton: &A,
    source: &mut ScriptedSource<'_>,
    limit: u64,
) -> Result<Told, Fail>
    requires of { (p : Patterns) × A.is_of automaton.now p }
{
    let mut items = Vec::new(alloc);
    let mut chunks = StreamChunkIter::with_limit(alloc, automaton, source, limit)?;
    for _ in 0..200 {
        match chunks.advance() {
            None => {}
            Some(Err(error)) => items.push(Err(error))?,
            Some(Ok(piece)) => {
                if let Some(m) = piece.found() {
                    items.push(Ok(found_of(m)))?;
                }
            }
        }
    }
    Ok(Told {
        items,
        lookups: chunks.lookups(),
        position: chunks.position(),
    })
}

/// The matches of the worked stream.
const WORKED: [(usize, usize, usize); 3] = [(2, 4, 9), (1, 10, 15), (0, 16, 19)];

/// What a search of the worked stream tells.
fn worked_matches() -> [Result<(usize, usize, usize), StreamError>; 3] {
    [Ok(WORKED[0]), Ok(WORKED[1]), Ok(WORKED[2])]
}

/// The matches of the worked stream are found, which gives one byte a read.
struct AreFound;

impl Trial for AreFound {
    fn run<H: Abort, A: Automaton>(
        &self,
        rt: &H,
        alloc: Global,
        automaton: &A,
        setting: Setting,
    ) -> Result<(), Fail> {
        let mut source = ScriptedSource::new(TEXT, ONE_BYTE);
        let found = items(alloc, automaton, &mut source)?;
        assert_same_in(rt, setting, found.as_slice(), worked_matches().as_slice());
        Ok(())
    }
}

#[test]
fn a_stream_is_searched_across_its_reads(rt: HostRuntime) -> Result<(), Fail> {
    try_over_each(&rt, rt.alloc(), WORDS, MatchKind::Standard, &AreFound)
}

/// The worked stream is searched by a search that was begun before its source was there.
fn finds_by_a_start<A: Automaton>(rt: &impl Abort, alloc: Global, automaton: &A) -> Result<(), Fail>
    requires of { (p : Patterns) × A.is_of automaton.now p }
{
    let start = StreamStart::new(alloc, automaton)?;
    let mut source = ScriptedSource::new(TEXT, ONE_BYTE);
    let mut items = Vec::new(alloc);
    for item in start.finds(&mut source).take(100) {
        items.push(item.map(found_of))?;
    }
    assert_same(rt, items.as_slice(), worked_matches().as_slice());
    Ok(())
}

#[test]
fn a_start_searches_a_stream_that_comes_later(rt: HostRuntime) -> Result<(), Fail> {
    let nfa = nfa_of(&rt, rt.alloc(), WORDS, MatchKind::Standard, false);
    finds_by_a_start(&rt, rt.alloc(), &nfa)
}

/// All matches of the worked stream are collected, and its source is at its end.
fn collects_all<A: Automaton>(rt: &impl Abort, alloc: Global, automaton: &A) -> Result<(), Fail>
    requires of { (p : Patterns) × A.is_of automaton.now p }
{
    let mut source = ScriptedSource::new(TEXT, ONE_BYTE);
    let matches = matches_of(alloc, automaton, &mut source)?;
    assert_same(rt, matches.len(), WORKED.len());
    for at in 0..3 {
        assert_same(rt, matches.get(at).map(|m| found_of(*m)), Some(WORKED[at]));
    }
    assert_same(rt, source.rest(), b"".as_slice());
    Ok(())
}

#[test]
fn the_matches_of_a_stream_are_collected(rt: HostRuntime) -> Result<(), Fail> {
    let nfa = nfa_of(&rt, rt.alloc(), WORDS, MatchKind::Standard, false);
    collects_all(&rt, rt.alloc(), &nfa)
}

/// The worked stream, of whose reads one fails, tells that fault and its matches.
#[derive(Clone, Copy)]
struct LosesNothing<'t> {
    reads: &'t [Turn],
}

impl<'t> Trial for LosesNothing<'t> {
    fn run<H: Abort, A: Automaton>(
        &self,
        rt: &H,
        alloc: Global,
        automaton: &A,
        setting: Setting,
    ) -> Result<(), Fail> {
        let mut source = ScriptedSource::new(TEXT, self.reads);
        let mut found = items(alloc, automaton, &mut source)?;
        let case = (setting, self.reads);
        assert_same_in(rt, &case, found.len(), 4);
        assert_in(rt, &case, found.contains(&Err(StreamError::Read(Fault))));
        found.retain(|item| item.is_ok());
        assert_same_in(rt, &case, found.as_slice(), worked_matches().as_slice());
        Ok(())
    }
}

#[test]
fn a_failed_read_is_told_and_nothing_is_lost(rt: HostRuntime) -> Result<(), Fail> {
    for at in 0..21 {
        let mut turns = [Turn::Move(1); 64];
        turns[at] = Turn::Fail;
        let trial = LosesNothing { reads: &turns };
        try_over_each(&rt, rt.alloc(), WORDS, MatchKind::Standard, &trial)?;
    }
    Ok(())
}

/// The first so many of the worked matches, and behind them the limit's fault, where the limit is met.
fn worked_under(
    alloc: Global,
    limit: u64,
    count: usize,
) -> Result<Vec<Result<(usize, usize, usize), StreamError>>, AllocError> {
    let mut items = Vec::new(alloc);
    for m in WORKED.iter().take(count) {
        items.push(Ok(*m))?;
    }
    if limit < 21 {
        items.push(Err(StreamError::PositionLimit))?;
    }
    Ok(items)
}

/// The first so many of the worked matches are told under this limit, and then the limit.
#[derive(Clone, Copy)]
struct IsToldOnce {
    limit: u64,
    count: usize,
}

impl Trial for IsToldOnce {
    fn run<H: Abort, A: Automaton>(
        &self,
        rt: &H,
        alloc: Global,
        automaton: &A,
        setting: Setting,
    ) -> Result<(), Fail> {
        let mut source = ScriptedSource::new(TEXT, ONE_BYTE);
        let told = told_under(alloc, automaton, &mut source, self.limit)?;
        let wanted = worked_under(alloc, self.limit, self.count)?;
        let case = (setting, "limit", self.limit);
        assert_same_in(rt, case, told.items.as_slice(), wanted.as_slice());
        Ok(())
    }
}

#[test]
fn a_limit_is_answered_once(rt: HostRuntime) -> Result<(), Fail> {
    for (limit, count) in [(0, 0), (1, 0), (8, 0), (9, 1), (15, 2), (20, 3), (21, 3)] {
        let trial = IsToldOnce { limit, count };
        try_over_each(&rt, rt.alloc(), WORDS, MatchKind::Standard, &trial)?;
    }
    Ok(())
}

/// A stream in which "xyz" occurs once.
const ONCE: &[u8] = b"aaxaaaaaaxyzaaaaa";

/// What a stream that gives all its bytes in one read tells.
fn told_at_once<A: Automaton>(alloc: Global, automaton: &A, given: &[u8]) -> Result<Told, Fail>
    requires of { (p : Patterns) × A.is_of automaton.now p }
{
    let mut source = ScriptedSource::new(given, &[]);
    told_under(alloc, automaton, &mut source, 100)
}

#[test]
fn skipped_bytes_are_not_walked(rt: HostRuntime) -> Result<(), Fail> {
    let nfa = nfa_of(&rt, rt.alloc(), &[b"xyz"], MatchKind::Standard, false);
    let hybrid = Hybrid::from_nfa(rt.alloc(), &nfa).expect(&rt, "an automaton");
    let told = told_at_once(rt.alloc(), &hybrid, ONCE)?;
    assert_same(&rt, told.items.as_slice(), [Ok((0, 9, 12))].as_slice());
    // The match, and the last two bytes: a match may begin in them.
    assert_same(&rt, told.position, 5);
    Ok(())
}

/// A stream tells what is wanted by fewer look-ups, and walks fewer bytes.
fn saves(rt: &impl Abort, told: &Told, wanted: &Told) {
    assert_same(rt, told.items.as_slice(), wanted.items.as_slice());
    assert!(rt; told.lookups < wanted.lookups);
    assert!(rt; told.position < wanted.position);
}

/// An automaton that is given this prefilter skips in a stream, with rows and without.
fn skips_by(rt: &impl Abort, alloc: Global, nfa: &NFA, prefilter: Prefilter) -> Result<(), Fail>
    requires of { (p : Patterns) × ⟦<NFA as Automaton>⟧.is_of nfa.now p
        × IsPrefilterOf prefilter p }
{
    let walked = told_at_once(alloc, nfa, ONCE)?;
    let told = told_at_once(alloc, &WithPrefilter::new(nfa, &prefilter), ONCE)?;
    saves(rt, &told, &walked);
    let hybrid = Hybrid::with_prefilter(alloc, nfa, 0, Some(prefilter)).expect(rt, "an automaton");
    let told = told_at_once(alloc, &hybrid, ONCE)?;
    saves(rt, &told, &walked);
    Ok(())
}

#[test]
fn an_automaton_that_is_given_a_prefilter_skips_in_streams(rt: HostRuntime) -> Result<(), Fail> {
    let words: [&[u8]; 1] = [b"xyz"];
    let nfa = automaton_of(rt.alloc(), &words).expect(&rt, "an automaton");
    let prefilter = prefilter_of(rt.alloc(), &words)?.expect(&rt, "a prefilter");
    skips_by(&rt, rt.alloc(), &nfa, prefilter)
}

/// A match that begins in one read and ends in the next is told, wherever the first one ends.
fn is_told_across_a_read<A: Automaton>(
    rt: &impl Abort,
    alloc: Global,
    automaton: &A,
) -> Result<(), Fail>
    requires of { (p : Patterns) × A.is_of automaton.now p }
{
    for count in 1..17 {
        let turns = [Turn::Move(count)];
        let mut source = ScriptedSource::new(ONCE, &turns);
        let told = told_under(alloc, automaton, &mut source, 100)?;
        assert_same_in(
            rt,
            &count,
            told.items.as_slice(),
            [Ok((0, 9, 12))].as_slice(),
        );
    }
    Ok(())
}

#[test]
fn a_match_across_two_reads_is_not_skipped(rt: HostRuntime) -> Result<(), Fail> {
    let nfa = nfa_of(&rt, rt.alloc(), &[b"xyz"], MatchKind::Standard, false);
    let hybrid = Hybrid::from_nfa(rt.alloc(), &nfa).expect(&rt, "an automaton");
    is_told_across_a_read(&rt, rt.alloc(), &hybrid)
}

/// The look-ups that a stream of eight "a" makes in one read, and the bytes that it walks.
fn walks_all<A: Automaton>(rt: &impl Abort, alloc: Global, automaton: &A) -> Result<(), Fail>
    requires of { (p : Patterns) × A.is_of automaton.now p }
{
    let told = told_at_once(alloc, automaton, b"aaaaaaaa")?;
    assert_same(rt, told.items.len(), 0);
    assert_same(rt, (told.lookups, told.position), (13, 8));
    Ok(())
}

/// A stream of eight "a" is walked byte by byte, also where the automaton holds a prefilter.
struct IsWalked;

impl Trial for IsWalked {
    fn run<H: Abort, A: Automaton>(
        &self,
        rt: &H,
        alloc: Global,
        automaton: &A,
        setting: Setting,
    ) -> Result<(), Fail> {
        let holds = setting.prefilter && !setting.relinked;
        assert_same_in(rt, setting, automaton.prefilter().is_some(), holds);
        walks_all(rt, alloc, automaton)
    }
}

#[test]
fn a_stream_is_walked_at_the_same_cost(rt: HostRuntime) -> Result<(), Fail> {
    let words: [&[u8]; 1] = [b"aaab"];
    try_over_each(&rt, rt.alloc(), &words, MatchKind::Standard, &IsWalked)
}

/// Each byte of eight "a" is stepped once, and no next state is asked for.
fn is_stepped_once(
    rt: &impl Abort,
    alloc: Global,
    prefilter: bool,
    dense_depth: usize,
) -> Result<(), Fail> {
    let words: [&[u8]; 1] = [b"aaab"];
    let nfa = nfa_with(
        rt,
        alloc,
        &words,
        MatchKind::Standard,
        false,
        prefilter,
        dense_depth,
    );
    let tally = Tally::new(nfa);
    walks_all(rt, alloc, &tally)?;
    assert_same(rt, (tally.steps(), tally.next_states()), (8, 0));
    Ok(())
}

#[test]
fn each_byte_of_a_stream_is_stepped_once(rt: HostRuntime) -> Result<(), Fail> {
    for dense_depth in DEPTHS {
        is_stepped_once(&rt, rt.alloc(), true, dense_depth)?;
        is_stepped_once(&rt, rt.alloc(), false, dense_depth)?;
    }
    Ok(())
}

/// Whether the first bytes of a stream are held back up to its second read, which fails.
fn are_held_back<A: Automaton>(
    rt: &impl Abort,
    alloc: Global,
    automaton: &A,
    given: &[u8],
    wanted: bool,
) -> Result<(), Fail>
    requires of { (p : Patterns) × A.is_of automaton.now p }
{
    let turns = [Turn::Move(64), Turn::Fail];
    let mut source = ScriptedSource::new(given, &turns);
    let mut chunks = StreamChunkIter::new(alloc, automaton, &mut source)?;
    let failed = matches!(chunks.advance(), Some(Err(_)));
    assert_same_in(rt, given, failed, wanted);
    Ok(())
}

#[test]
fn bytes_are_held_back_where_a_match_may_begin(rt: HostRuntime) -> Result<(), Fail> {
    let nfa = nfa_of(&rt, rt.alloc(), &[b"abcdefgh"], MatchKind::Standard, false);
    are_held_back(&rt, rt.alloc(), &nfa, b"zzz", false)?;
    are_held_back(&rt, rt.alloc(), &nfa, b"zzza", true)?;
    are_held_back(&rt, rt.alloc(), &nfa, b"zzzax", false)
}

#[test]
fn an_empty_read_ends_a_stream(rt: HostRuntime) -> Result<(), Fail> {
    let nfa = nfa_of(&rt, rt.alloc(), WORDS, MatchKind::Standard, false);
    let turns = [Turn::Move(7), Turn::Move(0), Turn::Move(100)];
    let mut source = ScriptedSource::new(TEXT, &turns);
    let found = items(rt.alloc(), &nfa, &mut source)?;
    assert_same(&rt, found.len(), 0);
    assert_same(&rt, source.rest().len(), TEXT.len() - 7);
    Ok(())
}

#[test]
fn what_no_stream_can_be_searched_for_is_refused(rt: HostRuntime) {
    let empty = nfa_of(
        &rt,
        rt.alloc(),
        &[b"a", b""],
        MatchKind::LeftmostFirst,
        false,
    );
    let mut source = ScriptedSource::new(b"a", &[]);
    assert_same(
        &rt,
        try_stream_find_iter(rt.alloc(), &empty, &mut source).err(),
        Some(StreamError::Match(MatchError::unsupported_empty())),
    );
    assert_same(&rt, source.reads(), 0);
}

#[test]
fn other_automata_search_streams(rt: HostRuntime) -> Result<(), Fail> {
    let tally = Tally::new(OneByte::new(b'w'));
    let mut source = ScriptedSource::new(b"wow", ONE_BYTE);
    let found = items(rt.alloc(), &tally, &mut source)?;
    assert_same(
        &rt,
        found.as_slice(),
        [Ok((0, 0, 1)), Ok((0, 2, 3))].as_slice(),
    );
    assert_same(&rt, tally.steps(), 3);
    assert_same(&rt, tally.next_states(), 0);
    Ok(())
}
