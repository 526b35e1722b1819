//! A search of a stream that has not begun, and the matches of one.

ghost use Rattle.std.specs.Prelude.{◌≡◌, Err, IfOk, IsOkUnless, false};
ghost use Rattle.aho_core.specs.declared.error.MatchErrorKind.TheVariants.{InvalidInputUnanchored, UnsupportedEmpty};
ghost use Rattle.aho_core.specs.declared.error.stream.StreamError.{StreamError};
ghost use Rattle.aho_core.specs.declared.search.Anchored.TheVariants.{No};
ghost use Rattle.aho_stream.specs.After.{IsUnbegun, greatest_position};
ghost use Rattle.chromesquid.specs.Searcher.{Answers, HasEmpty, HasNoEmpty, IsBuiltFromSome, RefusesSearch, StandsFor};
ghost use Rattle.chromesquid.specs.StreamIters.{CallsFindAlong, IsFreshFor, IsNew, progress_in, progress_of, stream_source};
ghost use Rattle.chromesquid.specs.Streams.{FindsFor, HasBufferFor, RunsFindBeginning, RunsFindToLimit, RunsFindWhole};
ghost use Rattle.either.specs.Either.{MatchEither};
ghost use Rattle.either.specs.Iterator.{either_steps};

use crate::searcher::AhoCorasick;
use aho_automaton::automaton::Automaton;
use aho_core::error::StreamError;
use aho_core::search::Match;
use aho_devices::device::Source;
use aho_hybrid::hybrid::Hybrid;
use aho_stream::finds::StreamFindIter as FindsBy;
use aho_stream::progress::StreamProgress;
use aho_stream::start::StreamStart as StartBy;
use either::{Either, Left, Right};
use std::alloc::Global;

/// A search of a stream that has not begun. It has all the memory that it will keep, and no source yet.
#[derive(Drop)]
pub struct StreamStart<'a> {
    searcher: &'a AhoCorasick,
    /// Over the searcher itself, or over the rows that it holds.
    by: Either<StartBy<'a, AhoCorasick>, StartBy<'a, Hybrid>>,
}

/// The matches of a stream, one after another. Their places count from the first byte that the source gave. Which automaton is held
/// was asked when it was made.
///
/// The source is asked for more only where no match that is settled is left to give. A fault is an item too, and the next
/// one goes on after it. So a source that fails for ever makes the iterator endless: use it through a limit on the items.
#[derive(Drop)]
pub struct StreamFindIter<'a, 'r, R> {
    by: Either<FindsBy<'a, 'r, AhoCorasick, R>, FindsBy<'a, 'r, Hybrid, R>>,
}

/// A search of a stream that has not begun, by an automaton that answers as the searcher does.
fn start_by<'a, A: Automaton>(
    alloc: Global,
    automaton: &'a A,
    searcher: &AhoCorasick,
) -> Result<StartBy<'a, A>, StreamError>
    requires stands { StandsFor A.Automaton automaton.now searcher.now }
    ensures of { IfOk result (λ start. start.automaton.now ≡ automaton.entry.now) }
    ensures fresh { IfOk result (IsFreshFor A.Automaton searcher.now) }
    ensures empty { HasEmpty searcher.now → result ≡ Err (StreamError.Match UnsupportedEmpty) }
    ensures refused { HasNoEmpty searcher.now → RefusesSearch searcher.now No
        → result ≡ Err (StreamError.Match InvalidInputUnanchored) }
    ensures memory { HasNoEmpty searcher.now → Answers searcher.now No
        → IsOkUnless result StreamError.Memory }
{
    StartBy::new(alloc, automaton)
}

/// The matches of what a source gives, by an automaton that answers as the searcher does.
fn finds_by<'a, 'r, A: Automaton, R: Source>(
    start: StartBy<'a, A>,
    searcher: &AhoCorasick,
    source: &'r mut R,
) -> FindsBy<'a, 'r, A, R>
    requires fresh { IsFreshFor A.Automaton searcher.now start }
    ensures source { result.chunks.source ≡ source.entry }
    ensures progress { result.chunks.progress ≡ start.entry.progress }
    ensures finds { FindsFor R.Source (λ it. it.chunks.source.now)
        ⟦<FindsBy<'a, 'r, A, R> as Iterator>⟧.can_next
        ⟦<FindsBy<'a, 'r, A, R> as Iterator>⟧.next_gives searcher.now source.entry.now result }
{
    start.finds(source)
}

impl<'a> StreamStart<'a> {
    /// A search of a stream by this searcher.
    ///
    /// # Errors
    ///
    /// As those of `AhoCorasick::try_stream_start`.
    pub(crate) fn of(
        alloc: Global,
        searcher: &'a AhoCorasick,
    ) -> Result<StreamStart<'a>, StreamError>
        ensures of { IfOk result (λ start. start.searcher.now ≡ searcher.entry.now) }
        ensures new { IfOk result IsNew }
        ensures limit { IfOk result (λ start. (progress_of start).limit ≡ greatest_position) }
        ensures buffer { IfOk result (λ start. HasBufferFor searcher.entry.now (progress_of start)) }
        ensures empty { HasEmpty searcher.entry.now
            → result ≡ Err (StreamError.Match UnsupportedEmpty) }
        ensures refused { HasNoEmpty searcher.entry.now → RefusesSearch searcher.entry.now No
            → result ≡ Err (StreamError.Match InvalidInputUnanchored) }
        ensures memory { HasNoEmpty searcher.entry.now → Answers searcher.entry.now No
            → IsOkUnless result StreamError.Memory }
    {
        match searcher.rows() {
            Some(rows) => Ok(StreamStart {
                searcher,
                by: Right(start_by(alloc, rows, searcher)?),
            }),
            None => Ok(StreamStart {
                searcher,
                by: Left(start_by(alloc, searcher.itself(), searcher)?),
            }),
        }
    }

    /// How far the search has come, apart from its searcher: for a stream whose bytes are pushed.
    pub fn into_progress(self) -> StreamProgress
        requires new { IsNew self }
        ensures same { result ≡ progress_of self.entry }
        ensures some { IsBuiltFromSome self.entry.searcher.now }
        ensures unbegun { IsUnbegun ⟦<AhoCorasick as Automaton>⟧ self.entry.searcher.now result }
        ensures going { result.ended ≡ false }
        ensures unrefused { result.refused ≡ false }
        ensures limit { result.limit ≡ greatest_position }
    {
        match self.by {
            Left(start) => start.into_progress(),
            Right(start) => start.into_progress(),
        }
    }
}

/// The matches of what this source gives. It takes no memory, reads nothing, and cannot fail: all that could be refused was refused
/// before there was a source.
pub fn stream_finds<'a, 'r, R: Source>(
    start: StreamStart<'a>,
    source: &'r mut R,
) -> StreamFindIter<'a, 'r, R>
    requires new { IsNew start }
    ensures source { stream_source result ≡ source.entry }
    ensures progress { progress_in result ≡ progress_of start.entry }
    ensures ready { ⟦<StreamFindIter<'a, 'r, R> as Iterator>⟧.can_next result }
    ensures first { RunsFindBeginning R.Source ⟦<StreamFindIter<'a, 'r, R> as Iterator>⟧.next_gives
        start.entry.searcher.now source.entry.now result }
    ensures finds { RunsFindWhole R.Source ⟦<StreamFindIter<'a, 'r, R> as Iterator>⟧.next_gives
        start.entry.searcher.now source.entry.now result }
    ensures limit { RunsFindToLimit R.Source ⟦<StreamFindIter<'a, 'r, R> as Iterator>⟧.next_gives
        start.entry.searcher.now source.entry.now result }
    ensures along { CallsFindAlong R.Source ⟦<StreamFindIter<'a, 'r, R> as Iterator>⟧.next_gives
        start.entry.searcher.now result }
{
    let searcher = start.searcher;
    match start.by {
        Left(start) => StreamFindIter {
            by: Left(finds_by(start, searcher, source)),
        },
        Right(start) => StreamFindIter {
            by: Right(finds_by(start, searcher, source)),
        },
    }
}

impl<'a, 'r, R: Source> StreamFindIter<'a, 'r, R> {
    /// Ends the search, and gives back the source. Bytes that were read and not searched through are lost.
    pub fn into_source(self) -> &'r mut R
        ensures same { result ≡ stream_source self.entry }
    {
        let by = self.by;
        match by {
            Left(finds) => finds.into_source(),
            Right(finds) => finds.into_source(),
        }
    }
}

impl<'a, 'r, R: Source> Iterator for StreamFindIter<'a, 'r, R> {
    type Item = Result<Match, StreamError>;

    ghost can_next = { λ it. MatchEither it.by
        ⟦<FindsBy<'a, 'r, AhoCorasick, R> as Iterator>⟧.can_next
        ⟦<FindsBy<'a, 'r, Hybrid, R> as Iterator>⟧.can_next };

    ghost next_gives = { λ it found rest. either_steps
        ⟦<FindsBy<'a, 'r, AhoCorasick, R> as Iterator>⟧.next_gives
        ⟦<FindsBy<'a, 'r, Hybrid, R> as Iterator>⟧.next_gives
        it.by found rest.by };

    fn next(&mut self) -> Option<Result<Match, StreamError>> {
        self.by.next()
    }
}
