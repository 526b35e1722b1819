//! How a search of a stream begins: with the memory that it keeps, and then over a source.

ghost use Rattle.std.specs.Iterator.Runs.{EachRunFrom};
ghost use Rattle.std.specs.Prelude.{◌≡◌, ◌≤◌, min, ℕ, List, [], Ok, Err, IfOk, IfErr, false};
ghost use Rattle.aho_core.specs.Laws.{shortest};
ghost use Rattle.aho_core.specs.Patterns.{Patterns};
ghost use Rattle.aho_core.specs.declared.error.MatchErrorKind.TheVariants.{UnsupportedEmpty};
ghost use Rattle.aho_core.specs.declared.search.Anchored.TheVariants.{No};
ghost use Rattle.aho_stream.specs.After.{IsUnbegun, greatest_position};
ghost use Rattle.aho_stream.specs.FindRuns.{FindsAlong, RunFindsAll, RunFindsFirst};
ghost use Rattle.aho_stream.specs.Iterators.{HasNotBegun, automaton_of, lookups_of};
ghost use Rattle.aho_stream.specs.Replacing.{IsMakingRefusal, Refuses};
ghost use Rattle.aho_stream.specs.Starts.{IsFreshStart};

use crate::chunks::StreamChunkIter;
use crate::finds::StreamFindIter;
use crate::progress::StreamProgress;
use aho_automaton::automaton::Automaton;
use aho_core::error::{MatchError, StreamError};
use aho_core::search::{Anchored, StateID};
use aho_devices::buffer::Buffer;
use aho_devices::device::Source;
use std::alloc::Global;

/// The most bytes that a stream may give: 2^63 - 1.
pub(crate) const MAX_POSITION: u64 = 9_223_372_036_854_775_807;

/// A search of a stream that has not begun. It has all the memory that it will keep, and no source yet.
#[derive(Drop)]
pub struct StreamStart<'a, A> {
    automaton: &'a A,
    progress: StreamProgress,
}

impl<'a, A: Automaton> StreamStart<'a, A> {
    /// A search of a stream that may give 2^63 - 1 bytes.
    ///
    /// # Errors
    ///
    /// As those of `with_limit`.
    pub fn new(alloc: Global, automaton: &'a A) -> Result<StreamStart<'a, A>, StreamError>
        requires of { (p : Patterns) × A.is_of automaton.now p }
        ensures made { IfOk result (λ start. start.progress.limit ≡ greatest_position) }
        ensures begun { IfOk result (λ start. (start.progress.ended ≡ false)
            × (start.progress.refused ≡ false)) }
        ensures of { IfOk result (λ start. start.automaton.now ≡ automaton.entry.now) }
        ensures after { IfOk result (λ start.
            IsUnbegun A.Automaton automaton.entry.now start.progress) }
        ensures refuses { Refuses (A.lengths automaton.entry.now)
            (A.start automaton.entry.now No) result }
        ensures only { IfErr result IsMakingRefusal }
    {
        StreamStart::with_limit(alloc, automaton, MAX_POSITION)
    }

    /// A search of a stream that may give `limit` bytes; a greater limit than 2^63 - 1 counts as that.
    ///
    /// What it keeps of memory is taken here: a buffer of 8 times as many bytes as the longest pattern has, and of 65536 at
    /// least. Nothing is read, since there is no source yet.
    ///
    /// # Errors
    ///
    /// In this order, and each exactly where it is so: an empty pattern is refused with `UnsupportedEmpty`, and what
    /// `start_state` refuses; then `Memory`, where the allocation of the buffer fails.
    pub fn with_limit(
        alloc: Global,
        automaton: &'a A,
        limit: u64,
    ) -> Result<StreamStart<'a, A>, StreamError>
        requires of { (p : Patterns) × A.is_of automaton.now p }
        ensures made { IfOk result (λ start. start.progress.limit ≡ min limit greatest_position) }
        ensures begun { IfOk result (λ start. (start.progress.ended ≡ false)
            × (start.progress.refused ≡ false)) }
        ensures of { IfOk result (λ start. start.automaton.now ≡ automaton.entry.now) }
        ensures after { IfOk result (λ start.
            IsUnbegun A.Automaton automaton.entry.now start.progress) }
        ensures refuses { Refuses (A.lengths automaton.entry.now)
            (A.start automaton.entry.now No) result }
        ensures only { IfErr result IsMakingRefusal }
    {
        let progress = begin(alloc, automaton, limit)?;
        Ok(StreamStart {
            automaton,
            progress,
        })
    }

    /// How far the search has come, apart from its automaton: for a stream whose bytes are pushed.
    pub fn into_progress(self) -> StreamProgress
        ensures same { result ≡ self.entry.progress }
    {
        self.progress
    }

    /// The chunks of what this source gives. It reads nothing and cannot fail: all that could be refused was refused before
    /// there was a source.
    pub fn over<'r, R: Source>(self, source: &'r mut R) -> StreamChunkIter<'a, 'r, A, R>
        ensures progress { result.progress ≡ self.entry.progress }
        ensures of { (result.source ≡ source.entry)
            × (automaton_of result ≡ self.entry.automaton.now) }
        ensures none { lookups_of result ≡ 0 }
    {
        StreamChunkIter::over(self.automaton, source, self.progress)
    }

    /// The matches of what this source gives. It reads nothing and cannot fail: all that could be refused was refused before
    /// there was a source.
    pub fn finds<'r, R: Source>(self, source: &'r mut R) -> StreamFindIter<'a, 'r, A, R>
        requires some { (p : Patterns) × A.is_of self.automaton.now p }
        requires fresh { IsFreshStart A.Automaton self }
        requires open { self.progress.ended ≡ false }
        requires below { self.progress.refused ≡ false }
        ensures progress { result.chunks.progress ≡ self.entry.progress }
        ensures of { (result.chunks.source ≡ source.entry)
            × (automaton_of result.chunks ≡ self.entry.automaton.now) }
        ensures after { HasNotBegun A.Automaton result.chunks }
        ensures ready { ⟦<StreamFindIter<'a, 'r, A, R> as Iterator>⟧.can_next result }
        ensures first { (p : Patterns) → A.is_of self.entry.automaton.now p →
            EachRunFrom ⟦<StreamFindIter<'a, 'r, A, R> as Iterator>⟧.next_gives result
            (RunFindsFirst R.Source p source.entry.now) }
        ensures finds { (p : Patterns) → A.is_of self.entry.automaton.now p →
            EachRunFrom ⟦<StreamFindIter<'a, 'r, A, R> as Iterator>⟧.next_gives result
            (RunFindsAll R.Source p source.entry.now) }
        ensures along { (p : Patterns) → A.is_of self.entry.automaton.now p →
            FindsAlong R.Source ⟦<StreamFindIter<'a, 'r, A, R> as Iterator>⟧.next_gives p result }
    {
        StreamFindIter::over(self.over(source))
    }
}

/// The state in which each search of a stream begins, where the automaton can search one.
fn check<A: Automaton>(automaton: &A) -> Result<StateID, MatchError>
    ensures start { IfOk result (λ sid. A.start automaton.now No ≡ Ok sid) }
    ensures no_empty { IfOk result (λ sid. 1 ≤ shortest (A.lengths automaton.now)) }
    ensures valid { IfOk result (A.valid automaton.now) }
    ensures shallow { IfOk result (λ sid. A.depth automaton.now sid ≡ 0) }
    ensures begins { IfOk result (λ sid. (p : Patterns) → A.is_of automaton.now p →
        A.held automaton.now p No [] sid) }
    ensures empty { shortest (A.lengths automaton.now) ≡ 0 → result ≡ Err UnsupportedEmpty }
    ensures refused { 1 ≤ shortest (A.lengths automaton.now)
        → result ≡ A.start automaton.now No }
{
    if automaton.min_pattern_len() == 0 {
        return Err(MatchError::unsupported_empty());
    }
    automaton.start_state(Anchored::No)
}

/// How far a search of a stream has come before it begins, with the memory that the search keeps.
///
/// # Errors
///
/// As those of `StreamChunkIter::with_limit`.
pub(crate) fn begin<A: Automaton>(
    alloc: Global,
    automaton: &A,
    limit: u64,
) -> Result<StreamProgress, StreamError>
    requires of { (p : Patterns) × A.is_of automaton.now p }
    ensures made { IfOk result (λ s. s.limit ≡ min limit greatest_position) }
    ensures begun { IfOk result (λ s. (s.ended ≡ false) × (s.refused ≡ false)) }
    ensures after { IfOk result (IsUnbegun A.Automaton automaton.now) }
    ensures refuses { Refuses (A.lengths automaton.now) (A.start automaton.now No) result }
    ensures only { IfErr result IsMakingRefusal }
{
    let start = check(automaton)?;
    let buffer = Buffer::new(alloc, automaton.max_pattern_len())?;
    Ok(StreamProgress::new(buffer, start, limit.min(MAX_POSITION)))
}
