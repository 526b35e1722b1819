//! The matches of a stream, one after another.

ghost use Rattle.std.specs.Iterator.Runs.{EachRunFrom};
ghost use Rattle.std.specs.Prelude.{◌≡◌, IfOk, false};
ghost use Rattle.aho_core.specs.Patterns.{Patterns};
ghost use Rattle.aho_core.specs.declared.search.Anchored.TheVariants.{No};
ghost use Rattle.aho_stream.specs.After.{greatest_position};
ghost use Rattle.aho_stream.specs.FindRuns.{FindsAlong, RunFindsAll, RunFindsFirst};
ghost use Rattle.aho_stream.specs.Finds.{FindsNextInStream};
ghost use Rattle.aho_stream.specs.Iterators.{CanGoOn, HasNotBegun, automaton_of};
ghost use Rattle.aho_stream.specs.Replacing.{Refuses};

use crate::chunks::StreamChunkIter;
use crate::start::StreamStart;
use aho_automaton::automaton::Automaton;
use aho_core::error::StreamError;
use aho_core::search::Match;
use aho_devices::device::Source;
use std::alloc::Global;

/// The matches of a stream, one after another. Their places count from the first byte that the source gave.
///
/// The source is asked for more only where no match that is settled is left to give. A fault is an item too, and the next
/// one goes on after it. So a source that fails for ever makes the iterator endless: use it through a limit on the items.
#[derive(Drop)]
pub struct StreamFindIter<'a, 'r, A, R> {
    chunks: StreamChunkIter<'a, 'r, A, R>,
}

/// The matches of what the source gives, of which it may give 2^63 - 1 bytes: `StreamStart::new` and `finds` in one call.
///
/// # Errors
///
/// As those of `StreamChunkIter::with_limit`.
pub fn try_stream_find_iter<'a, 'r, A: Automaton, R: Source>(
    alloc: Global,
    automaton: &'a A,
    source: &'r mut R,
) -> Result<StreamFindIter<'a, 'r, A, R>, StreamError>
    requires of { (p : Patterns) × A.is_of automaton.now p }
    ensures made { IfOk result (λ it. it.chunks.progress.limit ≡ greatest_position) }
    ensures begun { IfOk result (λ it. (it.chunks.progress.ended ≡ false)
        × (it.chunks.progress.refused ≡ false)) }
    ensures of { IfOk result (λ it. (it.chunks.source ≡ source.entry)
        × (automaton_of it.chunks ≡ automaton.entry.now)) }
    ensures after { IfOk result (λ it. HasNotBegun A.Automaton it.chunks) }
    ensures ready { IfOk result ⟦<StreamFindIter<'a, 'r, A, R> as Iterator>⟧.can_next }
    ensures refuses { Refuses (A.lengths automaton.entry.now) (A.start automaton.entry.now No) result }

    // The matches among the items of a run are the first finds of what the source gave; after `None` they are all of
    // them, where the position limit was not answered.
    ensures first { (p : Patterns) → A.is_of automaton.entry.now p → IfOk result (λ it.
        EachRunFrom ⟦<StreamFindIter<'a, 'r, A, R> as Iterator>⟧.next_gives it
        (RunFindsFirst R.Source p source.entry.now)) }
    ensures finds { (p : Patterns) → A.is_of automaton.entry.now p → IfOk result (λ it.
        EachRunFrom ⟦<StreamFindIter<'a, 'r, A, R> as Iterator>⟧.next_gives it
        (RunFindsAll R.Source p source.entry.now)) }

    // So they are wherever calls leave the iterator, of what its source gave till then.
    ensures along { (p : Patterns) → A.is_of automaton.entry.now p → IfOk result (λ it.
        FindsAlong R.Source ⟦<StreamFindIter<'a, 'r, A, R> as Iterator>⟧.next_gives p it) }
{
    Ok(StreamStart::new(alloc, automaton)?.finds(source))
}

impl<'a, 'r, A: Automaton, R: Source> StreamFindIter<'a, 'r, A, R> {
    /// The matches among these chunks.
    pub(crate) fn over(chunks: StreamChunkIter<'a, 'r, A, R>) -> StreamFindIter<'a, 'r, A, R>
        ensures chunks { result.chunks ≡ chunks.entry }
    {
        StreamFindIter { chunks }
    }

    /// Ends the search, and gives back the source. Bytes that were read and not searched through are lost.
    pub fn into_source(self) -> &'r mut R
        ensures same { result ≡ self.entry.chunks.source }
    {
        self.chunks.into_source()
    }
}

impl<'a, 'r, A: Automaton, R: Source> Iterator for StreamFindIter<'a, 'r, A, R> {
    type Item = Result<Match, StreamError>;

    ghost can_next = { λ it. CanGoOn A.Automaton it.chunks };

    ghost next_gives = { λ it found rest.
        FindsNextInStream A.Automaton R.Source it.chunks rest.chunks found };

    fn next(&mut self) -> Option<Result<Match, StreamError>> {
        loop {
            match self.chunks.advance() {
                None => return None,
                Some(Err(error)) => return Some(Err(error)),
                Some(Ok(piece)) => {
                    if let Some(m) = piece.found() {
                        return Some(Ok(m));
                    }
                }
            }
        }
    }
}
