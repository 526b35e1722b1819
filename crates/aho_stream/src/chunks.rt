//! The chunks of a stream, one after another: matches, and the bytes between them.

ghost use Rattle.std.specs.Prelude.{◌≡◌, ◌+◌, ◌*◌, ◌≤◌, min, ℕ, List, [], Option, Some, None, Ok, IfOk, IfErr, OnErr, length, slice_range, true, false};
ghost use Rattle.std.specs.Borrow.{sem};
ghost use Rattle.std.specs.Io.BufRead.{Rests};
ghost use Rattle.std.specs.Io.KnownBytes.{Keeps};
ghost use Rattle.aho_core.specs.Patterns.{Patterns};
ghost use Rattle.aho_core.specs.declared.search.Anchored.TheVariants.{No};
ghost use Rattle.aho_core.specs.declared.search.MatchKind.TheVariants.{Standard};
ghost use Rattle.aho_devices.specs.Counts.{counted};
ghost use Rattle.aho_devices.specs.Refusals.{is_write_fault, is_write_of_nothing, IsWriteRefusal};
ghost use Rattle.aho_stream.specs.After.{greatest_position};
ghost use Rattle.aho_stream.specs.Iterators.{Advanced, CanGoOn, ForLastChunk, HasGiven, HasNotBegun, Lends, ReadsAhead, StreamCall, automaton_of, chunk_lent, lookups_of, most_walked};
ghost use Rattle.aho_stream.specs.Replacing.{Refuses};
ghost use Rattle.aho_stream.specs.contracts.chunks.StreamChunkIter.{the_row};
ghost use mir.Syntax.{named};

use crate::pieces::next_piece;
use crate::progress::{StreamPiece, StreamProgress};
use crate::start::{MAX_POSITION, StreamStart};
use aho_automaton::automaton::Automaton;
use aho_automaton::walk::{Counted, Walk};
use aho_core::error::StreamError;
use aho_core::search::Match;
use aho_devices::device::{Sink, Source};
use aho_devices::write::Nowhere;
use std::alloc::Global;

/// A chunk of a stream, which lends its bytes and its match.
#[derive(Clone, Copy)]
pub enum StreamChunk<'b> {
    /// Bytes outside of every match.
    NonMatch {
        /// One at least.
        bytes: &'b [u8],
    },
    /// A match.
    Match {
        /// The bytes of the match.
        bytes: &'b [u8],
        /// Its places count from the first byte of the stream.
        mat: &'b Match,
    },
}

/// The chunks of a stream, one after another: matches, and the bytes between them.
#[derive(Drop)]
pub struct StreamChunkIter<'a, 'r, A, R> {
    walk: Counted<'a, A>,
    source: &'r mut R,
    progress: StreamProgress,
    /// The match of the chunk that `next` told last, for `next` to lend.
    found: Option<Match>,
    /// The error that `next` answered last, for `next` to lend; any other before.
    error: StreamError,
}

/// The chunk of these bytes, with its match lent.
fn chunk_of<'b>(found: &'b Option<Match>, bytes: &'b [u8]) -> StreamChunk<'b>
    ensures chunk { chunk_lent result ≡ (found.now, bytes.entry.now) }
{
    match found {
        Some(mat) => StreamChunk::Match { bytes, mat },
        None => StreamChunk::NonMatch { bytes },
    }
}

impl<'a, 'r, A: Automaton, R: Source> StreamChunkIter<'a, 'r, A, R> {
    /// The chunks of what the source gives, of which it may give 2^63 - 1 bytes: `StreamStart::new` and `over` in one call.
    ///
    /// # Errors
    ///
    /// As those of `with_limit`.
    pub fn new(
        alloc: Global,
        automaton: &'a A,
        source: &'r mut R,
    ) -> Result<StreamChunkIter<'a, 'r, A, R>, StreamError>
        requires of { (p : Patterns) × A.is_of automaton.now p }
        ensures made { IfOk result (λ it. it.progress.limit ≡ greatest_position) }
        ensures begun { IfOk result (λ it. (it.progress.ended ≡ false)
            × (it.progress.refused ≡ false)) }
        ensures of { IfOk result (λ it. (it.source ≡ source.entry)
            × (automaton_of it ≡ automaton.entry.now)) }
        ensures after { IfOk result (HasNotBegun A.Automaton) }
        ensures refuses { Refuses (A.lengths automaton.entry.now)
            (A.start automaton.entry.now No) result }
    {
        Ok(StreamStart::new(alloc, automaton)?.over(source))
    }

    /// The chunks of what the source gives, of which it may give `limit` bytes; a greater limit than 2^63 - 1 counts as
    /// that: `StreamStart::with_limit` and `over` in one call.
    ///
    /// # Errors
    ///
    /// As those of `StreamStart::with_limit`.
    pub fn with_limit(
        alloc: Global,
        automaton: &'a A,
        source: &'r mut R,
        limit: u64,
    ) -> Result<StreamChunkIter<'a, 'r, A, R>, StreamError>
        requires of { (p : Patterns) × A.is_of automaton.now p }
        ensures made { IfOk result (λ it. it.progress.limit ≡ min limit greatest_position) }
        ensures begun { IfOk result (λ it. (it.progress.ended ≡ false)
            × (it.progress.refused ≡ false)) }
        ensures of { IfOk result (λ it. (it.source ≡ source.entry)
            × (automaton_of it ≡ automaton.entry.now)) }
        ensures after { IfOk result (HasNotBegun A.Automaton) }
        ensures refuses { Refuses (A.lengths automaton.entry.now)
            (A.start automaton.entry.now No) result }
    {
        Ok(StreamStart::with_limit(alloc, automaton, limit)?.over(source))
    }

    /// The chunks of what the source gives, by how far their search has come before it begins.
    pub(crate) fn over(
        automaton: &'a A,
        source: &'r mut R,
        progress: StreamProgress,
    ) -> StreamChunkIter<'a, 'r, A, R>
        ensures progress { result.progress ≡ progress }
        ensures of { (result.source ≡ source.entry)
            × (automaton_of result ≡ automaton.entry.now) }
        ensures none { lookups_of result ≡ 0 }
    {
        StreamChunkIter {
            walk: Counted::new(automaton),
            source,
            progress,
            found: None,
            error: StreamError::Memory,
        }
    }

    /// Ends the search, and gives back the source. Bytes that were read and not told are lost.
    pub fn into_source(self) -> &'r mut R
        ensures same { result ≡ self.entry.source }
    {
        self.source
    }

    /// Goes on to the next chunk of the stream, whose bytes `bytes` then lends: a match, or some bytes outside of every
    /// match. None where the stream has ended, and after the position limit was answered.
    ///
    /// A match is given once no byte that follows can change it: under `Standard` when it is seen, under the leftmost kinds
    /// when the state is dead or the end of the stream was seen. The source is asked for more only once each such match was
    /// given, and the bytes before it. Of the bytes behind the last match all were given by then where the state is a start and
    /// no match is in hand, else all but the last ones, as many as the longest pattern has at most: of "zzza" nothing is
    /// given with the pattern "abcdefgh", until it is known that no match begins in its "a".
    ///
    /// # Errors
    ///
    /// `Read` exactly where a read fails in this call: nothing is told then and nothing is lost, and the next call goes
    /// on. `PositionLimit` once, where as many bytes were given as may be and more are wanted.
    pub fn advance(&mut self) -> Option<Result<StreamPiece, StreamError>>
        requires after { CanGoOn A.Automaton self.old }
        ensures advances { Advanced A.Automaton R.Source self.old self.new result }
        ensures call { StreamCall R.Source self.old self.new result }
    {
        match self.advance_flushing(&mut Nowhere) {
            Ok(answer) => answer,
            // `Nowhere` is always flushed.
            Err(error) => Some(Err(error)),
        }
    }

    /// As `advance`, but flushes the sink before each read, so that all that was told by then can be seen.
    ///
    /// # Errors
    ///
    /// The error of a flush that fails: nothing is read after it, nothing is told, and nothing is lost.
    pub(crate) fn advance_flushing<W: Sink>(
        &mut self,
        sink: &mut W,
    ) -> Result<Option<Result<StreamPiece, StreamError>>, StreamError>
        requires after { CanGoOn A.Automaton self.old }
        ensures advances { IfOk result (Advanced A.Automaton R.Source self.old self.new) }
        ensures reads { OnErr result (ReadsAhead A.Automaton R.Source self.old self.new) }
        ensures call { IfOk result (StreamCall R.Source self.old self.new) }

        // A flush that fails ends the call, which told nothing.
        ensures fails { OnErr result (StreamCall {X = StreamPiece} R.Source self.old self.new None) }
        ensures after_end { self.old.progress.ended ≡ true
            → self.old.progress.read ≤ self.old.progress.reported → result ≡ Ok None }
        ensures after_limit { self.old.progress.refused ≡ true → result ≡ Ok None }

        // The sink is flushed, and nothing else.
        ensures kept { Keeps (W.taken sink.old) (W.taken sink.new) }
        ensures write_failed { W.failures sink.new
            ≡ counted (is_write_fault result) (W.failures sink.old) }
        ensures took_nothing { W.empty_writes sink.new
            ≡ counted (is_write_of_nothing result) (W.empty_writes sink.old) }
        ensures only { IfErr result IsWriteRefusal }
    {
        self.progress.told = self.progress.reported;
        if self.progress.refused {
            return Ok(None);
        }
        loop {
            if let Some(piece) = next_piece(&mut self.walk, &mut self.progress) {
                return Ok(Some(Ok(piece)));
            }
            if self.progress.ended {
                return Ok(None);
            }
            sink.flush()?;
            if let Err(error) = self.progress.refill(self.source, sink) {
                return Ok(Some(Err(error)));
            }
        }
    }

    /// The next chunk of the stream, which lends its bytes and its match until the next call. Else it is as `advance`: it
    /// tells the same chunks, faults, limit and end, and leaves the iterator as far.
    ///
    /// # Errors
    ///
    /// As those of `advance`. The error is lent too.
    pub fn next(&mut self) -> Option<Result<StreamChunk<'_>, &StreamError>>
        requires some { CanGoOn A.Automaton self.old }
        ensures* lends { sem 𝓛 (Rests (the_row (record { mir = named 0; lft = [] }) (record { mir = named 1; lft = [] }) A.row R.row)
            self.entry (λ new. Lends A.Automaton R.Source self.old new result)) }
    {
        match self.advance() {
            None => None,
            Some(Err(error)) => {
                self.error = error;
                Some(Err(&self.error))
            }
            Some(Ok(piece)) => {
                self.found = piece.found();
                Some(Ok(self.lent()))
            }
        }
    }

    /// The chunk told last, by its match.
    fn lent(&self) -> StreamChunk<'_>
        requires after { CanGoOn A.Automaton self.now }
        ensures chunk { ForLastChunk A.Automaton self.now
            (λ bytes. chunk_lent result ≡ (self.now.found, bytes)) }
    {
        chunk_of(&self.found, self.bytes())
    }

    /// The bytes of the chunk that the last call of `advance` told; none after a call that told none.
    pub fn bytes(&self) -> &[u8]
        requires after { CanGoOn A.Automaton self.now }
        ensures bytes { ForLastChunk A.Automaton self.now (λ bytes. result.now ≡ bytes) }
    {
        self.progress
            .bytes(self.progress.told, self.progress.reported)
    }

    /// How many look-ups of a transition the walk made: at most two for each byte that it walked.
    pub fn lookups(&self) -> u128
        ensures lookups { result ≡ lookups_of self.now }
        ensures paid { (p : Patterns) (given : List ℕ)
            → HasGiven A.Automaton self.now p given
            → result ≤ 2 * self.now.progress.position }
    {
        self.walk.lookups()
    }

    /// How many bytes the automaton walked, each time that it walked them: under `Standard` each byte that was given once at
    /// most, under the leftmost kinds once and as many times again as the longest pattern has bytes. Bytes that were skipped
    /// by a prefilter were not walked. Where streams over the automaton do not skip, each byte that was told was walked.
    pub fn position(&self) -> u128
        ensures position { result ≡ self.now.progress.position }
        ensures bounded { (p : Patterns) (given : List ℕ)
            → HasGiven A.Automaton self.now p given
            → result ≤ most_walked A.Automaton self.now given }
        ensures once { (p : Patterns) (given : List ℕ) → p.kind ≡ Standard
            → HasGiven A.Automaton self.now p given
            → result ≤ length given }
        ensures each { (p : Patterns) (given : List ℕ)
            → A.skips_streams (automaton_of self.now) ≡ false
            → HasGiven A.Automaton self.now p given
            → self.now.progress.reported ≤ result }
    {
        self.progress.position
    }
}
