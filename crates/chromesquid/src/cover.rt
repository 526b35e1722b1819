//! Covers, in memory and of streams: each byte that lies in some match is replaced, whichever matches overlap or touch.

ghost use Rattle.std.specs.Prelude.{◌≡◌, ◌≢◌, IfErr, IfOk, length, true};
ghost use Rattle.std.specs.Iterator.{UpTo};
ghost use Rattle.aho_core.specs.declared.error.MatchErrorKind.{MatchErrorKind};
ghost use Rattle.aho_core.specs.declared.error.stream.StreamError.{StreamError};
ghost use Rattle.aho_automaton.specs.Covering.{GivesFirstRuns, GivesRuns, RefusesCover};
ghost use Rattle.aho_automaton.specs.Fused.{IsFused};
ghost use Rattle.aho_cover.specs.Covers.{RefusesStreamCover};
ghost use Rattle.aho_devices.specs.Errors.{CountsErrors};
ghost use Rattle.aho_stream.specs.After.{greatest_position};
ghost use Rattle.aho_stream.specs.Refills.{is_limit};
ghost use Rattle.aho_stream.specs.Replacing.{GaveAsMany, IsMakingRefusal};
ghost use Rattle.chromesquid.specs.Covers.{CanCoverAll, CoversBeginning, CoversBytes, CoversNearly, CoversWhole, why_not_covered};

pub use crate::cover_iter::CoverIter;
use crate::searcher::AhoCorasick;
use crate::standing::{cover_bytes_by, cover_stream_by};
use aho_core::error::{ReplaceError, StreamError};
use aho_devices::device::{Sink, Source};
use std::alloc::{AllocError, Global};

impl AhoCorasick {
    ghost use Rattle.chromesquid.specs.Searcher.{ForItsPatterns, patterns_len_of};

    /// The runs of the haystack's cover, one after another: each maximal stretch of bytes that matches hold, with the pattern of
    /// the longest match that begins where the run does, of equal ones the first by number.
    ///
    /// The match kind is Standard, no pattern is empty, and the searcher answers searches that are not anchored;
    /// `try_cover_iter` tests that. It takes room for half as many runs as the longest pattern has bytes.
    ///
    /// # Errors
    ///
    /// The error says that memory ran out.
    pub fn cover_iter<'a, 'h>(
        &'a self,
        alloc: Global,
        haystack: &'h [u8],
    ) -> Result<CoverIter<'a, 'h>, AllocError>
        requires can { CanCoverAll self.now }
        ensures ready { IfOk result ⟦<CoverIter<'a, 'h> as Iterator>⟧.can_next }
        ensures runs { ForItsPatterns self.entry.now (λ p. IfOk result
            (GivesRuns ⟦<CoverIter<'a, 'h> as Iterator>⟧.next_gives p haystack.entry.now)) }
        ensures first { ForItsPatterns self.entry.now (λ p. IfOk result
            (GivesFirstRuns ⟦<CoverIter<'a, 'h> as Iterator>⟧.next_gives p haystack.entry.now)) }
        ensures bound { IfOk result (λ it. UpTo
            (⟦<CoverIter<'a, 'h> as Iterator>⟧.remaining it) (length haystack.entry.now)) }
        ensures fused { IfOk result (IsFused ⟦<CoverIter<'a, 'h> as Iterator>⟧.next_gives) }
    {
        match self.try_cover_iter(alloc, haystack) {
            Ok(runs) => Ok(runs),
            Err(ReplaceError::Memory) => Err(AllocError),
            Err(ReplaceError::Match(_)) => unreachable!(),
        }
    }

    /// The runs of the haystack's cover, as `cover_iter` gives them.
    ///
    /// # Errors
    ///
    /// `Match` exactly where the searcher is refused, in this order: it is of a leftmost kind (`UnsupportedOverlapping`), a
    /// pattern is empty (`UnsupportedEmpty`), or it answers anchored searches alone. `Memory` where the allocation fails.
    pub fn try_cover_iter<'a, 'h>(
        &'a self,
        alloc: Global,
        haystack: &'h [u8],
    ) -> Result<CoverIter<'a, 'h>, ReplaceError>
        ensures ready { IfOk result ⟦<CoverIter<'a, 'h> as Iterator>⟧.can_next }
        ensures runs { ForItsPatterns self.entry.now (λ p. IfOk result
            (GivesRuns ⟦<CoverIter<'a, 'h> as Iterator>⟧.next_gives p haystack.entry.now)) }
        ensures first { ForItsPatterns self.entry.now (λ p. IfOk result
            (GivesFirstRuns ⟦<CoverIter<'a, 'h> as Iterator>⟧.next_gives p haystack.entry.now)) }
        ensures bound { IfOk result (λ it. UpTo
            (⟦<CoverIter<'a, 'h> as Iterator>⟧.remaining it) (length haystack.entry.now)) }
        ensures fused { IfOk result (IsFused ⟦<CoverIter<'a, 'h> as Iterator>⟧.next_gives) }
        ensures refuses { RefusesCover (why_not_covered self.entry.now) result }
        ensures answered { (reason : MatchErrorKind) → CanCoverAll self.entry.now
            → result ≢ Err (ReplaceError.Match reason) }
    {
        CoverIter::of(alloc, self, haystack)
    }

    /// The bytes with each run of their cover replaced by the bytes for the run's pattern. So nothing that a match holds is
    /// left: not a byte of it, whichever other match overlaps it.
    ///
    /// There is one replacement for each pattern. Else it asks for what `cover_iter` does; `try_cover_all_bytes` tests that.
    ///
    /// # Errors
    ///
    /// The error says that memory ran out.
    pub fn cover_all_bytes(
        &self,
        alloc: Global,
        haystack: &[u8],
        replace_with: &[&[u8]],
    ) -> Result<Vec<u8>, AllocError>
        requires can { CanCoverAll self.now }
        requires one_each { length replace_with.now ≡ patterns_len_of self.now }
        ensures covered { CoversBytes self.now haystack.now replace_with.now result }
    {
        match self.try_cover_all_bytes(alloc, haystack, replace_with) {
            Ok(bytes) => Ok(bytes),
            Err(ReplaceError::Memory) => Err(AllocError),
            Err(ReplaceError::Match(_)) => unreachable!(),
        }
    }

    /// The bytes with each run of their cover replaced, as `cover_all_bytes` gives them.
    ///
    /// # Errors
    ///
    /// As those of `try_cover_iter`; and `Memory` where an allocation of the bytes fails.
    pub fn try_cover_all_bytes(
        &self,
        alloc: Global,
        haystack: &[u8],
        replace_with: &[&[u8]],
    ) -> Result<Vec<u8>, ReplaceError>
        requires one_each { length replace_with.now ≡ patterns_len_of self.now }
        ensures covered { CoversBytes self.now haystack.now replace_with.now result }
        ensures refuses { RefusesCover (why_not_covered self.now) result }
        ensures answered { (reason : MatchErrorKind) → CanCoverAll self.now
            → result ≢ Err (ReplaceError.Match reason) }
    {
        if let Some(rows) = self.rows() {
            return cover_bytes_by(alloc, rows, self, haystack, replace_with);
        }
        match self.levels() {
            Some(levels) => cover_bytes_by(alloc, levels, self, haystack, replace_with),
            None => cover_bytes_by(alloc, self.itself(), self, haystack, replace_with),
        }
    }

    /// Writes what the source gives to the sink, but in the place of each run of its cover the bytes for the run's pattern. So
    /// nothing that a match holds is passed on. It takes all its memory before it reads.
    ///
    /// There is one replacement for each pattern. Else it asks for what `cover_iter` does; `try_stream_cover_all` tests that.
    ///
    /// # Errors
    ///
    /// `Memory` where an allocation fails, before anything is read. `Read` where a read fails, `Write` and `WriteZero` where a
    /// write or a flush does, and `PositionLimit` where 2^63 - 1 bytes were given and the end was not seen. What was written then
    /// is a beginning of the cover.
    pub fn stream_cover_all<R: Source, W: Sink>(
        &self,
        alloc: Global,
        source: &mut R,
        sink: &mut W,
        replace_with: &[&[u8]],
    ) -> Result<(), StreamError>
        requires can { CanCoverAll self.now }
        requires one_each { length replace_with.now ≡ patterns_len_of self.now }
        ensures covered { CoversWhole R.Source W.Sink self.now replace_with.now
            source.old source.new sink.old sink.new result }
        ensures begun { CoversBeginning R.Source W.Sink self.now replace_with.now
            source.old source.new sink.old sink.new result }
        ensures near { CoversNearly R.Source W.Sink self.now replace_with.now
            source.old source.new sink.old sink.new result }
        ensures limit { is_limit result ≡ true →
            GaveAsMany R.Source source.old source.new greatest_position }
        ensures errors { CountsErrors R.Source W.Sink
            source.old source.new sink.old sink.new result }
        ensures untouched { IfErr result (λ error. IsMakingRefusal error →
            (source.new ≡ source.old) × (sink.new ≡ sink.old)) }
        ensures answered { (reason : MatchErrorKind) → result ≢ Err (StreamError.Match reason) }
    {
        self.try_stream_cover_all(alloc, source, sink, replace_with)
    }

    /// Writes the cover of what the source gives to the sink, as `stream_cover_all` does.
    ///
    /// # Errors
    ///
    /// `Match` as `try_cover_iter`, before anything is read. Then as `stream_cover_all`.
    pub fn try_stream_cover_all<R: Source, W: Sink>(
        &self,
        alloc: Global,
        source: &mut R,
        sink: &mut W,
        replace_with: &[&[u8]],
    ) -> Result<(), StreamError>
        requires one_each { length replace_with.now ≡ patterns_len_of self.now }
        ensures covered { CoversWhole R.Source W.Sink self.now replace_with.now
            source.old source.new sink.old sink.new result }
        ensures begun { CoversBeginning R.Source W.Sink self.now replace_with.now
            source.old source.new sink.old sink.new result }
        ensures near { CoversNearly R.Source W.Sink self.now replace_with.now
            source.old source.new sink.old sink.new result }
        ensures limit { is_limit result ≡ true →
            GaveAsMany R.Source source.old source.new greatest_position }
        ensures errors { CountsErrors R.Source W.Sink
            source.old source.new sink.old sink.new result }
        ensures untouched { IfErr result (λ error. IsMakingRefusal error →
            (source.new ≡ source.old) × (sink.new ≡ sink.old)) }
        ensures refuses { RefusesStreamCover (why_not_covered self.now) result }
        ensures answered { (reason : MatchErrorKind) → CanCoverAll self.now
            → result ≢ Err (StreamError.Match reason) }
    {
        if let Some(rows) = self.rows() {
            return cover_stream_by(alloc, rows, self, source, sink, replace_with);
        }
        match self.levels() {
            Some(levels) => cover_stream_by(alloc, levels, self, source, sink, replace_with),
            None => cover_stream_by(alloc, self.itself(), self, source, sink, replace_with),
        }
    }
}
