//! Searches and replacement in streams.

ghost use Rattle.std.specs.Prelude.{◌≡◌, ◌≢◌, Err, IfErr, IfOk, IsOkUnless, length, true};
ghost use Rattle.aho_core.specs.declared.error.MatchErrorKind.{MatchErrorKind};
ghost use Rattle.aho_core.specs.declared.error.stream.StreamError.{StreamError};
ghost use Rattle.aho_core.specs.declared.error.MatchErrorKind.TheVariants.{InvalidInputUnanchored, UnsupportedEmpty};
ghost use Rattle.aho_core.specs.declared.search.Anchored.TheVariants.{No};
ghost use Rattle.aho_devices.specs.Errors.{CountsErrors};
ghost use Rattle.aho_stream.specs.After.{greatest_position};
ghost use Rattle.aho_stream.specs.Refills.{is_limit};
ghost use Rattle.aho_stream.specs.Replacing.{GaveAsMany, IsMakingRefusal};
ghost use Rattle.aho_stream.specs.StreamRun.{RefusesUntouched};
ghost use Rattle.chromesquid.specs.StreamIters.{CallsFindAlong, IsNew, progress_in, progress_of, stream_source};
ghost use Rattle.chromesquid.specs.Streams.{HasBufferFor, ReplacesBeginning, ReplacesNearly, ReplacesWhole, RunsFindBeginning, RunsFindToLimit, RunsFindWhole, RunsStream};

use crate::searcher::AhoCorasick;
use crate::standing::{replace_stream_by, replace_stream_with_by};
pub use crate::stream_iter::{StreamFindIter, StreamStart, stream_finds};
use aho_core::error::StreamError;
use aho_core::search::Match;
use aho_devices::device::{Sink, Source};
use std::alloc::{AllocError, Global};

impl AhoCorasick {
    ghost use Rattle.chromesquid.specs.Searcher.{Answers, HasEmpty, HasNoEmpty, RefusesSearch, patterns_len_of};

    /// A search in a stream that has not begun, of a source that may give 2^63 - 1 bytes. It takes all memory of the search here:
    /// a buffer of 8 times as many bytes as the longest pattern has, and of 65536 at least. It has no source yet, so nothing
    /// is read, whatever it answers. `stream_finds` gives it one, and cannot fail.
    ///
    /// No pattern is empty, and the searcher answers searches that are not anchored; `try_stream_start` tests that.
    ///
    /// # Errors
    ///
    /// The error says that memory ran out.
    pub fn stream_start<'a>(&'a self, alloc: Global) -> Result<StreamStart<'a>, AllocError>
        requires no_empty { HasNoEmpty self.now }
        requires starts { Answers self.now No }
        ensures of { IfOk result (λ start. start.searcher.now ≡ self.entry.now) }
        ensures new { IfOk result IsNew }
        ensures limit { IfOk result (λ start. (progress_of start).limit ≡ greatest_position) }
        ensures buffer { IfOk result (λ start. HasBufferFor self.entry.now (progress_of start)) }
    {
        match self.try_stream_start(alloc) {
            Ok(start) => Ok(start),
            Err(StreamError::Memory) => Err(AllocError),
            Err(_) => unreachable!(),
        }
    }

    /// A search in a stream that has not begun, as `stream_start` gives it.
    ///
    /// # Errors
    ///
    /// `Match` where a pattern is empty, and else where the searcher answers anchored searches alone. `Memory` where an
    /// allocation fails.
    pub fn try_stream_start<'a>(&'a self, alloc: Global) -> Result<StreamStart<'a>, StreamError>
        ensures of { IfOk result (λ start. start.searcher.now ≡ self.entry.now) }
        ensures new { IfOk result IsNew }
        ensures limit { IfOk result (λ start. (progress_of start).limit ≡ greatest_position) }
        ensures buffer { IfOk result (λ start. HasBufferFor self.entry.now (progress_of start)) }
        ensures empty { HasEmpty self.entry.now → result ≡ Err (StreamError.Match UnsupportedEmpty) }
        ensures refused { HasNoEmpty self.entry.now → RefusesSearch self.entry.now No
            → result ≡ Err (StreamError.Match InvalidInputUnanchored) }
        ensures memory { HasNoEmpty self.entry.now → Answers self.entry.now No
            → IsOkUnless result StreamError.Memory }
    {
        StreamStart::of(alloc, self)
    }

    /// The matches of what the source gives, of which it may give 2^63 - 1 bytes: `stream_start` and `stream_finds` in one call. It
    /// takes all its memory here, and reads nothing.
    ///
    /// An item is `PositionLimit` once the source has given as many bytes as may be and its end was not seen. All matches that
    /// were settled by then stand before it, and none comes after it.
    ///
    /// No pattern is empty, and the searcher answers searches that are not anchored; `try_stream_find_iter` tests that.
    ///
    /// # Errors
    ///
    /// The error says that memory ran out. To know that nothing was read then, call `stream_start` before there is a source.
    pub fn stream_find_iter<'a, 'r, R: Source>(
        &'a self,
        alloc: Global,
        source: &'r mut R,
    ) -> Result<StreamFindIter<'a, 'r, R>, AllocError>
        requires no_empty { HasNoEmpty self.now }
        requires starts { Answers self.now No }
        ensures source { IfOk result (λ it. stream_source it ≡ source.entry) }
        ensures made { IfOk result (λ it. (progress_in it).limit ≡ greatest_position) }
        ensures buffer { IfOk result (λ it. HasBufferFor self.entry.now (progress_in it)) }
        ensures ready { IfOk result ⟦<StreamFindIter<'a, 'r, R> as Iterator>⟧.can_next }
        ensures first { IfOk result (RunsFindBeginning R.Source
            ⟦<StreamFindIter<'a, 'r, R> as Iterator>⟧.next_gives self.entry.now source.entry.now) }
        ensures finds { IfOk result (RunsFindWhole R.Source
            ⟦<StreamFindIter<'a, 'r, R> as Iterator>⟧.next_gives self.entry.now source.entry.now) }
        ensures limit { IfOk result (RunsFindToLimit R.Source
            ⟦<StreamFindIter<'a, 'r, R> as Iterator>⟧.next_gives self.entry.now source.entry.now) }
        ensures along { IfOk result (CallsFindAlong R.Source
            ⟦<StreamFindIter<'a, 'r, R> as Iterator>⟧.next_gives self.entry.now) }
    {
        match self.try_stream_find_iter(alloc, source) {
            Ok(matches) => Ok(matches),
            Err(StreamError::Memory) => Err(AllocError),
            Err(_) => unreachable!(),
        }
    }

    /// The matches of what the source gives, as `stream_find_iter` gives them.
    ///
    /// # Errors
    ///
    /// As those of `try_stream_start`.
    pub fn try_stream_find_iter<'a, 'r, R: Source>(
        &'a self,
        alloc: Global,
        source: &'r mut R,
    ) -> Result<StreamFindIter<'a, 'r, R>, StreamError>
        ensures source { IfOk result (λ it. stream_source it ≡ source.entry) }
        ensures made { IfOk result (λ it. (progress_in it).limit ≡ greatest_position) }
        ensures buffer { IfOk result (λ it. HasBufferFor self.entry.now (progress_in it)) }
        ensures ready { IfOk result ⟦<StreamFindIter<'a, 'r, R> as Iterator>⟧.can_next }
        ensures empty { HasEmpty self.entry.now → result ≡ Err (StreamError.Match UnsupportedEmpty) }
        ensures refused { HasNoEmpty self.entry.now → RefusesSearch self.entry.now No
            → result ≡ Err (StreamError.Match InvalidInputUnanchored) }
        ensures memory { HasNoEmpty self.entry.now → Answers self.entry.now No
            → IsOkUnless result StreamError.Memory }
        ensures first { IfOk result (RunsFindBeginning R.Source
            ⟦<StreamFindIter<'a, 'r, R> as Iterator>⟧.next_gives self.entry.now source.entry.now) }
        ensures finds { IfOk result (RunsFindWhole R.Source
            ⟦<StreamFindIter<'a, 'r, R> as Iterator>⟧.next_gives self.entry.now source.entry.now) }
        ensures limit { IfOk result (RunsFindToLimit R.Source
            ⟦<StreamFindIter<'a, 'r, R> as Iterator>⟧.next_gives self.entry.now source.entry.now) }
        ensures along { IfOk result (CallsFindAlong R.Source
            ⟦<StreamFindIter<'a, 'r, R> as Iterator>⟧.next_gives self.entry.now) }
    {
        let start = self.try_stream_start(alloc)?;
        Ok(stream_finds(start, source))
    }

    /// Writes what the source gives to the sink, with the bytes for its pattern in the place of each match. It takes all its
    /// memory before it reads.
    ///
    /// There is one replacement for each pattern, no pattern is empty, and the searcher answers searches that are not
    /// anchored; `try_stream_replace_all` tests the last two.
    ///
    /// # Errors
    ///
    /// `Memory` where an allocation fails, before anything is read. `Read` exactly where a read fails, `Write` where a write
    /// fails, `WriteZero` where a write of some bytes takes none, and `PositionLimit` where 2^63 - 1 bytes were given and the
    /// end was not seen. Nothing is tried again, and what was written then is a beginning of the replacement.
    pub fn stream_replace_all<R: Source, W: Sink>(
        &self,
        alloc: Global,
        source: &mut R,
        sink: &mut W,
        replace_with: &[&[u8]],
    ) -> Result<(), StreamError>
        requires one_each { length replace_with.now ≡ patterns_len_of self.now }
        requires no_empty { HasNoEmpty self.now }
        requires starts { Answers self.now No }
        ensures replaced { ReplacesWhole R.Source W.Sink self.now replace_with.now
            source.old source.new sink.old sink.new result }
        ensures begun { ReplacesBeginning R.Source W.Sink self.now replace_with.now
            source.old source.new sink.old sink.new result }
        ensures near { ReplacesNearly R.Source W.Sink self.now replace_with.now
            source.old source.new sink.old sink.new result }
        ensures limit { is_limit result ≡ true →
            GaveAsMany R.Source source.old source.new greatest_position }
        ensures errors { CountsErrors R.Source W.Sink
            source.old source.new sink.old sink.new result }
        ensures untouched { IfErr result (λ error. IsMakingRefusal error →
            (source.new ≡ source.old) × (sink.new ≡ sink.old)) }
        ensures answered { (reason : MatchErrorKind) → result ≢ Err (StreamError.Match reason) }
    {
        self.try_stream_replace_all(alloc, source, sink, replace_with)
    }

    /// Writes what the source gives to the sink, with the bytes for its pattern in the place of each match. It takes all its
    /// memory before it reads.
    ///
    /// # Errors
    ///
    /// `Match` where a pattern is empty, and else where the searcher answers anchored searches alone, before anything is
    /// read. Then as `stream_replace_all`.
    pub fn try_stream_replace_all<R: Source, W: Sink>(
        &self,
        alloc: Global,
        source: &mut R,
        sink: &mut W,
        replace_with: &[&[u8]],
    ) -> Result<(), StreamError>
        requires one_each { length replace_with.now ≡ patterns_len_of self.now }
        ensures replaced { ReplacesWhole R.Source W.Sink self.now replace_with.now
            source.old source.new sink.old sink.new result }
        ensures begun { ReplacesBeginning R.Source W.Sink self.now replace_with.now
            source.old source.new sink.old sink.new result }
        ensures near { ReplacesNearly R.Source W.Sink self.now replace_with.now
            source.old source.new sink.old sink.new result }
        ensures limit { is_limit result ≡ true →
            GaveAsMany R.Source source.old source.new greatest_position }
        ensures errors { CountsErrors R.Source W.Sink
            source.old source.new sink.old sink.new result }
        ensures untouched { IfErr result (λ error. IsMakingRefusal error →
            (source.new ≡ source.old) × (sink.new ≡ sink.old)) }
        ensures empty { HasEmpty self.now → result ≡ Err (StreamError.Match UnsupportedEmpty) }
        ensures refused { HasNoEmpty self.now → RefusesSearch self.now No
            → result ≡ Err (StreamError.Match InvalidInputUnanchored) }
        ensures answered { (reason : MatchErrorKind) → HasNoEmpty self.now → Answers self.now No
            → result ≢ Err (StreamError.Match reason) }
    {
        if let Some(rows) = self.rows() {
            return replace_stream_by(alloc, rows, self, source, sink, replace_with);
        }
        match self.levels() {
            Some(levels) => replace_stream_by(alloc, levels, self, source, sink, replace_with),
            None => replace_stream_by(alloc, self.itself(), self, source, sink, replace_with),
        }
    }

    /// Writes what the source gives to the sink, but in the place of each match calls the closure on the match, its bytes and
    /// the sink. It takes all its memory before it reads.
    ///
    /// No pattern is empty, and the searcher answers searches that are not anchored; `try_stream_replace_all_with` tests
    /// that.
    ///
    /// # Errors
    ///
    /// An error of the closure ends the replacing and is passed on. Else as those of `stream_replace_all`.
    pub fn stream_replace_all_with<R: Source, W: Sink, F>(
        &self,
        alloc: Global,
        source: &mut R,
        sink: &mut W,
        replace_with: F,
    ) -> Result<(), StreamError>
    where
        F: FnMut(&Match, &[u8], &mut W) -> Result<(), StreamError>,
        requires no_empty { HasNoEmpty self.now }
        requires starts { Answers self.now No }
        requires callable { F.IsAlwaysCallable replace_with }
        ensures runs { RunsStream R.Source W.Sink self.now F.FnMut
            source.old source.new replace_with sink.old result sink.new }
    {
        self.try_stream_replace_all_with(alloc, source, sink, replace_with)
    }

    /// Writes what the source gives to the sink, but in the place of each match calls the closure on the match, its bytes and
    /// the sink. It takes all its memory before it reads.
    ///
    /// # Errors
    ///
    /// `Match` where a pattern is empty, and else where the searcher answers anchored searches alone, before anything is
    /// read. Then as `stream_replace_all_with`.
    pub fn try_stream_replace_all_with<R: Source, W: Sink, F>(
        &self,
        alloc: Global,
        source: &mut R,
        sink: &mut W,
        replace_with: F,
    ) -> Result<(), StreamError>
    where
        F: FnMut(&Match, &[u8], &mut W) -> Result<(), StreamError>,
        requires callable { F.IsAlwaysCallable replace_with }
        ensures runs { HasNoEmpty self.now → Answers self.now No
            → RunsStream R.Source W.Sink self.now F.FnMut
            source.old source.new replace_with sink.old result sink.new }
        ensures empty { HasEmpty self.now
            → RefusesUntouched result (StreamError.Match UnsupportedEmpty)
            source.old source.new sink.old sink.new }
        ensures refused { HasNoEmpty self.now → RefusesSearch self.now No
            → RefusesUntouched result (StreamError.Match InvalidInputUnanchored)
            source.old source.new sink.old sink.new }
    {
        if let Some(rows) = self.rows() {
            return replace_stream_with_by(alloc, rows, self, source, sink, replace_with);
        }
        match self.levels() {
            Some(levels) => replace_stream_with_by(alloc, levels, self, source, sink, replace_with),
            None => replace_stream_with_by(alloc, self.itself(), self, source, sink, replace_with),
        }
    }
}
