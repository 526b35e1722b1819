//! Which automaton answers a call that replaces, in memory or in a stream. It is asked for once a call.

ghost use Rattle.std.specs.Prelude.{◌≡◌, ◌≢◌, IfErr, Err, IfSome, length, true};
ghost use Rattle.aho_automaton.specs.Covering.{RefusesCover, cover_refusal};
ghost use Rattle.aho_core.specs.declared.error.MatchErrorKind.{MatchErrorKind};
ghost use Rattle.aho_core.specs.declared.error.MatchErrorKind.TheVariants.{InvalidInputUnanchored, UnsupportedEmpty};
ghost use Rattle.aho_core.specs.declared.error.replace.ReplaceError.{ReplaceError};
ghost use Rattle.aho_core.specs.declared.error.stream.StreamError.{StreamError};
ghost use Rattle.aho_core.specs.declared.search.Anchored.TheVariants.{No};
ghost use Rattle.aho_cover.specs.Covers.{RefusesStreamCover};
ghost use Rattle.aho_devices.specs.Errors.{CountsErrors};
ghost use Rattle.aho_stream.specs.After.{greatest_position};
ghost use Rattle.aho_stream.specs.Refills.{is_limit};
ghost use Rattle.aho_stream.specs.Replacing.{GaveAsMany, IsMakingRefusal};
ghost use Rattle.aho_stream.specs.StreamRun.{RefusesUntouched};
ghost use Rattle.chromesquid.specs.Covers.{CanCoverAll, CoversBeginning, CoversBytes, CoversNearly, CoversWhole, why_not_covered};
ghost use Rattle.chromesquid.specs.InMemory.{EndsOverBytes, EndsOverText, ReplacesBytes, ReplacesText, StopsOverBytes, StopsOverText, WhereRefused};
ghost use Rattle.chromesquid.specs.Searcher.{Answers, HasEmpty, HasNoEmpty, RefusesSearch, StandsFor, patterns_len_of};
ghost use Rattle.chromesquid.specs.declared.engine.Engine.TheVariants.{Levels as InLevels, Rows};
ghost use Rattle.chromesquid.specs.Streams.{ReplacesBeginning, ReplacesNearly, ReplacesWhole, RunsStream};

use crate::kinds::is_allowed;
use crate::searcher::AhoCorasick;
use aho_automaton::automaton::Automaton;
use aho_core::error::{ReplaceError, StreamError};
use aho_core::search::{Anchored, Match};
use aho_cover::stream::try_stream_cover_all;
use aho_devices::device::{Sink, Source};
use aho_hybrid::hybrid::Hybrid;
use aho_levels::levels::Levels;
use aho_stream::replace::{try_stream_replace_all, try_stream_replace_all_with};
use std::alloc::{AllocError, Global};

impl AhoCorasick {
    /// The rows that answer searches that are not anchored, where the searcher has some and answers these: for a search over any
    /// automaton, each step of which else asks the searcher anew which automaton it holds.
    pub fn rows(&self) -> Option<&Hybrid>
        ensures stands { IfSome result (λ hybrid.
            StandsFor ⟦<Hybrid as Automaton>⟧ hybrid.now self.now) }
        ensures held { IfSome result (λ hybrid. self.now.automaton ≡ Rows hybrid.now) }
    {
        let searcher = self.built();
        if is_allowed(searcher.start_kind(), Anchored::No) {
            searcher.automaton().rows()
        } else {
            None
        }
    }

    /// The automaton of many patterns that answers searches that are not anchored, where the searcher has one and answers these: as
    /// `rows`, for a search over any automaton.
    pub fn levels(&self) -> Option<&Levels>
        ensures stands { IfSome result (λ levels.
            StandsFor ⟦<Levels as Automaton>⟧ levels.now self.now) }
        ensures held { IfSome result (λ levels. self.now.automaton ≡ InLevels levels.now) }
    {
        let searcher = self.built();
        if !is_allowed(searcher.start_kind(), Anchored::No) {
            return None;
        }
        searcher.automaton().levels()
    }

    /// The searcher, as any automaton, where it has neither.
    pub fn itself(&self) -> &AhoCorasick
        ensures stands { StandsFor ⟦<AhoCorasick as Automaton>⟧ result.now self.now }
        ensures same { result.now ≡ self.now }
    {
        self.built()
    }
}

/// `AhoCorasick::try_stream_replace_all` by an automaton that answers as the searcher does.
pub(crate) fn replace_stream_by<A: Automaton, R: Source, W: Sink>(
    alloc: Global,
    automaton: &A,
    searcher: &AhoCorasick,
    source: &mut R,
    sink: &mut W,
    replace_with: &[&[u8]],
) -> Result<(), StreamError>
    requires stands { StandsFor A.Automaton automaton.now searcher.now }
    requires one_each { length replace_with.now ≡ patterns_len_of searcher.now }
    ensures replaced { ReplacesWhole R.Source W.Sink searcher.now replace_with.now
        source.old source.new sink.old sink.new result }
    ensures begun { ReplacesBeginning R.Source W.Sink searcher.now replace_with.now
        source.old source.new sink.old sink.new result }
    ensures near { ReplacesNearly R.Source W.Sink searcher.now replace_with.now
        source.old source.new sink.old sink.new result }
    ensures limit { is_limit result ≡ true →
        GaveAsMany R.Source source.old source.new greatest_position }
    ensures errors { CountsErrors R.Source W.Sink
        source.old source.new sink.old sink.new result }
    ensures untouched { IfErr result (λ error. IsMakingRefusal error →
        (source.new ≡ source.old) × (sink.new ≡ sink.old)) }
    ensures empty { HasEmpty searcher.now → result ≡ Err (StreamError.Match UnsupportedEmpty) }
    ensures refused { HasNoEmpty searcher.now → RefusesSearch searcher.now No
        → result ≡ Err (StreamError.Match InvalidInputUnanchored) }
    ensures answered { (reason : MatchErrorKind) → HasNoEmpty searcher.now
        → Answers searcher.now No → result ≢ Err (StreamError.Match reason) }
{
    try_stream_replace_all(alloc, automaton, source, sink, replace_with)
}

/// `AhoCorasick::try_stream_replace_all_with` by an automaton that answers as the searcher does.
pub(crate) fn replace_stream_with_by<A: Automaton, R: Source, W: Sink, F>(
    alloc: Global,
    automaton: &A,
    searcher: &AhoCorasick,
    source: &mut R,
    sink: &mut W,
    replace_with: F,
) -> Result<(), StreamError>
where
    F: FnMut(&Match, &[u8], &mut W) -> Result<(), StreamError>,
    requires stands { StandsFor A.Automaton automaton.now searcher.now }
    requires callable { F.IsAlwaysCallable replace_with }
    ensures runs { HasNoEmpty searcher.now → Answers searcher.now No
        → RunsStream R.Source W.Sink searcher.now F.FnMut
        source.old source.new replace_with sink.old result sink.new }
    ensures empty { HasEmpty searcher.now
        → RefusesUntouched result (StreamError.Match UnsupportedEmpty)
        source.old source.new sink.old sink.new }
    ensures refused { HasNoEmpty searcher.now → RefusesSearch searcher.now No
        → RefusesUntouched result (StreamError.Match InvalidInputUnanchored)
        source.old source.new sink.old sink.new }
{
    try_stream_replace_all_with(alloc, automaton, source, sink, replace_with)
}

/// `AhoCorasick::try_stream_cover_all` by an automaton that answers as the searcher does.
pub(crate) fn cover_stream_by<A: Automaton, R: Source, W: Sink>(
    alloc: Global,
    automaton: &A,
    searcher: &AhoCorasick,
    source: &mut R,
    sink: &mut W,
    replace_with: &[&[u8]],
) -> Result<(), StreamError>
    requires stands { StandsFor A.Automaton automaton.now searcher.now }
    requires one_each { length replace_with.now ≡ patterns_len_of searcher.now }
    ensures covered { CoversWhole R.Source W.Sink searcher.now replace_with.now
        source.old source.new sink.old sink.new result }
    ensures begun { CoversBeginning R.Source W.Sink searcher.now replace_with.now
        source.old source.new sink.old sink.new result }
    ensures near { CoversNearly R.Source W.Sink searcher.now replace_with.now
        source.old source.new sink.old sink.new result }
    ensures limit { is_limit result ≡ true →
        GaveAsMany R.Source source.old source.new greatest_position }
    ensures errors { CountsErrors R.Source W.Sink
        source.old source.new sink.old sink.new result }
    ensures untouched { IfErr result (λ error. IsMakingRefusal error →
        (source.new ≡ source.old) × (sink.new ≡ sink.old)) }
    ensures refuses { RefusesStreamCover (why_not_covered searcher.now) result }
    ensures answered { (reason : MatchErrorKind) → CanCoverAll searcher.now
        → result ≢ Err (StreamError.Match reason) }
{
    try_stream_cover_all(alloc, automaton, source, sink, replace_with)
}

/// `AhoCorasick::try_replace_all` by an automaton that answers as the searcher does.
pub(crate) fn replace_text_by<A: Automaton>(
    alloc: Global,
    automaton: &A,
    searcher: &AhoCorasick,
    haystack: &str,
    replace_with: &[&str],
) -> Result<String, ReplaceError>
    requires stands { StandsFor A.Automaton automaton.now searcher.now }
    requires one_each { length replace_with.now ≡ patterns_len_of searcher.now }
    ensures replaced { ReplacesText searcher.now haystack.now replace_with.now result }
    ensures refused { RefusesSearch searcher.now No
        → result ≡ Err (ReplaceError.Match InvalidInputUnanchored) }
    ensures error { WhereRefused result (RefusesSearch searcher.now No) }
{
    automaton.try_replace_all(alloc, haystack, replace_with)
}

/// `AhoCorasick::try_replace_all_bytes` by an automaton that answers as the searcher does.
pub(crate) fn replace_bytes_by<A: Automaton>(
    alloc: Global,
    automaton: &A,
    searcher: &AhoCorasick,
    haystack: &[u8],
    replace_with: &[&[u8]],
) -> Result<Vec<u8>, ReplaceError>
    requires stands { StandsFor A.Automaton automaton.now searcher.now }
    requires one_each { length replace_with.now ≡ patterns_len_of searcher.now }
    ensures replaced { ReplacesBytes searcher.now haystack.now replace_with.now result }
    ensures refused { RefusesSearch searcher.now No
        → result ≡ Err (ReplaceError.Match InvalidInputUnanchored) }
    ensures error { WhereRefused result (RefusesSearch searcher.now No) }
{
    automaton.try_replace_all_bytes(alloc, haystack, replace_with)
}

/// `AhoCorasick::try_replace_all_with` by an automaton that answers as the searcher does.
pub(crate) fn replace_text_with_by<A: Automaton, F>(
    automaton: &A,
    searcher: &AhoCorasick,
    haystack: &str,
    dst: &mut String,
    replace_with: F,
) -> Result<(), ReplaceError>
where
    F: FnMut(&Match, &str, &mut String) -> Result<bool, AllocError>,
    requires stands { StandsFor A.Automaton automaton.now searcher.now }
    requires callable { F.IsAlwaysCallable replace_with }
    ensures run { EndsOverText searcher.now F.FnMut haystack.now replace_with dst.old result dst.new }
    ensures stopped { StopsOverText searcher.now F.FnMut haystack.now replace_with dst.old result dst.new }
    ensures refused { RefusesSearch searcher.now No
        → result ≡ Err (ReplaceError.Match InvalidInputUnanchored) }
    ensures error { WhereRefused result (RefusesSearch searcher.now No) }
    ensures unchanged { WhereRefused result (dst.new ≡ dst.old) }
{
    automaton.try_replace_all_with(haystack, dst, replace_with)
}

/// `AhoCorasick::try_replace_all_with_bytes` by an automaton that answers as the searcher does.
pub(crate) fn replace_bytes_with_by<A: Automaton, F>(
    automaton: &A,
    searcher: &AhoCorasick,
    haystack: &[u8],
    dst: &mut Vec<u8>,
    replace_with: F,
) -> Result<(), ReplaceError>
where
    F: FnMut(&Match, &[u8], &mut Vec<u8>) -> Result<bool, AllocError>,
    requires stands { StandsFor A.Automaton automaton.now searcher.now }
    requires callable { F.IsAlwaysCallable replace_with }
    ensures run { EndsOverBytes searcher.now F.FnMut haystack.now replace_with dst.old result dst.new }
    ensures stopped { StopsOverBytes searcher.now F.FnMut haystack.now replace_with dst.old result dst.new }
    ensures refused { RefusesSearch searcher.now No
        → result ≡ Err (ReplaceError.Match InvalidInputUnanchored) }
    ensures error { WhereRefused result (RefusesSearch searcher.now No) }
    ensures unchanged { WhereRefused result (dst.new ≡ dst.old) }
{
    automaton.try_replace_all_with_bytes(haystack, dst, replace_with)
}

/// `AhoCorasick::try_cover_all_bytes` by an automaton that answers as the searcher does.
pub(crate) fn cover_bytes_by<A: Automaton>(
    alloc: Global,
    automaton: &A,
    searcher: &AhoCorasick,
    haystack: &[u8],
    replace_with: &[&[u8]],
) -> Result<Vec<u8>, ReplaceError>
    requires stands { StandsFor A.Automaton automaton.now searcher.now }
    requires one_each { length replace_with.now ≡ patterns_len_of searcher.now }
    ensures covered { CoversBytes searcher.now haystack.now replace_with.now result }
    ensures refuses { RefusesCover (why_not_covered searcher.now) result }
    ensures answered { (reason : MatchErrorKind) → CanCoverAll searcher.now
        → result ≢ Err (ReplaceError.Match reason) }
{
    automaton.try_cover_all_bytes(alloc, haystack, replace_with)
}
