//! How streams are redacted, one after another.

ghost use Rattle.acredact.specs.Deeds.{Deed};
ghost use Rattle.acredact.specs.Streams.{DoesStream};

use crate::redact::redact_counting;
use chromesquid::any::{Backward, Pieces, StreamCoverStart, cover_with, try_stream_replace_all};
use chromesquid::{Automaton, Sink, Source, StreamError};
use std::alloc::Global;

/// What redacts streams, one after another.
pub trait Way {
    /// By what it may redact.
    ghost Plan: { Type 0 };

    /// What is done to texts by that.
    ghost means: { Plan → Deed };

    /// By what it does.
    ghost by: { Self → Plan → Type 0 };

    /// Writes what the source gives to the sink, with a text in the place of each range that is replaced, and counts those of
    /// each pattern that has a count. Where that is promised, no count grows by more than the bytes that the source gave.
    ///
    /// # Errors
    ///
    /// `Read` and `Write` exactly where a read or a write fails, `WriteZero` where a write takes nothing, `PositionLimit` where the
    /// source gave 2^63 - 1 bytes, and `Memory`. What was written is then a beginning of the redaction.
    fn redact<R: Source, W: Sink>(
        &mut self,
        counts: &mut [u64],
        source: &mut R,
        sink: &mut W,
    ) -> Result<(), StreamError>
        requires ready { (plan : Plan) × by self.old plan }
        ensures done { (plan : Plan) → by self.old plan → DoesStream R.Source W.Sink (means plan)
            source.old source.new sink.old sink.new result counts.old counts.new }
        ensures still { (plan : Plan) → by self.old plan → by self.new plan };
}

/// The key of pseudonyms.
#[derive(Clone, Copy)]
pub struct Key<'s> {
    /// Its bytes.
    pub bytes: &'s [u8],
    /// Whether runs that differ only in the case of ASCII letters have the same pseudonym.
    pub ignore_case: bool,
}

/// A cover, with the memory that each stream uses again: in the place of each run of bytes that lie in matches it writes the text that is
/// made of the run. The start says whether only words count: matches beside which no letter, digit or `_` stands.
#[derive(Drop)]
pub struct Covering<'s, A, P> {
    /// How the cover of a stream begins.
    pub start: StreamCoverStart<'s, A>,
    /// What makes the text in the place of each run.
    pub pieces: P,
}

impl<A: Automaton, P: Pieces> Way for Covering<'_, A, P> {
    ghost use Rattle.acredact.specs.Files.{deed_of};
    ghost use Rattle.acredact.specs.Secrets.{Redactor};
    ghost use Rattle.acredact.specs.Ways.{IsCovering};

    ghost Plan = { Redactor };

    ghost means = { deed_of };

    ghost by = { λ way r. IsCovering A.Automaton way.start.automaton.now way.start.progress
        (P.rule way.pieces) r };

    fn redact<R: Source, W: Sink>(
        &mut self,
        counts: &mut [u64],
        source: &mut R,
        sink: &mut W,
    ) -> Result<(), StreamError> {
        cover_with(&mut self.start, source, sink, &mut self.pieces, counts)
    }
}

/// A replacement of matches that share no byte. A walk backward looks up at most four transitions for each byte whatever the patterns
/// are: it is for a leftmost kind where patterns go far beyond others that occur in them.
#[derive(Clone, Copy)]
pub struct Replacing<'s, 't, A, B> {
    /// What memory is taken from.
    pub alloc: Global,
    /// The automaton that searches.
    pub automaton: &'s A,
    /// What walks backward in its place where nothing is counted, if anything does.
    pub backward: Option<&'s Backward<B>>,
    /// What is written in the place of each pattern.
    pub replacements: &'s [&'t [u8]],
}

impl<A: Automaton, B: Automaton> Way for Replacing<'_, '_, A, B> {
    ghost use Rattle.acredact.specs.Files.{deed_of};
    ghost use Rattle.acredact.specs.Secrets.{Redactor};
    ghost use Rattle.acredact.specs.Ways.{IsRedactor};

    ghost Plan = { Redactor };

    ghost means = { deed_of };

    ghost by = { λ way r. IsRedactor A.Automaton B.Automaton way.automaton.now way.backward way.replacements.now r };

    /// Where nothing is counted the output is flushed before each read; by a walk backward all is written before each read but the last
    /// bytes, at most twice as many as the longest pattern has.
    fn redact<R: Source, W: Sink>(
        &mut self,
        counts: &mut [u64],
        source: &mut R,
        sink: &mut W,
    ) -> Result<(), StreamError> {
        if !counts.is_empty() {
            return redact_counting(
                self.alloc,
                self.automaton,
                self.replacements,
                counts,
                source,
                sink,
            );
        }
        match self.backward {
            Some(searcher) => {
                searcher.try_stream_replace_all(self.alloc, source, sink, self.replacements)
            }
            None => try_stream_replace_all(
                self.alloc,
                self.automaton,
                source,
                sink,
                self.replacements,
            ),
        }
    }
}
