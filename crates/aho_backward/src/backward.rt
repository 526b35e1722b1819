//! The searcher: an automaton of the patterns turned round, with which pattern each of its own stands for.

ghost use Rattle.std.specs.Prelude.{◌≡◌, ◌⊎◌, IfErr, IfOk, IsOk};
ghost use Rattle.aho_core.specs.Patterns.{Patterns};
ghost use Rattle.aho_core.specs.Replacement.{pieces_of};
ghost use Rattle.aho_core.specs.declared.search.Anchored.TheVariants.{No};
ghost use Rattle.aho_core.specs.declared.error.stream.StreamError.{StreamError};
ghost use Rattle.aho_devices.specs.Errors.{CountsErrors};
ghost use Rattle.aho_stream.specs.After.{greatest_position};
ghost use Rattle.aho_stream.specs.Replacing.{IsMakingRefusal, IsStreamFault};
ghost use Rattle.aho_backward.specs.Replacing.{IsReplacedBy};
ghost use Rattle.aho_backward.specs.Searcher.{ForItsFinds, IsBackwardOf};
ghost use Rattle.aho_backward.specs.Streams.{LeavesByBlocks};

use crate::find_all::find_all_in;
use crate::replace::replace_finds;
use crate::stream::stream_replace_in;
use aho_automaton::automaton::{Automaton, Counted};
use aho_core::error::StreamError;
use aho_core::search::{Match, PatternID};
use aho_devices::device::{Sink, Source};
use std::alloc::{AllocError, Global};

/// A searcher for all finds of a text by a leftmost kind, in linear time whatever the patterns are.
///
/// An iteration walks behind each match as far as the longest pattern reaches, and then again from the match's end. With the
/// pattern `a` and one of 8000 times `a` and a `b`, it reads each byte of a text of `a` 8001 times. This searcher reads each at
/// most twice, whatever the patterns are.
#[derive(Drop)]
pub struct Backward<A> {
    /// An automaton of the standard kind, of the patterns that lead, each with its last byte first.
    pub(crate) automaton: A,
    /// Which pattern each of them is.
    pub(crate) given: Vec<PatternID>,
}

impl<A: Automaton> Backward<A> {
    /// All finds of a haystack: those that iteration gives one after another.
    ///
    /// It is one call of `find_all_in`: so the look-ups are at most four for each byte of the haystack, whatever the patterns are and
    /// wherever they match.
    ///
    /// Beside the finds it takes memory while it searches: four bytes for each place of a block and for each byte of the longest
    /// pattern. A block has 65536 places, or as many as the longest pattern has bytes where that is more.
    ///
    /// # Errors
    ///
    /// Out of memory.
    pub fn find_all(&self, alloc: Global, haystack: &[u8]) -> Result<Vec<Match>, AllocError>
        requires of { (p : Patterns) × IsBackwardOf A.Automaton self.now p }
        ensures found { ForItsFinds A.Automaton self.now haystack.now (λ all.
            IfOk result (λ found. all found.items)) }
    {
        let mut walk = Counted::new(&self.automaton);
        let reach = self.automaton.max_pattern_len();
        find_all_in(alloc, &mut walk, &self.given, reach, haystack)
    }

    /// The haystack with the bytes for its pattern in the place of each find; a pattern that has none is left out. It takes memory
    /// for all finds at once.
    ///
    /// # Errors
    ///
    /// Out of memory.
    pub fn replace_all_bytes(
        &self,
        alloc: Global,
        haystack: &[u8],
        replace_with: &[&[u8]],
    ) -> Result<Vec<u8>, AllocError>
        requires of { (p : Patterns) × IsBackwardOf A.Automaton self.now p }
        ensures replaced { ForItsFinds A.Automaton self.now haystack.now (λ all.
            IfOk result (IsReplacedBy all haystack.now (pieces_of replace_with.now))) }
    {
        let found = self.find_all(alloc, haystack)?;
        replace_finds(alloc, haystack, &found, replace_with)
    }

    /// Writes what the source gives to the sink, with the bytes for its pattern in the place of each find; a pattern that has none is
    /// left out.
    ///
    /// The finds are those of `find_all` of the same bytes, whatever the pieces in which they are read. It ends where the source's
    /// end is seen, and asks for nothing behind that. It is one call of `stream_replace_in`: so the look-ups are at most four for
    /// each byte that was read, whatever the patterns are and wherever they match.
    ///
    /// It takes all its memory before it reads: a buffer of 8 times as many bytes as the longest pattern has, and of 65536 at least,
    /// and four bytes for each of 65536 places, or of twice as many as the longest pattern has bytes where that is more. What is
    /// read is written before the next read and flushed, but for the last bytes: so many as the longest pattern has less one,
    /// and the begun block, which has fewer than these. With patterns of one byte each nothing is held back.
    ///
    /// # Errors
    ///
    /// `Memory` where an allocation fails, before anything is read. Then `Read` exactly where a read fails, `Write` where a write
    /// or a flush fails, `WriteZero` where a write of some bytes takes none, and `PositionLimit` where 2^63 - 1 bytes were given and
    /// the end was not seen. Nothing is tried again, and what was written then is a beginning of the replacement: after `Read` and
    /// `PositionLimit` all but what stands for the bytes held back.
    pub fn try_stream_replace_all<R: Source, W: Sink>(
        &self,
        alloc: Global,
        source: &mut R,
        sink: &mut W,
        replace_with: &[&[u8]],
    ) -> Result<(), StreamError>
        requires of { (p : Patterns) × IsBackwardOf A.Automaton self.now p }
        ensures leaves { LeavesByBlocks R.Source W.Sink
            (IsBackwardOf A.Automaton self.now) (pieces_of replace_with.now)
            source.old source.new sink.old sink.new greatest_position result }
        ensures errors { CountsErrors R.Source W.Sink
            source.old source.new sink.old sink.new result }
        ensures only { IfErr result (λ error. (error ≡ StreamError.Memory) ⊎ IsStreamFault error) }
        ensures untouched { IfErr result (λ error. IsMakingRefusal error →
            (source.new ≡ source.old) × (sink.new ≡ sink.old)) }
    {
        let mut walk = Counted::new(&self.automaton);
        let reach = self.automaton.max_pattern_len();
        stream_replace_in(
            alloc,
            &mut walk,
            &self.given,
            reach,
            source,
            sink,
            replace_with,
        )
    }
}

impl<A: Automaton + Drop> Backward<A> {
    /// The automaton that is walked: of the standard kind, of the leading patterns turned round.
    pub fn automaton(&self) -> &A
        ensures automaton { result.now ≡ self.now.automaton }
    {
        &self.automaton
    }

    /// Which pattern each of the automaton's own stands for, by its number. With the automaton it is what `find_all_in` and
    /// `stream_replace_in` take.
    pub fn given(&self) -> &[PatternID]
        ensures given { result.now ≡ self.now.given.items }
    {
        self.given.as_slice()
    }

    /// The same searcher by another automaton, which is of all patterns that the one before is of, as a `Hybrid` that was made
    /// of it.
    pub fn with_automaton<B: Automaton>(self, automaton: B) -> Backward<B>
        requires of { (q : Patterns) → A.is_of self.automaton q → B.is_of automaton q }
        requires starts { IsOk (B.start automaton No) }
        ensures of { (p : Patterns) → IsBackwardOf A.Automaton self p → IsBackwardOf B.Automaton result p }
    {
        let Backward {
            automaton: _,
            given,
        } = self;
        Backward { automaton, given }
    }
}
