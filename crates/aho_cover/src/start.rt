//! How the cover of a stream begins: with the memory that it keeps.

ghost use Rattle.std.specs.Prelude.{◌≡◌, ◌+◌, ◌≤◌, ℕ, [], Some, Err, IfErr, IfOk, false, max, true};
ghost use Rattle.aho_core.specs.Laws.{shortest};
ghost use Rattle.aho_core.specs.Numbers.{greatest_index};
ghost use Rattle.aho_core.specs.Patterns.{Patterns};
ghost use Rattle.aho_core.specs.declared.error.MatchErrorKind.{MatchErrorKind};
ghost use Rattle.aho_core.specs.declared.search.Anchored.TheVariants.{No};
ghost use Rattle.aho_core.specs.declared.search.MatchKind.TheVariants.{Standard};
ghost use Rattle.aho_automaton.specs.CoverIters.{cover_refusal_of};
ghost use Rattle.aho_stream.specs.Replacing.{IsMakingRefusal};
ghost use Rattle.aho_cover.specs.Covers.{IsUnbegunCover, IsUnbegunWith, RefusesStreamCover};

use crate::hand::Hand;
use crate::progress::CoverProgress;
use aho_automaton::automaton::Automaton;
use aho_core::error::{MatchError, StreamError};
use aho_core::search::{Anchored, MatchKind, StateID};
use aho_devices::buffer::Buffer;
use std::alloc::{AllocError, Global};

/// A cover of a stream that has not begun. It has all the memory that it will keep, and no source yet.
#[derive(Drop)]
pub struct StreamCoverStart<'a, A> {
    pub(crate) automaton: &'a A,
    pub(crate) progress: CoverProgress,
}

/// The state in which a cover begins, where the automaton can make one.
///
/// # Errors
///
/// In this order: a leftmost kind is refused with `UnsupportedOverlapping`, an empty pattern with `UnsupportedEmpty`, and
/// else what `start_state` refuses.
fn check<A: Automaton>(automaton: &A) -> Result<StateID, MatchError>
    ensures refused { (reason : MatchErrorKind) →
        cover_refusal_of A.Automaton automaton.now ≡ Some reason → result ≡ Err reason }
    ensures error { IfErr result (λ reason.
        cover_refusal_of A.Automaton automaton.now ≡ Some reason) }
    ensures standard { IfOk result (λ _. A.kind automaton.now ≡ Standard) }
    ensures no_empty { IfOk result (λ _. 1 ≤ shortest (A.lengths automaton.now)) }
    ensures valid { IfOk result (A.valid automaton.now) }
    ensures shallow { IfOk result (λ sid. A.depth automaton.now sid ≡ 0) }
    ensures begins { IfOk result (λ sid. (p : Patterns) → A.is_of automaton.now p →
        A.held automaton.now p No [] sid) }
{
    let kind = automaton.match_kind();
    if kind != MatchKind::Standard {
        return Err(MatchError::unsupported_overlapping(kind));
    }
    if automaton.min_pattern_len() == 0 {
        return Err(MatchError::unsupported_empty());
    }
    automaton.start_state(Anchored::No)
}

/// The buffer of a cover, where the longest pattern has so many bytes. It keeps one more where words are asked for: the byte before
/// a match is looked at then.
///
/// # Errors
///
/// Where the allocation fails.
fn buffer_for(alloc: Global, words: bool, longest: usize) -> Result<Buffer, AllocError>
    requires bound { longest ≤ greatest_index }
    ensures empty { IfOk result (λ b. b.bytes ≡ []) }
    ensures all { words ≡ false → IfOk result (λ b. b.least ≡ max 1 longest) }
    ensures words { words ≡ true → IfOk result (λ b. b.least ≡ max 1 (longest + 1)) }
{
    Buffer::new(alloc, if words { longest + 1 } else { longest })
}

impl<'a, A: Automaton> StreamCoverStart<'a, A> {
    /// A cover of a stream by this automaton.
    ///
    /// What it keeps of memory is taken here: a buffer of 8 times as many bytes as the longest pattern has, and of 65536 at
    /// least, and room for the runs that may be open at once. Nothing is read, since there is no source yet.
    ///
    /// # Errors
    ///
    /// In this order, and each exactly where it is so: `Match` where the automaton is not of the standard kind
    /// (`UnsupportedOverlapping`), has an empty pattern (`UnsupportedEmpty`), or refuses unanchored searches; then `Memory`,
    /// where an allocation fails.
    pub fn new(alloc: Global, automaton: &'a A) -> Result<StreamCoverStart<'a, A>, StreamError>
        ensures of { IfOk result (λ start. start.automaton.now ≡ automaton.entry.now) }
        ensures unbegun { IfOk result (λ start.
            IsUnbegunCover A.Automaton automaton.entry.now start.progress) }
        ensures refuses { RefusesStreamCover
            (cover_refusal_of A.Automaton automaton.entry.now) result }
        ensures only { IfErr result IsMakingRefusal }
    {
        StreamCoverStart::new_with(alloc, automaton, false)
    }

    /// The same, of all matches or of words alone: of those matches beside which no letter of ASCII, no digit and no `_` stands.
    ///
    /// Where words are asked for, the buffer keeps one byte more than the longest pattern has.
    ///
    /// # Errors
    ///
    /// As `new`.
    pub fn new_with(
        alloc: Global,
        automaton: &'a A,
        words: bool,
    ) -> Result<StreamCoverStart<'a, A>, StreamError>
        ensures of { IfOk result (λ start. start.automaton.now ≡ automaton.entry.now) }
        ensures unbegun { IfOk result (λ start.
            IsUnbegunWith words A.Automaton automaton.entry.now start.progress) }
        ensures refuses { RefusesStreamCover
            (cover_refusal_of A.Automaton automaton.entry.now) result }
        ensures only { IfErr result IsMakingRefusal }
    {
        let sid = check(automaton)?;
        let buffer = buffer_for(alloc, words, automaton.max_pattern_len())?;
        let hand = Hand::new(alloc, buffer.min_buffer_len())?;
        Ok(StreamCoverStart {
            automaton,
            progress: CoverProgress::new(buffer, hand, sid, words),
        })
    }
}
