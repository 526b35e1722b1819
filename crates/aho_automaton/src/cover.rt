//! The runs of a cover, one after another: the stretches of a haystack that its matches hold, whichever overlap or touch.
//!
//! # What the walk keeps
//!
//! Each byte is read once. Where a state lists a pattern, the longest match that ends there is joined to the runs in hand:
//! all others that end there lie in it, and the runs that it touches become one with it. So after each byte the runs that
//! were given and those in hand are the runs of all that ends up to there.
//!
//! # When a run is given
//!
//! A match that ends later begins at most as far back as the longest pattern reaches. So a run that ends further back than
//! that is settled, and no later match touches it. Runs that are not settled stand apart in the last bytes, each with a byte
//! at least: there are at most half as many as the longest pattern has bytes, and one.

ghost use Rattle.std.specs.Prelude.{◌≡◌, ℕ, [], ◌+◌, ◌*◌, ◌<◌, ◌≤◌, ◌++◌, IfErr, IfOk, OnOk, Err, Some, length, true, false, vec_items};
ghost use Rattle.std.specs.Iterator.{at_most};
ghost use Rattle.aho_core.specs.Laws.{Fits, shortest, told};
ghost use Rattle.aho_core.specs.Patterns.{Patterns};
ghost use Rattle.aho_core.specs.Replacement.{pieces_of};
ghost use Rattle.aho_core.specs.declared.error.MatchErrorKind.{MatchErrorKind};
ghost use Rattle.aho_core.specs.declared.search.Anchored.TheVariants.{No};
ghost use Rattle.aho_core.specs.declared.search.MatchKind.TheVariants.{Standard};
ghost use Rattle.aho_automaton.specs.Covering.{FirstIsOpen, RefusesCover, cover_in};
ghost use Rattle.aho_automaton.specs.CoverIters.{CanCover, GivesRun, HasGivenRuns, IsReadyToGive, ReadsFurther, automaton_in, cover_refusal_of, haystack_in, look_ups_in, runs_left, runs_of};

use crate::automaton::Automaton;
use crate::find::{looks_at, told_at};
use crate::open_runs::OpenRuns;
use crate::replace::append_piece;
use crate::walk::{Counted, Walk};
use aho_core::error::{MatchError, ReplaceError};
use aho_core::search::{Anchored, Match, MatchKind, StateID};
use std::alloc::{AllocError, Global};
use std::iter::FusedIterator;

/// The runs of a cover, one after another. Each is told as a match: its range, and the pattern of its piece, the longest that
/// begins where the run does and of equal ones the first.
///
/// `try_cover_iter` makes it. It takes no memory. After `None` it gives `None` again.
#[derive(Drop)]
pub struct CoverIter<'a, 'h, A> {
    walk: Counted<'a, A>,
    haystack: &'h [u8],
    /// How many bytes the longest pattern has.
    far: usize,
    /// How many bytes were read.
    at: usize,
    /// The state after them.
    sid: StateID,
    /// The runs that were not given, of what was read.
    hand: OpenRuns,
}

/// The state in which a cover begins, where the automaton can make one.
///
/// # Errors
///
/// In this order: a leftmost kind is refused with `UnsupportedOverlapping`, an empty pattern with `UnsupportedEmpty`, and
/// else what `start_state` refuses.
fn begin<A: Automaton>(automaton: &A) -> Result<StateID, MatchError>
    ensures refused { (reason : MatchErrorKind) →
        cover_refusal_of A.Automaton automaton.now ≡ Some reason → result ≡ Err reason }
    ensures error { IfErr result (λ reason.
        cover_refusal_of A.Automaton automaton.now ≡ Some reason) }
    ensures standard { IfOk result (λ _. A.kind automaton.now ≡ Standard) }
    ensures no_empty { IfOk result (λ _. 1 ≤ shortest (A.lengths automaton.now)) }
    ensures valid { IfOk result (A.valid automaton.now) }
    ensures shallow { IfOk result (λ sid. A.depth automaton.now sid ≡ 0) }
    ensures begins { IfOk result (λ sid. (p : Patterns) → A.is_of automaton.now p →
        A.held automaton.now p No [] sid) }
{
    let kind = automaton.match_kind();
    if kind != MatchKind::Standard {
        return Err(MatchError::unsupported_overlapping(kind));
    }
    if automaton.min_pattern_len() == 0 {
        return Err(MatchError::unsupported_empty());
    }
    automaton.start_state(Anchored::No)
}

impl<'a, 'h, A: Automaton> CoverIter<'a, 'h, A> {
    /// The iterator that has given no run yet. It takes all its memory here: room for the runs in hand.
    ///
    /// # Errors
    ///
    /// `Match` of what `begin` refuses, and then `Memory`, where the allocation of that room fails.
    pub(crate) fn new(
        alloc: Global,
        automaton: &'a A,
        haystack: &'h [u8],
    ) -> Result<CoverIter<'a, 'h, A>, ReplaceError>
        requires of { (p : Patterns) × A.is_of automaton.now p }
        ensures can { IfOk result (CanCover A.Automaton) }
        ensures over { IfOk result (λ it. (automaton_in it ≡ automaton.entry.now)
            × (haystack_in it ≡ haystack.entry.now)) }
        ensures fresh { IfOk result (λ it. (p : Patterns) → A.is_of automaton.entry.now p →
            HasGivenRuns A.Automaton it p 0) }
        ensures bound { IfOk result (λ it. runs_left it ≡ length haystack.entry.now) }
        ensures refuses { RefusesCover (cover_refusal_of A.Automaton automaton.entry.now) result }
    {
        let sid = begin(automaton)?;
        let far = automaton.max_pattern_len();
        let hand = OpenRuns::new(alloc, far)?;
        Ok(CoverIter {
            walk: Counted::new(automaton),
            haystack,
            far,
            at: 0,
            sid,
            hand,
        })
    }

    /// Whether the first run in hand can be given: whether it is settled, or nothing is left to read.
    #[inline(always)]
    fn is_ready(&self) -> bool
        requires within { self.now.at ≤ length (haystack_in self.now) }
        ensures ready { result ≡ true → IsReadyToGive self.now }
        ensures further { result ≡ false → self.now.at < length (haystack_in self.now) }
        ensures unsettled { result ≡ false
            → FirstIsOpen self.now.far self.now.at (runs_of self.now) }
    {
        self.at == self.haystack.len() || self.hand.first_is_settled(self.far, self.at)
    }

    /// The longest match that ends where the state is held.
    #[inline(always)]
    fn told(&self) -> Option<Match>
        requires valid { A.valid (automaton_in self.now) self.now.sid }
        requires fits { Fits (A.lengths (automaton_in self.now)) self.now.at
            (A.list (automaton_in self.now) self.now.sid) }
        ensures told { result ≡ told (A.lengths (automaton_in self.now)) No 0 self.now.at
            (A.list (automaton_in self.now) self.now.sid) }
    {
        if !looks_at(&self.walk, false, self.sid) {
            return None;
        }
        told_at(&self.walk, Anchored::No, self.sid, 0, self.at)
    }

    /// Reads one byte, and joins the longest match that ends behind it to the runs in hand.
    #[inline(always)]
    fn read(&mut self)
        requires can { CanCover A.Automaton self.old }
        requires further { self.old.at < length (haystack_in self.old) }
        requires unsettled { FirstIsOpen self.old.far self.old.at (runs_of self.old) }
        ensures can { CanCover A.Automaton self.new }
        ensures reads { ReadsFurther A.Automaton self.old self.new }
        ensures one { self.new.at ≡ self.old.at + 1 }
    {
        let byte = self.haystack[self.at];
        self.sid = self.walk.step(Anchored::No, self.sid, byte);
        self.at += 1;
        if let Some(m) = self.told() {
            self.hand.add(m);
        }
    }

    /// Reads on until the first run in hand can be given.
    #[inline(always)]
    fn advance(&mut self)
        requires can { CanCover A.Automaton self.old }
        ensures can { CanCover A.Automaton self.new }
        ensures reads { ReadsFurther A.Automaton self.old self.new }
        ensures ready { IsReadyToGive self.new }
    {
        while !self.is_ready() {
            self.read();
        }
    }

    /// The look-ups of transitions so far: at most two for each byte of the haystack.
    pub fn lookups(&self) -> u128
        requires can { CanCover A.Automaton self.now }
        ensures told { result ≡ look_ups_in self.now }
        ensures cost { result ≤ 2 * length (haystack_in self.now) }
    {
        self.walk.lookups()
    }
}

impl<'a, 'h, A: Automaton> Iterator for CoverIter<'a, 'h, A> {
    type Item = Match;

    ghost can_next = { λ it. CanCover A.Automaton it };

    ghost next_gives = { λ it given after. GivesRun A.Automaton it given after };

    ghost remaining = { λ it. at_most (runs_left it) };

    fn next(&mut self) -> Option<Match> {
        self.advance();
        self.hand.pop()
    }
}

impl<'a, 'h, A: Automaton> FusedIterator for CoverIter<'a, 'h, A> {}

/// Appends the haystack to `dst`, with the piece of each run in its place.
///
/// These are all runs of the haystack, and none was given yet.
pub(crate) fn cover_bytes<A: Automaton>(
    runs: CoverIter<'_, '_, A>,
    haystack: &[u8],
    dst: &mut Vec<u8>,
    pieces: &[&[u8]],
) -> Result<(), AllocError>
    requires can { CanCover A.Automaton runs }
    requires over { haystack_in runs ≡ haystack.now }
    requires fresh { (p : Patterns) → A.is_of (automaton_in runs) p →
        HasGivenRuns A.Automaton runs p 0 }
    ensures covered { (p : Patterns) → A.is_of (automaton_in runs.entry) p →
        OnOk result (vec_items dst.new ≡ vec_items dst.old
        ++ cover_in p haystack.now (pieces_of pieces.now)) }
{
    let mut copied = 0;
    for run in runs {
        let (start, end) = (run.start(), run.end());
        let gap = &haystack[copied..start];
        dst.extend_from_slice(gap)?;
        copied = end;
        let _goes_on = append_piece(dst, pieces, &run)?;
    }
    dst.extend_from_slice(&haystack[copied..])
}
