//! Overlapping search: every match of a span, one after another.
//!
//! # What a state keeps between two calls
//!
//! A search that has begun stands at a place: `id` is the state that is held after the bytes up to `at`. Under
//! `Standard` a state lists the patterns that end where it is held, the longest first and then by number, which is the
//! order of the listing. So `at` and `next_match_index`, the number of the patterns listed there that were given, say
//! how many matches were found. Once nothing is left, `next_match_index` is none.
//!
//! # How it goes on
//!
//! - Where the state lists one more pattern, that is the next match. Patterns that end together are read off the list
//!   by their index, so a list costs time in proportion to its length, and no byte is read again.
//! - Else it walks to the next state that lists a pattern, and gives the first of them.
//! - Unanchored, and where the automaton holds a prefilter, it asks for a candidate in each start that lists nothing, at its
//!   beginning too: whatever ends later starts there or later, so the next candidate is where the walk goes on from, in the
//!   same state. Each call asks as long as a search for one match does (`patience_after`).
//! - An anchored search ends at a dead state: from there on the bytes begin no pattern. Any other search walks to the
//!   end of its span, for the laws say of a dead state that the best match stays, and not that none ends later.

ghost use Rattle.std.specs.Iterator.{at_most};
ghost use Rattle.std.specs.Prelude.{◌≡◌, [], true, false, ◌+◌, ◌<◌, ◌≤◌, ◌^◌, IfSome, Some, length, slice_index};
ghost use Rattle.aho_core.specs.Impls.{ClonesTheSame};
ghost use Rattle.aho_core.specs.Laws.{Fits};
ghost use Rattle.aho_core.specs.Progress.{fresh};
ghost use Rattle.aho_core.specs.declared.search.Anchored.TheVariants.{No};
ghost use Rattle.aho_core.specs.declared.search.MatchKind.TheVariants.{Standard};
ghost use Rattle.aho_automaton.specs.Overlaps.{CanGive, GivesOverlapping, ended, ends_at, left};
ghost use Rattle.aho_automaton.specs.Standing.{FindsFrom, FitsAfter, Skips, Stands, StandsPartWay, Walks, left_from_place, left_of};

use crate::automaton::Automaton;
use crate::patience::{PATIENCE, patience_after};
use aho_core::search::{Anchored, Input, Match, Span, StateID};
use aho_prefilter::prefilter::Prefilter;
use std::iter::FusedIterator;
use std::marker::Model;

/// How far an overlapping search is, and the match that the last call found.
///
/// A new search begins with `start`. The same state is then handed to each call on the same automaton and input, and
/// each call puts the next match into it.
#[derive(Clone, Drop)]
pub struct OverlappingState {
    pub(crate) mat: Option<Match>,
    pub(crate) id: Option<StateID>,
    pub(crate) at: usize,
    pub(crate) next_match_index: Option<usize>,
}

impl Model for OverlappingState {
    ghost use Rattle.aho_core.specs.Progress.{Progress};

    ghost Value = { Progress };

    ghost view = { λ state. record {
      mat = state.mat;
      id = state.id;
      at = state.at;
      next_match_index = state.next_match_index;
    } };
}

impl OverlappingState {
    /// The state with which a search begins. It has no match, and takes no memory.
    pub fn start() -> OverlappingState
        ensures fresh { result ≡ fresh }
    {
        OverlappingState {
            mat: None,
            id: None,
            at: 0,
            next_match_index: None,
        }
    }

    /// The match that the last call found; none where it found none, or was refused.
    pub fn get_match(&self) -> Option<Match>
        ensures mat { result ≡ self.now.mat }
    {
        self.mat
    }
}

/// The match of a pattern that a state lists, which ends at the place where the state is held.
fn listed_match<A: Automaton>(automaton: &A, sid: StateID, index: usize, at: usize) -> Match
    requires valid { A.valid automaton.now sid }
    requires within { index < length (A.list automaton.now sid) }
    requires fits { Fits (A.lengths automaton.now) at (A.list automaton.now sid) }
    ensures listed { result
        ≡ ended (A.lengths automaton.now) at (slice_index (A.list automaton.now sid) index) }
{
    let pattern = automaton.match_pattern(sid, index);
    let len = automaton.pattern_len(pattern);
    let range = Span {
        start: at - len,
        end: at,
    };
    Match::new(pattern, range)
}

/// Whether an anchored search has ended in this state.
fn has_ended<A: Automaton>(automaton: &A, anchored: Anchored, sid: StateID) -> bool
    requires valid { A.valid automaton.now sid }
    ensures ended { result ≡ ends_at anchored (A.dead automaton.now sid) }
{
    match anchored {
        Anchored::No => false,
        Anchored::Yes => automaton.is_dead(sid),
    }
}

/// Whether a walk stops in a state: where a pattern is listed and, if it may wait, in a start.
fn stops_in<A: Automaton>(automaton: &A, may_wait: bool, sid: StateID) -> bool
    requires valid { A.valid automaton.now sid }
    ensures lists { result ≡ true → may_wait ≡ false → 0 < length (A.list automaton.now sid) }
    ensures goes_on { result ≡ false → A.list automaton.now sid ≡ [] }
{
    automaton.match_len(sid) > 0 || (may_wait && automaton.is_start(sid))
}

/// Whether a walk has to look at a state: one that may wait at each special state, and any other at the marked ones.
fn looks_at<A: Automaton>(automaton: &A, may_wait: bool, sid: StateID) -> bool
    requires valid { A.valid automaton.now sid }
    ensures plain { result ≡ false
        → (A.dead automaton.now sid ≡ false) × (A.list automaton.now sid ≡ []) }
{
    if may_wait {
        automaton.is_special(sid)
    } else {
        automaton.is_marked(sid)
    }
}

/// The next state that lists a pattern or, for a walk that may wait, that is a start, with the place where it is held; none
/// where no more ends in the span.
fn walk_to<A: Automaton>(
    automaton: &A,
    input: &Input<'_>,
    sid: StateID,
    at: usize,
    may_wait: bool,
) -> Option<(StateID, usize)>
    requires standard { A.kind automaton.now ≡ Standard }
    requires stands { Stands A.Automaton automaton.now input.now sid at }
    ensures walks { Walks A.Automaton automaton.now input.now sid at result }
    ensures lists { may_wait ≡ false
        → IfSome result (λ next. 0 < length (A.list automaton.now next.0)) }
{
    let haystack = input.haystack();
    let anchored = input.get_anchored();
    let mut sid = sid;
    for place in at..input.end() {
        sid = automaton.next_state(anchored, sid, haystack[place]);
        if looks_at(automaton, may_wait, sid) {
            if stops_in(automaton, may_wait, sid) {
                return Some((sid, place + 1));
            }
            if has_ended(automaton, anchored, sid) {
                return None;
            }
        }
    }
    None
}

/// The prefilter by which a search skips as long as it has patience: no anchored one does.
fn skips_by<A: Automaton>(automaton: &A, anchored: Anchored, patience: usize) -> Option<&Prefilter>
    ensures held { IfSome result (λ held. A.prefilter automaton.now ≡ Some held.now) }
    ensures unanchored { IfSome result (λ held. anchored ≡ No) }
{
    match anchored {
        Anchored::No if patience > 0 => automaton.prefilter(),
        Anchored::No | Anchored::Yes => None,
    }
}

/// Whether a search may skip from a state: from a start that lists nothing.
fn may_skip<A: Automaton>(automaton: &A, sid: StateID) -> bool
    requires valid { A.valid automaton.now sid }
    ensures starts { result ≡ true → A.starts automaton.now sid ≡ true }
    ensures lists_none { result ≡ true → A.list automaton.now sid ≡ [] }
{
    automaton.is_start(sid) && automaton.match_len(sid) == 0
}

/// From where on the walk has to go: from the next candidate, if there is a prefilter and the state is one to skip from; none
/// where no more ends in the span.
fn next_origin<A: Automaton>(
    automaton: &A,
    input: &Input<'_>,
    prefilter: Option<&Prefilter>,
    sid: StateID,
    at: usize,
) -> Option<usize>
    requires standard { A.kind automaton.now ≡ Standard }
    requires stands { Stands A.Automaton automaton.now input.now sid at }
    requires held { IfSome prefilter (λ held. A.prefilter automaton.now ≡ Some held.now) }
    requires unanchored { IfSome prefilter (λ held. input.now.anchored ≡ No) }
    ensures skips { Skips A.Automaton automaton.now input.now sid at result }
{
    let Some(prefilter) = prefilter else {
        return Some(at);
    };
    if !may_skip(automaton, sid) {
        return Some(at);
    }
    let rest = Span {
        start: at,
        end: input.end(),
    };
    prefilter.find_in(input.haystack(), rest).into_option()
}

/// The next state that lists a pattern, with the place where it is held; none where no more ends in the span. Unanchored it
/// skips by the automaton's prefilter, as long as its patience lasts.
fn walk_on<A: Automaton>(
    automaton: &A,
    input: &Input<'_>,
    sid: StateID,
    at: usize,
) -> Option<(StateID, usize)>
    requires standard { A.kind automaton.now ≡ Standard }
    requires within { input.now.end ≤ length input.now.haystack }
    requires stands { Stands A.Automaton automaton.now input.now sid at }
    ensures walks { Walks A.Automaton automaton.now input.now sid at result }
    ensures lists { IfSome result (λ next. 0 < length (A.list automaton.now next.0)) }
{
    let (mut sid, mut at) = (sid, at);
    let mut patience = PATIENCE;
    'skips: loop {
        let prefilter = skips_by(automaton, input.get_anchored(), patience);
        let Some(origin) = next_origin(automaton, input, prefilter, sid, at) else {
            return None;
        };
        patience = patience_after(patience, origin.wrapping_sub(at));
        let Some((next, place)) = walk_to(automaton, input, sid, origin, prefilter.is_some()) else {
            return None;
        };
        if automaton.match_len(next) > 0 {
            return Some((next, place));
        }
        sid = next;
        at = place;
    }
}

/// The state with the match of a listed pattern.
fn give<A: Automaton>(automaton: &A, sid: StateID, at: usize, index: usize) -> OverlappingState
    requires valid { A.valid automaton.now sid }
    requires within { index < length (A.list automaton.now sid) }
    requires fits { Fits (A.lengths automaton.now) at (A.list automaton.now sid) }
    requires room { index + 1 < 2 ^ 64 }
    ensures given { result ≡ record {
      mat = Some (ended (A.lengths automaton.now) at
          (slice_index (A.list automaton.now sid) index));
      id = Some sid;
      at = at;
      next_match_index = Some (index + 1);
    } }
{
    OverlappingState {
        mat: Some(listed_match(automaton, sid, index, at)),
        id: Some(sid),
        at,
        next_match_index: Some(index + 1),
    }
}

/// The state after the next match from a place on, of whose listed patterns the first `index` were given.
pub(crate) fn next_match<A: Automaton>(
    automaton: &A,
    input: &Input<'_>,
    sid: StateID,
    at: usize,
    index: usize,
) -> OverlappingState
    requires standard { A.kind automaton.now ≡ Standard }
    requires within { input.now.end ≤ length input.now.haystack }
    requires part_way { StandsPartWay A.Automaton automaton.now input.now sid at index }
    ensures found { FindsFrom A.Automaton automaton.now input.now sid at index result }
    ensures fits { FitsAfter A.Automaton automaton.now input.now sid at index result }
    ensures fewer { IfSome result.mat (λ _. left_of A.Automaton automaton.now input.now result
        < left_from_place A.Automaton automaton.now input.now at index) }
{
    if index < automaton.match_len(sid) {
        return give(automaton, sid, at, index);
    }
    match walk_on(automaton, input, sid, at) {
        Some((sid, at)) => give(automaton, sid, at, 0),
        None => OverlappingState {
            mat: None,
            id: Some(sid),
            at,
            next_match_index: None,
        },
    }
}

/// The matches of an overlapping search, one after another: by end, then start, then number.
///
/// `Automaton::try_find_overlapping_iter` makes it. Once it has given none it gives none again. It takes no memory.
#[derive(Drop)]
pub struct FindOverlappingIter<'a, 'h, A> {
    automaton: &'a A,
    input: Input<'h>,
    state: OverlappingState,
}

impl<'a, 'h, A: Automaton> FindOverlappingIter<'a, 'h, A> {
    /// The iterator before its first match.
    pub(crate) fn new(automaton: &'a A, input: Input<'h>) -> FindOverlappingIter<'a, 'h, A>
        ensures automaton { result.automaton.now ≡ automaton.entry.now }
        ensures input { result.input ≡ input.entry }
        ensures fresh { result.state ≡ fresh }
    {
        FindOverlappingIter {
            automaton,
            input,
            state: OverlappingState::start(),
        }
    }
}

impl<'a, 'h, A: Automaton> Iterator for FindOverlappingIter<'a, 'h, A> {
    type Item = Match;

    ghost can_next = { λ it. CanGive A.is_of A.kind A.start A.valid A.held it.automaton.now it.input
        it.state };

    ghost next_gives = { λ it given after. GivesOverlapping A.is_of A.valid A.held it.automaton.now
        it.input it.state given after.automaton.now after.input after.state };

    ghost remaining = { λ it.
        at_most (left (length (A.lengths it.automaton.now)) it.input it.state) };

    fn next(&mut self) -> Option<Match> {
        let _found = self
            .automaton
            .try_find_overlapping(&self.input, &mut self.state);
        self.state.get_match()
    }
}

impl<'a, 'h, A: Automaton> FusedIterator for FindOverlappingIter<'a, 'h, A> {}

/// A clone of a state is that state, and is never refused.
pub fn clones_the_same()
    ensures state { ClonesTheSame ⟦<OverlappingState as Clone>⟧ }
{}
