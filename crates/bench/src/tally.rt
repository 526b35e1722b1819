//! An automaton that counts the calls of its steps.

ghost use Rattle.aho_core.specs.Patterns.{Patterns};

use aho_automaton::automaton::Automaton;
use aho_core::error::MatchError;
use aho_core::search::{Anchored, MatchKind, PatternID, StateID, Work};
use aho_prefilter::prefilter::Prefilter;
use std::cell::Cell;

/// Another automaton, with counts of the calls of `step` and of `next_state`.
///
/// It passes every call on, and what it wraps decides each answer. But it has no prefilter for streams, so each byte of a
/// stream is a step.
#[derive(Drop)]
pub struct Tally<A> {
    automaton: A,
    steps: Cell<u64>,
    next_states: Cell<u64>,
}

impl<A: Automaton> Tally<A> {
    /// A tally over this automaton, with nothing counted yet.
    pub fn new(automaton: A) -> Tally<A>
        ensures of { (p : Patterns)
            → A.is_of automaton p → ⟦<Tally<A> as Automaton>⟧.is_of result p }
    {
        Tally {
            automaton,
            steps: Cell::new(0),
            next_states: Cell::new(0),
        }
    }

    /// How often `step` was called; past the greatest `u64` it stays there.
    pub fn steps(&self) -> u64 {
        self.steps.get()
    }

    /// How often `next_state` was called; past the greatest `u64` it stays there.
    pub fn next_states(&self) -> u64 {
        self.next_states.get()
    }
}

impl<A: Automaton> Automaton for Tally<A> {
    ghost is_of = { λ a p. A.is_of a.automaton p };

    ghost held = { λ a p anchored word sid. A.held a.automaton p anchored word sid };

    ghost valid = { λ a sid. A.valid a.automaton sid };

    ghost kind = { λ a. A.kind a.automaton };

    ghost lengths = { λ a. A.lengths a.automaton };

    ghost list = { λ a sid. A.list a.automaton sid };

    ghost dead = { λ a sid. A.dead a.automaton sid };

    ghost special = { λ a sid. A.special a.automaton sid };

    ghost marked = { λ a sid. A.marked a.automaton sid };

    ghost starts = { λ a sid. A.starts a.automaton sid };

    ghost depth = { λ a sid. A.depth a.automaton sid };

    ghost reach = { λ a sid. A.reach a.automaton sid };

    ghost next = { λ a anchored sid byte. A.next a.automaton anchored sid byte };

    ghost lookups = { λ a p anchored word byte. A.lookups a.automaton p anchored word byte };

    ghost start = { λ a anchored. A.start a.automaton anchored };

    ghost memory = { λ a. A.memory a.automaton };

    ghost prefilter = { λ a. A.prefilter a.automaton };

    fn start_state(&self, anchored: Anchored) -> Result<StateID, MatchError> {
        self.automaton.start_state(anchored)
    }

    fn next_state(&self, anchored: Anchored, sid: StateID, byte: u8) -> StateID {
        self.next_states
            .set(self.next_states.get().saturating_add(1));
        self.automaton.next_state(anchored, sid, byte)
    }

    fn step(&self, anchored: Anchored, sid: StateID, byte: u8, work: &mut Work) -> StateID {
        self.steps.set(self.steps.get().saturating_add(1));
        self.automaton.step(anchored, sid, byte, work)
    }

    fn is_special(&self, sid: StateID) -> bool {
        self.automaton.is_special(sid)
    }

    fn is_marked(&self, sid: StateID) -> bool {
        self.automaton.is_marked(sid)
    }

    fn is_dead(&self, sid: StateID) -> bool {
        self.automaton.is_dead(sid)
    }

    fn is_match(&self, sid: StateID) -> bool {
        self.automaton.is_match(sid)
    }

    fn is_start(&self, sid: StateID) -> bool {
        self.automaton.is_start(sid)
    }

    fn reach_back(&self, sid: StateID) -> usize {
        self.automaton.reach_back(sid)
    }

    fn match_kind(&self) -> MatchKind {
        self.automaton.match_kind()
    }

    fn prefilter(&self) -> Option<&Prefilter> {
        self.automaton.prefilter()
    }

    fn stream_prefilter(&self) -> Option<&Prefilter> {
        None
    }

    fn match_len(&self, sid: StateID) -> usize {
        self.automaton.match_len(sid)
    }

    fn match_pattern(&self, sid: StateID, index: usize) -> PatternID {
        self.automaton.match_pattern(sid, index)
    }

    fn patterns_len(&self) -> usize {
        self.automaton.patterns_len()
    }

    fn pattern_len(&self, pid: PatternID) -> usize {
        self.automaton.pattern_len(pid)
    }

    fn min_pattern_len(&self) -> usize {
        self.automaton.min_pattern_len()
    }

    fn max_pattern_len(&self) -> usize {
        self.automaton.max_pattern_len()
    }

    fn memory_usage(&self) -> usize {
        self.automaton.memory_usage()
    }

    ghost laws = { λ a. A.laws a.automaton };

    ghost alike = { λ a. A.alike a.automaton };

    ghost plain = { λ a. A.plain a.automaton };

    ghost unmarked = { λ a. A.unmarked a.automaton };

    ghost dead_shallow = { λ a. A.dead_shallow a.automaton };

    ghost starts_shallow = { λ a. A.starts_shallow a.automaton };

    ghost reaches = { λ a. A.reaches a.automaton };

    ghost prefilters = { λ a. A.prefilters a.automaton };
}
