//! An automaton with a prefilter of one's choice.

ghost use Rattle.std.specs.Prelude.{◌≡◌, ◌||◌, Some, true};
ghost use Rattle.std.proofs.lemmas.Bool.{or_parts};
ghost use Rattle.aho_core.specs.Patterns.{Patterns};
ghost use Rattle.aho_prefilter.specs.Prefilter.{IsPrefilterOf};

use super::Automaton;
use aho_core::error::MatchError;
use aho_core::search::{Anchored, MatchKind, PatternID, StateID, Work};
use aho_prefilter::prefilter::Prefilter;

/// An automaton with a prefilter of one's choice, in place of its own. Both are borrowed.
///
/// Each of its starts is special, so an unanchored search skips by the prefilter wherever it waits. Its answers are those of
/// the automaton.
#[derive(Drop)]
pub struct WithPrefilter<'a, A> {
    automaton: &'a A,
    prefilter: &'a Prefilter,
}

impl<'a, A: Automaton> WithPrefilter<'a, A> {
    /// This automaton with this prefilter. It takes no memory.
    ///
    /// It is an automaton of the patterns for which the one is an automaton, and the other a prefilter.
    pub fn new(automaton: &'a A, prefilter: &'a Prefilter) -> WithPrefilter<'a, A>
        ensures of { (p : Patterns) → A.is_of automaton.entry.now p
            → IsPrefilterOf prefilter.entry.now p
            → ⟦<WithPrefilter<'a, A> as Automaton>⟧.is_of result p }
        ensures held { ⟦<WithPrefilter<'a, A> as Automaton>⟧.prefilter result
            ≡ Some prefilter.entry.now }
        ensures memory { ⟦<WithPrefilter<'a, A> as Automaton>⟧.memory result
            ≡ A.memory automaton.entry.now }
    {
        WithPrefilter {
            automaton,
            prefilter,
        }
    }
}

impl<'a, A: Automaton> Automaton for WithPrefilter<'a, A> {
    ghost is_of = { λ a p. A.is_of a.automaton.now p × IsPrefilterOf a.prefilter.now p };

    ghost held = { λ a p anchored word sid. A.held a.automaton.now p anchored word sid };

    ghost valid = { λ a sid. A.valid a.automaton.now sid };

    ghost kind = { λ a. A.kind a.automaton.now };

    ghost lengths = { λ a. A.lengths a.automaton.now };

    ghost list = { λ a sid. A.list a.automaton.now sid };

    ghost dead = { λ a sid. A.dead a.automaton.now sid };

    ghost special = { λ a sid. A.special a.automaton.now sid || A.starts a.automaton.now sid };

    ghost marked = { λ a sid. A.marked a.automaton.now sid };

    ghost starts = { λ a sid. A.starts a.automaton.now sid };

    ghost depth = { λ a sid. A.depth a.automaton.now sid };

    ghost reach = { λ a sid. A.reach a.automaton.now sid };

    ghost next = { λ a anchored sid byte. A.next a.automaton.now anchored sid byte };

    ghost lookups = { λ a p anchored word byte. A.lookups a.automaton.now p anchored word byte };

    ghost start = { λ a anchored. A.start a.automaton.now anchored };

    ghost memory = { λ a. A.memory a.automaton.now };

    ghost prefilter = { λ a. Some a.prefilter.now };

    ghost skips_streams = { λ _. true };

    fn start_state(&self, anchored: Anchored) -> Result<StateID, MatchError> {
        self.automaton.start_state(anchored)
    }

    fn next_state(&self, anchored: Anchored, sid: StateID, byte: u8) -> StateID {
        self.automaton.next_state(anchored, sid, byte)
    }

    fn step(&self, anchored: Anchored, sid: StateID, byte: u8, work: &mut Work) -> StateID {
        self.automaton.step(anchored, sid, byte, work)
    }

    fn is_special(&self, sid: StateID) -> bool {
        self.automaton.is_special(sid) || self.automaton.is_start(sid)
    }

    fn is_marked(&self, sid: StateID) -> bool {
        self.automaton.is_marked(sid)
    }

    fn is_dead(&self, sid: StateID) -> bool {
        self.automaton.is_dead(sid)
    }

    fn is_match(&self, sid: StateID) -> bool {
        self.automaton.is_match(sid)
    }

    fn is_start(&self, sid: StateID) -> bool {
        self.automaton.is_start(sid)
    }

    fn reach_back(&self, sid: StateID) -> usize {
        self.automaton.reach_back(sid)
    }

    fn match_kind(&self) -> MatchKind {
        self.automaton.match_kind()
    }

    fn prefilter(&self) -> Option<&Prefilter> {
        Some(self.prefilter)
    }

    fn stream_prefilter(&self) -> Option<&Prefilter> {
        self.prefilter()
    }

    fn match_len(&self, sid: StateID) -> usize {
        self.automaton.match_len(sid)
    }

    fn match_pattern(&self, sid: StateID, index: usize) -> PatternID {
        self.automaton.match_pattern(sid, index)
    }

    fn patterns_len(&self) -> usize {
        self.automaton.patterns_len()
    }

    fn pattern_len(&self, pid: PatternID) -> usize {
        self.automaton.pattern_len(pid)
    }

    fn min_pattern_len(&self) -> usize {
        self.automaton.min_pattern_len()
    }

    fn max_pattern_len(&self) -> usize {
        self.automaton.max_pattern_len()
    }

    fn memory_usage(&self) -> usize {
        self.automaton.memory_usage()
    }

    ghost laws = { λ a p of. A.laws a.automaton.now p of.0 };

    ghost alike = { λ a p word other sid of. A.alike a.automaton.now p word other sid of.0 };

    ghost plain = { λ a sid valid plain. A.plain a.automaton.now sid valid (or_parts _ _ plain).0 };

    ghost unmarked = { λ a. A.unmarked a.automaton.now };

    ghost dead_shallow = { λ a. A.dead_shallow a.automaton.now };

    ghost starts_shallow = { λ a. A.starts_shallow a.automaton.now };

    ghost reaches = { λ a p word sid of. A.reaches a.automaton.now p word sid of.0 };

    ghost prefilters = { λ a p of. of.1 };
}
