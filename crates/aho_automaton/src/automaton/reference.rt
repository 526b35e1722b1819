//! A reference to an automaton, which is an automaton as well.

use super::Automaton;
use aho_core::error::MatchError;
use aho_core::search::{Anchored, MatchKind, PatternID, StateID, Work};
use aho_prefilter::prefilter::Prefilter;

/// A reference to an automaton is that automaton.
impl<A: Automaton> Automaton for &A {
    ghost is_of = { λ a p. A.is_of a.now p };

    ghost held = { λ a p anchored word sid. A.held a.now p anchored word sid };

    ghost valid = { λ a sid. A.valid a.now sid };

    ghost kind = { λ a. A.kind a.now };

    ghost lengths = { λ a. A.lengths a.now };

    ghost list = { λ a sid. A.list a.now sid };

    ghost dead = { λ a sid. A.dead a.now sid };

    ghost special = { λ a sid. A.special a.now sid };

    ghost marked = { λ a sid. A.marked a.now sid };

    ghost starts = { λ a sid. A.starts a.now sid };

    ghost depth = { λ a sid. A.depth a.now sid };

    ghost reach = { λ a sid. A.reach a.now sid };

    ghost next = { λ a anchored sid byte. A.next a.now anchored sid byte };

    ghost lookups = { λ a p anchored word byte. A.lookups a.now p anchored word byte };

    ghost start = { λ a anchored. A.start a.now anchored };

    ghost memory = { λ a. A.memory a.now };

    ghost prefilter = { λ a. A.prefilter a.now };

    ghost skips_streams = { λ a. A.skips_streams a.now };

    fn start_state(&self, anchored: Anchored) -> Result<StateID, MatchError> {
        (**self).start_state(anchored)
    }

    fn next_state(&self, anchored: Anchored, sid: StateID, byte: u8) -> StateID {
        (**self).next_state(anchored, sid, byte)
    }

    fn step(&self, anchored: Anchored, sid: StateID, byte: u8, work: &mut Work) -> StateID {
        (**self).step(anchored, sid, byte, work)
    }

    fn is_special(&self, sid: StateID) -> bool {
        (**self).is_special(sid)
    }

    fn is_marked(&self, sid: StateID) -> bool {
        (**self).is_marked(sid)
    }

    fn is_dead(&self, sid: StateID) -> bool {
        (**self).is_dead(sid)
    }

    fn is_match(&self, sid: StateID) -> bool {
        (**self).is_match(sid)
    }

    fn is_start(&self, sid: StateID) -> bool {
        (**self).is_start(sid)
    }

    fn reach_back(&self, sid: StateID) -> usize {
        (**self).reach_back(sid)
    }

    fn match_kind(&self) -> MatchKind {
        (**self).match_kind()
    }

    fn prefilter(&self) -> Option<&Prefilter> {
        (**self).prefilter()
    }

    fn stream_prefilter(&self) -> Option<&Prefilter> {
        (**self).stream_prefilter()
    }

    fn match_len(&self, sid: StateID) -> usize {
        (**self).match_len(sid)
    }

    fn match_pattern(&self, sid: StateID, index: usize) -> PatternID {
        (**self).match_pattern(sid, index)
    }

    fn patterns_len(&self) -> usize {
        (**self).patterns_len()
    }

    fn pattern_len(&self, pid: PatternID) -> usize {
        (**self).pattern_len(pid)
    }

    fn min_pattern_len(&self) -> usize {
        (**self).min_pattern_len()
    }

    fn max_pattern_len(&self) -> usize {
        (**self).max_pattern_len()
    }

    fn memory_usage(&self) -> usize {
        (**self).memory_usage()
    }

    ghost laws = { λ a. A.laws a.now };

    ghost alike = { λ a. A.alike a.now };

    ghost plain = { λ a. A.plain a.now };

    ghost unmarked = { λ a. A.unmarked a.now };

    ghost dead_shallow = { λ a. A.dead_shallow a.now };

    ghost starts_shallow = { λ a. A.starts_shallow a.now };

    ghost reaches = { λ a. A.reaches a.now };

    ghost prefilters = { λ a. A.prefilters a.now };
}
