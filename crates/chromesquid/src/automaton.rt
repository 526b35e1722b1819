//! A searcher is an automaton as well: every search that is written for any automaton takes one.

use crate::engine::Engine;
use crate::kinds::{is_allowed, why_refused};
use crate::searcher::AhoCorasick;
use aho_automaton::automaton::Automaton;
use aho_core::error::MatchError;
use aho_core::search::{Anchored, MatchKind, PatternID, StateID, Work};
use aho_prefilter::prefilter::Prefilter;

impl Automaton for AhoCorasick {
    ghost use Rattle.std.specs.Prelude.{true};
    ghost use Rattle.chromesquid.specs.Engine.{alike_by, dead_shallow_by, laws_by, plain_state_by, prefilters_by, reaches_by, starts_shallow_by, unmarked_by};
    ghost use Rattle.chromesquid.specs.Searcher.{IsBuiltFrom, start_by};

    ghost is_of = { λ s p. IsBuiltFrom s p };

    ghost held = { λ s p anchored word sid. ⟦<Engine as Automaton>⟧.held s.automaton p anchored word sid };

    ghost valid = { λ s sid. ⟦<Engine as Automaton>⟧.valid s.automaton sid };

    ghost kind = { λ s. ⟦<Engine as Automaton>⟧.kind s.automaton };

    ghost lengths = { λ s. ⟦<Engine as Automaton>⟧.lengths s.automaton };

    ghost list = { λ s sid. ⟦<Engine as Automaton>⟧.list s.automaton sid };

    ghost dead = { λ s sid. ⟦<Engine as Automaton>⟧.dead s.automaton sid };

    ghost special = { λ s sid. ⟦<Engine as Automaton>⟧.special s.automaton sid };

    ghost marked = { λ s sid. ⟦<Engine as Automaton>⟧.marked s.automaton sid };

    ghost starts = { λ s sid. ⟦<Engine as Automaton>⟧.starts s.automaton sid };

    ghost depth = { λ s sid. ⟦<Engine as Automaton>⟧.depth s.automaton sid };

    ghost reach = { λ s sid. ⟦<Engine as Automaton>⟧.reach s.automaton sid };

    ghost next = { λ s anchored sid byte. ⟦<Engine as Automaton>⟧.next s.automaton anchored sid byte };

    ghost lookups = { λ s p anchored word byte.
        ⟦<Engine as Automaton>⟧.lookups s.automaton p anchored word byte };

    ghost start = { λ s anchored. start_by s anchored };

    ghost memory = { λ s. ⟦<Engine as Automaton>⟧.memory s.automaton };

    ghost prefilter = { λ s. ⟦<Engine as Automaton>⟧.prefilter s.automaton };

    ghost skips_streams = { λ _. true };

    fn start_state(&self, anchored: Anchored) -> Result<StateID, MatchError> {
        if is_allowed(self.start_kind(), anchored) {
            self.automaton().start_state(anchored)
        } else {
            Err(why_refused(anchored))
        }
    }

    fn next_state(&self, anchored: Anchored, sid: StateID, byte: u8) -> StateID {
        self.automaton().next_state(anchored, sid, byte)
    }

    fn step(&self, anchored: Anchored, sid: StateID, byte: u8, work: &mut Work) -> StateID {
        self.automaton().step(anchored, sid, byte, work)
    }

    fn is_special(&self, sid: StateID) -> bool {
        self.automaton().is_special(sid)
    }

    fn is_marked(&self, sid: StateID) -> bool {
        self.automaton().is_marked(sid)
    }

    fn is_dead(&self, sid: StateID) -> bool {
        self.automaton().is_dead(sid)
    }

    fn is_match(&self, sid: StateID) -> bool {
        self.automaton().is_match(sid)
    }

    fn is_start(&self, sid: StateID) -> bool {
        self.automaton().is_start(sid)
    }

    fn reach_back(&self, sid: StateID) -> usize {
        self.automaton().reach_back(sid)
    }

    fn match_kind(&self) -> MatchKind {
        self.automaton().match_kind()
    }

    fn prefilter(&self) -> Option<&Prefilter> {
        self.automaton().prefilter()
    }

    fn stream_prefilter(&self) -> Option<&Prefilter> {
        self.automaton().stream_prefilter()
    }

    fn match_len(&self, sid: StateID) -> usize {
        self.automaton().match_len(sid)
    }

    fn match_pattern(&self, sid: StateID, index: usize) -> PatternID {
        self.automaton().match_pattern(sid, index)
    }

    fn patterns_len(&self) -> usize {
        self.automaton().patterns_len()
    }

    fn pattern_len(&self, pid: PatternID) -> usize {
        self.automaton().pattern_len(pid)
    }

    fn min_pattern_len(&self) -> usize {
        self.automaton().min_pattern_len()
    }

    fn max_pattern_len(&self) -> usize {
        self.automaton().max_pattern_len()
    }

    fn memory_usage(&self) -> usize {
        self.automaton().memory_usage()
    }

    ghost laws = { λ s p built. laws_by s.automaton p built.reads };

    ghost alike = { λ s p word other sid built. alike_by s.automaton p word other sid built.reads };

    ghost plain = { λ s sid valid. plain_state_by s.automaton sid valid };

    ghost unmarked = { λ s sid valid. unmarked_by s.automaton sid valid };

    ghost dead_shallow = { λ s sid valid. dead_shallow_by s.automaton sid valid };

    ghost starts_shallow = { λ s sid valid. starts_shallow_by s.automaton sid valid };

    ghost reaches = { λ s p word sid built. reaches_by s.automaton p word sid built.reads };

    ghost prefilters = { λ s p built. prefilters_by s.automaton p built.reads };
}
