//! The automaton of one byte, which is written without a table: another automaton that a search can go over, and one that
//! refuses anchored searches.

ghost use Rattle.bench.specs.OneByte.{one_pattern};

use aho_automaton::automaton::Automaton;
use aho_core::error::MatchError;
use aho_core::search::{Anchored, MatchKind, PatternID, StateID, Work};
use aho_prefilter::prefilter::Prefilter;
use std::marker::Model;

/// The automaton of a single pattern of one byte, under `Standard`. It has no start for anchored searches.
#[derive(Drop)]
pub struct OneByte {
    byte: u8,
}

impl Model for OneByte {
    ghost use Rattle.std.specs.Prelude.{ℕ};

    ghost Value = { ℕ };

    ghost view = { λ one. one.byte };
}

impl OneByte {
    /// The automaton that finds this byte.
    pub fn new(byte: u8) -> OneByte
        ensures of { ⟦<OneByte as Automaton>⟧.is_of result (one_pattern byte) }
    {
        OneByte { byte }
    }
}

impl Automaton for OneByte {
    ghost use Rattle.std.specs.Prelude.{◌≡◌, ℕ, [], ◌∷◌, ◌<◌, true, false, refl, None};
    ghost use Rattle.aho_core.specs.declared.search.MatchKind.TheVariants.{Standard};
    ghost use Rattle.bench.specs.OneByte.{IsHeldByOne, alike_one, all_special, is_start_of_one, list_of, next_of, one_pattern, reaches_one, reads_one, start_of_one};

    ghost is_of = { λ one p. p ≡ one_pattern one };

    ghost held = { λ one p anchored word sid. IsHeldByOne one p anchored word sid };

    ghost valid = { λ one sid. sid < 2 };

    ghost kind = { λ one. Standard };

    ghost lengths = { λ one. 1 ∷ [] };

    ghost list = { λ one sid. list_of sid };

    ghost dead = { λ one sid. false };

    ghost special = { λ one sid. true };

    ghost marked = { λ one sid. true };

    ghost starts = { λ one sid. is_start_of_one sid };

    ghost depth = { λ one sid. 0 };

    ghost reach = { λ one sid. sid };

    ghost next = { λ one anchored sid byte. next_of one byte };

    ghost lookups = { λ one p anchored word byte. 1 };

    ghost start = { λ one anchored. start_of_one anchored };

    ghost memory = { λ one. 1 };

    ghost prefilter = { λ one. None };

    fn start_state(&self, anchored: Anchored) -> Result<StateID, MatchError> {
        match anchored {
            Anchored::No => Ok(StateID::ZERO),
            Anchored::Yes => Err(MatchError::invalid_input_anchored()),
        }
    }

    fn next_state(&self, _anchored: Anchored, _sid: StateID, byte: u8) -> StateID {
        if byte == self.byte {
            StateID::ONE
        } else {
            StateID::ZERO
        }
    }

    fn step(&self, anchored: Anchored, sid: StateID, byte: u8, work: &mut Work) -> StateID {
        work.tick();
        self.next_state(anchored, sid, byte)
    }

    fn is_special(&self, _sid: StateID) -> bool {
        true
    }

    fn is_marked(&self, _sid: StateID) -> bool {
        true
    }

    fn is_dead(&self, _sid: StateID) -> bool {
        false
    }

    fn is_match(&self, sid: StateID) -> bool {
        sid == StateID::ONE
    }

    fn is_start(&self, sid: StateID) -> bool {
        sid == StateID::ZERO
    }

    fn reach_back(&self, sid: StateID) -> usize {
        sid.as_usize()
    }

    fn match_kind(&self) -> MatchKind {
        MatchKind::Standard
    }

    fn prefilter(&self) -> Option<&Prefilter> {
        None
    }

    fn stream_prefilter(&self) -> Option<&Prefilter> {
        None
    }

    fn match_len(&self, sid: StateID) -> usize {
        sid.as_usize()
    }

    fn match_pattern(&self, _sid: StateID, _index: usize) -> PatternID {
        PatternID::new(0).unwrap()
    }

    fn patterns_len(&self) -> usize {
        1
    }

    fn pattern_len(&self, _pid: PatternID) -> usize {
        1
    }

    fn min_pattern_len(&self) -> usize {
        1
    }

    fn max_pattern_len(&self) -> usize {
        1
    }

    fn memory_usage(&self) -> usize {
        1
    }

    ghost laws = { λ one p of. reads_one one p of };

    ghost alike = { λ one p word other sid of. alike_one one p word other sid };

    ghost plain = { λ one sid valid. all_special sid };

    ghost unmarked = { λ one sid valid. all_special sid };

    ghost dead_shallow = { λ one sid valid dead. refl };

    ghost starts_shallow = { λ one sid valid starts. refl };

    ghost reaches = { λ one p word sid of. reaches_one one p word sid };

    ghost prefilters = { λ one p of. tt };
}
