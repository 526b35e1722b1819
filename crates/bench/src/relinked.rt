//! An automaton that is made anew from what another one tells of its states.

ghost use Rattle.std.specs.Prelude.{◌≡◌, ◌+◌, ◌<◌, ◌≤◌, [], ◌∷◌, ◌++◌, length, slice_set, IfOk, IfErr, OnOk};
ghost use Rattle.aho_core.specs.Laws.{shortest, longest};
ghost use Rattle.aho_core.specs.Numbers.{greatest_index};
ghost use Rattle.aho_build.specs.Walking.{IsSound, AreStarts};
ghost use Rattle.aho_corasick.specs.ReadOut.{states_of};
ghost use Rattle.aho_table.specs.Table.{IsRising, state_at};
ghost use Rattle.bench.specs.Relinked.{IsRefused};

use aho_automaton::automaton::Automaton;
use aho_build::sizes::tables_bytes;
use aho_build::special::Special;
use aho_build::steps;
use aho_corasick::noncontiguous::NFA;
use aho_core::error::{BuildError, MatchError};
use aho_core::search::{Anchored, MatchKind, PatternID, SmallIndex, StateID, Work};
use aho_prefilter::prefilter::Prefilter;
use aho_table::links::{DEAD, Matches, Table, Transitions};
use std::alloc::Global;

/// The automaton of an `NFA`'s states, under the same numbers: made from its read-out alone, with no dense rows and no
/// prefilter.
#[derive(Drop)]
pub struct Relinked {
    match_kind: MatchKind,
    table: Table,
    special: Special,
    pattern_lens: Vec<SmallIndex>,
    min_pattern_len: usize,
    max_pattern_len: usize,
    ghost sound: { IsSound table.states },
    ghost starts: { AreStarts special table.states },
    ghost shortest: { min_pattern_len ≡ shortest pattern_lens.items },
    ghost longest: { max_pattern_len ≡ longest pattern_lens.items },
    ghost counted: { length pattern_lens.items ≤ 2147483647 },
    ghost bounded: { max_pattern_len ≤ 2147483646 },
}

impl Relinked {
    ghost use Rattle.aho_core.specs.Patterns.{Patterns};
    ghost use Rattle.aho_build.specs.Dense.{memory_size};

    /// An automaton of all that the `NFA` is of.
    ///
    /// # Errors
    ///
    /// What the table refused: want of memory, or an index above the greatest.
    pub fn new(alloc: Global, nfa: &NFA) -> Result<Relinked, BuildError>
        ensures of { IfOk result (λ made. (p : Patterns)
            → ⟦<NFA as Automaton>⟧.is_of nfa.now p → ⟦<Relinked as Automaton>⟧.is_of made p) }
        ensures states { IfOk result (λ relinked. relinked.table.states ≡ states_of nfa.now) }
        ensures memory { IfOk result (λ relinked. (p : Patterns)
            → ⟦<NFA as Automaton>⟧.is_of nfa.now p
            → ⟦<Relinked as Automaton>⟧.memory relinked ≡ memory_size 0 p) }
        ensures refused { IfErr result IsRefused }
    {
        let Ok(pattern_lens) = Vec::from_slice(alloc, nfa.pattern_lens()) else {
            return Err(BuildError::OutOfMemory);
        };
        Ok(Relinked {
            match_kind: nfa.match_kind(),
            table: copy_of(alloc, nfa)?,
            special: *nfa.special(),
            pattern_lens,
            min_pattern_len: nfa.min_pattern_len(),
            max_pattern_len: nfa.max_pattern_len(),
        })
    }
}

/// A table of the states that are read out.
fn copy_of(alloc: Global, nfa: &NFA) -> Result<Table, BuildError>
    ensures states { IfOk result (λ table. table.states ≡ states_of nfa.now) }
    ensures rows { IfOk result (λ table. table.dense_len ≡ 1) }
    ensures refused { IfErr result IsRefused }
{
    let mut table = Table::new(alloc, SmallIndex::MAX.as_usize())?;
    for index in 0..nfa.states_len() {
        add_state(&mut table, nfa, StateID::new_unchecked(index))?;
    }
    Ok(table)
}

/// One state more, as it is read out.
fn add_state(table: &mut Table, nfa: &NFA, sid: StateID) -> Result<(), BuildError>
    requires within { sid < length (states_of nfa.now) }
    requires limit { table.old.limit ≡ greatest_index }
    ensures added { OnOk result (table.new ≡ record table.old {
      states = table.old.states ++ state_at (states_of nfa.now) sid ∷ [];
      rows = table.new.rows;
    }) }
    ensures refused { IfErr result IsRefused }
{
    let added = table.add_state(SmallIndex::new_unchecked(nfa.depth(sid)))?;
    add_transitions(table, added, nfa.transitions(sid))?;
    add_matches(table, added, nfa.matches(sid))?;
    table.set_fail(added, nfa.fail(sid));
    Ok(())
}

/// The state, which lists no byte, lists these.
fn add_transitions(
    table: &mut Table,
    sid: StateID,
    transitions: Transitions<'_>,
) -> Result<(), BuildError>
    requires added { sid < length table.old.states }
    requires empty { (state_at table.old.states sid).transitions ≡ [] }
    requires rising { IsRising transitions }
    requires limit { table.old.limit ≡ greatest_index }
    ensures set { OnOk result (table.new ≡ record table.old {
      states = slice_set table.old.states sid
          (record (state_at table.old.states sid) { transitions = transitions.entry });
      rows = table.new.rows;
    }) }
    ensures refused { IfErr result IsRefused }
{
    for (byte, next) in transitions {
        table.set(sid, byte, next)?;
    }
    Ok(())
}

/// The state, which lists no pattern, lists these.
fn add_matches(table: &mut Table, sid: StateID, matches: Matches<'_>) -> Result<(), BuildError>
    requires added { sid < length table.old.states }
    requires empty { (state_at table.old.states sid).matches ≡ [] }
    requires limit { table.old.limit ≡ greatest_index }
    ensures listed { OnOk result (table.new ≡ record table.old {
      states = slice_set table.old.states sid
          (record (state_at table.old.states sid) { matches = matches.entry });
    }) }
    ensures refused { IfErr result IsRefused }
{
    for pattern in matches {
        table.add_match(sid, pattern)?;
    }
    Ok(())
}

impl Automaton for Relinked {
    ghost use Rattle.std.specs.Prelude.{ℕ, false, nat_eq, Ok, None};
    ghost use Rattle.aho_core.specs.Bytes.{folded};
    ghost use Rattle.aho_core.specs.Held.{held_after};
    ghost use Rattle.aho_core.specs.Patterns.{Patterns};
    ghost use Rattle.aho_core.specs.declared.search.Anchored.TheVariants.{No};
    ghost use Rattle.aho_core.specs.Step.{lookups};
    ghost use Rattle.aho_build.specs.Automaton.{IsOf, IsHeld, start_of, is_special_in, is_start_in, memory_of};
    ghost use Rattle.aho_build.specs.Walking.{IsState, step_in};
    ghost use Rattle.aho_build.proofs.AutomatonLaws.{alike_of, reaches_of, reads_of, plain_of, dead_shallow_of, starts_shallow_of};
    ghost use Rattle.aho_table.specs.Table.{dead_id, depth_in, matches_in};

    ghost is_of = { λ r p. IsOf p r.match_kind r.pattern_lens.items r.special r.table.states };

    ghost held = { λ r p anchored word sid. IsHeld p r.special r.table.states anchored word sid };

    ghost valid = { λ r sid. IsState r.table.states sid };

    ghost kind = { λ r. r.match_kind };

    ghost lengths = { λ r. r.pattern_lens.items };

    ghost list = { λ r sid. matches_in r.table.states sid };

    ghost dead = { λ r sid. nat_eq sid dead_id };

    ghost special = { λ r sid. is_special_in false r.special r.table.states sid };

    ghost marked = { λ r sid. is_special_in false r.special r.table.states sid };

    ghost starts = { λ r sid. is_start_in r.special sid };

    ghost depth = { λ r sid. depth_in r.table.states sid };

    ghost reach = { λ r sid. depth_in r.table.states sid };

    ghost next = { λ r anchored sid byte. step_in r.table.states anchored sid byte };

    ghost lookups = { λ r p anchored word byte.
        lookups p anchored (held_after p anchored word) (folded p byte) };

    ghost start = { λ r anchored. Ok (start_of r.special anchored) };

    ghost memory = { λ r. memory_of r.table r.pattern_lens.items };

    ghost prefilter = { λ r. None };

    fn start_state(&self, anchored: Anchored) -> Result<StateID, MatchError> {
        match anchored {
            Anchored::No => Ok(self.special.start_unanchored_id),
            Anchored::Yes => Ok(self.special.start_anchored_id),
        }
    }

    fn next_state(&self, anchored: Anchored, sid: StateID, byte: u8) -> StateID {
        let mut work = Work::new();
        steps::step(&self.table, anchored, sid, byte, &mut work)
    }

    fn step(&self, anchored: Anchored, sid: StateID, byte: u8, work: &mut Work) -> StateID {
        steps::step(&self.table, anchored, sid, byte, work)
    }

    fn is_special(&self, sid: StateID) -> bool {
        sid == DEAD || self.table.match_len(sid) > 0
    }

    fn is_marked(&self, sid: StateID) -> bool {
        self.is_special(sid)
    }

    fn is_dead(&self, sid: StateID) -> bool {
        sid == DEAD
    }

    fn is_match(&self, sid: StateID) -> bool {
        self.table.match_len(sid) > 0
    }

    fn is_start(&self, sid: StateID) -> bool {
        sid == self.special.start_unanchored_id || sid == self.special.start_anchored_id
    }

    fn reach_back(&self, sid: StateID) -> usize {
        self.table.depth(sid)
    }

    fn match_kind(&self) -> MatchKind {
        self.match_kind
    }

    fn prefilter(&self) -> Option<&Prefilter> {
        None
    }

    fn stream_prefilter(&self) -> Option<&Prefilter> {
        None
    }

    fn match_len(&self, sid: StateID) -> usize {
        self.table.match_len(sid)
    }

    fn match_pattern(&self, sid: StateID, index: usize) -> PatternID {
        self.table.match_pattern(sid, index)
    }

    fn patterns_len(&self) -> usize {
        self.pattern_lens.len()
    }

    fn pattern_len(&self, pid: PatternID) -> usize {
        self.pattern_lens[pid.as_usize()].as_usize()
    }

    fn min_pattern_len(&self) -> usize {
        self.min_pattern_len
    }

    fn max_pattern_len(&self) -> usize {
        self.max_pattern_len
    }

    fn memory_usage(&self) -> usize {
        tables_bytes(&self.table, &self.pattern_lens)
    }

    ghost laws = { λ r p of. reads_of p r.match_kind r.pattern_lens.items r.special r.table.states of };

    ghost alike = { λ r p word other sid of.
        alike_of p r.special r.table.states No word other sid };

    ghost plain = { λ r sid valid. plain_of false r.special r.table.states sid };

    ghost unmarked = { λ r sid valid. plain_of false r.special r.table.states sid };

    ghost dead_shallow = { λ r sid valid. dead_shallow_of r.table.states sid r.sound };

    ghost starts_shallow = { λ r sid valid. starts_shallow_of r.special r.table.states sid r.starts };

    ghost reaches = { λ r p word sid of.
        reaches_of p r.match_kind r.pattern_lens.items r.special r.table.states r.sound of word sid };

    ghost prefilters = { λ r p of. tt };
}
