//! States that share one vector of transitions and one of patterns.

ghost use Rattle.std.specs.Prelude.{◌≡◌, ◌+◌, ◌<◌, ◌≤◌, [], ◌∷◌, ◌++◌, length, true, IsOk, IfOk, IfErr, OnOk, OnErr, min, slice_get, slice_set, nat_lt, ℕ, List};
ghost use Rattle.aho_core.specs.Numbers.{greatest_index};
ghost use Rattle.aho_core.specs.declared.error.BuildError.TheVariants.{StateIDOverflow};
ghost use Rattle.aho_table.specs.Refusal.{refusal_at, IsRefusalOf};
ghost use Rattle.aho_table.specs.Table.{State, IsRising, new_state, transition_in, next_in, matches_in, fail_in, depth_in, set_transition, push_match, append_matches, set_fail_of, state_at, lists_byte, transitions_count, matches_count, AllRising, IsWithinLimit};
ghost use Rattle.std.specs.List.{AllZip, swap};
ghost use Rattle.aho_table.specs.Renaming.{IsRenamed};
ghost use Rattle.aho_table.specs.Inside.{record_at, IsLinkLed};

use crate::lists::matches::{MatchLists, Matches};
use crate::lists::renumber::renamed;
use crate::lists::transitions::{FAIL, TransitionLists, Transitions};
use aho_core::error::BuildError;
use aho_core::search::{PatternID, SmallIndex, StateID};
use std::alloc::{AllocError, Global};
use std::marker::Model;

/// One state: the numbers of its lists, its link and its depth.
#[derive(Copy, Clone)]
struct Record {
    transitions: StateID,
    matches: u32,
    fail: StateID,
    depth: SmallIndex,
}

/// States, with their lists in two vectors that all of them share.
///
/// An index of a state, of a transition or of a listed pattern is at most the limit.
#[derive(Drop)]
pub struct States {
    records: Vec<Record>,
    transitions: TransitionLists,
    matches: MatchLists,
    limit: usize,
    alloc: Global,
}

impl Model for States {
    ghost use Rattle.aho_table.specs.Inside.{LimitedStates};
    ghost use Rattle.aho_table.specs.Inside.{IsConsistent, recorded_states};

    ghost Value = { LimitedStates };

    ghost view = { λ t. record {
      states = recorded_states t.transitions.lists t.matches.lists t.records.items;
      limit = t.limit;
    } };

    ghost invariant = { λ t. IsConsistent t.records.items t.transitions t.matches t.limit };
}

impl States {
    /// No states. Takes no memory.
    pub(super) fn new(alloc: Global, limit: usize) -> States
        ensures empty { result ≡ record { states = []; limit = min limit greatest_index } }
    {
        States {
            records: Vec::new(alloc),
            transitions: TransitionLists::new(alloc, limit),
            matches: MatchLists::new(alloc, limit),
            limit: limit.min(SmallIndex::MAX.as_usize()),
            alloc,
        }
    }

    /// The greatest index there may be.
    pub(super) fn limit(&self) -> usize
        ensures limit { result ≡ self.now.limit }
        ensures small { result ≤ greatest_index }
    {
        self.limit
    }

    /// The refusal of an index above the limit.
    fn overflow(&self) -> BuildError
        ensures overflow { result ≡ StateIDOverflow self.now.limit (self.now.limit + 1) }
    {
        BuildError::StateIDOverflow {
            max: self.limit as u64,
            requested: self.limit as u64 + 1,
        }
    }

    /// How many states there are.
    pub(super) fn len(&self) -> usize
        ensures len { result ≡ length self.now.states }
        ensures bound { result ≤ greatest_index + 1 }
    {
        self.records.len()
    }

    /// What is true of every table, for a proof to cite. The call does nothing.
    pub(super) fn facts(&self)
        ensures within { IsWithinLimit self.now.limit self.now.states }
        ensures rising { AllRising self.now.states }
    {
        self.transitions.facts();
        self.matches.facts();
    }

    /// One more state, without transitions or patterns, and with FAIL as its link. Answers its number, which is the count
    /// of states before it.
    ///
    /// # Errors
    ///
    /// `StateIDOverflow` where that number is above the limit; else out of memory. Nothing is then changed.
    pub(super) fn add_state(&mut self, depth: SmallIndex) -> Result<StateID, BuildError>
        ensures number { IfOk result (λ sid. sid ≡ length self.old.states) }
        ensures added { OnOk result
            (self.new ≡ record self.old { states = self.old.states ++ new_state depth ∷ [] }) }
        ensures within { OnOk result (length self.old.states ≤ self.old.limit) }
        ensures refused { IfErr result
            (λ error. error ≡ refusal_at self.old.limit (length self.old.states)) }
        ensures unchanged { OnErr result (self.new ≡ self.old) }
    {
        let index = self.records.len();
        if index > self.limit {
            return Err(self.overflow());
        }
        self.transitions.facts();
        self.matches.facts();
        let added = Record {
            transitions: StateID::ZERO,
            matches: 0,
            fail: FAIL,
            depth,
        };
        let Ok(()) = self.records.push(added) else {
            return Err(BuildError::OutOfMemory);
        };
        Ok(StateID::new_unchecked(index))
    }

    /// The byte leads from the state to the next one. A byte that leads somewhere already is led elsewhere, and nothing
    /// grows.
    ///
    /// # Errors
    ///
    /// `StateIDOverflow` where one transition more has an index above the limit; else out of memory. Nothing is then
    /// changed.
    pub(super) fn set(&mut self, sid: StateID, byte: u8, next: StateID) -> Result<(), BuildError>
        requires added { sid < length self.old.states }
        ensures set { OnOk result
            (self.new ≡ record self.old { states = set_transition self.old.states sid byte next }) }
        ensures there { lists_byte self.old.states sid byte ≡ true → IsOk result }
        ensures kept { lists_byte self.old.states sid byte ≡ true
            → transitions_count self.new.states ≡ transitions_count self.old.states }
        ensures within { OnOk result (transitions_count self.new.states ≤ self.old.limit + 1) }
        ensures refused { IfErr result
            (λ error. error ≡ refusal_at self.old.limit (transitions_count self.old.states)) }
        ensures unchanged { OnErr result (self.new ≡ self.old) }
    {
        let state = record_of(&self.records, sid);
        self.transitions.facts();
        let list = self.transitions.set(state.transitions, byte, next)?;
        self.transitions.facts();
        let changed = Record {
            transitions: list,
            ..state
        };
        replace(&mut self.records, sid, changed);
        Ok(())
    }

    /// The last state is gone again, which lists nothing.
    pub(super) fn remove_last(&mut self)
        requires last { (states : List State) × (depth : ℕ) × (self.old.states ≡ states ++ new_state depth ∷ []) }
        ensures removed { (states : List State) (depth : ℕ) → self.old.states ≡ states ++ new_state depth ∷ []
            → self.new ≡ record self.old { states = states } }
    {
        let count = self.records.len() - 1;
        self.records.truncate(count);
    }

    /// One more pattern of the state, after those that it lists.
    ///
    /// # Errors
    ///
    /// `StateIDOverflow` where one listed pattern more has an index above the limit; else out of memory. Nothing is then
    /// changed.
    pub(super) fn add_match(&mut self, sid: StateID, pattern: PatternID) -> Result<(), BuildError>
        requires added { sid < length self.old.states }
        ensures listed { OnOk result
            (self.new ≡ record self.old { states = push_match self.old.states sid pattern }) }
        ensures within { OnOk result (matches_count self.old.states ≤ self.old.limit) }
        ensures refused { IfErr result
            (λ error. error ≡ refusal_at self.old.limit (matches_count self.old.states)) }
        ensures unchanged { OnErr result (self.new ≡ self.old) }
    {
        let state = record_of(&self.records, sid);
        self.matches.facts();
        let list = self.matches.push(state.matches, pattern)?;
        self.matches.facts();
        let changed = Record {
            matches: list,
            ..state
        };
        replace(&mut self.records, sid, changed);
        Ok(())
    }

    /// The state lists the patterns of another too, after its own. Where it lists none of its own, no pattern is copied.
    ///
    /// # Errors
    ///
    /// `StateIDOverflow` where so many listed patterns more have an index above the limit; else out of memory. Nothing is
    /// then changed.
    pub(super) fn append_matches(&mut self, sid: StateID, from: StateID) -> Result<(), BuildError>
        requires added { sid < length self.old.states }
        requires from { from < length self.old.states }
        ensures appended { OnOk result
            (self.new ≡ record self.old { states = append_matches self.old.states sid from }) }
        ensures refused { IfErr result
            (IsRefusalOf self.old.limit
            (matches_count self.old.states + length (matches_in self.old.states from))) }
        ensures unchanged { OnErr result (self.new ≡ self.old) }
    {
        let state = record_of(&self.records, sid);
        let other = record_of(&self.records, from);
        self.matches.facts();
        let joined = self.matches.join(state.matches, other.matches)?;
        self.matches.facts();
        let changed = Record {
            matches: joined,
            ..state
        };
        replace(&mut self.records, sid, changed);
        Ok(())
    }

    /// The state leads on failure to another.
    pub(super) fn set_fail(&mut self, sid: StateID, fail: StateID)
        requires added { sid < length self.old.states }
        ensures set { self.new ≡ record self.old { states = set_fail_of self.old.states sid fail } }
    {
        let state = record_of(&self.records, sid);
        replace(&mut self.records, sid, Record { fail, ..state });
    }

    /// Where the state leads on failure.
    pub(super) fn fail(&self, sid: StateID) -> StateID
        requires added { sid < length self.now.states }
        ensures fail { result ≡ fail_in self.now.states sid }
    {
        record_of(&self.records, sid).fail
    }

    /// How far the state is from the start.
    pub(super) fn depth(&self, sid: StateID) -> usize
        requires added { sid < length self.now.states }
        ensures depth { result ≡ depth_in self.now.states sid }
        ensures bound { result ≤ greatest_index }
    {
        record_of(&self.records, sid).depth.as_usize()
    }

    /// Where the byte leads from the state, and FAIL where it leads nowhere.
    pub(super) fn next(&self, sid: StateID, byte: u8) -> StateID
        requires added { sid < length self.now.states }
        ensures next { result ≡ next_in self.now.states sid byte }
    {
        let list = record_of(&self.records, sid).transitions;
        self.transitions.follow(list, byte)
    }

    /// How many transitions the state lists.
    pub(super) fn transitions_len(&self, sid: StateID) -> usize
        requires added { sid < length self.now.states }
        ensures len { result ≡ length (state_at self.now.states sid).transitions }
    {
        let list = record_of(&self.records, sid).transitions;
        self.transitions.len_of(list)
    }

    /// The transition of this place in the state's list, which rises by byte: the byte and where it leads.
    pub(super) fn transition(&self, sid: StateID, index: usize) -> (u8, StateID)
        requires added { sid < length self.now.states }
        requires within { index < length (state_at self.now.states sid).transitions }
        ensures listed { result ≡ transition_in self.now.states sid index }
        ensures leads { next_in self.now.states sid result.0 ≡ result.1 }
    {
        self.facts();
        let list = record_of(&self.records, sid).transitions;
        self.transitions.get(list, index)
    }

    /// How many patterns the state lists.
    pub(super) fn match_len(&self, sid: StateID) -> usize
        requires added { sid < length self.now.states }
        ensures len { result ≡ length (matches_in self.now.states sid) }
    {
        let list = record_of(&self.records, sid).matches;
        self.matches.len_of(list)
    }

    /// Whether the state lists a pattern.
    pub(super) fn has_matches(&self, sid: StateID) -> bool
        requires added { sid < length self.now.states }
        ensures some { result ≡ nat_lt 0 (length (matches_in self.now.states sid)) }
    {
        self.matches.facts();
        record_of(&self.records, sid).matches > 0
    }

    /// The pattern of this place in the state's list.
    pub(super) fn match_pattern(&self, sid: StateID, index: usize) -> PatternID
        requires added { sid < length self.now.states }
        requires within { index < length (matches_in self.now.states sid) }
        ensures listed { slice_get (matches_in self.now.states sid) index ≡ Some result }
    {
        let list = record_of(&self.records, sid).matches;
        self.matches.get(list, index)
    }

    /// The transitions of the state, rising by byte.
    pub(super) fn transitions(&self, sid: StateID) -> Transitions<'_>
        requires added { sid < length self.now.states }
        ensures listed { result ≡ (state_at self.now.states sid).transitions }
        ensures rising { IsRising result }
    {
        self.transitions
            .iter(record_of(&self.records, sid).transitions)
    }

    /// The patterns of the state, in the order of their listing.
    pub(super) fn matches(&self, sid: StateID) -> Matches<'_>
        requires added { sid < length self.now.states }
        ensures listed { result ≡ matches_in self.now.states sid }
    {
        self.matches.iter(record_of(&self.records, sid).matches)
    }

    /// How many entries the table of transitions has: one for each that a state lists, and the one at index 0.
    pub(super) fn transitions_count(&self) -> usize
        ensures count { result ≡ transitions_count self.now.states }
        ensures bound { result ≤ greatest_index + 1 }
    {
        self.transitions.len()
    }

    /// How many entries the table of patterns has: one for each that a state lists, and the one at index 0.
    pub(super) fn matches_count(&self) -> usize
        ensures count { result ≡ matches_count self.now.states }
        ensures bound { result ≤ greatest_index + 1 }
        ensures within { result ≤ self.now.limit + 1 }
    {
        self.matches.facts();
        self.matches.len()
    }

    /// Two states change places.
    pub(super) fn swap(&mut self, a: StateID, b: StateID)
        requires a { a < length self.old.states }
        requires b { b < length self.old.states }
        ensures swapped { self.new ≡ record self.old { states = swap self.old.states a b } }
    {
        self.records.swap(a.as_usize(), b.as_usize());
    }

    /// Each number that stands in a state is exchanged for the one that the closure answers for it. FAIL names no state, and
    /// stays.
    pub(super) fn rename<F: Fn(StateID) -> StateID>(&mut self, map: &F)
        requires callable { F.IsAlwaysCallable map.now }
        ensures renamed { AllZip (IsRenamed (F.post map.now)) self.old.states self.new.states }
        ensures limit { self.new.limit ≡ self.old.limit }
    {
        self.transitions.rename(map);
        rename_links(&mut self.records, map);
    }

    /// Equal states, in memory of its own.
    ///
    /// # Errors
    ///
    /// Out of memory.
    pub(super) fn try_clone(&self) -> Result<States, AllocError>
        ensures same { IfOk result (λ states. states ≡ self.now) }
    {
        Ok(States {
            records: Vec::from_slice(self.alloc, &self.records)?,
            transitions: self.transitions.try_clone(self.alloc)?,
            matches: self.matches.try_clone(self.alloc)?,
            limit: self.limit,
            alloc: self.alloc,
        })
    }
}

/// The record of the state.
fn record_of(records: &[Record], sid: StateID) -> Record
    requires added { sid < length records.now }
    ensures found { result ≡ record_at records.now sid }
{
    records[sid.as_usize()]
}

/// The state has another record.
fn replace(records: &mut Vec<Record>, sid: StateID, changed: Record)
    requires added { sid < length records.old.items }
    ensures replaced { records.new.items ≡ slice_set records.old.items sid changed }
{
    records[sid.as_usize()] = changed;
}

/// Each link leads to the state that the closure answers for the one to which it led.
fn rename_links<F: Fn(StateID) -> StateID>(records: &mut Vec<Record>, map: &F)
    requires callable { F.IsAlwaysCallable map.now }
    ensures renamed { AllZip (IsLinkLed (F.post map.now)) records.old.items records.new.items }
{
    for state in records.iter_mut() {
        state.fail = renamed(state.fail, map);
    }
}
