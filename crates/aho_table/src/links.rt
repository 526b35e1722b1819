//! The states of an automaton with their transitions, match lists and failure links.

ghost use Rattle.std.specs.Prelude.{◌≡◌, ◌≢◌, ◌+◌, ◌<◌, ◌≤◌, ◌^◌, [], ◌∷◌, ◌++◌, length, true, false, Bool, IsTrue, ◌↔◌, IsOk, IfOk, IfErr, OnOk, OnErr, min, slice_get, nat_lt, ℕ, List};
ghost use Rattle.aho_core.specs.Numbers.{greatest_index};
ghost use Rattle.aho_table.specs.Refusal.{refusal_at, row_refusal_at, IsRefusalOf, IsLeadRefusal};
ghost use Rattle.aho_table.specs.Alphabet.{no_borders, class_count};
ghost use Rattle.aho_table.specs.Table.{State, fail_id, IsRising, new_state, transition_in, next_in, matches_in, fail_in, depth_in, set_transition, push_match, append_matches, set_fail_of, state_at, lists_byte, transitions_count, matches_count, AllRising, IsWithinLimit, IsLedTo, LeadsAlike, with_row, without_row, no_rows, rows_led};

mod renumber;
mod rows;
mod states;

use crate::alphabet::ByteClasses;
pub use crate::lists::matches::Matches;
use aho_core::error::BuildError;
use aho_core::search::{PatternID, SmallIndex, StateID, Work};
/// What `Table::follow` answers where no transition is listed.
pub use crate::lists::transitions::{FAIL, Transitions};
use rows::Rows;
use states::States;
use std::alloc::{AllocError, Global};
use std::marker::Model;

/// The state that every byte leads back to: a search that holds it has ended.
pub const DEAD: StateID = StateID::ZERO;

/// The state to which a byte leads.
#[derive(Clone, Copy)]
pub enum Child {
    /// It was there.
    Found(StateID),
    /// It was added for the byte.
    Added(StateID),
}

/// The states of an automaton, with the transitions and patterns that each lists.
///
/// An index of a state, of a transition, of a listed pattern or of the start of a row is at most the table's limit. Index 0 of
/// the transitions, of the patterns and of the rows' entries is taken from the start.
#[derive(Drop)]
pub struct Table {
    states: States,
    /// For each state where its row starts, and 0 where it has none.
    starts: Vec<u32>,
    rows: Rows,
    alloc: Global,
}

impl Model for Table {
    ghost use Rattle.std.specs.Prelude.{◌+◌, length, map};
    ghost use Rattle.aho_table.specs.Table.{Tables};
    ghost use Rattle.aho_table.specs.Inside.{HasRows, is_start};

    ghost Value = { Tables };

    ghost view = { λ t. record {
      states = t.states.states;
      limit = t.states.limit;
      classes = t.rows.classes;
      dense_len = length t.rows.entries.items + 1;
      rows = map is_start t.starts.items;
    } };

    ghost invariant = { λ t. HasRows t.states.states t.starts.items t.rows.classes t.rows.entries.items t.states.limit };
}

impl Table {
    /// The table of no states, whose indexes are at most `limit`; a greater limit counts as `SmallIndex::MAX`.
    ///
    /// # Errors
    ///
    /// None: a table of no states takes no memory.
    pub fn new(alloc: Global, limit: usize) -> Result<Table, BuildError>
        ensures ok { IsOk result }
        ensures empty { IfOk result
            (λ table. table ≡ record {
              states = [];
              limit = min limit greatest_index;
              classes = no_borders;
              dense_len = 1;
              rows = [];
            }) }
    {
        Ok(Table {
            states: States::new(alloc, limit),
            starts: Vec::new(alloc),
            rows: Rows::new(alloc),
            alloc,
        })
    }

    /// How many states there are.
    pub fn len(&self) -> usize
        ensures len { result ≡ length self.now.states }
        ensures bound { result ≤ greatest_index + 1 }
    {
        self.states.len()
    }

    /// What is true of every table, for a proof to cite. The call does nothing.
    pub fn facts(&self)
        ensures within { IsWithinLimit self.now.limit self.now.states }
        ensures rising { AllRising self.now.states }
        ensures rows { length self.now.rows ≡ length self.now.states }
    {
        self.states.facts();
    }

    /// Whether there is no state.
    pub fn is_empty(&self) -> bool
        ensures empty { IsTrue result ↔ (length self.now.states ≡ 0) }
    {
        self.states.len() == 0
    }

    /// One more state, without transitions, patterns or a row, and with FAIL as its link. Answers its number, which is the
    /// count of states before it.
    ///
    /// # Errors
    ///
    /// `StateIDOverflow` where that number is above the limit; else out of memory. The table is then unchanged.
    pub fn add_state(&mut self, depth: SmallIndex) -> Result<StateID, BuildError>
        ensures number { IfOk result (λ sid. sid ≡ length self.old.states) }
        ensures added { OnOk result
            (self.new ≡ record self.old {
              states = self.old.states ++ new_state depth ∷ [];
              rows = self.old.rows ++ false ∷ [];
            }) }
        ensures within { OnOk result (length self.old.states ≤ self.old.limit) }
        ensures refused { IfErr result
            (λ error. error ≡ refusal_at self.old.limit (length self.old.states)) }
        ensures unchanged { OnErr result (self.new ≡ self.old) }
    {
        let added = self.states.add_state(depth)?;
        if self.starts.push(0).is_err() {
            self.states.remove_last();
            return Err(BuildError::OutOfMemory);
        }
        Ok(added)
    }

    /// The byte leads from the state to the next one. A byte that leads somewhere already is led elsewhere, and nothing
    /// grows. A row of the state is forgotten: its entries stay counted, and the state answers by its list.
    ///
    /// # Errors
    ///
    /// `StateIDOverflow` where one transition more has an index above the limit; else out of memory. The table is then
    /// unchanged.
    pub fn set(&mut self, sid: StateID, byte: u8, next: StateID) -> Result<(), BuildError>
        requires added { sid < length self.old.states }
        ensures set { OnOk result
            (self.new ≡ record self.old {
              states = set_transition self.old.states sid byte next;
              rows = without_row self.old.rows sid;
            }) }
        ensures there { lists_byte self.old.states sid byte ≡ true → IsOk result }
        ensures kept { lists_byte self.old.states sid byte ≡ true
            → transitions_count self.new.states ≡ transitions_count self.old.states }
        ensures within { OnOk result (transitions_count self.new.states ≤ self.old.limit + 1) }
        ensures refused { IfErr result
            (λ error. error ≡ refusal_at self.old.limit (transitions_count self.old.states)) }
        ensures unchanged { OnErr result (self.new ≡ self.old) }
    {
        self.states.set(sid, byte, next)?;
        self.starts[sid.as_usize()] = 0; // A row that led as the list did is forgotten.
        Ok(())
    }

    /// Where the byte leads from the state: to the state that is there, or, where it leads nowhere, to one that is added at
    /// this depth.
    ///
    /// # Errors
    ///
    /// `StateIDOverflow` where one state more, or one transition more, has an index above the limit; else out of memory. The
    /// table is then unchanged.
    pub fn follow_or_add(
        &mut self,
        sid: StateID,
        byte: u8,
        depth: SmallIndex,
    ) -> Result<Child, BuildError>
        requires added { sid < length self.old.states }
        ensures led { IfOk result (IsLedTo sid byte depth self.old.states self.new.states) }
        ensures limit { self.new.limit ≡ self.old.limit }
        ensures kept { self.new ≡ record self.old { states = self.new.states; rows = self.new.rows } }
        ensures rows { IfOk result (λ child. self.new.rows ≡ rows_led self.old.rows sid child) }
        ensures free { OnErr result (next_in self.old.states sid byte ≡ fail_id) }
        ensures refused { IfErr result (IsLeadRefusal self.old.limit sid byte self.old.states) }
        ensures unchanged { OnErr result (self.new ≡ self.old) }
        ensures rising { IsRising (state_at self.old.states sid).transitions }
    {
        self.states.facts();
        let next = self.states.next(sid, byte);
        if next != FAIL {
            return Ok(Child::Found(next));
        }
        let added = self.add_state(depth)?;
        match self.set(sid, byte, added) {
            Ok(()) => Ok(Child::Added(added)),
            Err(error) => {
                self.remove_last();
                Err(error)
            }
        }
    }

    /// The last state is gone again, which lists nothing.
    fn remove_last(&mut self)
        requires last { (states : List State) × (depth : ℕ) × (self.old.states ≡ states ++ new_state depth ∷ []) }
        ensures removed { (states : List State) (depth : ℕ) (rows : List Bool) (row : Bool)
            → self.old.states ≡ states ++ new_state depth ∷ [] → self.old.rows ≡ rows ++ row ∷ []
            → self.new ≡ record self.old { states = states; rows = rows } }
    {
        self.states.remove_last();
        let count = self.states.len();
        self.starts.truncate(count);
    }

    /// One more pattern of the state, after those that it lists.
    ///
    /// # Errors
    ///
    /// `StateIDOverflow` where one listed pattern more has an index above the limit; else out of memory. The table is then
    /// unchanged.
    pub fn add_match(&mut self, sid: StateID, pattern: PatternID) -> Result<(), BuildError>
        requires added { sid < length self.old.states }
        ensures listed { OnOk result
            (self.new ≡ record self.old { states = push_match self.old.states sid pattern }) }
        ensures within { OnOk result (matches_count self.old.states ≤ self.old.limit) }
        ensures refused { IfErr result
            (λ error. error ≡ refusal_at self.old.limit (matches_count self.old.states)) }
        ensures unchanged { OnErr result (self.new ≡ self.old) }
    {
        self.states.add_match(sid, pattern)
    }

    /// The state lists the patterns of another too, after its own. Where it lists none of its own, no pattern is copied.
    ///
    /// # Errors
    ///
    /// `StateIDOverflow` where so many listed patterns more have an index above the limit; else out of memory. The table is
    /// then unchanged.
    pub fn append_matches(&mut self, sid: StateID, from: StateID) -> Result<(), BuildError>
        requires added { sid < length self.old.states }
        requires from { from < length self.old.states }
        ensures appended { OnOk result
            (self.new ≡ record self.old { states = append_matches self.old.states sid from }) }
        ensures refused { IfErr result
            (IsRefusalOf self.old.limit
            (matches_count self.old.states + length (matches_in self.old.states from))) }
        ensures unchanged { OnErr result (self.new ≡ self.old) }
    {
        self.states.append_matches(sid, from)
    }

    /// Goes by these classes of bytes, and forgets every row.
    pub fn set_byte_classes(&mut self, classes: ByteClasses)
        ensures set { self.new ≡ record self.old {
          classes = classes;
          dense_len = 1;
          rows = no_rows self.old.states;
        } }
    {
        self.starts.fill(0);
        self.rows.set_classes(classes);
    }

    /// The classes of bytes that the rows go by.
    pub fn byte_classes(&self) -> &ByteClasses
        ensures classes { result.now ≡ self.now.classes }
    {
        self.rows.classes()
    }

    /// Gives the state a row, by which `follow` answers in one look: an entry more for each class of bytes. A state that has
    /// a row gets another one.
    ///
    /// # Errors
    ///
    /// `StateIDOverflow` where the row would start above the limit: `requested` is that start, which is the count of
    /// entries before it. Else out of memory. The table is then unchanged.
    pub fn add_row(&mut self, sid: StateID) -> Result<(), BuildError>
        requires added { sid < length self.old.states }
        requires alike { LeadsAlike self.old.classes (state_at self.old.states sid).transitions }
        ensures added { OnOk result
            (self.new ≡ record self.old {
              dense_len = self.old.dense_len + class_count self.old.classes;
              rows = with_row self.old.rows sid;
            }) }
        ensures within { OnOk result (self.old.dense_len ≤ self.old.limit) }
        ensures refused { IfErr result
            (λ error. error ≡ row_refusal_at self.old.limit self.old.dense_len) }
        ensures unchanged { OnErr result (self.new ≡ self.old) }
    {
        let limit = self.states.limit();
        let start = self.rows.len();
        if start > limit {
            return Err(BuildError::StateIDOverflow {
                max: limit as u64,
                requested: start as u64,
            });
        }
        let Ok(()) = self.rows.add(self.states.transitions(sid)) else {
            return Err(BuildError::OutOfMemory);
        };
        self.starts[sid.as_usize()] = start as u32;
        Ok(())
    }

    /// How many entries the rows have together, and one for index 0.
    pub fn dense_len(&self) -> usize
        ensures len { result ≡ self.now.dense_len }
        ensures bound { result ≤ greatest_index + 256 }
    {
        let _limit = self.states.limit();
        self.rows.len()
    }

    /// The state leads on failure to another.
    pub fn set_fail(&mut self, sid: StateID, fail: StateID)
        requires added { sid < length self.old.states }
        ensures set { self.new ≡ record self.old { states = set_fail_of self.old.states sid fail } }
    {
        self.states.set_fail(sid, fail);
    }

    /// Where the state leads on failure.
    pub fn fail(&self, sid: StateID) -> StateID
        requires added { sid < length self.now.states }
        ensures fail { result ≡ fail_in self.now.states sid }
    {
        self.states.fail(sid)
    }

    /// How far the state is from the start.
    pub fn depth(&self, sid: StateID) -> usize
        requires added { sid < length self.now.states }
        ensures depth { result ≡ depth_in self.now.states sid }
        ensures bound { result ≤ greatest_index }
    {
        self.states.depth(sid)
    }

    /// Where the byte leads from the state, and FAIL where it leads nowhere. Adds one look-up to the work.
    pub fn follow(&self, sid: StateID, byte: u8, work: &mut Work) -> StateID
        requires added { sid < length self.now.states }
        requires room { work.old + 1 < 2 ^ 128 }
        ensures next { result ≡ next_in self.now.states sid byte }
        ensures counted { work.new ≡ work.old + 1 }
    {
        work.tick();
        let start = self.starts[sid.as_usize()];
        if start != 0 {
            return self.rows.next(start, byte);
        }
        self.states.next(sid, byte)
    }

    /// How many transitions the state lists.
    pub fn transitions_len(&self, sid: StateID) -> usize
        requires added { sid < length self.now.states }
        ensures len { result ≡ length (state_at self.now.states sid).transitions }
    {
        self.states.transitions_len(sid)
    }

    /// The transition of this place in the state's list, which rises by byte: the byte and where it leads.
    pub fn transition(&self, sid: StateID, index: usize) -> (u8, StateID)
        requires added { sid < length self.now.states }
        requires within { index < length (state_at self.now.states sid).transitions }
        ensures listed { result ≡ transition_in self.now.states sid index }
        ensures leads { next_in self.now.states sid result.0 ≡ result.1 }
    {
        self.states.transition(sid, index)
    }

    /// How many patterns the state lists.
    pub fn match_len(&self, sid: StateID) -> usize
        requires added { sid < length self.now.states }
        ensures len { result ≡ length (matches_in self.now.states sid) }
    {
        self.states.match_len(sid)
    }

    /// Whether the state lists a pattern.
    pub fn has_matches(&self, sid: StateID) -> bool
        requires added { sid < length self.now.states }
        ensures some { result ≡ nat_lt 0 (length (matches_in self.now.states sid)) }
    {
        self.states.has_matches(sid)
    }

    /// The pattern of this place in the state's list.
    pub fn match_pattern(&self, sid: StateID, index: usize) -> PatternID
        requires added { sid < length self.now.states }
        requires within { index < length (matches_in self.now.states sid) }
        ensures listed { slice_get (matches_in self.now.states sid) index ≡ Some result }
    {
        self.states.match_pattern(sid, index)
    }

    /// The transitions of the state, rising by byte.
    pub fn transitions(&self, sid: StateID) -> Transitions<'_>
        requires added { sid < length self.now.states }
        ensures listed { result ≡ (state_at self.now.states sid).transitions }
        ensures rising { IsRising result }
    {
        self.states.transitions(sid)
    }

    /// The patterns of the state, in the order of their listing.
    pub fn matches(&self, sid: StateID) -> Matches<'_>
        requires added { sid < length self.now.states }
        ensures listed { result ≡ matches_in self.now.states sid }
    {
        self.states.matches(sid)
    }

    /// How many entries the table of transitions has: one for each that a state lists, and the one at index 0.
    pub fn transitions_count(&self) -> usize
        ensures count { result ≡ transitions_count self.now.states }
        ensures bound { result ≤ greatest_index + 1 }
    {
        self.states.transitions_count()
    }

    /// How many entries the table of patterns has: one for each that a state lists, and the one at index 0.
    pub fn matches_count(&self) -> usize
        ensures count { result ≡ matches_count self.now.states }
        ensures bound { result ≤ greatest_index + 1 }
        ensures within { result ≤ self.now.limit + 1 }
    {
        self.states.matches_count()
    }

    /// An equal table, in memory of its own.
    ///
    /// # Errors
    ///
    /// Out of memory.
    pub fn try_clone(&self) -> Result<Table, AllocError>
        ensures same { IfOk result (λ table. table ≡ self.now) }
    {
        Ok(Table {
            states: self.states.try_clone()?,
            starts: Vec::from_slice(self.alloc, &self.starts)?,
            rows: self.rows.try_clone(self.alloc)?,
            alloc: self.alloc,
        })
    }
}
