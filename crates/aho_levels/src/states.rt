//! The states: their number, their children, and where they lead.

ghost use Rattle.std.specs.Prelude.{◌≡◌, ◌+◌, ◌<◌, ◌≤◌, ◌^◌, [], ℕ, length, slice_get, Some, IfOk};
ghost use Rattle.aho_core.specs.Bytes.{folded_by};
ghost use Rattle.aho_core.specs.Numbers.{greatest_index};
ghost use Rattle.aho_core.specs.declared.search.Anchored.TheVariants.{No, Yes};
ghost use Rattle.aho_levels.specs.Layout.{CanStepThrough, HasLists, IsSoundStates, IsStateNumber, child_by, child_at, depth_at, row_entry_at, is_marked_in, is_row_state, link_at, list_of_state, looks_of_step, next_at, states_memory};

use crate::child::child_of;
use crate::order::folded;
use aho_core::search::{Anchored, PatternID, SmallIndex, StateID, Work};
use std::alloc::{AllocError, Global};
use std::marker::Model;

/// The dead state, to which every byte leads back.
pub const DEAD: StateID = StateID::ZERO;

/// The state of the empty word, where searches start.
pub const ROOT: StateID = StateID::ONE;

/// The entries of a row: one for each byte.
pub const ROW: usize = 256;

/// The states, numbered level by level: the dead one, the root, the words of one byte in their order, those of two, and so on.
/// So the children of a state stand side by side, in the order of the bytes that lead to them. A state near the root has a
/// row as well: where each byte leads, once its link is followed.
#[derive(Drop)]
pub struct States {
    /// For each state the first of its children; and one more behind the last. So the next state's first ends them.
    pub firsts: Vec<SmallIndex>,
    /// The byte that leads to each state from the one above it.
    pub bytes: Vec<u8>,
    /// How many bytes the word of each has.
    pub depths: Vec<SmallIndex>,
    /// Where each leads on failure.
    pub fails: Vec<StateID>,
    /// The rows of the first states, one behind another.
    pub rows: Vec<StateID>,
    /// How many states have a row.
    pub row_count: usize,
    /// Where the list of each state stands.
    pub places: Vec<SmallIndex>,
    /// For each list its length, and then its patterns; an empty one stands at the front.
    pub lists: Vec<SmallIndex>,
    pub ignore_case: bool,
}

impl Model for States {
    ghost use Rattle.aho_levels.specs.Layout.{StateTables};

    ghost Value = { StateTables };

    ghost view = { λ s. record {
      firsts = s.firsts.items;
      bytes = s.bytes.items;
      depths = s.depths.items;
      fails = s.fails.items;
      rows = s.rows.items;
      row_count = s.row_count;
      places = s.places.items;
      lists = s.lists.items;
      ignore_case = s.ignore_case;
    } };
}

impl States {
    /// No state yet.
    pub fn new(alloc: Global, ignore_case: bool) -> States
        ensures none { result ≡ record {
          firsts = [];
          bytes = [];
          depths = [];
          fails = [];
          rows = [];
          row_count = 0;
          places = [];
          lists = [];
          ignore_case = ignore_case;
        } }
    {
        States {
            firsts: Vec::new(alloc),
            bytes: Vec::new(alloc),
            depths: Vec::new(alloc),
            fails: Vec::new(alloc),
            rows: Vec::new(alloc),
            row_count: 0,
            places: Vec::new(alloc),
            lists: Vec::new(alloc),
            ignore_case,
        }
    }

    /// Whether the state has a row.
    #[inline(always)]
    pub fn has_row(&self, sid: StateID) -> bool
        ensures row { result ≡ is_row_state self.now sid }
    {
        sid.as_usize() < self.row_count
    }

    /// Where the byte leads from a state with a row.
    #[inline(always)]
    pub fn row_entry(&self, sid: StateID, byte: u8) -> StateID
        requires can { CanStepThrough self.now }
        requires row { sid < self.now.row_count }
        ensures entry { result ≡ row_entry_at self.now sid byte }
    {
        self.rows[sid.as_usize() * ROW + byte as usize]
    }

    /// The child to which a byte leads, of those as they are compared.
    #[inline(always)]
    pub fn child(&self, sid: StateID, folded: u8) -> Option<StateID>
        requires can { CanStepThrough self.now }
        requires state { IsStateNumber self.now sid }
        ensures child { result ≡ child_at self.now sid folded }
    {
        let first = self.firsts[sid.as_usize()].as_usize();
        let end = self.firsts[sid.as_usize() + 1].as_usize();
        child_of(&self.bytes[first..end], folded, first)
    }

    /// Where the state leads on failure.
    #[inline(always)]
    pub fn link(&self, sid: StateID) -> StateID
        requires linked { sid < length self.now.fails }
        ensures link { result ≡ link_at self.now sid }
    {
        self.fails[sid.as_usize()]
    }

    /// Where the byte leads: down the links until a state takes it.
    #[inline(always)]
    pub fn step(&self, from: StateID, byte: u8, work: &mut Work) -> StateID
        requires can { CanStepThrough self.now }
        requires linked { from < length self.now.fails }
        requires room { work.old + depth_at self.now from + 2 < 2 ^ 128 }
        ensures next { result ≡ next_at self.now No from byte }
        ensures counted { work.new ≡ work.old + looks_of_step self.now No from byte }
    {
        if self.has_row(from) {
            work.tick();
            return self.row_entry(from, byte);
        }
        self.deep_step(from, byte, work)
    }

    /// Where the byte leads from a state that may have no row.
    #[inline(never)]
    pub fn deep_step(&self, from: StateID, byte: u8, work: &mut Work) -> StateID
        requires can { CanStepThrough self.now }
        requires linked { from < length self.now.fails }
        requires room { work.old + depth_at self.now from + 2 < 2 ^ 128 }
        ensures next { result ≡ next_at self.now No from byte }
        ensures counted { work.new ≡ work.old + looks_of_step self.now No from byte }
    {
        let folded = folded(self.ignore_case, byte);
        let mut sid = from;
        'links: loop {
            work.tick();
            if self.has_row(sid) {
                return self.row_entry(sid, byte);
            }
            if let Some(next) = self.child(sid, folded) {
                return next;
            }
            sid = self.link(sid);
        }
    }

    /// Where the byte leads in an anchored search: to a child, or to the dead state.
    pub fn anchored_step(&self, sid: StateID, byte: u8) -> StateID
        requires can { CanStepThrough self.now }
        requires state { IsStateNumber self.now sid }
        ensures next { result ≡ next_at self.now Yes sid byte }
    {
        match self.child(sid, folded(self.ignore_case, byte)) {
            Some(next) => next,
            None => DEAD,
        }
    }

    /// Where the byte leads, under an anchoring.
    #[inline(always)]
    pub fn next(&self, anchored: Anchored, sid: StateID, byte: u8, work: &mut Work) -> StateID
        requires sound { IsSoundStates self.now }
        requires state { IsStateNumber self.now sid }
        requires room { work.old + depth_at self.now sid + 2 < 2 ^ 128 }
        ensures next { result ≡ next_at self.now anchored sid byte }
        ensures counted { work.new ≡ work.old + looks_of_step self.now anchored sid byte }
    {
        match anchored {
            Anchored::No => self.step(sid, byte, work),
            Anchored::Yes => {
                work.tick();
                self.anchored_step(sid, byte)
            }
        }
    }

    /// Whether the state is dead, or lists a pattern.
    #[inline(always)]
    pub fn is_marked(&self, sid: StateID) -> bool
        requires sound { IsSoundStates self.now }
        requires state { IsStateNumber self.now sid }
        ensures marked { result ≡ is_marked_in self.now sid }
    {
        sid == DEAD || self.places[sid.as_usize()].as_usize() > 0
    }

    /// How many bytes the state's word has.
    pub fn depth(&self, sid: StateID) -> usize
        requires sound { IsSoundStates self.now }
        requires state { IsStateNumber self.now sid }
        ensures depth { result ≡ depth_at self.now sid }
    {
        self.depths[sid.as_usize()].as_usize()
    }

    /// A pattern that the state lists, by its place in the list.
    pub fn pattern(&self, sid: StateID, index: usize) -> PatternID
        requires sound { IsSoundStates self.now }
        requires state { IsStateNumber self.now sid }
        requires within { index < length (list_of_state self.now sid) }
        ensures pattern { slice_get (list_of_state self.now sid) index ≡ Some result }
    {
        let pattern = self.lists[self.places[sid.as_usize()].as_usize() + 1 + index];
        PatternID::new_unchecked(pattern.as_usize())
    }

    /// The bytes of memory, by stated sizes.
    pub fn memory_usage(&self) -> usize
        requires sound { IsSoundStates self.now }
        ensures memory { result ≡ states_memory self.now }
        ensures bound { result < 2 ^ 62 }
    {
        let states = self.firsts.len() + self.depths.len() + self.fails.len() + self.places.len();
        4 * (states + (self.rows.len() + self.lists.len())) + self.bytes.len()
    }

    /// How many patterns the state lists.
    pub fn list_len(&self, sid: StateID) -> usize
        requires sound { IsSoundStates self.now }
        requires state { IsStateNumber self.now sid }
        ensures len { result ≡ length (list_of_state self.now sid) }
    {
        self.lists[self.places[sid.as_usize()].as_usize()].as_usize()
    }

    /// The most patterns that a state lists.
    pub fn most_listed(&self) -> usize
        requires sound { IsSoundStates self.now }
        ensures all { (sid : ℕ) → IsStateNumber self.now sid → length (list_of_state self.now sid) ≤ result }
        ensures some { (sid : ℕ) × IsStateNumber self.now sid × (length (list_of_state self.now sid) ≡ result) }
    {
        let mut most = self.list_len(ROOT);
        for index in 0..self.places.len() {
            most = most.max(self.list_len(StateID::new_unchecked(index)));
        }
        most
    }

    /// The same states once more.
    ///
    /// # Errors
    ///
    /// Out of memory.
    pub fn try_clone(&self) -> Result<States, AllocError>
        ensures same { IfOk result (λ states. states ≡ self.now) }
    {
        Ok(States {
            firsts: self.firsts.clone()?,
            bytes: self.bytes.clone()?,
            depths: self.depths.clone()?,
            fails: self.fails.clone()?,
            rows: self.rows.clone()?,
            row_count: self.row_count,
            places: self.places.clone()?,
            lists: self.lists.clone()?,
            ignore_case: self.ignore_case,
        })
    }
}
