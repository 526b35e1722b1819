//! Lists of transitions in one vector, each rising by byte.
//!
//! An entry links to the next of its list, and the last one back to the first. A list's number is the index of its last
//! entry, which its caller keeps; 0 is the number of the empty list. So an entry can be added at either end in constant
//! time, and a walk towards a byte that is not above the last one needs no test for the list's end.

ghost use Rattle.std.specs.Prelude.{◌≡◌, ℕ, ◌≢◌, ◌+◌, ◌<◌, ◌≤◌, ◌∷◌, ◌++◌, [], length, true, IsOk, IfOk, IfErr, OnOk, OnErr, min, slice_get, unwrap_or};
ghost use Rattle.std.specs.Iterator.{YieldsFirst, item_count};
ghost use Rattle.aho_core.specs.Numbers.{greatest_index};
ghost use Rattle.aho_table.specs.Refusal.{refusal_at};
ghost use Rattle.aho_table.specs.Rings.{AreRings, AreSideBySide, IsRun};
ghost use Rattle.aho_table.specs.Lists.{list_at, IsList};
ghost use Rattle.aho_table.specs.TransitionList.{transition_at, with_transition, lists_transition, IsRising, number_after, set_transition_in};
ghost use Rattle.aho_table.specs.ListsInside.{with_first, transition_of, transition_entries, IsGapBehind, IsOn, redirected, relinked, linked_behind, IsEntryLed};
ghost use Rattle.aho_table.specs.Renaming.{IsTransitionLed};
ghost use Rattle.std.specs.List.{AllZip};

use crate::lists::places::{are_beside, beside_alone, beside_behind, overflow, place_after};
use crate::lists::renumber::renamed;
use aho_core::error::BuildError;
use aho_core::search::{SmallIndex, StateID};
use std::alloc::{AllocError, Global};
use std::iter::FusedIterator;
use std::marker::Model;

/// What a list answers for a byte that it has no entry of.
pub const FAIL: StateID = StateID::ONE;

/// An entry: the byte, the state that it leads to, and the next entry of the list.
#[derive(Clone, Copy)]
struct Transition {
    byte: u8,
    next: StateID,
    link: StateID,
}

/// Lists of transitions.
///
/// An index of an entry is at most the limit. Index 0 is taken by an entry of no list, which comes with the first one of a list.
#[derive(Drop)]
pub struct TransitionLists {
    /// None, or those of the lists behind the one at index 0.
    entries: Vec<Transition>,
    /// Below this index the entries of a list lie side by side: one that is not the last links to the next index.
    beside: usize,
    limit: usize,
}

impl Model for TransitionLists {
    ghost use Rattle.std.specs.Prelude.{ℕ, length};
    ghost use Rattle.aho_table.specs.Rings.{lists_of, AreSideBySide};
    ghost use Rattle.aho_table.specs.Lists.{Lists};
    ghost use Rattle.aho_table.specs.ListsInside.{transition_entries, with_first, IsStore};

    ghost Value = { Lists (ℕ × ℕ) };

    ghost view = { λ s. record {
      lists = lists_of (transition_entries (with_first s.entries.items)) (length (with_first s.entries.items));
      limit = s.limit;
    } };

    ghost invariant = { λ s.
        IsStore (transition_entries (with_first s.entries.items)) (length (with_first s.entries.items)) s.limit
        × AreSideBySide (transition_entries (with_first s.entries.items)) (length (with_first s.entries.items)) s.beside };
}

impl TransitionLists {
    /// No lists yet, of indexes that are at most `limit`; a greater limit counts as `SmallIndex::MAX`. It takes no memory.
    pub fn new(alloc: Global, limit: usize) -> TransitionLists
        ensures empty { result ≡ record { lists = [] ∷ []; limit = min limit greatest_index } }
    {
        TransitionLists {
            entries: Vec::new(alloc),
            beside: 1,
            limit: limit.min(SmallIndex::MAX.as_usize()),
        }
    }

    /// How many entries the lists have together, and one: the entry at index 0.
    pub fn len(&self) -> usize
        ensures len { result ≡ length self.now.lists }
        ensures bound { result ≤ greatest_index + 1 }
    {
        self.entries.len().max(1)
    }

    /// What is true of every store, for a proof to cite. The call does nothing.
    pub fn facts(&self)
        ensures some { 0 < length self.now.lists }
        ensures within { length self.now.lists ≤ self.now.limit + 1 }
        ensures small { self.now.limit ≤ greatest_index }
        ensures empty { list_at self.now.lists 0 ≡ [] }
        ensures rising { (list : ℕ) → IsRising (list_at self.now.lists list) }
    {
        let _entries = &self.entries;
    }

    /// Where the byte leads by the list of this number, and `FAIL` where it has no entry.
    pub fn follow(&self, list: StateID, byte: u8) -> StateID
        requires known { IsList self.now.lists list }
        ensures next { result ≡ transition_at (list_at self.now.lists list) byte }
    {
        let entries = self.entries.as_slice();
        if list == StateID::ZERO {
            return FAIL;
        }
        match place(entries, self.beside, list, byte) {
            Ok(place) => entry(entries, place).next,
            Err(_) => FAIL,
        }
    }

    /// The byte leads to the state by the list of this number. Answers the list's number, which is another one where the
    /// byte is above all others of the list. A byte that leads somewhere already is led elsewhere, and nothing grows.
    ///
    /// # Errors
    ///
    /// `StateIDOverflow` where one entry more has an index above the limit; else out of memory. The store is then
    /// unchanged.
    pub fn set(&mut self, list: StateID, byte: u8, next: StateID) -> Result<StateID, BuildError>
        requires known { IsList self.old.lists list }
        ensures number { IfOk result (λ made. made ≡ number_after self.old.lists list byte) }
        ensures set { OnOk result (self.new
            ≡ record self.old { lists = set_transition_in self.old.lists list byte next }) }
        ensures changed { IfOk result (λ made. list_at self.new.lists made
            ≡ with_transition (list_at self.old.lists list) byte next) }
        ensures known { IfOk result (λ made. IsList self.new.lists made) }
        ensures others { OnOk result ((other : ℕ) → other < length self.old.lists → other ≢ list
            → list_at self.new.lists other ≡ list_at self.old.lists other) }
        ensures there { lists_transition (list_at self.old.lists list) byte ≡ true → IsOk result }
        ensures within { OnOk result (length self.new.lists ≤ self.old.limit + 1) }
        ensures refused { IfErr result
            (λ error. error ≡ refusal_at self.old.limit (length self.old.lists)) }
        ensures unchanged { OnErr result (self.new ≡ self.old) }
    {
        if list == StateID::ZERO {
            return self.start(byte, next);
        }
        match place(&self.entries, self.beside, list, byte) {
            Ok(place) => {
                redirect(&mut self.entries, place, next);
                Ok(list)
            }
            Err(before) => {
                let above = entry(&self.entries, list).byte < byte;
                let made = insert_behind(&mut self.entries, self.limit, before, byte, next)?;
                self.beside = beside_behind(self.beside, list, before, made, above);
                Ok(if above { made } else { list })
            }
        }
    }

    /// The transitions of the list of this number, rising by byte.
    pub fn iter(&self, list: StateID) -> Transitions<'_>
        requires known { IsList self.now.lists list }
        ensures listed { result ≡ list_at self.now.lists list }
        ensures rising { IsRising result }
    {
        let entries = self.entries.as_slice();
        if list == StateID::ZERO {
            return Transitions {
                entries,
                at: None,
                last: list,
            };
        }
        Transitions {
            entries,
            at: Some(entry(entries, list).link),
            last: list,
        }
    }

    /// How many transitions the list of this number has.
    pub fn len_of(&self, list: StateID) -> usize
        requires known { IsList self.now.lists list }
        ensures len { result ≡ length (list_at self.now.lists list) }
    {
        let entries = self.entries.as_slice();
        if list == StateID::ZERO {
            return 0;
        }
        let end = entry(entries, list);
        let first = end.link;
        if are_beside(self.beside, first, list) {
            return list.as_usize() - first.as_usize() + 1;
        }
        self.iter(list).count()
    }

    /// The transition of this place in the list of this number.
    pub fn get(&self, list: StateID, index: usize) -> (u8, StateID)
        requires known { IsList self.now.lists list }
        requires within { index < length (list_at self.now.lists list) }
        ensures listed { slice_get (list_at self.now.lists list) index ≡ Some result }
    {
        let first = entry(&self.entries, list).link;
        if are_beside(self.beside, first, list) {
            let place = StateID::new_unchecked(first.as_usize() + index);
            let listed = entry(&self.entries, place);
            return (listed.byte, listed.next);
        }
        self.iter(list).nth(index).unwrap()
    }

    /// Each state to which a transition leads is exchanged for the one that the closure answers for it. FAIL names no state,
    /// and stays.
    pub fn rename<F: Fn(StateID) -> StateID>(&mut self, map: &F)
        requires callable { F.IsAlwaysCallable map.now }
        ensures count { length self.new.lists ≡ length self.old.lists }
        ensures limit { self.new.limit ≡ self.old.limit }
        ensures renamed { (list : ℕ) → AllZip (IsTransitionLed (F.post map.now)) (list_at self.old.lists list) (list_at self.new.lists list) }
    {
        rename_entries(&mut self.entries, map);
    }

    /// An equal store, in memory of its own.
    ///
    /// # Errors
    ///
    /// Out of memory.
    pub fn try_clone(&self, alloc: Global) -> Result<TransitionLists, AllocError>
        ensures same { IfOk result (λ store. store ≡ self.now) }
    {
        Ok(TransitionLists {
            entries: Vec::from_slice(alloc, &self.entries)?,
            beside: self.beside,
            limit: self.limit,
        })
    }

    /// A list of one entry.
    fn start(&mut self, byte: u8, next: StateID) -> Result<StateID, BuildError>
        ensures number { IfOk result (λ made. made ≡ length self.old.lists) }
        ensures started { OnOk result
            (self.new ≡ record self.old { lists = self.old.lists ++ ((byte, next) ∷ []) ∷ [] }) }
        ensures empty { list_at self.old.lists 0 ≡ [] }
        ensures within { OnOk result (length self.old.lists ≤ self.old.limit) }
        ensures refused { IfErr result
            (λ error. error ≡ refusal_at self.old.limit (length self.old.lists)) }
        ensures unchanged { OnErr result (self.new ≡ self.old) }
    {
        let made = push_alone(&mut self.entries, self.limit, byte, next)?;
        self.beside = beside_alone(self.beside, made);
        Ok(made)
    }
}

/// The transitions of a list, rising by byte: each a byte and the state that it leads to.
///
/// It is seen as the list of those that are left.
#[derive(Drop)]
pub struct Transitions<'t> {
    entries: &'t [Transition],
    at: Option<StateID>,
    last: StateID,
}

impl<'t> Model for Transitions<'t> {
    ghost use Rattle.std.specs.Prelude.{ℕ, List, length};
    ghost use Rattle.aho_table.specs.Rings.{rest_from, IsWalk};
    ghost use Rattle.aho_table.specs.ListsInside.{transition_entries};

    ghost Value = { List (ℕ × ℕ) };

    ghost view = { λ it. rest_from (transition_entries it.entries.now) it.at it.last };

    ghost invariant = { λ it.
        IsWalk (transition_entries it.entries.now) (length it.entries.now) it.at it.last };
}

impl<'t> Iterator for Transitions<'t> {
    type Item = (u8, StateID);

    ghost next_gives = { YieldsFirst (λ rest. rest) };

    ghost remaining = { item_count (λ rest. rest) };

    fn next(&mut self) -> Option<(u8, StateID)> {
        let Some(at) = self.at else {
            return None;
        };
        let transition = entry(self.entries, at);
        self.at = place_after(transition.link, at, self.last);
        Some((transition.byte, transition.next))
    }
}

impl<'t> FusedIterator for Transitions<'t> {}

/// The place of the byte's entry in the list that ends at `last`; or, where it has none, the place of the entry that it
/// would stand behind. A list of all bytes whose entries lie side by side is read by index.
fn place(entries: &[Transition], beside: usize, last: StateID, byte: u8) -> Result<StateID, StateID>
    requires rings { AreRings (transition_entries entries.now) (length entries.now) }
    requires side_by_side { AreSideBySide (transition_entries entries.now) (length entries.now) beside }
    requires within { last < length entries.now }
    requires some { 0 < last }
    requires ends { (transition_of entries.now (transition_of entries.now last).link).byte
        ≤ (transition_of entries.now last).byte }
    ensures found { IfOk result (IsOn (transition_entries entries.now) last byte) }
    ensures absent { IfErr result (IsGapBehind (transition_entries entries.now) last byte) }
    ensures inside { IfOk result (λ place. place < length entries.now) }
    ensures inside_gap { IfErr result (λ place. place < length entries.now) }
{
    if last.as_usize() < beside {
        let end = entry(entries, last);
        let first = end.link.as_usize();
        if first + 255 == last.as_usize() {
            return Ok(StateID::new_unchecked(first + byte as usize));
        }
    }
    walked_place(entries, last, byte)
}

/// The same, by a walk along the list.
fn walked_place(entries: &[Transition], last: StateID, byte: u8) -> Result<StateID, StateID>
    requires rings { AreRings (transition_entries entries.now) (length entries.now) }
    requires within { last < length entries.now }
    requires some { 0 < last }
    requires ends { (transition_of entries.now (transition_of entries.now last).link).byte
        ≤ (transition_of entries.now last).byte }
    ensures found { IfOk result (IsOn (transition_entries entries.now) last byte) }
    ensures absent { IfErr result (IsGapBehind (transition_entries entries.now) last byte) }
    ensures inside { IfOk result (λ place. place < length entries.now) }
    ensures inside_gap { IfErr result (λ place. place < length entries.now) }
{
    let end = entry(entries, last);
    if end.byte == byte {
        return Ok(last);
    }
    if end.byte < byte {
        return Err(last);
    }
    let mut before = last;
    let mut at = end.link;
    let mut transition = entry(entries, at);
    'walk: while transition.byte < byte {
        before = at;
        at = transition.link;
        transition = entry(entries, at);
    }
    if transition.byte == byte {
        Ok(at)
    } else {
        Err(before)
    }
}

/// The entry at this place.
fn entry(entries: &[Transition], place: StateID) -> Transition
    requires within { place < length entries.now }
    ensures entry { result ≡ transition_of entries.now place }
{
    entries[place.as_usize()]
}

/// One entry more, which links to `link`, or to itself where there is none.
fn push(
    entries: &mut Vec<Transition>,
    limit: usize,
    byte: u8,
    next: StateID,
    link: Option<StateID>,
) -> Result<StateID, BuildError>
    requires small { limit ≤ greatest_index }
    ensures number { IfOk result (λ made. made ≡ length entries.old.items) }
    ensures pushed { OnOk result (entries.new.items ≡ entries.old.items
        ++ record { byte = byte; next = next; link = unwrap_or link (length entries.old.items) } ∷ []) }
    ensures within { OnOk result (length entries.old.items ≤ limit) }
    ensures refused { IfErr result (λ error. error ≡ refusal_at limit (length entries.old.items)) }
    ensures unchanged { OnErr result (entries.new.items ≡ entries.old.items) }
{
    let index = entries.len();
    if index > limit {
        return Err(overflow(limit));
    }
    let made = StateID::new_unchecked(index);
    let link = link.unwrap_or(made);
    if entries.push(Transition { byte, next, link }).is_err() {
        return Err(BuildError::OutOfMemory);
    }
    Ok(made)
}

/// The entry at this place leads to another state.
fn redirect(entries: &mut Vec<Transition>, place: StateID, next: StateID)
    requires place { place < length entries.old.items }
    ensures redirected { entries.new.items ≡ redirected entries.old.items place next }
    ensures count { length entries.new.items ≡ length entries.old.items }
{
    let transition = &mut entries[place.as_usize()];
    transition.next = next;
}

/// The entry at index 0 stands there.
fn add_dummy(entries: &mut Vec<Transition>) -> Result<(), AllocError>
    ensures there { OnOk result (entries.new.items ≡ with_first entries.old.items) }
    ensures unchanged { OnErr result (entries.new.items ≡ entries.old.items) }
{
    if entries.is_empty() {
        let dummy = Transition {
            byte: 0,
            next: FAIL,
            link: StateID::ZERO,
        };
        entries.push(dummy)?;
    }
    Ok(())
}

/// One entry more, which links to itself.
fn push_alone(
    entries: &mut Vec<Transition>,
    limit: usize,
    byte: u8,
    next: StateID,
) -> Result<StateID, BuildError>
    requires small { limit ≤ greatest_index }
    ensures number { IfOk result (λ made. made ≡ length (with_first entries.old.items)) }
    ensures pushed { OnOk result (entries.new.items ≡ with_first entries.old.items
        ++ record { byte = byte; next = next; link = length (with_first entries.old.items) } ∷ []) }
    ensures within { OnOk result (length (with_first entries.old.items) ≤ limit) }
    ensures refused { IfErr result
        (λ error. error ≡ refusal_at limit (length (with_first entries.old.items))) }
    ensures unchanged { OnErr result
        (with_first entries.new.items ≡ with_first entries.old.items) }
{
    if entries.len().max(1) > limit {
        return Err(overflow(limit));
    }
    let Ok(()) = add_dummy(entries) else {
        return Err(BuildError::OutOfMemory);
    };
    push(entries, limit, byte, next, None)
}

/// The entry at this place links to another.
fn relink(entries: &mut Vec<Transition>, place: StateID, link: StateID)
    requires place { place < length entries.old.items }
    ensures relinked { entries.new.items ≡ relinked entries.old.items place link }
    ensures count { length entries.new.items ≡ length entries.old.items }
{
    let transition = &mut entries[place.as_usize()];
    transition.link = link;
}

/// One entry more behind the one at this place, to which that one links.
fn insert_behind(
    entries: &mut Vec<Transition>,
    limit: usize,
    before: StateID,
    byte: u8,
    next: StateID,
) -> Result<StateID, BuildError>
    requires small { limit ≤ greatest_index }
    requires place { before < length entries.old.items }
    ensures number { IfOk result (λ made. made ≡ length entries.old.items) }
    ensures inserted { OnOk result
        (entries.new.items ≡ linked_behind entries.old.items before byte next) }
    ensures count { OnOk result (length entries.new.items ≡ length entries.old.items + 1) }
    ensures within { OnOk result (length entries.old.items ≤ limit) }
    ensures refused { IfErr result (λ error. error ≡ refusal_at limit (length entries.old.items)) }
    ensures unchanged { OnErr result (entries.new.items ≡ entries.old.items) }
{
    let link = entry(entries, before).link;
    let made = push(entries, limit, byte, next, Some(link))?;
    relink(entries, before, made);
    Ok(made)
}

/// Each entry leads to the state that the closure answers for the one to which it led.
fn rename_entries<F: Fn(StateID) -> StateID>(entries: &mut Vec<Transition>, map: &F)
    requires callable { F.IsAlwaysCallable map.now }
    ensures renamed { AllZip (IsEntryLed (F.post map.now)) entries.old.items entries.new.items }
{
    for transition in entries.iter_mut() {
        transition.next = renamed(transition.next, map);
    }
}
