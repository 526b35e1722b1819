//! The lists of patterns of all states, each once: a state that lists what its link lists has that list's place.

ghost use Rattle.std.specs.Prelude.{◌≡◌, ◌+◌, ◌<◌, ◌≤◌, ◌∷◌, ◌++◌, length, IfOk, IfErr, OnOk};
ghost use Rattle.aho_core.specs.Numbers.{greatest_index};
ghost use Rattle.aho_build.specs.Walking.{IsState};
ghost use Rattle.aho_corasick.specs.ReadOut.{states_of};
ghost use Rattle.aho_table.specs.Table.{matches_in};
ghost use Rattle.aho_hybrid.specs.Filled.{AreOwnLists, AreOwnPlaces, AreListPlaces, AreShared, IsListAt, IsOutOfMemory, IsSharedDown, list_words, lists_size};

use crate::budget::{has_own_list, list_len};
use crate::fill::{push, vec_of};
use aho_automaton::automaton::Automaton;
use aho_corasick::noncontiguous::NFA;
use aho_core::error::BuildError;
use aho_core::search::{SmallIndex, StateID};
use aho_table::links::Matches;
use std::alloc::Global;

/// The lists, and where they stand.
#[derive(Drop)]
pub struct Lists {
    /// For each list its length, and then its patterns; an empty one stands at the front.
    pub words: Vec<SmallIndex>,
    /// Where the list of each state stands, by the number that the `NFA` knows the state by.
    pub places: Vec<SmallIndex>,
}

/// The lists of all states, with room for so many words.
pub fn lists_of(alloc: Global, nfa: &NFA, size: usize) -> Result<Lists, BuildError>
    requires fits { lists_size nfa.now ≤ greatest_index }
    ensures placed { IfOk result (λ lists.
        AreListPlaces (states_of nfa.now) lists.words.items lists.places.items) }
    ensures sized { IfOk result (λ lists. length lists.words.items ≡ lists_size nfa.now) }
    ensures refused { IfErr result IsOutOfMemory }
{
    let mut lists = own_lists(alloc, nfa, size)?;
    share_lists(&mut lists, nfa);
    Ok(lists)
}

/// The lists of all states, where no state has the place of its link's list yet.
fn own_lists(alloc: Global, nfa: &NFA, size: usize) -> Result<Lists, BuildError>
    requires fits { lists_size nfa.now ≤ greatest_index }
    ensures listed { IfOk result (AreOwnLists (states_of nfa.now) (length (states_of nfa.now))) }
    ensures refused { IfErr result IsOutOfMemory }
{
    let mut lists = Lists {
        words: vec_of(alloc, size)?,
        places: vec_of(alloc, nfa.states_len())?,
    };
    push(&mut lists.words, SmallIndex::new_unchecked(0))?;
    for index in 0..nfa.states_len() {
        add_list(&mut lists, nfa, index)?;
    }
    Ok(lists)
}

/// The list of one state more, if it is its own.
fn add_list(lists: &mut Lists, nfa: &NFA, index: usize) -> Result<(), BuildError>
    requires fits { lists_size nfa.now ≤ greatest_index }
    requires within { index < length (states_of nfa.now) }
    requires small { index ≤ greatest_index }
    requires listed { AreOwnLists (states_of nfa.now) index lists.old }
    ensures listed { OnOk result (AreOwnLists (states_of nfa.now) (index + 1) lists.new) }
    ensures refused { IfErr result IsOutOfMemory }
{
    if !has_own_list(nfa, index) {
        push(&mut lists.places, SmallIndex::new_unchecked(0))?;
        return Ok(());
    }
    let place = lists.words.len();
    push(&mut lists.places, SmallIndex::new_unchecked(place))?;
    push_list(&mut lists.words, nfa, StateID::new_unchecked(index))?;
    Ok(())
}

/// The list of a state at the end of the lists, its length first.
fn push_list(words: &mut Vec<SmallIndex>, nfa: &NFA, sid: StateID) -> Result<(), BuildError>
    requires state { IsState (states_of nfa.now) sid }
    requires small { length (matches_in (states_of nfa.now) sid) ≤ greatest_index }
    ensures pushed { OnOk result (words.new.items ≡ words.old.items
        ++ length (matches_in (states_of nfa.now) sid) ∷ matches_in (states_of nfa.now) sid) }
    ensures refused { IfErr result IsOutOfMemory }
{
    push(words, SmallIndex::new_unchecked(nfa.match_len(sid)))?;
    push_patterns(words, nfa.matches(sid))
}

/// These patterns at the end of the lists.
fn push_patterns(lists: &mut Vec<SmallIndex>, matches: Matches<'_>) -> Result<(), BuildError>
    ensures pushed { OnOk result (lists.new.items ≡ lists.old.items ++ matches.entry) }
    ensures refused { IfErr result IsOutOfMemory }
{
    for pattern in matches {
        push(lists, SmallIndex::new_unchecked(pattern.as_usize()))?;
    }
    Ok(())
}

/// Sets the places of the lists that are their links'.
fn share_lists(lists: &mut Lists, nfa: &NFA)
    requires listed { AreOwnPlaces (states_of nfa.now) (length (states_of nfa.now))
        lists.old.words.items lists.old.places.items }
    ensures placed { AreListPlaces (states_of nfa.now) lists.new.words.items lists.new.places.items }
    ensures words { lists.new.words.items ≡ lists.old.words.items }
{
    for index in 0..nfa.states_len() {
        share_list(lists, nfa, index);
    }
}

/// Sets the place of a state's list, if it lists a pattern, and of the same list of the states down its links.
fn share_list(lists: &mut Lists, nfa: &NFA, index: usize)
    requires within { index < length (states_of nfa.now) }
    requires small { index ≤ greatest_index }
    requires listed { AreOwnPlaces (states_of nfa.now) (length (states_of nfa.now))
        lists.old.words.items lists.old.places.items }
    ensures shared { IsSharedDown (states_of nfa.now) index lists.old lists.new }
{
    if list_len(nfa, index) == 0 {
        return;
    }
    let sid = StateID::new_unchecked(index);
    let place = place_below(lists, nfa, sid);
    set_places(lists, nfa, sid, place);
}

/// The place of a state's list: that of the first state down its links that has one.
fn place_below(lists: &Lists, nfa: &NFA, from: StateID) -> SmallIndex
    requires state { IsState (states_of nfa.now) from }
    requires lists { 0 < length (matches_in (states_of nfa.now) from) }
    requires listed { AreOwnPlaces (states_of nfa.now) (length (states_of nfa.now))
        lists.now.words.items lists.now.places.items }
    ensures some { 0 < result }
    ensures listed { IsListAt lists.now.words.items result (matches_in (states_of nfa.now) from) }
{
    let mut sid = from;
    'links: loop {
        let place = lists.places[sid.as_usize()];
        if place.as_usize() > 0 {
            return place;
        }
        sid = nfa.fail(sid);
    }
}

/// Sets the place of a state's list for that state and those down its links, to the first that has one.
fn set_places(lists: &mut Lists, nfa: &NFA, from: StateID, place: SmallIndex)
    requires state { IsState (states_of nfa.now) from }
    requires lists { 0 < length (matches_in (states_of nfa.now) from) }
    requires listed { AreOwnPlaces (states_of nfa.now) (length (states_of nfa.now))
        lists.old.words.items lists.old.places.items }
    requires some { 0 < place }
    requires placed { IsListAt lists.old.words.items place (matches_in (states_of nfa.now) from) }
    ensures shared { IsSharedDown (states_of nfa.now) from lists.old lists.new }
{
    let mut sid = from;
    'links: loop {
        if lists.places[sid.as_usize()].as_usize() > 0 {
            return;
        }
        lists.places[sid.as_usize()] = place;
        sid = nfa.fail(sid);
    }
}
