//! Lists of patterns in one vector.
//!
//! The patterns of a list stand side by side. A list that grows is moved to the end, unless there is room behind it; then there
//! is room for as many patterns again. So a pattern is added in constant time, over many of them. A list's number, which its
//! caller keeps, leads to the place of its first pattern; 0 is the number of the empty list.
//!
//! The empty list joined with another shares it: no pattern is copied. The list is closed then, which means that it is moved
//! when one of its owners adds a pattern, and the others keep what they have.

ghost use Rattle.std.specs.Prelude.{◌≡◌, ◌⊎◌, ◌≤◌, ◌+◌, ◌<◌, ◌∷◌, ◌++◌, [], true, false, length, IfOk, IfErr, OnOk, OnErr, min, slice_get};
ghost use Rattle.std.specs.List.{All};
ghost use Rattle.std.specs.Iterator.{YieldsFirst, item_count};
ghost use Rattle.aho_core.specs.Numbers.{greatest_index};
ghost use Rattle.aho_table.specs.Refusal.{refusal_at, IsRefusalOf};
ghost use Rattle.aho_table.specs.Lists.{list_at, closed_at, IsList, IsListed, IsOwnNumber};

use crate::lists::numbers::{join_listed, place_of, push_listed};
use crate::lists::places::overflow;
use crate::lists::words::{len_at, pattern_at, words_from};
use aho_core::error::BuildError;
use aho_core::search::{PatternID, SmallIndex};
use std::alloc::{AllocError, Global};
use std::iter::FusedIterator;
use std::marker::Model;

/// Lists of patterns.
///
/// Each pattern that was listed has an index, from 1 on; it is at most the limit.
#[derive(Drop)]
pub struct MatchLists {
    words: Vec<u32>,
    /// Where the lists stand among the words, by their numbers from 1 on.
    places: Vec<usize>,
    /// How many patterns were listed, and one.
    count: usize,
    limit: usize,
}

impl Model for MatchLists {
    ghost use Rattle.aho_table.specs.Lists.{PatternLists};
    ghost use Rattle.aho_table.specs.Words.{pattern_store, AreStored};

    ghost Value = { PatternLists };

    ghost view = { λ s. pattern_store s.words.items s.places.items s.count s.limit };

    ghost invariant = { λ s. AreStored s.words.items s.places.items s.count s.limit };
}

impl MatchLists {
    /// No lists yet, of indexes that are at most `limit`; a greater limit counts as `SmallIndex::MAX`. It takes no memory.
    pub fn new(alloc: Global, limit: usize) -> MatchLists
        ensures empty { result ≡ record { lists = [] ∷ []; closed = false ∷ []; count = 1; limit = min limit greatest_index } }
    {
        MatchLists {
            words: Vec::new(alloc),
            places: Vec::new(alloc),
            count: 1,
            limit: limit.min(SmallIndex::MAX.as_usize()),
        }
    }

    /// How many patterns were listed, and one.
    pub fn len(&self) -> usize
        ensures len { result ≡ self.now.count }
        ensures bound { result ≤ greatest_index + 1 }
    {
        self.count
    }

    /// What is true of every store, for a proof to cite. The call does nothing.
    pub fn facts(&self)
        ensures some { 0 < length self.now.lists }
        ensures within { self.now.count ≤ self.now.limit + 1 }
        ensures small { self.now.limit ≤ greatest_index }
        ensures empty { list_at self.now.lists 0 ≡ [] }
    {
        let _words = &self.words;
    }

    /// The pattern is added at the end of the list of this number. Answers the list's number then.
    ///
    /// # Errors
    ///
    /// `StateIDOverflow` where one pattern more has an index above the limit; else out of memory. The store is then
    /// unchanged.
    pub fn push(&mut self, list: u32, pattern: PatternID) -> Result<u32, BuildError>
        requires known { IsList self.old.lists list }
        ensures listed { IfOk result (λ made. IsListed self.old self.new list made
            (list_at self.old.lists list ++ pattern ∷ [])) }
        ensures number { IfOk result (λ made. IsOwnNumber self.old.lists list made) }
        ensures limit { OnOk result (self.new.limit ≡ self.old.limit) }
        ensures counted { OnOk result (self.new.count ≡ self.old.count + 1) }
        ensures within { OnOk result (self.new.count ≤ self.old.limit + 1) }
        ensures refused { IfErr result
            (λ error. error ≡ refusal_at self.old.limit self.old.count) }
        ensures unchanged { OnErr result (self.new ≡ self.old) }
    {
        if self.count > self.limit {
            return Err(overflow(self.limit));
        }
        let Ok(made) = push_listed(&mut self.words, &mut self.places, list, pattern) else {
            return Err(BuildError::OutOfMemory);
        };
        self.count += 1;
        Ok(made)
    }

    /// The patterns of the other list are added at the end of the list of this number. Answers the list's number then. Where
    /// the list was empty, that is the number of the other one, which both share from then on.
    ///
    /// # Errors
    ///
    /// `StateIDOverflow` where so many patterns more have an index above the limit; else out of memory. The store is then
    /// unchanged.
    pub fn join(&mut self, list: u32, other: u32) -> Result<u32, BuildError>
        requires known { IsList self.old.lists list }
        requires other { IsList self.old.lists other }
        ensures listed { IfOk result (λ made. IsListed self.old self.new list made
            (list_at self.old.lists list ++ list_at self.old.lists other)) }
        ensures number { IfOk result (λ made. IsOwnNumber self.old.lists list made
            ⊎ ((made ≡ other) × (closed_at self.new.closed made ≡ true))) }
        ensures limit { OnOk result (self.new.limit ≡ self.old.limit) }
        ensures counted { OnOk result
            (self.new.count ≡ self.old.count + length (list_at self.old.lists other)) }
        ensures refused { IfErr result
            (IsRefusalOf self.old.limit (self.old.count + length (list_at self.old.lists other))) }
        ensures unchanged { OnErr result (self.new ≡ self.old) }
    {
        let more = self.len_of(other);
        if more == 0 {
            return Ok(list);
        }
        if self.count + more > self.limit + 1 {
            return Err(overflow(self.limit));
        }
        let Ok(made) = join_listed(&mut self.words, &mut self.places, list, other) else {
            return Err(BuildError::OutOfMemory);
        };
        self.count += more;
        Ok(made)
    }

    /// How many patterns the list of this number has.
    pub fn len_of(&self, list: u32) -> usize
        requires known { IsList self.now.lists list }
        ensures len { result ≡ length (list_at self.now.lists list) }
    {
        len_at(&self.words, place_of(&self.places, list))
    }

    /// The pattern of this place in the list of this number.
    pub fn get(&self, list: u32, index: usize) -> PatternID
        requires known { IsList self.now.lists list }
        requires within { index < length (list_at self.now.lists list) }
        ensures listed { slice_get (list_at self.now.lists list) index ≡ Some result }
    {
        pattern_at(&self.words, place_of(&self.places, list), index)
    }

    /// An equal store, in memory of its own.
    ///
    /// # Errors
    ///
    /// Out of memory.
    pub fn try_clone(&self, alloc: Global) -> Result<MatchLists, AllocError>
        ensures same { IfOk result (λ store. store ≡ self.now) }
    {
        Ok(MatchLists {
            words: Vec::from_slice(alloc, &self.words)?,
            places: Vec::from_slice(alloc, &self.places)?,
            count: self.count,
            limit: self.limit,
        })
    }

    /// The patterns of the list of this number, in the order of their listing.
    pub fn iter(&self, list: u32) -> Matches<'_>
        requires known { IsList self.now.lists list }
        ensures listed { result ≡ list_at self.now.lists list }
    {
        let place = place_of(&self.places, list);
        let count = len_at(&self.words, place);
        Matches {
            rest: words_from(&self.words, place, count),
        }
    }
}

/// The patterns of a list, in the order of their listing.
///
/// It is seen as the list of those that are left.
#[derive(Drop)]
pub struct Matches<'t> {
    rest: &'t [u32],
}

impl<'t> Model for Matches<'t> {
    ghost use Rattle.std.specs.Prelude.{ℕ, List, ◌≤◌};
    ghost use Rattle.std.specs.List.{All};
    ghost use Rattle.aho_core.specs.Numbers.{greatest_index};

    ghost Value = { List ℕ };

    ghost view = { λ it. it.rest.now };

    ghost invariant = { λ it. All (λ (word : ℕ). word ≤ greatest_index) it.rest.now };
}

impl<'t> Iterator for Matches<'t> {
    type Item = PatternID;

    ghost next_gives = { YieldsFirst (λ rest. rest) };

    ghost remaining = { item_count (λ rest. rest) };

    fn next(&mut self) -> Option<PatternID> {
        let (first, rest) = self.rest.split_first()?;
        let pattern = PatternID::new_unchecked(*first as usize);
        self.rest = rest;
        Some(pattern)
    }
}

impl<'t> FusedIterator for Matches<'t> {}
