//! The numbers of lists of patterns, and the places where the lists stand.
//!
//! Lists are numbered from 1 on as they are laid down, and a vector keeps the place of each. A list that is moved to the end gets a
//! further number there. Whenever a number is given, a pattern more is listed: so there are no more numbers than listed patterns,
//! however many words there are.

ghost use Rattle.std.specs.Prelude.{◌≡◌, ◌⊎◌, ◌+◌, ◌<◌, ◌≤◌, ◌∷◌, ◌++◌, [], ℕ, true, length, take, IfOk, OnOk, OnErr};
ghost use Rattle.aho_table.specs.Lists.{closed_at, IsList, IsOwnNumber};
ghost use Rattle.aho_table.specs.Words.{room, place_at, listed_in, pattern_lists, closed_lists, AreStored, IsListedIn, MayList, StoresMore};

use crate::lists::words::{join_patterns, push_pattern};
use aho_core::search::PatternID;
use std::alloc::AllocError;

/// The place of the list of this number, and 0 for the empty list.
pub(crate) fn place_of(places: &[usize], list: u32) -> usize
    requires known { list ≤ length places.now }
    ensures place { result ≡ place_at places.now list }
{
    if list == 0 {
        return 0;
    }
    places[list as usize - 1]
}

/// A further number, for the list at this place.
fn add_place(places: &mut Vec<usize>, place: usize) -> Result<u32, AllocError>
    requires few { length places.old.items < room }
    ensures number { IfOk result (λ made. made ≡ length places.old.items + 1) }
    ensures added { OnOk result (places.new.items ≡ places.old.items ++ place ∷ []) }
    ensures unchanged { OnErr result (places.new.items ≡ places.old.items) }
{
    places.push(place)?;
    Ok(places.len() as u32)
}

/// A further number, for a list that was laid down at this place behind so many words. Where there is no memory for it, the
/// list is gone again.
fn add_number(
    words: &mut Vec<u32>,
    places: &mut Vec<usize>,
    before: usize,
    place: usize,
) -> Result<u32, AllocError>
    requires few { length places.old.items < room }
    ensures number { IfOk result (λ made. made ≡ length places.old.items + 1) }
    ensures added { OnOk result (places.new.items ≡ places.old.items ++ place ∷ []) }
    ensures kept { OnOk result (words.new.items ≡ words.old.items) }
    ensures gone { OnErr result (words.new.items ≡ take before words.old.items) }
    ensures unchanged { OnErr result (places.new.items ≡ places.old.items) }
{
    match add_place(places, place) {
        Ok(made) => Ok(made),
        Err(error) => {
            words.truncate(before);
            Err(error)
        }
    }
}

/// The pattern is added at the end of the list of this number. Answers the list's number then.
///
/// # Errors
///
/// Out of memory. Words and places are then unchanged.
pub(crate) fn push_listed(
    words: &mut Vec<u32>,
    places: &mut Vec<usize>,
    list: u32,
    pattern: PatternID,
) -> Result<u32, AllocError>
    requires stored { MayList words.old.items places.old.items 1 }
    requires known { IsList (pattern_lists words.old.items places.old.items) list }
    ensures listed { IfOk result (λ made. IsListedIn words.old.items places.old.items
        words.new.items places.new.items list made
        (listed_in words.old.items places.old.items list ++ pattern ∷ [])) }
    ensures number { IfOk result
        (IsOwnNumber (pattern_lists words.old.items places.old.items) list) }
    ensures stored { OnOk result ((count limit : ℕ)
        → AreStored words.old.items places.old.items count limit → count ≤ limit
        → AreStored words.new.items places.new.items (count + 1) limit) }
    ensures unchanged { OnErr result (words.new.items ≡ words.old.items) }
    ensures same_places { OnErr result (places.new.items ≡ places.old.items) }
{
    let from = place_of(places, list);
    let before = words.len();
    let place = push_pattern(words, from, pattern)?;
    if place == from {
        return Ok(list);
    }
    add_number(words, places, before, place)
}

/// The patterns of the other list are added at the end of the list of this number. Answers the list's number then. The empty
/// list becomes the other one, which is closed.
///
/// # Errors
///
/// Out of memory. Words and places are then unchanged.
pub(crate) fn join_listed(
    words: &mut Vec<u32>,
    places: &mut Vec<usize>,
    list: u32,
    other: u32,
) -> Result<u32, AllocError>
    requires stored { MayList words.old.items places.old.items
        (length (listed_in words.old.items places.old.items other)) }
    requires known { IsList (pattern_lists words.old.items places.old.items) list }
    requires other { IsList (pattern_lists words.old.items places.old.items) other }
    requires some { 0 < length (listed_in words.old.items places.old.items other) }
    ensures listed { IfOk result (λ made. IsListedIn words.old.items places.old.items
        words.new.items places.new.items list made
        (listed_in words.old.items places.old.items list
        ++ listed_in words.old.items places.old.items other)) }
    ensures number { IfOk result (λ made.
        IsOwnNumber (pattern_lists words.old.items places.old.items) list made
        ⊎ ((made ≡ other) × (closed_at (closed_lists words.new.items places.new.items) made ≡ true))) }
    ensures stored { OnOk result (StoresMore words.old.items places.old.items
        words.new.items places.new.items (length (listed_in words.old.items places.old.items other))) }
    ensures unchanged { OnErr result (words.new.items ≡ words.old.items) }
    ensures same_places { OnErr result (places.new.items ≡ places.old.items) }
{
    let from = place_of(places, list);
    let shared = place_of(places, other);
    let before = words.len();
    let place = join_patterns(words, from, shared)?;
    if place == shared {
        return Ok(other);
    }
    add_number(words, places, before, place)
}
