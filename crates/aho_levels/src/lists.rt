//! The lists of all states: a state's own patterns and then those of its link; the link's own list where it has none.

ghost use Rattle.std.specs.Prelude.{◌≡◌, ◌+◌, ◌<◌, ◌≤◌, ◌++◌, ◌∷◌, ℕ, List, Option, [], length, slice_index_or, IfErr, IfOk, OnOk};
ghost use Rattle.aho_core.specs.Numbers.{greatest_index};
ghost use Rattle.aho_core.specs.Patterns.{Patterns};
ghost use Rattle.aho_levels.specs.Building.{AreOwns, HasSameLinks, IsLevelsRefusal};
ghost use Rattle.aho_levels.specs.Layout.{CanStepThrough, IsSoundStates, list_at_place};
ghost use Rattle.aho_levels.specs.Listing.{AreListedTo, list_with, numbers_of};
ghost use Rattle.aho_levels.specs.Meaning.{NamesAll, LeadsAsWords};

use crate::links::past_owns;
use crate::states::States;
use crate::trie::Own;
use aho_core::error::BuildError;
use aho_core::search::{SmallIndex, StateID};

/// The lists of all states, each made once.
///
/// # Errors
///
/// `StateIDOverflow` where the lists together are longer than there are indexes; or `OutOfMemory`.
pub fn list_patterns(states: &mut States, owns: &[Own]) -> Result<(), BuildError>
    requires can { CanStepThrough states.old }
    requires all { length states.old.fails ≡ length states.old.bytes }
    ensures lists { OnOk result ((p : Patterns) (names : List (Option (List ℕ)))
        → AreOwns p names owns.now → LeadsAsWords p states.old names → NamesAll p states.new names) }
    ensures sound { OnOk result (IsSoundStates states.new) }
    ensures same { OnOk result (HasSameLinks states.old states.new) }
    ensures refused { IfErr result IsLevelsRefusal }
{
    list_none(states)?;
    let mut own = 0;
    for index in 1..states.bytes.len() {
        own = list_state(states, owns, own, index)?;
    }
    Ok(())
}

/// The empty list at the front, that of the dead state, and no other one.
fn list_none(states: &mut States) -> Result<(), BuildError>
    ensures places { OnOk result (states.new.places ≡ 0 ∷ []) }
    ensures lists { OnOk result (states.new.lists ≡ 0 ∷ []) }
    ensures same { OnOk result (HasSameLinks states.old states.new) }
    ensures refused { IfErr result IsLevelsRefusal }
{
    states.lists.clear();
    states.places.clear();
    push(&mut states.lists, SmallIndex::new_unchecked(0))?;
    push(&mut states.places, SmallIndex::new_unchecked(0))
}

/// The list of one state more. Answers which pattern ends next.
fn list_state(
    states: &mut States,
    owns: &[Own],
    own: usize,
    index: usize,
) -> Result<usize, BuildError>
    requires can { CanStepThrough states.old }
    requires all { length states.old.fails ≡ length states.old.bytes }
    requires some { 0 < index }
    requires within { index < length states.old.bytes }
    requires listed { AreListedTo owns.now own index states.old }
    ensures listed { IfOk result (λ next. AreListedTo owns.now next (index + 1) states.new) }
    ensures same { IfOk result (λ _. HasSameLinks states.old states.new) }
    ensures refused { IfErr result IsLevelsRefusal }
{
    let linked = states.places[states.fails[index].as_usize()];
    let next = past_owns(owns, own, StateID::new_unchecked(index));
    if next == own {
        push(&mut states.places, linked)?;
        return Ok(next);
    }
    let place = add_list(&mut states.lists, &owns[own..next], linked)?;
    push(&mut states.places, place)?;
    Ok(next)
}

/// A list at the end of all: these patterns, and then those of the list that stands here. Answers its place.
fn add_list(
    lists: &mut Vec<SmallIndex>,
    owns: &[Own],
    linked: SmallIndex,
) -> Result<SmallIndex, BuildError>
    requires within { linked + slice_index_or lists.old.items linked 0 < length lists.old.items }
    ensures place { IfOk result (λ place. place ≡ length lists.old.items) }
    ensures added { IfOk result (λ _. lists.new.items ≡ lists.old.items
        ++ length (list_with owns.now lists.old.items linked) ∷ list_with owns.now lists.old.items linked) }
    ensures small { IfOk result (λ _. length lists.new.items ≤ greatest_index + 1) }
    ensures refused { IfErr result IsLevelsRefusal }
{
    let place = small(lists.len())?;
    push(lists, SmallIndex::new_unchecked(0))?;
    push_owns(lists, owns)?;
    push_list(lists, linked)?;
    let last = small(lists.len() - 1)?;
    lists[place.as_usize()] = SmallIndex::new_unchecked(last.as_usize() - place.as_usize());
    Ok(place)
}

/// The numbers of these patterns at the end.
fn push_owns(lists: &mut Vec<SmallIndex>, owns: &[Own]) -> Result<(), BuildError>
    ensures pushed { OnOk result (lists.new.items ≡ lists.old.items ++ numbers_of owns.now) }
    ensures refused { IfErr result IsLevelsRefusal }
{
    for own in owns {
        push(lists, SmallIndex::new_unchecked(own.number.as_usize()))?;
    }
    Ok(())
}

/// The list that stands here once more at the end, without its length.
fn push_list(lists: &mut Vec<SmallIndex>, place: SmallIndex) -> Result<(), BuildError>
    requires within { place + slice_index_or lists.old.items place 0 < length lists.old.items }
    ensures pushed { OnOk result (lists.new.items ≡ lists.old.items ++ list_at_place lists.old.items place) }
    ensures refused { IfErr result IsLevelsRefusal }
{
    let from = place.as_usize() + 1;
    let count = lists[place.as_usize()].as_usize();
    for index in 0..count {
        let pattern = lists[from + index];
        push(lists, pattern)?;
    }
    Ok(())
}

/// The index of this number.
fn small(index: usize) -> Result<SmallIndex, BuildError>
    ensures value { IfOk result (λ made. made ≡ index) }
    ensures refused { IfErr result IsLevelsRefusal }
{
    match SmallIndex::new(index) {
        Ok(index) => Ok(index),
        Err(_) => Err(BuildError::StateIDOverflow {
            max: SmallIndex::MAX.as_usize() as u64,
            requested: index as u64,
        }),
    }
}

/// One more at the end.
fn push(list: &mut Vec<SmallIndex>, index: SmallIndex) -> Result<(), BuildError>
    ensures pushed { OnOk result (list.new.items ≡ list.old.items ++ index ∷ []) }
    ensures refused { IfErr result IsLevelsRefusal }
{
    match list.push(index) {
        Ok(()) => Ok(()),
        Err(_) => Err(BuildError::OutOfMemory),
    }
}
