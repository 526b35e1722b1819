//! What both stores do: a step along a list, and a refusal.

ghost use Rattle.std.specs.Prelude.{true, ◌↔◌, ◌⊎◌, ◌<◌, ◌≡◌, ◌+◌, ◌≤◌};
ghost use Rattle.aho_core.specs.Numbers.{greatest_index};
ghost use Rattle.aho_core.specs.declared.error.BuildError.TheVariants.{StateIDOverflow};
ghost use Rattle.aho_table.specs.Rings.{place_after as after_place, IsBesideBehind};

use aho_core::error::BuildError;
use aho_core::search::StateID;

/// Where a walk goes from the entry at this place, which links to `link`: to the end where the list ends there.
pub(crate) fn place_after(link: StateID, at: StateID, last: StateID) -> Option<StateID>
    ensures place { result ≡ after_place link at last }
{
    if at.as_usize() == last.as_usize() {
        None
    } else {
        Some(link)
    }
}

/// The refusal of an index above the limit.
pub(crate) fn overflow(limit: usize) -> BuildError
    requires small { limit ≤ greatest_index }
    ensures overflow { result ≡ StateIDOverflow (limit) (limit + 1) }
{
    BuildError::StateIDOverflow {
        max: limit as u64,
        requested: limit as u64 + 1,
    }
}

/// How far the entries of the lists lie side by side, once the entry at this place of a list links to one more at the end,
/// `made`, whose key is above all others of the list or not. They did so below `beside`.
pub(crate) fn beside_behind(
    beside: usize,
    list: StateID,
    place: StateID,
    made: StateID,
    above: bool,
) -> usize
    ensures now { IsBesideBehind beside list place made above result }
{
    let place = place.as_usize();
    let made = made.as_usize();
    if above && place == list.as_usize() && beside == made && place + 1 == made {
        return made + 1;
    }
    beside.min(place)
}

/// The same, once an entry stands at the end, `made`, that is the last of its list.
pub(crate) fn beside_alone(beside: usize, made: StateID) -> usize
    ensures now { (result ≡ beside) ⊎ ((beside ≡ made) × (result ≡ made + 1)) }
{
    let made = made.as_usize();
    if beside == made {
        return made + 1;
    }
    beside
}

/// Whether the entries of the list from `first` to `last` lie side by side.
pub(crate) fn are_beside(beside: usize, first: StateID, last: StateID) -> bool
    ensures beside { (result ≡ true) ↔ ((last < beside) × (first ≤ last)) }
{
    last.as_usize() < beside && first.as_usize() <= last.as_usize()
}
