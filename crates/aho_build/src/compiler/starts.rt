//! The numbers of the two starts while a table is built: the first that are given after DEAD and FAIL.

ghost use Rattle.std.specs.Prelude.{◌≡◌};
ghost use Rattle.aho_build.specs.FirstStates.{root_id, anchored_id};

use aho_core::search::StateID;

/// The root of the trie, from which each pattern's bytes are led: the start of the searches that are not anchored.
pub fn unanchored_start() -> StateID
    ensures start { result ≡ root_id }
{
    StateID::new_unchecked(2)
}

/// The start of the anchored searches.
pub fn anchored_start() -> StateID
    ensures start { result ≡ anchored_id }
{
    StateID::new_unchecked(3)
}
