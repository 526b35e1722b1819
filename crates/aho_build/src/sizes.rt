//! The sizes of an automaton's tables: their bytes, and laws, each the contract of a function that does nothing.

ghost use Rattle.std.specs.Prelude.{◌≡◌, ◌≢◌, ◌+◌, ◌<◌, ◌≤◌, ◌^◌, ◌↔◌, true, List, ℕ, [], length};
ghost use Rattle.aho_core.specs.Listing.{IsMember, IsListedBy};
ghost use Rattle.aho_core.specs.Patterns.{Patterns};
ghost use Rattle.aho_core.specs.Trie.{is_node};
ghost use Rattle.aho_core.specs.Numbers.{greatest_index};
ghost use Rattle.aho_build.specs.Automaton.{memory_of};
ghost use Rattle.aho_build.specs.Sizes.{nodes};

use aho_core::search::SmallIndex;
use aho_table::links::Table;

/// The stated bytes of a state.
const STATE_BYTES: usize = 20;
/// Those of a transition.
const TRANSITION_BYTES: usize = 9;
/// Those of a listed pattern.
const MATCH_BYTES: usize = 8;
/// Those of an entry of a dense row.
const ENTRY_BYTES: usize = 4;
/// Those of a pattern's length.
const LENGTH_BYTES: usize = 4;

/// The bytes of an automaton's table and of its patterns' lengths, by stated sizes, whatever the vectors take.
pub fn tables_bytes(table: &Table, lengths: &[SmallIndex]) -> usize
    requires few { length lengths.now ≤ greatest_index + 1 }
    ensures bytes { result ≡ memory_of table.now lengths.now }
    ensures bound { result < 2 ^ 40 }
{
    STATE_BYTES * table.len()
        + TRANSITION_BYTES * table.transitions_count()
        + MATCH_BYTES * table.matches_count()
        + ENTRY_BYTES * table.dense_len()
        + LENGTH_BYTES * lengths.len()
}

/// The nodes that the sizes count are the nonempty nodes of the trie, each once.
pub fn nodes_are_counted_once()
    ensures members { (p : Patterns) (word : List ℕ)
        → (IsMember (nodes p) word ↔ ((word ≢ []) × (is_node p word ≡ true))) }
    ensures once { (p : Patterns) → IsListedBy (λ x y. x ≢ y) (nodes p) }
{}
