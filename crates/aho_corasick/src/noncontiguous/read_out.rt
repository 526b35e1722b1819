//! What an automaton tells of its states, for whoever makes another one from it.

ghost use Rattle.std.specs.Prelude.{◌≡◌, ◌+◌, ℕ, ◌<◌, ◌≤◌, List, length, map, Ok, Option, is_some};
ghost use Rattle.aho_core.specs.MatchList.{matches_of};
ghost use Rattle.aho_core.specs.Numbers.{greatest_index};
ghost use Rattle.aho_core.specs.Patterns.{Patterns};
ghost use Rattle.aho_core.specs.Step.{depth_of};
ghost use Rattle.aho_core.specs.declared.search.Anchored.TheVariants.{No, Yes};
ghost use Rattle.aho_build.specs.Dense.{HasBorders};
ghost use Rattle.aho_build.specs.Shuffled.{IsInOrder};
ghost use Rattle.aho_build.specs.Sizes.{states_size};
ghost use Rattle.aho_build.specs.StateNames.{IsStateOf};
ghost use Rattle.aho_build.specs.Walking.{IsSound, AreStarts};
ghost use Rattle.aho_prefilter.specs.Prefilter.{has_empty};
ghost use Rattle.aho_corasick.specs.ReadOut.{states_of, special_of, classes_of, ByWords, IsNaming, word_of_state, link_of, LeadsAsWord};
ghost use Rattle.aho_table.specs.Table.{IsRising, state_at, fail_in, depth_in, matches_in};

use super::NFA;
use aho_automaton::automaton::Automaton;
use aho_build::special::Special;
use aho_core::search::{SmallIndex, StateID};
use aho_table::alphabet::ByteClasses;
use aho_table::links::{Matches, Transitions};

/// The read-out: the states of an automaton, which are numbered from 0 on. DEAD is 0 and FAIL is 1. A number that is passed
/// is below `states_len`. None of these calls takes memory.
///
/// Each call says two things: what it answers of the states that are read out, and what that is in the words of the
/// patterns, by whatever list of patterns the automaton is of and whatever naming of its states by the words of their trie.
impl NFA {
    /// How many states there are: DEAD, FAIL, the two starts, and one for each nonempty word that begins a kept pattern.
    pub fn states_len(&self) -> usize
        ensures len { result ≡ length (states_of self.now) }
        ensures bound { result ≤ greatest_index + 1 }
        ensures size { (p : Patterns) → ⟦<NFA as Automaton>⟧.is_of self.now p
            → result ≡ states_size p }
        ensures named { (p : Patterns) → ⟦<NFA as Automaton>⟧.is_of self.now p
            → (names : List (Option (List ℕ))) × IsNaming self.now p names }
        ensures sound { IsSound (states_of self.now) }
    {
        self.table.len()
    }

    /// How far the state is from the start: the length of its word, and 0 for DEAD, FAIL and both starts.
    pub fn depth(&self, sid: StateID) -> usize
        requires within { sid < length (states_of self.now) }
        ensures depth { result ≡ depth_in (states_of self.now) sid }
        ensures bound { result ≤ greatest_index }
        ensures of_word { ByWords self.now (λ p names.
            result ≡ depth_of (word_of_state self.now names sid)) }
    {
        self.table.depth(sid)
    }

    /// Where the state leads on failure: the state of the longest proper suffix of its word that is a node, or DEAD where the
    /// kind chooses by the start of a match and a pattern occurs before that suffix. DEAD for DEAD, FAIL and both starts.
    pub fn fail(&self, sid: StateID) -> StateID
        requires within { sid < length (states_of self.now) }
        ensures fail { result ≡ fail_in (states_of self.now) sid }
        ensures of_word { ByWords self.now (λ p names.
            IsStateOf names (link_of p (word_of_state self.now names sid)) result) }
    {
        self.table.fail(sid)
    }

    /// The bytes that the state takes, rising, each with the state that it leads to. DEAD leads to itself by every byte, and
    /// FAIL nowhere. A start takes every byte: one that begins no kept pattern leads the unanchored start back to itself, or
    /// to DEAD where the kind chooses by the start of a match and a pattern is empty, and the anchored start to FAIL.
    pub fn transitions(&self, sid: StateID) -> Transitions<'_>
        requires within { sid < length (states_of self.now) }
        ensures listed { result ≡ (state_at (states_of self.now) sid).transitions }
        ensures rising { IsRising result }
        ensures of_word { ByWords self.now (λ p names. LeadsAsWord self.now p names sid result) }
    {
        self.table.transitions(sid)
    }

    /// The patterns that the state lists, the best that ends there first; none for DEAD and FAIL.
    pub fn matches(&self, sid: StateID) -> Matches<'_>
        requires within { sid < length (states_of self.now) }
        ensures listed { result ≡ matches_in (states_of self.now) sid }
        ensures of_word { ByWords self.now (λ p names.
            result ≡ matches_of p (word_of_state self.now names sid)) }
    {
        self.table.matches(sid)
    }

    /// The classes of bytes: each byte of a kept pattern, and under the case rule its other case, is one by itself, and so is
    /// each unbroken run of the other bytes.
    pub fn byte_classes(&self) -> &ByteClasses
        ensures classes { result.now ≡ classes_of self.now }
        ensures borders { (p : Patterns) → ⟦<NFA as Automaton>⟧.is_of self.now p
            → HasBorders p result.now }
    {
        self.table.byte_classes()
    }

    /// The lengths of the patterns in bytes, by number; of those that are not kept as well.
    pub fn pattern_lens(&self) -> &[SmallIndex]
        ensures lens { result.now ≡ ⟦<NFA as Automaton>⟧.lengths self.now }
        ensures bound { length result.now ≤ greatest_index + 1 }
        ensures of_patterns { (p : Patterns) → ⟦<NFA as Automaton>⟧.is_of self.now p
            → result.now ≡ map length p.words }
    {
        &self.pattern_lens
    }

    /// The numbers by which it knows its special states: DEAD 0, FAIL 1, the states that list a pattern and are no start, the
    /// unanchored start, the anchored start, the rest.
    pub fn special(&self) -> &Special
        ensures special { result.now ≡ special_of self.now }
        ensures starts { AreStarts (special_of self.now) (states_of self.now) }
        ensures unanchored { ⟦<NFA as Automaton>⟧.start self.now No ≡ Ok result.now.start_unanchored_id }
        ensures anchored { ⟦<NFA as Automaton>⟧.start self.now Yes ≡ Ok result.now.start_anchored_id }
        ensures order { (p : Patterns) → ⟦<NFA as Automaton>⟧.is_of self.now p →
            IsInOrder (has_empty p) (is_some (⟦<NFA as Automaton>⟧.prefilter self.now))
            result.now (⟦<NFA as Automaton>⟧.list self.now) }
    {
        &self.special
    }
}
