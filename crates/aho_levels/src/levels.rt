//! The automaton.

ghost use Rattle.std.specs.Prelude.{◌≡◌, ◌+◌, ◌<◌, ◌≤◌, ◌^◌, ◌++◌, ◌∷◌, [], ℕ, List, Option, length, map, IfErr, IfOk, OnOk};
ghost use Rattle.aho_core.specs.Patterns.{Patterns};
ghost use Rattle.aho_core.specs.Laws.{shortest, longest};
ghost use Rattle.aho_core.specs.Numbers.{greatest_index};
ghost use Rattle.aho_core.specs.Replacement.{pieces_of};
ghost use Rattle.aho_prefilter.specs.Prefilter.{prefilter_bytes};
ghost use Rattle.aho_levels.specs.Building.{IsLevelsRefusal, IsGrownTrie};
ghost use Rattle.aho_levels.specs.Layout.{IsSoundStates};
ghost use Rattle.aho_levels.specs.Meaning.{NamesAll};
ghost use Rattle.aho_levels.specs.Sorting.{bytes_together};

pub use crate::links::MOST_ROWS;
use crate::links::link_states;
use crate::lists::list_patterns;
use crate::order::in_order;
use crate::states::{DEAD, ROOT, States};
use crate::trie::{Trie, trie_of};
use aho_automaton::automaton::Automaton;
use aho_core::error::{BuildError, MatchError};
use aho_core::search::{Anchored, MatchKind, PatternID, SmallIndex, StateID, Work};
use aho_prefilter::prefilter::Prefilter;
use std::alloc::{AllocError, Global};

/// An automaton of many patterns. It is built in a third of the time and memory of an `NFA` or less, and answers as that does.
#[derive(Drop)]
pub struct Levels {
    match_kind: MatchKind,
    states: States,
    pattern_lens: Vec<SmallIndex>,
    min_pattern_len: usize,
    max_pattern_len: usize,
    prefilter: Option<Prefilter>,
    ghost sound: { IsSoundStates states },
    ghost shortest: { min_pattern_len ≡ shortest pattern_lens.items },
    ghost longest: { max_pattern_len ≡ longest pattern_lens.items },
    ghost counted: { length pattern_lens.items ≤ greatest_index + 1 },
    ghost bounded: { max_pattern_len ≤ greatest_index },
}

impl Levels {
    ghost use Rattle.std.specs.Prelude.{IfSome, Some, true};
    ghost use Rattle.std.specs.List.{All};
    ghost use Rattle.aho_core.specs.MatchList.{matches_of};
    ghost use Rattle.aho_core.specs.Trie.{is_node};
    ghost use Rattle.aho_corasick.specs.Clones.{IsCloneOf};
    ghost use Rattle.aho_prefilter.specs.Prefilter.{IsPrefilterOf};
    ghost use Rattle.aho_levels.specs.Building.{AreOfBytes, patterns_of_kind};
    ghost use Rattle.aho_levels.specs.Meaning.{IsFolded};

    /// The automaton of these patterns, with this prefilter and `MOST_ROWS` rows at most.
    ///
    /// # Errors
    ///
    /// As those of `with_rows`.
    pub fn new(
        alloc: Global,
        kind: MatchKind,
        ignore_case: bool,
        patterns: &[&[u8]],
        prefilter: Option<Prefilter>,
    ) -> Result<Levels, BuildError>
        ensures of { IfOk result (λ made.
            IfSome prefilter (λ searcher. IsPrefilterOf searcher (patterns_of_kind kind ignore_case (pieces_of patterns.now)))
            → ⟦<Levels as Automaton>⟧.is_of made (patterns_of_kind kind ignore_case (pieces_of patterns.now))) }
        ensures held { IfOk result (λ made. ⟦<Levels as Automaton>⟧.prefilter made ≡ prefilter) }
        ensures bytes { IfOk result (λ _. AreOfBytes (patterns_of_kind kind ignore_case (pieces_of patterns.now))) }
        ensures refused { IfErr result IsLevelsRefusal }
    {
        Levels::with_rows(alloc, kind, ignore_case, patterns, prefilter, MOST_ROWS)
    }

    /// The automaton of these patterns, with this prefilter. So many states at most have rows, but the dead one and the root have
    /// rows in any case.
    ///
    /// # Errors
    ///
    /// `StateIDOverflow` where the patterns have more bytes together, or their lists, than there are indexes; or `OutOfMemory`.
    pub fn with_rows(
        alloc: Global,
        kind: MatchKind,
        ignore_case: bool,
        patterns: &[&[u8]],
        prefilter: Option<Prefilter>,
        most_rows: usize,
    ) -> Result<Levels, BuildError>
        ensures of { IfOk result (λ made.
            IfSome prefilter (λ searcher. IsPrefilterOf searcher (patterns_of_kind kind ignore_case (pieces_of patterns.now)))
            → ⟦<Levels as Automaton>⟧.is_of made (patterns_of_kind kind ignore_case (pieces_of patterns.now))) }
        ensures held { IfOk result (λ made. ⟦<Levels as Automaton>⟧.prefilter made ≡ prefilter) }
        ensures bytes { IfOk result (λ _. AreOfBytes (patterns_of_kind kind ignore_case (pieces_of patterns.now))) }
        ensures refused { IfErr result IsLevelsRefusal }
    {
        let ordered = in_order(alloc, ignore_case, patterns, ROOT)?;
        let trie = trie_of(alloc, kind, ordered)?;
        let states = states_of(alloc, kind, ignore_case, trie, most_rows)?;
        let pattern_lens = lens_of(alloc, patterns)?;
        Ok(Levels {
            match_kind: kind,
            states,
            min_pattern_len: shortest_len(&pattern_lens),
            max_pattern_len: longest_len(&pattern_lens),
            pattern_lens,
            prefilter,
        })
    }

    /// The most patterns that end after one word.
    pub fn most_listed(&self) -> usize
        ensures most { (p : Patterns) → ⟦<Levels as Automaton>⟧.is_of self.now p → (word : List ℕ)
            → is_node p word ≡ true → All (IsFolded p) word → length (matches_of p (Some word)) ≤ result }
        ensures some { (p : Patterns) → ⟦<Levels as Automaton>⟧.is_of self.now p
            → (word : List ℕ) × (is_node p word ≡ true) × (length (matches_of p (Some word)) ≡ result) }
    {
        self.states.most_listed()
    }

    /// A copy of the automaton, with the same states under the same numbers.
    ///
    /// # Errors
    ///
    /// Out of memory.
    pub fn try_clone(&self) -> Result<Levels, AllocError>
        ensures same { IfOk result (λ made. IsCloneOf ⟦<Levels as Automaton>⟧ made self.now) }
    {
        Ok(Levels {
            match_kind: self.match_kind,
            states: self.states.try_clone()?,
            pattern_lens: self.pattern_lens.clone()?,
            min_pattern_len: self.min_pattern_len,
            max_pattern_len: self.max_pattern_len,
            prefilter: copy_of(&self.prefilter)?,
        })
    }
}

/// The states of a trie, with links, rows and lists.
fn states_of(
    alloc: Global,
    kind: MatchKind,
    ignore_case: bool,
    trie: Trie,
    most_rows: usize,
) -> Result<States, BuildError>
    requires some { (p : Patterns) × (p.kind ≡ kind) × (p.ignore_case ≡ ignore_case) × IsGrownTrie p trie }
    ensures naming { IfOk result (λ states. (p : Patterns) → p.kind ≡ kind → p.ignore_case ≡ ignore_case
        → IsGrownTrie p trie → (names : List (Option (List ℕ))) × NamesAll p states names) }
    ensures sound { IfOk result IsSoundStates }
    ensures refused { IfErr result IsLevelsRefusal }
{
    let mut states = States::new(alloc, ignore_case);
    let Trie {
        firsts,
        bytes,
        depths,
        owns,
    } = trie;
    states.firsts = firsts;
    states.bytes = bytes;
    states.depths = depths;
    link_states(&mut states, kind, &owns, most_rows)?;
    list_patterns(&mut states, &owns)?;
    Ok(states)
}

/// How many bytes each pattern has.
fn lens_of(alloc: Global, patterns: &[&[u8]]) -> Result<Vec<SmallIndex>, BuildError>
    requires room { bytes_together (pieces_of patterns.now) ≤ greatest_index }
    ensures lens { IfOk result (λ lens. lens.items ≡ map length (pieces_of patterns.now)) }
    ensures refused { IfErr result IsLevelsRefusal }
{
    let Ok(mut lens) = Vec::with_capacity(alloc, patterns.len()) else {
        return Err(BuildError::OutOfMemory);
    };
    for pattern in patterns {
        push_len(&mut lens, SmallIndex::new_unchecked(pattern.len()))?;
    }
    Ok(lens)
}

/// One more at the end.
fn push_len(lens: &mut Vec<SmallIndex>, len: SmallIndex) -> Result<(), BuildError>
    ensures pushed { OnOk result (lens.new.items ≡ lens.old.items ++ len ∷ []) }
    ensures refused { IfErr result IsLevelsRefusal }
{
    match lens.push(len) {
        Ok(()) => Ok(()),
        Err(_) => Err(BuildError::OutOfMemory),
    }
}

impl Automaton for Levels {
    ghost use Rattle.std.specs.Prelude.{ℕ, IfSome, is_some, nat_eq, true, Ok};
    ghost use Rattle.aho_core.specs.Patterns.{Patterns};
    ghost use Rattle.aho_prefilter.specs.Prefilter.{IsPrefilterOf};
    ghost use Rattle.aho_levels.specs.Layout.{IsStateNumber, depth_at, is_marked_in, is_special_at, lookups_at, next_at, list_of_state, levels_memory};
    ghost use Rattle.aho_levels.specs.Meaning.{IsHeldByNames, IsLevelsOf};
    ghost use Rattle.aho_levels.specs.Reading.{alike_of, dead_shallow_of, plain_of, reaches_in, reads_of, starts_shallow_of, unmarked_of};

    ghost is_of = { λ a p. IsLevelsOf a.states p a.match_kind a.pattern_lens.items
        × IfSome a.prefilter (λ searcher. IsPrefilterOf searcher p) };

    ghost held = { λ a p anchored word sid. IsHeldByNames a.states p anchored word sid };

    ghost valid = { λ a sid. IsStateNumber a.states sid };

    ghost kind = { λ a. a.match_kind };

    ghost lengths = { λ a. a.pattern_lens.items };

    ghost list = { λ a sid. list_of_state a.states sid };

    ghost dead = { λ a sid. nat_eq sid 0 };

    ghost special = { λ a sid. is_special_at (is_some a.prefilter) a.states sid };

    ghost marked = { λ a sid. is_marked_in a.states sid };

    ghost starts = { λ a sid. nat_eq sid 1 };

    ghost depth = { λ a sid. depth_at a.states sid };

    ghost reach = { λ a sid. depth_at a.states sid };

    ghost next = { λ a anchored sid byte. next_at a.states anchored sid byte };

    ghost lookups = { λ a p anchored word byte. lookups_at a.states p anchored word byte };

    ghost start = { λ a anchored. Ok 1 };

    ghost memory = { λ a. levels_memory a.states a.pattern_lens.items a.prefilter };

    ghost prefilter = { λ a. a.prefilter };

    ghost skips_streams = { λ _. true };

    ghost laws = { λ a p of. reads_of a.states a.sound p a.match_kind a.pattern_lens.items of.0 };

    ghost alike = { λ a p word other sid of. alike_of a.states a.sound p word other sid };

    ghost plain = { λ a sid valid. plain_of a.states a.sound (is_some a.prefilter) sid };

    ghost unmarked = { λ a sid valid. unmarked_of a.states a.sound sid };

    ghost dead_shallow = { λ a sid valid. dead_shallow_of a.states a.sound sid };

    ghost starts_shallow = { λ a sid valid. starts_shallow_of a.states a.sound sid };

    ghost reaches = { λ a p word sid of.
        reaches_in a.states a.sound p a.match_kind a.pattern_lens.items of.0 word sid };

    ghost prefilters = { λ a p of. of.1 };

    fn start_state(&self, _anchored: Anchored) -> Result<StateID, MatchError> {
        Ok(ROOT)
    }

    fn next_state(&self, anchored: Anchored, sid: StateID, byte: u8) -> StateID {
        let mut work = Work::new();
        self.states.next(anchored, sid, byte, &mut work)
    }

    #[inline(always)]
    fn step(&self, anchored: Anchored, sid: StateID, byte: u8, work: &mut Work) -> StateID {
        self.states.next(anchored, sid, byte, work)
    }

    #[inline(always)]
    fn is_special(&self, sid: StateID) -> bool {
        self.states.is_marked(sid) || self.prefilter.is_some() && sid == ROOT
    }

    #[inline(always)]
    fn is_marked(&self, sid: StateID) -> bool {
        self.states.is_marked(sid)
    }

    fn is_dead(&self, sid: StateID) -> bool {
        sid == DEAD
    }

    fn is_match(&self, sid: StateID) -> bool {
        self.states.list_len(sid) > 0
    }

    fn is_start(&self, sid: StateID) -> bool {
        sid == ROOT
    }

    fn reach_back(&self, sid: StateID) -> usize {
        self.states.depth(sid)
    }

    fn match_kind(&self) -> MatchKind {
        self.match_kind
    }

    fn prefilter(&self) -> Option<&Prefilter> {
        self.prefilter.as_ref()
    }

    fn stream_prefilter(&self) -> Option<&Prefilter> {
        self.prefilter()
    }

    fn match_len(&self, sid: StateID) -> usize {
        self.states.list_len(sid)
    }

    fn match_pattern(&self, sid: StateID, index: usize) -> PatternID {
        self.states.pattern(sid, index)
    }

    fn patterns_len(&self) -> usize {
        self.pattern_lens.len()
    }

    fn pattern_len(&self, pid: PatternID) -> usize {
        self.pattern_lens[pid.as_usize()].as_usize()
    }

    fn min_pattern_len(&self) -> usize {
        self.min_pattern_len
    }

    fn max_pattern_len(&self) -> usize {
        self.max_pattern_len
    }

    fn memory_usage(&self) -> usize {
        self.states.memory_usage() + 4 * self.pattern_lens.len() + bytes_of(&self.prefilter)
    }
}

/// The least of the lengths, in bytes; the greatest `usize` where there is none.
fn shortest_len(lens: &[SmallIndex]) -> usize
    ensures shortest { result ≡ shortest lens.now }
{
    let mut least = usize::MAX;
    for len in lens {
        least = least.min(len.as_usize());
    }
    least
}

/// The greatest of the lengths, in bytes; 0 where there is none.
fn longest_len(lens: &[SmallIndex]) -> usize
    ensures longest { result ≡ longest lens.now }
    ensures bound { result ≤ greatest_index }
{
    let mut most = 0;
    for len in lens {
        most = most.max(len.as_usize());
    }
    most
}

/// The bytes that a prefilter holds, where there is one.
fn bytes_of(prefilter: &Option<Prefilter>) -> usize
    ensures bytes { result ≡ prefilter_bytes prefilter.now }
    ensures bound { result < 2 ^ 63 }
{
    match prefilter {
        Some(prefilter) => prefilter.memory_usage(),
        None => 0,
    }
}

/// The same prefilter, or none.
fn copy_of(prefilter: &Option<Prefilter>) -> Result<Option<Prefilter>, AllocError>
    ensures same { IfOk result (λ copy. copy ≡ prefilter.now) }
{
    match prefilter {
        Some(prefilter) => Ok(Some(prefilter.try_clone()?)),
        None => Ok(None),
    }
}
