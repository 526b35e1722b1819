//! The automaton.

ghost use Rattle.std.specs.Prelude.{◌≡◌, ◌+◌, ◌<◌, ◌≤◌, ◌^◌, ℕ, length, IfErr, IfOk};
ghost use Rattle.std.specs.Option.{option_map};
ghost use Rattle.aho_core.specs.Laws.{shortest, longest};
ghost use Rattle.aho_core.specs.Numbers.{greatest_index};
ghost use Rattle.aho_core.specs.declared.error.BuildError.TheVariants.{OutOfMemory};
ghost use Rattle.aho_prefilter.specs.Prefilter.{prefilter_bytes};
ghost use Rattle.aho_hybrid.specs.Layout.{IsSoundLayout};

use crate::fill::rows_of;
use crate::rows::Rows;
use aho_automaton::automaton::Automaton;
use aho_corasick::noncontiguous::NFA;
use aho_core::error::{BuildError, MatchError};
use aho_core::search::{Anchored, MatchKind, PatternID, SmallIndex, StateID, Work};
use aho_prefilter::prefilter::Prefilter;
use std::alloc::{AllocError, Global};

/// How many bytes the rows of `from_nfa` take at most, but for those of the states without depth.
pub const DEFAULT_BUDGET: usize = 320 * 1024;

/// The stated bytes of a word of the states, and of a pattern's length.
const ENTRY_BYTES: usize = 4;

/// An automaton that is made from an `NFA` by what it tells of its states.
#[derive(Drop)]
pub struct Hybrid {
    match_kind: MatchKind,
    rows: Rows,
    pattern_lens: Vec<SmallIndex>,
    min_pattern_len: usize,
    max_pattern_len: usize,
    prefilter: Option<Prefilter>,
    ghost sound: { IsSoundLayout rows },
    ghost shortest: { min_pattern_len ≡ shortest pattern_lens.items },
    ghost longest: { max_pattern_len ≡ longest pattern_lens.items },
    ghost counted: { length pattern_lens.items ≤ greatest_index + 1 },
    ghost bounded: { max_pattern_len ≤ greatest_index },
}

impl Hybrid {
    ghost use Rattle.std.specs.Prelude.{IfSome};
    ghost use Rattle.aho_core.specs.Patterns.{Patterns};
    ghost use Rattle.aho_corasick.specs.Clones.{IsCloneOf};
    ghost use Rattle.aho_hybrid.specs.Filled.{IsRowsRefusal, default_budget};
    ghost use Rattle.aho_hybrid.specs.Made.{IsMadeOf, TakesAfter};
    ghost use Rattle.aho_hybrid.specs.Reading.{IsLayoutOf};
    ghost use Rattle.aho_prefilter.specs.Prefilter.{IsPrefilterOf};

    /// The automaton of all that the `NFA` is of, with rows of at most `DEFAULT_BUDGET` bytes.
    ///
    /// # Errors
    ///
    /// As those of `with_prefilter`.
    pub fn from_nfa(alloc: Global, nfa: &NFA) -> Result<Hybrid, BuildError>
        ensures of { IfOk result (λ made. (p : Patterns)
            → ⟦<NFA as Automaton>⟧.is_of nfa.now p → ⟦<Hybrid as Automaton>⟧.is_of made p) }
        ensures made { IfOk result (IsMadeOf ⟦<NFA as Automaton>⟧ ⟦<Hybrid as Automaton>⟧ nfa.now
            default_budget (⟦<NFA as Automaton>⟧.prefilter nfa.now)) }
        ensures refused { IfErr result (IsRowsRefusal nfa.now default_budget) }
    {
        Hybrid::with_budget(alloc, nfa, DEFAULT_BUDGET)
    }

    /// The automaton of all that the `NFA` is of, with rows of at most so many bytes, and with the `NFA`'s prefilter.
    ///
    /// # Errors
    ///
    /// As those of `with_prefilter`.
    pub fn with_budget(alloc: Global, nfa: &NFA, budget: usize) -> Result<Hybrid, BuildError>
        ensures of { IfOk result (λ made. (p : Patterns)
            → ⟦<NFA as Automaton>⟧.is_of nfa.now p → ⟦<Hybrid as Automaton>⟧.is_of made p) }
        ensures made { IfOk result (IsMadeOf ⟦<NFA as Automaton>⟧ ⟦<Hybrid as Automaton>⟧ nfa.now
            budget (⟦<NFA as Automaton>⟧.prefilter nfa.now)) }
        ensures refused { IfErr result (IsRowsRefusal nfa.now budget) }
    {
        let rows = rows_of(alloc, nfa, budget, nfa.prefilter().is_some())?;
        let prefilter = clone_of(nfa.prefilter())?;
        Hybrid::with_rows(alloc, nfa, rows, prefilter)
    }

    /// The automaton of all that the `NFA` is of, with this prefilter in place of the `NFA`'s. The states down to some depth
    /// have rows: the greatest depth with which the rows take at most so many bytes, or 0.
    ///
    /// # Errors
    ///
    /// `StateIDOverflow` exactly where the number of words of rows and records, of lists or of transitions is above the greatest
    /// index, with the first such number. It is found before anything is allocated. Where all fit, `OutOfMemory` alone.
    pub fn with_prefilter(
        alloc: Global,
        nfa: &NFA,
        budget: usize,
        prefilter: Option<Prefilter>,
    ) -> Result<Hybrid, BuildError>
        ensures of { IfOk result (λ made. (p : Patterns)
            → ⟦<NFA as Automaton>⟧.is_of nfa.now p
            → IfSome prefilter (λ searcher. IsPrefilterOf searcher p)
            → ⟦<Hybrid as Automaton>⟧.is_of made p) }
        ensures made { IfOk result (IsMadeOf ⟦<NFA as Automaton>⟧ ⟦<Hybrid as Automaton>⟧ nfa.now
            budget prefilter) }
        ensures refused { IfErr result (IsRowsRefusal nfa.now budget) }
    {
        let rows = rows_of(alloc, nfa, budget, prefilter.is_some())?;
        Hybrid::with_rows(alloc, nfa, rows, prefilter)
    }

    /// The automaton of these states of the `NFA`.
    fn with_rows(
        alloc: Global,
        nfa: &NFA,
        rows: Rows,
        prefilter: Option<Prefilter>,
    ) -> Result<Hybrid, BuildError>
        requires sound { IsSoundLayout rows }
        requires of { (p : Patterns) → ⟦<NFA as Automaton>⟧.is_of nfa.now p
            → IsLayoutOf rows p (⟦<NFA as Automaton>⟧.kind nfa.now)
            (⟦<NFA as Automaton>⟧.lengths nfa.now) }
        ensures of { IfOk result (λ made. (p : Patterns)
            → ⟦<NFA as Automaton>⟧.is_of nfa.now p
            → IfSome prefilter (λ searcher. IsPrefilterOf searcher p)
            → ⟦<Hybrid as Automaton>⟧.is_of made p) }
        ensures takes { IfOk result
            (TakesAfter ⟦<NFA as Automaton>⟧ ⟦<Hybrid as Automaton>⟧ nfa.now prefilter) }
        ensures rows { IfOk result (λ made. made.rows ≡ rows) }
        ensures refused { IfErr result (λ error. error ≡ OutOfMemory) }
    {
        let Ok(pattern_lens) = Vec::from_slice(alloc, nfa.pattern_lens()) else {
            return Err(BuildError::OutOfMemory);
        };
        Ok(Hybrid {
            match_kind: nfa.match_kind(),
            rows,
            pattern_lens,
            min_pattern_len: nfa.min_pattern_len(),
            max_pattern_len: nfa.max_pattern_len(),
            prefilter,
        })
    }

    /// A copy of the automaton, with the same states under the same numbers.
    ///
    /// # Errors
    ///
    /// Out of memory.
    pub fn try_clone(&self) -> Result<Hybrid, AllocError>
        ensures same { IfOk result (λ made. IsCloneOf ⟦<Hybrid as Automaton>⟧ made self.now) }
        ensures same_rows { IfOk result (λ made. made.rows ≡ self.now.rows) }
    {
        Ok(Hybrid {
            match_kind: self.match_kind,
            rows: self.rows.try_clone()?,
            pattern_lens: self.pattern_lens.clone()?,
            min_pattern_len: self.min_pattern_len,
            max_pattern_len: self.max_pattern_len,
            prefilter: copy_of(&self.prefilter)?,
        })
    }
}

impl Automaton for Hybrid {
    ghost use Rattle.std.specs.Prelude.{ℕ, IfSome, nat_eq, true};
    ghost use Rattle.aho_core.specs.Patterns.{Patterns};
    ghost use Rattle.aho_prefilter.specs.Prefilter.{IsPrefilterOf};
    ghost use Rattle.aho_hybrid.specs.Layout.{IsStateIn, IsHeldIn, depth_below_rows, depth_of_state, is_marked_number, is_special_number, lookups_in, next_state_in, list_in, start_for, memory_in};
    ghost use Rattle.aho_hybrid.specs.Reading.{IsLayoutOf, alike_of, reaches_in, reads_of, plain_of, unmarked_of, dead_shallow_of, starts_shallow_of};

    ghost is_of = { λ h p. IsLayoutOf h.rows p h.match_kind h.pattern_lens.items
        × IfSome h.prefilter (λ searcher. IsPrefilterOf searcher p) };

    ghost held = { λ h p anchored word sid. IsHeldIn h.rows p anchored word sid };

    ghost valid = { λ h sid. IsStateIn h.rows sid };

    ghost kind = { λ h. h.match_kind };

    ghost lengths = { λ h. h.pattern_lens.items };

    ghost list = { λ h sid. list_in h.rows sid };

    ghost dead = { λ h sid. nat_eq sid 0 };

    ghost special = { λ h sid. is_special_number h.rows sid };

    ghost marked = { λ h sid. is_marked_number h.rows sid };

    ghost starts = { λ h sid. nat_eq sid h.rows.start };

    ghost depth = { λ h sid. depth_below_rows h.rows sid };

    ghost reach = { λ h sid. depth_of_state h.rows sid };

    ghost next = { λ h anchored sid byte. next_state_in h.rows sid byte };

    ghost lookups = { λ h p anchored word byte. lookups_in h.rows p word byte };

    ghost start = { λ h anchored. start_for h.rows anchored };

    ghost memory = { λ h. memory_in h.rows h.pattern_lens.items h.prefilter };

    ghost prefilter = { λ h. h.prefilter };

    ghost skips_streams = { λ _. true };

    fn start_state(&self, anchored: Anchored) -> Result<StateID, MatchError> {
        match anchored {
            Anchored::No => Ok(self.rows.start()),
            Anchored::Yes => Err(MatchError::invalid_input_anchored()),
        }
    }

    fn next_state(&self, _anchored: Anchored, sid: StateID, byte: u8) -> StateID {
        let mut work = Work::new();
        self.rows.step(sid, byte, &mut work)
    }

    #[inline(always)]
    fn step(&self, _anchored: Anchored, sid: StateID, byte: u8, work: &mut Work) -> StateID {
        self.rows.step(sid, byte, work)
    }

    fn is_special(&self, sid: StateID) -> bool {
        self.rows.is_special(sid)
    }

    fn is_marked(&self, sid: StateID) -> bool {
        self.rows.is_marked(sid)
    }

    fn is_dead(&self, sid: StateID) -> bool {
        sid == StateID::ZERO
    }

    fn is_match(&self, sid: StateID) -> bool {
        self.rows.list_len(sid) > 0
    }

    fn is_start(&self, sid: StateID) -> bool {
        sid == self.rows.start()
    }

    fn reach_back(&self, sid: StateID) -> usize {
        self.rows.depth(sid)
    }

    fn match_kind(&self) -> MatchKind {
        self.match_kind
    }

    fn prefilter(&self) -> Option<&Prefilter> {
        self.prefilter.as_ref()
    }

    fn stream_prefilter(&self) -> Option<&Prefilter> {
        self.prefilter()
    }

    fn match_len(&self, sid: StateID) -> usize {
        self.rows.list_len(sid)
    }

    fn match_pattern(&self, sid: StateID, index: usize) -> PatternID {
        self.rows.pattern(sid, index)
    }

    fn patterns_len(&self) -> usize {
        self.pattern_lens.len()
    }

    fn pattern_len(&self, pid: PatternID) -> usize {
        self.pattern_lens[pid.as_usize()].as_usize()
    }

    fn min_pattern_len(&self) -> usize {
        self.min_pattern_len
    }

    fn max_pattern_len(&self) -> usize {
        self.max_pattern_len
    }

    fn memory_usage(&self) -> usize {
        let states = self.rows.entries.len() + self.rows.deep.len() + self.rows.moves.len();
        let listed = self.rows.lists.len() + self.pattern_lens.len();
        ENTRY_BYTES * (states + listed + self.rows.depths.len()) + bytes_of(&self.prefilter)
    }

    ghost laws = { λ h p of. reads_of h.rows h.sound p h.match_kind h.pattern_lens.items of.0 };

    ghost alike = { λ h p word other sid of. alike_of h.rows h.sound p word other sid };

    ghost plain = { λ h sid valid. plain_of h.rows h.sound sid };

    ghost unmarked = { λ h sid valid. unmarked_of h.rows h.sound sid };

    ghost dead_shallow = { λ h sid valid. dead_shallow_of h.rows h.sound sid };

    ghost starts_shallow = { λ h sid valid. starts_shallow_of h.rows h.sound sid };

    ghost reaches = { λ h p word sid of.
        reaches_in h.rows h.sound p h.match_kind h.pattern_lens.items of.0 word sid };

    ghost prefilters = { λ h p of. of.1 };
}

/// The bytes that a prefilter holds, where there is one.
fn bytes_of(prefilter: &Option<Prefilter>) -> usize
    ensures bytes { result ≡ prefilter_bytes prefilter.now }
    ensures bound { result < 2 ^ 63 }
{
    match prefilter {
        Some(prefilter) => prefilter.memory_usage(),
        None => 0,
    }
}

/// The same prefilter, or none.
fn clone_of(prefilter: Option<&Prefilter>) -> Result<Option<Prefilter>, BuildError>
    ensures same { IfOk result (λ copy. copy ≡ option_map (λ held. held.now) prefilter.entry) }
    ensures refused { IfErr result (λ error. error ≡ OutOfMemory) }
{
    let Some(prefilter) = prefilter else {
        return Ok(None);
    };
    match prefilter.try_clone() {
        Ok(copy) => Ok(Some(copy)),
        Err(_) => Err(BuildError::OutOfMemory),
    }
}

/// The same prefilter, or none.
fn copy_of(prefilter: &Option<Prefilter>) -> Result<Option<Prefilter>, AllocError>
    ensures same { IfOk result (λ copy. copy ≡ prefilter.now) }
{
    match prefilter {
        Some(prefilter) => Ok(Some(prefilter.try_clone()?)),
        None => Ok(None),
    }
}
