//! The automaton that searches: one of several kinds. Each of its calls is that of the automaton that is held.

ghost use Rattle.std.specs.Prelude.{◌≡◌, ◌+◌, ◌<◌, ◌≤◌, ℕ, IfOk, IfSome, IsOk, IsOkUnless, None, Ok, Some, false, length, true};
ghost use Rattle.aho_core.specs.Answer.{IsAnswer};
ghost use Rattle.aho_core.specs.Occurrence.{Occurrence};
ghost use Rattle.aho_core.specs.Patterns.{Patterns};
ghost use Rattle.aho_core.specs.Search.{search_of};
ghost use Rattle.aho_core.specs.declared.error.BuildError.TheVariants.{OutOfMemory};
ghost use Rattle.aho_core.specs.declared.search.Anchored.TheVariants.{No};
ghost use Rattle.aho_automaton.specs.Reading.{ReadsEachOnce, ReadsUpTo};
ghost use Rattle.aho_build.specs.Items.{patterns_of};
ghost use Rattle.aho_corasick.specs.Clones.{IsCloneOf};
ghost use Rattle.aho_prefilter.specs.Prefilter.{IsPrefilterOf};
ghost use Rattle.chromesquid.specs.Engine.{HasKind, HoldsInRows, IsElse, RefusesAs, held_in_rows, kind_in};
ghost use Rattle.chromesquid.specs.declared.engine.Engine.TheVariants.{Levels as InLevels, Rows};
ghost use Rattle.chromesquid.specs.declared.kinds.AhoCorasickKind.TheVariants.{Hybrid as OfRows, NoncontiguousNFA};

use crate::kinds::AhoCorasickKind;
use crate::prefilters::prefilter_of;
use aho_automaton::automaton::{Automaton, Counted, find_in};
use aho_automaton::patience::Patience;
use aho_automaton::patient::find_in_by;
use aho_build::settings::Settings;
use aho_corasick::noncontiguous::NFA;
use aho_core::error::{BuildError, MatchError};
use aho_core::search::{Anchored, Input, Match, MatchKind, PatternID, Span, StateID, Work};
use aho_hybrid::hybrid::Hybrid;
use aho_levels::levels::Levels;
use aho_prefilter::prefilter::Prefilter;
use aho_prefilter::text::{Bytes, Text};
use std::alloc::{AllocError, Global};

/// How many bytes the rows take at most that are made of an `NFA`. It is measured: with twice that a thousand words are not searched faster.
pub(crate) const ROWS_BUDGET: usize = 640 * 1024;

/// An automaton of one of the kinds.
#[derive(Drop)]
pub enum Engine {
    /// The noncontiguous automaton.
    Noncontiguous(NFA),
    /// The automaton of rows.
    Rows(Hybrid),
    /// That of many patterns, with rows for its first states.
    Levels(Levels),
}

impl Engine {
    /// The automaton of this kind, made of the `NFA` of these patterns. Where it has too many states for rows it is the `NFA`, and
    /// so it is where memory for them is refused and that is to be no failure.
    ///
    /// # Errors
    ///
    /// Out of memory.
    pub(crate) fn of_kind(
        alloc: Global,
        nfa: NFA,
        kind: AhoCorasickKind,
        settings: &Settings,
        patterns: &[&[u8]],
        best_effort: bool,
    ) -> Result<Engine, BuildError>
        requires of { ⟦<NFA as Automaton>⟧.is_of nfa (patterns_of settings.now patterns.now) }
        ensures of { IfOk result (λ engine.
            ⟦<Engine as Automaton>⟧.is_of engine (patterns_of settings.now patterns.now)) }
        ensures kind { best_effort ≡ false → IfOk result (HasKind kind) }
        ensures trie { kind ≡ NoncontiguousNFA
            → IfOk result (λ engine. kind_in engine ≡ NoncontiguousNFA) }
        ensures same { IfOk result (IsElse nfa) }
        ensures prefilter { best_effort ≡ false → IfOk result (HoldsInRows
            (held_in_rows settings.now (patterns_of settings.now patterns.now))) }
        ensures sure { best_effort ≡ true → IsOk result }
        ensures refused { IsOkUnless result OutOfMemory }
    {
        match kind {
            AhoCorasickKind::NoncontiguousNFA => Ok(Engine::Noncontiguous(nfa)),
            AhoCorasickKind::Hybrid => {
                let prefilter = prefilter_of(alloc, settings, patterns, best_effort)?;
                Engine::with_rows(alloc, nfa, prefilter, best_effort)
            }
        }
    }

    /// The automaton of rows with this prefilter, or the `NFA` where that has too many states for it, or where memory is refused
    /// and that is to be no failure.
    ///
    /// # Errors
    ///
    /// Out of memory.
    fn with_rows(
        alloc: Global,
        nfa: NFA,
        prefilter: Option<Prefilter>,
        best_effort: bool,
    ) -> Result<Engine, BuildError>
        ensures of { IfOk result (λ engine. (p : Patterns)
            → ⟦<NFA as Automaton>⟧.is_of nfa p
            → IfSome prefilter (λ searcher. IsPrefilterOf searcher p)
            → ⟦<Engine as Automaton>⟧.is_of engine p) }
        ensures kind { best_effort ≡ false → IfOk result (HasKind OfRows) }
        ensures same { IfOk result (IsElse nfa) }
        ensures prefilter { IfOk result (HoldsInRows prefilter) }
        ensures sure { best_effort ≡ true → IsOk result }
        ensures refused { IsOkUnless result OutOfMemory }
    {
        match Hybrid::with_prefilter(alloc, &nfa, ROWS_BUDGET, prefilter) {
            Ok(hybrid) => Ok(Engine::Rows(hybrid)),
            Err(BuildError::StateIDOverflow { .. }) => Ok(Engine::Noncontiguous(nfa)),
            Err(error) => {
                if best_effort {
                    return Ok(Engine::Noncontiguous(nfa));
                }
                Err(error)
            }
        }
    }

    /// Which kind it is.
    pub(crate) fn kind(&self) -> AhoCorasickKind
        ensures kind { result ≡ kind_in self.now }
    {
        match self {
            Engine::Noncontiguous(_) => AhoCorasickKind::NoncontiguousNFA,
            Engine::Rows(_) | Engine::Levels(_) => AhoCorasickKind::Hybrid,
        }
    }

    /// The rows, where they are what is held.
    pub(crate) fn rows(&self) -> Option<&Hybrid>
        ensures held { IfSome result (λ hybrid. self.now ≡ Rows hybrid.now) }
    {
        match self {
            Engine::Noncontiguous(_) | Engine::Levels(_) => None,
            Engine::Rows(hybrid) => Some(hybrid),
        }
    }

    /// The levels, where they are what is held.
    pub(crate) fn levels(&self) -> Option<&Levels>
        ensures held { IfSome result (λ levels. self.now ≡ InLevels levels.now) }
    {
        match self {
            Engine::Noncontiguous(_) | Engine::Rows(_) => None,
            Engine::Levels(levels) => Some(levels),
        }
    }

    /// What the search of the automaton that is held finds, with what earlier searches have left of the patience with the
    /// prefilter. The kind is asked for once, and not at each byte.
    ///
    /// # Errors
    ///
    /// As those of `Automaton::try_find`.
    pub(crate) fn find(
        &self,
        input: &Input,
        patience: &mut Patience,
    ) -> Result<Option<Match>, MatchError>
        requires of { (p : Patterns) × ⟦<Engine as Automaton>⟧.is_of self.now p }
        ensures found { (p : Patterns) → ⟦<Engine as Automaton>⟧.is_of self.now p
            → IfOk result (IsAnswer p input.now) }
        ensures ok { (sid : ℕ) → ⟦<Engine as Automaton>⟧.start self.now input.now.anchored ≡ Ok sid
            → IsOk result }
        ensures refused { RefusesAs
            (⟦<Engine as Automaton>⟧.start self.now input.now.anchored) input.now result }
        ensures done { input.now.end < input.now.start → result ≡ Ok None }
    {
        match self {
            Engine::Noncontiguous(nfa) => found_by(nfa, input, patience),
            Engine::Rows(hybrid) => found_by(hybrid, input, patience),
            Engine::Levels(levels) => found_by(levels, input, patience),
        }
    }

    /// The match that ends first in a span of a text, by the automaton that is held.
    ///
    /// # Errors
    ///
    /// As those of `find_in`.
    pub(crate) fn earliest_in<T: Text>(
        &self,
        text: &mut T,
        span: Span,
        anchored: Anchored,
    ) -> Result<Option<Match>, MatchError>
        requires of { (p : Patterns) × ⟦<Engine as Automaton>⟧.is_of self.now p }
        requires within { span.end ≤ length (T.bytes text.old) }
        requires ordered { span.start ≤ span.end + 1 }
        requires unread { T.next text.old ≤ span.start }
        ensures found { (p : Patterns) → ⟦<Engine as Automaton>⟧.is_of self.now p
            → IfOk result (IsAnswer p (search_of (T.bytes text.old) span anchored true)) }
        ensures ok { (sid : ℕ) → ⟦<Engine as Automaton>⟧.start self.now anchored ≡ Ok sid
            → IsOk result }
        ensures once { ReadsEachOnce T.Text text.old text.new span.start span.end }
        ensures no_further { anchored ≡ No → (m : Occurrence) → result ≡ Ok (Some m)
            → ReadsUpTo (T.next text.old) (T.next text.new) m.end }
    {
        match self {
            Engine::Noncontiguous(nfa) => earliest_by(nfa, text, span, anchored),
            Engine::Rows(hybrid) => earliest_by(hybrid, text, span, anchored),
            Engine::Levels(levels) => earliest_by(levels, text, span, anchored),
        }
    }

    /// A copy of the automaton, with the same states under the same numbers.
    ///
    /// # Errors
    ///
    /// Out of memory.
    pub(crate) fn try_clone(&self) -> Result<Engine, AllocError>
        ensures same { IfOk result (λ made. IsCloneOf ⟦<Engine as Automaton>⟧ made self.now) }
        ensures kind { IfOk result (λ made. kind_in made ≡ kind_in self.now) }
    {
        match self {
            Engine::Noncontiguous(nfa) => Ok(Engine::Noncontiguous(nfa.try_clone()?)),
            Engine::Rows(hybrid) => Ok(Engine::Rows(hybrid.try_clone()?)),
            Engine::Levels(levels) => Ok(Engine::Levels(levels.try_clone()?)),
        }
    }
}

/// What an automaton's search finds. It stays a function of its own: then its loop holds the state in a register.
#[inline(never)]
fn found_by<A: Automaton>(
    automaton: &A,
    input: &Input,
    patience: &mut Patience,
) -> Result<Option<Match>, MatchError>
    requires of { (p : Patterns) × A.is_of automaton.now p }
    ensures found { (p : Patterns) → A.is_of automaton.now p → IfOk result (IsAnswer p input.now) }
    ensures ok { (sid : ℕ) → A.start automaton.now input.now.anchored ≡ Ok sid → IsOk result }
    ensures refused { RefusesAs (A.start automaton.now input.now.anchored) input.now result }
    ensures done { input.now.end < input.now.start → result ≡ Ok None }
{
    let mut walk = Counted::new(automaton);
    let mut text = Bytes::new(input.haystack());
    let span = Span {
        start: input.start(),
        end: input.end(),
    };
    find_in_by(
        &mut walk,
        &mut text,
        span,
        input.get_anchored(),
        input.get_earliest(),
        patience,
    )
}

/// The match that ends first in a span of a text, by an automaton.
fn earliest_by<A: Automaton, T: Text>(
    automaton: &A,
    text: &mut T,
    span: Span,
    anchored: Anchored,
) -> Result<Option<Match>, MatchError>
    requires of { (p : Patterns) × A.is_of automaton.now p }
    requires within { span.end ≤ length (T.bytes text.old) }
    requires ordered { span.start ≤ span.end + 1 }
    requires unread { T.next text.old ≤ span.start }
    ensures found { (p : Patterns) → A.is_of automaton.now p
        → IfOk result (IsAnswer p (search_of (T.bytes text.old) span anchored true)) }
    ensures ok { (sid : ℕ) → A.start automaton.now anchored ≡ Ok sid → IsOk result }
    ensures once { ReadsEachOnce T.Text text.old text.new span.start span.end }
    ensures no_further { anchored ≡ No → (m : Occurrence) → result ≡ Ok (Some m)
        → ReadsUpTo (T.next text.old) (T.next text.new) m.end }
{
    find_in(&mut Counted::new(automaton), text, span, anchored, true)
}

impl Automaton for Engine {
    ghost use Rattle.std.specs.Prelude.{true};
    ghost use Rattle.chromesquid.specs.Engine.{IsEngineOf, IsHeldBy, IsStateBy, alike_by, dead_by, dead_shallow_by, depth_by, match_kind_by, laws_by, lengths_by, list_by, lookups_by, marked_by, memory_by, next_by, plain_state_by, prefilter_by, prefilters_by, reach_by, reaches_by, special_by, start_by, starts_by, starts_shallow_by, unmarked_by};

    ghost is_of = { λ e p. IsEngineOf e p };

    ghost held = { λ e p anchored word sid. IsHeldBy e p anchored word sid };

    ghost valid = { λ e sid. IsStateBy e sid };

    ghost kind = { λ e. match_kind_by e };

    ghost lengths = { λ e. lengths_by e };

    ghost list = { λ e sid. list_by e sid };

    ghost dead = { λ e sid. dead_by e sid };

    ghost special = { λ e sid. special_by e sid };

    ghost marked = { λ e sid. marked_by e sid };

    ghost starts = { λ e sid. starts_by e sid };

    ghost depth = { λ e sid. depth_by e sid };

    ghost reach = { λ e sid. reach_by e sid };

    ghost next = { λ e anchored sid byte. next_by e anchored sid byte };

    ghost lookups = { λ e p anchored word byte. lookups_by e p anchored word byte };

    ghost start = { λ e anchored. start_by e anchored };

    ghost memory = { λ e. memory_by e };

    ghost prefilter = { λ e. prefilter_by e };

    ghost skips_streams = { λ _. true };

    fn start_state(&self, anchored: Anchored) -> Result<StateID, MatchError> {
        match self {
            Engine::Noncontiguous(nfa) => nfa.start_state(anchored),
            Engine::Rows(hybrid) => hybrid.start_state(anchored),
            Engine::Levels(levels) => levels.start_state(anchored),
        }
    }

    fn next_state(&self, anchored: Anchored, sid: StateID, byte: u8) -> StateID {
        match self {
            Engine::Noncontiguous(nfa) => nfa.next_state(anchored, sid, byte),
            Engine::Rows(hybrid) => hybrid.next_state(anchored, sid, byte),
            Engine::Levels(levels) => levels.next_state(anchored, sid, byte),
        }
    }

    #[inline(always)]
    fn step(&self, anchored: Anchored, sid: StateID, byte: u8, work: &mut Work) -> StateID {
        match self {
            Engine::Noncontiguous(nfa) => nfa.step(anchored, sid, byte, work),
            Engine::Rows(hybrid) => hybrid.step(anchored, sid, byte, work),
            Engine::Levels(levels) => levels.step(anchored, sid, byte, work),
        }
    }

    #[inline(always)]
    fn is_special(&self, sid: StateID) -> bool {
        match self {
            Engine::Noncontiguous(nfa) => nfa.is_special(sid),
            Engine::Rows(hybrid) => hybrid.is_special(sid),
            Engine::Levels(levels) => levels.is_special(sid),
        }
    }

    #[inline(always)]
    fn is_marked(&self, sid: StateID) -> bool {
        match self {
            Engine::Noncontiguous(nfa) => nfa.is_marked(sid),
            Engine::Rows(hybrid) => hybrid.is_marked(sid),
            Engine::Levels(levels) => levels.is_marked(sid),
        }
    }

    fn is_dead(&self, sid: StateID) -> bool {
        match self {
            Engine::Noncontiguous(nfa) => nfa.is_dead(sid),
            Engine::Rows(hybrid) => hybrid.is_dead(sid),
            Engine::Levels(levels) => levels.is_dead(sid),
        }
    }

    fn is_match(&self, sid: StateID) -> bool {
        match self {
            Engine::Noncontiguous(nfa) => nfa.is_match(sid),
            Engine::Rows(hybrid) => hybrid.is_match(sid),
            Engine::Levels(levels) => levels.is_match(sid),
        }
    }

    fn is_start(&self, sid: StateID) -> bool {
        match self {
            Engine::Noncontiguous(nfa) => nfa.is_start(sid),
            Engine::Rows(hybrid) => hybrid.is_start(sid),
            Engine::Levels(levels) => levels.is_start(sid),
        }
    }

    fn reach_back(&self, sid: StateID) -> usize {
        match self {
            Engine::Noncontiguous(nfa) => nfa.reach_back(sid),
            Engine::Rows(hybrid) => hybrid.reach_back(sid),
            Engine::Levels(levels) => levels.reach_back(sid),
        }
    }

    fn match_kind(&self) -> MatchKind {
        match self {
            Engine::Noncontiguous(nfa) => nfa.match_kind(),
            Engine::Rows(hybrid) => hybrid.match_kind(),
            Engine::Levels(levels) => levels.match_kind(),
        }
    }

    fn prefilter(&self) -> Option<&Prefilter> {
        match self {
            Engine::Noncontiguous(nfa) => nfa.prefilter(),
            Engine::Rows(hybrid) => hybrid.prefilter(),
            Engine::Levels(levels) => levels.prefilter(),
        }
    }

    fn stream_prefilter(&self) -> Option<&Prefilter> {
        self.prefilter()
    }

    fn match_len(&self, sid: StateID) -> usize {
        match self {
            Engine::Noncontiguous(nfa) => nfa.match_len(sid),
            Engine::Rows(hybrid) => hybrid.match_len(sid),
            Engine::Levels(levels) => levels.match_len(sid),
        }
    }

    fn match_pattern(&self, sid: StateID, index: usize) -> PatternID {
        match self {
            Engine::Noncontiguous(nfa) => nfa.match_pattern(sid, index),
            Engine::Rows(hybrid) => hybrid.match_pattern(sid, index),
            Engine::Levels(levels) => levels.match_pattern(sid, index),
        }
    }

    fn patterns_len(&self) -> usize {
        match self {
            Engine::Noncontiguous(nfa) => nfa.patterns_len(),
            Engine::Rows(hybrid) => hybrid.patterns_len(),
            Engine::Levels(levels) => levels.patterns_len(),
        }
    }

    fn pattern_len(&self, pid: PatternID) -> usize {
        match self {
            Engine::Noncontiguous(nfa) => nfa.pattern_len(pid),
            Engine::Rows(hybrid) => hybrid.pattern_len(pid),
            Engine::Levels(levels) => levels.pattern_len(pid),
        }
    }

    fn min_pattern_len(&self) -> usize {
        match self {
            Engine::Noncontiguous(nfa) => nfa.min_pattern_len(),
            Engine::Rows(hybrid) => hybrid.min_pattern_len(),
            Engine::Levels(levels) => levels.min_pattern_len(),
        }
    }

    fn max_pattern_len(&self) -> usize {
        match self {
            Engine::Noncontiguous(nfa) => nfa.max_pattern_len(),
            Engine::Rows(hybrid) => hybrid.max_pattern_len(),
            Engine::Levels(levels) => levels.max_pattern_len(),
        }
    }

    fn memory_usage(&self) -> usize {
        match self {
            Engine::Noncontiguous(nfa) => nfa.memory_usage(),
            Engine::Rows(hybrid) => hybrid.memory_usage(),
            Engine::Levels(levels) => levels.memory_usage(),
        }
    }

    ghost laws = { λ e p of. laws_by e p of };

    ghost alike = { λ e p word other sid of. alike_by e p word other sid of };

    ghost plain = { λ e sid valid. plain_state_by e sid valid };

    ghost unmarked = { λ e sid valid. unmarked_by e sid valid };

    ghost dead_shallow = { λ e sid valid. dead_shallow_by e sid valid };

    ghost starts_shallow = { λ e sid valid. starts_shallow_by e sid valid };

    ghost reaches = { λ e p word sid of. reaches_by e p word sid of };

    ghost prefilters = { λ e p of. prefilters_by e p of };
}
