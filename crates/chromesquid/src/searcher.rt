//! A searcher for some patterns.

ghost use Rattle.std.specs.Prelude.{◌≡◌, ◌≤◌, IfErr, IfOk, IfSome, OnOk, length, map, option_map};
ghost use Rattle.std.specs.Iterator.{IsFinite};
ghost use Rattle.std.specs.Iterator.Runs.{WholeRun};
ghost use Rattle.aho_core.specs.Laws.{longest, shortest};
ghost use Rattle.aho_core.specs.Numbers.{greatest_index};
ghost use Rattle.aho_core.specs.Patterns.{Patterns};
ghost use Rattle.aho_core.specs.declared.search.MatchKind.TheVariants.{Standard};
ghost use Rattle.aho_build.specs.Items.{IsFailure, OfAccepted, patterns_of};
ghost use Rattle.aho_build.specs.Settings.{default_settings};
ghost use Rattle.chromesquid.specs.declared.kinds.AhoCorasickKind.TheVariants.{Hybrid};
ghost use Rattle.chromesquid.specs.declared.kinds.StartKind.TheVariants.{Unanchored};

use crate::backward::Backward;
use crate::builder::AhoCorasickBuilder;
use crate::engine::Engine;
use crate::kinds::{AhoCorasickKind, StartKind};
use aho_automaton::automaton::Automaton;
use aho_core::error::BuildError;
use aho_core::search::MatchKind;
use std::alloc::{AllocError, Global};
use std::marker::Model;

/// A searcher for some patterns.
#[derive(Drop)]
pub struct AhoCorasick {
    automaton: Engine,
    start_kind: StartKind,
    backward: Option<Backward>,
}

impl Model for AhoCorasick {
    ghost use Rattle.aho_core.specs.Patterns.{Patterns};
    ghost use Rattle.chromesquid.specs.Searcher.{IsBuiltFrom, Searcher};

    ghost Value = { Searcher };

    ghost view = { λ a. record {
      automaton = a.automaton;
      start_kind = a.start_kind;
      backward = a.backward;
    } };

    ghost invariant = { λ a. (p : Patterns) × IsBuiltFrom (record {
      automaton = a.automaton;
      start_kind = a.start_kind;
      backward = a.backward;
    }) p };
}

impl AhoCorasick {
    ghost use Rattle.chromesquid.specs.Backward.{IsBackwardFor};
    ghost use Rattle.chromesquid.specs.Building.{Accepts, FailsFor, HasCount, HasLengths, HasMatchKind, HasMemory, HasStartKind, IsBuiltWithMemory, SearchesBy};
    ghost use Rattle.chromesquid.specs.Searcher.{ForItsPatterns, IsBuiltFrom, default_building, automaton_kind_of, lengths_of, match_kind_of, memory_usage_of, patterns_len_of, prefilter_held_by};

    /// The searcher of these patterns, as a new builder builds it: of kind Standard, for searches that are not anchored.
    ///
    /// # Errors
    ///
    /// As those of `AhoCorasickBuilder::build`.
    pub fn new(alloc: Global, patterns: &[&[u8]]) -> Result<AhoCorasick, BuildError>
        ensures of { IfOk result (λ built.
            IsBuiltFrom built (patterns_of default_settings patterns.now)) }
        ensures match_kind { IfOk result (HasMatchKind Standard) }
        ensures start_kind { IfOk result (HasStartKind Unanchored) }
        ensures kind { IfOk result (SearchesBy Hybrid) }
        ensures lengths { IfOk result (HasLengths patterns.now) }
        ensures count { IfOk result (HasCount patterns.now) }
        ensures memory { IfOk result (HasMemory default_settings patterns.now) }
        ensures accepted { OnOk result (Accepts default_settings patterns.now) }
        ensures refused { IfErr result (FailsFor default_settings patterns.now) }
    {
        AhoCorasickBuilder::new().build(alloc, patterns)
    }

    /// The searcher of the patterns that an iterator gives, as a new builder builds it.
    ///
    /// # Errors
    ///
    /// As those of `AhoCorasickBuilder::build`.
    pub fn new_from_iter<'p, I: Iterator<Item = &'p [u8]> + Drop>(
        alloc: Global,
        patterns: I,
    ) -> Result<AhoCorasick, BuildError>
        requires can { I.can_next patterns }
        requires ends { IsFinite (I.remaining patterns) }
        ensures of { IfOk result (λ built.
            OfAccepted I.next_gives patterns default_settings (IsBuiltFrom built)) }
        ensures runs { IfOk result (λ built. WholeRun I.next_gives patterns (λ run.
            IsBuiltFrom built (patterns_of default_settings run.items))) }
        ensures memory { IfOk result (λ built. WholeRun I.next_gives patterns (λ run.
            IsBuiltWithMemory default_settings run.items built)) }
        ensures match_kind { IfOk result (HasMatchKind Standard) }
        ensures start_kind { IfOk result (HasStartKind Unanchored) }
        ensures kind { IfOk result (SearchesBy Hybrid) }
        ensures refused { IfErr result (IsFailure I.next_gives patterns default_settings) }
    {
        AhoCorasickBuilder::new().build_from_iter(alloc, patterns)
    }

    /// The settings to build with.
    pub fn builder() -> AhoCorasickBuilder
        ensures new { result ≡ default_building }
    {
        AhoCorasickBuilder::default()
    }

    /// The searcher with this automaton, and with this walk backward beside it, if there is one.
    pub(crate) fn of_automaton(
        automaton: Engine,
        start_kind: StartKind,
        backward: Option<Backward>,
    ) -> AhoCorasick
        requires of { (p : Patterns) × IsBuiltFrom (record {
          automaton = automaton;
          start_kind = start_kind;
          backward = backward;
        }) p }
        ensures same { result ≡ record {
          automaton = automaton;
          start_kind = start_kind;
          backward = backward;
        } }
    {
        AhoCorasick {
            automaton,
            start_kind,
            backward,
        }
    }

    /// A copy of the searcher, with the same automaton, prefilter and size. A walk backward is not copied: the copy finds the
    /// same without it.
    ///
    /// # Errors
    ///
    /// Out of memory.
    pub fn try_clone(&self) -> Result<AhoCorasick, AllocError>
        ensures of { ForItsPatterns self.now (λ p. IfOk result (λ copy. IsBuiltFrom copy p)) }
        ensures match_kind { IfOk result (HasMatchKind (match_kind_of self.now)) }
        ensures start_kind { IfOk result (HasStartKind self.now.start_kind) }
        ensures kind { IfOk result (λ copy. automaton_kind_of copy ≡ automaton_kind_of self.now) }
        ensures lengths { IfOk result (λ copy. lengths_of copy ≡ lengths_of self.now) }
        ensures memory { IfOk result (λ copy. memory_usage_of copy ≡ memory_usage_of self.now) }
        ensures prefilter { IfOk result (λ copy.
            prefilter_held_by copy ≡ prefilter_held_by self.now) }
    {
        let automaton = self.built().automaton().try_clone()?;
        Ok(AhoCorasick::of_automaton(automaton, self.start_kind, None))
    }

    /// The walk backward that is held beside the automaton, if one is: where a builder's `finds_all` asks for it. It gives the same
    /// finds all at once and in linear time, whatever the patterns are, and replaces streams so.
    pub fn backward(&self) -> Option<&Backward>
        ensures same { option_map (λ backward. backward.now) result ≡ self.now.backward }
        ensures of { ForItsPatterns self.now (λ p. IfSome result (λ backward.
            IsBackwardFor backward.now p)) }
    {
        self.backward.as_ref()
    }

    /// The automaton that searches.
    pub(crate) fn automaton(&self) -> &Engine
        ensures same { result.now ≡ self.now.automaton }
    {
        &self.automaton
    }

    /// The searcher, which was built from some patterns.
    pub(crate) fn built(&self) -> &AhoCorasick
        ensures same { result ≡ self.entry }
        ensures some { (p : Patterns) × IsBuiltFrom self.now p }
    {
        let _automaton = &self.automaton;
        self
    }

    /// How many patterns it was built from.
    #[tactic(auto, using(crate::proofs::Built::count_of))]
    pub fn patterns_len(&self) -> usize
        ensures len { result ≡ patterns_len_of self.now }
        ensures patterns { ForItsPatterns self.now (λ p. result ≡ length p.words) }
    {
        Automaton::patterns_len(self)
    }

    /// How many bytes the shortest pattern has; the greatest `usize` where there is no pattern.
    #[tactic(auto, using(crate::proofs::Built::shortest_of))]
    pub fn min_pattern_len(&self) -> usize
        ensures shortest { result ≡ shortest (lengths_of self.now) }
        ensures patterns { ForItsPatterns self.now (λ p. result ≡ shortest (map length p.words)) }
    {
        Automaton::min_pattern_len(self)
    }

    /// How many bytes the longest pattern has; 0 where there is no pattern.
    #[tactic(auto, using(crate::proofs::Built::longest_of))]
    pub fn max_pattern_len(&self) -> usize
        ensures longest { result ≡ longest (lengths_of self.now) }
        ensures patterns { ForItsPatterns self.now (λ p. result ≡ longest (map length p.words)) }
        ensures bound { result ≤ greatest_index }
    {
        Automaton::max_pattern_len(self)
    }

    /// Which of several matches it finds.
    #[tactic(auto, using(crate::proofs::Built::finds_by))]
    pub fn match_kind(&self) -> MatchKind
        ensures kind { result ≡ match_kind_of self.now }
        ensures patterns { ForItsPatterns self.now (λ p. result ≡ p.kind) }
    {
        Automaton::match_kind(self)
    }

    /// How many bytes of memory its automaton holds, by the stated sizes of its parts. A build tells them in advance where there
    /// are no rows; how much rows take is free. A walk backward is not counted: its own automaton tells its size.
    pub fn memory_usage(&self) -> usize
        ensures memory { result ≡ memory_usage_of self.now }
    {
        Automaton::memory_usage(self)
    }

    /// Which searches are answered.
    pub fn start_kind(&self) -> StartKind
        ensures start_kind { result ≡ self.now.start_kind }
    {
        self.start_kind
    }

    /// Which automaton searches.
    pub fn kind(&self) -> AhoCorasickKind
        ensures kind { result ≡ automaton_kind_of self.now }
    {
        self.automaton.kind()
    }
}
