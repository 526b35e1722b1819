//! The settings of a searcher, and its build.

ghost use Rattle.std.specs.Prelude.{◌≡◌, IfErr, IfOk, IfSome, IsOk, IsOkUnless, None, OnOk, false, true};
ghost use Rattle.std.specs.Iterator.{IsFinite};
ghost use Rattle.std.specs.Iterator.Runs.{WholeRun};
ghost use Rattle.aho_core.specs.declared.error.BuildError.TheVariants.{OutOfMemory};
ghost use Rattle.aho_build.specs.Automaton.{memory_for};
ghost use Rattle.aho_build.specs.Items.{IsFailure, OfAccepted, patterns_of};
ghost use Rattle.chromesquid.specs.Building.{Accepts, FailsFor};
ghost use Rattle.chromesquid.specs.declared.kinds.AhoCorasickKind.TheVariants.{Hybrid as OfRows, NoncontiguousNFA};

use crate::backward::{Backward, backward_of};
use crate::engine::Engine;
use crate::kinds::{AhoCorasickKind, StartKind, is_allowed, kind_for};
use crate::levels::{FROM_LEVELS, levels_of};
use crate::searcher::AhoCorasick;
use aho_automaton::automaton::Automaton;
use aho_build::settings::{Limits, Settings};
use aho_corasick::noncontiguous::{Builder, NFA};
use aho_core::error::BuildError;
use aho_core::search::{Anchored, MatchKind};
use std::alloc::Global;
use std::marker::Model;

/// How a searcher is built.
#[derive(Clone, Drop)]
pub struct AhoCorasickBuilder {
    settings: Settings,
    start_kind: StartKind,
    kind: Option<AhoCorasickKind>,
    best_effort: bool,
    finds_all: bool,
}

impl Model for AhoCorasickBuilder {
    ghost use Rattle.chromesquid.specs.Searcher.{Building};

    ghost Value = { Building };

    ghost view = { λ b. record {
      settings = b.settings;
      start_kind = b.start_kind;
      kind = b.kind;
      best_effort = b.best_effort;
      finds_all = b.finds_all;
    } };

    ghost inverse = { λ b. record {
      settings = b.settings;
      start_kind = b.start_kind;
      kind = b.kind;
      best_effort = b.best_effort;
      finds_all = b.finds_all;
    } };
}

impl Default for AhoCorasickBuilder {
    ghost use Rattle.chromesquid.specs.Searcher.{default_building};

    ghost is_default = { λ builder. builder ≡ default_building };

    fn default() -> AhoCorasickBuilder {
        AhoCorasickBuilder::new()
    }
}

/// A builder of automata with these settings.
fn builder_of(settings: &Settings) -> Builder
    ensures same { result ≡ settings.now }
{
    let mut builder = NFA::builder();
    builder
        .match_kind(settings.kind)
        .ascii_case_insensitive(settings.ignore_case)
        .dense_depth(settings.dense_depth)
        .prefilter(settings.prefilter)
        .limits(settings.limits);
    builder
}

/// The automaton of these patterns.
fn automaton_of(settings: &Settings, alloc: Global, patterns: &[&[u8]]) -> Result<NFA, BuildError>
    ensures of { IfOk result (λ nfa.
        ⟦<NFA as Automaton>⟧.is_of nfa (patterns_of settings.now patterns.now)) }
    ensures memory { IfOk result (λ nfa. ⟦<NFA as Automaton>⟧.memory nfa
        ≡ memory_for settings.now (patterns_of settings.now patterns.now)) }
    ensures accepted { OnOk result (Accepts settings.now patterns.now) }
    ensures refused { IfErr result (FailsFor settings.now patterns.now) }
{
    builder_of(settings).build(alloc, patterns.iter().copied())
}

impl AhoCorasickBuilder {
    ghost use Rattle.chromesquid.specs.Backward.{HoldsIfWorth, IsHeldFor};
    ghost use Rattle.chromesquid.specs.Building.{HasCount, HasLengths, HasMatchKind, HasMemory, HasNoBackward, HasSizeOf, HasStartKind, HasTrie, HoldsAsAsked, IsBuiltWithMemory, IsHeldAsAsked, SearchesAsAsked, kind_to_make};
    ghost use Rattle.chromesquid.specs.Searcher.{IsBuiltFrom, automaton_kind_of, default_building};

    /// Standard, with regard to case, for searches that are not anchored, with a prefilter where one can be held, dense rows
    /// up to depth 3, and the greatest limits. No kind of automaton is asked for, nor a walk backward, and refused memory is a failure.
    pub fn new() -> AhoCorasickBuilder
        ensures new { result ≡ default_building }
    {
        AhoCorasickBuilder {
            settings: Settings::default(),
            start_kind: StartKind::Unanchored,
            kind: None,
            best_effort: false,
            finds_all: false,
        }
    }

    /// The searcher of these patterns, which are numbered from 0 on as they stand. The builder can be used again.
    ///
    /// # Errors
    ///
    /// A limit refuses a pattern's number (`PatternIDOverflow`), its length (`PatternTooLong`) or an index of a table
    /// (`StateIDOverflow`). Or memory ran out (`OutOfMemory`), at any time.
    pub fn build(&self, alloc: Global, patterns: &[&[u8]]) -> Result<AhoCorasick, BuildError>
        ensures of { IfOk result (λ built.
            IsBuiltFrom built (patterns_of self.now.settings patterns.now)) }
        ensures match_kind { IfOk result (HasMatchKind self.now.settings.kind) }
        ensures start_kind { IfOk result (HasStartKind self.now.start_kind) }
        ensures kind { IfOk result (SearchesAsAsked self.now) }
        ensures trie { kind_to_make self.now ≡ NoncontiguousNFA → IfOk result HasTrie }
        ensures unasked { self.now.finds_all ≡ false → IfOk result HasNoBackward }
        ensures backward { IfOk result
            (HoldsAsAsked self.now (patterns_of self.now.settings patterns.now)) }
        ensures lengths { IfOk result (HasLengths patterns.now) }
        ensures count { IfOk result (HasCount patterns.now) }
        ensures memory { IfOk result (HasMemory self.now.settings patterns.now) }
        ensures accepted { OnOk result (Accepts self.now.settings patterns.now) }
        ensures refused { IfErr result (FailsFor self.now.settings patterns.now) }
    {
        if let Some(built) = self.build_by_levels(alloc, patterns) {
            return Ok(built);
        }
        let nfa = automaton_of(&self.settings, alloc, patterns)?;
        self.build_from_noncontiguous(alloc, nfa, patterns)
    }

    /// The searcher of many patterns by rows that are made of these alone, where rows are to be made, and so they can be.
    fn build_by_levels(&self, alloc: Global, patterns: &[&[u8]]) -> Option<AhoCorasick>
        ensures of { IfSome result (λ built.
            IsBuiltFrom built (patterns_of self.now.settings patterns.now)) }
        ensures start_kind { IfSome result (HasStartKind self.now.start_kind) }
        ensures asked { IfSome result (λ _. kind_to_make self.now ≡ OfRows) }
        ensures rows { IfSome result (λ built. automaton_kind_of built ≡ OfRows) }
        ensures unasked { IfSome result HasNoBackward }
        ensures worth { self.now.finds_all ≡ true → IfSome result (λ _.
            HoldsIfWorth (patterns_of self.now.settings patterns.now) None) }
        ensures accepted { IfSome result (λ _. Accepts self.now.settings patterns.now) }
    {
        if patterns.len() < FROM_LEVELS {
            return None;
        }
        match kind_for(self.start_kind, self.kind) {
            AhoCorasickKind::NoncontiguousNFA => None,
            AhoCorasickKind::Hybrid => {
                let engine = levels_of(alloc, &self.settings, patterns, self.finds_all)?;
                Some(AhoCorasick::of_automaton(engine, self.start_kind, None))
            }
        }
    }

    /// The searcher of these patterns by an `NFA` of them that was built before: what is made beside it, is made of it. The builder
    /// can be used again. Settings that are of an `NFA` alone, `dense_depth` and `limits`, mean nothing here.
    ///
    /// # Errors
    ///
    /// Memory ran out (`OutOfMemory`). With `best_effort` none.
    pub fn build_from_noncontiguous(
        &self,
        alloc: Global,
        nfa: NFA,
        patterns: &[&[u8]],
    ) -> Result<AhoCorasick, BuildError>
        requires of { ⟦<NFA as Automaton>⟧.is_of nfa (patterns_of self.now.settings patterns.now) }
        ensures of { IfOk result (λ built.
            IsBuiltFrom built (patterns_of self.now.settings patterns.now)) }
        ensures start_kind { IfOk result (HasStartKind self.now.start_kind) }
        ensures kind { IfOk result (SearchesAsAsked self.now) }
        ensures trie { kind_to_make self.now ≡ NoncontiguousNFA → IfOk result HasTrie }
        ensures unasked { self.now.finds_all ≡ false → IfOk result HasNoBackward }
        ensures backward { IfOk result
            (HoldsAsAsked self.now (patterns_of self.now.settings patterns.now)) }
        ensures memory { IfOk result (HasSizeOf nfa) }
        ensures sure { self.now.best_effort ≡ true → IsOk result }
        ensures refused { IsOkUnless result OutOfMemory }
    {
        let backward = self.backward_of(alloc, &nfa, patterns)?;
        let kind = kind_for(self.start_kind, self.kind);
        let automaton = Engine::of_kind(
            alloc,
            nfa,
            kind,
            &self.settings,
            patterns,
            self.best_effort,
        )?;
        Ok(AhoCorasick::of_automaton(automaton, self.start_kind, backward))
    }

    /// The walk backward over these patterns, where all finds are asked for by searches that are not anchored, and it is worth it.
    ///
    /// # Errors
    ///
    /// Out of memory.
    fn backward_of(
        &self,
        alloc: Global,
        nfa: &NFA,
        patterns: &[&[u8]],
    ) -> Result<Option<Backward>, BuildError>
        requires of { ⟦<NFA as Automaton>⟧.is_of nfa.now (patterns_of self.now.settings patterns.now) }
        ensures of { IfOk result (IsHeldFor (patterns_of self.now.settings patterns.now)) }
        ensures unasked { self.now.finds_all ≡ false → IfOk result (λ held. held ≡ None) }
        ensures backward { IfOk result (IsHeldAsAsked self.now
            (patterns_of self.now.settings patterns.now)) }
        ensures sure { self.now.best_effort ≡ true → IsOk result }
        ensures refused { IsOkUnless result OutOfMemory }
    {
        if !self.finds_all {
            return Ok(None);
        }
        if !is_allowed(self.start_kind, Anchored::No) {
            return Ok(None);
        }
        backward_of(alloc, nfa, &self.settings, patterns, self.best_effort)
    }

    /// The searcher of the patterns that an iterator gives, which are numbered from 0 on as they come. They are collected
    /// first, in 16 bytes each, but not copied. The builder can be used again.
    ///
    /// # Errors
    ///
    /// As those of `build`.
    pub fn build_from_iter<'p, I: Iterator<Item = &'p [u8]> + Drop>(
        &self,
        alloc: Global,
        patterns: I,
    ) -> Result<AhoCorasick, BuildError>
        requires can { I.can_next patterns }
        requires ends { IsFinite (I.remaining patterns) }
        ensures of { IfOk result (λ built.
            OfAccepted I.next_gives patterns self.now.settings (IsBuiltFrom built)) }
        ensures runs { IfOk result (λ built. WholeRun I.next_gives patterns (λ run.
            IsBuiltFrom built (patterns_of self.now.settings run.items))) }
        ensures memory { IfOk result (λ built. WholeRun I.next_gives patterns (λ run.
            IsBuiltWithMemory self.now.settings run.items built)) }
        ensures match_kind { IfOk result (HasMatchKind self.now.settings.kind) }
        ensures start_kind { IfOk result (HasStartKind self.now.start_kind) }
        ensures kind { IfOk result (SearchesAsAsked self.now) }
        ensures trie { kind_to_make self.now ≡ NoncontiguousNFA → IfOk result HasTrie }
        ensures unasked { self.now.finds_all ≡ false → IfOk result HasNoBackward }
        ensures refused { IfErr result (IsFailure I.next_gives patterns self.now.settings) }
    {
        let Ok(patterns) = patterns.collect::<Vec<&[u8]>>(alloc) else {
            return Err(BuildError::OutOfMemory);
        };
        self.build(alloc, patterns.as_slice())
    }

    /// Which of several matches is found.
    pub fn match_kind(mut self, kind: MatchKind) -> AhoCorasickBuilder
        ensures set { result ≡ record self { settings = record self.settings { kind = kind } } }
    {
        self.settings.kind = kind;
        self
    }

    /// Whether ASCII letters are the same in both cases.
    pub fn ascii_case_insensitive(mut self, yes: bool) -> AhoCorasickBuilder
        ensures set { result ≡ record self { settings = record self.settings { ignore_case = yes } } }
    {
        self.settings.ignore_case = yes;
        self
    }

    /// Which searches are answered. A searcher for anchored ones has the noncontiguous automaton (`kind`), which takes no more
    /// memory for all of them than for some.
    pub fn start_kind(mut self, kind: StartKind) -> AhoCorasickBuilder
        ensures set { result ≡ record self { start_kind = kind } }
    {
        self.start_kind = kind;
        self
    }

    /// Which kind of automaton is made; where none is asked for, one of rows. Searchers of other searches than unanchored ones
    /// have the noncontiguous one, whatever is asked for, and so have those for whose patterns rows do not fit:
    /// `AhoCorasick::kind` tells. No answer depends on it.
    pub fn kind(mut self, kind: Option<AhoCorasickKind>) -> AhoCorasickBuilder
        ensures set { result ≡ record self { kind = kind } }
    {
        self.kind = kind;
        self
    }

    /// Whether a prefilter is held where there is one for the patterns; with rows it may be a packed or a strided search. Which one is free:
    /// no contract of a searcher says it, and no answer depends on it.
    pub fn prefilter(mut self, yes: bool) -> AhoCorasickBuilder
        ensures set { result ≡ record self { settings = record self.settings { prefilter = yes } } }
    {
        self.settings.prefilter = yes;
        self
    }

    /// Up to which distance from the start states of the noncontiguous automaton have dense rows, by which a step is one look;
    /// none at 0. A row takes four bytes for each class of bytes. A `Hybrid` is made of that automaton, and has rows of its own:
    /// how much memory they take is free. No answer depends on it.
    pub fn dense_depth(mut self, depth: usize) -> AhoCorasickBuilder
        ensures set { result ≡ record self { settings = record self.settings { dense_depth = depth } } }
    {
        self.settings.dense_depth = depth;
        self
    }

    /// The greatest numbers that a build may use.
    pub fn limits(mut self, limits: Limits) -> AhoCorasickBuilder
        ensures set { result ≡ record self { settings = record self.settings { limits = limits } } }
    {
        self.settings.limits = limits;
        self
    }

    /// Whether a searcher is made without what memory is refused for: rows, a prefilter of theirs, or a walk backward. Else the
    /// build fails with `OutOfMemory`. What is refused for the noncontiguous automaton fails in either case, and so do limits. No answer depends
    /// on it.
    pub fn best_effort(mut self, yes: bool) -> AhoCorasickBuilder
        ensures set { result ≡ record self { best_effort = yes } }
    {
        self.best_effort = yes;
        self
    }

    /// Whether all finds of texts will be asked for, as by `find_all`. Where the match kind is a leftmost one, searches that are not
    /// anchored are answered and `overhang::is_worth_it` says so, a walk backward is then held beside the automaton. It takes an
    /// automaton more, and finds in linear time whatever the patterns are. No answer depends on it.
    pub fn finds_all(mut self, yes: bool) -> AhoCorasickBuilder
        ensures set { result ≡ record self { finds_all = yes } }
    {
        self.finds_all = yes;
        self
    }
}
