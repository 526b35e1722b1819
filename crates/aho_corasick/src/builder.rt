//! The settings of an automaton, and its build.

ghost use Rattle.std.specs.Prelude.{◌≡◌};
ghost use Rattle.aho_build.specs.Settings.{default_settings};

use crate::noncontiguous::NFA;
use aho_automaton::automaton::Automaton;
use aho_build::compiler;
pub use aho_build::settings::Limits;
use aho_build::settings::Settings;
use aho_core::error::BuildError;
use aho_core::search::MatchKind;
use std::alloc::Global;
use std::marker::Model;

/// How an automaton is built: the match kind, the case rule, the limits, whether a prefilter may be held, and down to which
/// depth states have dense rows.
#[derive(Clone, Drop)]
pub struct Builder {
    settings: Settings,
}

impl Model for Builder {
    ghost use Rattle.aho_build.specs.declared.settings.Settings.{Settings};

    ghost Value = { Settings };

    ghost view = { λ b. b.settings };

    ghost inverse = { λ s. record { settings = s } };
}

impl Default for Builder {
    ghost is_default = { λ builder. builder ≡ default_settings };

    fn default() -> Builder {
        Builder::new()
    }
}

impl Builder {
    ghost use Rattle.std.specs.Prelude.{IfOk, IfErr};
    ghost use Rattle.std.specs.Iterator.{IsFinite};
    ghost use Rattle.aho_build.specs.Items.{IsFailure, OfAccepted};
    ghost use Rattle.aho_build.specs.Dense.{AreDense};
    ghost use Rattle.aho_corasick.specs.Made.{HoldsPrefilter, TakesMemory};
    ghost use Rattle.aho_corasick.specs.ReadOut.{states_of, dense_rows_of};

    /// Standard, with regard to case, dense rows up to depth 3, a prefilter where one can be held, and the greatest limits.
    pub fn new() -> Builder
        ensures new { result ≡ default_settings }
    {
        Builder {
            settings: Settings::default(),
        }
    }

    /// The automaton of these patterns, which are numbered from 0 on as they come.
    ///
    /// # Errors
    ///
    /// The first that the limits refuse of what is asked for: for each pattern in turn its number (`PatternIDOverflow`), its
    /// length in bytes (`PatternTooLong`), and the indexes of its states, transitions and match (`StateIDOverflow`); after
    /// the last pattern the indexes of the anchored start's matches, the starts of the dense rows, and the indexes of the
    /// copied matches. Patterns that come after one that is refused change nothing of the error. Or `OutOfMemory`, at any
    /// time. The builder can be used again.
    pub fn build<'p, I: Iterator<Item = &'p [u8]> + Drop>(
        &self,
        alloc: Global,
        patterns: I,
    ) -> Result<NFA, BuildError>
        requires can { I.can_next patterns }
        requires ends { IsFinite (I.remaining patterns) }
        ensures built { IfOk result (λ nfa.
            OfAccepted I.next_gives patterns self.now (⟦<NFA as Automaton>⟧.is_of nfa)) }
        ensures held { IfOk result (λ nfa. OfAccepted I.next_gives patterns self.now
            (HoldsPrefilter ⟦<NFA as Automaton>⟧ self.now nfa)) }
        ensures sized { IfOk result (λ nfa. OfAccepted I.next_gives patterns self.now
            (TakesMemory ⟦<NFA as Automaton>⟧ self.now nfa)) }
        ensures dense { IfOk result (λ nfa.
            AreDense self.now.dense_depth (states_of nfa) (dense_rows_of nfa)) }
        ensures refused { IfErr result (IsFailure I.next_gives patterns self.now) }
    {
        let compiled = compiler::compile(alloc, &self.settings, patterns)?;
        Ok(NFA::of_compiled(self.settings.kind, compiled))
    }

    /// Which of several matches is found.
    pub fn match_kind(&mut self, kind: MatchKind) -> &mut Builder
        ensures same { result.ghost_name ≡ self.entry.ghost_name }
        ensures set { result.now ≡ record self.old { kind = kind } }
    {
        self.settings.kind = kind;
        self
    }

    /// Whether ASCII letters are the same in both cases.
    pub fn ascii_case_insensitive(&mut self, yes: bool) -> &mut Builder
        ensures same { result.ghost_name ≡ self.entry.ghost_name }
        ensures set { result.now ≡ record self.old { ignore_case = yes } }
    {
        self.settings.ignore_case = yes;
        self
    }

    /// Up to which distance from the start states have dense rows, by which a step is one look; none at 0. A row takes four
    /// bytes for each class of bytes. No answer depends on it.
    pub fn dense_depth(&mut self, depth: usize) -> &mut Builder
        ensures same { result.ghost_name ≡ self.entry.ghost_name }
        ensures set { result.now ≡ record self.old { dense_depth = depth } }
    {
        self.settings.dense_depth = depth;
        self
    }

    /// Whether a prefilter is held where there is one for the patterns. No answer depends on it.
    pub fn prefilter(&mut self, yes: bool) -> &mut Builder
        ensures same { result.ghost_name ≡ self.entry.ghost_name }
        ensures set { result.now ≡ record self.old { prefilter = yes } }
    {
        self.settings.prefilter = yes;
        self
    }

    /// The greatest numbers that a build may use.
    pub fn limits(&mut self, limits: Limits) -> &mut Builder
        ensures same { result.ghost_name ≡ self.entry.ghost_name }
        ensures set { result.now ≡ record self.old { limits = limits } }
    {
        self.settings.limits = limits;
        self
    }
}
