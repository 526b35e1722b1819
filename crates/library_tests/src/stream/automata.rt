//! What is tried over each automaton of some patterns.

ghost use Rattle.std.specs.Prelude.{◌≡◌};
ghost use Rattle.aho_core.specs.Patterns.{Patterns};

use crate::automata::{DEPTHS, nfa_with, relinked_of};
use aho_automaton::automaton::Automaton;
use aho_corasick::noncontiguous::NFA;
use aho_core::search::MatchKind;
use std::alloc::Global;
use std::process::Abort;
use std::test::Fail;

/// How an automaton is made, and whether it is the one that is made anew from what that tells of its states.
#[derive(Clone, Copy, Debug)]
pub(crate) struct Setting {
    pub(crate) prefilter: bool,
    pub(crate) dense_depth: usize,
    pub(crate) relinked: bool,
}

/// What is tried over each automaton of some patterns.
pub(crate) trait Trial {
    /// Tries it over this one. A message tells how it was made.
    fn run<H: Abort, A: Automaton>(
        &self,
        rt: &H,
        alloc: Global,
        automaton: &A,
        setting: Setting,
    ) -> Result<(), Fail>
        requires of { (p : Patterns) × A.is_of automaton.now p };
}

/// Tries it over the automata of these patterns: with a prefilter and without, with dense rows down to each depth, and over what is
/// made anew from each of them.
pub(crate) fn try_over_each<T: Trial>(
    rt: &impl Abort,
    alloc: Global,
    words: &[&[u8]],
    kind: MatchKind,
    trial: &T,
) -> Result<(), Fail> {
    for prefilter in [false, true] {
        for dense_depth in DEPTHS {
            let nfa = nfa_with(rt, alloc, words, kind, false, prefilter, dense_depth);
            let setting = Setting {
                prefilter,
                dense_depth,
                relinked: false,
            };
            try_over(rt, alloc, &nfa, setting, trial)?;
        }
    }
    Ok(())
}

/// Tries it over this automaton, and over the one that is made from what it tells.
fn try_over<T: Trial>(
    rt: &impl Abort,
    alloc: Global,
    nfa: &NFA,
    setting: Setting,
    trial: &T,
) -> Result<(), Fail>
    requires of { (p : Patterns) × ⟦<NFA as Automaton>⟧.is_of nfa.now p }
{
    trial.run(rt, alloc, nfa, setting)?;
    let relinked = relinked_of(rt, alloc, nfa);
    let setting = Setting {
        relinked: true,
        ..setting
    };
    trial.run(rt, alloc, &relinked, setting)
}
