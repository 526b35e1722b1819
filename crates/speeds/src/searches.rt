//! Searches of a text, with the time that they take.

ghost use Rattle.std.specs.Prelude.{◌≡◌};
ghost use Rattle.aho_core.specs.Patterns.{Patterns};
ghost use Rattle.aho_build.specs.Items.{patterns_of};
ghost use Rattle.aho_build.specs.Settings.{default_settings};

use crate::automata::{automaton_of, lines_of, quickest_of};
use crate::trial::{Searched, Skips, Trial};
use aho_automaton::automaton::{Automaton, WithPrefilter};
use aho_corasick::noncontiguous::NFA;
use aho_core::error::MatchError;
use aho_core::search::Input;
use aho_hybrid::hybrid::{DEFAULT_BUDGET, Hybrid};
use anyhow::{Result, bail};
use std::alloc::Global;
use std::time::{CpuClock, Duration};

/// What the matches of a text come to.
#[derive(Clone, Copy)]
pub(crate) struct Seen {
    pub(crate) matches: u64,
    pub(crate) sum: u64,
}

/// What was measured: the time of the build and the least of a search, what was seen, and how many bytes the automaton takes.
#[derive(Clone, Copy)]
pub(crate) struct Report {
    pub(crate) built: Duration,
    pub(crate) least: Duration,
    pub(crate) seen: Seen,
    pub(crate) memory: usize,
}

/// Builds an automaton of the patterns, a line each, and searches the text by it.
pub(crate) fn report_of<R: CpuClock>(
    rt: &R,
    alloc: Global,
    trial: Trial,
    depth: usize,
    times: u32,
    patterns: &[u8],
    text: &[u8],
) -> Result<Report> {
    let lines = lines_of(alloc, patterns)?;
    let own = matches!(trial.skips, Skips::Own);
    let begun = rt.process_cpu_time()?;
    let nfa = automaton_of(alloc, &lines, trial.kind, trial.ignore_case, own, depth)?;
    let built = rt.process_cpu_time()?.saturating_sub(begun);
    match trial.searched {
        Searched::Nfa => report_by(rt, alloc, trial, &nfa, &lines, built, times, text),
        Searched::Hybrid => report_by_rows(rt, alloc, trial, &nfa, &lines, times, text),
    }
}

/// Makes the `Hybrid` of an automaton, and searches by it.
fn report_by_rows<R: CpuClock>(
    rt: &R,
    alloc: Global,
    trial: Trial,
    nfa: &NFA,
    lines: &[&[u8]],
    times: u32,
    text: &[u8],
) -> Result<Report>
    requires of { ⟦<NFA as Automaton>⟧.is_of nfa.now
        (patterns_of (record default_settings { kind = trial.kind; ignore_case = trial.ignore_case }) lines.now) }
{
    if let Skips::Quickest = trial.skips {
        return report_by_quickest_rows(rt, alloc, trial, nfa, lines, times, text);
    }
    let begun = rt.process_cpu_time()?;
    let hybrid = Hybrid::from_nfa(alloc, nfa)?;
    let built = rt.process_cpu_time()?.saturating_sub(begun);
    report_by(rt, alloc, trial, &hybrid, lines, built, times, text)
}

/// Makes the `Hybrid` of an automaton with the quickest prefilter, and searches by it.
fn report_by_quickest_rows<R: CpuClock>(
    rt: &R,
    alloc: Global,
    trial: Trial,
    nfa: &NFA,
    lines: &[&[u8]],
    times: u32,
    text: &[u8],
) -> Result<Report>
    requires of { ⟦<NFA as Automaton>⟧.is_of nfa.now
        (patterns_of (record default_settings { kind = trial.kind; ignore_case = trial.ignore_case }) lines.now) }
{
    let begun = rt.process_cpu_time()?;
    let prefilter = quickest_of(alloc, lines, trial.kind, trial.ignore_case)?;
    let hybrid = Hybrid::with_prefilter(alloc, nfa, DEFAULT_BUDGET, prefilter)?;
    let built = rt.process_cpu_time()?.saturating_sub(begun);
    let memory = hybrid.memory_usage();
    searched(rt, &hybrid, built, memory, times, text)
}

/// Searches by an automaton that was built in this time.
fn report_by<R: CpuClock, A: Automaton>(
    rt: &R,
    alloc: Global,
    trial: Trial,
    automaton: &A,
    lines: &[&[u8]],
    built: Duration,
    times: u32,
    text: &[u8],
) -> Result<Report>
    requires of { A.is_of automaton.now
        (patterns_of (record default_settings { kind = trial.kind; ignore_case = trial.ignore_case }) lines.now) }
{
    let memory = automaton.memory_usage();
    let Skips::Quickest = trial.skips else {
        return searched(rt, automaton, built, memory, times, text);
    };
    match quickest_of(alloc, lines, trial.kind, trial.ignore_case)? {
        Some(prefilter) => {
            let skipping = WithPrefilter::new(automaton, &prefilter);
            searched(rt, &skipping, built, memory, times, text)
        }
        None => bail!("no prefilter is held for these patterns"),
    }
}

/// Searches a text so many times.
fn searched<R: CpuClock, A: Automaton>(
    rt: &R,
    automaton: &A,
    built: Duration,
    memory: usize,
    times: u32,
    text: &[u8],
) -> Result<Report>
    requires of { (p : Patterns) × A.is_of automaton.now p }
{
    let mut seen = Seen { matches: 0, sum: 0 };
    let mut least = Duration::MAX;
    for _ in 0..times {
        let begun = rt.process_cpu_time()?;
        seen = seen_in(automaton, text)?;
        least = least.min(rt.process_cpu_time()?.saturating_sub(begun));
    }
    Ok(Report {
        built,
        least,
        seen,
        memory,
    })
}

/// Searches a text once.
fn seen_in<A: Automaton>(automaton: &A, text: &[u8]) -> Result<Seen, MatchError>
    requires of { (p : Patterns) × A.is_of automaton.now p }
{
    let mut seen = Seen { matches: 0, sum: 0 };
    for m in automaton.try_find_iter(Input::new(text))? {
        let places = (m.end() as u64)
            .wrapping_mul(7)
            .wrapping_add(m.start() as u64);
        seen.matches = seen.matches.wrapping_add(1);
        seen.sum = seen.sum.wrapping_mul(31).wrapping_add(places);
    }
    Ok(seen)
}
