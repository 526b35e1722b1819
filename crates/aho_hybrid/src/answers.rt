//! What users of a `Hybrid` may rest on besides its calls: it answers each unanchored search as its `NFA` does.

ghost use Rattle.std.specs.Prelude.{◌≡◌, IfOk, None, OnOk, false, length};
ghost use Rattle.aho_core.specs.Answer.{IsAnswer};
ghost use Rattle.aho_core.specs.Iteration.{AreFinds};
ghost use Rattle.aho_core.specs.Overlapping.{all_occurrences};
ghost use Rattle.aho_core.specs.Patterns.{Patterns};
ghost use Rattle.aho_core.specs.declared.search.Anchored.TheVariants.{No};
ghost use Rattle.aho_core.specs.declared.search.MatchKind.TheVariants.{Standard};

use crate::hybrid::Hybrid;
use aho_automaton::automaton::Automaton;
use aho_corasick::answers::{answer_of as answer_of_nfa, finds_of, overlapping_finds_of};
use aho_corasick::noncontiguous::NFA;
use aho_core::search::{Input, Match};
use std::alloc::{AllocError, Global};

/// What `try_find` answers to an unanchored input: no such search is refused.
///
/// For each list of patterns that the automaton is of the match is that of the definitions, and none is found only where
/// nothing occurs.
pub fn answer_of(hybrid: &Hybrid, input: &Input) -> Option<Match>
    requires of { (p : Patterns) × ⟦<Hybrid as Automaton>⟧.is_of hybrid.now p }
    requires unanchored { input.now.anchored ≡ No }
    ensures answer { (p : Patterns) → ⟦<Hybrid as Automaton>⟧.is_of hybrid.now p →
        IsAnswer p input.now result }
{
    match hybrid.try_find(input) {
        Ok(found) => found,
        Err(_) => unreachable!(),
    }
}

/// What an `NFA` and a `Hybrid` of the same patterns answer: each unanchored search alike.
pub fn rows_do_not_change_answers(
    nfa: &NFA,
    hybrid: &Hybrid,
    input: &Input,
) -> (Option<Match>, Option<Match>)
    requires of { (p : Patterns) × ⟦<NFA as Automaton>⟧.is_of nfa.now p
        × ⟦<Hybrid as Automaton>⟧.is_of hybrid.now p }
    requires unanchored { input.now.anchored ≡ No }
    ensures alike { result.0 ≡ result.1 }
    ensures answer { (p : Patterns) → ⟦<Hybrid as Automaton>⟧.is_of hybrid.now p →
        IsAnswer p input.now result.1 }
{
    (answer_of_nfa(nfa, input), answer_of(hybrid, input))
}

/// The matches that iteration over an `NFA` and a `Hybrid` of the same patterns gives: the same, in each unanchored search.
///
/// # Errors
///
/// The error says that memory ran out.
pub fn rows_do_not_change_finds(
    alloc: Global,
    nfa: &NFA,
    hybrid: &Hybrid,
    input: &Input,
) -> Result<(Vec<Match>, Vec<Match>), AllocError>
    requires of { (p : Patterns) × ⟦<NFA as Automaton>⟧.is_of nfa.now p
        × ⟦<Hybrid as Automaton>⟧.is_of hybrid.now p }
    requires unanchored { input.now.anchored ≡ No }
    ensures alike { IfOk result (λ both. both.0.items ≡ both.1.items) }
    ensures finds { (p : Patterns) → ⟦<Hybrid as Automaton>⟧.is_of hybrid.now p →
        IfOk result (λ both. AreFinds p input.now None both.1.items) }
{
    let by_nfa = finds_of(alloc, nfa, input.clone()?)?;
    let by_rows = finds_of(alloc, hybrid, input.clone()?)?;
    Ok((by_nfa, by_rows))
}

/// The matches of an overlapping search over an `NFA` and a `Hybrid` of the same patterns: the same.
///
/// # Errors
///
/// The error says that memory ran out.
pub fn rows_do_not_change_overlapping_finds(
    alloc: Global,
    nfa: &NFA,
    hybrid: &Hybrid,
    haystack: &[u8],
) -> Result<(Vec<Match>, Vec<Match>), AllocError>
    requires of { (p : Patterns) × ⟦<NFA as Automaton>⟧.is_of nfa.now p
        × ⟦<Hybrid as Automaton>⟧.is_of hybrid.now p }
    requires standard { ⟦<NFA as Automaton>⟧.kind nfa.now ≡ Standard }
    ensures alike { IfOk result (λ both. both.0.items ≡ both.1.items) }
    ensures all { (p : Patterns) → ⟦<Hybrid as Automaton>⟧.is_of hybrid.now p → IfOk result (λ both.
        both.1.items ≡ all_occurrences p haystack.now 0 (length haystack.now)) }
{
    let by_nfa = overlapping_finds_of(alloc, nfa, haystack)?;
    let by_rows = overlapping_finds_of(alloc, hybrid, haystack)?;
    Ok((by_nfa, by_rows))
}
