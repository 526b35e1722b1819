//! What users of an `NFA` may rest on besides its calls: what its searches answer and cost, and that no setting beside the
//! patterns, their match kind and their case rule changes an answer.

ghost use Rattle.std.specs.Prelude.{◌≡◌, ◌+◌, ◌*◌, ◌≤◌, IfOk, IsOk, None, length, string_bytes, vec_items, List};
ghost use Rattle.aho_core.specs.Answer.{IsAnswer};
ghost use Rattle.aho_core.specs.Iteration.{AreFinds};
ghost use Rattle.aho_core.specs.Occurrence.{Occurrence};
ghost use Rattle.aho_core.specs.Overlapping.{all_occurrences};
ghost use Rattle.aho_core.specs.Patterns.{Patterns};
ghost use Rattle.aho_core.specs.Replacement.{on_boundaries, pieces_of, replaced};
ghost use Rattle.aho_core.specs.Search.{plain_search, search_of};
ghost use Rattle.aho_core.specs.declared.search.Anchored.TheVariants.{No};
ghost use Rattle.aho_core.specs.declared.search.MatchKind.TheVariants.{Standard};
ghost use Rattle.aho_automaton.specs.Finding.{HoldsOfFinds};
ghost use Rattle.aho_automaton.specs.Reading.{ReadsEachOnce, bytes_read};

use crate::noncontiguous::NFA;
use aho_automaton::automaton::{Automaton, Counted, find_in};
use aho_core::error::ReplaceError;
use aho_core::search::{Anchored, Input, Match, Span};
use aho_prefilter::text::Text;
use std::alloc::{AllocError, Global};

/// The best occurrence of a span of a text, none where nothing occurs in it, and how many transitions were looked up for it.
/// Where the earliest is wanted, it is the best occurrence of the shortest beginning of the span that holds one.
///
/// It is one call of `find_in`, over a walk that counts each look-up. Each byte of the span is read at most once, and at most
/// two transitions are looked up for each byte that is read. What a prefilter reads is not counted. It takes no memory.
///
/// `try_find` of the same search answers the same match: `answer_of` says it of each input.
///
/// A span whose start is above its end is done: nothing occurs in it, and nothing is read.
pub fn best_occurrence<T: Text>(
    nfa: &NFA,
    text: &mut T,
    span: Span,
    anchored: Anchored,
    earliest: bool,
) -> (Option<Match>, u128)
    requires of { (p : Patterns) × ⟦<NFA as Automaton>⟧.is_of nfa.now p }
    requires within { span.end ≤ length (T.bytes text.old) }
    requires ordered { span.start ≤ span.end + 1 }
    requires unread { T.next text.old ≤ span.start }
    ensures best { (p : Patterns) → ⟦<NFA as Automaton>⟧.is_of nfa.now p →
        IsAnswer p (search_of (T.bytes text.old) span anchored earliest) result.0 }
    ensures each_byte_once { ReadsEachOnce T.Text text.old text.new span.start span.end }
    ensures two_look_ups_a_byte { result.1 ≤ 2 * bytes_read T.Text text.old text.new }
{
    let mut walk = Counted::new(nfa);
    match find_in(&mut walk, text, span, anchored, earliest) {
        Ok(found) => (found, walk.lookups()),
        Err(_) => unreachable!(),
    }
}

/// What `try_find` answers: an `NFA` refuses no search, so that it always is `Ok`.
///
/// For each list of patterns that the automaton is of the match is that of the definitions, and none is found only where
/// nothing occurs.
pub fn answer_of(nfa: &NFA, input: &Input) -> Option<Match>
    requires of { (p : Patterns) × ⟦<NFA as Automaton>⟧.is_of nfa.now p }
    ensures answer { (p : Patterns) → ⟦<NFA as Automaton>⟧.is_of nfa.now p →
        IsAnswer p input.now result }
{
    match nfa.try_find(input) {
        Ok(found) => found,
        Err(_) => unreachable!(),
    }
}

/// What two automata of the same patterns answer: each search alike, whatever their other settings were.
pub fn settings_do_not_change_answers(
    first: &NFA,
    second: &NFA,
    input: &Input,
) -> (Option<Match>, Option<Match>)
    requires of { (p : Patterns) × ⟦<NFA as Automaton>⟧.is_of first.now p
        × ⟦<NFA as Automaton>⟧.is_of second.now p }
    ensures alike { result.0 ≡ result.1 }
    ensures answer { (p : Patterns) → ⟦<NFA as Automaton>⟧.is_of first.now p →
        IsAnswer p input.now result.0 }
{
    (answer_of(first, input), answer_of(second, input))
}

/// The matches of iteration, over an automaton that has a start for the input's anchoring.
///
/// # Errors
///
/// The error says that memory ran out.
pub fn finds_of<A: Automaton>(
    alloc: Global,
    automaton: &A,
    input: Input<'_>,
) -> Result<Vec<Match>, AllocError>
    requires of { (p : Patterns) × A.is_of automaton.now p }
    requires starts { IsOk (A.start automaton.now input.anchored) }
    ensures finds { (p : Patterns) → A.is_of automaton.now p →
        IfOk result (λ found. AreFinds p input.entry None found.items) }
{
    automaton.try_find_iter(input).unwrap().collect(alloc)
}

/// The matches that iteration over two automata of the same patterns gives: the same, whatever their other settings were.
///
/// # Errors
///
/// The error says that memory ran out.
pub fn settings_do_not_change_finds(
    alloc: Global,
    first: &NFA,
    second: &NFA,
    input: &Input,
) -> Result<(Vec<Match>, Vec<Match>), AllocError>
    requires of { (p : Patterns) × ⟦<NFA as Automaton>⟧.is_of first.now p
        × ⟦<NFA as Automaton>⟧.is_of second.now p }
    ensures alike { IfOk result (λ both. both.0.items ≡ both.1.items) }
{
    let one = finds_of(alloc, first, input.clone()?)?;
    let other = finds_of(alloc, second, input.clone()?)?;
    Ok((one, other))
}

/// All matches of a haystack, those that overlap too, over an automaton that has an unanchored start.
///
/// # Errors
///
/// The error says that memory ran out.
pub fn overlapping_finds_of<A: Automaton>(
    alloc: Global,
    automaton: &A,
    haystack: &[u8],
) -> Result<Vec<Match>, AllocError>
    requires of { (p : Patterns) × A.is_of automaton.now p }
    requires standard { A.kind automaton.now ≡ Standard }
    requires starts { IsOk (A.start automaton.now No) }
    ensures all { (p : Patterns) → A.is_of automaton.now p → IfOk result (λ found.
        found.items ≡ all_occurrences p haystack.now 0 (length haystack.now)) }
{
    match automaton.try_find_overlapping_iter(Input::new(haystack)) {
        Ok(matches) => matches.collect(alloc),
        Err(_) => unreachable!(),
    }
}

/// The matches of an overlapping search over two automata of the same patterns: the same, whatever their other settings were.
///
/// # Errors
///
/// The error says that memory ran out.
pub fn settings_do_not_change_overlapping_finds(
    alloc: Global,
    first: &NFA,
    second: &NFA,
    haystack: &[u8],
) -> Result<(Vec<Match>, Vec<Match>), AllocError>
    requires of { (p : Patterns) × ⟦<NFA as Automaton>⟧.is_of first.now p
        × ⟦<NFA as Automaton>⟧.is_of second.now p }
    requires standard { ⟦<NFA as Automaton>⟧.kind first.now ≡ Standard }
    ensures alike { IfOk result (λ both. both.0.items ≡ both.1.items) }
{
    let one = overlapping_finds_of(alloc, first, haystack)?;
    let other = overlapping_finds_of(alloc, second, haystack)?;
    Ok((one, other))
}

/// A text with each match replaced, over an automaton that has an unanchored start.
///
/// # Errors
///
/// The error says that memory ran out.
fn replaced_text_of<A: Automaton>(
    alloc: Global,
    automaton: &A,
    haystack: &str,
    replace_with: &[&str],
) -> Result<String, AllocError>
    requires of { (p : Patterns) × A.is_of automaton.now p }
    requires one_each { length replace_with.now ≡ length (A.lengths automaton.now) }
    requires starts { IsOk (A.start automaton.now No) }
    ensures replaced { HoldsOfFinds (A.is_of automaton.now) haystack.now (λ ms.
        IfOk result (λ text. string_bytes text ≡
        replaced haystack.now (on_boundaries haystack.now ms) (pieces_of replace_with.now))) }
{
    match automaton.try_replace_all(alloc, haystack, replace_with) {
        Ok(text) => Ok(text),
        Err(ReplaceError::Memory) => Err(AllocError),
        Err(ReplaceError::Match(_)) => unreachable!(),
    }
}

/// What replacement in a text over two automata of the same patterns gives: the same, whatever their other settings were.
///
/// There is one replacement for each pattern.
///
/// # Errors
///
/// The error says that memory ran out.
pub fn settings_do_not_change_replaced_text(
    alloc: Global,
    first: &NFA,
    second: &NFA,
    haystack: &str,
    replace_with: &[&str],
) -> Result<(String, String), AllocError>
    requires of { (p : Patterns) × ⟦<NFA as Automaton>⟧.is_of first.now p
        × ⟦<NFA as Automaton>⟧.is_of second.now p }
    requires one_each { length replace_with.now ≡ length (⟦<NFA as Automaton>⟧.lengths first.now) }
    ensures alike { IfOk result (λ both. string_bytes both.0 ≡ string_bytes both.1) }
{
    let one = replaced_text_of(alloc, first, haystack, replace_with)?;
    let other = replaced_text_of(alloc, second, haystack, replace_with)?;
    Ok((one, other))
}

/// Bytes with each match replaced, over an automaton that has an unanchored start.
///
/// # Errors
///
/// The error says that memory ran out.
fn replaced_bytes_of<A: Automaton>(
    alloc: Global,
    automaton: &A,
    haystack: &[u8],
    replace_with: &[&[u8]],
) -> Result<Vec<u8>, AllocError>
    requires of { (p : Patterns) × A.is_of automaton.now p }
    requires one_each { length replace_with.now ≡ length (A.lengths automaton.now) }
    requires starts { IsOk (A.start automaton.now No) }
    ensures replaced { HoldsOfFinds (A.is_of automaton.now) haystack.now (λ ms. IfOk result
        (λ bytes. vec_items bytes ≡ replaced haystack.now ms (pieces_of replace_with.now))) }
{
    match automaton.try_replace_all_bytes(alloc, haystack, replace_with) {
        Ok(bytes) => Ok(bytes),
        Err(ReplaceError::Memory) => Err(AllocError),
        Err(ReplaceError::Match(_)) => unreachable!(),
    }
}

/// What replacement in bytes over two automata of the same patterns gives: the same, whatever their other settings were.
///
/// There is one replacement for each pattern.
///
/// # Errors
///
/// The error says that memory ran out.
pub fn settings_do_not_change_replaced_bytes(
    alloc: Global,
    first: &NFA,
    second: &NFA,
    haystack: &[u8],
    replace_with: &[&[u8]],
) -> Result<(Vec<u8>, Vec<u8>), AllocError>
    requires of { (p : Patterns) × ⟦<NFA as Automaton>⟧.is_of first.now p
        × ⟦<NFA as Automaton>⟧.is_of second.now p }
    requires one_each { length replace_with.now ≡ length (⟦<NFA as Automaton>⟧.lengths first.now) }
    ensures alike { IfOk result (λ both. vec_items both.0 ≡ vec_items both.1) }
{
    let one = replaced_bytes_of(alloc, first, haystack, replace_with)?;
    let other = replaced_bytes_of(alloc, second, haystack, replace_with)?;
    Ok((one, other))
}
