//! Which patterns can be found: those that lead, the best of all patterns that begin them.

ghost use Rattle.std.specs.Prelude.{◌≡◌, ◌<◌, ◌↔◌, ℕ, EachIndex, IfOk, IfSome, IsOk, IsSome, length, map, reverse, slice_index};
ghost use Rattle.aho_core.specs.declared.search.Anchored.TheVariants.{Yes};
ghost use Rattle.aho_core.specs.Best.{IsBestOrNone};
ghost use Rattle.aho_core.specs.Occurs.{Occurs};
ghost use Rattle.aho_core.specs.Patterns.{Patterns, pattern_at};
ghost use Rattle.aho_core.specs.Replacement.{pieces_of};
ghost use Rattle.aho_backward.specs.Turned.{AreLeading, IsLeader, turned_words_of};

use aho_automaton::automaton::Automaton;
use aho_core::search::{Anchored, Input, Match, PatternID};
use std::alloc::{AllocError, Global};

/// The best of all patterns that begin a word.
fn best_beginning<A: Automaton>(forward: &A, word: &[u8]) -> Option<Match>
    requires of { (p : Patterns) × A.is_of forward.now p }
    requires starts { IsOk (A.start forward.now Yes) }
    ensures best { (p : Patterns) → A.is_of forward.now p
        → IsBestOrNone p.kind (Occurs p Yes word.now 0 (length word.now)) result }
{
    let input = Input::new(word).anchored(Anchored::Yes);
    forward.try_find(&input).unwrap()
}

/// The number, as that of a pattern, where the pattern with this number and this word leads.
fn leader<A: Automaton>(forward: &A, word: &[u8], number: usize) -> Option<PatternID>
    requires of { (p : Patterns) × A.is_of forward.now p }
    requires starts { IsOk (A.start forward.now Yes) }
    ensures leads { (p : Patterns) → A.is_of forward.now p → number < length p.words
        → pattern_at p number ≡ word.now → (IsSome result ↔ IsLeader p number) }
    ensures itself { IfSome result (λ pattern. pattern ≡ number) }
{
    match best_beginning(forward, word) {
        Some(m) => {
            if m.pattern().as_usize() == number {
                return Some(m.pattern());
            }
            None
        }
        None => None,
    }
}

/// The numbers of the patterns that lead, in their order.
pub(crate) fn leading<A: Automaton>(
    alloc: Global,
    forward: &A,
    patterns: &[&[u8]],
) -> Result<Vec<PatternID>, AllocError>
    requires of { (p : Patterns) × A.is_of forward.now p }
    requires starts { IsOk (A.start forward.now Yes) }
    ensures leading { (p : Patterns) → A.is_of forward.now p → p.words ≡ pieces_of patterns.now
        → IfOk result (λ numbers. AreLeading p numbers.items) }
    ensures numbered { IfOk result (λ numbers.
        EachIndex numbers.items (λ i. slice_index numbers.items i < length patterns.now)) }
{
    let mut numbers = Vec::new(alloc);
    for number in 0..patterns.len() {
        if let Some(pattern) = leader(forward, patterns[number], number) {
            numbers.push(pattern)?;
        }
    }
    Ok(numbers)
}

/// The bytes of a pattern, the last first.
fn turned_word(alloc: Global, pattern: &[u8]) -> Result<Vec<u8>, AllocError>
    ensures turned { IfOk result (λ word. word.items ≡ reverse pattern.now) }
{
    let mut word = pattern.to_vec(alloc)?;
    word.reverse();
    Ok(word)
}

/// The patterns of these numbers, each with its last byte first.
pub(crate) fn turned_words(
    alloc: Global,
    patterns: &[&[u8]],
    given: &[PatternID],
) -> Result<Vec<Vec<u8>>, AllocError>
    requires numbered { EachIndex given.now (λ i. slice_index given.now i < length patterns.now) }
    ensures turned { IfOk result (λ words. map (λ word. word.items) words.items
        ≡ turned_words_of (pieces_of patterns.now) given.now) }
{
    let mut words = Vec::new(alloc);
    for number in given {
        words.push(turned_word(alloc, patterns[number.as_usize()])?)?;
    }
    Ok(words)
}
