//! How a searcher is made: from an automaton of the patterns, which tells those that lead, and one of these turned round.

ghost use Rattle.std.specs.Prelude.{◌≡◌, ◌≢◌, ◌<◌, ℕ, IfErr, IfOk, IfSome, IsOk, None, Ok, Err, length, map, true};
ghost use Rattle.aho_core.specs.Failure.{is_leftmost};
ghost use Rattle.aho_core.specs.Patterns.{Patterns};
ghost use Rattle.aho_core.specs.Replacement.{pieces_of};
ghost use Rattle.aho_core.specs.declared.search.Anchored.TheVariants.{Yes};
ghost use Rattle.aho_core.specs.declared.search.MatchKind.TheVariants.{Standard};
ghost use Rattle.aho_laws.specs.CutLaws.{NoneIsEmpty};
ghost use Rattle.aho_prefilter.specs.Prefilter.{patterns_from};
ghost use Rattle.aho_backward.specs.Making.{ForPatternsOf, IsFirstEmpty, IsOutOfRoom, IsUnmade, MakesNone, unaided_settings};
ghost use Rattle.aho_backward.specs.Searcher.{IsBackwardOf};
ghost use Rattle.aho_backward.specs.declared.error.BackwardError.TheVariants.{EmptyPattern, StandardKind};

use crate::backward::Backward;
use crate::error::BackwardError;
use crate::leading::{leading, turned_words};
use aho_automaton::automaton::Automaton;
use aho_corasick::noncontiguous::{Builder, NFA};
use aho_core::error::BuildError;
use aho_core::search::MatchKind;
use std::alloc::{AllocError, Global};

/// Settings without a prefilter: neither automaton is searched by one.
fn settings_of(kind: MatchKind, ignore_case: bool) -> Builder
    ensures settings { result ≡ unaided_settings kind ignore_case }
{
    let mut builder = NFA::builder();
    builder
        .match_kind(kind)
        .ascii_case_insensitive(ignore_case)
        .prefilter(false);
    builder
}

/// The automaton of these patterns.
fn automaton_of(
    alloc: Global,
    patterns: &[&[u8]],
    kind: MatchKind,
    ignore_case: bool,
) -> Result<NFA, BuildError>
    ensures of { IfOk result (λ nfa. ⟦<NFA as Automaton>⟧.is_of nfa
        (patterns_from kind ignore_case (pieces_of patterns.now))) }
    ensures refused { IfErr result (IsOutOfRoom
        (patterns_from kind ignore_case (pieces_of patterns.now))) }
{
    settings_of(kind, ignore_case).build(alloc, patterns.iter().copied())
}

/// The bytes of each word.
fn slices_of<'w>(alloc: Global, words: &'w [Vec<u8>]) -> Result<Vec<&'w [u8]>, AllocError>
    ensures words { IfOk result (λ slices. pieces_of slices.items
        ≡ map (λ word. word.items) words.entry.now) }
{
    let mut slices = Vec::new(alloc);
    for word in words {
        slices.push(word.as_slice())?;
    }
    Ok(slices)
}

/// The number of the first pattern that is empty.
fn first_empty(patterns: &[&[u8]]) -> Option<usize>
    ensures first { IfSome result (IsFirstEmpty (pieces_of patterns.now)) }
    ensures none { result ≡ None → (p : Patterns) → p.words ≡ pieces_of patterns.now
        → NoneIsEmpty p }
{
    for number in 0..patterns.len() {
        if patterns[number].is_empty() {
            return Some(number);
        }
    }
    None
}

/// The searcher of some patterns, none of which is empty, by an automaton of them.
fn searcher_by<A: Automaton>(
    alloc: Global,
    forward: &A,
    patterns: &[&[u8]],
    ignore_case: bool,
) -> Result<Backward<NFA>, BackwardError>
    requires of { (p : Patterns) × A.is_of forward.now p }
    requires starts { IsOk (A.start forward.now Yes) }
    ensures of { ForPatternsOf A.Automaton forward.now (pieces_of patterns.now) ignore_case
        (λ p. is_leftmost p.kind ≡ true → NoneIsEmpty p
        → IfOk result (λ made. IsBackwardOf ⟦<NFA as Automaton>⟧ made p)) }
    ensures refused { ForPatternsOf A.Automaton forward.now (pieces_of patterns.now) ignore_case
        (λ p. IfErr result (IsUnmade p)) }
{
    let given = leading(alloc, forward, patterns)?;
    let words = turned_words(alloc, patterns, &given)?;
    let slices = slices_of(alloc, &words)?;
    let automaton = automaton_of(alloc, &slices, MatchKind::Standard, ignore_case)?;
    Ok(Backward { automaton, given })
}

/// Whether the kind chooses by the start of a match: whether it is a leftmost one.
fn chooses_by_start(kind: MatchKind) -> bool
    ensures leftmost { result ≡ is_leftmost kind }
{
    match kind {
        MatchKind::Standard => false,
        MatchKind::LeftmostFirst | MatchKind::LeftmostLongest => true,
    }
}

impl Backward<NFA> {
    /// A searcher by these patterns, which are numbered from 0 on, by a leftmost kind and a case rule.
    ///
    /// An automaton of the patterns is built first, and let go before this returns.
    ///
    /// # Errors
    ///
    /// In this order: `StandardKind` where the kind is the standard one; `EmptyPattern` with the first empty pattern's number;
    /// `Build` where a build of an automaton is refused, or memory is wanted.
    pub fn new(
        alloc: Global,
        patterns: &[&[u8]],
        kind: MatchKind,
        ignore_case: bool,
    ) -> Result<Backward<NFA>, BackwardError>
        ensures of { IfOk result (λ made. IsBackwardOf ⟦<NFA as Automaton>⟧ made
            (patterns_from kind ignore_case (pieces_of patterns.now))) }
        ensures standard { kind ≡ Standard → result ≡ Err StandardKind }
        ensures empty { (number : ℕ) → kind ≢ Standard → IsFirstEmpty (pieces_of patterns.now) number
            → result ≡ Err (EmptyPattern number) }
        ensures refused { IfErr result
            (MakesNone (patterns_from kind ignore_case (pieces_of patterns.now))) }
    {
        if !chooses_by_start(kind) {
            return Err(BackwardError::StandardKind);
        }
        if let Some(number) = first_empty(patterns) {
            return Err(BackwardError::EmptyPattern(number));
        }
        match automaton_of(alloc, patterns, kind, ignore_case) {
            Ok(forward) => searcher_by(alloc, &forward, patterns, ignore_case),
            Err(cause) => Err(BackwardError::Build(cause)),
        }
    }
}
