//! The automata of a case: the noncontiguous one under each setting, the one that is made of what it tells, those with rows, and
//! those with a packed or a strided search.

ghost use Rattle.std.specs.Prelude.{◌≡◌, IfOk, IfSome};
ghost use Rattle.aho_core.specs.Patterns.{Patterns};
ghost use Rattle.aho_build.specs.Settings.{default_settings};
ghost use Rattle.aho_prefilter.specs.Prefilter.{IsPrefilterOf};
ghost use Rattle.compare.specs.Words.{words_by};

use crate::candidates::{compare_candidates, compare_held};
use crate::count::Count;
use crate::memory::{Asked, compare_in_memory};
use crate::streams::{compare_streams, compare_two};
use aho_automaton::automaton::{Automaton, WithPrefilter};
use aho_corasick::noncontiguous::{Builder, Limits, NFA};
use aho_core::error::BuildError;
use aho_core::search::MatchKind;
use aho_hybrid::hybrid::Hybrid;
use aho_levels::levels::Levels;
use aho_prefilter::prefilter::{PackedBuilder, Prefilter};
use anyhow::Result;
use bench::numbers::Numbers;
use bench::relinked::Relinked;
use std::alloc::{AllocError, Global};

/// Up to which distance from the start states have dense rows.
pub(crate) const DEPTHS: [usize; 4] = [0, 1, 3, usize::MAX];

/// How many bytes the rows of a `Hybrid` take at most.
pub(crate) const BUDGETS: [usize; 5] = [0, 100, 400, 2_000, usize::MAX];

/// The limits of a builder for these words: low ones where all of them keep to these.
fn limits_for(words: &[&[u8]]) -> Limits {
    if words.len() <= 6 && words.iter().all(|word| word.len() <= 4) {
        return Limits {
            id: 2_000,
            pattern: 5,
            length: 4,
        };
    }
    Limits {
        id: usize::MAX,
        pattern: usize::MAX,
        length: usize::MAX,
    }
}

/// A builder of these settings.
fn builder_of(
    kind: MatchKind,
    ignore_case: bool,
    prefilter: bool,
    depth: usize,
    limits: Limits,
) -> Builder
    ensures settings { result ≡ record default_settings {
      kind = kind;
      ignore_case = ignore_case;
      prefilter = prefilter;
      dense_depth = depth;
      limits = limits;
    } }
{
    let mut builder = NFA::builder();
    builder.match_kind(kind);
    builder.ascii_case_insensitive(ignore_case);
    builder.prefilter(prefilter);
    builder.dense_depth(depth);
    builder.limits(limits);
    builder
}

/// The automaton of these words.
pub(crate) fn automaton_of(
    alloc: Global,
    words: &[&[u8]],
    kind: MatchKind,
    ignore_case: bool,
    prefilter: bool,
    depth: usize,
) -> Result<NFA, BuildError>
    ensures of { IfOk result (λ nfa. ⟦<NFA as Automaton>⟧.is_of nfa
        (words_by kind ignore_case words.now)) }
{
    builder_of(kind, ignore_case, prefilter, depth, limits_for(words)).build(
        alloc,
        words.iter().copied(),
    )
}

/// The prefilter of these words where it may be a packed search, if there is one.
fn packed_of(
    alloc: Global,
    words: &[&[u8]],
    kind: MatchKind,
    ignore_case: bool,
) -> Result<Option<Prefilter>, AllocError>
    ensures of { IfOk result (λ held. IfSome held (λ prefilter. IsPrefilterOf prefilter
        (words_by kind ignore_case words.now))) }
{
    let mut builder = PackedBuilder::new(alloc, ignore_case);
    for word in words {
        builder.add(word)?;
    }
    builder.build()
}

/// The prefilter of these words where it may be of each kind, if there is one.
fn quickest_of(
    alloc: Global,
    words: &[&[u8]],
    kind: MatchKind,
    ignore_case: bool,
) -> Result<Option<Prefilter>, AllocError>
    ensures of { IfOk result (λ held. IfSome held (λ prefilter. IsPrefilterOf prefilter
        (words_by kind ignore_case words.now))) }
{
    Prefilter::quickest(alloc, ignore_case, words)
}

/// The prefilter of these words where it may be a packed search, or `strided` a strided one too, if there is one.
fn prefilter_of(
    alloc: Global,
    strided: bool,
    words: &[&[u8]],
    kind: MatchKind,
    ignore_case: bool,
) -> Result<Option<Prefilter>, AllocError>
    ensures of { IfOk result (λ held. IfSome held (λ prefilter. IsPrefilterOf prefilter
        (words_by kind ignore_case words.now))) }
{
    if strided {
        return quickest_of(alloc, words, kind, ignore_case);
    }
    packed_of(alloc, words, kind, ignore_case)
}

/// The text of a stream that is longer than a buffer: this one behind a gap, or over and over again.
fn long_text(alloc: Global, text: &[u8], numbers: &mut Numbers) -> Result<Vec<u8>, AllocError> {
    let size = 65_520 + numbers.below(32);
    let mut long = Vec::new(alloc);
    if numbers.once_in(2) || text.is_empty() {
        for _ in 0..size {
            long.push(b'.')?;
        }
        long.extend_from_slice(text)?;
        return Ok(long);
    }
    for _ in 0..size {
        if long.len() < size {
            long.extend_from_slice(text)?;
        }
    }
    Ok(long)
}

/// Compares each call of an automaton. It may have no start for anchored searches.
pub(crate) fn compare_calls<A: Automaton>(
    alloc: Global,
    automaton: &A,
    asked: &Asked<'_>,
    has_anchored: bool,
    numbers: &mut Numbers,
    count: &mut Count,
) -> Result<()>
    requires of { (p : Patterns) × A.is_of automaton.now p }
{
    if asked.parts.memory {
        compare_in_memory(alloc, automaton, asked, has_anchored, numbers, count)?;
    }
    if asked.parts.streams {
        compare_streams(alloc, automaton, asked.text, asked.bytes, numbers, count)?;
        compare_long(alloc, automaton, asked, numbers, count)?;
    }
    Ok(())
}

/// Compares the calls of an automaton over a stream of the text once more, which now and then is a long one.
fn compare_long<A: Automaton>(
    alloc: Global,
    automaton: &A,
    asked: &Asked<'_>,
    numbers: &mut Numbers,
    count: &mut Count,
) -> Result<()>
    requires of { (p : Patterns) × A.is_of automaton.now p }
{
    if numbers.once_in(64) {
        let text = long_text(alloc, asked.text, numbers)?;
        return compare_streams(
            alloc,
            automaton,
            text.as_slice(),
            asked.bytes,
            numbers,
            count,
        );
    }
    compare_streams(alloc, automaton, asked.text, asked.bytes, numbers, count)
}

/// Compares the calls of the automaton that is made of what another one tells.
fn compare_relinked(
    alloc: Global,
    nfa: &NFA,
    asked: &Asked<'_>,
    numbers: &mut Numbers,
    count: &mut Count,
) -> Result<()>
    requires of { (p : Patterns) × ⟦<NFA as Automaton>⟧.is_of nfa.now p }
{
    let relinked = Relinked::new(alloc, nfa)?;
    let saves = nfa.prefilter().is_some();
    compare_two(alloc, nfa, &relinked, asked.text, saves, numbers, count)?;
    compare_calls(alloc, &relinked, asked, true, numbers, count)
}

/// Compares the calls of an automaton with rows, and with the prefilter of the one that it is made of.
fn compare_rows(
    alloc: Global,
    nfa: &NFA,
    asked: &Asked<'_>,
    numbers: &mut Numbers,
    count: &mut Count,
) -> Result<()>
    requires of { (p : Patterns) × ⟦<NFA as Automaton>⟧.is_of nfa.now p }
{
    let hybrid = Hybrid::with_budget(alloc, nfa, BUDGETS[numbers.below(5)])?;
    compare_two(alloc, &hybrid, nfa, asked.text, true, numbers, count)?;
    compare_calls(alloc, &hybrid, asked, false, numbers, count)
}

/// Compares the calls of an automaton with rows and with this prefilter.
fn compare_prefiltered_rows(
    alloc: Global,
    nfa: &NFA,
    prefilter: Option<Prefilter>,
    asked: &Asked<'_>,
    numbers: &mut Numbers,
    count: &mut Count,
) -> Result<()>
    requires of { (p : Patterns) × ⟦<NFA as Automaton>⟧.is_of nfa.now p
        × IfSome prefilter (λ searcher. IsPrefilterOf searcher p) }
{
    let hybrid = Hybrid::with_prefilter(alloc, nfa, BUDGETS[numbers.below(5)], prefilter)?;
    compare_calls(alloc, &hybrid, asked, false, numbers, count)
}

/// Compares the calls of an automaton that skips by this prefilter.
fn compare_skipping(
    alloc: Global,
    nfa: &NFA,
    prefilter: &Prefilter,
    asked: &Asked<'_>,
    numbers: &mut Numbers,
    count: &mut Count,
) -> Result<()>
    requires of { (p : Patterns) × ⟦<NFA as Automaton>⟧.is_of nfa.now p
        × IsPrefilterOf prefilter.now p }
{
    let skipping = WithPrefilter::new(nfa, prefilter);
    if nfa.prefilter().is_none() {
        compare_two(alloc, &skipping, nfa, asked.text, true, numbers, count)?;
    }
    compare_calls(alloc, &skipping, asked, true, numbers, count)
}

/// Compares the calls of the automata of this one with a prefilter that may be a packed search, or every other time a strided one.
fn compare_prefiltered(
    alloc: Global,
    nfa: &NFA,
    words: &[&[u8]],
    kind: MatchKind,
    ignore_case: bool,
    asked: &Asked<'_>,
    numbers: &mut Numbers,
    count: &mut Count,
) -> Result<()>
    requires of { ⟦<NFA as Automaton>⟧.is_of nfa.now
        (words_by kind ignore_case words.now) }
{
    let strided = numbers.once_in(2);
    if let Some(prefilter) = prefilter_of(alloc, strided, words, kind, ignore_case)? {
        compare_candidates(&prefilter, asked.patterns, asked.text, numbers, count)?;
        compare_skipping(alloc, nfa, &prefilter, asked, numbers, count)?;
    }
    let prefilter = prefilter_of(alloc, strided, words, kind, ignore_case)?;
    compare_prefiltered_rows(alloc, nfa, prefilter, asked, numbers, count)
}

/// How many states of a `Levels` have rows at most.
const ROWS: [usize; 5] = [0, 3, 5, 9, 1024];

/// Compares the calls of the automaton whose states are numbered level by level, now and then with a prefilter.
fn compare_levels(
    alloc: Global,
    nfa: &NFA,
    words: &[&[u8]],
    kind: MatchKind,
    ignore_case: bool,
    asked: &Asked<'_>,
    numbers: &mut Numbers,
    count: &mut Count,
) -> Result<()>
    requires of { ⟦<NFA as Automaton>⟧.is_of nfa.now
        (words_by kind ignore_case words.now) }
{
    let rows = ROWS[numbers.below(5)];
    let plain = Levels::with_rows(alloc, kind, ignore_case, words, None, rows)?;
    compare_two(alloc, &plain, nfa, asked.text, true, numbers, count)?;
    compare_calls(alloc, &plain, asked, true, numbers, count)?;
    let prefilter = prefilter_of(alloc, numbers.once_in(2), words, kind, ignore_case)?;
    let skipping = Levels::with_rows(alloc, kind, ignore_case, words, prefilter, rows)?;
    compare_calls(alloc, &skipping, asked, true, numbers, count)
}

/// Compares the calls of each automaton of these words.
pub(crate) fn compare_automata(
    alloc: Global,
    words: &[&[u8]],
    (kind, ignore_case): (MatchKind, bool),
    asked: &Asked<'_>,
    numbers: &mut Numbers,
    count: &mut Count,
) -> Result<()> {
    let prefilter = numbers.once_in(2);
    let depth = DEPTHS[numbers.below(4)];
    let nfa = automaton_of(alloc, words, kind, ignore_case, prefilter, depth)?;
    compare_held(nfa.prefilter(), prefilter, words, ignore_case, count)?;
    if let Some(prefilter) = nfa.prefilter() {
        compare_candidates(prefilter, asked.patterns, asked.text, numbers, count)?;
    }
    compare_calls(alloc, &nfa, asked, true, numbers, count)?;
    compare_relinked(alloc, &nfa, asked, numbers, count)?;
    compare_rows(alloc, &nfa, asked, numbers, count)?;
    compare_levels(alloc, &nfa, words, kind, ignore_case, asked, numbers, count)?;
    compare_prefiltered(alloc, &nfa, words, kind, ignore_case, asked, numbers, count)
}
