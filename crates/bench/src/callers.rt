//! A caller of each main call of an automaton, with what it may promise in turn.

ghost use Rattle.std.specs.Io.KnownBytes.{Appends, Consumes};
ghost use Rattle.std.specs.Prelude.{◌≡◌, ◌+◌, ◌*◌, ◌-◌, ◌<◌, ◌≤◌, ◌^◌, ℕ, List, IfOk, IfSome, false, true, length, IsOk, None, map};
ghost use Rattle.aho_core.specs.Answer.{IsAnswer};
ghost use Rattle.aho_core.specs.Best.{IsBestOrNone};
ghost use Rattle.aho_core.specs.Iteration.{AreFinds};
ghost use Rattle.aho_core.specs.Occurrence.{Occurrence};
ghost use Rattle.aho_core.specs.Occurs.{Occurs};
ghost use Rattle.aho_core.specs.Overlapping.{all_occurrences};
ghost use Rattle.aho_core.specs.Patterns.{Patterns};
ghost use Rattle.aho_core.specs.Replacement.{pieces_of, replaced};
ghost use Rattle.aho_core.specs.Search.{search_of, plain_search};
ghost use Rattle.aho_core.specs.declared.search.Anchored.TheVariants.{No, Yes};
ghost use Rattle.aho_core.specs.declared.search.MatchKind.TheVariants.{Standard};
ghost use Rattle.aho_build.specs.Items.{patterns_of};
ghost use Rattle.aho_build.specs.Settings.{default_settings};
ghost use Rattle.aho_prefilter.specs.Candidate.{NoneStartsBefore, NothingOccurs};
ghost use Rattle.aho_prefilter.specs.Prefilter.{IsPrefilterOf};
ghost use Rattle.aho_automaton.specs.Finding.{AreFirstFinds, span_places};
ghost use Rattle.bench.specs.Callers.{both_cases, without_help};

use aho_automaton::automaton::{Automaton, Counted, WithPrefilter, find_in};
use aho_corasick::answers::{answer_of, best_occurrence};
use aho_corasick::noncontiguous::{Builder, NFA};
use aho_core::error::{BuildError, MatchError, ReplaceError, StreamError};
use aho_core::search::{Anchored, Input, Match, MatchKind, Span};
use aho_devices::buffer::Buffer;
use aho_devices::device::{Sink, Source};
use aho_devices::write::write_whole;
use aho_prefilter::laws::candidates_tell_where;
use aho_prefilter::prefilter::{PackedBuilder, Prefilter, PrefilterBuilder};
use aho_prefilter::text::Bytes;
use std::alloc::{AllocError, Global};

/// The automaton of these patterns as a new builder builds it.
pub fn standard_automaton(alloc: Global, patterns: &[&[u8]]) -> Result<NFA, BuildError>
    ensures of { IfOk result (λ nfa.
        ⟦<NFA as Automaton>⟧.is_of nfa (patterns_of default_settings patterns.now)) }
{
    NFA::new(alloc, patterns.iter().copied())
}

/// Settings under which no state has a dense row, and no prefilter is held.
fn without_help() -> Builder
    ensures settings { result ≡ without_help }
{
    let mut builder = NFA::builder();
    builder.dense_depth(0).prefilter(false);
    builder
}

/// The automaton of these patterns under those settings.
pub fn helpless_automaton(alloc: Global, patterns: &[&[u8]]) -> Result<NFA, BuildError>
    ensures of { IfOk result (λ nfa.
        ⟦<NFA as Automaton>⟧.is_of nfa (patterns_of default_settings patterns.now)) }
{
    without_help().build(alloc, patterns.iter().copied())
}

/// Settings under which the pattern of least number is found first, in both cases.
fn first_of_both_cases() -> Builder
    ensures settings { result ≡ both_cases }
{
    let mut builder = NFA::builder();
    builder
        .match_kind(MatchKind::LeftmostFirst)
        .ascii_case_insensitive(true);
    builder
}

/// The automaton of these patterns under those settings.
pub fn automaton_of(alloc: Global, patterns: &[&[u8]]) -> Result<NFA, BuildError>
    ensures of { IfOk result (λ nfa.
        ⟦<NFA as Automaton>⟧.is_of nfa (patterns_of both_cases patterns.now)) }
{
    first_of_both_cases().build(alloc, patterns.iter().copied())
}

/// The first match of these patterns in a haystack, built for this one search.
pub fn find_first(
    alloc: Global,
    patterns: &[&[u8]],
    haystack: &[u8],
) -> Result<Option<Match>, BuildError>
    ensures found { IfOk result (IsAnswer (patterns_of both_cases patterns.now)
        (search_of haystack.now (record { start = 0; end = length haystack.now }) No false)) }
{
    let nfa = automaton_of(alloc, patterns)?;
    Ok(answer_of(&nfa, &Input::new(haystack)))
}

/// The first match that starts where the span does.
pub fn find_at(nfa: &NFA, haystack: &[u8], span: Span) -> Option<Match>
    requires of { (p : Patterns) × ⟦<NFA as Automaton>⟧.is_of nfa.now p }
    requires within { span.end ≤ length haystack.now }
    requires ordered { span.start ≤ span.end + 1 }
    ensures found { (p : Patterns) → ⟦<NFA as Automaton>⟧.is_of nfa.now p
        → IsAnswer p (search_of haystack.now span Yes false) result }
{
    let input = Input::new(haystack).span(span).anchored(Anchored::Yes);
    answer_of(nfa, &input)
}

/// The match that the search of an input finds, if it goes no further than this place.
pub fn find_before(nfa: &NFA, input: Input<'_>, end: usize) -> Option<Match>
    requires of { (p : Patterns) × ⟦<NFA as Automaton>⟧.is_of nfa.now p }
    requires within { end ≤ length input.haystack }
    requires ordered { input.start ≤ end + 1 }
    ensures found { (p : Patterns) → ⟦<NFA as Automaton>⟧.is_of nfa.now p
        → IsAnswer p (record input.entry { end = end }) result }
{
    let mut front = input;
    front.set_end(end);
    answer_of(nfa, &front)
}

/// At how many places of an input's span a match may end: at none where the input is done.
pub fn places_in(input: &Input) -> usize
    ensures places { result ≡ span_places input.now }
{
    if input.is_done() {
        return 0;
    }
    input.end() + 1 - input.start()
}

/// The best match of a haystack.
pub fn best_in(nfa: &NFA, haystack: &[u8]) -> Option<Match>
    requires of { (p : Patterns) × ⟦<NFA as Automaton>⟧.is_of nfa.now p }
    ensures best { (p : Patterns) → ⟦<NFA as Automaton>⟧.is_of nfa.now p
        → IsBestOrNone p.kind (Occurs p No haystack.now 0 (length haystack.now)) result }
{
    let end = haystack.len();
    let mut bytes = Bytes::new(haystack);
    let (found, _lookups) = best_occurrence(
        nfa,
        &mut bytes,
        Span { start: 0, end },
        Anchored::No,
        false,
    );
    found
}

/// How many bytes the search of a haystack reads, and how many transitions it looks up.
pub fn cost_of(nfa: &NFA, haystack: &[u8]) -> (usize, u128)
    requires of { (p : Patterns) × ⟦<NFA as Automaton>⟧.is_of nfa.now p }
    ensures reads { result.0 ≤ length haystack.now }
    ensures lookups { result.1 ≤ 2 * result.0 }
{
    let end = haystack.len();
    let mut bytes = Bytes::new(haystack);
    let (_found, lookups) = best_occurrence(
        nfa,
        &mut bytes,
        Span { start: 0, end },
        Anchored::No,
        false,
    );
    (bytes.reads(), lookups)
}

/// How many transitions the search of a haystack looks up.
pub fn lookups_of(nfa: &NFA, haystack: &[u8]) -> u128
    requires of { (p : Patterns) × ⟦<NFA as Automaton>⟧.is_of nfa.now p }
    ensures cost { result ≤ 2 * length haystack.now }
{
    let end = haystack.len();
    let mut walk = Counted::new(nfa);
    let mut bytes = Bytes::new(haystack);
    let _found = find_in(
        &mut walk,
        &mut bytes,
        Span { start: 0, end },
        Anchored::No,
        false,
    );
    walk.lookups()
}

/// Writes to the sink what one fill of a buffer reads from the source, `room` bytes at most, and answers how many.
pub fn pass_on<R: Source, W: Sink>(
    alloc: Global,
    source: &mut R,
    sink: &mut W,
    room: u64,
) -> Result<u64, StreamError>
    ensures passed { IfOk result (λ count. (bytes : List ℕ) × (length bytes ≡ count)
        × Consumes (R.remaining source.old) (R.remaining source.new) bytes
        × Appends (W.taken sink.old) (W.taken sink.new) bytes) }
    ensures limited { IfOk result (λ count. count ≤ room) }
{
    let mut buffer = Buffer::new(alloc, 1)?;
    let filled = buffer.fill(source, room)?;
    write_whole(sink, buffer.buffer())?;
    Ok(filled.read)
}

/// The matches of iteration in order, by a loop, over an automaton that has a start for the input's anchoring.
///
/// # Errors
///
/// The error says that memory ran out.
pub fn each_match<A: Automaton>(
    alloc: Global,
    automaton: &A,
    input: Input<'_>,
) -> Result<Vec<Match>, AllocError>
    requires of { (p : Patterns) × A.is_of automaton.now p }
    requires starts { IsOk (A.start automaton.now input.anchored) }
    ensures finds { (p : Patterns) → A.is_of automaton.now p →
        IfOk result (λ found. AreFinds p input.entry None found.items) }
{
    let mut found = Vec::new(alloc);
    for m in automaton.try_find_iter(input).unwrap() {
        found.push(m)?;
    }
    Ok(found)
}

/// The same by `collect`.
///
/// # Errors
///
/// The error says that memory ran out.
pub fn all_matches<A: Automaton>(
    alloc: Global,
    automaton: &A,
    input: Input<'_>,
) -> Result<Vec<Match>, AllocError>
    requires of { (p : Patterns) × A.is_of automaton.now p }
    requires starts { IsOk (A.start automaton.now input.anchored) }
    ensures finds { (p : Patterns) → A.is_of automaton.now p →
        IfOk result (λ found. AreFinds p input.entry None found.items) }
{
    automaton.try_find_iter(input).unwrap().collect(alloc)
}

/// Where the matches of iteration end, in order.
///
/// # Errors
///
/// The error says that memory ran out.
pub fn match_ends<A: Automaton>(
    alloc: Global,
    automaton: &A,
    input: Input<'_>,
) -> Result<Vec<usize>, AllocError>
    requires of { (p : Patterns) × A.is_of automaton.now p }
    requires starts { IsOk (A.start automaton.now input.anchored) }
    ensures ends { (p : Patterns) → A.is_of automaton.now p →
        IfOk result (λ ends. (ms : List Occurrence) × AreFinds p input.entry None ms
        × (ends.items ≡ map (λ m. m.end) ms)) }
{
    automaton
        .try_find_iter(input)
        .unwrap()
        .map(|m| m.end())
        .collect(alloc)
}

/// The matches of iteration over a haystack. An `NFA` refuses no search.
///
/// # Errors
///
/// The error says that memory ran out.
pub fn matches_in(alloc: Global, nfa: &NFA, haystack: &[u8]) -> Result<Vec<Match>, AllocError>
    requires of { (p : Patterns) × ⟦<NFA as Automaton>⟧.is_of nfa.now p }
    ensures finds { (p : Patterns) → ⟦<NFA as Automaton>⟧.is_of nfa.now p →
        IfOk result (λ found. AreFinds p
        (search_of haystack.now (record { start = 0; end = length haystack.now }) No false)
        None found.items) }
{
    all_matches(alloc, nfa, Input::new(haystack))
}

/// So many of the first matches of iteration, or all where there are fewer.
///
/// # Errors
///
/// The error says that memory ran out.
pub fn first_matches<A: Automaton>(
    alloc: Global,
    automaton: &A,
    input: Input<'_>,
    count: usize,
) -> Result<Vec<Match>, AllocError>
    requires of { (p : Patterns) × A.is_of automaton.now p }
    requires starts { IsOk (A.start automaton.now input.anchored) }
    ensures first { (p : Patterns) → A.is_of automaton.now p →
        IfOk result (λ found. AreFirstFinds p input.entry None found.items) }
{
    automaton
        .try_find_iter(input)
        .unwrap()
        .take(count)
        .collect(alloc)
}

/// All matches of a haystack, those that overlap too: by end, then start, then number.
///
/// # Errors
///
/// The error says that memory ran out.
pub fn find_all(alloc: Global, nfa: &NFA, haystack: &[u8]) -> Result<Vec<Match>, AllocError>
    requires of { (p : Patterns) × ⟦<NFA as Automaton>⟧.is_of nfa.now p }
    requires standard { ⟦<NFA as Automaton>⟧.kind nfa.now ≡ Standard }
    ensures all { (p : Patterns) → ⟦<NFA as Automaton>⟧.is_of nfa.now p → IfOk result (λ found.
        found.items ≡ all_occurrences p haystack.now 0 (length haystack.now)) }
{
    match nfa.try_find_overlapping_iter(Input::new(haystack)) {
        Ok(matches) => matches.collect(alloc),
        Err(_) => unreachable!(),
    }
}

/// Where all matches of a haystack end, those that overlap too.
///
/// # Errors
///
/// The error says that memory ran out.
pub fn ends_of_all(alloc: Global, nfa: &NFA, haystack: &[u8]) -> Result<Vec<usize>, AllocError>
    requires of { (p : Patterns) × ⟦<NFA as Automaton>⟧.is_of nfa.now p }
    requires standard { ⟦<NFA as Automaton>⟧.kind nfa.now ≡ Standard }
    ensures ends { (p : Patterns) → ⟦<NFA as Automaton>⟧.is_of nfa.now p → IfOk result (λ ends.
        ends.items ≡ map (λ m. m.end) (all_occurrences p haystack.now 0 (length haystack.now))) }
{
    let mut ends = Vec::new(alloc);
    match nfa.try_find_overlapping_iter(Input::new(haystack)) {
        Ok(matches) => {
            for m in matches {
                ends.push(m.end())?;
            }
        }
        Err(_) => unreachable!(),
    }
    Ok(ends)
}

/// The haystack with each match replaced by the bytes for its pattern. An `NFA` refuses no search.
///
/// There is one piece for each pattern.
///
/// # Errors
///
/// The error says that memory ran out.
pub fn replaced_in(
    alloc: Global,
    nfa: &NFA,
    haystack: &[u8],
    pieces: &[&[u8]],
) -> Result<Vec<u8>, AllocError>
    requires of { (p : Patterns) × ⟦<NFA as Automaton>⟧.is_of nfa.now p }
    requires one_each { length pieces.now ≡ length (⟦<NFA as Automaton>⟧.lengths nfa.now) }
    ensures replaced { (p : Patterns) (ms : List Occurrence) →
        ⟦<NFA as Automaton>⟧.is_of nfa.now p → AreFinds p (plain_search haystack.now) None ms →
        IfOk result (λ bytes. bytes.items ≡ replaced haystack.now ms (pieces_of pieces.now)) }
{
    match nfa.try_replace_all_bytes(alloc, haystack, pieces) {
        Ok(bytes) => Ok(bytes),
        Err(ReplaceError::Memory) => Err(AllocError),
        Err(ReplaceError::Match(_)) => unreachable!(),
    }
}

/// The prefilter of these patterns in both cases, if there is one.
///
/// # Errors
///
/// The error says that memory ran out.
pub fn prefilter_of(alloc: Global, patterns: &[&[u8]]) -> Result<Option<Prefilter>, AllocError>
    ensures of { IfOk result (λ held. IfSome held (λ prefilter.
        IsPrefilterOf prefilter (patterns_of both_cases patterns.now))) }
{
    let mut builder = PrefilterBuilder::new(alloc, true);
    for pattern in patterns {
        builder.add(pattern)?;
    }
    builder.build()
}

/// The prefilter of these patterns in both cases where it may be a packed search, if there is one.
///
/// # Errors
///
/// The error says that memory ran out.
pub fn packed_prefilter_of(
    alloc: Global,
    patterns: &[&[u8]],
) -> Result<Option<Prefilter>, AllocError>
    ensures of { IfOk result (λ held. IfSome held (λ prefilter.
        IsPrefilterOf prefilter (patterns_of both_cases patterns.now))) }
{
    let mut builder = PackedBuilder::new(alloc, true);
    for pattern in patterns {
        builder.add(pattern)?;
    }
    builder.build()
}

/// The first match in a haystack, by an automaton that skips by this prefilter of its patterns.
pub fn find_by(
    nfa: &NFA,
    prefilter: &Prefilter,
    haystack: &[u8],
) -> Result<Option<Match>, MatchError>
    requires of { (p : Patterns) × ⟦<NFA as Automaton>⟧.is_of nfa.now p
        × IsPrefilterOf prefilter.now p }
    ensures found { (p : Patterns) → ⟦<NFA as Automaton>⟧.is_of nfa.now p
        → IsPrefilterOf prefilter.now p → IfOk result (IsAnswer p
        (search_of haystack.now (record { start = 0; end = length haystack.now }) No false)) }
{
    let automaton = WithPrefilter::new(nfa, prefilter);
    automaton.try_find(&Input::new(haystack))
}

/// Where a match of the prefilter's patterns may start in a haystack; none where there is no match.
pub fn may_start(prefilter: &Prefilter, haystack: &[u8]) -> Option<usize>
    ensures first { (p : Patterns) → IsPrefilterOf prefilter.now p
        → IfSome result (NoneStartsBefore p haystack.now 0 (length haystack.now)) }
    ensures nothing { (p : Patterns) → IsPrefilterOf prefilter.now p
        → result ≡ None → NothingOccurs p haystack.now 0 (length haystack.now) }
{
    candidates_tell_where();
    let end = haystack.len();
    prefilter
        .find_in(haystack, Span { start: 0, end })
        .into_option()
}
