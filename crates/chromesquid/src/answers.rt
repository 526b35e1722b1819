//! What users of streams by rows may rest on: a `Hybrid` finds and replaces in streams as its `NFA` does.

ghost use Rattle.std.specs.Prelude.{◌≡◌, IfOk, None, OnOk, false, length};
ghost use Rattle.aho_core.specs.Patterns.{Patterns};
ghost use Rattle.aho_stream.specs.FindRuns.{FindsAlong};
ghost use Rattle.aho_stream.specs.Finds.{FindsNextInStream};
ghost use Rattle.aho_stream.specs.Iterators.{CanGoOn, automaton_of};
ghost use Rattle.aho_stream.specs.Starts.{IsFreshStart};
ghost use Rattle.chromesquid.specs.Alike.{AreFindsGiven, FindsAlike, ReplacesAlike};

use aho_automaton::automaton::Automaton;
use aho_corasick::noncontiguous::NFA;
use aho_core::error::StreamError;
use aho_core::search::Match;
use aho_devices::device::{Sink, Source};
use aho_hybrid::hybrid::Hybrid;
use aho_stream::finds::{StreamFindIter, try_stream_find_iter};
use aho_stream::replace::replace_stream;
use aho_stream::start::StreamStart;
use std::alloc::Global;

/// The matches of two streams, over an `NFA` and over a `Hybrid` of the same patterns: where both sources give the same bytes, the
/// same.
///
/// # Errors
///
/// As those of `try_stream_find_iter`, for the first stream that fails. The law speaks of what is answered in `Ok`: which error is
/// answered, and when, it leaves free.
pub fn rows_do_not_change_stream_finds<R: Source>(
    alloc: Global,
    nfa: &NFA,
    hybrid: &Hybrid,
    source: &mut R,
    other: &mut R,
) -> Result<(Vec<Match>, Vec<Match>), StreamError>
    requires of { (p : Patterns) × ⟦<NFA as Automaton>⟧.is_of nfa.now p
        × ⟦<Hybrid as Automaton>⟧.is_of hybrid.now p }
    ensures alike { IfOk result (λ both. FindsAlike R.Source
        source.old source.new other.old other.new both.0.items both.1.items) }
    ensures finds { (p : Patterns) → ⟦<Hybrid as Automaton>⟧.is_of hybrid.now p →
        IfOk result (λ both. AreFindsGiven R.Source p other.old other.new both.1.items) }
{
    let by_nfa = stream_finds_of(alloc, nfa, source)?;
    let by_rows = stream_finds_of(alloc, hybrid, other)?;
    Ok((by_nfa, by_rows))
}

/// All matches of what a source gives, up to its end.
fn stream_finds_of<A: Automaton, R: Source>(
    alloc: Global,
    automaton: &A,
    source: &mut R,
) -> Result<Vec<Match>, StreamError>
    requires of { (p : Patterns) × A.is_of automaton.now p }
    ensures finds { (p : Patterns) → A.is_of automaton.now p →
        IfOk result (λ found. AreFindsGiven R.Source p source.old source.new found.items) }
{
    let mut found = try_stream_find_iter(alloc, automaton, source)?;
    let matches = collect_matches(alloc, &mut found);
    let _source = found.into_source();
    matches
}

/// The matches that the iterator gives, up to its end.
fn collect_matches<'a, 'r, A: Automaton, R: Source>(
    alloc: Global,
    found: &mut StreamFindIter<'a, 'r, A, R>,
) -> Result<Vec<Match>, StreamError>
    requires ready { CanGoOn A.Automaton found.old.chunks }
    requires along { (p : Patterns) → A.is_of (automaton_of found.old.chunks) p → FindsAlong R.Source
        ⟦<StreamFindIter<'a, 'r, A, R> as Iterator>⟧.next_gives p found.old }
    ensures same_source { found.new.chunks.source.ghost_name ≡ found.old.chunks.source.ghost_name }
    ensures finds { (p : Patterns) → A.is_of (automaton_of found.old.chunks) p →
        IfOk result (λ matches. AreFindsGiven R.Source p
        found.old.chunks.source.now found.new.chunks.source.now matches.items) }
{
    let mut matches = Vec::new(alloc);
    loop {
        match next_of(found) {
            None => return Ok(matches),
            Some(Err(error)) => return Err(error),
            Some(Ok(m)) => {
                let Ok(()) = matches.push(m) else {
                    return Err(StreamError::Memory);
                };
            }
        }
    }
}

/// The next item of the iterator.
fn next_of<'a, 'r, A: Automaton, R: Source>(
    found: &mut StreamFindIter<'a, 'r, A, R>,
) -> Option<Result<Match, StreamError>>
    requires ready { CanGoOn A.Automaton found.old.chunks }
    ensures gives { FindsNextInStream A.Automaton R.Source found.old.chunks found.new.chunks result }
{
    found.next()
}

/// Replacement of two streams, over an `NFA` and over a `Hybrid` of the same patterns: where both sources give the same bytes, both
/// sinks take the same.
///
/// # Errors
///
/// As those of `replace_stream`, for the first stream that fails. The law speaks of `Ok`: which error is answered, and when, it
/// leaves free.
pub fn rows_do_not_change_replaced_streams<R: Source, W: Sink>(
    by_nfa: StreamStart<'_, NFA>,
    by_rows: StreamStart<'_, Hybrid>,
    source: &mut R,
    sink: &mut W,
    other: &mut R,
    second: &mut W,
    replace_with: &[&[u8]],
) -> Result<(), StreamError>
    requires of { (p : Patterns) × ⟦<NFA as Automaton>⟧.is_of by_nfa.automaton.now p
        × ⟦<Hybrid as Automaton>⟧.is_of by_rows.automaton.now p }
    requires fresh { IsFreshStart ⟦<NFA as Automaton>⟧ by_nfa }
    requires open { by_nfa.progress.ended ≡ false }
    requires below { by_nfa.progress.refused ≡ false }
    requires rows_fresh { IsFreshStart ⟦<Hybrid as Automaton>⟧ by_rows }
    requires rows_open { by_rows.progress.ended ≡ false }
    requires rows_below { by_rows.progress.refused ≡ false }
    requires one_each { length replace_with.now
        ≡ length (⟦<NFA as Automaton>⟧.lengths by_nfa.automaton.now) }
    ensures alike { OnOk result (ReplacesAlike R.Source W.Sink
        source.old source.new other.old other.new sink.old sink.new second.old second.new) }
{
    replace_stream(by_nfa, source, sink, &*replace_with)?;
    replace_stream(by_rows, other, second, replace_with)
}
