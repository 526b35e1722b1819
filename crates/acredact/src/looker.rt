//! What is looked for in texts: patterns, or what counts of them.

ghost use Rattle.std.specs.Prelude.{◌≡◌, ◌<◌, ◌≤◌, ℕ, Bool, List, [], IfErr, IfOk, MatchBool, length, slice_index, true, false};
ghost use mathlib.Core.Logic.{inl};
ghost use Rattle.chromesquid.specs.Searcher.{ForItsPatterns};
ghost use Rattle.tool_parts.specs.Streams.{bytes_left};
ghost use Rattle.tool_parts.specs.declared.failure.Failure.TheVariants.{OutOfMemory};
ghost use Rattle.acredact.specs.Looks.{CanLook, CountsInGiven, IsLookEnd, IsReadLook, LookedText, LooksAt, LooksSo, Sought, occurs_of, sought};
ghost use Rattle.acredact.specs.Secrets.{IfOf, Redactor};
ghost use Rattle.acredact.specs.declared.failure.Failure.{Failure};
ghost use Rattle.acredact.specs.declared.failure.Failure.TheVariants.{Other};

use crate::failure::Failure;
use crate::look::Look;
use chromesquid::any::{PatternPieces, StreamCoverStart, StreamStart, cover_with};
use chromesquid::{AhoCorasick, Automaton, FromRead, Match, Nowhere, Sink, Source, StreamError};
use std::alloc::Global;
use std::io::Read;
use tool_parts::failure;
use tool_parts::reason::Reason;

/// What looks at texts, one after another.
pub trait Looker {
    /// What it looks for.
    ghost by: { Self → Sought → Type 0 };

    /// Why a look ends the check.
    ghost stops: { Failure → Type 0 };

    /// Looks at what the input gives, which has this name, and may tell to the output what it finds.
    fn look<'f, I: Read, W: Sink>(
        &mut self,
        name: &str,
        input: &mut FromRead<I>,
        output: &mut W,
    ) -> Result<Look, Failure<'f>>
        requires ready { (s : Sought) × by self.old s }
        ensures looks { (s : Sought) → by self.old s → LookedText s name.now result
            (bytes_left input.old) (bytes_left input.new) (W.taken output.old) (W.taken output.new) }
        ensures only { IfOk result IsReadLook }
        ensures why { IfErr result stops }
        ensures still { (s : Sought) → by self.old s → by self.new s };
}

/// What looks for patterns: up to the first match at most, or where words alone count to the end of a text.
#[derive(Clone, Copy)]
pub struct ByPatterns<'s> {
    /// What memory is taken from.
    pub alloc: Global,
    /// What searches for them.
    pub searcher: &'s AhoCorasick,
    /// Whether words alone count.
    pub words: bool,
}

impl Looker for ByPatterns<'_> {
    ghost use Rattle.acredact.specs.Checks.{IsByTexts};

    ghost by = { λ looker s. IsByTexts ⟦<AhoCorasick as Automaton>⟧ looker.searcher.now looker.words s };

    ghost stops = { λ failure. failure ≡ Other OutOfMemory };

    fn look<'f, I: Read, W: Sink>(
        &mut self,
        _name: &str,
        input: &mut FromRead<I>,
        _output: &mut W,
    ) -> Result<Look, Failure<'f>> {
        input.restart();
        look_of(counts_by(self.alloc, self.searcher, self.words, input))
    }
}

/// What a file is found to be, by what is answered of its stream.
fn look_of<'f>(occurs: Result<bool, StreamError>) -> Result<Look, Failure<'f>>
    requires ends { IfErr occurs IsLookEnd }
    ensures only { IfOk result IsReadLook }
    ensures why { IfErr result (λ failure. failure ≡ Other OutOfMemory) }
    ensures so { (r : Redactor) (name given : List ℕ) (ended : Bool)
        → IfOk occurs (λ found. CountsInGiven r found given ended) → LooksSo (inl r) name result given ended [] }
{
    match occurs {
        Ok(true) => Ok(Look::Found),
        Ok(false) => Ok(Look::Clean),
        Err(StreamError::Read(_)) => Ok(Look::Unread(Reason::ReadFault)),
        Err(StreamError::PositionLimit) => Ok(Look::Unread(Reason::PositionLimit)),
        Err(StreamError::Memory) => Err(Failure::Other(failure::Failure::OutOfMemory)),
        Err(_) => unreachable!(),
    }
}

/// Whether something counts in what the source gives, by the automaton that the searcher holds.
#[tactic(auto, using(crate::proofs::Standing::look_as))]
fn counts_by<R: Source>(
    alloc: Global,
    searcher: &AhoCorasick,
    words: bool,
    source: &mut R,
) -> Result<bool, StreamError>
    requires ready { CanLook ⟦<AhoCorasick as Automaton>⟧ searcher.now words }
    ensures looks { ForItsPatterns searcher.now (λ p.
        LooksAt R.Source (sought p words) result source.old source.new) }
{
    if let Some(rows) = searcher.rows() {
        return counts_in(alloc, rows, words, source);
    }
    match searcher.levels() {
        Some(levels) => counts_in(alloc, levels, words, source),
        None => counts_in(alloc, searcher.itself(), words, source),
    }
}

/// Whether something counts in what the source gives: some pattern, or one that stands as a word.
///
/// # Errors
///
/// `Read` where a read fails, `PositionLimit` where the source gave 2^63 - 1 bytes, and `Memory`.
fn counts_in<A: Automaton, R: Source>(
    alloc: Global,
    automaton: &A,
    words: bool,
    source: &mut R,
) -> Result<bool, StreamError>
    requires ready { CanLook A.Automaton automaton.now words }
    ensures looks { IfOf A.Automaton automaton.now (λ p.
        LooksAt R.Source (sought p words) result source.old source.new) }
{
    if words {
        return stands_in(alloc, automaton, source);
    }
    occurs_in(alloc, automaton, source)
}

/// Whether some pattern stands as a word in what the source gives. It is read to its end.
///
/// # Errors
///
/// As `counts_in`.
fn stands_in<A: Automaton, R: Source>(
    alloc: Global,
    automaton: &A,
    source: &mut R,
) -> Result<bool, StreamError>
    requires ready { CanLook A.Automaton automaton.now true }
    ensures looks { IfOf A.Automaton automaton.now (λ p.
        LooksAt R.Source (sought p true) result source.old source.new) }
{
    let mut start = StreamCoverStart::new_with(alloc, automaton, true)?;
    let mut counts: Vec<u64> = vec![in alloc; 0; automaton.patterns_len()]?;
    let mut pieces = PatternPieces::new(&[]);
    let tally = counts.as_mut_slice();
    cover_with(&mut start, source, &mut Nowhere, &mut pieces, tally)?;
    Ok(is_some_counted(tally))
}

/// Whether some count is not zero.
fn is_some_counted(counts: &[u64]) -> bool
    ensures { MatchBool result ((number : ℕ) × (number < length counts.now) × (1 ≤ slice_index counts.now number))
        ((number : ℕ) → number < length counts.now → slice_index counts.now number ≡ 0) }
{
    for count in counts {
        if *count != 0 {
            return true;
        }
    }
    false
}

/// Whether some pattern occurs in what the source gives. It is read until a match is settled, or to its end.
///
/// # Errors
///
/// As `counts_in`.
fn occurs_in<A: Automaton, R: Source>(
    alloc: Global,
    automaton: &A,
    source: &mut R,
) -> Result<bool, StreamError>
    requires ready { CanLook A.Automaton automaton.now false }
    ensures looks { IfOf A.Automaton automaton.now (λ p.
        LooksAt R.Source (sought p false) result source.old source.new) }
{
    // Not by `try_stream_find_iter`, which does not say that a refusal leaves the source as it was.
    let start = StreamStart::new(alloc, automaton)?;
    let mut finds = start.finds(source);
    let first = finds.next();
    let _source = finds.into_source();
    occurs_of(first)
}

/// Whether something occurs, by what a first find is.
fn occurs_of(first: Option<Result<Match, StreamError>>) -> Result<bool, StreamError>
    ensures occurs { result ≡ occurs_of first }
{
    match first {
        None => Ok(false),
        Some(Ok(_)) => Ok(true),
        Some(Err(error)) => Err(error),
    }
}
