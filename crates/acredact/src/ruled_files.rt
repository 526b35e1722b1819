//! The redaction of streams line by line, by rules.

ghost use Rattle.std.specs.Prelude.{◌≡◌, IfOk, IfSome};
ghost use Rattle.secret_rules.specs.LineCovers.{of_devices};
ghost use Rattle.secret_rules.specs.OpenLines.{CanSearch};
ghost use Rattle.secret_rules.specs.Ready.{CanCoverLines, most_of, rules_of, searched_automaton, words_of};
ghost use Rattle.acredact.specs.Ruled.{AreSearchedBy};

use crate::ways::Way;
use chromesquid::any::Pieces;
use chromesquid::{Automaton, BuildError, Sink, Source, StreamError};
use secret_rules::{LineCover, LineError, Rules, cover_lines};
use std::alloc::Global;

/// How many numbers patterns, rules and long lines have together at most.
const MOST_NUMBERS: usize = 2_147_483_646;

/// What redacts lines: by what they are covered, and what is written.
#[derive(Drop)]
pub struct Lined<'r, 'a, A, P> {
    /// What covers them.
    pub cover: LineCover<'r, 'a, A>,
    /// What is written for each number: of a pattern, behind those of a rule, and behind these of lines that are too long.
    pub pieces: P,
    /// What came of the last stream: a line that cannot be marked ends one as if memory had run out.
    pub done: Result<(), LineError>,
}

impl<A, P> Lined<'_, '_, A, P> {
    /// Why files were not redacted that ended so.
    pub fn fault(&self, error: StreamError) -> LineError {
        match self.done {
            Err(LineError::Mark(unmarked)) => LineError::Mark(unmarked),
            _ => LineError::Stream(error),
        }
    }
}

impl<A: Automaton, P: Pieces> Way for Lined<'_, '_, A, P> {
    ghost use Rattle.acredact.specs.Ruled.{IsLined, Ruling, deed_by};

    ghost Plan = { Ruling };

    ghost means = { deed_by };

    ghost by = { λ lined ruling. IsLined A.Automaton P.Pieces lined ruling };

    /// Each line is written once its end was read, and the output is flushed before each read.
    fn redact<R: Source, W: Sink>(
        &mut self,
        counts: &mut [u64],
        source: &mut R,
        sink: &mut W,
    ) -> Result<(), StreamError> {
        self.done = cover_lines(&mut self.cover, source, sink, &mut self.pieces, counts);
        of_devices(&self.done)
    }
}

/// What that means of devices, and of memory.
fn of_devices(done: &Result<(), LineError>) -> Result<(), StreamError>
    ensures devices { result ≡ of_devices done.now }
{
    match done {
        Ok(()) => Ok(()),
        Err(LineError::Stream(error)) => Err(*error),
        Err(LineError::Mark(_)) => Err(StreamError::Memory),
    }
}

/// What covers lines, by rules and by the patterns of an automaton, where it has some.
///
/// # Errors
///
/// Out of memory, or there are more numbers than one may have.
pub fn line_cover<'r, 'a, A: Automaton>(
    alloc: Global,
    automaton: &'a A,
    rules: &'r Rules,
    words: bool,
    most: usize,
) -> Result<LineCover<'r, 'a, A>, BuildError>
    requires ready { CanSearch A.Automaton automaton.now }
    ensures ready { IfOk result (CanCoverLines A.Automaton) }
    ensures searched { IfOk result (λ cover. AreSearchedBy A.Automaton automaton.entry.now
        (searched_automaton cover)) }
    ensures words { IfOk result (λ cover. words_of cover ≡ words) }
    ensures rules { IfOk result (λ cover. rules_of cover ≡ rules.entry.now) }
    ensures most { IfOk result (λ cover. most_of cover ≡ most) }
{
    let count = rules.as_slice().len();
    let patterns = automaton.patterns_len();
    if count >= MOST_NUMBERS {
        return Err(too_many(count));
    }
    if patterns >= MOST_NUMBERS - count {
        return Err(too_many(patterns));
    }
    match LineCover::new(alloc, rules, some_of(automaton), words, most) {
        Ok(cover) => Ok(cover),
        Err(_) => Err(BuildError::OutOfMemory),
    }
}

/// There are too many patterns or rules.
fn too_many(requested: usize) -> BuildError {
    BuildError::PatternIDOverflow {
        max: MOST_NUMBERS as u64,
        requested: requested as u64,
    }
}

/// An automaton, if it has a pattern.
fn some_of<A: Automaton>(automaton: &A) -> Option<&A>
    ensures searched { AreSearchedBy A.Automaton automaton.entry.now result }
    ensures same { IfSome result (λ a. a.now ≡ automaton.entry.now) }
{
    if automaton.patterns_len() == 0 {
        return None;
    }
    Some(automaton)
}
