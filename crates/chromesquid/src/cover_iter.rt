//! The runs of a cover in memory, one after another.

ghost use Rattle.std.specs.Prelude.{◌≡◌, ◌*◌, ◌≤◌, IfOk, length};
ghost use Rattle.aho_automaton.specs.Covering.{RefusesCover};
ghost use Rattle.chromesquid.specs.CoverIters.{haystack_of, look_ups_of};
ghost use Rattle.chromesquid.specs.Covers.{RunsFor, why_not_covered};
ghost use Rattle.chromesquid.specs.Searcher.{StandsFor};
ghost use Rattle.either.specs.Either.{MatchEither, either};
ghost use Rattle.either.specs.Iterator.{either_steps};

use crate::searcher::AhoCorasick;
use aho_automaton::automaton::{Automaton, CoverIter as RunsBy};
use aho_core::error::ReplaceError;
use aho_core::search::Match;
use aho_hybrid::hybrid::Hybrid;
use either::{Either, Left, Right};
use std::alloc::Global;
use std::iter::FusedIterator;

/// The runs of a cover, one after another. Which automaton is held was asked when it was made. After `None` it gives `None` again.
#[derive(Drop)]
pub struct CoverIter<'a, 'h> {
    /// Over the searcher itself, or over the rows that it holds.
    by: Either<RunsBy<'a, 'h, AhoCorasick>, RunsBy<'a, 'h, Hybrid>>,
}

/// The runs of a cover, by an automaton that answers as the searcher does.
fn runs_by<'a, 'h, A: Automaton>(
    alloc: Global,
    automaton: &'a A,
    searcher: &AhoCorasick,
    haystack: &'h [u8],
) -> Result<RunsBy<'a, 'h, A>, ReplaceError>
    requires stands { StandsFor A.Automaton automaton.now searcher.now }
    ensures runs { IfOk result (RunsFor
        ⟦<RunsBy<'a, 'h, A> as Iterator>⟧.can_next
        ⟦<RunsBy<'a, 'h, A> as Iterator>⟧.next_gives
        ⟦<RunsBy<'a, 'h, A> as Iterator>⟧.remaining searcher.now haystack.entry.now) }
    ensures refuses { RefusesCover (why_not_covered searcher.now) result }
{
    automaton.try_cover_iter(alloc, haystack)
}

impl<'a, 'h> CoverIter<'a, 'h> {
    /// The runs of the haystack's cover by this searcher.
    ///
    /// # Errors
    ///
    /// As those of `AhoCorasick::try_cover_iter`.
    pub(crate) fn of(
        alloc: Global,
        searcher: &'a AhoCorasick,
        haystack: &'h [u8],
    ) -> Result<CoverIter<'a, 'h>, ReplaceError>
        ensures runs { IfOk result (RunsFor
            ⟦<CoverIter<'a, 'h> as Iterator>⟧.can_next
            ⟦<CoverIter<'a, 'h> as Iterator>⟧.next_gives
            ⟦<CoverIter<'a, 'h> as Iterator>⟧.remaining searcher.entry.now haystack.entry.now) }
        ensures refuses { RefusesCover (why_not_covered searcher.entry.now) result }
    {
        match searcher.rows() {
            Some(rows) => Ok(CoverIter {
                by: Right(runs_by(alloc, rows, searcher, haystack)?),
            }),
            None => Ok(CoverIter {
                by: Left(runs_by(alloc, searcher.itself(), searcher, haystack)?),
            }),
        }
    }

    /// The look-ups of transitions so far: at most two for each byte of the haystack.
    pub fn lookups(&self) -> u128
        requires can { ⟦<CoverIter<'a, 'h> as Iterator>⟧.can_next self.now }
        ensures told { result ≡ look_ups_of self.now }
        ensures cost { result ≤ 2 * length (haystack_of self.now) }
    {
        match &self.by {
            Left(runs) => runs.lookups(),
            Right(runs) => runs.lookups(),
        }
    }
}

impl<'a, 'h> Iterator for CoverIter<'a, 'h> {
    type Item = Match;

    ghost can_next = { λ it. MatchEither it.by
        ⟦<RunsBy<'a, 'h, AhoCorasick> as Iterator>⟧.can_next
        ⟦<RunsBy<'a, 'h, Hybrid> as Iterator>⟧.can_next };

    ghost next_gives = { λ it given after. either_steps
        ⟦<RunsBy<'a, 'h, AhoCorasick> as Iterator>⟧.next_gives
        ⟦<RunsBy<'a, 'h, Hybrid> as Iterator>⟧.next_gives
        it.by given after.by };

    ghost remaining = { λ it. either
        ⟦<RunsBy<'a, 'h, AhoCorasick> as Iterator>⟧.remaining
        ⟦<RunsBy<'a, 'h, Hybrid> as Iterator>⟧.remaining
        it.by };

    fn next(&mut self) -> Option<Match> {
        self.by.next()
    }
}

impl<'a, 'h> FusedIterator for CoverIter<'a, 'h> {}
