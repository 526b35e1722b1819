//! All matches of a search in memory, those that overlap too, one after another.

ghost use Rattle.std.specs.Prelude.{IfOk};
ghost use Rattle.chromesquid.specs.Found.{AnswersListing, ListsFor};
ghost use Rattle.chromesquid.specs.Searcher.{StandsFor};
ghost use Rattle.either.specs.Either.{MatchEither, either};
ghost use Rattle.either.specs.Iterator.{either_steps};

use crate::searcher::AhoCorasick;
use aho_automaton::automaton::{Automaton, FindOverlappingIter as ListBy};
use aho_core::error::MatchError;
use aho_core::search::{Input, Match};
use aho_hybrid::hybrid::Hybrid;
use either::{Either, Left, Right};
use std::iter::FusedIterator;

/// All matches of a search, those that overlap too, one after another. Which automaton is held was asked when it was made. After
/// `None` it gives `None` again.
#[derive(Drop)]
pub struct FindOverlappingIter<'a, 'h> {
    /// Over the searcher itself, or over the rows that it holds.
    by: Either<ListBy<'a, 'h, AhoCorasick>, ListBy<'a, 'h, Hybrid>>,
}

/// All matches of a search, by an automaton that answers as the searcher does.
fn list_by<'a, 'h, A: Automaton>(
    automaton: &'a A,
    searcher: &AhoCorasick,
    input: Input<'h>,
) -> Result<ListBy<'a, 'h, A>, MatchError>
    requires stands { StandsFor A.Automaton automaton.now searcher.now }
    ensures answers { AnswersListing searcher.now input.entry result }
    ensures lists { IfOk result (ListsFor
        ⟦<ListBy<'a, 'h, A> as Iterator>⟧.can_next
        ⟦<ListBy<'a, 'h, A> as Iterator>⟧.next_gives
        ⟦<ListBy<'a, 'h, A> as Iterator>⟧.remaining searcher.now input.entry) }
{
    automaton.try_find_overlapping_iter(input)
}

impl<'a, 'h> FindOverlappingIter<'a, 'h> {
    /// All matches of a search by this searcher.
    ///
    /// # Errors
    ///
    /// As those of `AhoCorasick::try_find_overlapping_iter`.
    pub(crate) fn of(
        searcher: &'a AhoCorasick,
        input: Input<'h>,
    ) -> Result<FindOverlappingIter<'a, 'h>, MatchError>
        ensures answers { AnswersListing searcher.entry.now input.entry result }
        ensures lists { IfOk result (ListsFor
            ⟦<FindOverlappingIter<'a, 'h> as Iterator>⟧.can_next
            ⟦<FindOverlappingIter<'a, 'h> as Iterator>⟧.next_gives
            ⟦<FindOverlappingIter<'a, 'h> as Iterator>⟧.remaining searcher.entry.now input.entry) }
    {
        match searcher.rows() {
            Some(rows) => Ok(FindOverlappingIter {
                by: Right(list_by(rows, searcher, input)?),
            }),
            None => Ok(FindOverlappingIter {
                by: Left(list_by(searcher.itself(), searcher, input)?),
            }),
        }
    }
}

impl<'a, 'h> Iterator for FindOverlappingIter<'a, 'h> {
    type Item = Match;

    ghost can_next = { λ it. MatchEither it.by
        ⟦<ListBy<'a, 'h, AhoCorasick> as Iterator>⟧.can_next
        ⟦<ListBy<'a, 'h, Hybrid> as Iterator>⟧.can_next };

    ghost next_gives = { λ it given after. either_steps
        ⟦<ListBy<'a, 'h, AhoCorasick> as Iterator>⟧.next_gives
        ⟦<ListBy<'a, 'h, Hybrid> as Iterator>⟧.next_gives
        it.by given after.by };

    ghost remaining = { λ it. either
        ⟦<ListBy<'a, 'h, AhoCorasick> as Iterator>⟧.remaining
        ⟦<ListBy<'a, 'h, Hybrid> as Iterator>⟧.remaining
        it.by };

    fn next(&mut self) -> Option<Match> {
        self.by.next()
    }
}

impl<'a, 'h> FusedIterator for FindOverlappingIter<'a, 'h> {}
