//! The matches of a search, one after another.

ghost use Rattle.std.specs.Prelude.{◌≡◌, ℕ, ◌+◌, ◌-◌, ◌<◌, ◌≤◌, IsOk, IfOk, IfErr, IfSome, Ok, Err, None, Some};
ghost use Rattle.std.specs.Iterator.{UpTo, at_most};
ghost use Rattle.aho_core.specs.Answer.{IsAnswer};
ghost use Rattle.aho_core.specs.Iteration.{IsNextFind};
ghost use Rattle.aho_core.specs.Patterns.{Patterns};
ghost use Rattle.aho_core.specs.declared.error.MatchErrorKind.{MatchErrorKind};
ghost use Rattle.aho_automaton.specs.Fused.{IsFused};
ghost use Rattle.aho_automaton.specs.Finding.{GivesFinds, GivesFirstFinds, GivesNext, from_next_place, last_after, span_places, places_left, search_after};

use crate::automaton::Automaton;
use crate::patience::Patience;
use crate::patient::find_in_by;
use crate::walk::Counted;
use aho_core::error::MatchError;
use aho_core::search::{Input, Match, Span};
use aho_prefilter::text::Bytes;
use std::iter::FusedIterator;

/// The matches of a search, one after another: each is searched for from the end of the match before, and none is an
/// empty match there.
///
/// `try_find_iter` makes it. It takes no memory.
#[derive(Drop)]
pub struct FindIter<'a, 'h, A> {
    automaton: &'a A,
    input: Input<'h>,
    last_match_end: Option<usize>,
    /// What the searches so far have left of the patience with the prefilter.
    patience: Patience,
}

impl<'a, 'h, A: Automaton> FindIter<'a, 'h, A> {
    /// The iterator that has given no match yet.
    ///
    /// # Errors
    ///
    /// It is refused exactly where `start_state` refuses the input's anchoring.
    pub(crate) fn new(automaton: &'a A, input: Input<'h>) -> Result<FindIter<'a, 'h, A>, MatchError>
        requires of { (p : Patterns) × A.is_of automaton.now p }
        ensures made { IfOk result (λ it. (it.automaton ≡ automaton.entry)
            × (it.input ≡ input.entry) × (it.last_match_end ≡ None)) }
        ensures ready { IfOk result (λ it.
            ⟦<FindIter<'a, 'h, A> as Iterator>⟧.can_next it) }
        ensures finds { (p : Patterns) → A.is_of automaton.entry.now p → IfOk result
            (GivesFinds ⟦<FindIter<'a, 'h, A> as Iterator>⟧.next_gives p input.entry) }
        ensures first { (p : Patterns) → A.is_of automaton.entry.now p → IfOk result
            (GivesFirstFinds ⟦<FindIter<'a, 'h, A> as Iterator>⟧.next_gives p input.entry) }
        ensures bound { IfOk result (λ it. UpTo
            (⟦<FindIter<'a, 'h, A> as Iterator>⟧.remaining it) (span_places input.entry)) }
        ensures fused { IfOk result (IsFused ⟦<FindIter<'a, 'h, A> as Iterator>⟧.next_gives) }
        ensures error { IfErr result (λ reason.
            A.start automaton.entry.now input.entry.anchored ≡ Err reason) }
        ensures refused { (reason : MatchErrorKind) →
            A.start automaton.entry.now input.entry.anchored ≡ Err reason → result ≡ Err reason }
        ensures ok { (sid : ℕ) → A.start automaton.entry.now input.entry.anchored ≡ Ok sid →
            IsOk result }
    {
        let _start = automaton.start_state(input.get_anchored())?;
        Ok(FindIter {
            automaton,
            input,
            last_match_end: None,
            patience: Patience::new(),
        })
    }

    /// What the search of what is left finds.
    fn search(&mut self) -> Option<Match>
        requires of { (p : Patterns) × A.is_of self.old.automaton.now p }
        requires starts { IsOk (A.start self.old.automaton.now self.old.input.anchored) }
        ensures found { (p : Patterns) → A.is_of self.old.automaton.now p →
            IsAnswer p self.old.input result }
        ensures moved { self.new ≡ record self.old { patience = self.new.patience } }
    {
        let mut walk = Counted::new(self.automaton);
        let mut text = Bytes::new(self.input.haystack());
        let span = Span {
            start: self.input.start(),
            end: self.input.end(),
        };
        find_in_by(
            &mut walk,
            &mut text,
            span,
            self.input.get_anchored(),
            self.input.get_earliest(),
            &mut self.patience,
        )
        .unwrap()
    }

    /// The match from one place on, where an empty match at the last match's end was found.
    fn handle_overlapping_empty_match(&mut self) -> Option<Match>
        requires of { (p : Patterns) × A.is_of self.old.automaton.now p }
        requires starts { IsOk (A.start self.old.automaton.now self.old.input.anchored) }
        requires room { self.old.input.start ≤ self.old.input.end }
        ensures found { (p : Patterns) → A.is_of self.old.automaton.now p →
            IsAnswer p (from_next_place self.old.input) result }
        ensures moved { self.new ≡ record self.old {
          input = from_next_place self.old.input;
          patience = self.new.patience;
        } }
    {
        let _end = self.input.end();
        self.input.set_start(self.input.start() + 1);
        self.search()
    }

    /// The match that comes next: what the search finds or, where that is an empty match at the last match's end, what the
    /// search from one place on finds. At most the start is moved.
    fn next_find(&mut self) -> Option<Match>
        requires of { (p : Patterns) × A.is_of self.old.automaton.now p }
        requires starts { IsOk (A.start self.old.automaton.now self.old.input.anchored) }
        ensures next { (p : Patterns) → A.is_of self.old.automaton.now p →
            IsNextFind p self.old.input self.old.last_match_end result }
        ensures within { IfSome result (λ m. m.end ≤ self.old.input.end) }
        ensures done { self.old.input.end < self.old.input.start → result ≡ None }
        ensures fewer { IfSome result (λ m. places_left (search_after self.old.input result)
            (last_after self.old.last_match_end result)
            < places_left self.old.input self.old.last_match_end) }
        ensures moved { self.new ≡ record self.old {
          input = record self.old.input { start = self.new.input.start };
          patience = self.new.patience;
        } }
    {
        let found = self.search();
        if let (Some(m), Some(last)) = (found, self.last_match_end)
            && m.is_empty()
            && m.end() == last
        {
            return self.handle_overlapping_empty_match();
        }
        found
    }
}

impl<'a, 'h, A: Automaton> Iterator for FindIter<'a, 'h, A> {
    type Item = Match;

    ghost can_next = { λ it. ((p : Patterns) × A.is_of it.automaton.now p)
        × IsOk (A.start it.automaton.now it.input.anchored) };

    ghost next_gives = { λ it found rest. (rest.automaton ≡ it.automaton)
        × GivesNext (A.is_of it.automaton.now) it.input it.last_match_end found
        rest.input rest.last_match_end };

    ghost remaining = { λ it. at_most (places_left it.input it.last_match_end) };

    fn next(&mut self) -> Option<Match> {
        let Some(m) = self.next_find() else {
            let end = self.input.end();
            self.input.set_start(end + 1);
            return None;
        };
        self.input.set_start(m.end());
        self.last_match_end = Some(m.end());
        Some(m)
    }
}

impl<'a, 'h, A: Automaton> FusedIterator for FindIter<'a, 'h, A> {}
