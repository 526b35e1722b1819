//! The matches of a search in memory, one after another.

ghost use Rattle.std.specs.Prelude.{◌≡◌, ◌<◌, ◌≤◌, IfSome, None};
ghost use Rattle.std.specs.Iterator.{UpTo, at_most};
ghost use Rattle.aho_core.specs.Answer.{IsAnswer};
ghost use Rattle.aho_core.specs.Iteration.{IsNextFind};
ghost use Rattle.aho_automaton.specs.Finding.{GivesFinds, GivesFirstFinds, GivesNext, from_next_place, last_after, places_left, search_after, span_places};
ghost use Rattle.aho_automaton.specs.Fused.{IsFused};
ghost use Rattle.chromesquid.specs.Searcher.{Answers, ForItsPatterns, IsBuiltFrom, IsBuiltFromSome};

use crate::searcher::AhoCorasick;
use aho_automaton::patience::Patience;
use aho_core::search::{Input, Match};
use std::iter::FusedIterator;

/// The matches of a search, one after another: each is searched for from the end of the match before, and none is an
/// empty match there.
///
/// `AhoCorasick::find_iter` makes it. It takes no memory. Each search asks once which automaton is held.
#[derive(Drop)]
pub struct FindIter<'a, 'h> {
    searcher: &'a AhoCorasick,
    input: Input<'h>,
    last_match_end: Option<usize>,
    /// What the searches so far have left of the patience with the prefilter.
    patience: Patience,
}

impl<'a, 'h> FindIter<'a, 'h> {
    /// The iterator that has given no match yet.
    pub(crate) fn new(searcher: &'a AhoCorasick, input: Input<'h>) -> FindIter<'a, 'h>
        requires some { IsBuiltFromSome searcher.now }
        requires starts { Answers searcher.now input.anchored }
        ensures ready { ⟦<FindIter<'a, 'h> as Iterator>⟧.can_next result }
        ensures finds { ForItsPatterns searcher.entry.now (λ p.
            GivesFinds ⟦<FindIter<'a, 'h> as Iterator>⟧.next_gives p input.entry result) }
        ensures first { ForItsPatterns searcher.entry.now (λ p.
            GivesFirstFinds ⟦<FindIter<'a, 'h> as Iterator>⟧.next_gives p input.entry result) }
        ensures bound { UpTo (⟦<FindIter<'a, 'h> as Iterator>⟧.remaining result)
            (span_places input.entry) }
        ensures fused { IsFused ⟦<FindIter<'a, 'h> as Iterator>⟧.next_gives result }
    {
        FindIter {
            searcher,
            input,
            last_match_end: None,
            patience: Patience::new(),
        }
    }

    /// What the search of what is left finds.
    fn search(&mut self) -> Option<Match>
        requires starts { Answers self.old.searcher.now self.old.input.anchored }
        ensures found { ForItsPatterns self.old.searcher.now (λ p.
            IsAnswer p self.old.input result) }
        ensures moved { self.new ≡ record self.old { patience = self.new.patience } }
    {
        match self.searcher.search(&self.input, &mut self.patience) {
            Ok(found) => found,
            Err(_) => unreachable!(),
        }
    }

    /// The match from one place on, where an empty match at the last match's end was found.
    fn search_further(&mut self) -> Option<Match>
        requires starts { Answers self.old.searcher.now self.old.input.anchored }
        requires room { self.old.input.start ≤ self.old.input.end }
        ensures found { ForItsPatterns self.old.searcher.now (λ p.
            IsAnswer p (from_next_place self.old.input) result) }
        ensures moved { self.new ≡ record self.old {
          input = from_next_place self.old.input;
          patience = self.new.patience;
        } }
    {
        let _end = self.input.end();
        self.input.set_start(self.input.start() + 1);
        self.search()
    }

    /// The match that comes next: what the search finds or, where that is an empty match at the last match's end, what the
    /// search from one place on finds. At most the start is moved.
    fn answer(&mut self) -> Option<Match>
        requires some { IsBuiltFromSome self.old.searcher.now }
        requires starts { Answers self.old.searcher.now self.old.input.anchored }
        ensures next { ForItsPatterns self.old.searcher.now (λ p.
            IsNextFind p self.old.input self.old.last_match_end result) }
        ensures within { IfSome result (λ m. m.end ≤ self.old.input.end) }
        ensures done { self.old.input.end < self.old.input.start → result ≡ None }
        ensures moved { self.new ≡ record self.old {
          input = record self.old.input { start = self.new.input.start };
          patience = self.new.patience;
        } }
    {
        let found = self.search();
        if let (Some(m), Some(last)) = (found, self.last_match_end)
            && m.is_empty()
            && m.end() == last
        {
            return self.search_further();
        }
        found
    }

    /// The match that comes next, as `answer` tells it. Fewer places are left after it.
    fn next_find(&mut self) -> Option<Match>
        requires some { IsBuiltFromSome self.old.searcher.now }
        requires starts { Answers self.old.searcher.now self.old.input.anchored }
        ensures next { ForItsPatterns self.old.searcher.now (λ p.
            IsNextFind p self.old.input self.old.last_match_end result) }
        ensures within { IfSome result (λ m. m.end ≤ self.old.input.end) }
        ensures done { self.old.input.end < self.old.input.start → result ≡ None }
        ensures fewer { IfSome result (λ m. places_left (search_after self.old.input result)
            (last_after self.old.last_match_end result)
            < places_left self.old.input self.old.last_match_end) }
        ensures moved { self.new ≡ record self.old {
          input = record self.old.input { start = self.new.input.start };
          patience = self.new.patience;
        } }
    {
        self.answer()
    }
}

impl<'a, 'h> Iterator for FindIter<'a, 'h> {
    type Item = Match;

    ghost can_next = { λ it. IsBuiltFromSome it.searcher.now
        × Answers it.searcher.now it.input.anchored };

    ghost next_gives = { λ it found rest. (rest.searcher ≡ it.searcher)
        × GivesNext (IsBuiltFrom it.searcher.now) it.input it.last_match_end found
        rest.input rest.last_match_end };

    ghost remaining = { λ it. at_most (places_left it.input it.last_match_end) };

    fn next(&mut self) -> Option<Match> {
        let Some(m) = self.next_find() else {
            let end = self.input.end();
            self.input.set_start(end + 1);
            return None;
        };
        self.input.set_start(m.end());
        self.last_match_end = Some(m.end());
        Some(m)
    }
}

impl<'a, 'h> FusedIterator for FindIter<'a, 'h> {}
