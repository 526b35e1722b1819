//! Searches in memory.

ghost use Rattle.std.specs.Prelude.{◌≡◌, ◌≢◌, ◌+◌, ◌<◌, ◌≤◌, IfOk, IfSome, IsOk, Ok, Err, None, true, length};
ghost use Rattle.std.specs.Iterator.{UpTo};
ghost use Rattle.aho_core.specs.Answer.{IsAnswer};
ghost use Rattle.aho_core.specs.Search.{search_of};
ghost use Rattle.aho_core.specs.declared.error.MatchErrorKind.TheVariants.{InvalidInputAnchored, InvalidInputUnanchored, UnsupportedOverlapping};
ghost use Rattle.aho_core.specs.declared.search.Anchored.TheVariants.{No, Yes};
ghost use Rattle.aho_core.specs.declared.search.MatchKind.TheVariants.{Standard};
ghost use Rattle.aho_automaton.specs.Finding.{GivesFinds, GivesFirstFinds, span_places};
ghost use Rattle.aho_automaton.specs.Fused.{IsFused};
ghost use Rattle.aho_automaton.specs.Overlaps.{ListsAll, ListsFirst};
ghost use Rattle.aho_automaton.specs.Reading.{ReadsEachOnce, ReadsUpTo};

use crate::input::Searchable;
pub use crate::iter::FindIter;
use crate::kinds::{is_allowed, why_refused};
pub use crate::overlapping::FindOverlappingIter;
use crate::searcher::AhoCorasick;
use aho_automaton::automaton::Automaton;
use aho_automaton::patience::Patience;
use aho_core::error::MatchError;
use aho_core::search::{Anchored, Input, Match, Span};
use aho_prefilter::text::{Bytes, Text};

impl AhoCorasick {
    ghost use Rattle.chromesquid.specs.Found.{RefusesUnlessDone, most_listed};
    ghost use Rattle.chromesquid.specs.Searcher.{Answers, ForItsPatterns, RefusesSearch, TellsIfFound, match_kind_of, why_refused};

    /// What the search finds, by the automaton that is held; it is asked once which one that is. The patience is that with the
    /// prefilter: no answer depends on it.
    ///
    /// # Errors
    ///
    /// As those of `try_find`.
    pub(crate) fn search(
        &self,
        input: &Input,
        patience: &mut Patience,
    ) -> Result<Option<Match>, MatchError>
        ensures found { ForItsPatterns self.now (λ p. IfOk result (IsAnswer p input.now)) }
        ensures ok { Answers self.now input.now.anchored → IsOk result }
        ensures refused { RefusesUnlessDone self.now input.now result }
        ensures done { input.now.end < input.now.start → result ≡ Ok None }
    {
        if is_allowed(self.start_kind(), input.get_anchored()) {
            self.built().automaton().find(input, patience)
        } else {
            Automaton::try_find(self.built(), input)
        }
    }

    /// The match that the search finds, none where there is none.
    ///
    /// The search must be one that the searcher answers; `try_find` tests it.
    pub fn find<'h, I: Searchable<'h>>(&self, input: I) -> Option<Match>
        requires starts { Answers self.now (I.search input).anchored }
        ensures found { ForItsPatterns self.now (λ p. IsAnswer p (I.search input) result) }
    {
        match self.search(&input.into_input(), &mut Patience::new()) {
            Ok(found) => found,
            Err(_) => unreachable!(),
        }
    }

    /// The match that the search finds, none where there is none.
    ///
    /// # Errors
    ///
    /// A search whose anchoring was not built for is refused, if its span does not start above its end.
    pub fn try_find<'h, I: Searchable<'h>>(&self, input: I) -> Result<Option<Match>, MatchError>
        ensures found { ForItsPatterns self.now (λ p. IfOk result (IsAnswer p (I.search input))) }
        ensures ok { Answers self.now (I.search input).anchored → IsOk result }
        ensures refused { RefusesUnlessDone self.now (I.search input) result }
        ensures done { (I.search input).end < (I.search input).start → result ≡ Ok None }
    {
        self.search(&input.into_input(), &mut Patience::new())
    }

    /// The match that ends first in a span of a text, none where nothing occurs in it. It reads each byte at most once, and
    /// an unanchored search none behind that match. What a prefilter reads ahead is not counted. It takes no memory.
    ///
    /// The search must be one that the searcher answers.
    pub fn earliest_in<T: Text>(
        &self,
        text: &mut T,
        span: Span,
        anchored: Anchored,
    ) -> Option<Match>
        requires starts { Answers self.now anchored }
        requires within { span.end ≤ length (T.bytes text.old) }
        requires ordered { span.start ≤ span.end + 1 }
        requires unread { T.next text.old ≤ span.start }
        ensures found { ForItsPatterns self.now (λ p.
            IsAnswer p (search_of (T.bytes text.old) span anchored true) result) }
        ensures each_byte_once { ReadsEachOnce T.Text text.old text.new span.start span.end }
        ensures no_further { anchored ≡ No → IfSome result (λ m.
            ReadsUpTo (T.next text.old) (T.next text.new) m.end) }
    {
        match self.built().automaton().earliest_in(text, span, anchored) {
            Ok(found) => found,
            Err(_) => unreachable!(),
        }
    }

    /// Whether a pattern occurs. It is one call of `earliest_in`, over the text of the haystack: so it reads no further than
    /// that says.
    ///
    /// The search must be one that the searcher answers; `try_find` tests it.
    pub fn is_match<'h, I: Searchable<'h>>(&self, input: I) -> bool
        requires starts { Answers self.now (I.search input).anchored }
        ensures found { ForItsPatterns self.now (λ p.
            TellsIfFound p (record (I.search input) { earliest = true }) result) }
    {
        let input = input.into_input();
        let mut text = Bytes::new(input.haystack());
        let found = self.earliest_in(&mut text, input.get_span(), input.get_anchored());
        found.is_some()
    }

    /// The matches, one after another. It takes no memory, and searches only as matches are asked for.
    ///
    /// The search must be one that the searcher answers; `try_find_iter` tests it.
    pub fn find_iter<'a, 'h, I: Searchable<'h>>(&'a self, input: I) -> FindIter<'a, 'h>
        requires starts { Answers self.now (I.search input).anchored }
        ensures ready { ⟦<FindIter<'a, 'h> as Iterator>⟧.can_next result }
        ensures finds { ForItsPatterns self.entry.now (λ p.
            GivesFinds ⟦<FindIter<'a, 'h> as Iterator>⟧.next_gives p (I.search input) result) }
        ensures first { ForItsPatterns self.entry.now (λ p.
            GivesFirstFinds ⟦<FindIter<'a, 'h> as Iterator>⟧.next_gives p (I.search input) result) }
        ensures bound { UpTo (⟦<FindIter<'a, 'h> as Iterator>⟧.remaining result)
            (span_places (I.search input)) }
        ensures fused { IsFused ⟦<FindIter<'a, 'h> as Iterator>⟧.next_gives result }
    {
        FindIter::new(self.built(), input.into_input())
    }

    /// The matches, one after another. It takes no memory, and searches only as matches are asked for.
    ///
    /// # Errors
    ///
    /// A search whose anchoring was not built for is refused.
    pub fn try_find_iter<'a, 'h, I: Searchable<'h>>(
        &'a self,
        input: I,
    ) -> Result<FindIter<'a, 'h>, MatchError>
        ensures ready { IfOk result ⟦<FindIter<'a, 'h> as Iterator>⟧.can_next }
        ensures finds { ForItsPatterns self.entry.now (λ p. IfOk result
            (GivesFinds ⟦<FindIter<'a, 'h> as Iterator>⟧.next_gives p (I.search input))) }
        ensures first { ForItsPatterns self.entry.now (λ p. IfOk result
            (GivesFirstFinds ⟦<FindIter<'a, 'h> as Iterator>⟧.next_gives p (I.search input))) }
        ensures bound { IfOk result (λ it. UpTo
            (⟦<FindIter<'a, 'h> as Iterator>⟧.remaining it) (span_places (I.search input))) }
        ensures fused { IfOk result (IsFused ⟦<FindIter<'a, 'h> as Iterator>⟧.next_gives) }
        ensures ok { Answers self.entry.now (I.search input).anchored → IsOk result }
        ensures refused { RefusesSearch self.entry.now (I.search input).anchored
            → result ≡ Err (why_refused (I.search input).anchored) }
    {
        let input = input.into_input();
        let anchored = input.get_anchored();
        if is_allowed(self.start_kind(), anchored) {
            Ok(FindIter::new(self.built(), input))
        } else {
            Err(why_refused(anchored))
        }
    }

    /// All matches, those that overlap too, one after another: by end, then start, then number. It takes no memory.
    ///
    /// The match kind must be Standard, and the search one that is not anchored and that the searcher answers;
    /// `try_find_overlapping_iter` tests it.
    pub fn find_overlapping_iter<'a, 'h, I: Searchable<'h>>(
        &'a self,
        input: I,
    ) -> FindOverlappingIter<'a, 'h>
        requires standard { match_kind_of self.now ≡ Standard }
        requires unanchored { (I.search input).anchored ≡ No }
        requires starts { Answers self.now No }
        ensures ready { ⟦<FindOverlappingIter<'a, 'h> as Iterator>⟧.can_next result }
        ensures lists { ForItsPatterns self.entry.now (λ p. ListsAll
            ⟦<FindOverlappingIter<'a, 'h> as Iterator>⟧.next_gives p (I.search input) result) }
        ensures first { ForItsPatterns self.entry.now (λ p. ListsFirst
            ⟦<FindOverlappingIter<'a, 'h> as Iterator>⟧.next_gives p (I.search input) result) }
        ensures bound { UpTo (⟦<FindOverlappingIter<'a, 'h> as Iterator>⟧.remaining result)
            (most_listed self.entry.now (I.search input)) }
        ensures fused { IsFused ⟦<FindOverlappingIter<'a, 'h> as Iterator>⟧.next_gives result }
    {
        match self.try_find_overlapping_iter(input) {
            Ok(matches) => matches,
            Err(_) => unreachable!(),
        }
    }

    /// All matches, those that overlap too, one after another: by end, then start, then number. It takes no memory.
    ///
    /// # Errors
    ///
    /// In this order: a leftmost kind is refused, an anchored search, and a searcher that answers anchored searches alone.
    pub fn try_find_overlapping_iter<'a, 'h, I: Searchable<'h>>(
        &'a self,
        input: I,
    ) -> Result<FindOverlappingIter<'a, 'h>, MatchError>
        ensures unsupported { match_kind_of self.entry.now ≢ Standard
            → result ≡ Err (UnsupportedOverlapping (match_kind_of self.entry.now)) }
        ensures anchored { match_kind_of self.entry.now ≡ Standard → (I.search input).anchored ≡ Yes
            → result ≡ Err InvalidInputAnchored }
        ensures refused { match_kind_of self.entry.now ≡ Standard → (I.search input).anchored ≡ No
            → RefusesSearch self.entry.now No → result ≡ Err InvalidInputUnanchored }
        ensures ok { match_kind_of self.entry.now ≡ Standard → (I.search input).anchored ≡ No
            → Answers self.entry.now No → IsOk result }
        ensures ready { IfOk result ⟦<FindOverlappingIter<'a, 'h> as Iterator>⟧.can_next }
        ensures lists { ForItsPatterns self.entry.now (λ p. IfOk result (ListsAll
            ⟦<FindOverlappingIter<'a, 'h> as Iterator>⟧.next_gives p (I.search input))) }
        ensures first { ForItsPatterns self.entry.now (λ p. IfOk result (ListsFirst
            ⟦<FindOverlappingIter<'a, 'h> as Iterator>⟧.next_gives p (I.search input))) }
        ensures bound { IfOk result (λ it.
            UpTo (⟦<FindOverlappingIter<'a, 'h> as Iterator>⟧.remaining it)
            (most_listed self.entry.now (I.search input))) }
        ensures fused { IfOk result
            (IsFused ⟦<FindOverlappingIter<'a, 'h> as Iterator>⟧.next_gives) }
    {
        FindOverlappingIter::of(self, input.into_input())
    }
}
