//! Automata: what each state tells of the bytes that were read, and the search that follows from it.
//!
//! An automaton is read one byte at a time. It starts in the state that `start_state` answers, and each byte leads to
//! the next state. A state lists patterns, the best that ends where it stands first, and `try_find` reads the answer of
//! a search off these lists. What it takes for that to be the right answer are the trait's laws: whoever implements the
//! trait proves them once, and each search is proved from them alone.

ghost use Rattle.std.specs.Prelude.{◌≡◌, if◌then◌else◌, ℕ, List, [], ◌∷◌, ◌++◌, Bool, true, false, Option, Result, IsOk, IfOk, IfErr, Ok, Err, None, Some, IfSome, ◌+◌, ◌-◌, ◌<◌, ◌≤◌, ◌^◌, ◌↔◌, IsTrue, length, slice_get, slice_index, ◌≢◌, ◌*◌, OnOk, alloc_error, string_bytes, vec_items};
ghost use Rattle.std.specs.Iterator.{UpTo};
ghost use Rattle.std.specs.Option.{option_map};
ghost use Rattle.aho_core.specs.Answer.{IsAnswer};
ghost use Rattle.aho_core.specs.ClosureRun.{RunsInMemory};
ghost use Rattle.aho_core.specs.Cover.{IsCover};
ghost use Rattle.aho_core.specs.Held.{held_after};
ghost use Rattle.aho_core.specs.Laws.{Reads, longest, shortest};
ghost use Rattle.aho_core.specs.Numbers.{greatest_index};
ghost use Rattle.aho_core.specs.Overlapping.{overlapping};
ghost use Rattle.aho_core.specs.Patterns.{Patterns};
ghost use Rattle.aho_core.specs.Progress.{without_match};
ghost use Rattle.aho_core.specs.declared.error.MatchErrorKind.{MatchErrorKind};
ghost use Rattle.aho_core.specs.declared.error.MatchErrorKind.TheVariants.{InvalidInputAnchored, UnsupportedOverlapping};
ghost use Rattle.aho_core.specs.Replacement.{on_boundaries, pieces_of, replaced};
ghost use Rattle.aho_core.specs.declared.error.replace.ReplaceError.{ReplaceError};
ghost use Rattle.aho_core.specs.declared.search.Anchored.TheVariants.{No};
ghost use Rattle.aho_core.specs.declared.search.Anchored.{Anchored};
ghost use Rattle.aho_core.specs.declared.search.Anchored.TheVariants.{No, Yes};
ghost use Rattle.aho_core.specs.declared.search.MatchKind.{MatchKind};
ghost use Rattle.aho_core.specs.declared.search.MatchKind.TheVariants.{Standard};
ghost use Rattle.aho_core.specs.Step.{depth_of};
ghost use Rattle.aho_core.specs.Steps.{GoesOn, IsPaid};
ghost use Rattle.aho_prefilter.specs.Prefilter.{IsPrefilterOf};
ghost use Rattle.aho_prefilter.specs.declared.prefilter.Searcher.{Searcher};
ghost use Rattle.aho_automaton.specs.Covering.{GivesFirstRuns, GivesRuns, RefusesCover, cover_refusal};
ghost use Rattle.aho_automaton.specs.Finding.{GivesFinds, GivesFirstFinds, HoldsOfFinds, span_places};
ghost use Rattle.aho_automaton.specs.Fused.{IsFused};
ghost use Rattle.aho_automaton.specs.Overlaps.{FindsNext, FindsNothing, FitsNext, FitsSome, ListsAll, ListsFirst, RefusesFirst, left};

mod reference;
mod with_prefilter;

pub use crate::cover::CoverIter;
use crate::cover::cover_bytes;
pub use crate::find::find_in;
pub use crate::iter::FindIter;
use crate::overlapping::next_match;
pub use crate::overlapping::{FindOverlappingIter, OverlappingState};
pub use crate::patience::Patience;
pub use crate::patient::find_in_by;
use crate::replace::{append_piece, append_text, replace_bytes, replace_text};
pub use crate::walk::{Counted, Walk};
use aho_core::error::{MatchError, ReplaceError};
use aho_core::search::{Anchored, Input, Match, MatchKind, PatternID, Span, StateID, Work};
use aho_prefilter::prefilter::Prefilter;
use aho_prefilter::text::Bytes;
use std::alloc::{AllocError, Global};
pub use with_prefilter::WithPrefilter;

/// An automaton that reads bytes, and tells the best match that ends where it stands.
pub trait Automaton {
    /// It is the automaton of these patterns, under their match kind and case rule.
    ghost is_of: { Self → Patterns → Type 0 };

    /// The state may be held after these bytes were read.
    ghost held: { Self → Patterns → Anchored → List ℕ → ℕ → Type 0 };

    /// The number is that of a state.
    ghost valid: { Self → ℕ → Type 0 };

    /// Which of several matches is found.
    ghost kind: { Self → MatchKind };

    /// The lengths of the patterns, by number.
    ghost lengths: { Self → List ℕ };

    /// The patterns that the state lists, the best that ends where it is held first; for `Standard` all that end there.
    ghost list: { Self → ℕ → List ℕ };

    /// Whether the state is dead: each byte leads to a dead state again, and it lists no pattern.
    ghost dead: { Self → ℕ → Bool };

    /// Whether a search has to look at the state: each dead state is special, and each that lists a pattern.
    ghost special: { Self → ℕ → Bool };

    /// Whether a search that asks no prefilter has to look at the state: each dead state is marked, and each that lists a pattern.
    ghost marked: { Self → ℕ → Bool };

    /// Whether the state is a start: an unanchored search that holds it again goes on as if it began there.
    ghost starts: { Self → ℕ → Bool };

    /// How far the state is from the start of a search, where it is 0: what the steps back may cost.
    ghost depth: { Self → ℕ → ℕ };

    /// How many of the last bytes read begin a pattern, so that a match may begin there and end further on.
    ghost reach: { Self → ℕ → ℕ };

    /// The state that a byte leads to: `next_state` and `step` both answer it.
    ghost next: { Self → Anchored → ℕ → ℕ → ℕ };

    /// The look-ups of a step, by the bytes that were read and the byte that follows.
    ghost lookups: { Self → Patterns → Anchored → List ℕ → ℕ → ℕ };

    /// What `start_state` answers.
    ghost start: { Self → Anchored → Result ℕ MatchErrorKind };

    /// The bytes of memory that it holds.
    ghost memory: { Self → ℕ };

    /// The search of the prefilter that is held.
    ghost prefilter: { Self → Option Searcher };

    /// Whether searches of streams skip by the prefilter that is held. They do not unless the automaton says so.
    ghost skips_streams: { Self → Bool } = { λ _. false };

    /// The state in which a search begins.
    ///
    /// # Errors
    ///
    /// An automaton that has no start for anchored searches, or none for the others, refuses them.
    fn start_state(&self, anchored: Anchored) -> Result<StateID, MatchError>
        ensures start { result ≡ start self.now anchored }
        ensures valid { IfOk result (valid self.now) }
        ensures shallow { IfOk result (λ sid. depth self.now sid ≡ 0) }
        ensures begins { IfOk result (λ sid. (p : Patterns) → is_of self.now p →
            held self.now p anchored [] sid) };

    /// The state after one more byte.
    fn next_state(&self, anchored: Anchored, sid: StateID, byte: u8) -> StateID
        requires valid { valid self.now sid }
        ensures next { result ≡ next self.now anchored sid byte }
        ensures valid { valid self.now result }
        ensures dead_stays { dead self.now sid ≡ true → dead self.now result ≡ true }
        ensures goes_on { (p : Patterns) → is_of self.now p →
            GoesOn (held self.now p anchored) sid byte result };

    /// The state after one more byte, with each look-up of a transition added to `work`.
    ///
    /// A step makes at most two look-ups more than it leads back towards the start.
    fn step(&self, anchored: Anchored, sid: StateID, byte: u8, work: &mut Work) -> StateID
        requires valid { valid self.now sid }
        requires room { work.old + depth self.now sid + 2 < 2 ^ 128 }
        ensures next { result ≡ next self.now anchored sid byte }
        ensures valid { valid self.now result }
        ensures dead_stays { dead self.now sid ≡ true → dead self.now result ≡ true }
        ensures goes_on { (p : Patterns) → is_of self.now p →
            GoesOn (held self.now p anchored) sid byte result }
        ensures cost { IsPaid (depth self.now) sid result work.old work.new }
        ensures grows { work.old ≤ work.new }
        ensures counted { (p : Patterns) (word : List ℕ) → is_of self.now p →
            held self.now p anchored word sid →
            work.new ≡ work.old + lookups self.now p anchored word byte };

    /// Whether a search has to look at the state: each dead state is special, and each that lists a pattern. A search skips
    /// only from a start that is special.
    fn is_special(&self, sid: StateID) -> bool
        requires valid { valid self.now sid }
        ensures special { result ≡ special self.now sid };

    /// Whether a search that asks no prefilter has to look at the state: each dead state is marked, and each that lists a
    /// pattern. A start need not be, so such a search does not stop each time that it is led back there.
    fn is_marked(&self, sid: StateID) -> bool
        requires valid { valid self.now sid }
        ensures marked { result ≡ marked self.now sid };

    /// Whether the state is dead, so that nothing that follows changes what was found.
    fn is_dead(&self, sid: StateID) -> bool
        requires valid { valid self.now sid }
        ensures dead { result ≡ dead self.now sid };

    /// Whether the state lists a pattern.
    fn is_match(&self, sid: StateID) -> bool
        requires valid { valid self.now sid }
        ensures is_match { IsTrue result ↔ (0 < length (list self.now sid)) };

    /// Whether the state is a start, so that no match that ends later starts before it.
    fn is_start(&self, sid: StateID) -> bool
        requires valid { valid self.now sid }
        ensures starts { result ≡ starts self.now sid };

    /// How many of the last bytes read begin a pattern: the greatest number that does. So no match that ends further on begins
    /// before them.
    fn reach_back(&self, sid: StateID) -> usize
        requires valid { valid self.now sid }
        ensures reach { result ≡ reach self.now sid };

    /// Which of several matches is found.
    fn match_kind(&self) -> MatchKind
        ensures kind { result ≡ kind self.now };

    /// A prefilter of the patterns, where one is held: a quick search for a place where a match may start. Unanchored
    /// searches in memory skip by it.
    fn prefilter(&self) -> Option<&Prefilter>
        ensures prefilter { option_map (λ held. held.now) result ≡ prefilter self.now };

    /// The prefilter by which searches of streams skip: the one that is held where the automaton says that they skip, and
    /// none elsewhere.
    fn stream_prefilter(&self) -> Option<&Prefilter>
        ensures prefilter { option_map (λ held. held.now) result
            ≡ if skips_streams self.now then prefilter self.now else None };

    /// How many patterns the state lists.
    fn match_len(&self, sid: StateID) -> usize
        requires valid { valid self.now sid }
        ensures len { result ≡ length (list self.now sid) };

    /// A pattern that the state lists, by its place in the list.
    fn match_pattern(&self, sid: StateID, index: usize) -> PatternID
        requires valid { valid self.now sid }
        requires within { index < length (list self.now sid) }
        ensures pattern { slice_get (list self.now sid) index ≡ Some result };

    /// How many patterns there are.
    fn patterns_len(&self) -> usize
        ensures len { result ≡ length (lengths self.now) };

    /// How many bytes a pattern has.
    fn pattern_len(&self, pid: PatternID) -> usize
        requires within { pid < length (lengths self.now) }
        ensures len { result ≡ slice_index (lengths self.now) pid };

    /// How many bytes the shortest pattern has; the greatest `usize` where there is no pattern.
    fn min_pattern_len(&self) -> usize
        ensures shortest { result ≡ shortest (lengths self.now) };

    /// How many bytes the longest pattern has; 0 where there is no pattern.
    fn max_pattern_len(&self) -> usize
        ensures longest { result ≡ longest (lengths self.now) }
        ensures bound { result ≤ greatest_index };

    /// How many bytes of memory it holds, by the stated sizes of its parts.
    fn memory_usage(&self) -> usize
        ensures memory { result ≡ memory self.now };

    /// What the states tell of the bytes that were read: the first pattern that a state lists is the best that ends
    /// there, a dead state is final, and what ends after a start that is held again starts there or later.
    ghost laws: { (a : Self) (p : Patterns) → is_of a p →
        Reads p (kind a) (lengths a) (held a p) (list a) (dead a) (starts a) };

    /// A state that is held after some bytes is held after any others that lead to the same state of the words.
    ghost alike: { (a : Self) (p : Patterns) (word other : List ℕ) (sid : ℕ) → is_of a p →
        held a p No word sid → held_after p No other ≡ held_after p No word →
        held a p No other sid };

    /// A state that is not special is not dead, and lists no pattern.
    ghost plain: { (a : Self) (sid : ℕ) → valid a sid → special a sid ≡ false →
        (dead a sid ≡ false) × (list a sid ≡ []) };

    /// Nor is a state that is not marked, and it lists none.
    ghost unmarked: { (a : Self) (sid : ℕ) → valid a sid → marked a sid ≡ false →
        (dead a sid ≡ false) × (list a sid ≡ []) };

    /// A dead state is no further than the start.
    ghost dead_shallow: { (a : Self) (sid : ℕ) → valid a sid → dead a sid ≡ true →
        depth a sid ≡ 0 };

    /// Nor is any start.
    ghost starts_shallow: { (a : Self) (sid : ℕ) → valid a sid → starts a sid ≡ true →
        depth a sid ≡ 0 };

    /// A state reaches back as far as its own word is long: the longest end of the bytes read that begins a pattern.
    ghost reaches: { (a : Self) (p : Patterns) (word : List ℕ) (sid : ℕ) → is_of a p →
        held a p No word sid → reach a sid ≡ depth_of (held_after p No word) };

    /// What is held is a prefilter of the patterns.
    ghost prefilters: { (a : Self) (p : Patterns) → is_of a p →
        IfSome (prefilter a) (λ searcher. IsPrefilterOf searcher p) };

    /// The match that the input's search finds: the best by the automaton's match kind or, where the input asks for
    /// the earliest, the best of those that end first. None is found where nothing matches.
    ///
    /// It is one call of `find_in`, so it reads each byte of the span at most once, and takes no memory.
    ///
    /// # Errors
    ///
    /// It is refused exactly where `start_state` refuses the input's anchoring and the input is not done.
    final fn try_find(&self, input: &Input) -> Result<Option<Match>, MatchError>
    where
        Self: Sized,
        requires of { (p : Patterns) × is_of self.now p }
        ensures found { (p : Patterns) → is_of self.now p → IfOk result (IsAnswer p input.now) }
        ensures error { IfErr result (λ reason. start self.now input.now.anchored ≡ Err reason) }
        ensures ok { (sid : ℕ) → start self.now input.now.anchored ≡ Ok sid → IsOk result }
        ensures refused { (e : MatchErrorKind) → input.now.start ≤ input.now.end →
            start self.now input.now.anchored ≡ Err e → result ≡ Err e }
        ensures done { input.now.end < input.now.start → result ≡ Ok None }
    {
        let mut walk = Counted::new(self);
        let mut text = Bytes::new(input.haystack());
        let span = Span {
            start: input.start(),
            end: input.end(),
        };
        find_in(
            &mut walk,
            &mut text,
            span,
            input.get_anchored(),
            input.get_earliest(),
        )
    }

    /// The matches of the input's search, one after another: each is what the search from the end of the match before
    /// finds. An empty match is not given where the match before ended; there the search goes on from one place further.
    ///
    /// Anchored, a match has to start where its search does. The iterator takes no memory, and searches only as matches
    /// are asked for, each time by one or two calls of `find_in_by`. After `None` it gives `None` again.
    ///
    /// # Errors
    ///
    /// It is refused exactly where `start_state` refuses the input's anchoring, for an input that is done as well. No
    /// later search is refused.
    final fn try_find_iter<'a, 'h>(
        &'a self,
        input: Input<'h>,
    ) -> Result<FindIter<'a, 'h, Self>, MatchError>
    where
        Self: Sized,
        requires of { (p : Patterns) × is_of self.now p }
        ensures ready { IfOk result (λ it.
            ⟦<FindIter<'a, 'h, Self> as Iterator>⟧.can_next it) }
        ensures finds { (p : Patterns) → is_of self.now p → IfOk result
            (GivesFinds ⟦<FindIter<'a, 'h, Self> as Iterator>⟧.next_gives p input.entry) }
        ensures first { (p : Patterns) → is_of self.now p → IfOk result
            (GivesFirstFinds ⟦<FindIter<'a, 'h, Self> as Iterator>⟧.next_gives p input.entry) }
        ensures bound { IfOk result (λ it. UpTo
            (⟦<FindIter<'a, 'h, Self> as Iterator>⟧.remaining it) (span_places input.entry)) }
        ensures fused { IfOk result (IsFused ⟦<FindIter<'a, 'h, Self> as Iterator>⟧.next_gives) }
        ensures error { IfErr result (λ reason. start self.now input.entry.anchored ≡ Err reason) }
        ensures refused { (e : MatchErrorKind) → start self.now input.entry.anchored ≡ Err e
            → result ≡ Err e }
        ensures ok { (sid : ℕ) → start self.now input.entry.anchored ≡ Ok sid → IsOk result }
    {
        FindIter::new(self, input)
    }

    /// Puts the next match of an overlapping search into the state, or none where all were found.
    ///
    /// The matches come by end, then start, then number. An anchored search gives those that end where the bytes from
    /// the span's start on begin some pattern, wherever in the span they start. The state is a fresh one, or one that
    /// calls on this automaton and this input left; calls that were refused in between don't matter. Whether the input
    /// asks for the earliest plays no part.
    ///
    /// It goes on where the call before stopped, and takes no memory. Each match that it finds leaves fewer to be found.
    ///
    /// # Errors
    ///
    /// A leftmost kind is refused first, with `UnsupportedOverlapping`, for a done input too and whatever the state.
    /// Else a fresh state is refused exactly where `start_state` refuses the input's anchoring and the input is not
    /// done, and a state that has begun never. A refused call clears the state's match and changes nothing else.
    final fn try_find_overlapping(
        &self,
        input: &Input,
        state: &mut OverlappingState,
    ) -> Result<(), MatchError>
    where
        Self: Sized,
        requires fits { FitsSome (is_of self.now) (valid self.now) (held self.now) input.now
            state.old }
        ensures unsupported { kind self.now ≢ Standard
            → result ≡ Err (UnsupportedOverlapping (kind self.now)) }
        ensures error { kind self.now ≡ Standard
            → IfErr result (λ reason. start self.now input.now.anchored ≡ Err reason) }
        ensures ok { (sid : ℕ) → kind self.now ≡ Standard
            → start self.now input.now.anchored ≡ Ok sid → IsOk result }
        ensures refused { RefusesFirst (kind self.now) (start self.now) input.now state.old result }
        ensures begun { (sid : ℕ) → kind self.now ≡ Standard → state.old.id ≡ Some sid
            → IsOk result }
        ensures cleared { IfErr result (λ _. state.new ≡ without_match state.old) }
        ensures done { kind self.now ≡ Standard → input.now.end < input.now.start
            → FindsNothing state.old state.new result }
        ensures found { FindsNext (is_of self.now) (valid self.now) (held self.now) input.now
            state.old state.new result }
        ensures fits { FitsNext (is_of self.now) (valid self.now) (held self.now) input.now
            state.old state.new result }
        ensures fewer { IfSome state.new.mat (λ _.
            left (length (lengths self.now)) input.now state.new
            < left (length (lengths self.now)) input.now state.old) }
    {
        state.mat = None;
        let kind = self.match_kind();
        if kind != MatchKind::Standard {
            return Err(MatchError::unsupported_overlapping(kind));
        }
        if input.start() > input.end() {
            return Ok(());
        }
        match (state.id, state.next_match_index) {
            (None, _) => {
                let sid = self.start_state(input.get_anchored())?;
                *state = next_match(self, input, sid, input.start(), 0);
            }
            (Some(sid), Some(index)) => {
                *state = next_match(self, input, sid, state.at, index);
            }
            (Some(_), None) => {}
        }
        Ok(())
    }

    /// The matches of an overlapping search, one after another: by end, then start, then number.
    ///
    /// It gives no more than `patterns_len` matches for each place of the span from its start to its end, and takes no
    /// memory.
    ///
    /// # Errors
    ///
    /// In this order: a leftmost kind is refused with `UnsupportedOverlapping`, an anchored input with
    /// `InvalidInputAnchored`, and else what `start_state` refuses, for a done input too.
    final fn try_find_overlapping_iter<'a, 'h>(
        &'a self,
        input: Input<'h>,
    ) -> Result<FindOverlappingIter<'a, 'h, Self>, MatchError>
    where
        Self: Sized,
        ensures unsupported { kind self.now ≢ Standard
            → result ≡ Err (UnsupportedOverlapping (kind self.now)) }
        ensures anchored { kind self.now ≡ Standard → input.entry.anchored ≡ Yes
            → result ≡ Err InvalidInputAnchored }
        ensures refused { (e : MatchErrorKind) → kind self.now ≡ Standard
            → input.entry.anchored ≡ No → start self.now No ≡ Err e → result ≡ Err e }
        ensures ok { (sid : ℕ) → kind self.now ≡ Standard → input.entry.anchored ≡ No
            → start self.now No ≡ Ok sid → IsOk result }
        ensures ready { (p : Patterns) → is_of self.now p
            → IfOk result ⟦<FindOverlappingIter<'a, 'h, Self> as Iterator>⟧.can_next }
        ensures bound { IfOk result (λ it.
            UpTo (⟦<FindOverlappingIter<'a, 'h, Self> as Iterator>⟧.remaining it)
            (length (lengths self.now) * span_places input.entry)) }
        ensures lists { (p : Patterns) → is_of self.now p → IfOk result
            (ListsAll ⟦<FindOverlappingIter<'a, 'h, Self> as Iterator>⟧.next_gives p input.entry) }
        ensures first { (p : Patterns) → is_of self.now p → IfOk result
            (ListsFirst ⟦<FindOverlappingIter<'a, 'h, Self> as Iterator>⟧.next_gives p input.entry) }
        ensures fused { (p : Patterns) → is_of self.now p
            → IfOk result (IsFused ⟦<FindOverlappingIter<'a, 'h, Self> as Iterator>⟧.next_gives) }
    {
        let kind = self.match_kind();
        if kind != MatchKind::Standard {
            return Err(MatchError::unsupported_overlapping(kind));
        }
        if input.get_anchored() == Anchored::Yes {
            return Err(MatchError::invalid_input_anchored());
        }
        let _sid = self.start_state(Anchored::No)?;
        Ok(FindOverlappingIter::new(self, input))
    }

    /// The haystack with each match replaced by the text of its pattern. A match that starts or ends inside a character is
    /// skipped: its bytes stay.
    ///
    /// There is one replacement for each pattern. The text that is given is made with `alloc`.
    ///
    /// # Errors
    ///
    /// `Match` exactly where `start_state` refuses unanchored searches. `Memory` where an allocation fails.
    final fn try_replace_all(
        &self,
        alloc: Global,
        haystack: &str,
        replace_with: &[&str],
    ) -> Result<String, ReplaceError>
    where
        Self: Sized,
        requires of { (p : Patterns) × is_of self.now p }
        requires one_each { length replace_with.now ≡ length (lengths self.now) }
        ensures replaced { HoldsOfFinds (is_of self.now) haystack.now (λ ms.
            IfOk result (λ text. string_bytes text ≡
            replaced haystack.now (on_boundaries haystack.now ms) (pieces_of replace_with.now))) }
        ensures refused { (e : MatchErrorKind) → start self.now No ≡ Err e →
            result ≡ Err (ReplaceError.Match e) }
        ensures error { (reason : MatchErrorKind) → result ≡ Err (ReplaceError.Match reason) →
            start self.now No ≡ Err reason }
    {
        let mut dst = String::new(alloc);
        self.try_replace_all_with(haystack, &mut dst, |m, _matched, dst| {
            append_text(dst, replace_with, m)
        })?;
        Ok(dst)
    }

    /// The haystack with each match replaced by the bytes for its pattern.
    ///
    /// There is one replacement for each pattern. The bytes that are given are made with `alloc`.
    ///
    /// # Errors
    ///
    /// As those of `try_replace_all`.
    final fn try_replace_all_bytes(
        &self,
        alloc: Global,
        haystack: &[u8],
        replace_with: &[&[u8]],
    ) -> Result<Vec<u8>, ReplaceError>
    where
        Self: Sized,
        requires of { (p : Patterns) × is_of self.now p }
        requires one_each { length replace_with.now ≡ length (lengths self.now) }
        ensures replaced { HoldsOfFinds (is_of self.now) haystack.now (λ ms.
            IfOk result (λ bytes. vec_items bytes ≡
            replaced haystack.now ms (pieces_of replace_with.now))) }
        ensures refused { (e : MatchErrorKind) → start self.now No ≡ Err e →
            result ≡ Err (ReplaceError.Match e) }
        ensures error { (reason : MatchErrorKind) → result ≡ Err (ReplaceError.Match reason) →
            start self.now No ≡ Err reason }
    {
        let mut dst = Vec::new(alloc);
        self.try_replace_all_with_bytes(haystack, &mut dst, |m, _matched, dst| {
            append_piece(dst, replace_with, m)
        })?;
        Ok(dst)
    }

    /// Appends the haystack to `dst`, with what the closure appends in the place of each match. The closure is called with
    /// the match, the text that matched and `dst`; where it answers false no more is replaced, and the rest of the haystack
    /// is copied. A match that starts or ends inside a character is skipped: its bytes stay.
    ///
    /// It takes memory where `dst` grows, and what the closure takes.
    ///
    /// # Errors
    ///
    /// `Match` exactly where `start_state` refuses unanchored searches; then `dst` stays. `Memory` where an allocation of
    /// `dst` fails, or the closure answers so: then `dst` has what it had, all that was copied in whole pieces before,
    /// and what the closure appended.
    final fn try_replace_all_with<F>(
        &self,
        haystack: &str,
        dst: &mut String,
        replace_with: F,
    ) -> Result<(), ReplaceError>
    where
        Self: Sized,
        F: FnMut(&Match, &str, &mut String) -> Result<bool, AllocError>,
        requires of { (p : Patterns) × is_of self.now p }
        requires callable { F.IsAlwaysCallable replace_with }
        ensures run { HoldsOfFinds (is_of self.now) haystack.now (λ ms.
            OnOk result (RunsInMemory F.FnMut string_bytes haystack.now
            (on_boundaries haystack.now ms) replace_with dst.old (Ok tt) dst.new)) }
        ensures stopped { HoldsOfFinds (is_of self.now) haystack.now (λ ms.
            result ≡ Err ReplaceError.Memory →
            RunsInMemory F.FnMut string_bytes haystack.now
            (on_boundaries haystack.now ms) replace_with dst.old (Err alloc_error) dst.new) }
        ensures refused { (e : MatchErrorKind) → start self.now No ≡ Err e →
            result ≡ Err (ReplaceError.Match e) }
        ensures error { (reason : MatchErrorKind) → result ≡ Err (ReplaceError.Match reason) →
            start self.now No ≡ Err reason }
        ensures unchanged { (reason : MatchErrorKind) → result ≡ Err (ReplaceError.Match reason) →
            dst.new ≡ dst.old }
    {
        let finds = FindIter::new(self, Input::new(haystack.as_bytes()))?;
        replace_text(finds, haystack, dst, replace_with)?;
        Ok(())
    }

    /// Appends the haystack to `dst`, with what the closure appends in the place of each match. The closure is called with
    /// the match, the bytes that matched and `dst`; where it answers false no more is replaced, and the rest of the
    /// haystack is copied.
    ///
    /// It takes memory where `dst` grows, and what the closure takes.
    ///
    /// # Errors
    ///
    /// As those of `try_replace_all_with`.
    final fn try_replace_all_with_bytes<F>(
        &self,
        haystack: &[u8],
        dst: &mut Vec<u8>,
        replace_with: F,
    ) -> Result<(), ReplaceError>
    where
        Self: Sized,
        F: FnMut(&Match, &[u8], &mut Vec<u8>) -> Result<bool, AllocError>,
        requires of { (p : Patterns) × is_of self.now p }
        requires callable { F.IsAlwaysCallable replace_with }
        ensures run { HoldsOfFinds (is_of self.now) haystack.now (λ ms.
            OnOk result (RunsInMemory F.FnMut vec_items haystack.now
            ms replace_with dst.old (Ok tt) dst.new)) }
        ensures stopped { HoldsOfFinds (is_of self.now) haystack.now (λ ms.
            result ≡ Err ReplaceError.Memory →
            RunsInMemory F.FnMut vec_items haystack.now
            ms replace_with dst.old (Err alloc_error) dst.new) }
        ensures refused { (e : MatchErrorKind) → start self.now No ≡ Err e →
            result ≡ Err (ReplaceError.Match e) }
        ensures error { (reason : MatchErrorKind) → result ≡ Err (ReplaceError.Match reason) →
            start self.now No ≡ Err reason }
        ensures unchanged { (reason : MatchErrorKind) → result ≡ Err (ReplaceError.Match reason) →
            dst.new ≡ dst.old }
    {
        let finds = FindIter::new(self, Input::new(haystack))?;
        replace_bytes(finds, haystack, dst, replace_with)?;
        Ok(())
    }

    /// The runs of a cover of the haystack, one after another: the stretches that its matches hold, whichever overlap or
    /// touch. Each is told as a match: its range, and the pattern of the longest match that begins where the run does, of
    /// equal ones the first.
    ///
    /// It takes all its memory here, with `alloc`: room for the runs that may be open at once, half as many as the longest
    /// pattern has bytes, and one. Each byte is read once, with at most two look-ups. After `None` it gives `None` again.
    ///
    /// # Errors
    ///
    /// In this order: `Match` where the automaton is not of the standard kind (`UnsupportedOverlapping`), has an empty
    /// pattern (`UnsupportedEmpty`), or refuses unanchored searches; then `Memory`, where the allocation fails.
    final fn try_cover_iter<'a, 'h>(
        &'a self,
        alloc: Global,
        haystack: &'h [u8],
    ) -> Result<CoverIter<'a, 'h, Self>, ReplaceError>
    where
        Self: Sized,
        requires of { (p : Patterns) × is_of self.now p }
        ensures ready { IfOk result ⟦<CoverIter<'a, 'h, Self> as Iterator>⟧.can_next }
        ensures runs { (p : Patterns) → is_of self.now p → IfOk result
            (GivesRuns ⟦<CoverIter<'a, 'h, Self> as Iterator>⟧.next_gives p haystack.entry.now) }
        ensures first { (p : Patterns) → is_of self.now p → IfOk result
            (GivesFirstRuns ⟦<CoverIter<'a, 'h, Self> as Iterator>⟧.next_gives p haystack.entry.now) }
        ensures bound { IfOk result (λ it.
            UpTo (⟦<CoverIter<'a, 'h, Self> as Iterator>⟧.remaining it) (length haystack.entry.now)) }
        ensures fused { IfOk result (IsFused ⟦<CoverIter<'a, 'h, Self> as Iterator>⟧.next_gives) }
        ensures refuses { RefusesCover
            (cover_refusal (kind self.now) (lengths self.now) (start self.now No)) result }
    {
        CoverIter::new(alloc, self, haystack)
    }

    /// The haystack with each run of its cover replaced by the bytes for the run's pattern. So nothing that a match holds is
    /// left: not a byte of it, whichever other match overlaps it.
    ///
    /// There is one replacement for each pattern. Beside the bytes that are given it takes what `try_cover_iter` takes.
    ///
    /// # Errors
    ///
    /// As those of `try_cover_iter`; and `Memory` where an allocation of the bytes fails.
    final fn try_cover_all_bytes(
        &self,
        alloc: Global,
        haystack: &[u8],
        replace_with: &[&[u8]],
    ) -> Result<Vec<u8>, ReplaceError>
    where
        Self: Sized,
        requires of { (p : Patterns) × is_of self.now p }
        requires one_each { length replace_with.now ≡ length (lengths self.now) }
        ensures covered { (p : Patterns) → is_of self.now p → IfOk result (λ bytes.
            IsCover p haystack.now (pieces_of replace_with.now) (vec_items bytes)) }
        ensures refuses { RefusesCover
            (cover_refusal (kind self.now) (lengths self.now) (start self.now No)) result }
    {
        let runs = CoverIter::new(alloc, self, haystack)?;
        let mut dst = Vec::new(alloc);
        cover_bytes(runs, haystack, &mut dst, replace_with)?;
        Ok(dst)
    }
}
