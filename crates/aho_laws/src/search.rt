//! Laws of what a search, an iteration, a listing and a replacement answer.

ghost use Rattle.std.specs.Prelude.{◌≡◌, ◌≤◌, ◌⊎◌, ◌↔◌, ◌++◌, ℕ, true, false, List, Option, length, slice_range, IsCharBoundary, Ok, Some, None};
ghost use Rattle.aho_core.specs.Answer.{IsAnswer};
ghost use Rattle.aho_core.specs.Best.{IsBest, IsBestOrNone};
ghost use Rattle.aho_core.specs.Iteration.{AreFinds};
ghost use Rattle.aho_core.specs.Listing.{IsMember, IsListedBy};
ghost use Rattle.aho_core.specs.Occurrence.{Occurrence};
ghost use Rattle.aho_core.specs.Occurs.{Occurs, OccursIn};
ghost use Rattle.aho_core.specs.Order.{IsBefore};
ghost use Rattle.aho_core.specs.Overlapping.{all_occurrences, anchored_occurrences};
ghost use Rattle.aho_core.specs.Patterns.{Patterns};
ghost use Rattle.aho_core.specs.Replacement.{is_char_boundary, on_boundaries, replaced, replaced_by};
ghost use Rattle.aho_core.specs.Search.{Search, plain_search};
ghost use Rattle.aho_laws.specs.SearchLaws.{AppendsHaystack, AppendsMatched, AreRanges, IsFollowedBy, IsFrontOfPattern, NoneIsBefore};
ghost use Rattle.aho_core.specs.declared.search.Anchored.{Anchored};
ghost use Rattle.aho_core.specs.declared.search.Anchored.TheVariants.{No};
ghost use Rattle.aho_core.specs.declared.search.MatchKind.{MatchKind};
ghost use Rattle.aho_core.specs.declared.search.MatchKind.TheVariants.{Standard};

use aho_core::search::Match;
use std::alloc::AllocError;

/// Each match kind orders strictly: nothing is before itself, and what is before a second that is
/// before a third is before the third. Of two occurrences of one span, one is before the other,
/// unless they are equal.
pub fn orders_strictly()
    ensures irreflexive { (kind : MatchKind) (x : Occurrence) → IsBefore kind x x → ⊥ }
    ensures transitive { (kind : MatchKind) (x y z : Occurrence)
        → IsBefore kind x y → IsBefore kind y z → IsBefore kind x z }
    ensures total { (p : Patterns) (kind : MatchKind) (anchored : Anchored) (haystack : List ℕ)
        (start end : ℕ) (x y : Occurrence)
        → Occurs p anchored haystack start end x → Occurs p anchored haystack start end y
        → (x ≡ y) ⊎ (IsBefore kind x y ⊎ IsBefore kind y x) }
{}

/// By each match kind the best occurrence of a span is the one that no occurrence of it is before.
pub fn best_is_before_the_others()
    // What no occurrence is before is the best.
    ensures first_is_best { (p : Patterns) (kind : MatchKind) (search : Search) (m : Occurrence)
        → OccursIn p search m → NoneIsBefore kind (OccursIn p search) m
        → IsBest kind (OccursIn p search) m }
    // No occurrence is before the best.
    ensures best_is_first { (p : Patterns) (kind : MatchKind) (search : Search) (m : Occurrence)
        → IsBest kind (OccursIn p search) m → NoneIsBefore kind (OccursIn p search) m }
{}

/// A search has at most one answer, whatever its haystack and its span are.
pub fn has_one_answer()
    ensures unique { (p : Patterns) (search : Search) (x y : Option Occurrence)
        → IsAnswer p search x → IsAnswer p search y → x ≡ y }
{}

/// A search whose span ends within its haystack has an answer, earliest or not, anchored or not:
/// an occurrence in the search where there is one, and else none.
pub fn answers_where_something_occurs()
    ensures some { (p : Patterns) (search : Search) (m : Occurrence)
        → search.end ≤ length search.haystack → OccursIn p search m
        → (found : Occurrence) × IsAnswer p search (Some found) }
    ensures exists { (p : Patterns) (search : Search)
        → search.end ≤ length search.haystack
        → (answer : Option Occurrence) × IsAnswer p search answer }
    ensures occurs { (p : Patterns) (search : Search) (found : Occurrence)
        → IsAnswer p search (Some found) → OccursIn p search found }
    ensures none { (p : Patterns) (search : Search) (m : Occurrence)
        → IsAnswer p search None → OccursIn p search m → ⊥ }
{}

/// An earliest search has one answer by all match kinds: the best occurrence by the standard kind.
pub fn kinds_agree_on_earliest()
    ensures any_kind { (p : Patterns) (kind : MatchKind) (search : Search)
        (answer : Option Occurrence)
        → search.earliest ≡ true → IsAnswer p search answer
        → IsAnswer (record p { kind = kind }) search answer }
    ensures standard { (p : Patterns) (search : Search) (answer : Option Occurrence)
        → search.earliest ≡ true → IsAnswer p search answer
        → IsBestOrNone Standard (OccursIn p search) answer }
{}

/// The list of all occurrences has just the occurrences of the span, and the anchored list just
/// those of them that end where the bytes from the span's start on begin some pattern. Both are in
/// the strict order of the standard kind, so each occurrence stands there once.
pub fn lists_each_occurrence()
    ensures members { (p : Patterns) (haystack : List ℕ) (start end : ℕ) (m : Occurrence)
        → end ≤ length haystack
        → (IsMember (all_occurrences p haystack start end) m ↔ Occurs p No haystack start end m) }
    ensures order { (p : Patterns) (haystack : List ℕ) (start end : ℕ)
        → IsListedBy (IsBefore Standard) (all_occurrences p haystack start end) }
    ensures anchored_members { (p : Patterns) (haystack : List ℕ) (start end : ℕ) (m : Occurrence)
        → end ≤ length haystack
        → (IsMember (anchored_occurrences p haystack start end) m
        ↔ (Occurs p No haystack start end m
        × IsFrontOfPattern p (slice_range haystack start m.end))) }
    ensures anchored_order { (p : Patterns) (haystack : List ℕ) (start end : ℕ)
        → IsListedBy (IsBefore Standard) (anchored_occurrences p haystack start end) }
{}

/// The matches of an iteration occur in the span, are disjoint and rise. Over a span that ends
/// within the haystack an iteration comes to its end, and never has two lists of matches.
pub fn finds_rise()
    ensures rising { (p : Patterns) (search : Search) (ms : List Occurrence)
        → AreFinds p search None ms → IsListedBy IsFollowedBy ms }
    ensures occur { (p : Patterns) (search : Search) (ms : List Occurrence) (m : Occurrence)
        → AreFinds p search None ms → IsMember ms m
        → Occurs p No search.haystack search.start search.end m }
    ensures unique { (p : Patterns) (search : Search) (ms ns : List Occurrence)
        → AreFinds p search None ms → AreFinds p search None ns → ms ≡ ns }
    ensures exists { (p : Patterns) (search : Search)
        → search.end ≤ length search.haystack
        → (ms : List Occurrence) × AreFinds p search None ms }
{}

/// Disjoint, rising ranges of a haystack that are each replaced by their own bytes leave it as it
/// is, and so do the matches of an iteration, of a text as well. Where the case rule is off, those
/// bytes are the patterns.
pub fn replacing_by_its_own_bytes()
    ensures ranges { (haystack : List ℕ) (ms : List Occurrence) → AreRanges ms
        → replaced_by haystack ms (λ m. slice_range haystack m.start m.end) ≡ haystack }
    ensures finds { (p : Patterns) (search : Search) (ms : List Occurrence)
        → AreFinds p search None ms
        → replaced_by search.haystack ms (λ m. slice_range search.haystack m.start m.end)
        ≡ search.haystack }
    ensures finds_of_text { (p : Patterns) (search : Search) (ms : List Occurrence)
        → AreFinds p search None ms
        → replaced_by search.haystack (on_boundaries search.haystack ms)
        (λ m. slice_range search.haystack m.start m.end) ≡ search.haystack }
    ensures patterns { (p : Patterns) (search : Search) (ms : List Occurrence)
        → p.ignore_case ≡ false → AreFinds p search None ms
        → replaced search.haystack ms p.words ≡ search.haystack }
    ensures patterns_of_text { (p : Patterns) (search : Search) (ms : List Occurrence)
        → p.ignore_case ≡ false → AreFinds p search None ms
        → replaced search.haystack (on_boundaries search.haystack ms) p.words ≡ search.haystack }
{}

/// A place of a text is a boundary by the test just where a character begins there or the text ends.
pub fn tests_boundaries()
    ensures boundary { (text : List ℕ) (at : ℕ)
        → ((is_char_boundary text at ≡ true) ↔ IsCharBoundary text at) }
{}

/// A closure that appends the bytes that matched, whatever it answers, makes a replacement append
/// the haystack: over any disjoint, rising ranges, and over the matches of an iteration. `S` is the
/// destination, and `bytes_of` says what is in it.
pub fn appending_the_matched_bytes<S, F>()
where
    F: FnMut(&Match, &[u8], &mut S) -> Result<bool, AllocError>,
    ensures ranges { (bytes_of : S → List ℕ) (haystack : List ℕ) (ms : List Occurrence)
        → AppendsMatched F.FnMut bytes_of → AreRanges ms
        → AppendsHaystack F.FnMut bytes_of haystack ms }
    ensures finds { (bytes_of : S → List ℕ) (p : Patterns) (haystack : List ℕ)
        (ms : List Occurrence) → AppendsMatched F.FnMut bytes_of
        → AreFinds p (plain_search haystack) None ms
        → AppendsHaystack F.FnMut bytes_of haystack ms }
{}

/// The same of a text, of which the matches off character boundaries are skipped.
pub fn appending_the_matched_text<S, F>()
where
    F: FnMut(&Match, &str, &mut S) -> Result<bool, AllocError>,
    ensures finds { (bytes_of : S → List ℕ) (p : Patterns) (text : List ℕ)
        (ms : List Occurrence) → AppendsMatched F.FnMut bytes_of
        → AreFinds p (plain_search text) None ms
        → AppendsHaystack F.FnMut bytes_of text (on_boundaries text ms) }
{}
