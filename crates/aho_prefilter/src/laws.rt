//! Laws of prefilters, each the contract of a function that does nothing: what a candidate tells a search, and that what
//! is held for some patterns is a prefilter of them.

ghost use Rattle.std.specs.Prelude.{◌≡◌, ◌≤◌, ◌↔◌, ℕ, Bool, List, Some, None, false};
ghost use Rattle.std.specs.List.{Contains};
ghost use Rattle.aho_core.specs.Answer.{IsAnswer};
ghost use Rattle.aho_core.specs.Occurrence.{Occurrence};
ghost use Rattle.aho_core.specs.Patterns.{Patterns};
ghost use Rattle.aho_core.specs.Search.{search_of};
ghost use Rattle.aho_core.specs.declared.search.Anchored.TheVariants.{No};
ghost use Rattle.aho_core.specs.declared.search.MatchKind.{MatchKind};
ghost use Rattle.aho_prefilter.specs.Candidate.{AllStartFrom, IsCandidate, IsWholeMatch, NoneStarts, NoneStartsBefore, NothingOccurs, place_of};
ghost use Rattle.aho_prefilter.specs.FirstBytes.{IsEachOnce, IsFirstOf, first_bytes};
ghost use Rattle.aho_prefilter.specs.Prefilter.{IsPrefilterOf, held_for, held_or_packed, quickest_for, under};
ghost use Rattle.aho_prefilter.specs.declared.prefilter.Candidate.{Candidate};
ghost use Rattle.aho_prefilter.specs.declared.prefilter.Searcher.{Searcher};

/// Whatever a candidate is, each match of the span starts at the place that it tells or later; and where it tells none,
/// there is no match.
pub fn candidates_tell_where()
    ensures place { (p : Patterns) (bytes : List ℕ) (start end place : ℕ) (candidate : Candidate)
        → IsCandidate p bytes start end candidate → place_of candidate ≡ Some place
        → AllStartFrom p bytes start end place }
    ensures nothing { (p : Patterns) (bytes : List ℕ) (start end : ℕ) (candidate : Candidate)
        → IsCandidate p bytes start end candidate → place_of candidate ≡ None
        → NothingOccurs p bytes start end }
{}

/// A candidate that is a match answers an unanchored search that does not ask for the earliest; one that is none answers
/// each unanchored search.
pub fn candidates_answer()
    ensures whole { (p : Patterns) (bytes : List ℕ) (start end : ℕ) (m : Occurrence)
        → IsWholeMatch p bytes start end m
        → IsAnswer p (search_of bytes (record { start = start; end = end }) No false) (Some m) }
    ensures nothing { (p : Patterns) (bytes : List ℕ) (start end : ℕ) (earliest : Bool)
        → NothingOccurs p bytes start end
        → IsAnswer p (search_of bytes (record { start = start; end = end }) No earliest) None }
{}

/// What a later part of a span tells of the whole span, where no match of the span starts before.
pub fn candidates_of_a_later_part()
    // A match that is the best of the part is the best of the span.
    ensures whole { (p : Patterns) (bytes : List ℕ) (start later end : ℕ) (m : Occurrence)
        → start ≤ later → NoneStartsBefore p bytes start end m.start
        → IsWholeMatch p bytes later end m → IsWholeMatch p bytes start end m }
    // Where none starts in the span, there is none.
    ensures nothing { (p : Patterns) (bytes : List ℕ) (start end : ℕ)
        → NoneStarts p bytes start end → NothingOccurs p bytes start end }
{}

/// What is held for some patterns is a prefilter of them, and neither depends on their kind.
pub fn held_serves_each_kind()
    ensures of { (p : Patterns) (search : Searcher)
        → held_for p ≡ Some search → IsPrefilterOf search p }
    ensures held { (p : Patterns) (kind : MatchKind)
        → held_for (under kind p) ≡ held_for p }
    ensures of_packed { (p : Patterns) (search : Searcher)
        → held_or_packed p ≡ Some search → IsPrefilterOf search p }
    ensures held_packed { (p : Patterns) (kind : MatchKind)
        → held_or_packed (under kind p) ≡ held_or_packed p }
    ensures of_quickest { (p : Patterns) (search : Searcher)
        → quickest_for p ≡ Some search → IsPrefilterOf search p }
    ensures held_quickest { (p : Patterns) (kind : MatchKind)
        → quickest_for (under kind p) ≡ quickest_for p }
    ensures served { (p : Patterns) (kind : MatchKind) (search : Searcher)
        → IsPrefilterOf search p → IsPrefilterOf search (under kind p) }
{}

/// The first bytes are those that are the same as the first byte of some pattern, each of them once.
pub fn first_bytes_read_literally()
    ensures members { (p : Patterns) (byte : ℕ)
        → (Contains (first_bytes p) byte ↔ IsFirstOf p byte) }
    ensures once { (p : Patterns) → IsEachOnce (first_bytes p) }
{}
