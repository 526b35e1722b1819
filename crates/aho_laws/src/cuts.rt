//! Laws of a text that is cut: when its parts can be searched apart, and what their answers are together.

ghost use Rattle.std.specs.Prelude.{◌≡◌, ◌≤◌, ◌↔◌, ◌∷◌, ◌++◌, ◌+◌, ℕ, List, length, map, slice_range, None};
ghost use Rattle.aho_core.specs.Iteration.{AreFinds};
ghost use Rattle.aho_core.specs.Listing.{IsMember, IsListedBy};
ghost use Rattle.aho_core.specs.Occurrence.{Occurrence};
ghost use Rattle.aho_core.specs.Order.{IsBefore};
ghost use Rattle.aho_core.specs.Overlapping.{all_occurrences};
ghost use Rattle.aho_core.specs.Patterns.{Patterns};
ghost use Rattle.aho_core.specs.Replacement.{replaced};
ghost use Rattle.aho_core.specs.Search.{plain_search};
ghost use Rattle.aho_laws.specs.CutLaws.{AreFindsWithin, AreFindsOf, AreSearched, AreSearchedLines, IsClear, IsClearCut, IsClearSeam, ListsByKind, NoneHolds, NoneIsEmpty, Piece, chosen, ending_behind, joined, moved, overlap_start, placed, replaced_apart};
ghost use Rattle.aho_core.specs.declared.search.MatchKind.TheVariants.{Standard};

/// The bytes of a span may be searched as a text of their own. Its finds, moved on by the span's start,
/// are the finds of the span, where no pattern is empty. Its list of all occurrences, moved on alike, is
/// the list of the span; there patterns may be empty.
pub fn spans_are_texts()
    ensures finds { (p : Patterns) (haystack : List ℕ) (start end : ℕ) (ms : List Occurrence)
        → NoneIsEmpty p → start ≤ end → end ≤ length haystack
        → AreFindsOf p (slice_range haystack start end) ms
        → AreFindsWithin p haystack start end (map (moved start) ms) }
    ensures lists { (p : Patterns) (haystack : List ℕ) (start end : ℕ)
        → start ≤ end → end ≤ length haystack
        → all_occurrences p haystack start end ≡ map (moved start)
        (all_occurrences p (slice_range haystack start end) 0 (length (slice_range haystack start end))) }
{}

/// A span is cut at a place that no occurrence of it lies across. Then the finds of the part before
/// the place and those of the part behind it, one after another, are the finds of the span, by each
/// match kind. No pattern may be empty: an empty match at the place would be found in both parts.
pub fn finds_at_clear_cuts()
    ensures spans { (p : Patterns) (haystack : List ℕ) (start cut end : ℕ) (ms ns : List Occurrence)
        → IsClearCut p haystack start cut end
        → AreFindsWithin p haystack start cut ms → AreFindsWithin p haystack cut end ns
        → AreFindsWithin p haystack start end (ms ++ ns) }
    // Two texts, joined where no occurrence lies: the matches of the second move on by the first's length.
    ensures texts { (p : Patterns) (left right : List ℕ) (ms ns : List Occurrence)
        → NoneIsEmpty p → IsClearSeam p left right
        → AreFindsOf p left ms → AreFindsOf p right ns
        → AreFindsOf p (left ++ right) (ms ++ map (moved (length left)) ns) }
{}

/// Where no pattern holds a byte, no occurrence lies across a place behind that byte. So the finds of a
/// text that is cut behind some or all of these bytes, as a text is cut into lines, are those of its
/// pieces, one after another, at their places in the text. No pattern may be empty.
pub fn finds_of_lines()
    ensures clear { (p : Patterns) (byte : ℕ) (front rest : List ℕ) (start end : ℕ)
        → NoneHolds p byte → IsClear p (front ++ byte ∷ rest) start end (length front + 1) }
    ensures finds { (p : Patterns) (byte : ℕ) (pieces : List Piece)
        → AreSearchedLines p byte pieces → AreFindsOf p (joined pieces) (placed 0 pieces) }
{}

/// A text is cut into pieces anywhere, and in each piece its own finds are replaced. Then the results,
/// one after another, are the text with all these matches replaced. Where the pieces are cut behind a
/// byte that no pattern holds, as lines are, that is the replacement of the text. There no pattern may
/// be empty.
pub fn replaces_in_pieces()
    ensures pieces { (p : Patterns) (pieces : List Piece) (texts : List (List ℕ))
        → AreSearched p pieces
        → replaced (joined pieces) (placed 0 pieces) texts ≡ replaced_apart pieces texts }
    ensures lines { (p : Patterns) (byte : ℕ) (pieces : List Piece) (ms : List Occurrence)
        (texts : List (List ℕ)) → AreSearchedLines p byte pieces
        → AreFindsOf p (joined pieces) ms
        → replaced (joined pieces) ms texts ≡ replaced_apart pieces texts }
{}

/// A span is cut at any place. Its list of all occurrences is that of the part before the cut, and then
/// what ends behind the cut in a list of a part that begins earlier, by the longest pattern's length
/// less one. Patterns may be empty.
pub fn lists_overlapping_parts()
    ensures spans { (p : Patterns) (haystack : List ℕ) (start cut end : ℕ)
        → cut ≤ end → end ≤ length haystack
        → all_occurrences p haystack start end ≡ all_occurrences p haystack start cut
        ++ ending_behind cut (all_occurrences p haystack (overlap_start p start cut) end) }
{}

/// The finds of a span are what one pass takes from a list of all its occurrences, in the order of
/// the match kind. The list of an overlapping search is in the order of the standard kind; for another
/// kind it is sorted first. No pattern may be empty.
pub fn finds_are_chosen()
    ensures each_kind { (p : Patterns) (haystack : List ℕ) (start end : ℕ) (list : List Occurrence)
        → NoneIsEmpty p → end ≤ length haystack → ListsByKind p haystack start end list
        → AreFindsWithin p haystack start end (chosen start list) }
    ensures standard { (p : Patterns) (haystack : List ℕ) (start end : ℕ)
        → NoneIsEmpty p → end ≤ length haystack → p.kind ≡ Standard
        → AreFindsWithin p haystack start end (chosen start (all_occurrences p haystack start end)) }
{}
