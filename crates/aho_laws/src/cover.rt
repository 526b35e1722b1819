//! Laws of a cover: that it keeps nothing of an occurrence, what its runs are, and how covers of parts are put together.

ghost use Rattle.std.specs.Prelude.{◌≡◌, ◌<◌, ◌↔◌, ◌++◌, ℕ, true, List, length, map, None};
ghost use Rattle.aho_core.specs.Cover.{AreRuns, IsCover, IsCovered};
ghost use Rattle.aho_core.specs.Iteration.{AreFinds};
ghost use Rattle.aho_core.specs.Listing.{IsMember};
ghost use Rattle.aho_core.specs.Occurrence.{Occurrence};
ghost use Rattle.aho_core.specs.Occurs.{OccursIn};
ghost use Rattle.aho_core.specs.Patterns.{Patterns};
ghost use Rattle.aho_core.specs.Search.{plain_search};
ghost use Rattle.aho_laws.specs.CoverLaws.{AreClean, AreCovered, BeginsWithFind, IsBare, LiesInOneRun, by_longest, is_covered, kept, uncovered};
ghost use Rattle.aho_laws.specs.CutLaws.{AreCutBehind, NoneHolds, Piece, joined, moved, placed, replaced_apart};

/// Each text has one list of runs.
pub fn has_one_list_of_runs()
    ensures exists { (p : Patterns) (haystack : List ℕ) → (runs : List Occurrence)
        × AreRuns p haystack runs }
    ensures unique { (p : Patterns) (haystack : List ℕ) (xs ys : List Occurrence)
        → AreRuns p haystack xs → AreRuns p haystack ys → xs ≡ ys }
{}

/// What a cover keeps of a text holds no byte of any occurrence: without its runs, the text is just the
/// bytes that lie in none. The test of a place says whether its byte lies in an occurrence, and the runs
/// hold just those places.
pub fn keeps_nothing_of_an_occurrence()
    ensures test { (p : Patterns) (haystack : List ℕ) (at : ℕ)
        → ((is_covered p haystack at ≡ true) ↔ IsCovered (OccursIn p (plain_search haystack)) at) }
    ensures kept { (p : Patterns) (haystack : List ℕ) (runs : List Occurrence)
        → AreRuns p haystack runs → kept haystack runs ≡ uncovered p haystack }
    ensures places { (p : Patterns) (haystack : List ℕ) (runs : List Occurrence) (at : ℕ)
        → AreRuns p haystack runs
        → (IsCovered (IsMember runs) at ↔ IsCovered (OccursIn p (plain_search haystack)) at) }
{}

/// Each occurrence that is not empty lies in one run, and no other run holds a byte of it. Each run begins
/// with a find of the leftmost-longest kind, whose pattern names its piece.
pub fn runs_hold_whole_occurrences()
    ensures occurrences { (p : Patterns) (haystack : List ℕ) (runs : List Occurrence) (m : Occurrence)
        → AreRuns p haystack runs → OccursIn p (plain_search haystack) m → m.start < m.end
        → LiesInOneRun runs m }
    ensures finds { (p : Patterns) (haystack : List ℕ) (runs finds : List Occurrence)
        (run : Occurrence) → AreRuns p haystack runs
        → AreFinds (by_longest p) (plain_search haystack) None finds
        → IsMember runs run → BeginsWithFind finds run }
{}

/// Where each pattern's piece is clean, no pattern occurs anywhere in the cover of a text, so the cover of
/// that is the same again. A piece is clean where nothing occurs in it, and no pattern holds its first or
/// its last byte.
pub fn clean_pieces_leave_nothing()
    ensures clean { (p : Patterns) (haystack output : List ℕ) (pieces : List (List ℕ))
        (m : Occurrence) → AreClean p pieces → IsCover p haystack pieces output
        → OccursIn p (plain_search output) m → ⊥ }
    ensures again { (p : Patterns) (haystack output again : List ℕ) (pieces : List (List ℕ))
        → AreClean p pieces → IsCover p haystack pieces output
        → IsCover p output pieces again → again ≡ output }
{}

/// A text is cut where one of the two bytes beside the cut lies in no occurrence. Then the runs of its two
/// parts are those of the text, and the covers of the parts, one after the other, are the cover of the text.
///
/// That no occurrence lies across the cut is not enough: two that touch there are one run of the text.
pub fn covers_at_bare_cuts()
    ensures runs { (p : Patterns) (left right : List ℕ) (xs ys : List Occurrence)
        → IsBare p (left ++ right) (length left) → AreRuns p left xs → AreRuns p right ys
        → AreRuns p (left ++ right) (xs ++ map (moved (length left)) ys) }
    ensures covers { (p : Patterns) (left right one other : List ℕ) (pieces : List (List ℕ))
        → IsBare p (left ++ right) (length left)
        → IsCover p left pieces one → IsCover p right pieces other
        → IsCover p (left ++ right) pieces (one ++ other) }
{}

/// A text is cut into pieces behind some or all bytes of a kind that no pattern holds, as into blocks of
/// lines. Then the runs of the pieces, at their places, are those of the text, and their covers, one after
/// another, are its cover.
pub fn covers_of_lines()
    ensures runs { (p : Patterns) (byte : ℕ) (pieces : List Piece)
        → NoneHolds p byte → AreCutBehind byte pieces → AreCovered p pieces
        → AreRuns p (joined pieces) (placed 0 pieces) }
    ensures covers { (p : Patterns) (byte : ℕ) (pieces : List Piece) (replacements : List (List ℕ))
        → NoneHolds p byte → AreCutBehind byte pieces → AreCovered p pieces
        → IsCover p (joined pieces) replacements (replaced_apart pieces replacements) }
{}
