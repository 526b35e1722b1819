//! Replacement in memory: a haystack is copied with other bytes in the places of its matches.

ghost use Rattle.std.specs.Prelude.{◌≡◌, IsOk, ℕ, IfOk, IsTrue, IsCharBoundary, ◌++◌, [], None, OnOk, slice_index_or, string_bytes, true, vec_items};
ghost use Rattle.aho_core.specs.ClosureRun.{RunsInMemory};
ghost use Rattle.aho_core.specs.Patterns.{Patterns};
ghost use Rattle.aho_core.specs.Replacement.{is_on_boundaries, on_boundaries, pieces_of};
ghost use Rattle.aho_core.specs.Search.{plain_search};
ghost use Rattle.aho_automaton.specs.Finding.{HoldsOfFinds};

use crate::automaton::Automaton;
use crate::iter::FindIter;
use aho_core::search::Match;
use std::alloc::AllocError;

/// Appends the haystack to `dst`, with what the closure appends in the places of the matches.
///
/// These are all matches of the haystack, and none was given yet.
pub(crate) fn replace_bytes<A: Automaton, F>(
    finds: FindIter<'_, '_, A>,
    haystack: &[u8],
    dst: &mut Vec<u8>,
    mut replace_with: F,
) -> Result<(), AllocError>
where
    F: FnMut(&Match, &[u8], &mut Vec<u8>) -> Result<bool, AllocError>,
    requires of { (p : Patterns) × A.is_of finds.automaton.now p }
    requires starts { IsOk (A.start finds.automaton.now finds.input.anchored) }
    requires whole { finds.input ≡ plain_search haystack.now }
    requires first { finds.last_match_end ≡ None }
    requires callable { F.IsAlwaysCallable replace_with }
    ensures run { HoldsOfFinds (A.is_of finds.entry.automaton.now) haystack.now (λ ms.
        RunsInMemory F.FnMut vec_items haystack.now ms replace_with dst.old result dst.new) }
{
    let mut copied = 0;
    for m in finds {
        let (start, end) = (m.start(), m.end());
        dst.extend_from_slice(&haystack[copied..start])?;
        copied = end;
        let matched = &haystack[start..end];
        if !replace_with(&m, matched, dst)? {
            return dst.extend_from_slice(&haystack[copied..]);
        }
    }
    dst.extend_from_slice(&haystack[copied..])
}

/// Whether a match starts and ends at character boundaries of a text.
fn is_on_boundaries(text: &str, m: &Match) -> bool
    ensures test { result ≡ is_on_boundaries text.now m.now }
    ensures start { IsTrue result → IsCharBoundary text.now m.now.start }
    ensures end { IsTrue result → IsCharBoundary text.now m.now.end }
{
    text.is_char_boundary(m.start()) && text.is_char_boundary(m.end())
}

/// Appends the text to `dst`, with what the closure appends in the places of the matches that start and end at character
/// boundaries.
///
/// These are all matches of the text, and none was given yet.
pub(crate) fn replace_text<A: Automaton, F>(
    finds: FindIter<'_, '_, A>,
    text: &str,
    dst: &mut String,
    mut replace_with: F,
) -> Result<(), AllocError>
where
    F: FnMut(&Match, &str, &mut String) -> Result<bool, AllocError>,
    requires of { (p : Patterns) × A.is_of finds.automaton.now p }
    requires starts { IsOk (A.start finds.automaton.now finds.input.anchored) }
    requires whole { finds.input ≡ plain_search text.now }
    requires first { finds.last_match_end ≡ None }
    requires callable { F.IsAlwaysCallable replace_with }
    ensures run { HoldsOfFinds (A.is_of finds.entry.automaton.now) text.now (λ ms.
        RunsInMemory F.FnMut string_bytes text.now (on_boundaries text.now ms)
        replace_with dst.old result dst.new) }
{
    let mut copied = 0;
    for m in finds {
        if !is_on_boundaries(text, &m) {
            continue;
        }
        let (start, end) = (m.start(), m.end());
        dst.push_str(&text[copied..start])?;
        copied = end;
        let found = &text[start..end];
        if !replace_with(&m, found, dst)? {
            return dst.push_str(&text[copied..]);
        }
    }
    dst.push_str(&text[copied..])
}

/// Appends the piece of a match's pattern, and says that the replacing goes on.
pub(crate) fn append_piece(
    dst: &mut Vec<u8>,
    pieces: &[&[u8]],
    m: &Match,
) -> Result<bool, AllocError>
    ensures goes_on { IfOk result (λ goes_on. goes_on ≡ true) }
    ensures appended { OnOk result (vec_items dst.new ≡ vec_items dst.old
        ++ slice_index_or (pieces_of pieces.now) m.now.pattern []) }
{
    if let Some(piece) = pieces.get(m.pattern().as_usize()) {
        dst.extend_from_slice(piece)?;
    }
    Ok(true)
}

/// Appends the text of a match's pattern, and says that the replacing goes on.
pub(crate) fn append_text(dst: &mut String, pieces: &[&str], m: &Match) -> Result<bool, AllocError>
    ensures goes_on { IfOk result (λ goes_on. goes_on ≡ true) }
    ensures appended { OnOk result (string_bytes dst.new ≡ string_bytes dst.old
        ++ slice_index_or (pieces_of pieces.now) m.now.pattern []) }
{
    if let Some(piece) = pieces.get(m.pattern().as_usize()) {
        dst.push_str(piece)?;
    }
    Ok(true)
}
