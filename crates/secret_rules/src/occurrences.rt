//! What counts of the patterns in a line: of what ends at one place the longest, in which all others lie.

ghost use Rattle.std.specs.Iterator.{IsFinite};
ghost use Rattle.std.specs.Iterator.Runs.{WholeRun};
ghost use Rattle.std.specs.Prelude.{◌≡◌, [], IsOk, IsTrue, OnOk};
ghost use Rattle.aho_core.specs.Listing.{IsMember};
ghost use Rattle.aho_core.specs.Occurrence.{Occurrence};
ghost use Rattle.aho_core.specs.Patterns.{Patterns};
ghost use Rattle.aho_core.specs.declared.search.Anchored.TheVariants.{No};
ghost use Rattle.aho_core.specs.declared.search.MatchKind.TheVariants.{Standard};
ghost use Rattle.aho_cover.specs.Words.{CountsIn, is_word_part, none_before, none_behind};
ghost use Rattle.secret_rules.specs.Picking.{Picks, PicksOne, StandForAll, is_counted};

use aho_automaton::automaton::Automaton;
use aho_core::search::{Input, Match};
use std::alloc::AllocError;

/// Whether a byte is a letter of ASCII, a digit or `_`.
fn is_word_part(byte: u8) -> bool
    ensures is { result ≡ is_word_part byte }
{
    byte.is_ascii_alphanumeric() || byte == b'_'
}

/// Whether no such byte stands before a place.
fn none_before(line: &[u8], start: usize) -> bool
    ensures none { result ≡ none_before line.now start }
{
    if start == 0 || start > line.len() {
        return true;
    }
    !is_word_part(line[start - 1])
}

/// Whether none stands behind it.
fn none_behind(line: &[u8], end: usize) -> bool
    ensures none { result ≡ none_behind line.now end }
{
    if end >= line.len() {
        return true;
    }
    !is_word_part(line[end])
}

/// Whether an occurrence counts: any, or one beside which no such byte stands.
fn counts(words: bool, line: &[u8], m: &Match) -> bool
    ensures counts { result ≡ is_counted words line.now m.now }
{
    if !words {
        return true;
    }
    if !none_before(line, m.start()) {
        return false;
    }
    none_behind(line, m.end())
}

/// Whether the last of what was found ends where this does.
fn ends_with_last(found: &[Match], m: &Match) -> bool
    ensures there { IsTrue result
        → (first : Occurrence) × IsMember found.now first × (first.end ≡ m.now.end) }
{
    if found.is_empty() {
        return false;
    }
    found[found.len() - 1].end() == m.end()
}

/// Adds an occurrence that counts, unless the last of what was found ends where it does.
fn push_one(words: bool, line: &[u8], m: Match, found: &mut Vec<Match>) -> Result<(), AllocError>
    ensures picks { OnOk result (PicksOne words line.now m found.old.items found.new.items) }
{
    if !counts(words, line, &m) || ends_with_last(found, &m) {
        return Ok(());
    }
    found.push(m)?;
    Ok(())
}

/// Gives of some occurrences in order those that count, of those that end at one place the first.
fn push_counted<I: Iterator<Item = Match> + Drop>(
    words: bool,
    line: &[u8],
    occurrences: I,
    found: &mut Vec<Match>,
) -> Result<(), AllocError>
    requires ready { I.can_next occurrences }
    requires finite { IsFinite (I.remaining occurrences) }
    requires none { found.old.items ≡ [] }
    ensures picks { OnOk result (WholeRun I.next_gives occurrences (λ run.
        Picks words line.now run.items found.new.items)) }
{
    for m in occurrences {
        push_one(words, line, m, found)?;
    }
    Ok(())
}

/// Gives what stands for all that counts of the patterns in a line.
pub(crate) fn push_patterns<A: Automaton>(
    automaton: &A,
    words: bool,
    line: &[u8],
    found: &mut Vec<Match>,
) -> Result<(), AllocError>
    requires of { (p : Patterns) × A.is_of automaton.now p }
    requires standard { A.kind automaton.now ≡ Standard }
    requires starts { IsOk (A.start automaton.now No) }
    requires none { found.old.items ≡ [] }
    ensures stand { (p : Patterns) → A.is_of automaton.now p
        → OnOk result (StandForAll (CountsIn words p line.now) found.new.items) }
{
    match automaton.try_find_overlapping_iter(Input::new(line)) {
        Ok(occurrences) => push_counted(words, line, occurrences, found),
        Err(_) => unreachable!(),
    }
}
