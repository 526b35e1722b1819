//! Replacement in memory: worked rows, and closures that stop or fail.

ghost use Rattle.aho_core.specs.Patterns.{Patterns};

use crate::asserts::{assert_same, assert_same_in};
use crate::automata::{nfa_of, relinked_of};
use aho_automaton::automaton::Automaton;
use aho_corasick::noncontiguous::NFA;
use aho_core::error::ReplaceError;
use aho_core::search::MatchKind;
use bench::one_byte::OneByte;
use bench::tally::Tally;
use std::alloc::{AllocError, Global};
use std::process::Abort;
use std::test::Fail;

/// A haystack with what is wanted in its place, where each pattern is replaced by its piece.
struct Row {
    name: &'static str,
    kind: MatchKind,
    patterns: &'static [&'static [u8]],
    pieces: &'static [&'static str],
    haystack: &'static str,
    /// What the text becomes.
    text: &'static str,
    /// What its bytes become.
    bytes: &'static [u8],
}

const ROWS: &[Row] = &[
    Row {
        name: "each word by another",
        kind: MatchKind::Standard,
        patterns: &[b"fox", b"brown", b"quick"],
        pieces: &["sloth", "grey", "slow"],
        haystack: "The quick brown fox.",
        text: "The slow grey sloth.",
        bytes: b"The slow grey sloth.",
    },
    Row {
        name: "an empty pattern among letters",
        kind: MatchKind::LeftmostLongest,
        patterns: &[b""],
        pieces: &["-"],
        haystack: "ab",
        text: "-a-b-",
        bytes: b"-a-b-",
    },
    Row {
        name: "an empty pattern at a letter of two bytes",
        kind: MatchKind::LeftmostLongest,
        patterns: &[b""],
        pieces: &["-"],
        haystack: "é",
        text: "-é-",
        bytes: &[0x2d, 0xc3, 0x2d, 0xa9, 0x2d],
    },
    Row {
        name: "a byte inside a letter",
        kind: MatchKind::Standard,
        patterns: &[&[0xa9]],
        pieces: &["e"],
        haystack: "é",
        text: "é",
        bytes: &[0xc3, 0x65],
    },
    Row {
        name: "a skipped match between two others",
        kind: MatchKind::Standard,
        patterns: &[&[0xa9], b"a"],
        pieces: &["e", "o"],
        haystack: "aéa",
        text: "oéo",
        bytes: &[0x6f, 0xc3, 0x65, 0x6f],
    },
    Row {
        name: "no patterns",
        kind: MatchKind::LeftmostFirst,
        patterns: &[],
        pieces: &[],
        haystack: "aé",
        text: "aé",
        bytes: &[0x61, 0xc3, 0xa9],
    },
];

/// The bytes of these texts.
fn bytes_of<'t>(alloc: Global, texts: &[&'t str]) -> Result<Vec<&'t [u8]>, AllocError> {
    let mut all = Vec::new(alloc);
    for text in texts {
        all.push(text.as_bytes())?;
    }
    Ok(all)
}

/// The automaton replaces what is wanted of a row's text.
fn text_is_replaced<A: Automaton>(
    rt: &impl Abort,
    alloc: Global,
    row: &Row,
    automaton: &A,
) -> Result<(), Fail>
    requires of { (p : Patterns) × A.is_of automaton.now p }
{
    assert_eq!(rt; row.pieces.len(), automaton.patterns_len());
    let text = automaton.try_replace_all(alloc, row.haystack, row.pieces)?;
    assert_same_in(rt, &row.name, text.as_str(), row.text);
    Ok(())
}

/// The automaton replaces what is wanted of the bytes of a row's text.
fn bytes_are_replaced<A: Automaton>(
    rt: &impl Abort,
    alloc: Global,
    row: &Row,
    automaton: &A,
) -> Result<(), Fail>
    requires of { (p : Patterns) × A.is_of automaton.now p }
{
    let pieces = bytes_of(alloc, row.pieces)?;
    assert_eq!(rt; pieces.len(), automaton.patterns_len());
    let bytes = automaton.try_replace_all_bytes(alloc, row.haystack.as_bytes(), &pieces)?;
    assert_same_in(rt, &row.name, bytes.as_slice(), row.bytes);
    Ok(())
}

/// The automaton replaces what is wanted of a row.
fn row_is_replaced<A: Automaton>(
    rt: &impl Abort,
    alloc: Global,
    row: &Row,
    automaton: &A,
) -> Result<(), Fail>
    requires of { (p : Patterns) × A.is_of automaton.now p }
{
    text_is_replaced(rt, alloc, row, automaton)?;
    bytes_are_replaced(rt, alloc, row, automaton)
}

/// The automaton that is made of what this one tells replaces what is wanted of a row.
fn row_is_replaced_relinked(
    rt: &impl Abort,
    alloc: Global,
    row: &Row,
    nfa: &NFA,
) -> Result<(), Fail>
    requires of { (p : Patterns) × ⟦<NFA as Automaton>⟧.is_of nfa.now p }
{
    row_is_replaced(rt, alloc, row, &relinked_of(rt, alloc, nfa))
}

/// Both automata of a row's patterns replace what is wanted of it.
fn row_is_replaced_by_both(rt: &impl Abort, alloc: Global, row: &Row) -> Result<(), Fail> {
    let nfa = nfa_of(rt, alloc, row.patterns, row.kind, false);
    row_is_replaced(rt, alloc, row, &nfa)?;
    row_is_replaced_relinked(rt, alloc, row, &nfa)
}

#[test]
fn rows_are_replaced(rt: HostRuntime) -> Result<(), Fail> {
    for row in ROWS {
        row_is_replaced_by_both(&rt, rt.alloc(), row)?;
    }
    Ok(())
}

/// The rest is copied once the closure answered false.
fn copies_after_false<A: Automaton>(
    rt: &impl Abort,
    alloc: Global,
    automaton: &A,
) -> Result<(), Fail>
    requires of { (p : Patterns) × A.is_of automaton.now p }
{
    let mut dst = Vec::new(alloc);
    automaton.try_replace_all_with_bytes(b"aba", &mut dst, |_m, _matched, dst| {
        dst.extend_from_slice(b"X")?;
        Ok(false)
    })?;
    assert_same(rt, dst.as_slice(), b"Xba".as_slice());
    Ok(())
}

/// Want of memory leaves what was appended.
fn keeps_after_want_of_memory<A: Automaton>(
    rt: &impl Abort,
    alloc: Global,
    automaton: &A,
) -> Result<(), Fail>
    requires of { (p : Patterns) × A.is_of automaton.now p }
{
    let mut dst = Vec::from_slice(alloc, b"z")?;
    let answer = automaton.try_replace_all_with_bytes(b"bac", &mut dst, |_m, _matched, dst| {
        dst.extend_from_slice(b"X")?;
        Err(AllocError)
    });
    assert_same(rt, answer, Err(ReplaceError::Memory));
    assert_same(rt, dst.as_slice(), b"zbX".as_slice());
    Ok(())
}

/// What the destination had stays before what is appended.
fn appends<A: Automaton>(rt: &impl Abort, alloc: Global, automaton: &A) -> Result<(), Fail>
    requires of { (p : Patterns) × A.is_of automaton.now p }
{
    let mut dst = String::new(alloc);
    dst.push_str("z")?;
    automaton.try_replace_all_with("bac", &mut dst, |_m, _matched, dst| {
        dst.push_str("X")?;
        Ok(true)
    })?;
    assert_same(rt, dst.as_str(), "zbXc");
    Ok(())
}

/// A replacement does what its closure answers.
fn obeys<A: Automaton>(rt: &impl Abort, alloc: Global, automaton: &A) -> Result<(), Fail>
    requires of { (p : Patterns) × A.is_of automaton.now p }
{
    copies_after_false(rt, alloc, automaton)?;
    keeps_after_want_of_memory(rt, alloc, automaton)?;
    appends(rt, alloc, automaton)
}

/// So does a replacement by the automaton that is made of what this one tells.
fn obeys_relinked(rt: &impl Abort, alloc: Global, nfa: &NFA) -> Result<(), Fail>
    requires of { (p : Patterns) × ⟦<NFA as Automaton>⟧.is_of nfa.now p }
{
    obeys(rt, alloc, &relinked_of(rt, alloc, nfa))
}

#[test]
fn closures_are_obeyed(rt: HostRuntime) -> Result<(), Fail> {
    let nfa = nfa_of(&rt, rt.alloc(), &[b"a"], MatchKind::Standard, false);
    obeys(&rt, rt.alloc(), &nfa)?;
    obeys_relinked(&rt, rt.alloc(), &nfa)
}

/// Each call replaces the one pattern by this piece.
fn replaces_each_way<A: Automaton>(
    rt: &impl Abort,
    alloc: Global,
    automaton: &A,
    text: &str,
    piece: &str,
    wanted: &str,
) -> Result<(), Fail>
    requires of { (p : Patterns) × A.is_of automaton.now p }
{
    replaces_by_piece(rt, alloc, automaton, text, piece, wanted)?;
    replaces_by_closure(rt, alloc, automaton, text, piece, wanted)
}

/// The calls that take pieces replace the one pattern by this piece.
fn replaces_by_piece<A: Automaton>(
    rt: &impl Abort,
    alloc: Global,
    automaton: &A,
    text: &str,
    piece: &str,
    wanted: &str,
) -> Result<(), Fail>
    requires of { (p : Patterns) × A.is_of automaton.now p }
{
    assert_eq!(rt; automaton.patterns_len(), 1);
    let replaced = automaton.try_replace_all(alloc, text, &[piece])?;
    assert_same(rt, replaced.as_str(), wanted);
    let bytes = automaton.try_replace_all_bytes(alloc, text.as_bytes(), &[piece.as_bytes()])?;
    assert_same(rt, bytes.as_slice(), wanted.as_bytes());
    Ok(())
}

/// The calls that take a closure replace the one pattern by this piece.
fn replaces_by_closure<A: Automaton>(
    rt: &impl Abort,
    alloc: Global,
    automaton: &A,
    text: &str,
    piece: &str,
    wanted: &str,
) -> Result<(), Fail>
    requires of { (p : Patterns) × A.is_of automaton.now p }
{
    let mut bytes = Vec::new(alloc);
    automaton.try_replace_all_with_bytes(text.as_bytes(), &mut bytes, |_m, _matched, dst| {
        dst.extend_from_slice(piece.as_bytes())?;
        Ok(true)
    })?;
    assert_same_in(rt, "by a closure", bytes.as_slice(), wanted.as_bytes());
    let mut replaced = String::new(alloc);
    automaton.try_replace_all_with(text, &mut replaced, |_m, _matched, dst| {
        dst.push_str(piece)?;
        Ok(true)
    })?;
    assert_same_in(rt, "by a closure", replaced.as_str(), wanted);
    Ok(())
}

#[test]
fn other_automata_replace(rt: HostRuntime) -> Result<(), Fail> {
    let one = OneByte::new(b'w');
    replaces_each_way(&rt, rt.alloc(), &one, "wow", "é", "éoé")?;
    let tally = Tally::new(one);
    replaces_each_way(&rt, rt.alloc(), &tally, "wow", "é", "éoé")?;
    assert_same_in(
        &rt,
        "each call steps over each byte once",
        tally.steps(),
        12,
    );
    Ok(())
}
