//! Whether the texts that are written in the place of patterns are clean: no pattern holds the first or the last byte of such a piece,
//! and none occurs in it. Then no pattern occurs anywhere in a cover.
//!
//! A pseudonym begins with `[`, ends with `]`, and between them it holds no other bytes than those of `redacted:` and hexadecimal digits. So
//! it cannot spell a pattern with what stands beside it where each pattern holds a byte that is none of these, and neither `[` nor `]`.

ghost use Rattle.std.specs.Prelude.{◌≡◌, IfNone, IfSome, IsOk, length};
ghost use Rattle.aho_core.specs.Bytes.{folded_by};
ghost use Rattle.aho_core.specs.Occurs.{OccursIn};
ghost use Rattle.aho_core.specs.Patterns.{Patterns};
ghost use Rattle.aho_core.specs.Replacement.{pieces_of};
ghost use Rattle.aho_core.specs.Search.{plain_search};
ghost use Rattle.aho_core.specs.declared.search.Anchored.TheVariants.{No};
ghost use Rattle.acredact.specs.Pieces.{IsFlawOrNone, IsJudgeOf, IsJudgedBy, IsMarked, StayMarked, WordsAreMarked};
ghost use Rattle.acredact.specs.Secrets.{IfOf, NoneOccurs};
ghost use Rattle.acredact.specs.Spelling.{IsFirstSpelled, holder_in, holds_byte, is_inside, lies_inside, may_be_spelled};

use chromesquid::{Automaton, Input, Match};

/// By what pieces are judged.
#[derive(Clone, Copy)]
pub struct Judge<'s, 't> {
    /// The patterns.
    pub words: &'s [&'t [u8]],
    /// Whether ASCII letters are the same in both cases.
    pub ignore_case: bool,
    /// The piece of each.
    pub pieces: &'s [&'t [u8]],
}

/// Why a piece is not clean.
#[derive(Clone, Copy)]
pub enum Flaw {
    /// It is empty.
    Empty,
    /// The pattern of this number, from 1 on, holds its first or its last byte, or occurs in it.
    Spells(usize),
    /// It is made of each run's bytes, and can hold all bytes of the pattern, or its first or its last byte is one of the pattern's.
    Pseudonym,
}

/// A pattern whose piece is not clean.
#[derive(Clone, Copy)]
pub struct Unclean {
    /// Its number, from 1 on.
    pub number: usize,
    /// Why the piece is not clean.
    pub flaw: Flaw,
}

/// The first pattern whose piece is not clean, where a cover is asked for and there is one; or that a pseudonym can spell, where those
/// are written. It takes no memory, and looks at each byte of the patterns and of the pieces a few times.
pub fn unclean_of<A: Automaton>(
    automaton: &A,
    judge: &Judge<'_, '_>,
    covers: bool,
    named: bool,
) -> Option<Unclean>
    requires of { (p : Patterns) × A.is_of automaton.now p }
    requires starts { IsOk (A.start automaton.now No) }
    requires one_each { length judge.now.pieces.now ≡ length judge.now.words.now }
    ensures judged { IfOf A.Automaton automaton.now (λ p.
        IsJudgeOf judge.now p →
        IsJudgedBy p covers named (pieces_of judge.now.pieces.now) result) }
{
    if !covers {
        return None;
    }
    if named {
        return first_spelled(judge.words, judge.ignore_case);
    }
    let marks = marks_of(judge.words, judge.ignore_case);
    for (at, piece) in judge.pieces.iter().enumerate() {
        match flaw_of(automaton, judge, &marks, piece) {
            Some(flaw) => {
                return Some(Unclean {
                    number: at + 1,
                    flaw,
                });
            }
            None => {}
        }
    }
    None
}

/// Why a piece is not clean, where it is not.
fn flaw_of<A: Automaton>(
    automaton: &A,
    judge: &Judge<'_, '_>,
    marks: &[bool],
    piece: &[u8],
) -> Option<Flaw>
    requires of { (p : Patterns) × A.is_of automaton.now p }
    requires starts { IsOk (A.start automaton.now No) }
    requires sized { length marks.now ≡ 256 }
    requires marked { WordsAreMarked judge.now.ignore_case judge.now.words.now marks.now }
    ensures flaw { IfOf A.Automaton automaton.now (λ p.
        IsJudgeOf judge.now p →
        IsFlawOrNone p piece.now result) }
{
    if piece.is_empty() {
        return Some(Flaw::Empty);
    }
    match holder_of(judge, marks, piece[0]) {
        Some(number) => return Some(Flaw::Spells(number)),
        None => {}
    }
    match holder_of(judge, marks, piece[piece.len() - 1]) {
        Some(number) => return Some(Flaw::Spells(number)),
        None => {}
    }
    match found_in(automaton, piece) {
        Some(found) => Some(Flaw::Spells(found.pattern().as_usize() + 1)),
        None => None,
    }
}

/// An occurrence in a piece.
fn found_in<A: Automaton>(automaton: &A, piece: &[u8]) -> Option<Match>
    requires of { (p : Patterns) × A.is_of automaton.now p }
    requires starts { IsOk (A.start automaton.now No) }
    ensures found { IfOf A.Automaton automaton.now (λ p. IfSome result (OccursIn p (plain_search piece.now))) }
    ensures none { IfNone result (IfOf A.Automaton automaton.now (λ p. NoneOccurs p piece.now)) }
{
    match automaton.try_find(&Input::new(piece)) {
        Ok(found) => found,
        Err(_) => None,
    }
}

/// The number, from 1 on, of a pattern that holds a byte. Where the byte is not marked there is none.
#[tactic(auto, using(crate::proofs::Flaws::unmarked))]
fn holder_of(judge: &Judge<'_, '_>, marks: &[bool], byte: u8) -> Option<usize>
    requires sized { length marks.now ≡ 256 }
    requires marked { WordsAreMarked judge.now.ignore_case judge.now.words.now marks.now }
    ensures holder { result ≡ holder_in judge.now.ignore_case (pieces_of judge.now.words.now) byte }
{
    if !marks[folded(byte, judge.ignore_case) as usize] {
        return None;
    }
    for (at, word) in judge.words.iter().enumerate() {
        if holds(word, judge.ignore_case, byte) {
            return Some(at + 1);
        }
    }
    None
}

/// Whether a word holds a byte.
fn holds(word: &[u8], ignore_case: bool, byte: u8) -> bool
    ensures holds { result ≡ holds_byte ignore_case word.now byte }
{
    let wanted = folded(byte, ignore_case);
    word.iter()
        .any(|other| folded(*other, ignore_case) == wanted)
}

/// The bytes that some word holds, as they are compared.
fn marks_of(words: &[&[u8]], ignore_case: bool) -> [bool; 256]
    ensures sized { length result ≡ 256 }
    ensures marked { WordsAreMarked ignore_case words.now result }
{
    let mut marks = [false; 256];
    for word in words {
        mark(&mut marks, word, ignore_case);
    }
    marks
}

/// Marks the bytes of a word.
fn mark(marks: &mut [bool; 256], word: &[u8], ignore_case: bool)
    ensures marked { IsMarked ignore_case word.now marks.new }
    ensures stay { StayMarked marks.old marks.new }
{
    for byte in word {
        marks[folded(*byte, ignore_case) as usize] = true;
    }
}

/// A byte as it is compared.
pub fn folded(byte: u8, ignore_case: bool) -> u8
    ensures folded { result ≡ folded_by ignore_case byte }
{
    if ignore_case && 65 <= byte && byte <= 90 {
        byte + 32
    } else {
        byte
    }
}

/// The first pattern that a pseudonym can spell.
fn first_spelled(words: &[&[u8]], ignore_case: bool) -> Option<Unclean>
    ensures first { IsFirstSpelled ignore_case (pieces_of words.now) result }
{
    for (at, word) in words.iter().enumerate() {
        if may_be_spelled(word, ignore_case) {
            return Some(Unclean {
                number: at + 1,
                flaw: Flaw::Pseudonym,
            });
        }
    }
    None
}

/// Whether a pseudonym can spell a word.
fn may_be_spelled(word: &[u8], ignore_case: bool) -> bool
    ensures spelled { result ≡ may_be_spelled ignore_case word.now }
{
    holds(word, ignore_case, b'[')
        || holds(word, ignore_case, b']')
        || lies_inside(word, ignore_case)
}

/// Whether a pseudonym can hold all bytes of a word between its first byte and its last.
fn lies_inside(word: &[u8], ignore_case: bool) -> bool
    ensures inside { result ≡ lies_inside ignore_case word.now }
{
    word.iter()
        .all(|byte| is_inside(folded(*byte, ignore_case)))
}

/// Whether a pseudonym can hold a byte between its first and its last.
fn is_inside(byte: u8) -> bool
    ensures inside { result ≡ is_inside byte }
{
    (48 <= byte && byte <= 58) || (97 <= byte && byte <= 102) || byte == 114 || byte == 116
}
