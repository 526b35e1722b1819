//! Replacement in memory.

ghost use Rattle.aho_core.specs.Patterns.{Patterns};
ghost use Rattle.std.specs.Prelude.{◌≡◌, IfOk, length};

use crate::builds::automaton;
use crate::wants::{Want, Wrong};
use aho_automaton::automaton::Automaton;
use aho_corasick::noncontiguous::{Builder, NFA};
use aho_core::error::ReplaceError;
use std::alloc::Global;

/// Each gap is longer than all before it, so that each copy grows what it is copied to.
const HAYSTACK: &str =
    "a fox, another fox, one fox more than both of these, and at the end of the text the last fox";

const REPLACED: &str =
    "a sloth, another sloth, one sloth more than both of these, and at the end of the text the last sloth";

/// What a destination holds before.
const BEFORE: &str = "old: ";

/// Where whole pieces end in what was appended, in bytes.
const ENDS: [usize; 9] = [0, 2, 7, 17, 22, 28, 33, 95, 100];

/// The automaton of the one pattern.
fn fox(alloc: Global, want: &mut Want) -> Result<NFA, Wrong>
    ensures of { IfOk result (λ nfa. (p : Patterns) × ⟦<NFA as Automaton>⟧.is_of nfa p) }
    ensures one { IfOk result (λ nfa. length (⟦<NFA as Automaton>⟧.lengths nfa) ≡ 1) }
{
    let nfa = automaton(alloc, &Builder::new(), &[b"fox"], want)?;
    if nfa.patterns_len() != 1 {
        return Err("an automaton of another number of patterns");
    }
    Ok(nfa)
}

/// `try_replace_all`.
pub fn text(alloc: Global, want: &mut Want) -> Result<(), Wrong> {
    let nfa = fox(alloc, want)?;
    text_by(alloc, &nfa, want)
}

fn text_by<A: Automaton>(alloc: Global, automaton: &A, want: &mut Want) -> Result<(), Wrong>
    requires of { (p : Patterns) × A.is_of automaton.now p }
    requires one { length (A.lengths automaton.now) ≡ 1 }
{
    match automaton.try_replace_all(alloc, HAYSTACK, &["sloth"]) {
        Ok(replaced) => is_replaced(replaced.as_bytes(), ""),
        Err(ReplaceError::Memory) => {
            want.meet()?;
            match automaton.try_replace_all(alloc, HAYSTACK, &["sloth"]) {
                Ok(replaced) => is_replaced(replaced.as_bytes(), ""),
                Err(_) => Err("a second replacement was refused"),
            }
        }
        Err(_) => Err("a replacement was refused for another cause"),
    }
}

/// `try_replace_all_bytes`.
pub fn bytes(alloc: Global, want: &mut Want) -> Result<(), Wrong> {
    let nfa = fox(alloc, want)?;
    bytes_by(alloc, &nfa, want)
}

fn bytes_by<A: Automaton>(alloc: Global, automaton: &A, want: &mut Want) -> Result<(), Wrong>
    requires of { (p : Patterns) × A.is_of automaton.now p }
    requires one { length (A.lengths automaton.now) ≡ 1 }
{
    match automaton.try_replace_all_bytes(alloc, HAYSTACK.as_bytes(), &[b"sloth"]) {
        Ok(replaced) => is_replaced(replaced.as_slice(), ""),
        Err(ReplaceError::Memory) => {
            want.meet()?;
            match automaton.try_replace_all_bytes(alloc, HAYSTACK.as_bytes(), &[b"sloth"]) {
                Ok(replaced) => is_replaced(replaced.as_slice(), ""),
                Err(_) => Err("a second replacement was refused"),
            }
        }
        Err(_) => Err("a replacement was refused for another cause"),
    }
}

/// `try_replace_all_with`, into a text that holds something before.
pub fn text_with(alloc: Global, want: &mut Want) -> Result<(), Wrong> {
    let nfa = fox(alloc, want)?;
    let mut dst = String::new(alloc);
    if dst.push_str(BEFORE).is_err() {
        want.meet()?;
        if dst.push_str(BEFORE).is_err() {
            return Err("a second growth was refused");
        }
    }
    text_into(&nfa, &mut dst, want)
}

fn text_into<A: Automaton>(automaton: &A, dst: &mut String, want: &mut Want) -> Result<(), Wrong>
    requires of { (p : Patterns) × A.is_of automaton.now p }
{
    match replace_text(automaton, dst) {
        Ok(()) => is_replaced(dst.as_bytes(), BEFORE),
        Err(ReplaceError::Memory) => {
            want.meet()?;
            is_replaced_in_part(dst.as_bytes())?;
            dst.clear();
            match replace_text(automaton, dst) {
                Ok(()) => is_replaced(dst.as_bytes(), ""),
                Err(_) => Err("a second replacement was refused"),
            }
        }
        Err(_) => Err("a replacement was refused for another cause"),
    }
}

fn replace_text<A: Automaton>(automaton: &A, dst: &mut String) -> Result<(), ReplaceError>
    requires of { (p : Patterns) × A.is_of automaton.now p }
{
    automaton.try_replace_all_with(HAYSTACK, dst, |_m, _matched, dst| {
        dst.push_str("sloth")?;
        Ok(true)
    })
}

/// `try_replace_all_with_bytes`, into bytes that hold something before.
pub fn bytes_with(alloc: Global, want: &mut Want) -> Result<(), Wrong> {
    let nfa = fox(alloc, want)?;
    let mut dst = Vec::new(alloc);
    if dst.extend_from_slice(BEFORE.as_bytes()).is_err() {
        want.meet()?;
        if dst.extend_from_slice(BEFORE.as_bytes()).is_err() {
            return Err("a second growth was refused");
        }
    }
    bytes_into(&nfa, &mut dst, want)
}

fn bytes_into<A: Automaton>(automaton: &A, dst: &mut Vec<u8>, want: &mut Want) -> Result<(), Wrong>
    requires of { (p : Patterns) × A.is_of automaton.now p }
{
    match replace_bytes(automaton, dst) {
        Ok(()) => is_replaced(dst.as_slice(), BEFORE),
        Err(ReplaceError::Memory) => {
            want.meet()?;
            is_replaced_in_part(dst.as_slice())?;
            dst.clear();
            match replace_bytes(automaton, dst) {
                Ok(()) => is_replaced(dst.as_slice(), ""),
                Err(_) => Err("a second replacement was refused"),
            }
        }
        Err(_) => Err("a replacement was refused for another cause"),
    }
}

fn replace_bytes<A: Automaton>(automaton: &A, dst: &mut Vec<u8>) -> Result<(), ReplaceError>
    requires of { (p : Patterns) × A.is_of automaton.now p }
{
    automaton.try_replace_all_with_bytes(HAYSTACK.as_bytes(), dst, |_m, _matched, dst| {
        dst.extend_from_slice(b"sloth")?;
        Ok(true)
    })
}

/// Looks at a whole replacement, behind what the destination held before.
fn is_replaced(bytes: &[u8], before: &str) -> Result<(), Wrong> {
    match bytes.strip_prefix(before.as_bytes()) {
        Some(appended) if appended == REPLACED.as_bytes() => Ok(()),
        Some(_) => Err("a replacement is wrong"),
        None => Err("a destination lost what it held before"),
    }
}

/// Looks at what a destination holds after want of memory: what it held before, and whole pieces of the replacement.
fn is_replaced_in_part(bytes: &[u8]) -> Result<(), Wrong> {
    let Some(appended) = bytes.strip_prefix(BEFORE.as_bytes()) else {
        return Err("a destination lost what it held before");
    };
    if !REPLACED.as_bytes().starts_with(appended) {
        return Err("a destination holds what is no beginning of the replacement");
    }
    if !ENDS.contains(&appended.len()) {
        return Err("a destination holds a part of a piece");
    }
    Ok(())
}
