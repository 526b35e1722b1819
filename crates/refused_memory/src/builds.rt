//! Builds and clones.

ghost use Rattle.aho_core.specs.Patterns.{Patterns};
ghost use Rattle.std.specs.Prelude.{IfOk};

use crate::wants::{Want, Wrong};
use aho_automaton::automaton::Automaton;
use aho_corasick::answers::answer_of;
use aho_corasick::noncontiguous::{Builder, NFA};
use aho_core::error::BuildError;
use aho_core::search::{Input, MatchKind};
use std::alloc::Global;

/// Words that nest, share first and last bytes and have letters, so that a build grows in every way it can.
pub const PATTERNS: [&[u8]; 6] = [b"abcd", b"bc", b"bcdef", b"cab", b"abcdefgh", b"bc"];

/// The builder of these settings. That rows are wanted is no setting of a builder.
pub fn builder_of(settings: &[String]) -> Result<Builder, Wrong> {
    let mut builder = Builder::new();
    for setting in settings {
        match setting.as_str() {
            "first" => set_kind(&mut builder, MatchKind::LeftmostFirst),
            "longest" => set_kind(&mut builder, MatchKind::LeftmostLongest),
            "-i" => {
                builder.ascii_case_insensitive(true);
            }
            "sparse" => {
                builder.dense_depth(0);
            }
            "bare" => {
                builder.prefilter(false);
            }
            "rows" => {}
            _ => return Err("no such setting"),
        }
    }
    Ok(builder)
}

fn set_kind(builder: &mut Builder, kind: MatchKind) {
    builder.match_kind(kind);
}

/// `NFA::new`, which is refused for want of memory alone and then makes the automaton.
pub fn new(alloc: Global, want: &mut Want) -> Result<(), Wrong> {
    match NFA::new(alloc, PATTERNS.iter().copied()) {
        Ok(nfa) => finds(&nfa),
        Err(BuildError::OutOfMemory) => {
            want.meet()?;
            new_again(alloc)
        }
        Err(_) => Err("a build was refused for another cause"),
    }
}

/// The same build once more.
fn new_again(alloc: Global) -> Result<(), Wrong> {
    match NFA::new(alloc, PATTERNS.iter().copied()) {
        Ok(nfa) => finds(&nfa),
        Err(_) => Err("a second build was refused"),
    }
}

/// `Builder::build`, which is refused for want of memory alone; the builder then builds as before.
pub fn build(alloc: Global, builder: &Builder, want: &mut Want) -> Result<(), Wrong> {
    let nfa = automaton(alloc, builder, &PATTERNS, want)?;
    finds(&nfa)
}

/// The automaton that a builder makes of these patterns, which is built again where memory was wanted.
pub fn automaton(
    alloc: Global,
    builder: &Builder,
    patterns: &[&[u8]],
    want: &mut Want,
) -> Result<NFA, Wrong>
    ensures of { IfOk result (λ nfa. (p : Patterns) × ⟦<NFA as Automaton>⟧.is_of nfa p) }
{
    match builder.build(alloc, patterns.iter().copied()) {
        Ok(nfa) => Ok(nfa),
        Err(BuildError::OutOfMemory) => {
            want.meet()?;
            automaton_again(alloc, builder, patterns)
        }
        Err(_) => Err("a build was refused for another cause"),
    }
}

/// The same automaton, built once more.
fn automaton_again(alloc: Global, builder: &Builder, patterns: &[&[u8]]) -> Result<NFA, Wrong>
    ensures of { IfOk result (λ nfa. (p : Patterns) × ⟦<NFA as Automaton>⟧.is_of nfa p) }
{
    match builder.build(alloc, patterns.iter().copied()) {
        Ok(nfa) => Ok(nfa),
        Err(_) => Err("the builder does not build as before"),
    }
}

/// `NFA::try_clone`, which answers an automaton that finds the same, and leaves its original.
pub fn clone(alloc: Global, builder: &Builder, want: &mut Want) -> Result<(), Wrong> {
    let nfa = automaton(alloc, builder, &PATTERNS, want)?;
    clone_of(&nfa, want)
}

fn clone_of(nfa: &NFA, want: &mut Want) -> Result<(), Wrong>
    requires of { (p : Patterns) × ⟦<NFA as Automaton>⟧.is_of nfa.now p }
{
    match nfa.try_clone() {
        Ok(clone) => finds(&clone),
        Err(_) => {
            want.meet()?;
            finds(nfa)?;
            clone_again(nfa)
        }
    }
}

/// The same clone once more.
fn clone_again(nfa: &NFA) -> Result<(), Wrong>
    requires of { (p : Patterns) × ⟦<NFA as Automaton>⟧.is_of nfa.now p }
{
    match nfa.try_clone() {
        Ok(clone) => finds(&clone),
        Err(_) => Err("a second clone was refused"),
    }
}

/// Looks at a search of each kind, whose match tells the kinds apart.
fn finds(nfa: &NFA) -> Result<(), Wrong>
    requires of { (p : Patterns) × ⟦<NFA as Automaton>⟧.is_of nfa.now p }
{
    let (number, start, end) = match nfa.match_kind() {
        MatchKind::Standard => (1, 2, 4),
        MatchKind::LeftmostFirst => (0, 1, 5),
        MatchKind::LeftmostLongest => (4, 1, 9),
    };
    match answer_of(nfa, &Input::new(b"zabcdefghz")) {
        Some(m) if m.pattern().as_usize() == number && m.start() == start && m.end() == end => {
            Ok(())
        }
        _ => Err("a search answers wrong"),
    }
}
