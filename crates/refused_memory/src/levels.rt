//! The automaton of many patterns.

ghost use Rattle.std.specs.Prelude.{IfOk};
ghost use Rattle.aho_core.specs.Patterns.{Patterns};

use crate::builds::PATTERNS;
use crate::wants::{Want, Wrong};
use aho_automaton::automaton::Automaton;
use aho_core::error::BuildError;
use aho_core::search::{Input, MatchKind};
use aho_levels::levels::Levels;
use std::alloc::Global;

/// `Levels::new`, which is refused for want of memory alone and then makes the automaton.
pub fn build(alloc: Global, settings: &[String], want: &mut Want) -> Result<(), Wrong> {
    let levels = automaton(alloc, settings, want)?;
    finds(&levels)
}

/// `Levels::try_clone`, which answers an automaton that finds the same, and leaves its original.
pub fn clone(alloc: Global, settings: &[String], want: &mut Want) -> Result<(), Wrong> {
    let levels = automaton(alloc, settings, want)?;
    match levels.try_clone() {
        Ok(clone) => finds(&clone),
        Err(_) => {
            want.meet()?;
            finds(&levels)?;
            clone_again(&levels)
        }
    }
}

/// The same clone once more.
fn clone_again(levels: &Levels) -> Result<(), Wrong>
    requires of { (p : Patterns) × ⟦<Levels as Automaton>⟧.is_of levels.now p }
{
    match levels.try_clone() {
        Ok(clone) => finds(&clone),
        Err(_) => Err("a second clone was refused"),
    }
}

/// The automaton of these settings, which is built again where memory was wanted.
fn automaton(alloc: Global, settings: &[String], want: &mut Want) -> Result<Levels, Wrong>
    ensures of { IfOk result (λ levels. (p : Patterns) × ⟦<Levels as Automaton>⟧.is_of levels p) }
{
    match made(alloc, settings) {
        Ok(levels) => Ok(levels),
        Err(BuildError::OutOfMemory) => {
            want.meet()?;
            automaton_again(alloc, settings)
        }
        Err(_) => Err("a build was refused for another cause"),
    }
}

/// The same automaton, built once more.
fn automaton_again(alloc: Global, settings: &[String]) -> Result<Levels, Wrong>
    ensures of { IfOk result (λ levels. (p : Patterns) × ⟦<Levels as Automaton>⟧.is_of levels p) }
{
    match made(alloc, settings) {
        Ok(levels) => Ok(levels),
        Err(_) => Err("a second build was refused"),
    }
}

/// The automaton of these settings.
fn made(alloc: Global, settings: &[String]) -> Result<Levels, BuildError>
    ensures of { IfOk result (λ levels. (p : Patterns) × ⟦<Levels as Automaton>⟧.is_of levels p) }
{
    let kind = kind_of(settings);
    let ignore_case = settings.iter().any(|setting| setting.as_str() == "-i");
    Levels::new(alloc, kind, ignore_case, &PATTERNS, None)
}

/// The kind that these settings name.
fn kind_of(settings: &[String]) -> MatchKind {
    if settings.iter().any(|setting| setting.as_str() == "first") {
        return MatchKind::LeftmostFirst;
    }
    if settings.iter().any(|setting| setting.as_str() == "longest") {
        return MatchKind::LeftmostLongest;
    }
    MatchKind::Standard
}

/// Looks at a search of each kind, whose match tells the kinds apart.
fn finds(levels: &Levels) -> Result<(), Wrong>
    requires of { (p : Patterns) × ⟦<Levels as Automaton>⟧.is_of levels.now p }
{
    let (number, start, end) = match levels.match_kind() {
        MatchKind::Standard => (1, 2, 4),
        MatchKind::LeftmostFirst => (0, 1, 5),
        MatchKind::LeftmostLongest => (4, 1, 9),
    };
    match levels.try_find(&Input::new(b"zabcdefghz")) {
        Ok(Some(m)) if m.pattern().as_usize() == number && m.start() == start && m.end() == end => {
            Ok(())
        }
        _ => Err("a search answers wrong"),
    }
}
