//! Files that the output must not replace: those that patterns, rules and keys are read from.

use crate::files::is_input;
use crate::folder::{Place, place_of};
use crate::options::{Item, Word, is_same, output_of, replaces_in_place};
use std::fs::Files;

/// The first file that the call would replace although it gives patterns, rules or a key, if there is one. Files are compared by device and
/// number, so links count.
pub fn own_list<'a, R: Files>(rt: &R, given: &[Item<'a>]) -> Option<&'a str> {
    if let Some(name) = output_of(given) {
        if gives_list(rt, given, name) {
            return Some(name);
        }
    }
    if !replaces_in_place(given) {
        return None;
    }
    for item in given {
        if is_same(Word::File, item.word) && gives_list(rt, given, item.value) {
            return Some(item.value);
        }
    }
    None
}

/// Whether the file of this name gives patterns, rules or a key.
fn gives_list<R: Files>(rt: &R, given: &[Item<'_>], name: &str) -> bool {
    let Some(place) = place_of(rt, name) else {
        return false;
    };
    given
        .iter()
        .any(|item| place_of_list(rt, item) == Some(place))
}

/// The place of the file that an option reads patterns, rules or a key from.
fn place_of_list<R: Files>(rt: &R, item: &Item<'_>) -> Option<Place> {
    let is_list = match item.word {
        Word::Patterns | Word::Table | Word::EnvFile | Word::Whole | Word::Pseudonym => true,
        Word::Rules => item.value != "builtin",
        _ => false,
    };
    if !is_list {
        return None;
    }
    if is_input(item.value) {
        return place_of(rt, "/dev/stdin");
    }
    place_of(rt, item.value)
}
