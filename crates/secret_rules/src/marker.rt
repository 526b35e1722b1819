//! What marks the lines of a text. Its calls stand in `marking`: a contract of this file could not name the struct.

ghost use Rattle.std.specs.Prelude.{◌≡◌, false, length};
ghost use Rattle.secret_rules.specs.Markers.{NoneIsSet};

use crate::readers::Readers;
use std::alloc::Global;

/// What marks the lines of a text, one after another. An expression is compiled when it is first needed.
#[derive(Drop)]
pub struct Marker<'r> {
    pub(crate) alloc: Global,
    pub(crate) readers: Readers<'r>,
    /// Of each rule with `until` whether a match of an earlier line goes on.
    pub(crate) goes_on: Vec<bool>,
    /// Where this is not so, no match goes on.
    pub(crate) some_goes_on: bool,
    /// Of each rule whether it applies to the line that is marked.
    pub(crate) applying: Vec<bool>,
    ghost counted: { length goes_on.items ≡ length readers },
    ghost sized: { length applying.items ≡ length readers },
    ghost shut: { some_goes_on ≡ false → NoneIsSet goes_on.items },
}
