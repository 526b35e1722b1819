//! What the impls of std's traits answer, each the contract of a function. `Debug` and `Drop` have no meaning to state.

ghost use Rattle.aho_core.specs.Impls.{ClonesTheSame, EqualsTheSame};

use crate::buffer::Filled;

/// A clone is its original, in all of its fields, and is never refused.
pub fn clones_the_same()
    ensures filled { ClonesTheSame ⟦<Filled as Clone>⟧ }
{}

/// Two values are equal just where all of their fields are the same.
pub fn equals_the_same()
    ensures filled { EqualsTheSame ⟦<Filled as PartialEq>⟧ }
{}
