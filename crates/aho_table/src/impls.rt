//! What the impls of std's traits answer, each the contract of a function.

ghost use Rattle.aho_core.specs.Impls.{ClonesTheSame};

use crate::links::Child;

/// A clone is its original, and is never refused.
pub fn clones_the_same()
    ensures child { ClonesTheSame ⟦<Child as Clone>⟧ }
{}
