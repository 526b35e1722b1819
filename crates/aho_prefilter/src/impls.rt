//! What the impls of std's traits answer, each the contract of a function. `Debug` and `Drop` have no meaning to state.

ghost use Rattle.aho_core.specs.Impls.{ClonesTheSame, EqualsTheSame};

use crate::prefilter::Candidate;

/// A clone of a candidate is its original, and is never refused.
pub fn clones_the_same()
    ensures candidate { ClonesTheSame ⟦<Candidate as Clone>⟧ }
{}

/// Two candidates are equal just where they are of one variant and all of their fields are the same.
pub fn equals_the_same()
    ensures candidate { EqualsTheSame ⟦<Candidate as PartialEq>⟧ }
{}
