//! What the impls of std's traits answer, each the contract of a function. `Debug` and `Drop` have no meaning to state.

ghost use Rattle.std.specs.Prelude.{◌≡◌};
ghost use Rattle.aho_core.specs.Impls.{ClonesTheSame, EqualsTheSame};
ghost use Rattle.chromesquid.specs.Searcher.{Building, default_building};
ghost use Rattle.chromesquid.specs.declared.kinds.StartKind.{StartKind};
ghost use Rattle.chromesquid.specs.declared.kinds.StartKind.TheVariants.{Unanchored};

use crate::builder::AhoCorasickBuilder;
use crate::kinds::{AhoCorasickKind, StartKind};

/// A clone is its original, in all of its fields, and is never refused.
pub fn clones_the_same()
    ensures builder { ClonesTheSame ⟦<AhoCorasickBuilder as Clone>⟧ }
    ensures kind { ClonesTheSame ⟦<AhoCorasickKind as Clone>⟧ }
    ensures start_kind { ClonesTheSame ⟦<StartKind as Clone>⟧ }
{}

/// Two values are equal just where they are the same.
pub fn equals_the_same()
    ensures kind { EqualsTheSame ⟦<AhoCorasickKind as PartialEq>⟧ }
    ensures start_kind { EqualsTheSame ⟦<StartKind as PartialEq>⟧ }
{}

/// How a searcher is built where nothing is set, and which searches are answered then.
pub fn are_defaults()
    ensures builder { (x : Building) → ⟦<AhoCorasickBuilder as Default>⟧.is_default x
        → x ≡ default_building }
    ensures start_kind { (x : StartKind) → ⟦<StartKind as Default>⟧.is_default x
        → x ≡ Unanchored }
{}
