//! What the impls of std's traits answer, each the contract of a function.

ghost use Rattle.std.specs.Prelude.{◌≡◌};
ghost use Rattle.aho_core.specs.Impls.{ClonesTheSame, EqualsTheSame};
ghost use Rattle.aho_build.specs.declared.settings.Settings.{Settings};
ghost use Rattle.aho_build.specs.Settings.{default_settings};

use crate::settings::{Limits, Settings};
use crate::special::Special;

/// A clone is its original, in all of its fields, and is never refused.
pub fn clones_the_same()
    ensures limits { ClonesTheSame ⟦<Limits as Clone>⟧ }
    ensures settings { ClonesTheSame ⟦<Settings as Clone>⟧ }
    ensures special { ClonesTheSame ⟦<Special as Clone>⟧ }
{}

/// Two values are equal just where all of their fields are the same.
pub fn equals_the_same()
    ensures limits { EqualsTheSame ⟦<Limits as PartialEq>⟧ }
    ensures special { EqualsTheSame ⟦<Special as PartialEq>⟧ }
{}

/// The settings that a build begins with where none are given.
pub fn are_default_settings()
    ensures settings { (x : Settings)
        → ⟦<Settings as Default>⟧.is_default x → x ≡ default_settings }
{}
