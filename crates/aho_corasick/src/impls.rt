//! What the impls of std's traits answer, each the contract of a function.

ghost use Rattle.std.specs.Prelude.{◌≡◌};
ghost use Rattle.aho_core.specs.Impls.{ClonesTheSame};
ghost use Rattle.aho_build.specs.declared.settings.Settings.{Settings};
ghost use Rattle.aho_build.specs.Settings.{default_settings};

use crate::builder::Builder;

/// A clone has its original's settings, and is never refused.
pub fn clones_the_same()
    ensures builder { ClonesTheSame ⟦<Builder as Clone>⟧ }
{}

/// A builder has the settings that a build begins with where none are given.
pub fn has_default_settings()
    ensures builder { (x : Settings) → ⟦<Builder as Default>⟧.is_default x → x ≡ default_settings }
{}
