//! The prefilter that rows hold, which may be a packed or a strided search.

ghost use Rattle.std.specs.Prelude.{◌≡◌, IfOk, IfSome, IsOk, IsOkUnless, false, true};
ghost use Rattle.aho_core.specs.declared.error.BuildError.TheVariants.{OutOfMemory};
ghost use Rattle.aho_build.specs.Items.{patterns_of};
ghost use Rattle.aho_prefilter.specs.Prefilter.{IsPrefilterOf};
ghost use Rattle.chromesquid.specs.Engine.{held_in_rows};

use aho_build::settings::Settings;
use aho_core::error::BuildError;
use aho_prefilter::prefilter::Prefilter;
use std::alloc::Global;

/// The prefilter that rows for these patterns hold; none where the settings want none, and where memory for it is refused
/// and that is to be no failure.
///
/// # Errors
///
/// Out of memory.
pub(crate) fn prefilter_of(
    alloc: Global,
    settings: &Settings,
    patterns: &[&[u8]],
    best_effort: bool,
) -> Result<Option<Prefilter>, BuildError>
    ensures held { best_effort ≡ false → IfOk result (λ held.
        held ≡ held_in_rows settings.now (patterns_of settings.now patterns.now)) }
    ensures of { IfOk result (λ held. IfSome held (λ prefilter.
        IsPrefilterOf prefilter (patterns_of settings.now patterns.now))) }
    ensures sure { best_effort ≡ true → IsOk result }
    ensures refused { IsOkUnless result OutOfMemory }
{
    if !settings.prefilter {
        return Ok(None);
    }
    match Prefilter::quickest(alloc, settings.ignore_case, patterns) {
        Ok(held) => Ok(held),
        Err(_) => {
            if best_effort {
                return Ok(None);
            }
            Err(BuildError::OutOfMemory)
        }
    }
}
