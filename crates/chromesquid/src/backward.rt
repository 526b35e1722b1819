//! All finds of a leftmost kind in linear time, whatever the patterns are.

ghost use Rattle.std.specs.Prelude.{◌≡◌, IfOk, IsOk, IsOkUnless, None, OnOk, false, true};
ghost use Rattle.aho_core.specs.declared.error.BuildError.TheVariants.{OutOfMemory};
ghost use Rattle.aho_build.specs.Items.{patterns_of};
ghost use Rattle.chromesquid.specs.Backward.{HoldsIfWorth, IsHeldFor, wants_memory};

use aho_automaton::automaton::Automaton;
use aho_backward::error::BackwardError;
use aho_backward::overhang::is_worth_it;
use aho_build::settings::Settings;
use aho_corasick::noncontiguous::NFA;
use aho_core::error::BuildError;
use std::alloc::Global;

/// A searcher for all finds of a text by a leftmost kind, with at most four look-ups of a transition for each byte, whatever the
/// patterns are and wherever they match: for patterns from a stranger.
///
/// An iteration walks behind each match as far as the longest pattern reaches, and reads that again for the match after it. This
/// walks over each block of the text backward, and takes memory for a state of each place and for all finds. A stream is replaced
/// the same way by `try_stream_replace_all`, in a buffer of fixed length. `overhang::is_worth_it` tells of patterns whether an
/// iteration may read much again. A builder with the setting `finds_all` asks that itself.
///
/// ```rust
/// let searcher = Backward::new(alloc, &[&b"a"[..], b"aab"], MatchKind::LeftmostFirst, false)?;
/// let found = searcher.find_all(alloc, b"aaa")?;
/// ```
pub type Backward = aho_backward::backward::Backward<NFA>;

/// The walk backward over these patterns, where it is worth it and can be made; none where memory for it is refused and that is
/// to be no failure. The automaton is one of these patterns.
///
/// # Errors
///
/// Out of memory.
pub(crate) fn backward_of(
    alloc: Global,
    nfa: &NFA,
    settings: &Settings,
    patterns: &[&[u8]],
    best_effort: bool,
) -> Result<Option<Backward>, BuildError>
    requires of { ⟦<NFA as Automaton>⟧.is_of nfa.now (patterns_of settings.now patterns.now) }
    ensures of { IfOk result (IsHeldFor (patterns_of settings.now patterns.now)) }
    ensures worth { best_effort ≡ false
        → IfOk result (HoldsIfWorth (patterns_of settings.now patterns.now)) }
    ensures sure { best_effort ≡ true → IsOk result }
    ensures refused { IsOkUnless result OutOfMemory }
{
    if !is_worth_it(nfa, patterns) {
        return Ok(None);
    }
    match Backward::new(alloc, patterns, settings.kind, settings.ignore_case) {
        Ok(made) => Ok(Some(made)),
        Err(error) => none_for(&error, best_effort),
    }
}

/// No walk backward, unless memory for it was refused and that is a failure.
///
/// # Errors
///
/// Out of memory.
fn none_for(error: &BackwardError, best_effort: bool) -> Result<Option<Backward>, BuildError>
    ensures none { IfOk result (λ held. held ≡ None) }
    ensures other { best_effort ≡ false → OnOk result (wants_memory error.now ≡ false) }
    ensures sure { best_effort ≡ true → IsOk result }
    ensures refused { IsOkUnless result OutOfMemory }
{
    if best_effort {
        return Ok(None);
    }
    match error {
        BackwardError::Build(BuildError::OutOfMemory) => Err(BuildError::OutOfMemory),
        BackwardError::Build(_) => Ok(None),
        BackwardError::StandardKind => Ok(None),
        BackwardError::EmptyPattern(_) => Ok(None),
    }
}
