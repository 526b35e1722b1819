//! The automaton and the prefilter of the lines of a file.

ghost use Rattle.std.specs.Prelude.{◌≡◌, IfOk, IfSome};
ghost use Rattle.aho_build.specs.Items.{patterns_of};
ghost use Rattle.aho_build.specs.Settings.{default_settings};
ghost use Rattle.aho_prefilter.specs.Prefilter.{IsPrefilterOf};

use aho_automaton::automaton::Automaton;
use aho_corasick::noncontiguous::{Builder, NFA};
use aho_core::error::BuildError;
use aho_core::search::MatchKind;
use aho_prefilter::prefilter::Prefilter;
use anyhow::Result;
use std::alloc::{AllocError, Global};

/// The lines that are not empty.
pub(crate) fn lines_of(alloc: Global, bytes: &[u8]) -> Result<Vec<&[u8]>> {
    let mut lines = Vec::new(alloc);
    for line in bytes.split(|byte| *byte == b'\n') {
        if !line.is_empty() {
            lines.push(line)?;
        }
    }
    Ok(lines)
}

/// A builder of these settings.
fn builder_of(kind: MatchKind, ignore_case: bool, prefilter: bool, depth: usize) -> Builder
    ensures settings { result ≡ record default_settings {
      kind = kind;
      ignore_case = ignore_case;
      prefilter = prefilter;
      dense_depth = depth;
    } }
{
    let mut builder = NFA::builder();
    builder.match_kind(kind);
    builder.ascii_case_insensitive(ignore_case);
    builder.prefilter(prefilter);
    builder.dense_depth(depth);
    builder
}

/// The automaton of these lines.
pub(crate) fn automaton_of(
    alloc: Global,
    lines: &[&[u8]],
    kind: MatchKind,
    ignore_case: bool,
    prefilter: bool,
    depth: usize,
) -> Result<NFA, BuildError>
    ensures of { IfOk result (λ nfa. ⟦<NFA as Automaton>⟧.is_of nfa
        (patterns_of (record default_settings { kind = kind; ignore_case = ignore_case }) lines.now)) }
{
    builder_of(kind, ignore_case, prefilter, depth).build(alloc, lines.iter().copied())
}

/// The prefilter of these lines where it may be of each kind, if there is one.
pub(crate) fn quickest_of(
    alloc: Global,
    lines: &[&[u8]],
    kind: MatchKind,
    ignore_case: bool,
) -> Result<Option<Prefilter>, AllocError>
    ensures of { IfOk result (λ held. IfSome held (λ prefilter. IsPrefilterOf prefilter
        (patterns_of (record default_settings { kind = kind; ignore_case = ignore_case }) lines.now))) }
{
    Prefilter::quickest(alloc, ignore_case, lines)
}
