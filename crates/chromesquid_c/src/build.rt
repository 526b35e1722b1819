//! A searcher is built, shared and let go.

ghost use Rattle.std.specs.Prelude.{◌≡◌, ◌≢◌, IfErr, IfOk, None, OnOk};
ghost use Rattle.chromesquid.specs.Rules.{Accepts, FailsFor};
ghost use Rattle.chromesquid_c.specs.Building.{FailsWith, ForOptions, IsBuiltBy, automaton_numbered, build_status, building_by, kind_numbered, later_option, start_numbered};
ghost use Rattle.chromesquid_c.specs.Evidence.{IsOfSome};
ghost use Rattle.chromesquid_c.specs.Holding.{HoldsSearcher, HoldsSame, IfHeld, IsEmpty};

use crate::handle::CsSearcher;
use crate::options::{CsOptions, OPTIONS_SIZE};
use crate::status::{
    DONE, NO_MEMORY, NO_OPTION, NO_SEARCHER, TOO_LONG, TOO_MANY_PATTERNS, TOO_MANY_STATES,
};
use chromesquid::{
    AhoCorasick, AhoCorasickBuilder, AhoCorasickKind, BuildError, Limits, MatchKind, StartKind,
};
use std::alloc::{AllocError, Global};
use std::sync::Arc;

/// The match kind of this number, if it has one.
pub(crate) fn match_kind_of(number: u32) -> Option<MatchKind>
    ensures kind { result ≡ kind_numbered number }
{
    match number {
        0 => Some(MatchKind::Standard),
        1 => Some(MatchKind::LeftmostFirst),
        2 => Some(MatchKind::LeftmostLongest),
        _ => None,
    }
}

/// Which searches are answered by this number, if it says so.
pub(crate) fn start_kind_of(number: u32) -> Option<StartKind>
    ensures kind { result ≡ start_numbered number }
{
    match number {
        0 => Some(StartKind::Unanchored),
        1 => Some(StartKind::Anchored),
        2 => Some(StartKind::Both),
        _ => None,
    }
}

/// The kind of automaton of this number, if it has one; none is named where the rule takes it.
fn automaton_of(number: u32) -> Option<Option<AhoCorasickKind>>
    ensures automaton { result ≡ automaton_numbered number }
{
    match number {
        0 => Some(None),
        1 => Some(Some(AhoCorasickKind::NoncontiguousNFA)),
        2 => Some(Some(AhoCorasickKind::Hybrid)),
        _ => None,
    }
}

/// What is asked of a later version: the first number of these that is not 0.
pub(crate) fn later_option(options: &CsOptions) -> u64
    ensures first { result ≡ later_option options.now }
{
    if options.later_a != 0 {
        options.later_a
    } else if options.later_b != 0 {
        options.later_b
    } else if options.later_c != 0 {
        options.later_c
    } else {
        options.later_d
    }
}

/// The builder that the options ask for, if each of their numbers means something.
pub(crate) fn builder_of(options: &CsOptions) -> Option<AhoCorasickBuilder>
    ensures asked { result ≡ building_by options.now }
{
    if options.size != OPTIONS_SIZE {
        return None;
    }
    if later_option(options) != 0 {
        return None;
    }
    let Some(kind) = match_kind_of(options.match_kind) else {
        return None;
    };
    let Some(start_kind) = start_kind_of(options.start_kind) else {
        return None;
    };
    let Some(automaton) = automaton_of(options.automaton) else {
        return None;
    };
    let limits = Limits {
        id: options.max_index,
        pattern: options.max_pattern,
        length: options.max_len,
    };
    Some(
        AhoCorasickBuilder::new()
            .match_kind(kind)
            .start_kind(start_kind)
            .ascii_case_insensitive(options.ignore_case)
            .prefilter(options.prefilter)
            .kind(automaton)
            .limits(limits),
    )
}

/// The number that says why a build failed.
pub(crate) fn build_status(error: &BuildError) -> u32
    ensures status { result ≡ build_status error.now }
    ensures failed { result ≢ DONE }
{
    match error {
        BuildError::OutOfMemory => NO_MEMORY,
        BuildError::StateIDOverflow { .. } => TOO_MANY_STATES,
        BuildError::PatternIDOverflow { .. } => TOO_MANY_PATTERNS,
        BuildError::PatternTooLong { .. } => TOO_LONG,
    }
}

/// A handle of a new searcher for the patterns.
pub(crate) fn handle_for(
    alloc: Global,
    builder: &AhoCorasickBuilder,
    patterns: &[&[u8]],
) -> Result<CsSearcher, BuildError>
    ensures built { IfOk result (IsBuiltBy builder.now patterns.now) }
    ensures accepted { OnOk result (Accepts builder.now.settings patterns.now) }
    ensures refused { IfErr result (FailsFor builder.now.settings patterns.now) }
{
    let searcher = builder.build(alloc, patterns)?;
    let Ok(one) = Arc::new(alloc, searcher) else {
        return Err(BuildError::OutOfMemory);
    };
    let Ok(handle) = CsSearcher::of(alloc, one) else {
        return Err(BuildError::OutOfMemory);
    };
    Ok(handle)
}

/// Puts a new searcher for the patterns into `out`, in the place of the one that is there, and answers 0.
///
/// # Errors
///
/// 6 where a number of the options means nothing; else 5, 7, 8 or 9 as the build fails. `out` is then as it was.
#[unsafe(no_mangle)]
pub extern "C" fn cs_build(
    alloc: Global,
    patterns: &[&[u8]],
    options: &CsOptions,
    out: &mut CsSearcher,
) -> u32
    ensures no_option { building_by options.now ≡ None → result ≡ NO_OPTION }
    ensures built { ForOptions options.now (λ b. result ≡ DONE → IsBuiltBy b patterns.now out.new) }
    ensures accepted { ForOptions options.now (λ b. result ≡ DONE → Accepts b.settings patterns.now) }
    ensures refused { ForOptions options.now (λ b.
        result ≢ DONE → FailsWith b.settings patterns.now result) }
    ensures kept { result ≢ DONE → out.new ≡ out.old }
{
    let Some(builder) = builder_of(options) else {
        return NO_OPTION;
    };
    match handle_for(alloc, &builder, patterns) {
        Ok(handle) => {
            *out = handle;
            DONE
        }
        Err(error) => build_status(&error),
    }
}

/// Lets the searcher go: the handle has none then. A handle that has none stays so.
#[unsafe(no_mangle)]
pub extern "C" fn cs_free(alloc: Global, searcher: &mut CsSearcher)
    ensures empty { IsEmpty searcher.new }
{
    *searcher = CsSearcher::none(alloc);
}

/// One more handle of a searcher.
fn shared(alloc: Global, searcher: &Arc<AhoCorasick>) -> Result<CsSearcher, AllocError>
    requires some { IsOfSome searcher.now.value }
    ensures same { IfOk result (λ h. HoldsSearcher h searcher.now.value) }
{
    let one = Arc::try_clone(searcher)?;
    CsSearcher::of(alloc, one)
}

/// Puts one more handle of the searcher into `out`, in the place of the one that is there, and answers 0. Each is let go for
/// itself, and the searcher goes with the last.
///
/// # Errors
///
/// 2 where there is no searcher, 5 where memory runs out. `out` is then as it was.
#[unsafe(no_mangle)]
pub extern "C" fn cs_share(alloc: Global, searcher: &mut CsSearcher, out: &mut CsSearcher) -> u32
    ensures shared { IfHeld searcher.old (λ s. result ≡ DONE → HoldsSearcher out.new s) }
    ensures told { IfHeld searcher.old (λ _. result ≢ DONE → result ≡ NO_MEMORY) }
    ensures empty { IsEmpty searcher.old → result ≡ NO_SEARCHER }
    ensures kept { result ≢ DONE → out.new ≡ out.old }
    ensures same { HoldsSame searcher.old searcher.new }
{
    if !searcher.full {
        return NO_SEARCHER;
    }
    match shared(alloc, &searcher.held.get().searcher) {
        Ok(other) => {
            *out = other;
            DONE
        }
        Err(_) => NO_MEMORY,
    }
}
