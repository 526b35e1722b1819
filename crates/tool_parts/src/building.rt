//! The searcher of the patterns of `acgrep` and `acredact`. The builder of `chromesquid` decides by what it searches; no answer depends on
//! that.

ghost use Rattle.std.specs.Prelude.{◌≡◌, IfErr, IfOk, true};
ghost use Rattle.aho_core.specs.Replacement.{pieces_of};
ghost use Rattle.aho_core.specs.declared.search.Anchored.TheVariants.{No};
ghost use Rattle.chromesquid.specs.Searcher.{Answers, IsBuiltFrom};
ghost use Rattle.tool_parts.specs.Building.{RefusesPatterns, building_by_kind, patterns_by_kind};

use chromesquid::{AhoCorasick, AhoCorasickBuilder, BuildError, MatchKind};
use std::alloc::Global;

/// The searcher of these patterns; `finds_all` says whether all finds of texts are asked for, by a leftmost kind. What memory is refused
/// for beside the automaton is left out.
///
/// # Errors
///
/// The first number, length or index that the patterns ask for above its limit, or `OutOfMemory`.
pub fn searcher_of(
    alloc: Global,
    kind: MatchKind,
    ignore_case: bool,
    finds_all: bool,
    patterns: &[&[u8]],
) -> Result<AhoCorasick, BuildError>
    ensures of { IfOk result (λ built.
        IsBuiltFrom built (patterns_by_kind kind ignore_case (pieces_of patterns.now))) }
    ensures answers { IfOk result (λ built. Answers built No) }
    ensures refused { IfErr result (RefusesPatterns (patterns_by_kind kind ignore_case (pieces_of patterns.now))) }
{
    builder_for(kind, ignore_case, finds_all).build(alloc, patterns)
}

/// How it is built.
fn builder_for(kind: MatchKind, ignore_case: bool, finds_all: bool) -> AhoCorasickBuilder
    ensures asked { result ≡ building_by_kind kind ignore_case finds_all }
{
    AhoCorasickBuilder::new()
        .match_kind(kind)
        .ascii_case_insensitive(ignore_case)
        .best_effort(true)
        .finds_all(finds_all)
}
