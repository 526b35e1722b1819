//! What the impls of std's traits answer, and what the constants are, each the contract of a
//! function. `Debug` and `Drop` have no meaning to state.

ghost use Rattle.std.specs.Prelude.{◌≡◌};
ghost use Rattle.aho_core.specs.Impls.{ClonesTheSame, ComparesNumbers, EqualsTheSame};
ghost use Rattle.aho_core.specs.Numbers.{greatest_index};
ghost use Rattle.aho_core.specs.declared.error.MatchErrorKind.{MatchErrorKind};
ghost use Rattle.aho_core.specs.declared.error.replace.ReplaceError.{ReplaceError};
ghost use Rattle.aho_core.specs.declared.error.stream.StreamError.{StreamError};
ghost use Rattle.aho_core.specs.declared.search.MatchKind.{MatchKind};
ghost use Rattle.aho_core.specs.declared.search.MatchKind.TheVariants.{Standard};

use crate::error::{BuildError, Fault, MatchError, MatchErrorKind, ReplaceError, StreamError};
use crate::search::{
    Anchored, Input, Match, MatchKind, PatternID, PatternIDError, SmallIndex, SmallIndexError,
    Span, StateID, StateIDError,
};
use std::alloc::AllocError;

/// A clone is its original, in all of its fields, and is never refused.
pub fn clones_the_same()
    ensures span { ClonesTheSame ⟦<Span as Clone>⟧ }
    ensures matches { ClonesTheSame ⟦<Match as Clone>⟧ }
    ensures anchored { ClonesTheSame ⟦<Anchored as Clone>⟧ }
    ensures match_kind { ClonesTheSame ⟦<MatchKind as Clone>⟧ }
    ensures input { ClonesTheSame ⟦<Input<'static> as Clone>⟧ }
    ensures index { ClonesTheSame ⟦<SmallIndex as Clone>⟧ }
    ensures index_error { ClonesTheSame ⟦<SmallIndexError as Clone>⟧ }
    ensures pattern { ClonesTheSame ⟦<PatternID as Clone>⟧ }
    ensures pattern_error { ClonesTheSame ⟦<PatternIDError as Clone>⟧ }
    ensures state { ClonesTheSame ⟦<StateID as Clone>⟧ }
    ensures state_error { ClonesTheSame ⟦<StateIDError as Clone>⟧ }
    ensures build_error { ClonesTheSame ⟦<BuildError as Clone>⟧ }
    ensures match_error { ClonesTheSame ⟦<MatchError as Clone>⟧ }
    ensures match_error_kind { ClonesTheSame ⟦<MatchErrorKind as Clone>⟧ }
    ensures replace_error { ClonesTheSame ⟦<ReplaceError as Clone>⟧ }
    ensures fault { ClonesTheSame ⟦<Fault as Clone>⟧ }
    ensures stream_error { ClonesTheSame ⟦<StreamError as Clone>⟧ }
{}

/// Two values are equal just where all of their fields are the same.
pub fn equals_the_same()
    ensures span { EqualsTheSame ⟦<Span as PartialEq>⟧ }
    ensures matches { EqualsTheSame ⟦<Match as PartialEq>⟧ }
    ensures anchored { EqualsTheSame ⟦<Anchored as PartialEq>⟧ }
    ensures match_kind { EqualsTheSame ⟦<MatchKind as PartialEq>⟧ }
    ensures index { EqualsTheSame ⟦<SmallIndex as PartialEq>⟧ }
    ensures index_error { EqualsTheSame ⟦<SmallIndexError as PartialEq>⟧ }
    ensures pattern { EqualsTheSame ⟦<PatternID as PartialEq>⟧ }
    ensures pattern_error { EqualsTheSame ⟦<PatternIDError as PartialEq>⟧ }
    ensures state { EqualsTheSame ⟦<StateID as PartialEq>⟧ }
    ensures state_error { EqualsTheSame ⟦<StateIDError as PartialEq>⟧ }
    ensures build_error { EqualsTheSame ⟦<BuildError as PartialEq>⟧ }
    ensures match_error { EqualsTheSame ⟦<MatchError as PartialEq>⟧ }
    ensures match_error_kind { EqualsTheSame ⟦<MatchErrorKind as PartialEq>⟧ }
    ensures replace_error { EqualsTheSame ⟦<ReplaceError as PartialEq>⟧ }
    ensures fault { EqualsTheSame ⟦<Fault as PartialEq>⟧ }
    ensures stream_error { EqualsTheSame ⟦<StreamError as PartialEq>⟧ }
{}

/// Indexes, patterns and states are in the order of their numbers. `Ord` asks that `<` and its
/// like are the same order.
pub fn compares_numbers()
    ensures index { ComparesNumbers ⟦<SmallIndex as Ord>⟧.cmp }
    ensures pattern { ComparesNumbers ⟦<PatternID as Ord>⟧.cmp }
    ensures state { ComparesNumbers ⟦<StateID as Ord>⟧.cmp }
{}

/// The match kind is standard where none is given.
pub fn is_standard_by_default()
    ensures standard { (kind : MatchKind)
        → ⟦<MatchKind as Default>⟧.is_default kind → kind ≡ Standard }
{}

/// The numbers of the first two states.
pub fn first_states() -> (StateID, StateID)
    ensures zero { result.0 ≡ 0 }
    ensures one { result.1 ≡ 1 }
{
    (StateID::ZERO, StateID::ONE)
}

/// The greatest numbers.
pub fn greatest() -> (SmallIndex, PatternID, StateID)
    ensures index { result.0 ≡ greatest_index }
    ensures pattern { result.1 ≡ greatest_index }
    ensures state { result.2 ≡ greatest_index }
{
    (SmallIndex::MAX, PatternID::MAX, StateID::MAX)
}

/// An error that a call passes on by `?` tells its cause.
pub fn errors_tell_their_cause()
    ensures refused_replacement { (cause : MatchErrorKind) (error : ReplaceError)
        → ⟦<ReplaceError as From<MatchError>>⟧.from_gives cause error
        → error ≡ ReplaceError.Match cause }
    ensures replacement_without_memory { (cause : AllocError) (error : ReplaceError)
        → ⟦<ReplaceError as From<AllocError>>⟧.from_gives cause error
        → error ≡ ReplaceError.Memory }
    ensures refused_stream { (cause : MatchErrorKind) (error : StreamError)
        → ⟦<StreamError as From<MatchError>>⟧.from_gives cause error
        → error ≡ StreamError.Match cause }
    ensures stream_without_memory { (cause : AllocError) (error : StreamError)
        → ⟦<StreamError as From<AllocError>>⟧.from_gives cause error
        → error ≡ StreamError.Memory }
{}
