//! Why a build or a search is refused, and why a replacement or a stream stopped.

ghost use Rattle.std.specs.Prelude.{◌≡◌};
ghost use Rattle.aho_core.specs.Texts.{kind_name};
ghost use Rattle.aho_core.specs.declared.error.MatchErrorKind.TheVariants.{InvalidInputAnchored, InvalidInputUnanchored, UnsupportedStream, UnsupportedOverlapping, UnsupportedEmpty};

mod replace;
mod stream;

use crate::search::{MatchKind, PatternID};
pub use replace::ReplaceError;
use std::error::Error;
use std::fmt;
use std::marker::Model;
pub use stream::{Fault, StreamError};

/// Why an automaton was not built.
#[derive(Clone, Debug, PartialEq, Eq, Drop)]
pub enum BuildError {
    /// A table would pass the limit on its indexes.
    StateIDOverflow {
        /// The limit in force.
        max: u64,
        /// The index that was wanted.
        requested: u64,
    },
    /// A pattern's number is above the limit.
    PatternIDOverflow {
        /// The limit in force.
        max: u64,
        /// The pattern's number.
        requested: u64,
    },
    /// A pattern is longer than the limit.
    PatternTooLong {
        /// The pattern's number.
        pattern: PatternID,
        /// Its length in bytes.
        len: usize,
        /// The limit in force.
        max: usize,
    },
    /// An allocation failed.
    OutOfMemory,
}

/// Writes what was refused, with no line end: numbers in decimal, a pattern as its number, lengths in bytes.
impl fmt::Display for BuildError {
    ghost use Rattle.std.specs.Prelude.{Some};
    ghost use Rattle.aho_core.specs.Texts.{build_error_text};

    ghost output = { λ error. Some (build_error_text error) };

    fn fmt<W: fmt::Write>(&self, f: &mut fmt::Formatter<W>) -> fmt::Result {
        match self {
            BuildError::StateIDOverflow { max, requested } => write!(
                f,
                "state identifier overflow: failed to create state ID from {requested}, which exceeds the max of {max}",
            ),
            BuildError::PatternIDOverflow { max, requested } => write!(
                f,
                "pattern identifier overflow: failed to create pattern ID from {requested}, which exceeds the max of {max}",
            ),
            BuildError::PatternTooLong { pattern, len, max } => write!(
                f,
                "pattern {} with length {len} exceeds the maximum pattern length of {max}",
                pattern.as_usize(),
            ),
            BuildError::OutOfMemory => f.write_str("out of memory"),
        }
    }
}

impl Error for BuildError {}

/// The reasons for which a search is refused.
#[derive(Clone, Copy, Debug, PartialEq, Eq)]
pub enum MatchErrorKind {
    /// An anchored search was asked of an automaton that has no anchored start.
    InvalidInputAnchored,
    /// An unanchored search was asked of an automaton that has no unanchored start.
    InvalidInputUnanchored,
    /// A search of a stream was asked under a match kind that it cannot keep.
    UnsupportedStream {
        /// The match kind that was asked for.
        got: MatchKind,
    },
    /// An overlapping search was asked under a match kind that it cannot keep.
    UnsupportedOverlapping {
        /// The match kind that was asked for.
        got: MatchKind,
    },
    /// A search that allows no empty pattern was asked where some pattern is empty.
    UnsupportedEmpty,
}

/// The error of a search that is refused: a reason, held in place, so that no error takes memory.
///
/// Two errors are equal exactly where their reasons are.
#[derive(Clone, Copy, Debug, PartialEq, Eq)]
pub struct MatchError {
    kind: MatchErrorKind,
}

impl Model for MatchError {
    ghost use Rattle.aho_core.specs.declared.error.MatchErrorKind.{MatchErrorKind};

    ghost Value = { MatchErrorKind };

    ghost view = { λ error. error.kind };

    ghost inverse = { λ reason. record { kind = reason } };
}

impl MatchError {
    /// The error of this reason.
    pub fn new(kind: MatchErrorKind) -> MatchError
        ensures kind { result ≡ kind }
    {
        MatchError { kind }
    }

    /// The reason.
    pub fn kind(&self) -> &MatchErrorKind
        ensures kind { result.now ≡ self.now }
    {
        &self.kind
    }

    /// An anchored search has no start.
    pub fn invalid_input_anchored() -> MatchError
        ensures kind { result ≡ InvalidInputAnchored }
    {
        MatchError::new(MatchErrorKind::InvalidInputAnchored)
    }

    /// An unanchored search has no start.
    pub fn invalid_input_unanchored() -> MatchError
        ensures kind { result ≡ InvalidInputUnanchored }
    {
        MatchError::new(MatchErrorKind::InvalidInputUnanchored)
    }

    /// A stream cannot be searched under this match kind.
    pub fn unsupported_stream(got: MatchKind) -> MatchError
        ensures kind { result ≡ UnsupportedStream got }
    {
        MatchError::new(MatchErrorKind::UnsupportedStream { got })
    }

    /// Overlapping matches cannot be searched for under this match kind.
    pub fn unsupported_overlapping(got: MatchKind) -> MatchError
        ensures kind { result ≡ UnsupportedOverlapping got }
    {
        MatchError::new(MatchErrorKind::UnsupportedOverlapping { got })
    }

    /// The patterns include an empty one.
    pub fn unsupported_empty() -> MatchError
        ensures kind { result ≡ UnsupportedEmpty }
    {
        MatchError::new(MatchErrorKind::UnsupportedEmpty)
    }
}

/// The name of a match kind.
fn name_of(kind: MatchKind) -> &'static str
    ensures name { result.now ≡ kind_name kind }
{
    match kind {
        MatchKind::Standard => "Standard",
        MatchKind::LeftmostFirst => "LeftmostFirst",
        MatchKind::LeftmostLongest => "LeftmostLongest",
    }
}

/// Writes what was asked for, with no line end: a match kind as its name.
impl fmt::Display for MatchError {
    ghost use Rattle.std.specs.Prelude.{Some};
    ghost use Rattle.aho_core.specs.Texts.{match_error_text};

    ghost output = { λ error. Some (match_error_text error) };

    fn fmt<W: fmt::Write>(&self, f: &mut fmt::Formatter<W>) -> fmt::Result {
        match self.kind {
            MatchErrorKind::InvalidInputAnchored => {
                f.write_str("anchored searches are not supported or enabled")
            }
            MatchErrorKind::InvalidInputUnanchored => {
                f.write_str("unanchored searches are not supported or enabled")
            }
            MatchErrorKind::UnsupportedStream { got } => write!(
                f,
                "match kind {} does not support stream searching",
                name_of(got),
            ),
            MatchErrorKind::UnsupportedOverlapping { got } => write!(
                f,
                "match kind {} does not support overlapping searches",
                name_of(got),
            ),
            MatchErrorKind::UnsupportedEmpty => f.write_str(
                "matching with an empty pattern string is not supported for this operation",
            ),
        }
    }
}

impl Error for MatchError {}
