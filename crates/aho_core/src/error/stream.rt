//! Why a search or a replacement of a stream stopped.

ghost use Rattle.std.specs.Prelude.{◌≡◌};

use crate::error::MatchError;
use std::alloc::AllocError;
use std::error::Error;
use std::fmt;

/// A device's own error, of which no more is known than that there was one.
#[derive(Clone, Copy, Debug, PartialEq, Eq)]
pub struct Fault;

/// Why a search or a replacement of a stream stopped.
#[derive(Clone, Copy, Debug, PartialEq, Eq)]
pub enum StreamError {
    /// The search was refused.
    Match(MatchError),
    /// The source failed.
    Read(Fault),
    /// The sink failed.
    Write(Fault),
    /// The sink took no byte of a nonempty piece.
    WriteZero,
    /// Memory was wanted.
    Memory,
    /// More bytes were wanted than the position limit leaves.
    PositionLimit,
}

impl From<MatchError> for StreamError {
    ghost use Rattle.aho_core.specs.declared.error.stream.StreamError.TheVariants.{Match};

    ghost from_gives = { λ cause error. error ≡ Match cause };

    fn from(cause: MatchError) -> StreamError {
        StreamError::Match(cause)
    }
}

impl From<AllocError> for StreamError {
    ghost use Rattle.aho_core.specs.declared.error.stream.StreamError.TheVariants.{Memory};

    ghost from_gives = { λ _ error. error ≡ Memory };

    fn from(_cause: AllocError) -> StreamError {
        StreamError::Memory
    }
}

/// Writes why it stopped, with no line end: of a refused search the text of its own error.
impl fmt::Display for StreamError {
    ghost use Rattle.std.specs.Prelude.{Some};
    ghost use Rattle.aho_core.specs.Texts.{stream_error_text};

    ghost output = { λ error. Some (stream_error_text error) };

    fn fmt<W: fmt::Write>(&self, f: &mut fmt::Formatter<W>) -> fmt::Result {
        match self {
            StreamError::Match(refusal) => write!(f, "{refusal}"),
            StreamError::Read(_) => f.write_str("read fault"),
            StreamError::Write(_) => f.write_str("write fault"),
            StreamError::WriteZero => f.write_str("write took no bytes"),
            StreamError::Memory => f.write_str("out of memory"),
            StreamError::PositionLimit => f.write_str("position limit reached"),
        }
    }
}

impl Error for StreamError {}
