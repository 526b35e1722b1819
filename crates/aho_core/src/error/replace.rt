//! Why a replacement in memory stopped.

ghost use Rattle.std.specs.Prelude.{◌≡◌};

use crate::error::MatchError;
use std::alloc::AllocError;
use std::error::Error;
use std::fmt;

/// Why a replacement in memory stopped.
#[derive(Clone, Copy, Debug, PartialEq, Eq)]
pub enum ReplaceError {
    /// The search was refused.
    Match(MatchError),
    /// Memory was wanted.
    Memory,
}

impl From<MatchError> for ReplaceError {
    ghost use Rattle.aho_core.specs.declared.error.replace.ReplaceError.TheVariants.{Match};

    ghost from_gives = { λ cause error. error ≡ Match cause };

    fn from(cause: MatchError) -> ReplaceError {
        ReplaceError::Match(cause)
    }
}

impl From<AllocError> for ReplaceError {
    ghost use Rattle.aho_core.specs.declared.error.replace.ReplaceError.TheVariants.{Memory};

    ghost from_gives = { λ _ error. error ≡ Memory };

    fn from(_cause: AllocError) -> ReplaceError {
        ReplaceError::Memory
    }
}

/// Writes why it stopped, with no line end: of a refused search the text of its own error.
impl fmt::Display for ReplaceError {
    ghost use Rattle.std.specs.Prelude.{Some};
    ghost use Rattle.aho_core.specs.Texts.{replace_error_text};

    ghost output = { λ error. Some (replace_error_text error) };

    fn fmt<W: fmt::Write>(&self, f: &mut fmt::Formatter<W>) -> fmt::Result {
        match self {
            ReplaceError::Match(refusal) => write!(f, "{refusal}"),
            ReplaceError::Memory => f.write_str("out of memory"),
        }
    }
}

impl Error for ReplaceError {}
