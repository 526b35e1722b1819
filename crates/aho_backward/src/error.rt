//! Why no searcher was made.

ghost use Rattle.std.specs.Prelude.{◌≡◌};

use aho_core::error::BuildError;
use std::alloc::AllocError;
use std::error::Error;
use std::fmt;

/// Why no searcher was made.
#[derive(Clone, Debug, PartialEq, Eq, Drop)]
pub enum BackwardError {
    /// The match kind is the standard one, which does not choose by the start of a match.
    StandardKind,
    /// The pattern of this number is empty.
    EmptyPattern(usize),
    /// An automaton was not built.
    Build(BuildError),
}

impl From<BuildError> for BackwardError {
    ghost use Rattle.aho_backward.specs.declared.error.BackwardError.TheVariants.{Build};

    ghost from_gives = { λ cause error. error ≡ Build cause };

    fn from(cause: BuildError) -> BackwardError {
        BackwardError::Build(cause)
    }
}

impl From<AllocError> for BackwardError {
    ghost use Rattle.aho_core.specs.declared.error.BuildError.TheVariants.{OutOfMemory};
    ghost use Rattle.aho_backward.specs.declared.error.BackwardError.TheVariants.{Build};

    ghost from_gives = { λ _ error. error ≡ Build OutOfMemory };

    fn from(_cause: AllocError) -> BackwardError {
        BackwardError::Build(BuildError::OutOfMemory)
    }
}

/// Writes why, with no line end: of a build that was refused the text of its own error.
impl fmt::Display for BackwardError {
    ghost use Rattle.std.specs.Prelude.{Some};
    ghost use Rattle.aho_backward.specs.Texts.{backward_error_text};

    ghost output = { λ error. Some (backward_error_text error) };

    fn fmt<W: fmt::Write>(&self, f: &mut fmt::Formatter<W>) -> fmt::Result {
        match self {
            BackwardError::StandardKind => {
                f.write_str("match kind Standard has no search by a walk backward")
            }
            BackwardError::EmptyPattern(number) => write!(f, "pattern {number} is empty"),
            BackwardError::Build(cause) => write!(f, "{cause}"),
        }
    }
}

impl Error for BackwardError {}
