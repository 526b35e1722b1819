//! Why a secret has no forms.

use std::alloc::AllocError;
use std::error::Error;
use std::fmt;

/// A secret of fewer bytes has no forms: it would be found in much that is no secret.
pub(crate) const SHORTEST: usize = 4;

/// Why a secret has no forms.
#[derive(Clone, Copy, Debug, PartialEq, Eq)]
pub enum FormError {
    /// The secret has fewer than four bytes.
    TooShort,
    /// An allocation failed.
    OutOfMemory,
}

impl fmt::Display for FormError {
    fn fmt<W: fmt::Write>(&self, f: &mut fmt::Formatter<W>) -> fmt::Result {
        match self {
            FormError::TooShort => f.write_str("a secret of fewer than four bytes has no forms"),
            FormError::OutOfMemory => f.write_str("out of memory"),
        }
    }
}

impl Error for FormError {}

impl From<AllocError> for FormError {
    ghost use Rattle.std.specs.Prelude.{◌≡◌};
    ghost use Rattle.secret_forms.specs.declared.error.FormError.TheVariants.{OutOfMemory};

    ghost from_gives = { λ _ error. error ≡ OutOfMemory };

    fn from(_error: AllocError) -> FormError {
        FormError::OutOfMemory
    }
}
