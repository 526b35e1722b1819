//! Why rules are none, and why a line is not marked.

use crate::rule::RuleFault;
use aho_core::error::StreamError;
use chromesquid::BuildError;
use std::alloc::AllocError;

/// Why rules are none.
#[derive(Debug, Drop)]
pub enum RulesError {
    /// Something is wrong with a rule: its number in the list, from 0 on, its name, and what is wrong.
    Rule(usize, String, RuleFault),
    /// No searcher can be built for their keywords: there are too many, or one is too long.
    Keywords(BuildError),
    /// An allocation failed.
    OutOfMemory,
}

impl From<AllocError> for RulesError {
    ghost use Rattle.std.specs.Prelude.{◌≡◌};
    ghost use Rattle.secret_rules.specs.declared.error.RulesError.TheVariants.{OutOfMemory};

    ghost from_gives = { λ _ error. error ≡ OutOfMemory };

    fn from(_error: AllocError) -> RulesError {
        RulesError::OutOfMemory
    }
}

/// Why a line is not marked. The marker is then of no more use.
#[derive(Clone, Copy, Debug, PartialEq, Eq)]
pub enum MarkError {
    /// The expression of the rule of this number is too big to be compiled.
    TooBig(usize),
    /// An allocation failed.
    OutOfMemory,
}

impl From<AllocError> for MarkError {
    ghost use Rattle.std.specs.Prelude.{◌≡◌};
    ghost use Rattle.secret_rules.specs.declared.error.MarkError.TheVariants.{OutOfMemory};

    ghost from_gives = { λ _ error. error ≡ OutOfMemory };

    fn from(_error: AllocError) -> MarkError {
        MarkError::OutOfMemory
    }
}

/// Why a stream is not covered line by line.
#[derive(Clone, Copy, Debug, PartialEq, Eq)]
pub enum LineError {
    /// A device failed, or the limit of bytes was met.
    Stream(StreamError),
    /// A line is not marked, or an allocation failed.
    Mark(MarkError),
}

impl From<StreamError> for LineError {
    ghost use Rattle.std.specs.Prelude.{◌≡◌};
    ghost use Rattle.secret_rules.specs.declared.error.LineError.TheVariants.{Stream};

    ghost from_gives = { λ error made. made ≡ Stream error };

    fn from(error: StreamError) -> LineError {
        LineError::Stream(error)
    }
}

impl From<MarkError> for LineError {
    ghost use Rattle.std.specs.Prelude.{◌≡◌};
    ghost use Rattle.secret_rules.specs.declared.error.LineError.TheVariants.{Mark};

    ghost from_gives = { λ error made. made ≡ Mark error };

    fn from(error: MarkError) -> LineError {
        LineError::Mark(error)
    }
}

impl From<AllocError> for LineError {
    ghost use Rattle.std.specs.Prelude.{◌≡◌};
    ghost use Rattle.secret_rules.specs.declared.error.LineError.TheVariants.{Mark};
    ghost use Rattle.secret_rules.specs.declared.error.MarkError.TheVariants.{OutOfMemory};

    ghost from_gives = { λ _ error. error ≡ Mark OutOfMemory };

    fn from(_error: AllocError) -> LineError {
        LineError::Mark(MarkError::OutOfMemory)
    }
}
