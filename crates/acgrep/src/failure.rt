//! Why a search stops.

use chromesquid::{MatchError, StreamError};
use std::alloc::AllocError;
use std::io;
use tool_parts::reason::Reason;

/// Why a search stops before its end.
#[derive(Drop)]
pub enum Stop {
    /// The search is refused.
    Search(MatchError),
    /// Memory runs out.
    OutOfMemory,
    /// The input cannot be read, for this reason.
    Read(Reason),
    /// The output cannot be written.
    Write,
}

/// Why a file is not searched, or not to its end.
#[derive(Clone, Copy)]
pub enum Obstacle {
    /// The output goes to it.
    Output,
    /// It is a folder that stands in itself.
    Loop,
    /// It cannot be opened or looked at, for this reason.
    Closed(Reason),
    /// It cannot be read, for this reason.
    Fault(Reason),
}

impl From<MatchError> for Stop {
    fn from(error: MatchError) -> Stop {
        Stop::Search(error)
    }
}

impl From<AllocError> for Stop {
    fn from(_error: AllocError) -> Stop {
        Stop::OutOfMemory
    }
}

/// The only errors of std that are handed on by `?` are those of what is put together in memory.
impl From<io::Error> for Stop {
    fn from(_error: io::Error) -> Stop {
        Stop::OutOfMemory
    }
}

/// The only errors of a stream that are handed on by `?` are those of the output.
impl From<StreamError> for Stop {
    fn from(_error: StreamError) -> Stop {
        Stop::Write
    }
}
