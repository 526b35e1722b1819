//! Why a call of either program answers nothing.

ghost use Rattle.std.specs.Prelude.{◌≡◌, IfOk};

use crate::parts::{write_build_line, write_parts, write_search_line};
use chromesquid::{BuildError, MatchError, Sink, StreamError};
use std::alloc::AllocError;
use std::fmt;
use std::fmt::{InlineText, Write};

/// The room for a failure's line. The longest is that of a pattern's number, with two numbers of twenty digits: 130 bytes.
const LINE_CAPACITY: usize = 160;

/// What is told of wrong arguments.
const USAGE: &[u8] = b"usage: acfind find KIND [-i] PATTERN.. | overlap PATTERN.. | replace P R ..";

/// Why a call answers nothing.
#[derive(Drop)]
pub enum Failure {
    /// The arguments are wrong.
    Usage,
    /// The automaton is refused.
    Build(BuildError),
    /// The search or the replacement is refused.
    Search(MatchError),
    /// Memory runs out.
    OutOfMemory,
    /// The input is longer than a replacement may be.
    PositionLimit,
    /// Standard input cannot be read.
    Read,
    /// Standard output cannot be written.
    Write,
    /// A write to standard output took no bytes.
    WriteZero,
}

impl Failure {
    ghost use Rattle.std.specs.Fmt.InlineText.{inline_text};
    ghost use Rattle.tool_parts.specs.Failures.{status_of_failure, line_of_failure};
    ghost use Rattle.tool_parts.specs.Telling.{TakesBytes};

    /// The exit status: 3 where a device fails, and else 2.
    pub fn status(&self) -> u8
        ensures status { result ≡ status_of_failure self.now }
    {
        match self {
            Failure::Usage
            | Failure::Build(_)
            | Failure::Search(_)
            | Failure::OutOfMemory
            | Failure::PositionLimit => 2,
            Failure::Read | Failure::Write | Failure::WriteZero => 3,
        }
    }

    /// Writes the text and a line end. It takes no memory, so that memory has run out can be told too.
    ///
    /// # Errors
    ///
    /// A write failed or took no byte. A beginning of the line was written then.
    pub fn write_line<S: Sink>(&self, sink: &mut S) -> Result<(), StreamError>
        ensures written { TakesBytes S.Sink sink.old sink.new (line_of_failure self.now) result }
    {
        match self {
            Failure::Usage => write_parts(sink, &[USAGE, b"\n"]),
            Failure::Build(error) => write_build_line(sink, error),
            Failure::Search(error) => write_search_line(sink, error),
            Failure::OutOfMemory => write_parts(sink, &[b"out of memory", b"\n"]),
            Failure::PositionLimit => write_parts(sink, &[b"position limit reached", b"\n"]),
            Failure::Read => write_parts(sink, &[b"read fault", b"\n"]),
            Failure::Write => write_parts(sink, &[b"write fault", b"\n"]),
            Failure::WriteZero => write_parts(sink, &[b"write took no bytes", b"\n"]),
        }
    }

    /// The text and a line end. It takes no memory, so that memory has run out can be told too.
    pub fn line(&self) -> Result<InlineText<{ LINE_CAPACITY }>, fmt::Error>
        ensures line { IfOk result (λ line. inline_text line ≡ line_of_failure self.now) }
    {
        let mut line = InlineText::new();
        writeln!(line, "{self}")?;
        Ok(line)
    }
}

impl From<BuildError> for Failure {
    ghost use Rattle.tool_parts.specs.declared.failure.Failure.TheVariants.{Build};

    ghost from_gives = { λ error failure. failure ≡ Build error };

    fn from(error: BuildError) -> Failure {
        Failure::Build(error)
    }
}

impl From<MatchError> for Failure {
    ghost use Rattle.tool_parts.specs.declared.failure.Failure.TheVariants.{Search};

    ghost from_gives = { λ error failure. failure ≡ Search error };

    fn from(error: MatchError) -> Failure {
        Failure::Search(error)
    }
}

impl From<AllocError> for Failure {
    ghost use Rattle.tool_parts.specs.declared.failure.Failure.TheVariants.{OutOfMemory};

    ghost from_gives = { λ _ failure. failure ≡ OutOfMemory };

    fn from(_error: AllocError) -> Failure {
        Failure::OutOfMemory
    }
}

impl From<StreamError> for Failure {
    ghost use Rattle.tool_parts.specs.Failures.{failure_of_stream};

    ghost from_gives = { λ error failure. failure ≡ failure_of_stream error };

    fn from(error: StreamError) -> Failure {
        match error {
            StreamError::Match(error) => Failure::Search(error),
            StreamError::Read(_) => Failure::Read,
            StreamError::Write(_) => Failure::Write,
            StreamError::WriteZero => Failure::WriteZero,
            StreamError::Memory => Failure::OutOfMemory,
            StreamError::PositionLimit => Failure::PositionLimit,
        }
    }
}

/// Writes why nothing is answered, with no line end.
impl fmt::Display for Failure {
    ghost use Rattle.std.specs.Prelude.{Some};
    ghost use Rattle.tool_parts.specs.Failures.{failure_text};

    ghost output = { λ failure. Some (failure_text failure) };

    fn fmt<W: fmt::Write>(&self, f: &mut fmt::Formatter<W>) -> fmt::Result {
        match self {
            Failure::Usage => f.write_str(
                "usage: acfind find KIND [-i] PATTERN.. | overlap PATTERN.. | replace P R ..",
            ),
            Failure::Build(error) => write!(f, "{error}"),
            Failure::Search(error) => write!(f, "{error}"),
            Failure::OutOfMemory => f.write_str("out of memory"),
            Failure::PositionLimit => f.write_str("position limit reached"),
            Failure::Read => f.write_str("read fault"),
            Failure::Write => f.write_str("write fault"),
            Failure::WriteZero => f.write_str("write took no bytes"),
        }
    }
}
