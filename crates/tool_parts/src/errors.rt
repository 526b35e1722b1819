//! Standard error of a program, and the messages that are written to it.

ghost use Rattle.std.specs.Prelude.{◌≡◌, IfOk, IfSome, None, Some, codes, false};
ghost use Rattle.std.specs.Fmt.InlineText.{inline_text};
ghost use Rattle.aho_core.specs.Texts.{build_error_text, match_error_text};
ghost use Rattle.tool_parts.specs.Failures.{failure_text, line_of_failure};
ghost use Rattle.tool_parts.specs.Messages.{head_by, line_before, message_of, name_before, reason_text};
ghost use Rattle.tool_parts.specs.Names.{given_name};
ghost use Rattle.tool_parts.specs.Telling.{build_error_line, all_bytes, search_error_line, TellsBytes};

use crate::failure::Failure;
use crate::parts::{MAX_DIGITS, digits_of, write_build_line, write_parts, write_search_line};
use crate::reason::Reason;
use chromesquid::{BuildError, MatchError, Sink};
use std::cell::Cell;
use std::fmt;
use std::fmt::{InlineText, Write};

/// The room for the text of a cause. The longest is that of a pattern's number, with two numbers of twenty digits.
const CAUSE_CAPACITY: usize = 160;

/// The text that `{}` writes of a value; an error where the room is too small.
fn text_of<T: fmt::Display>(value: &T) -> Result<InlineText<{ CAUSE_CAPACITY }>, fmt::Error>
    ensures text { IfOk result (λ text. IfSome (T.output value.now) (λ said. inline_text text ≡ said)) }
{
    let mut text = InlineText::new();
    write!(text, "{value}")?;
    Ok(text)
}

/// Standard error of a program. After the first write that fails nothing more is written, so a line that was cut off stays the
/// last one.
#[derive(Drop)]
pub struct Errors<'c, E> {
    pub(crate) sink: E,
    pub(crate) failed: bool,
    noted: &'c Cell<Option<Reason>>,
}

impl<'c, E: Sink> Errors<'c, E> {
    /// The sink as standard error, and where it is noted why the output cannot be written.
    pub fn new(sink: E, noted: &'c Cell<Option<Reason>>) -> Errors<'c, E>
        ensures sink { result.sink ≡ sink }
        ensures writes { result.failed ≡ false }
    {
        Errors {
            sink,
            failed: false,
            noted,
        }
    }

    /// Whether a write has failed.
    pub fn has_failed(&self) -> bool
        ensures failed { result ≡ self.now.failed }
    {
        self.failed
    }

    /// Writes these parts, one after another.
    pub fn write(&mut self, parts: &[&[u8]])
        ensures told { TellsBytes E.Sink self.old self.new (all_bytes parts.now) }
    {
        if self.failed {
            return;
        }
        match write_parts(&mut self.sink, parts) {
            Ok(()) => {}
            Err(_) => self.failed = true,
        }
    }

    /// Writes a message as a line: the name of the program, what is told of, its line there, and the cause. The name and the line
    /// are left out where there is none. It is one write where it has up to 4,096 bytes, as each message is that is told below.
    pub fn tell(&mut self, program: &[u8], name: Option<&[u8]>, line: Option<u64>, cause: &[u8])
        ensures told { TellsBytes E.Sink self.old self.new
            (message_of program.now (given_name name.entry) line cause.now) }
    {
        match name {
            Some(name) => self.tell_of(program, name, line, cause),
            None => self.tell_alone(program, line, cause),
        }
    }

    /// Writes such a message that tells of something.
    fn tell_of<'m>(&mut self, program: &'m [u8], name: &'m [u8], line: Option<u64>, cause: &'m [u8])
        ensures told { TellsBytes E.Sink self.old self.new
            (message_of program.now (Some name.now) line cause.now) }
    {
        let mut room = [0; MAX_DIGITS];
        match line {
            Some(line) => {
                let line = digits_of(line, &mut room);
                self.write(&[program, b": ", name, b": line ", line, b": ", cause, b"\n"])
            }
            None => self.write(&[program, b": ", name, b": ", cause, b"\n"]),
        }
    }

    /// Writes such a message that does not say what it tells of.
    fn tell_alone(&mut self, program: &[u8], line: Option<u64>, cause: &[u8])
        ensures told { TellsBytes E.Sink self.old self.new
            (message_of program.now None line cause.now) }
    {
        let mut room = [0; MAX_DIGITS];
        match line {
            Some(line) => {
                let line = digits_of(line, &mut room);
                self.write(&[program, b": line ", line, b": ", cause, b"\n"])
            }
            None => self.write(&[program, b": ", cause, b"\n"]),
        }
    }

    /// Writes as such a message why an automaton is refused.
    pub fn tell_build(
        &mut self,
        program: &[u8],
        name: Option<&[u8]>,
        line: Option<u64>,
        error: &BuildError,
    )
        ensures told { TellsBytes E.Sink self.old self.new
            (message_of program.now (given_name name.entry) line (build_error_text error.now)) }
    {
        match text_of(error) {
            Ok(cause) => self.tell(program, name, line, cause.as_str().as_bytes()),
            Err(_) => {
                self.begin(program, name, line);
                self.write_build(error);
            }
        }
    }

    /// Writes as such a message why a search is refused.
    pub fn tell_search(&mut self, program: &[u8], name: Option<&[u8]>, error: &MatchError)
        ensures told { TellsBytes E.Sink self.old self.new
            (message_of program.now (given_name name.entry) None (match_error_text error.now)) }
    {
        match text_of(error) {
            Ok(cause) => self.tell(program, name, None, cause.as_str().as_bytes()),
            Err(_) => {
                self.begin(program, name, None);
                self.write_search(error);
            }
        }
    }

    /// Writes as such a message why the output cannot be written, as it is noted.
    pub fn tell_unwritten(&mut self, program: &[u8])
        ensures told { (reason : Reason) × TellsBytes E.Sink self.old self.new
            (message_of program.now (Some (codes "write error")) None (reason_text reason)) }
    {
        let reason = match self.noted.get() {
            Some(reason) => reason,
            None => Reason::Fault,
        };
        self.tell(
            program,
            Some(b"write error"),
            None,
            reason.text().as_bytes(),
        );
    }

    /// Writes as such a message why a call answers nothing.
    pub fn tell_failure(&mut self, program: &[u8], failure: &Failure)
        ensures told { TellsBytes E.Sink self.old self.new
            (message_of program.now None None (failure_text failure.now)) }
    {
        match text_of(failure) {
            Ok(cause) => self.tell(program, None, None, cause.as_str().as_bytes()),
            Err(_) => {
                self.begin(program, None, None);
                self.write_failure(failure);
            }
        }
    }

    /// Writes what stands before the cause of a message.
    fn begin(&mut self, program: &[u8], name: Option<&[u8]>, line: Option<u64>)
        ensures told { TellsBytes E.Sink self.old self.new
            (head_by program.now (given_name name.entry) line) }
    {
        self.write(&[program, b": "]);
        self.write_name(name);
        self.write_place(line);
    }

    /// Writes what a message tells of, if it does.
    fn write_name(&mut self, name: Option<&[u8]>)
        ensures told { TellsBytes E.Sink self.old self.new
            (name_before (given_name name.entry)) }
    {
        match name {
            Some(name) => self.write(&[name, b": "]),
            None => self.write(&[]),
        }
    }

    /// Writes of which line of it, if it does.
    fn write_place(&mut self, line: Option<u64>)
        ensures told { TellsBytes E.Sink self.old self.new (line_before line) }
    {
        let mut room = [0; MAX_DIGITS];
        match line {
            Some(line) => self.write(&[b"line ", digits_of(line, &mut room), b": "]),
            None => self.write(&[]),
        }
    }

    /// Writes why an automaton is refused, and a line end.
    fn write_build(&mut self, error: &BuildError)
        ensures told { TellsBytes E.Sink self.old self.new
            (build_error_line error.now) }
    {
        if self.failed {
            return;
        }
        match write_build_line(&mut self.sink, error) {
            Ok(()) => {}
            Err(_) => self.failed = true,
        }
    }

    /// Writes why a search is refused, and a line end.
    fn write_search(&mut self, error: &MatchError)
        ensures told { TellsBytes E.Sink self.old self.new
            (search_error_line error.now) }
    {
        if self.failed {
            return;
        }
        match write_search_line(&mut self.sink, error) {
            Ok(()) => {}
            Err(_) => self.failed = true,
        }
    }

    /// Writes why a call answers nothing, and a line end.
    fn write_failure(&mut self, failure: &Failure)
        ensures told { TellsBytes E.Sink self.old self.new (line_of_failure failure.now) }
    {
        if self.failed {
            return;
        }
        match failure.write_line(&mut self.sink) {
            Ok(()) => {}
            Err(_) => self.failed = true,
        }
    }
}
