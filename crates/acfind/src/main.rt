//! `acfind find KIND [-i] PATTERN..` prints the matches of some patterns in standard input, one after another, as lines
//! `PATTERN START END`: the pattern's number, and the match's range in bytes, without its end. `acfind overlap PATTERN..`
//! prints all that occur, those that overlap too. `acfind replace P R ..` prints the input with R in the place of each
//! match of P. `acfind --help` and `acfind --version` write a text.
//!
//! `-i` is the case rule in the place after KIND alone. Anywhere else it is a pattern of two bytes, as any argument is that
//! begins with '-': there is no flag after `overlap` and after `replace`.
//!
//! The status is 0 where there is a match and 1 where there is none. It is 2 where nothing is searched and 3 where reading
//! or writing fails, and then a line on standard error says why.
#![tactic(auto)]

mod help;

ghost use Rattle.std.specs.Prelude.{◌≡◌, ◌<◌, ◌≤◌, IfErr, OnErr, OnOk, true};
ghost use Rattle.std.specs.Process.{exit_status};
ghost use Rattle.tool_parts.specs.Answers.{PrintsIfDone, TellsIfFailed, TellsLine, WritesIfDone};
ghost use Rattle.tool_parts.specs.Arguments.{IfGivenAsked, IfGivenReplacing, IfGivenWrong};
ghost use Rattle.tool_parts.specs.Failures.{HasStatus};
ghost use Rattle.tool_parts.specs.Streams.{NoFaults, Unread, Unwritten};

use chromesquid::{FromRead, FromWrite};
use help::{text_of, write_text};
use std::alloc::Global;
use std::io::{BufWriter, Read, Write};
use std::process::ExitCode;
use tool_parts::arguments::arguments;
use tool_parts::failure::Failure;
use tool_parts::patient::Patient;
use tool_parts::run::{report, run};
use tool_parts::unopened::fill_closed;

/// How many bytes of output are kept before they are written.
const OUTPUT_CAPACITY: usize = 64 * 1024;

fn main(rt: HostRuntime) -> ExitCode {
    let filled = fill_closed(&rt, &rt.stdin(), &rt.stdout(), &rt.stderr());
    let given = arguments(&rt);
    let mut errors = FromWrite::new(Patient::new(rt.stderr(), &rt));
    if filled.is_err() {
        return ExitCode::from(report(&Failure::Read, &mut errors));
    }
    let stdout = Patient::new(rt.stdout(), &rt);
    let Ok(output) = BufWriter::with_capacity(rt.alloc(), OUTPUT_CAPACITY, stdout) else {
        return ExitCode::from(report(&Failure::OutOfMemory, &mut errors));
    };
    let mut output = FromWrite::new(output);
    if let Ok(arguments) = &given {
        if let Some(text) = text_of(arguments.as_slice()) {
            return ExitCode::from(write_text(text, &mut output, &mut errors));
        }
    }
    exit_code(
        rt.alloc(),
        given,
        &mut FromRead::new(Patient::new(rt.stdin(), &rt)),
        &mut output,
        &mut errors,
    )
}

/// Runs on the arguments, or tells why there are none, and ends with the status.
fn exit_code<R: Read, W: Write, E: Write>(
    alloc: Global,
    given: Result<Vec<String>, Failure>,
    input: &mut FromRead<R>,
    output: &mut FromWrite<W>,
    errors: &mut FromWrite<E>,
) -> ExitCode
    // Where there are no arguments, the failure is told and nothing else is done.
    ensures faulty { IfErr given (HasStatus (exit_status result)) }
    ensures told { IfErr given (TellsLine E.Write errors.old errors.new) }
    ensures unread { OnErr given (Unread input.old input.new) }
    ensures unwritten { OnErr given (Unwritten output.old output.new) }

    // Where there are arguments, the status is that of the run.
    ensures usage { IfGivenWrong given (exit_status result ≡ 2) }
    ensures prints { IfGivenAsked given (PrintsIfDone W.Write
        input.old input.new output.old output.new (exit_status result)) }
    ensures replaces { IfGivenReplacing given (WritesIfDone W.Write
        input.old input.new output.old output.new (exit_status result)) }
    ensures no_status_1 { IfGivenReplacing given (λ _.
        exit_status result < 2 → exit_status result ≡ 0) }
    ensures flushed { exit_status result < 2 → output.new.device.flushed ≡ true }

    // Any other status tells of a device exactly where this device failed.
    ensures no_fault { exit_status result < 2
        → NoFaults input.old input.new output.old output.new }
    ensures fails { OnOk given (TellsIfFailed E.Write errors.old errors.new
        input.old input.new output.old output.new (exit_status result)) }
    ensures bound { exit_status result ≤ 3 }
{
    let status = match given {
        Ok(arguments) => run(alloc, arguments.as_slice(), input, output, errors),
        Err(failure) => report(&failure, errors),
    };
    ExitCode::from(status)
}

#[cfg(test)]
mod tests;
