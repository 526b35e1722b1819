//! `acdraw [-u] KIND [-i] PATTERN..` writes the automaton of some patterns in the dot language: its states by their words, and
//! how they lead to each other. `-u` leaves the anchored start out, which only anchored searches use.
//!
//! The status is 0 where it was written. It is 2 where the arguments are wrong, the automaton is refused or memory runs out, and
//! 3 where writing fails, and then a line on standard error says why.
#![tactic(auto)]

mod dot;
mod picture;
mod run;
mod text;

ghost use Rattle.std.specs.Prelude.{◌≡◌, ◌≤◌, None, IfOk, IfErr, OnErr};
ghost use Rattle.std.specs.Process.{exit_status};
ghost use Rattle.tool_parts.specs.Arguments.{texts};
ghost use Rattle.tool_parts.specs.Failures.{status_of_failure};
ghost use Rattle.tool_parts.specs.Streams.{output_bytes};
ghost use Rattle.acdraw.specs.Calls.{Draws, drawing_by};

use aho_devices::adapters::FromWrite;
use run::{run, tell};
use std::alloc::Global;
use std::io::Write;
use std::process::ExitCode;
use tool_parts::arguments::arguments;
use tool_parts::failure::Failure;

fn main(rt: HostRuntime) -> ExitCode {
    exit_code(
        rt.alloc(),
        arguments(&rt),
        &mut FromWrite::new(rt.stdout()),
        &mut FromWrite::new(rt.stderr()),
    )
}

/// Draws what the arguments ask for, or tells why there are none, and ends with the status.
fn exit_code<W: Write, E: Write>(
    alloc: Global,
    given: Result<Vec<String>, Failure>,
    output: &mut FromWrite<W>,
    errors: &mut FromWrite<E>,
) -> ExitCode
    ensures faulty { IfErr given (λ failure. exit_status result ≡ status_of_failure failure) }
    ensures unwritten { OnErr given (output.new ≡ output.old) }
    ensures usage { IfOk given (λ arguments.
        drawing_by (texts arguments.items) ≡ None → exit_status result ≡ 2) }
    ensures draws { IfOk given (λ arguments.
        exit_status result ≡ 0 → Draws (output_bytes W.Write output.old) (output_bytes W.Write output.new)) }
    ensures bound { exit_status result ≤ 3 }
{
    let status = match given {
        Ok(arguments) => run(alloc, arguments.as_slice(), output, errors),
        Err(failure) => tell(&failure, errors),
    };
    ExitCode::from(status)
}
