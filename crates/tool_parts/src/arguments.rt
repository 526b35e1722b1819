//! The arguments of a process, for both programs.

ghost use Rattle.std.specs.IoError.{error_kind};
ghost use Rattle.std.specs.Prelude.{◌≢◌, ◌≡◌, ◌⊎◌, IfErr};
ghost use Rattle.std.specs.declared.io.ErrorKind.TheVariants.{OutOfMemory as NoMemory};
ghost use Rattle.tool_parts.specs.declared.failure.Failure.TheVariants.{OutOfMemory, Usage};

use crate::failure::Failure;
use std::alloc::{Alloc, Global};
use std::env::Env;
use std::io::ErrorKind;
use std::{env, io};

/// The arguments after the program's name, in order. `collect` goes on where its first allocation is refused, so they are
/// put one after another.
///
/// # Errors
///
/// `OutOfMemory` where memory runs out, and `Usage` where an argument is not UTF-8.
pub fn arguments<R: Env + Alloc<A = Global>>(rt: &R) -> Result<Vec<String>, Failure>
    ensures fails { IfErr result (λ failure. (failure ≡ OutOfMemory) ⊎ (failure ≡ Usage)) }
{
    match env::args(rt) {
        Ok(given) => {
            let mut arguments = Vec::new(rt.alloc());
            for argument in given.skip(1) {
                if arguments.push(argument).is_err() {
                    return Err(Failure::OutOfMemory);
                }
            }
            Ok(arguments)
        }
        Err(error) => Err(failure_of_arguments(&error)),
    }
}

/// Why there are no arguments: memory runs out, or one of them is not UTF-8, and such arguments are wrong.
fn failure_of_arguments(error: &io::Error) -> Failure
    ensures memory { error_kind error.now ≡ NoMemory → result ≡ OutOfMemory }
    ensures other { error_kind error.now ≢ NoMemory → result ≡ Usage }
{
    match error.kind() {
        ErrorKind::OutOfMemory => Failure::OutOfMemory,
        _ => Failure::Usage,
    }
}
