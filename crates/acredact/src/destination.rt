//! Where the output of a call goes.

ghost use Rattle.std.specs.Prelude.{IfErr, IfOk};
ghost use Rattle.tool_parts.specs.Arguments.{texts};
ghost use Rattle.acredact.specs.Arguments.{GoesTo, IsDestination, all_given};
ghost use Rattle.acredact.specs.Calls.{IsWrongFailure};

use crate::arguments::items;
use crate::failure::Failure;
use crate::options::{Item, output_of, replaces_in_place};
use std::alloc::Global;

/// Where the output goes.
#[derive(Clone, Copy)]
pub enum Destination<'a> {
    /// To standard output.
    StandardOutput,
    /// Into each file itself.
    EachFile,
    /// To a new file of this name.
    NewFile(&'a str),
}

/// Where the output of a call with these arguments goes.
///
/// # Errors
///
/// As `items`: the arguments are wrong, or memory runs out.
pub fn read_destination<'a>(
    alloc: Global,
    arguments: &'a [String],
) -> Result<Destination<'a>, Failure<'a>>
    ensures is { IfOk result (IsDestination arguments.now) }
    ensures wrong { IfErr result (IsWrongFailure (texts arguments.now)) }
{
    match items(alloc, arguments) {
        Ok(given) => Ok(destination_of(given.as_slice())),
        Err(mistake) => Err(Failure::Arguments(mistake)),
    }
}

/// The same of these options and files.
fn destination_of<'a>(given: &[Item<'a>]) -> Destination<'a>
    ensures goes { GoesTo (all_given given.now) result }
{
    if replaces_in_place(given) {
        return Destination::EachFile;
    }
    match output_of(given) {
        Some(name) => Destination::NewFile(name),
        None => Destination::StandardOutput,
    }
}
