//! A call whose output is a new file, which takes the place of another where all was done.

ghost use Rattle.std.specs.Prelude.{◌≡◌};
ghost use Rattle.acredact.specs.Arguments.{IfAsked, IfRuled};
ghost use Rattle.acredact.specs.InPlace.{IsSpared, RuledTellsUnput, TellsNone, WritesAll, WritesAllByRules};

use crate::failure::{FAILED, tell_no_output, tell_unread};
use crate::files::is_input;
use crate::folder::Folder;
use crate::in_place::settle;
use crate::outputs::Outputs;
use crate::run::answer_to;
use crate::streams::Streams;
use chromesquid::{FromWrite, Sink};
use std::alloc::Global;
use std::io::Read;
use tool_parts::errors::Errors;

/// Makes a new file, and does what the arguments ask for with that for the output. Where all was done it takes the place of the file
/// of this name, and else it is removed. Answers the exit status.
pub fn make_and_run<F: Folder, O: Outputs, I: Read, E: Sink>(
    alloc: Global,
    arguments: &[String],
    name: &str,
    folder: &F,
    outputs: &mut O,
    streams: &mut Streams<'_, I, O::File, E>,
) -> u8
    // A new file was made, all was written to it, and then it took that place. What was told is what `run` tells.
    ensures writes { IfAsked arguments.now (WritesAll O.File.Write E.Sink F.Folder O.Outputs
        folder.now name.now result outputs.old outputs.new streams.old streams.new) }
    ensures ruled_writes { IfRuled arguments.now (WritesAllByRules O.File.Write E.Sink F.Folder O.Outputs
        folder.now name.now result outputs.old outputs.new streams.old streams.new) }
    // Or none was made, or it was removed: what has the name is as it was, and it is told why.
    ensures leaves { (result ≡ 0 → ⊥) → IsSpared O.Outputs name.now outputs.old outputs.new }
    ensures tells { IfAsked arguments.now (TellsNone O.File.Write E.Sink F.Folder O.Outputs
        folder.now name.now result outputs.old outputs.new streams.old streams.new) }
    ensures ruled_tells { IfRuled arguments.now (RuledTellsUnput E.Sink F.Folder
        folder.now name.now result streams.old streams.new) }
{
    if is_input(name) {
        tell_no_output(&mut streams.errors, name);
        return FAILED;
    }
    match outputs.make(name) {
        Ok(file) => {
            streams.output = FromWrite::new(file);
            let status = answer_to(alloc, arguments, folder, streams);
            let done = Ok(status == 0);
            if settle(outputs, name, done, &streams.output, &mut streams.errors) {
                0
            } else {
                FAILED
            }
        }
        Err(reason) => {
            tell_unread(&mut streams.errors, name, reason);
            FAILED
        }
    }
}
