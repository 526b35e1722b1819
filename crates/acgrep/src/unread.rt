//! Telling why a file was not searched, if that is asked for.

ghost use Rattle.std.specs.Prelude.{false};
ghost use Rattle.acgrep.specs.Told.{TellsCause, TellsOfOutcome, stopped_if};

use crate::failure::{Obstacle, Stop};
use crate::job::Job;
use crate::tell::{tell_file, tell_memory, tell_search, tell_write};
use chromesquid::Sink;
use tool_parts::errors::Errors;
use tool_parts::reason::Reason;

/// Tells why a file is not searched, or not to its end, if that is asked for.
pub fn tell_unread<E: Sink>(job: &Job<'_>, why: Obstacle, errors: &mut Errors<'_, E>)
    ensures told { TellsOfOutcome E.Sink job.now.hushed job.now.style.name.now (stopped_if false)
        errors.old errors.new }
{
    if job.hushed {
        return;
    }
    tell_file(job.style.name, why, errors);
}

/// Tells why a search stopped, and answers whether that ends the call.
pub fn tell_stop<E: Sink>(job: &Job<'_>, stop: &Stop, errors: &mut Errors<'_, E>) -> bool
    ensures told { TellsOfOutcome E.Sink job.now.hushed job.now.style.name.now (stopped_if result)
        errors.old errors.new }
{
    match stop {
        Stop::Read(reason) => {
            tell_unread(job, Obstacle::Fault(*reason), errors);
            false
        }
        Stop::Write => {
            tell_write(errors);
            true
        }
        Stop::Search(error) => {
            tell_search(error, errors);
            true
        }
        // A line is too long: the other files are searched.
        Stop::OutOfMemory => {
            tell_unread(job, Obstacle::Fault(Reason::OutOfMemory), errors);
            false
        }
    }
}

/// Tells why what is asked of a file as a whole was not written: memory ran out, or the output cannot be written.
pub fn tell_total<E: Sink>(stop: &Stop, errors: &mut Errors<'_, E>)
    ensures told { TellsCause E.Sink errors.old errors.new }
{
    match stop {
        Stop::OutOfMemory => tell_memory(errors),
        _ => tell_write(errors),
    }
}
