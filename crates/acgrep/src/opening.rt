//! Opening the files of a call, but for those to which its output goes.

ghost use Rattle.std.specs.Prelude.{IfOk, false};
ghost use Rattle.std.specs.Io.KnownBytes.{Keeps};
ghost use Rattle.acgrep.specs.Told.{TellsOfOutcome, stopped_if};

use crate::failure::Obstacle;
use crate::job::Job;
use crate::keys::open_named;
use crate::open::Open;
use crate::options::Shown;
use crate::unread::tell_unread;
use chromesquid::Sink;
use std::str;
use tool_parts::errors::Errors;
use tool_parts::reason::Reason;

/// Opens the file of a name, unless the output goes to it.
pub fn open_other<F: Open>(job: &Job<'_>, files: &F, name: &[u8]) -> Result<F::File, Obstacle>
    ensures held { IfOk result (λ file.
        Keeps (F.holds files.now name.now) (F.File.remaining file)) }
{
    if writes_into(job, files, name) {
        return Err(Obstacle::Output);
    }
    match open_named(files, name) {
        Ok(file) => Ok(file),
        Err(error) => Err(Obstacle::Closed(Reason::of(&error))),
    }
}

/// What keeps standard input from being searched, if something does. Where it cannot be read at all, nothing is told of its lines.
pub fn input_obstacle<F: Open>(job: &Job<'_>, files: &F) -> Option<Obstacle> {
    if writes_into(job, files, b"/dev/stdin") {
        return Some(Obstacle::Output);
    }
    files.unusable_input()
}

/// Whether several lines of the file of this name may be written to it.
fn writes_into<F: Open>(job: &Job<'_>, files: &F, name: &[u8]) -> bool {
    match job.most {
        Some(most) if most < 2 => false,
        _ => !job.late && writes_lines(job.shown) && is_output(files, name),
    }
}

/// Whether lines are written, and not what is told of a file as a whole.
fn writes_lines(shown: Shown) -> bool {
    match shown {
        Shown::Lines | Shown::Matches | Shown::Objects => true,
        Shown::Count | Shown::Names | Shown::Lacking | Shown::Nothing => false,
    }
}

/// Whether the output goes to the file of a name.
fn is_output<F: Open>(files: &F, name: &[u8]) -> bool {
    match str::from_utf8(name) {
        Ok(text) => files.is_output(text),
        Err(_) => false,
    }
}

/// Tells why a file is not searched, behind what was written before it.
pub fn pass_over<W: Sink, E: Sink>(
    job: &Job<'_>,
    why: Obstacle,
    output: &mut W,
    errors: &mut Errors<'_, E>,
)
    ensures kept { Keeps (W.taken output.old) (W.taken output.new) }
    ensures told { TellsOfOutcome E.Sink job.now.hushed job.now.style.name.now (stopped_if false)
        errors.old errors.new }
{
    let _ = output.flush();
    tell_unread(job, why, errors);
}
