//! A call that replaces each file: a new one is written beside it, and takes its place where all of it was redacted.

ghost use Rattle.std.specs.Prelude.{◌≡◌, ◌≤◌, true};
ghost use Rattle.chromesquid.specs.Searcher.{ForItsPatterns};
ghost use Rattle.tool_parts.specs.Arguments.{texts};
ghost use Rattle.tool_parts.specs.Names.{name_bytes};
ghost use Rattle.tool_parts.specs.Streams.{bytes_left};
ghost use Rattle.tool_parts.specs.Telling.{TellsSome};
ghost use Rattle.acredact.specs.Arguments.{AreMistaken, IfAsked, all_given};
ghost use Rattle.acredact.specs.Calls.{IsWrongLine, call_of};
ghost use Rattle.acredact.specs.Files.{CanDo};
ghost use Rattle.acredact.specs.InPlace.{CalledPlaces, IsSettled, PlaceOutcome, PlacesAsked, PlacesOutcome, work_for};

use crate::arguments::items;
use crate::counts::counts_of;
use crate::failure::{Failure, report, report_end, tell_no_file, tell_unread};
use crate::files::{Job, both, is_input};
use crate::folder::Folder;
use crate::mistakes::Mistake;
use crate::options::{Item, counts, gives_pattern};
use crate::outputs::Outputs;
use crate::prepare::{job_of, prepare};
use crate::run::redact_by;
use crate::run_counts::tell_counted;
use crate::secrets::load;
use crate::streams::Streams;
use crate::summary::Volume;
use chromesquid::{AhoCorasick, Automaton, FromWrite, Sink, StreamError};
use std::alloc::{AllocError, Global};
use std::io::Read;
use tool_parts::errors::Errors;

/// Replaces each file by its redaction, and answers the exit status: 0 where all were, and 2 where the arguments or the patterns are
/// wrong, memory runs out, or a file cannot be read or replaced. Such a file stays as it was, and it is told why.
pub fn replace_in_place<F: Folder, O: Outputs, I: Read, E: Sink>(
    alloc: Global,
    arguments: &[String],
    folder: &F,
    outputs: &mut O,
    streams: &mut Streams<'_, I, O::File, E>,
) -> u8
    // Wrong arguments are found and told before a file is made.
    ensures wrong { AreMistaken arguments.now → result ≡ 2 }
    ensures unmade { AreMistaken arguments.now → outputs.new ≡ outputs.old }
    ensures tells_wrong { AreMistaken arguments.now → TellsSome E.Sink
        (IsWrongLine (texts arguments.now)) streams.old.errors streams.new.errors }

    // Where the status is 0, each file was redacted into a new one, which was flushed and took its place, and where pieces that are not
    // clean are refused, no pattern occurs in one. Nothing is told but a piece of a cover that is not clean, and the counts that are
    // asked for. Else lines say why, and hold nothing of a file's content or of a pattern. Each file was come to then, but where a
    // failure ended the call before the first, or memory ran out. Whatever the status is, each file was replaced by its whole
    // redaction, or is as it was.
    ensures says { IfAsked arguments.now (PlacesAsked O.File.Write E.Sink F.Folder O.Outputs
        folder.now result outputs.old outputs.new streams.old streams.new) }
    ensures bound { result ≤ 2 }
{
    let given = match items(alloc, arguments) {
        Ok(given) => given,
        Err(mistake) => return report(&Failure::Arguments(mistake), &mut streams.errors),
    };
    let done = load_places(alloc, given.as_slice(), folder, outputs, streams);
    report_end(done, &mut streams.errors)
}

/// Loads all patterns, replaces each file by them, tells the counts where they are asked for, and answers whether all were replaced.
fn load_places<'a, F: Folder, O: Outputs, I: Read, E: Sink>(
    alloc: Global,
    given: &[Item<'a>],
    folder: &F,
    outputs: &mut O,
    streams: &mut Streams<'_, I, O::File, E>,
) -> Result<bool, Failure<'a>>
    ensures { CalledPlaces O.File.Write E.Sink O.Outputs (call_of F.Folder folder.now (all_given given.now))
        (bytes_left streams.old.input) result outputs.old outputs.new streams.old.errors streams.new.errors }
{
    if !gives_pattern(given) {
        return Err(Failure::Arguments(Mistake::NoPattern));
    }
    let secrets = match load(alloc, given, folder, &mut streams.input) {
        Ok(secrets) => secrets,
        Err(failure) => return Err(failure),
    };
    let rules = secrets.rules.as_slice();
    let mut counted = counts_of(alloc, rules, counts(given))?;
    let ready = match prepare(alloc, given, &secrets, &mut streams.errors) {
        Ok(ready) => ready,
        Err(failure) => return Err(failure),
    };
    let tally = counted.as_mut_slice();
    let mut volume = Volume { files: 0, bytes: 0 };
    let job = job_of(alloc, given, &secrets, &ready, folder);
    let all = place_each(&ready.searcher, &job, tally, &mut volume, outputs, streams)?;
    let errors = &mut streams.errors;
    tell_counted(alloc, all, given, rules, None, tally, volume, errors)
}

/// Replaces each file, and answers whether all were replaced.
fn place_each<F: Folder, O: Outputs, I: Read, E: Sink>(
    searcher: &AhoCorasick,
    job: &Job<'_, '_, F>,
    counts: &mut [u64],
    volume: &mut Volume,
    outputs: &mut O,
    streams: &mut Streams<'_, I, O::File, E>,
) -> Result<bool, AllocError>
    requires ready { CanDo ⟦<AhoCorasick as Automaton>⟧ searcher.now job.now }
    ensures { ForItsPatterns searcher.now (λ p. PlacesOutcome O.File.Write E.Sink O.Outputs
        (work_for F.Folder job.now p) (name_bytes job.now.names.now) result
        (outputs.old, streams.old, counts.old, volume.old) (outputs.new, streams.new, counts.new, volume.new)) }
{
    let mut all = true;
    for name in job.names {
        let whole = place_one(searcher, job, *name, counts, volume, outputs, streams)?;
        all = both(all, whole);
    }
    Ok(all)
}

/// Replaces a file, and answers whether it was replaced. One that was not is told.
fn place_one<F: Folder, O: Outputs, I: Read, E: Sink>(
    searcher: &AhoCorasick,
    job: &Job<'_, '_, F>,
    name: &str,
    counts: &mut [u64],
    volume: &mut Volume,
    outputs: &mut O,
    streams: &mut Streams<'_, I, O::File, E>,
) -> Result<bool, AllocError>
    requires ready { CanDo ⟦<AhoCorasick as Automaton>⟧ searcher.now job.now }
    ensures { ForItsPatterns searcher.now (λ p. PlaceOutcome O.File.Write E.Sink O.Outputs
        (work_for F.Folder job.now p) name.now result
        (outputs.old, streams.old, counts.old, volume.old) (outputs.new, streams.new, counts.new, volume.new)) }
{
    if is_input(name) {
        tell_no_file(&mut streams.errors, name);
        return Ok(false);
    }
    match outputs.make(name) {
        Ok(file) => {
            streams.output = FromWrite::new(file);
            let names = [name];
            let one = Job {
                names: &names,
                ..*job
            };
            let done = redact_by(searcher, &one, counts, volume, streams);
            if matches!(done, Err(StreamError::Memory)) {
                outputs.remove(name);
                return Err(AllocError);
            }
            Ok(settle(outputs, name, done, &streams.output, &mut streams.errors))
        }
        Err(reason) => {
            tell_unread(&mut streams.errors, name, reason);
            Ok(false)
        }
    }
}

/// Has the new file take the place of the one of this name, where all was done, and else removes it. Answers whether it took it. It is
/// told why not, but where that was told before.
pub fn settle<O: Outputs, E: Sink>(
    outputs: &mut O,
    name: &str,
    done: Result<bool, StreamError>,
    output: &FromWrite<O::File>,
    errors: &mut Errors<'_, E>,
) -> bool
    ensures { IsSettled O.File.Write E.Sink O.Outputs name.now done output.now
        result outputs.old outputs.new errors.old errors.new }
{
    match done {
        Ok(true) => match outputs.put(name, output) {
            Ok(()) => true,
            Err(reason) => {
                tell_unread(errors, name, reason);
                outputs.remove(name);
                false
            }
        },
        Ok(false) => {
            outputs.remove(name);
            false
        }
        Err(_) => {
            let reason = outputs.unwritten();
            outputs.remove(name);
            tell_unread(errors, name, reason);
            false
        }
    }
}
