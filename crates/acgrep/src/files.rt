//! Searching the files of a call, one after another.

ghost use Rattle.std.specs.Prelude.{◌≡◌, ◌≤◌, ◌<◌, ◌⊎◌, [], IsTrue, OnOk, false, length, true};
ghost use Rattle.std.specs.Io.KnownBytes.{Appends};
ghost use Rattle.chromesquid.specs.Searcher.{IsBuiltFromSome};
ghost use Rattle.acgrep.specs.Filled.{ReadsOn};
ghost use Rattle.acgrep.specs.Listed.{listed_bytes};
ghost use Rattle.acgrep.specs.Told.{TellsOfEnd, TellsOfFiles, TellsOfOutcome};
ghost use Rattle.acgrep.specs.Files.{AreFilesBegun, AreSearchedOr, BeginsName, BeginsTotal, EndsFile, IsNamed, LeavesInput, SearchesName, shown_name, total_if};
ghost use Rattle.acgrep.specs.InTurn.{IfBroken, IfSearched, is_enough, nothing_seen, seen_after, status_by};
ghost use Rattle.acgrep.specs.Printed.{Puts};
ghost use Rattle.acgrep.specs.Searched.{BeginsFileBy, SearchesReaderBy};
ghost use Rattle.acgrep.specs.Searchers.{ForQuery};

use crate::buffer::Buffer;
use crate::failure::Stop;
use crate::guarded::search_guarded;
use crate::job::{Job, Query, State};
use crate::open::{Open, is_input};
use crate::opening::{input_obstacle, open_other, pass_over};
use crate::options::Shown;
use crate::print::{put_count, put_name};
use crate::stream::search_front;
use crate::tell::tell_memory;
use crate::unread::{tell_stop, tell_total};
use chromesquid::{Sink, write_whole};
use std::alloc::Global;
use std::io;
use std::io::{Read, Write};
use tool_parts::errors::Errors;

/// The files of a call.
#[derive(Clone, Copy)]
pub struct Files<'a, F> {
    /// The allocator.
    pub alloc: Global,
    /// Their names. No name means standard input.
    pub names: &'a [&'a [u8]],
    /// What opens them.
    pub files: &'a F,
}

/// What came of a file.
#[derive(Clone, Copy)]
pub enum Outcome {
    /// It was searched, and a line of it was selected or not.
    Searched(bool),
    /// It cannot be read, which was told.
    Unread,
    /// Nothing more can be searched, which was told.
    Stopped,
}

/// What was seen so far.
#[derive(Clone, Copy)]
pub struct Seen {
    /// A line was selected.
    pub selected: bool,
    /// An error was told.
    pub failed: bool,
    /// Nothing more is to be searched.
    pub ended: bool,
}

impl Seen {
    /// Nothing.
    pub fn new() -> Seen
        ensures { result ≡ nothing_seen }
    {
        Seen {
            selected: false,
            failed: false,
            ended: false,
        }
    }

    /// This, and then what came of a file.
    pub fn after(self, shown: Shown, outcome: Outcome) -> Seen
        ensures { result ≡ seen_after shown self outcome }
    {
        match outcome {
            Outcome::Searched(any) => Seen {
                selected: self.selected || any,
                failed: self.failed,
                ended: self.ended || is_enough(shown, any),
            },
            Outcome::Unread => Seen {
                selected: self.selected,
                failed: true,
                ended: self.ended,
            },
            Outcome::Stopped => Seen {
                selected: self.selected,
                failed: true,
                ended: true,
            },
        }
    }

    /// The status of a call: an error goes before all but a selected line under `-q`.
    pub fn status(self, shown: Shown) -> u8
        ensures seen { result ≡ status_by shown self }
        ensures bound { result ≤ 2 }
    {
        if is_enough(shown, self.selected) {
            0
        } else if self.failed {
            2
        } else if self.selected {
            0
        } else {
            1
        }
    }
}

/// Whether nothing more is to be searched where a line is selected or not.
fn is_enough(shown: Shown, any: bool) -> bool
    ensures { result ≡ is_enough shown any }
{
    match shown {
        Shown::Nothing => any,
        _ => false,
    }
}

/// Searches the files of these names, and answers the status. A file that cannot be read does not stop the others.
pub fn search_names<F: Open, R: Read, W: Sink, E: Sink>(
    query: &Query<'_>,
    files: &F,
    names: &[Vec<u8>],
    input: &mut R,
    output: &mut W,
    errors: &mut Errors<'_, E>,
) -> u8
    requires of { IsBuiltFromSome query.now.searcher.now }
    ensures bound { result ≤ 2 }
    ensures searched { ForQuery query.now (λ p. result < 2
        → AreSearchedOr p query.now.job (F.holds files.now) (listed_bytes names.now)
        (R.remaining input.old) (R.remaining input.new)
        (W.taken output.old) (W.taken output.new) result) }

    // Whatever the status, a beginning of what is asked is written.
    ensures begun { ForQuery query.now (λ p.
        AreFilesBegun p query.now.job (F.holds files.now) (listed_bytes names.now)
        (R.remaining input.old) (W.taken output.old) (W.taken output.new)) }

    // What is told tells why a file was not searched; where the status tells of no error, nothing is told.
    ensures told { TellsOfFiles E.Sink query.now.job.hushed query.now.job.label.now (listed_bytes names.now)
        query.now.job.shown result errors.old errors.new }
{
    let Ok(mut buffer) = Buffer::new(query.job.alloc) else {
        tell_memory(errors);
        return 2;
    };
    let mut state = State::new(query.job.alloc, query.job.first);
    let mut seen = Seen::new();
    let mut rest = names;
    while goes_on(rest, seen) {
        let outcome = search_name(
            query,
            files,
            rest[0].as_slice(),
            seen.selected,
            &mut buffer,
            input,
            &mut state,
            output,
            errors,
        );
        seen = seen.after(query.job.shown, outcome);
        rest = &rest[1..];
    }
    seen.status(query.job.shown)
}

/// Whether a further file is to be searched.
pub fn goes_on(rest: &[Vec<u8>], seen: Seen) -> bool
    ensures some { IsTrue result → 0 < length rest.now }
    ensures going { IsTrue result → seen.ended ≡ false }
    ensures stops { result ≡ false → (rest.now ≡ []) ⊎ (seen.ended ≡ true) }
{
    !rest.is_empty() && !seen.ended
}

/// Searches the file of a name.
fn search_name<F: Open, R: Read, W: Sink, E: Sink>(
    query: &Query<'_>,
    files: &F,
    name: &[u8],
    follows: bool,
    buffer: &mut Buffer,
    input: &mut R,
    state: &mut State,
    output: &mut W,
    errors: &mut Errors<'_, E>,
) -> Outcome
    requires of { IsBuiltFromSome query.now.searcher.now }
    ensures searched { ForQuery query.now (λ p.
        IfSearched result (SearchesName p query.now.job follows (F.holds files.now) name.now
        (R.remaining input.old) (R.remaining input.new)
        (W.taken output.old) (W.taken output.new))) }
    ensures begun { ForQuery query.now (λ p.
        IfBroken result (BeginsName p query.now.job follows (F.holds files.now) name.now
        (R.remaining input.old) (W.taken output.old) (W.taken output.new))) }
    ensures leaves { LeavesInput name.now (R.remaining input.old) (R.remaining input.new) }
    ensures told { TellsOfOutcome E.Sink query.now.job.hushed (shown_name query.now.job.label.now name.now) result
        errors.old errors.new }
{
    let named = job_for(&query.job, shown_name(&query.job, name), follows);
    let own = Query {
        searcher: query.searcher,
        job: named,
    };
    let why = if is_input(name) {
        match input_obstacle(&named, files) {
            Some(why) => why,
            None => {
                return search_one(&own, buffer, input, state, output, errors);
            }
        }
    } else {
        match open_other(&named, files, name) {
            Err(why) => why,
            Ok(mut file) => {
                return search_one(&own, buffer, &mut file, state, output, errors);
            }
        }
    };
    pass_over(&named, why, output, errors);
    Outcome::Unread
}

/// Searches what a reader gives, and writes what is asked of it.
fn search_one<R: Read, W: Sink, E: Sink>(
    query: &Query<'_>,
    buffer: &mut Buffer,
    reader: &mut R,
    state: &mut State,
    output: &mut W,
    errors: &mut Errors<'_, E>,
) -> Outcome
    requires of { IsBuiltFromSome query.now.searcher.now }
    ensures searched { SearchesReaderBy R.Read W.Sink query.now
        reader.old reader.new output.old output.new result }
    ensures begun { BeginsFileBy W.Sink query.now
        (R.remaining reader.old) output.old output.new result }
    ensures reads { ReadsOn (R.remaining reader.old) (R.remaining reader.new) }
    ensures told { TellsOfOutcome E.Sink query.now.job.hushed query.now.job.style.name.now result
        errors.old errors.new }
{
    if query.job.is_guarded() {
        return match search_guarded(query, buffer, reader, state, output) {
            Ok(any) => Outcome::Searched(any),
            Err(stop) => break_off(&query.job, state.selected, &stop, output, errors),
        };
    }
    state.begin(&query.job);
    let alone = query.job.takes_text();
    match search_front(query, alone, buffer, reader, state, output) {
        Ok(_) => end_file(&query.job, state.selected, output, errors),
        Err(stop) => break_off(&query.job, state.selected, &stop, output, errors),
    }
}

/// Writes what is asked of a file that was searched, of which this many lines were selected.
pub fn end_file<W: Sink, E: Sink>(
    job: &Job<'_>,
    selected: u64,
    output: &mut W,
    errors: &mut Errors<'_, E>,
) -> Outcome
    ensures ended { IfSearched result (EndsFile job.now selected (W.taken output.old) (W.taken output.new)) }
    ensures begun { IfBroken result (BeginsTotal job.now selected (W.taken output.old) (W.taken output.new)) }
    ensures told { TellsOfEnd E.Sink job.now.hushed result errors.old errors.new }
{
    match put_total(job, selected, output) {
        Ok(()) => Outcome::Searched(selected > 0),
        Err(stop) => {
            tell_total(&stop, errors);
            Outcome::Stopped
        }
    }
}

/// Tells why a search stopped. Of a file that cannot be read to its end is written what is asked of it so far.
pub fn break_off<W: Sink, E: Sink>(
    job: &Job<'_>,
    selected: u64,
    stop: &Stop,
    output: &mut W,
    errors: &mut Errors<'_, E>,
) -> Outcome
    ensures unsearched { IfSearched result (λ any. ⊥) }
    ensures begun { BeginsTotal job.now selected (W.taken output.old) (W.taken output.new) }
    ensures told { TellsOfOutcome E.Sink job.now.hushed job.now.style.name.now result
        errors.old errors.new }
{
    let _ = output.flush();
    if tell_stop(job, stop, errors) {
        return Outcome::Stopped;
    }
    match put_total(job, selected, output) {
        Ok(()) => Outcome::Unread,
        Err(stop) => {
            tell_total(&stop, errors);
            Outcome::Stopped
        }
    }
}

/// Writes what is asked of a file as a whole, of which this many lines were selected. It is put together first.
fn put_total<W: Sink>(job: &Job<'_>, selected: u64, output: &mut W) -> Result<(), Stop>
    ensures written { OnOk result (Appends (W.taken output.old) (W.taken output.new)
        (total_if job.now.shown job.now.style selected)) }
    ensures begun { BeginsTotal job.now selected (W.taken output.old) (W.taken output.new) }
{
    let mut page = Vec::new(job.alloc);
    put_asked(job, selected, &mut page)?;
    Ok(write_whole(output, page.as_slice())?)
}

/// Puts together what is asked of a file as a whole, of which this many lines were selected.
fn put_asked<W: Write>(job: &Job<'_>, selected: u64, output: &mut W) -> io::Result<()>
    ensures written { Puts W.Write output.old output.new result
        (total_if job.now.shown job.now.style selected) }
{
    match job.shown {
        Shown::Count => put_count(output, &job.style, selected),
        Shown::Names if selected > 0 => put_name(output, &job.style),
        Shown::Lacking if selected == 0 => put_name(output, &job.style),
        _ => Ok(()),
    }
}

/// What is written of the file of this name.
pub fn job_for<'a>(job: &Job<'a>, name: &'a [u8], follows: bool) -> Job<'a>
    ensures named { IsNamed job.now name.now follows result }
{
    let mut style = job.style;
    style.name = name;
    let mut named = *job;
    named.style = style;
    named.follows = follows;
    named
}

/// How a file is called in what is written.
pub fn shown_name<'a>(job: &Job<'a>, name: &'a [u8]) -> &'a [u8]
    ensures { result.now ≡ shown_name job.now.label.now name.now }
{
    if is_input(name) { job.label } else { name }
}
