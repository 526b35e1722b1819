//! Reading the patterns that a call names, and telling which one is refused.

ghost use Rattle.std.specs.Prelude.{◌≡◌, ◌≤◌, IfOk, IfSome, IsNone, IsSome, OnOk, length};
ghost use Rattle.std.specs.Io.KnownBytes.{Keeps};
ghost use Rattle.acgrep.specs.Gathered.{AddsGiven};
ghost use Rattle.acgrep.specs.Lines.{EndsLine, lines};
ghost use Rattle.acgrep.specs.Arguments.{origin_of};
ghost use Rattle.tool_parts.specs.Names.{is_input};
ghost use Rattle.acgrep.specs.Loading.{AddsFile, ReadsSources};
ghost use Rattle.acgrep.specs.Origins.{IsFoundIn, begin_of, piece_at};
ghost use Rattle.acgrep.specs.Runs.{AreOf, origins_of};
ghost use Rattle.acgrep.specs.Told.{MayName, TellsOfFile, TellsOfSources, source_names};

use crate::arguments::Source;
use crate::failure::Obstacle;
use crate::open::{Open, is_input};
use crate::patterns::Keys;
use crate::tell::{tell_build, tell_file, tell_memory, tell_zero};
use chromesquid::{BuildError, Sink};
use memchr::memchr_iter;
use std::alloc::Global;
use std::io::{ErrorKind, Read};
use std::{io, str};
use tool_parts::errors::Errors;
use tool_parts::reason::Reason;

/// What stands for the name of a source in messages about all patterns.
const ALL: &[u8] = b"patterns";

/// The patterns of all sources, or none where one cannot be read, which is told.
pub fn read_keys<F: Open, R: Read, E: Sink>(
    alloc: Global,
    sources: &[Source<'_>],
    files: &F,
    input: &mut R,
    errors: &mut Errors<'_, E>,
) -> Option<Keys>
    ensures words { IfSome result
        (ReadsSources F.Open R.Read files.now sources.now input.old input.new) }
    ensures silent { IsSome result → errors.new ≡ errors.old }
    ensures told { IsNone result → TellsOfSources E.Sink sources.now errors.old errors.new }
{
    let mut keys = Keys::new(alloc);
    for source in sources {
        match read_source(&mut keys, *source, files, input) {
            Ok(()) => {}
            Err(error) => {
                tell_source(*source, &error, errors);
                return None;
            }
        }
    }
    Some(keys)
}

/// Tells why a source cannot be read. Where it is a text, memory ran out.
pub fn tell_source<E: Sink>(source: Source<'_>, error: &io::Error, errors: &mut Errors<'_, E>)
    ensures told { TellsOfFile E.Sink (origin_of source.entry).bytes errors.old errors.new }
{
    match source {
        Source::Text(_) => tell_memory(errors),
        Source::File(name) if is_input(name) => tell_file(
            name,
            Obstacle::Fault(Reason::of(error)),
            errors,
        ),
        Source::File(name) => tell_file(name, Obstacle::Closed(Reason::of(error)), errors),
    }
}

/// Adds the patterns of a source.
fn read_source<F: Open, R: Read>(
    keys: &mut Keys,
    source: Source<'_>,
    files: &F,
    input: &mut R,
) -> io::Result<()>
    requires whole { EndsLine 10 keys.old.text.items }
    ensures added { OnOk result (AddsGiven (AreOf (F.holds files.now) (origin_of source.entry)
        (R.remaining input.old) (R.remaining input.new)) (lines 10 keys.old.text.items) (lines 10 keys.new.text.items)) }
    ensures ends { OnOk result (EndsLine 10 keys.new.text.items) }
{
    match source {
        Source::Text(text) => Ok(keys.add_text(text)?),
        Source::File(name) => {
            keys.begin()?;
            read_text(&mut keys.text, name, files, input)?;
            Ok(keys.end_file()?)
        }
    }
}

/// Adds the bytes of a file.
pub fn read_text<F: Open, R: Read>(
    text: &mut Vec<u8>,
    name: &[u8],
    files: &F,
    input: &mut R,
) -> io::Result<()>
    ensures added { OnOk result (AddsFile F.Open R.Read files.now
        name.now input.old input.new text.old.items text.new.items) }
{
    if is_input(name) {
        input.read_to_end(text)?;
        return Ok(());
    }
    let mut file = open_named(files, name)?;
    file.read_to_end(text)?;
    Ok(())
}

/// Opens a file by the bytes of its name.
pub fn open_named<F: Open>(files: &F, name: &[u8]) -> io::Result<F::File>
    ensures told { IfOk result (λ file.
        Keeps (F.holds files.now name.now) (F.File.remaining file)) }
{
    match str::from_utf8(name) {
        Ok(text) => files.open(text),
        Err(_) => Err(io::Error::from(ErrorKind::InvalidInput)),
    }
}

/// Tells which pattern is refused, by its file and line, or by its number among the patterns of an argument.
pub fn tell_refusal<E: Sink>(
    keys: &Keys,
    sources: &[Source<'_>],
    error: &BuildError,
    errors: &mut Errors<'_, E>,
)
    ensures told { TellsOfSources E.Sink sources.now errors.old errors.new }
{
    match error {
        BuildError::PatternTooLong { pattern, .. } => {
            let (name, line) = named_place(keys, sources, pattern.as_usize());
            tell_build(name, line, error, errors);
        }
        _ => tell_build(ALL, None, error, errors),
    }
}

/// Tells that the pattern of a number holds the byte that ends a line, by its file and line.
pub fn tell_ending<E: Sink>(
    keys: &Keys,
    sources: &[Source<'_>],
    number: usize,
    errors: &mut Errors<'_, E>,
)
    ensures told { TellsOfSources E.Sink sources.now errors.old errors.new }
{
    let (name, line) = named_place(keys, sources, number);
    tell_zero(name, line, errors);
}

/// How the source of the pattern of a number is called, and the line of it there, if there is one.
fn named_place<'a>(keys: &Keys, sources: &[Source<'a>], number: usize) -> (&'a [u8], Option<u64>)
    ensures named { MayName (source_names (origins_of sources.now)) result.0.now }
{
    let Some(place) = origin_of(keys, number) else {
        return (ALL, None);
    };
    let line = Some(place.line as u64);
    match sources.get(place.source) {
        Some(Source::File(name)) => (name, line),
        _ => (b"pattern", line),
    }
}

/// Where a pattern stands.
#[derive(Clone, Copy)]
pub struct KeyPlace {
    /// The number of its source, from 0 on.
    pub source: usize,
    /// Its line there, from 1 on.
    pub line: usize,
}

/// Where the pattern of a number stands, if there is one.
pub fn origin_of(keys: &Keys, number: usize) -> Option<KeyPlace>
    ensures found { IsFoundIn keys.now number result }
{
    let mut left = number;
    for source in 0..keys.starts.len() {
        let count = memchr_iter(b'\n', piece_of(keys, source)).count();
        if left < count {
            let line = left + 1;
            return Some(KeyPlace { source, line });
        }
        left -= count;
    }
    None
}

/// The patterns of the source of a number, each with its newline.
fn piece_of(keys: &Keys, number: usize) -> &[u8]
    ensures piece { result.now ≡ piece_at keys.now number }
{
    let start = begin_of(keys, number);
    let end = begin_of(keys, number.saturating_add(1));
    if start <= end {
        &keys.text[start..end]
    } else {
        &[]
    }
}

/// Where they begin in the text of all patterns; behind the last source that is its end.
fn begin_of(keys: &Keys, number: usize) -> usize
    ensures begin { result ≡ begin_of keys.now number }
    ensures within { result ≤ length keys.now.text.items }
{
    let len = keys.text.len();
    match keys.starts.get(number) {
        Some(start) => (*start).min(len),
        None => len,
    }
}
