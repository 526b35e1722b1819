//! The redaction of files, one after another.

ghost use Rattle.std.specs.Prelude.{◌≡◌, ◌&&◌, IfErr, IfOk, true};
ghost use Rattle.std.specs.Io.KnownBytes.{Keeps};
ghost use Rattle.aho_core.specs.Patterns.{Patterns};
ghost use Rattle.tool_parts.specs.Names.{is_input, name_bytes};
ghost use Rattle.tool_parts.specs.Streams.{bytes_left};
ghost use Rattle.acredact.specs.Back.{DoesByPatterns, DoesJob, DoesNamed, DoesText, DoesTold};
ghost use Rattle.acredact.specs.Faults.{reading_of};
ghost use Rattle.acredact.specs.Files.{CanDo, rule_for, task_in};
ghost use Rattle.acredact.specs.Secrets.{IfOf};
ghost use Rattle.acredact.specs.Ways.{IfBy, MayWalkBack};

use crate::failure::{tell_output, tell_unread};
use crate::folder::Folder;
use crate::meter::{Known, Lent, Metered, Taken};
use crate::pseudonym::Pseudonyms;
use crate::streams::Streams;
use crate::summary::Volume;
use crate::ways::{Covering, Key, Replacing, Way};
use chromesquid::any::{Backward, PatternPieces, Pieces, StreamCoverStart};
use chromesquid::{Automaton, FromRead, FromWrite, Sink, StreamError};
use std::alloc::Global;
use std::io::{Read, Write};
use std::marker::{Brand, PhantomData};
use tool_parts::reason::Reason;

/// What is done to which files.
#[derive(Clone, Copy)]
pub struct Job<'s, 't, F> {
    /// What memory is taken from.
    pub alloc: Global,
    /// What opens files.
    pub folder: &'s F,
    /// The names of the files.
    pub names: &'s [&'t str],
    /// What is written in the place of each pattern.
    pub replacements: &'s [&'t [u8]],
    /// The key by which a cover makes the text of each run of its bytes, where it does.
    pub key: Option<Key<'s>>,
    /// Whether all bytes of all matches are replaced, and not only matches that share no byte.
    pub covers: bool,
    /// Whether words alone are, by a cover: matches beside which no letter, digit or `_` stands.
    pub words: bool,
}

/// Redacts all files, and flushes. It answers whether all were read to their ends: one that was not is told, and the others are
/// still redacted. The ranges that are replaced are counted, for each pattern that has a count. Matches that share no byte are found
/// by a walk backward of the same patterns, if there is one.
///
/// # Errors
///
/// `Write` and `WriteZero` where the output fails or takes nothing, and `Memory` where it runs out.
pub fn redact_files<A: Automaton, B: Automaton, F: Folder, I: Read, W: Write, E: Sink>(
    automaton: &A,
    backward: Option<&Backward<B>>,
    job: &Job<'_, '_, F>,
    counts: &mut [u64],
    volume: &mut Volume,
    streams: &mut Streams<'_, I, W, E>,
) -> Result<bool, StreamError>
    requires ready { CanDo A.Automaton automaton.now job.now }
    requires both { (p : Patterns) × A.is_of automaton.now p × MayWalkBack B.Automaton backward p }
    ensures { IfOf A.Automaton automaton.now (λ p. MayWalkBack B.Automaton backward.entry p → DoesByPatterns
        W.Write E.Sink F.Folder job.now result streams.old streams.new counts.old counts.new volume.old volume.new p) }
{
    if job.covers {
        return cover_files(automaton, job, counts, volume, streams);
    }
    let mut way = Replacing {
        alloc: job.alloc,
        automaton,
        backward,
        replacements: job.replacements,
    };
    redact_flushed(&mut way, job.folder, job.names, counts, volume, streams)
}

/// Redacts all files by covers, with one text for each pattern, or by a key with a pseudonym in the place of each run.
fn cover_files<A: Automaton, F: Folder, I: Read, W: Write, E: Sink>(
    automaton: &A,
    job: &Job<'_, '_, F>,
    counts: &mut [u64],
    volume: &mut Volume,
    streams: &mut Streams<'_, I, W, E>,
) -> Result<bool, StreamError>
    requires ready { CanDo A.Automaton automaton.now job.now }
    requires covers { job.now.covers ≡ true }
    ensures { IfOf A.Automaton automaton.now (DoesByPatterns W.Write E.Sink F.Folder job.now
        result streams.old streams.new counts.old counts.new volume.old volume.new) }
{
    match job.key {
        Some(key) => {
            let names = Pseudonyms::new(key.bytes, key.ignore_case);
            cover_by(automaton, names, job, counts, volume, streams)
        }
        None => {
            let texts = PatternPieces::new(job.replacements);
            cover_by(automaton, texts, job, counts, volume, streams)
        }
    }
}

/// Redacts all files by covers, with these pieces. The memory of all is taken before the first is opened.
fn cover_by<A: Automaton, P: Pieces + Drop, F: Folder, I: Read, W: Write, E: Sink>(
    automaton: &A,
    pieces: P,
    job: &Job<'_, '_, F>,
    counts: &mut [u64],
    volume: &mut Volume,
    streams: &mut Streams<'_, I, W, E>,
) -> Result<bool, StreamError>
    requires ready { CanDo A.Automaton automaton.now job.now }
    requires covers { job.now.covers ≡ true }
    requires made { P.rule pieces ≡ rule_for job.now }
    ensures { IfOf A.Automaton automaton.now (DoesByPatterns W.Write E.Sink F.Folder job.now
        result streams.old streams.new counts.old counts.new volume.old volume.new) }
{
    let start = StreamCoverStart::new_with(job.alloc, automaton, job.words)?;
    let mut way = Covering { start, pieces };
    redact_flushed(&mut way, job.folder, job.names, counts, volume, streams)
}

/// Redacts each file in a way, flushes, and answers whether all were read to their ends.
pub fn redact_flushed<X: Way, F: Folder, I: Read, W: Write, E: Sink>(
    way: &mut X,
    folder: &F,
    names: &[&str],
    counts: &mut [u64],
    volume: &mut Volume,
    streams: &mut Streams<'_, I, W, E>,
) -> Result<bool, StreamError>
    requires ready { (plan : X.Plan) × X.by way.old plan }
    ensures { IfBy X.Way way.old (λ plan. DoesJob W.Write E.Sink (task_in F.Folder folder.now (X.means plan))
        (name_bytes names.now) result streams.old streams.new counts.old counts.new volume.old volume.new) }
{
    let mut all = true;
    for name in names {
        let whole = redact_told(way, folder, *name, counts, volume, streams)?;
        all = both(all, whole);
    }
    streams.output.flush()?;
    Ok(all)
}

/// Whether both are so.
pub fn both(first: bool, second: bool) -> bool
    ensures both { result ≡ first && second }
{
    first && second
}

/// Redacts a file, and answers whether it was read to its end: then it is counted. One that was not is told, and so is one that the
/// output goes to: it is not read.
fn redact_told<X: Way, F: Folder, I: Read, W: Write, E: Sink>(
    way: &mut X,
    folder: &F,
    name: &str,
    counts: &mut [u64],
    volume: &mut Volume,
    streams: &mut Streams<'_, I, W, E>,
) -> Result<bool, StreamError>
    requires ready { (plan : X.Plan) × X.by way.old plan }
    ensures outcome { IfBy X.Way way.old (λ plan. DoesTold W.Write E.Sink (task_in F.Folder folder.now (X.means plan))
        name.now result streams.old streams.new counts.old counts.new volume.old volume.new) }
    ensures still { IfBy X.Way way.old (X.by way.new) }
{
    if folder.is_output(name) {
        tell_output(&mut streams.errors, name);
        return Ok(false);
    }
    match redact_file(
        way,
        folder,
        name,
        counts,
        &mut volume.bytes,
        &mut streams.input,
        &mut streams.output,
    )? {
        None => {
            volume.files = volume.files.saturating_add(1);
            Ok(true)
        }
        Some(reason) => {
            tell_unread(&mut streams.errors, name, reason);
            Ok(false)
        }
    }
}

/// Redacts a file, and answers why it cannot be read to its end, where it cannot.
fn redact_file<X: Way, F: Folder, I: Read, W: Write>(
    way: &mut X,
    folder: &F,
    name: &str,
    counts: &mut [u64],
    bytes: &mut u64,
    input: &mut FromRead<I>,
    output: &mut FromWrite<W>,
) -> Result<Option<Reason>, StreamError>
    requires ready { (plan : X.Plan) × X.by way.old plan }
    ensures outcome { IfBy X.Way way.old (λ plan. DoesNamed W.Write result output.old output.new counts.old counts.new
        bytes.old bytes.new (bytes_left input.old) (bytes_left input.new) (task_in F.Folder folder.now (X.means plan)) name.now) }
    ensures still { IfBy X.Way way.old (X.by way.new) }
{
    if is_input(name) {
        return redact_input(way, counts, bytes, input, output);
    }
    match opened(folder, name) {
        Ok(source) => {
            let mut source = source;
            redact_input(way, counts, bytes, &mut source, output)
        }
        Err(reason) => Ok(Some(reason)),
    }
}

/// What reads the file of a name.
pub fn opened<F: Folder>(folder: &F, name: &str) -> Result<FromRead<F::File>, Reason>
    ensures told { IfOk result (λ source. Keeps (F.holds folder.now name.now) (bytes_left source)) }
    ensures refused { IfErr result (F.refuses folder.now name.now) }
{
    match folder.open(name) {
        Ok(file) => Ok(FromRead::new(file)),
        Err(reason) => Err(reason),
    }
}

/// Whether this is the name of standard input.
pub fn is_input(name: &str) -> bool
    ensures is { result ≡ is_input name.now }
{
    name == "-"
}

/// Redacts the input to its end, counts its bytes, and answers why it cannot be read to that, where it cannot.
fn redact_input<X: Way, I: Read, W: Write>(
    way: &mut X,
    counts: &mut [u64],
    bytes: &mut u64,
    input: &mut FromRead<I>,
    output: &mut FromWrite<W>,
) -> Result<Option<Reason>, StreamError>
    requires ready { (plan : X.Plan) × X.by way.old plan }
    ensures outcome { IfBy X.Way way.old (λ plan. DoesText W.Write result output.old output.new counts.old counts.new
        bytes.old bytes.new input.old input.new (X.means plan)) }
    ensures still { IfBy X.Way way.old (X.by way.new) }
{
    input.restart();
    let lent = Lent {
        source: input,
        bytes: *bytes,
    };
    let Taken { lent, done } = redact_with::<Brand, X, I, W>(way, counts, lent, output);
    *bytes = lent.bytes;
    let _source = lent.source;
    done
}

/// Redacts a source, and counts its bytes, of which all that it gives are known to be these.
fn redact_with<'s, K: Known, X: Way, I: Read, W: Write>(
    way: &mut X,
    counts: &mut [u64],
    lent: Lent<'s, FromRead<I>>,
    output: &mut FromWrite<W>,
) -> Taken<'s, FromRead<I>>
    requires ready { (plan : X.Plan) × X.by way.old plan }
    requires whole { K.whole ≡ bytes_left lent.source.now }
    requires start { K.start ≡ lent.bytes }
    requires name { K.name ≡ lent.source.ghost_name }
    requires unread { lent.source.now.empty_reads ≡ 0 }
    ensures outcome { IfBy X.Way way.old (λ plan. DoesText W.Write result.done output.old output.new counts.old counts.new
        lent.entry.bytes result.lent.bytes lent.entry.source.now result.lent.source.now (X.means plan)) }
    ensures still { IfBy X.Way way.old (X.by way.new) }
    ensures same { result.lent.source.ghost_name ≡ lent.entry.source.ghost_name }
{
    let mut meter = Metered::<FromRead<I>, K> {
        lent,
        of: PhantomData,
    };
    let done = reading_of(way.redact(counts, &mut meter, output));
    let Metered { lent, .. } = meter;
    Taken { lent, done }
}

/// Why a stream was not read to its end, where that is so; any other error ends the program.
fn reading_of(done: Result<(), StreamError>) -> Result<Option<Reason>, StreamError>
    ensures reading { result ≡ reading_of done }
{
    match done {
        Ok(()) => Ok(None),
        Err(StreamError::Read(_)) => Ok(Some(Reason::ReadFault)),
        Err(StreamError::PositionLimit) => Ok(Some(Reason::PositionLimit)),
        Err(error) => Err(error),
    }
}
