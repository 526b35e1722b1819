//! Searching what a reader gives, in memory that is bounded by its longest line and by what is written of the lines of one read.

ghost use Rattle.std.specs.Prelude.{◌≡◌, ◌≤◌, ◌-◌, ◌<◌, [], IfOk, IfSome, OnErr, OnOk, length, take, true};
ghost use Rattle.std.specs.Io.KnownBytes.{Keeps};
ghost use Rattle.chromesquid.specs.Searcher.{IsBuiltFromSome};
ghost use Rattle.acgrep.specs.Binary.{is_text};
ghost use Rattle.acgrep.specs.Filled.{FillsBuffer, ReadsOn, bytes_buffered};
ghost use Rattle.acgrep.specs.Guarded.{EndsFront, IsZeroLine};
ghost use Rattle.acgrep.specs.Lines.{IsEnding};
ghost use Rattle.acgrep.specs.Searched.{BeginsReadBy};
ghost use Rattle.acgrep.specs.Searchers.{ForQuery};
ghost use Rattle.acgrep.specs.Streamed.{BeginsWhole, SearchesWhole, TextIf};

use crate::buffer::Buffer;
use crate::context::search_text;
use crate::failure::Stop;
use crate::job::{Query, State};
use crate::lines::line_start;
use chromesquid::Sink;
use memchr::memchr;
use std::io::Read;
use tool_parts::reason::Reason;

/// Searches all that a reader gives, or the lines up to the first that holds a zero byte alone, and answers whether there is one. The
/// buffer then begins with it. What is settled is handed on before each read.
pub fn search_front<R: Read, W: Sink>(
    query: &Query<'_>,
    alone: bool,
    buffer: &mut Buffer,
    input: &mut R,
    state: &mut State,
    output: &mut W,
) -> Result<bool, Stop>
    requires of { IsBuiltFromSome query.now.searcher.now }
    ensures front { ForQuery query.now (λ p. IfOk result (EndsFront p query.now.job alone
        state.old state.new (W.taken output.old) (W.taken output.new)
        (R.remaining input.old) (R.remaining input.new)
        [] (bytes_buffered buffer.new))) }

    // Where it fails a beginning of that is written.
    ensures begun { BeginsReadBy R.Read W.Sink query.now alone
        state.old state.new input.old output.old output.new [] result }

    // Whatever comes of it, the reader is only read.
    ensures reads { ReadsOn (R.remaining input.old) (R.remaining input.new) }
{
    buffer.clear();
    search_behind(query, alone, buffer, input, state, output)
}

/// The same of what is there and all that a reader gives behind it.
pub fn search_behind<R: Read, W: Sink>(
    query: &Query<'_>,
    alone: bool,
    buffer: &mut Buffer,
    input: &mut R,
    state: &mut State,
    output: &mut W,
) -> Result<bool, Stop>
    requires of { IsBuiltFromSome query.now.searcher.now }
    requires text { TextIf alone (bytes_buffered buffer.now) }
    ensures front { ForQuery query.now (λ p. IfOk result (EndsFront p query.now.job alone
        state.old state.new (W.taken output.old) (W.taken output.new)
        (R.remaining input.old) (R.remaining input.new)
        (bytes_buffered buffer.old) (bytes_buffered buffer.new))) }
    ensures begun { BeginsReadBy R.Read W.Sink query.now alone
        state.old state.new input.old output.old output.new (bytes_buffered buffer.old) result }
    ensures reads { ReadsOn (R.remaining input.old) (R.remaining input.new) }
{
    let held = buffer.bytes().len();
    search_whole(query, buffer, held, state, output)?;
    for _ in 0..u64::MAX {
        if query.job.is_done(state) {
            return Ok(false);
        }
        let count = read_more(buffer, input, output)?;
        if count == 0 {
            search_text(query, buffer.bytes(), state, output)?;
            return Ok(false);
        }
        match first_zero(alone, buffer.bytes(), count, query.job.style.ending) {
            Some(start) => {
                search_text(query, &buffer.bytes()[..start], state, output)?;
                buffer.drop_front(start);
                return Ok(true);
            }
            None => search_whole(query, buffer, count, state, output)?,
        }
    }
    Err(Stop::Read(Reason::Fault))
}

/// Where the first line begins that holds a zero byte, if that is asked, where the last `count` bytes alone can be one.
fn first_zero(alone: bool, bytes: &[u8], count: usize, ending: u8) -> Option<usize>
    ensures asked { IfSome result (λ start. alone ≡ true) }
    ensures within { IfSome result (λ start. start ≤ length bytes.now) }
    ensures ends { IfSome result (λ start. 0 < start → IsEnding ending bytes.now (start - 1)) }
    ensures zero { alone ≡ true → is_text (take (length bytes.now - count) bytes.now) ≡ true
        → IsZeroLine ending bytes.now result }
{
    if !alone {
        return None;
    }
    let before = bytes.len().saturating_sub(count);
    match memchr(0, &bytes[before..]) {
        Some(zero) => Some(line_start(&bytes[..before + zero], ending)),
        None => None,
    }
}

/// Reads once behind what is there, and answers how many bytes came. What is settled is handed on before.
fn read_more<R: Read, W: Sink>(
    buffer: &mut Buffer,
    input: &mut R,
    output: &mut W,
) -> Result<usize, Stop>
    ensures kept { Keeps (W.taken output.old) (W.taken output.new) }
    ensures filled { IfOk result (FillsBuffer buffer.old buffer.new
        (R.remaining input.old) (R.remaining input.new)) }
    ensures reads { ReadsOn (R.remaining input.old) (R.remaining input.new) }
{
    output.flush()?;
    buffer.make_room()?;
    match buffer.fill(input) {
        Ok(count) => Ok(count),
        Err(error) => Err(Stop::Read(Reason::of(&error))),
    }
}

/// Searches the whole lines, where a line can end among the last `count` bytes alone, and keeps what follows.
fn search_whole<W: Sink>(
    query: &Query<'_>,
    buffer: &mut Buffer,
    count: usize,
    state: &mut State,
    output: &mut W,
) -> Result<(), Stop>
    requires of { IsBuiltFromSome query.now.searcher.now }
    ensures searched { ForQuery query.now (λ p.
        OnOk result (SearchesWhole p query.now.job state.old state.new
        (W.taken output.old) (W.taken output.new)
        (bytes_buffered buffer.old) (bytes_buffered buffer.new))) }
    ensures begun { ForQuery query.now (λ p.
        OnErr result (BeginsWhole p query.now.job state.old state.new
        (W.taken output.old) (W.taken output.new) (bytes_buffered buffer.old))) }
{
    let whole = whole_lines(buffer.bytes(), count, query.job.style.ending);
    search_text(query, &buffer.bytes()[..whole], state, output)?;
    buffer.drop_front(whole);
    Ok(())
}

/// How many bytes whole lines have, where one can end among the last `count` alone.
fn whole_lines(bytes: &[u8], count: usize, ending: u8) -> usize
    ensures within { result ≤ length bytes.now }
    ensures ends { 0 < result → IsEnding ending bytes.now (result - 1) }
{
    let before = bytes.len().saturating_sub(count);
    match line_start(&bytes[before..], ending) {
        0 => 0,
        start => before + start,
    }
}
