//! Printing the matches of `acfind`, a line for each. Both programs write whole pieces by `write_whole`.

ghost use Rattle.std.specs.Iterator.{IsFinite};
ghost use Rattle.std.specs.Iterator.Runs.{SomeRun, WholeRun};
ghost use Rattle.std.specs.Prelude.{◌≡◌, ◌+◌, ◌≤◌, ◌++◌, ◌∷◌, true, IfOk, IfErr, OnOk, decimal, drop, length};
ghost use Rattle.tool_parts.specs.Answers.{line_of, lines_of, PrintsLines};
ghost use Rattle.tool_parts.specs.Failures.{IsOfWrite};
ghost use Rattle.tool_parts.specs.Streams.{CountsWrites, WritesBeginning, WritesBytes, WritesNothing};

use crate::failure::Failure;
use chromesquid::{FromWrite, Match, Sink, write_whole as write_all};
use itoa::write_digits;
use std::io::Write;

/// The room for a match's line: three numbers of twenty digits at most, and a byte after each.
const LINE_CAPACITY: usize = 63;

/// Prints a line for each match as it comes, flushes when all are printed, and answers whether there was one. It takes no
/// memory. Where it fails, a beginning of the lines may have been written.
pub fn print<W: Write, I: Iterator<Item = Match> + Drop>(
    output: &mut FromWrite<W>,
    matches: I,
) -> Result<bool, Failure>
    requires ready { I.can_next matches }
    requires finite { IsFinite (I.remaining matches) }
    ensures printed { IfOk result (λ any. WholeRun I.next_gives matches (λ run.
        PrintsLines W.Write output.old output.new run.items any)) }
    ensures flushed { OnOk result (output.new.device.flushed ≡ true) }
    ensures begun { SomeRun I.next_gives matches (λ run.
        WritesBeginning W.Write output.old output.new (lines_of run.items)) }
    ensures of_write { IfErr result IsOfWrite }
    ensures faults { CountsWrites output.old output.new result }
{
    let any = print_lines(output, matches)?;
    flush(output)?;
    Ok(any)
}

/// Prints a line for each match as it comes, and answers whether there was one.
fn print_lines<W: Write, I: Iterator<Item = Match> + Drop>(
    output: &mut FromWrite<W>,
    matches: I,
) -> Result<bool, Failure>
    requires ready { I.can_next matches }
    requires finite { IsFinite (I.remaining matches) }
    ensures printed { IfOk result (λ any. WholeRun I.next_gives matches (λ run.
        PrintsLines W.Write output.old output.new run.items any)) }
    ensures begun { SomeRun I.next_gives matches (λ run.
        WritesBeginning W.Write output.old output.new (lines_of run.items)) }
    ensures of_write { IfErr result IsOfWrite }
    ensures faults { CountsWrites output.old output.new result }
{
    let mut line = [0; LINE_CAPACITY];
    let mut any = false;
    for found in matches {
        let start = put_line(&found, &mut line);
        write_bytes(output, &line[start..])?;
        any = true;
    }
    Ok(any)
}

/// Puts a match's line at the end of the room, and answers where it starts.
fn put_line(found: &Match, line: &mut [u8; LINE_CAPACITY]) -> usize
    ensures within { result ≤ 63 }
    ensures line { drop result line.new ≡ line_of found.now }
{
    let end_at = put_number(found.end(), b'\n', line, LINE_CAPACITY);
    let start_at = put_number(found.start(), b' ', line, end_at);
    put_number(found.pattern().as_usize(), b' ', line, start_at)
}

/// Puts a number and the byte that follows it into the room so that they end at a place, and answers where they start.
fn put_number(number: usize, after: u8, line: &mut [u8], end: usize) -> usize
    requires room { 21 ≤ end }
    requires within { end ≤ length line.old }
    ensures start { result + length (decimal number) + 1 ≡ end }
    ensures short { end ≤ result + 21 }
    ensures put { drop result line.new ≡ decimal number ++ (after ∷ drop end line.old) }
    ensures length { length line.new ≡ length line.old }
{
    let last = end - 1;
    line[last] = after;
    write_digits(number as u64, line, last)
}

/// Writes all of the bytes, and flushes. Where it fails, a beginning of the bytes was written.
pub fn write_whole<W: Write>(output: &mut FromWrite<W>, bytes: &[u8]) -> Result<(), Failure>
    ensures whole { OnOk result (WritesBytes W.Write output.old output.new bytes.now) }
    ensures flushed { OnOk result (output.new.device.flushed ≡ true) }
    ensures beginning { WritesBeginning W.Write output.old output.new bytes.now }
    ensures of_write { IfErr result IsOfWrite }
    ensures faults { CountsWrites output.old output.new result }
{
    write_bytes(output, bytes)?;
    flush(output)
}

/// Writes all of the bytes, by as many writes as it needs. A failed write is not tried again, and where it fails, a
/// beginning of the bytes was written.
fn write_bytes<W: Write>(output: &mut FromWrite<W>, bytes: &[u8]) -> Result<(), Failure>
    ensures whole { OnOk result (WritesBytes W.Write output.old output.new bytes.now) }
    ensures beginning { WritesBeginning W.Write output.old output.new bytes.now }
    ensures of_write { IfErr result IsOfWrite }
    ensures faults { CountsWrites output.old output.new result }
{
    Ok(write_all(output, bytes)?)
}

/// Hands on what a buffer keeps. A failed flush is not tried again.
pub fn flush<W: Write>(output: &mut FromWrite<W>) -> Result<(), Failure>
    ensures kept { WritesNothing W.Write output.old output.new }
    ensures flushed { OnOk result (output.new.device.flushed ≡ true) }
    ensures of_write { IfErr result IsOfWrite }
    ensures faults { CountsWrites output.old output.new result }
{
    Ok(output.flush()?)
}
