//! A search whose matches are counted: in place of each match the number of its pattern is put down, on a line of its own.

ghost use Rattle.std.specs.Prelude.{◌≡◌, ◌≤◌, ◌<◌, OnErr, OnOk, true};
ghost use Rattle.std.specs.Io.KnownBytes.{Appends};
ghost use Rattle.aho_core.specs.Replacement.{pieces_of};
ghost use Rattle.aho_devices.specs.Counts.{AppendsBeginning};
ghost use Rattle.tool_parts.specs.Names.{name_bytes};
ghost use Rattle.chromesquid.specs.Searcher.{IsBuiltFromSome};
ghost use Rattle.acgrep.specs.Arguments.{said};
ghost use Rattle.acgrep.specs.Counted.{BeginsSearchOrCount, SearchesOrCounts};
ghost use Rattle.acgrep.specs.Folders.{tree_of};
ghost use Rattle.acgrep.specs.Tallies.{counts_table_of};
ghost use Rattle.acgrep.specs.Told.{StaysOrFails, TellsOfReached};

use crate::arguments::Given;
use crate::below::search_operands;
use crate::colors::Screen;
use crate::failure::Stop;
use crate::files::Files;
use crate::folders::Folders;
use crate::open::Open;
use crate::run::finish;
use crate::tally::{put_rows, tally, zeros};
use crate::unread::tell_total;
use chromesquid::{AhoCorasick, FromWrite, Sink, write_whole};
use std::alloc::Global;
use std::io::Read;
use tool_parts::errors::Errors;

/// Searches the files that these operands name, or counts the matches of each pattern in them.
pub fn search_or_count<F: Open + Folders, R: Read, W: Sink, E: Sink>(
    searcher: &AhoCorasick,
    given: &Given<'_>,
    screen: &Screen<'_>,
    patterns: &[&[u8]],
    operands: &Files<'_, F>,
    input: &mut R,
    output: &mut W,
    errors: &mut Errors<'_, E>,
) -> u8
    requires of { IsBuiltFromSome searcher.now }
    ensures bound { result ≤ 2 }
    ensures searched { SearchesOrCounts F.Open F.Folders R.Read W.Sink operands.now.files.now
        operands.now.names.now searcher.now screen.now (said given.now) patterns.now
        input.old input.new output.old output.new result }
    ensures begun { BeginsSearchOrCount F.Open F.Folders R.Read W.Sink operands.now.files.now
        operands.now.names.now searcher.now screen.now (said given.now) patterns.now
        input.old output.old output.new }
    ensures told { TellsOfReached E.Sink (tree_of F.Folders operands.now.files.now) (said given.now)
        (name_bytes operands.now.names.now) result errors.old errors.new }
    ensures flushed { result < 2 → W.flushed output.new ≡ true }
{
    if !given.flags.asks_counts() {
        return finish(
            search_operands(searcher, given, screen, operands, input, output, errors),
            output,
            errors,
        );
    }
    let mut found = FromWrite::new(Vec::new(operands.alloc));
    let status = search_operands(searcher, given, screen, operands, input, &mut found, errors);
    let numbers = found.into_inner();
    end_counts(
        operands.alloc,
        patterns,
        numbers.as_slice(),
        given.flags.ending(),
        status,
        output,
        errors,
    )
}

/// Ends a call whose matches are counted, where these numbers of patterns were found, each ended by `ending`, and answers the status.
pub fn end_counts<W: Sink, E: Sink>(
    alloc: Global,
    patterns: &[&[u8]],
    numbers: &[u8],
    ending: u8,
    status: u8,
    output: &mut W,
    errors: &mut Errors<'_, E>,
) -> u8
    ensures written { result < 2 → Appends (W.taken output.old) (W.taken output.new)
        (counts_table_of ending patterns.now numbers.now) }
    // Where it fails a beginning of that is written.
    ensures begun { AppendsBeginning (W.taken output.old) (W.taken output.new)
        (counts_table_of ending patterns.now numbers.now) }
    ensures flushed { result < 2 → W.flushed output.new ≡ true }
    ensures told { StaysOrFails E.Sink status result errors.old errors.new }
{
    match write_counts(alloc, patterns, numbers, ending, output) {
        Ok(()) => finish(status, output, errors),
        Err(stop) => {
            // Where the status is 2 it is told already why.
            if status < 2 {
                tell_total(&stop, errors);
                return 2;
            }
            status
        }
    }
}

/// Writes how often each pattern was found, where these numbers of patterns were. It is put together first.
fn write_counts<W: Sink>(
    alloc: Global,
    patterns: &[&[u8]],
    numbers: &[u8],
    ending: u8,
    output: &mut W,
) -> Result<(), Stop>
    ensures written { OnOk result (Appends (W.taken output.old) (W.taken output.new)
        (counts_table_of ending patterns.now numbers.now)) }
    ensures begun { OnErr result (AppendsBeginning (W.taken output.old) (W.taken output.new)
        (counts_table_of ending patterns.now numbers.now)) }
{
    let mut counts = zeros(alloc, patterns)?;
    let tallied = counts.as_mut_slice();
    tally(numbers, ending, tallied);
    let mut text = Vec::new(alloc);
    put_rows(&mut text, patterns, tallied)?;
    Ok(write_whole(output, text.as_slice())?)
}
