//! Searching what a reader gives where no line from the first on that holds a zero byte is to be written: such bytes would not be lines
//! to read, and a terminal may take them for commands.

ghost use Rattle.std.specs.Prelude.{◌≡◌, OnOk, true};
ghost use Rattle.std.specs.Io.KnownBytes.{Appends};
ghost use Rattle.aho_devices.specs.Counts.{AppendsBeginning};
ghost use Rattle.chromesquid.specs.Searcher.{IsBuiltFromSome};
ghost use Rattle.acgrep.specs.Binary.{binary_by, is_guarded};
ghost use Rattle.acgrep.specs.Filled.{ReadsOn};
ghost use Rattle.acgrep.specs.Printed.{Puts};
ghost use Rattle.acgrep.specs.Searched.{BeginsGuardedBy, SearchesGuardedBy};

use crate::buffer::Buffer;
use crate::failure::Stop;
use crate::job::{Query, State};
use crate::print::Style;
use crate::stream::{search_behind, search_front};
use chromesquid::{Sink, write_whole};
use std::io;
use std::io::{Read, Write};

/// Searches all that a reader gives, and answers whether a line is selected. Of the lines from the first on that holds a zero byte is
/// told alone that one is, unless so many were selected before them as are asked for.
pub fn search_guarded<R: Read, W: Sink>(
    query: &Query<'_>,
    buffer: &mut Buffer,
    input: &mut R,
    state: &mut State,
    output: &mut W,
) -> Result<bool, Stop>
    requires of { IsBuiltFromSome query.now.searcher.now }
    requires guarded { is_guarded query.now.job ≡ true }
    ensures searched { SearchesGuardedBy R.Read W.Sink query.now
        input.old input.new output.old output.new result }

    // Where it fails a beginning of that is written.
    ensures begun { BeginsGuardedBy R.Read W.Sink query.now
        input.old output.old output.new result }
    ensures reads { ReadsOn (R.remaining input.old) (R.remaining input.new) }
{
    state.begin(&query.job);
    let binary = search_front(query, true, buffer, input, state, output)?;
    let any = state.selected > 0;
    if !binary {
        return Ok(any);
    }
    if query.job.is_full(state.selected) {
        return Ok(any);
    }
    // Of the other lines nothing is written.
    let seeking = query.job.seeking();
    state.begin(&seeking);
    let sought = Query {
        searcher: query.searcher,
        job: seeking,
    };
    search_behind(&sought, false, buffer, input, state, output)?;
    let found = state.selected > 0;
    if found {
        write_binary(&query.job.style, &mut state.page, output)?;
        return Ok(true);
    }
    Ok(any)
}

/// Writes that a line with a zero byte, or one behind it, is selected. It is put together first.
fn write_binary<W: Sink>(style: &Style<'_>, page: &mut Vec<u8>, output: &mut W) -> Result<(), Stop>
    ensures written { OnOk result (Appends (W.taken output.old) (W.taken output.new) (binary_by style.now)) }
    ensures begun { AppendsBeginning (W.taken output.old) (W.taken output.new) (binary_by style.now) }
{
    page.clear();
    put_binary(style, page)?;
    Ok(write_whole(output, page.as_slice())?)
}

/// Puts together that such a line is selected.
fn put_binary<W: Write>(style: &Style<'_>, output: &mut W) -> io::Result<()>
    ensures written { Puts W.Write output.old output.new result (binary_by style.now) }
{
    output.write_all(b"acgrep: ")?;
    output.write_all(style.name)?;
    output.write_all(b": binary file matches\n")?;
    Ok(())
}
