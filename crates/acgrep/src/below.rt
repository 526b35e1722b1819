//! Searching the files that operands name, with those below folders where that is asked for.

ghost use Rattle.std.specs.Prelude.{◌≡◌, ◌≤◌, IfOk, IfSome, IsNone};
ghost use Rattle.tool_parts.specs.Names.{name_bytes};
ghost use Rattle.chromesquid.specs.Searcher.{IsBuiltFromSome};
ghost use Rattle.acgrep.specs.Arguments.{said};
ghost use Rattle.acgrep.specs.Folders.{known_by, missed_of, tree_of};
ghost use Rattle.acgrep.specs.Listed.{listed_bytes};
ghost use Rattle.acgrep.specs.Reached.{SearchesOperands, TellsMissed};
ghost use Rattle.acgrep.specs.Runs.{AreReached, BeginsOrKeeps, are_several, is_alone, status_reached};
ghost use Rattle.acgrep.specs.Searchers.{ForSearcher};
ghost use Rattle.acgrep.specs.Told.{TellsCause, TellsOfReached};

use crate::arguments::Given;
use crate::chosen::choose;
use crate::colors::Screen;
use crate::failure::Stop;
use crate::files::{Files, search_names};
use crate::folders::Folders;
use crate::job::{Query, job_of};
use crate::open::Open;
use crate::options::Flags;
use crate::tell::{tell_file, tell_memory};
use crate::walk::{Found, Unread, walk};
use chromesquid::{AhoCorasick, Sink};
use std::alloc::Global;
use std::io::Read;
use tool_parts::errors::Errors;

/// Searches the files that these operands name, with those below folders where that is asked for.
pub fn search_operands<F: Open + Folders, R: Read, W: Sink, E: Sink>(
    searcher: &AhoCorasick,
    given: &Given<'_>,
    screen: &Screen<'_>,
    operands: &Files<'_, F>,
    input: &mut R,
    output: &mut W,
    errors: &mut Errors<'_, E>,
) -> u8
    requires of { IsBuiltFromSome searcher.now }
    ensures bound { result ≤ 2 }
    ensures searched { SearchesOperands F.Open F.Folders R.Read W.Sink operands.now.files.now
        operands.now.names.now searcher.now screen.now (said given.now)
        input.old input.new output.old output.new result }
    ensures begun { ForSearcher searcher.now given.now.flags (λ p.
        BeginsOrKeeps (known_by F.Open F.Folders operands.now.files.now) screen.now (said given.now) p
        (name_bytes operands.now.names.now) (R.remaining input.old)
        (W.taken output.old) (W.taken output.new)) }
    ensures told { TellsOfReached E.Sink (tree_of F.Folders operands.now.files.now) (said given.now)
        (name_bytes operands.now.names.now) result errors.old errors.new }
{
    let Some(found) = reach(given, operands, errors) else {
        return 2;
    };
    let names = found.names.as_slice();
    let several = are_several(&given.flags, operands.names, names);
    let job = job_of(operands.alloc, given, screen, several);
    let query = Query { searcher, job };
    let status = search_names(&query, operands.files, names, input, output, errors);
    status_below(&given.flags, found.unread.as_slice(), status)
}

/// The files that these operands name, with those below folders where that is asked for, and without those that rules leave out. What
/// cannot be looked at or read is told, where that is asked for. There is nothing where memory runs out, which is told.
pub fn reach<F: Folders, E: Sink>(
    given: &Given<'_>,
    operands: &Files<'_, F>,
    errors: &mut Errors<'_, E>,
) -> Option<Found>
    ensures reached { IfSome result (λ found. AreReached (tree_of F.Folders operands.now.files.now) (said given.now)
        (name_bytes operands.now.names.now) (listed_bytes found.names.items) (missed_of found.unread.items)) }
    ensures told { IfSome result (λ found. TellsMissed E.Sink given.now.flags.no_messages (missed_of found.unread.items)
        errors.old errors.new) }
    ensures lost { IsNone result → TellsCause E.Sink errors.old errors.new }
{
    match found_by(operands.alloc, operands.files, given, operands.names) {
        Ok(found) => {
            tell_each(given.flags.no_messages, found.unread.as_slice(), errors);
            Some(found)
        }
        Err(_) => {
            tell_memory(errors);
            None
        }
    }
}

/// The same, and nothing is told.
fn found_by<F: Folders>(
    alloc: Global,
    files: &F,
    given: &Given<'_>,
    operands: &[&[u8]],
) -> Result<Found, Stop>
    ensures reached { IfOk result (λ found. AreReached (tree_of F.Folders files.now) (said given.now)
        (name_bytes operands.now) (listed_bytes found.names.items) (missed_of found.unread.items)) }
{
    let rules = given.rules.as_slice();
    if given.flags.recursive {
        return walk(alloc, files, given.flags.ways(), rules, operands);
    }
    match choose(alloc, files, rules, given.flags.ways(), operands) {
        Ok(found) => Ok(found),
        Err(_) => Err(Stop::OutOfMemory),
    }
}

/// The status of a search, by whether all could be read: an error goes before all but a selected line under `-q`.
pub fn status_below(flags: &Flags, unread: &[Unread], status: u8) -> u8
    ensures status { result ≡ status_reached flags.now (missed_of unread.now) status }
{
    if unread.is_empty() || flags.quiet && status == 0 {
        status
    } else {
        2
    }
}

/// Tells what cannot be looked at, and which folders cannot be read, if that is asked for.
fn tell_each<E: Sink>(hushed: bool, unread: &[Unread], errors: &mut Errors<'_, E>)
    ensures told { TellsMissed E.Sink hushed (missed_of unread.now) errors.old errors.new }
{
    if hushed {
        return;
    }
    let mut rest = unread;
    while let Some((first, behind)) = rest.split_first() {
        tell_file(first.name.as_slice(), first.why, errors);
        rest = behind;
    }
}

/// Whether names stand before lines where nothing is said of that.
pub fn are_several(flags: &Flags, operands: &[&[u8]], files: &[Vec<u8>]) -> bool
    ensures several { result ≡ are_several flags.now (name_bytes operands.now) (listed_bytes files.now) }
{
    if flags.recursive {
        !is_alone(operands, files)
    } else {
        operands.len() > 1
    }
}

/// Whether the only operand is the only file.
fn is_alone(operands: &[&[u8]], files: &[Vec<u8>]) -> bool
    ensures { result ≡ is_alone (name_bytes operands.now) (listed_bytes files.now) }
{
    operands.len() == 1 && files.len() == 1 && operands[0] == files[0].as_slice()
}
