//! What `acfind` writes for `--help` and `--version`.

ghost use Rattle.std.specs.Prelude.{◌≡◌, ◌≤◌, true};
ghost use Rattle.tool_parts.specs.Streams.{WritesBeginning, WritesBytes, WritesNothing};

use chromesquid::{FromWrite, Sink, write_whole};
use std::io::Write;
use tool_parts::failure::Failure;
use tool_parts::run::report;

/// What `--version` writes.
const VERSION: &[u8] = b"acfind 0.1.0\n";

/// What `--help` writes.
const HELP: &[u8] = b"usage: acfind find KIND [-i] PATTERN..
       acfind overlap PATTERN..
       acfind replace PATTERN REPLACEMENT [PATTERN REPLACEMENT]..
Searches standard input for all patterns at once. A pattern is plain text, not
a regular expression.

Commands:
  find      print the matches, which do not overlap, in order
  overlap   print every match of every pattern, including overlapping ones
  replace   copy the input, with each match of a PATTERN replaced by the
            REPLACEMENT that follows it

For each match, a line has three numbers: the number of the pattern, counted
from 0, the offset at which the match starts, and the offset at which it ends.

KIND says which of several possible matches is found:
  leftmost-longest, longest
            of the matches that start first, the longest
  leftmost-first, first
            of the matches that start first, the one whose pattern is given
            first
  standard  the match that ends first

Options:
  -i        right after KIND: ignore the case of ASCII letters
  --help    print this help
  --version print the version

--help and --version are options only as the first argument, and -i only right
after KIND. Anywhere else, all three are patterns.

The exit status is 0 if there was a match or the replacement is complete, 1 if
there was no match, 2 if the arguments are wrong, a build or a search is
refused or memory runs out, and 3 if reading or writing fails.
";

/// Returns the text that the first argument requests, if it requests one.
pub fn text_of(arguments: &[String]) -> Option<&'static [u8]> {
    match arguments.first()?.as_str() {
        "--help" => Some(HELP),
        "--version" => Some(VERSION),
        _ => None,
    }
}

/// Writes a text, and returns the exit status: 0, or 3 if it cannot be written, which a line on standard error says.
pub fn write_text<W: Write, E: Write>(
    text: &[u8],
    output: &mut FromWrite<W>,
    errors: &mut FromWrite<E>,
) -> u8
    ensures written { result ≡ 0 → WritesBytes W.Write output.old output.new text.now }
    ensures begun { WritesBeginning W.Write output.old output.new text.now }
    ensures flushed { result ≡ 0 → output.new.device.flushed ≡ true }
    ensures quiet { result ≡ 0 → errors.new ≡ errors.old }
    ensures bound { result ≤ 3 }
{
    match write_whole(output, text) {
        Ok(()) => finish(output, errors),
        Err(error) => report(&Failure::from(error), errors),
    }
}

/// Has the output hand on what it keeps, and returns the status.
fn finish<W: Write, E: Write>(output: &mut FromWrite<W>, errors: &mut FromWrite<E>) -> u8
    ensures kept { WritesNothing W.Write output.old output.new }
    ensures flushed { result ≡ 0 → output.new.device.flushed ≡ true }
    ensures quiet { result ≡ 0 → errors.new ≡ errors.old }
    ensures bound { result ≤ 3 }
{
    match output.flush() {
        Ok(()) => 0,
        Err(error) => report(&Failure::from(error), errors),
    }
}
