//! What is told on standard error: why something was not done.

ghost use Rattle.acgrep.specs.Mistakes.{memory_line};
ghost use Rattle.acgrep.specs.Told.{TellsCause, TellsOfFile, TellsOfNamed, TellsWrong, misuse_parts, named_parts, number_parts, obstacle_line, obstacle_text, valued_name};
ghost use Rattle.std.specs.List.{concat};
ghost use Rattle.tool_parts.specs.Telling.{TellsBytes};
ghost use Rattle.std.specs.Prelude.{◌≡◌};

use crate::all_options::Valued;
use crate::failure::Obstacle;
use crate::help::USAGE;
use crate::json::is_text;
use crate::wrong::Wrong;
use chromesquid::{BuildError, MatchError, Sink};
use tool_parts::errors::Errors;
use tool_parts::options::misuse::Misuse;
use tool_parts::reason::Reason;

/// What is told of a folder that stands in itself.
const LOOP: &[u8] = b"warning: recursive directory loop";

/// What is told of a file to which the output goes.
const SAME: &[u8] = b"input file is also the output";

/// What is told of a pattern that holds a zero byte where that ends a line.
const ZERO: &[u8] = b"the pattern holds a zero byte, which ends a line under -z";

/// What is told of a file whose name is not UTF-8.
const NO_TEXT: &[u8] = b"its name is not UTF-8, so it cannot be opened";

/// The program's name.
pub const PROGRAM: &[u8] = b"acgrep";

/// Tells that memory ran out.
pub fn tell_memory<E: Sink>(errors: &mut Errors<'_, E>)
    ensures told { TellsCause E.Sink errors.old errors.new }
    ensures exact { TellsBytes E.Sink errors.old errors.new memory_line }
{
    errors.tell(PROGRAM, None, None, Reason::OutOfMemory.text().as_bytes());
}

/// Tells why a file of this name is not searched, or not to its end.
pub fn tell_file<E: Sink>(name: &[u8], why: Obstacle, errors: &mut Errors<'_, E>)
    ensures told { TellsOfFile E.Sink name.now errors.old errors.new }
    ensures exact { TellsBytes E.Sink errors.old errors.new (obstacle_line name.now why) }
{
    errors.tell(PROGRAM, Some(name), None, cause_of(name, why));
}

/// Why it is not. A name that is not UTF-8 is a reason of its own.
fn cause_of(name: &[u8], why: Obstacle) -> &'static [u8]
    ensures cause { result.now ≡ obstacle_text name.now why }
{
    match why {
        Obstacle::Output => SAME,
        Obstacle::Loop => LOOP,
        Obstacle::Closed(reason) => {
            if is_text(name) {
                return reason.text().as_bytes();
            }
            NO_TEXT
        }
        Obstacle::Fault(reason) => reason.text().as_bytes(),
    }
}

/// Tells why the output cannot be written.
pub fn tell_write<E: Sink>(errors: &mut Errors<'_, E>)
    ensures told { TellsCause E.Sink errors.old errors.new }
{
    errors.tell_unwritten(PROGRAM);
}

/// Tells why the search is refused.
pub fn tell_search<E: Sink>(error: &MatchError, errors: &mut Errors<'_, E>)
    ensures told { TellsCause E.Sink errors.old errors.new }
{
    errors.tell_search(PROGRAM, Some(b"search"), error);
}

/// Tells why the patterns of a file, or another name, are refused, and at which line.
pub fn tell_build<E: Sink>(
    name: &[u8],
    line: Option<u64>,
    error: &BuildError,
    errors: &mut Errors<'_, E>,
)
    ensures told { TellsOfNamed E.Sink name.now errors.old errors.new }
{
    errors.tell_build(PROGRAM, Some(name), line, error);
}

/// Tells that a pattern of a file, or of another name, holds the byte that ends a line, and where it stands.
pub fn tell_zero<E: Sink>(name: &[u8], line: Option<u64>, errors: &mut Errors<'_, E>)
    ensures told { TellsOfNamed E.Sink name.now errors.old errors.new }
{
    errors.tell(PROGRAM, Some(name), line, ZERO);
}

/// Tells why arguments are wrong, and how to get help.
pub fn tell_wrong<E: Sink>(errors: &mut Errors<'_, E>, wrong: Wrong<'_>)
    ensures told { TellsWrong E.Sink wrong.entry errors.old errors.new }
{
    match wrong {
        Wrong::NoPattern => errors.write(&[b"acgrep: no pattern is given\n", USAGE]),
        Wrong::UnknownLetter(letter) => tell_misuse(Misuse::UnknownLetter, &[letter], errors),
        Wrong::NotFound(why, name) => tell_misuse(Misuse::NotFound(why), name, errors),
        Wrong::NoArgument(valued) => tell_misuse(Misuse::NoArgument, valued_name(valued), errors),
        Wrong::TakesNone(name) => tell_misuse(Misuse::TakesNone, name, errors),
        Wrong::UnknownKind(name) => errors.write(&[
            b"acgrep: option '--kind' takes first, longest or standard, not '",
            name,
            b"'\n",
            USAGE,
        ]),
        Wrong::UnknownColor(name) => errors.write(&[
            b"acgrep: option '--color' takes auto, always or never, not '",
            name,
            b"'\n",
            USAGE,
        ]),
        Wrong::UnknownFolders(action) => errors.write(&[
            b"acgrep: option '-d' takes read, recurse or skip, not '",
            action,
            b"'\n",
            USAGE,
        ]),
        Wrong::UnknownDevices(action) => errors.write(&[
            b"acgrep: option '-D' takes read or skip, not '",
            action,
            b"'\n",
            USAGE,
        ]),
        Wrong::UnknownBinary(name) => errors.write(&[
            b"acgrep: option '--binary-files' takes binary, text or without-match, not '",
            name,
            b"'\n",
            USAGE,
        ]),
        Wrong::UnknownField(field) => errors.write(&[
            b"acgrep: option '--format' has no field '",
            field,
            b"'\n",
            USAGE,
        ]),
        Wrong::NoNumber(valued, number) => {
            let name = name_beside(valued, number);
            tell_number(name, number, errors)
        }
    }
}

/// Tells how an option is misused, by its letter, its long name or what it is called.
fn tell_misuse<E: Sink>(misuse: Misuse, name: &[u8], errors: &mut Errors<'_, E>)
    ensures told { TellsBytes E.Sink errors.old errors.new (concat (misuse_parts misuse name.now)) }
{
    tell_named(misuse.before(), name, misuse.behind(), errors);
}

/// Tells of something that was given, between what stands before and behind it, and how to get help.
fn tell_named<E: Sink>(before: &[u8], name: &[u8], behind: &[u8], errors: &mut Errors<'_, E>)
    ensures told { TellsBytes E.Sink errors.old errors.new
        (concat (named_parts before.now name.now behind.now)) }
{
    errors.write(&[PROGRAM, b": ", before, name, behind, b"\n", USAGE]);
}

/// Tells that the argument of the option of a name is no number.
fn tell_number<'a, E: Sink>(name: &'a [u8], argument: &'a [u8], errors: &mut Errors<'_, E>)
    ensures told { TellsBytes E.Sink errors.old errors.new
        (concat (number_parts name.now argument.now)) }
{
    errors.write(&[
        b"acgrep: option '",
        name,
        b"' takes a number below 2^64, not '",
        argument,
        b"'\n",
        USAGE,
    ]);
}

/// How an option that takes an argument is called.
fn valued_name<'a>(valued: Valued) -> &'a [u8]
    ensures name { result.now ≡ valued_name valued }
{
    match valued {
        Valued::Regexp => b"-e",
        Valued::PatternFile => b"-f",
        Valued::Kind => b"--kind",
        Valued::Offset => b"--offset",
        Valued::FirstLine => b"--first-line",
        Valued::MaxCount => b"-m",
        Valued::After => b"-A",
        Valued::Before => b"-B",
        Valued::Around => b"-C",
        Valued::Separator => b"--group-separator",
        Valued::Label => b"--label",
        Valued::Format => b"--format",
        Valued::Included => b"--include",
        Valued::Excluded => b"--exclude",
        Valued::ExcludedFrom => b"--exclude-from",
        Valued::ExcludedFolder => b"--exclude-dir",
        Valued::Folders => b"-d",
        Valued::Devices => b"-D",
        Valued::BinaryFiles => b"--binary-files",
        Valued::RuleFile => b"--rules",
        Valued::LineLimit => b"--max-line",
    }
}

/// The same, for as long as other bytes are lent.
fn name_beside<'a>(valued: Valued, _others: &'a [u8]) -> &'a [u8]
    ensures name { result.now ≡ valued_name valued }
{
    valued_name(valued)
}
