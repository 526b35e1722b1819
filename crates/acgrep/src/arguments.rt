//! What the arguments of a call mean.
//!
//! Options may be joined, take their argument joined or as the next one, and stand behind files. A long name may be a beginning that
//! no other option's name has. Two hyphens end the options.

ghost use Rattle.std.specs.Prelude.{◌≡◌, IfErr, IfOk, List, OnOk, Some, ℕ};
ghost use Rattle.tool_parts.specs.Arguments.{kind_by};
ghost use Rattle.acgrep.specs.Arguments.{FailsBy, ReadsBy, SaysMore, argument_by, behind_by, fresh_by, joined_by, letters_by, named_by, nothing_said, number_by, said, said_by, source_option, so_far, taken_by, value_by, valued_letter, with_digits, with_format, with_operand, with_rule, with_rule_file, with_source, with_switch};
ghost use Rattle.acgrep.specs.Listed.{listed_bytes};
ghost use Rattle.acgrep.specs.Long.{option_by};
ghost use Rattle.acgrep.specs.Rules.{rules_said};
ghost use Rattle.acgrep.specs.Runs.{ruled};
ghost use Rattle.acgrep.specs.Mistakes.{IsFirstMistake, TellsBy, digits_value_of, if_none, mistake_at, wrong_behind, wrong_digits, wrong_fresh, wrong_joined, wrong_letters, wrong_name, wrong_value};
ghost use Rattle.acgrep.specs.Told.{format_parts, kind_parts, number_parts, valued_name, wrong_parts};

use crate::actions::{binary_in, color_in, devices_in, folders_in};
use crate::all_options::{Switch, Valued};
use crate::format::{Piece, read_format};
use crate::long::{Long, option_of};
use crate::options::{Color, Flags, switch_of};
use crate::rules::{Rule, Sense, without_slashes};
use crate::wrong::{Refusal, Wrong};
use chromesquid::MatchKind;
use std::alloc::{AllocError, Global};
use std::str;
use tool_parts::options::argument::{Argument, argument_of};

/// The names of the match kinds.
const STANDARD: &[u8] = b"standard";

const FIRST: &[u8] = b"first";

const LEFTMOST_FIRST: &[u8] = b"leftmost-first";

const LONGEST: &[u8] = b"longest";

const LEFTMOST_LONGEST: &[u8] = b"leftmost-longest";

/// Where patterns come from.
#[derive(Clone, Copy)]
pub enum Source<'a> {
    /// These bytes: one pattern a line.
    Text(&'a [u8]),
    /// A file of this name: one pattern a line.
    File(&'a [u8]),
}

/// What the arguments say.
#[derive(Drop)]
pub struct Given<'a> {
    /// Each option.
    pub flags: Flags,
    /// The patterns, in order.
    pub sources: Vec<Source<'a>>,
    /// What is no option: the files, behind the pattern where no option gives one.
    pub operands: Vec<&'a [u8]>,
    /// What stands between lines that do not follow one another: the last `--group-separator`.
    pub separator: &'a [u8],
    /// How standard input is called in what is written: the last `--label`.
    pub label: &'a [u8],
    /// The pieces of the last `--format`.
    pub format: Vec<Piece>,
    /// Each `--include`, `--exclude`, `--exclude-from` and `--exclude-dir`, in order.
    pub rules: Vec<Rule<'a>>,
    /// Each `--rules`, in order: the files of rules that mark lines.
    pub rule_files: Vec<&'a [u8]>,
}

impl<'a> Given<'a> {
    /// What no argument says.
    fn new(alloc: Global) -> Given<'a>
        ensures none { said result ≡ nothing_said }
    {
        Given {
            flags: Flags::new(),
            sources: Vec::new(alloc),
            operands: Vec::new(alloc),
            separator: b"--",
            label: b"(standard input)",
            format: Vec::new(alloc),
            rules: Vec::new(alloc),
            rule_files: Vec::new(alloc),
        }
    }
}

/// What is said, by these rules.
pub fn with_rules<'a>(given: Given<'a>, rules: Vec<Rule<'a>>) -> Given<'a>
    ensures ruled { said result ≡ ruled (said given.entry) (rules_said rules.entry.items) }
{
    let mut ruled = given;
    ruled.rules = rules;
    ruled
}

/// What an argument waits for.
#[derive(Clone, Copy)]
pub enum Awaited {
    /// No argument: an option may follow.
    Fresh,
    /// The next argument is that of this option.
    Argument(Valued),
    /// No option follows.
    Operands,
}

/// Reads the arguments after the program's name.
pub fn parse<'a>(alloc: Global, arguments: &'a [Vec<u8>]) -> Result<Given<'a>, Refusal<'a>>
    ensures read { IfOk result (λ given. said_by (listed_bytes arguments.now) ≡ Some (said given)) }
    ensures refused { FailsBy (said_by (listed_bytes arguments.now)) result }
    // The first mistake is told.
    ensures wrong { IfErr result (IsFirstMistake (listed_bytes arguments.now)) }
{
    let mut given = Given::new(alloc);
    let mut awaited = Awaited::Fresh;
    for argument in arguments {
        awaited = read_argument(&mut given, awaited, argument.as_slice())?;
    }
    match awaited {
        Awaited::Argument(valued) => Err(Refusal::Wrong(Wrong::NoArgument(valued))),
        Awaited::Fresh | Awaited::Operands => Ok(given),
    }
}

/// Reads one argument.
fn read_argument<'a>(
    given: &mut Given<'a>,
    before: Awaited,
    argument: &'a [u8],
) -> Result<Awaited, Refusal<'a>>
    ensures read { ReadsBy (argument_by before argument.now) given.old given.new result }
    ensures refused { FailsBy (argument_by before argument.now (said given.old)) result }
    ensures wrong { TellsBy (mistake_at before argument.now) result }
{
    match before {
        Awaited::Argument(valued) => read_value(given, valued, argument),
        Awaited::Operands => {
            add_operand(given, argument)?;
            Ok(Awaited::Operands)
        }
        Awaited::Fresh => read_fresh(given, argument),
    }
}

/// Reads an argument that stands where an option may.
fn read_fresh<'a>(given: &mut Given<'a>, argument: &'a [u8]) -> Result<Awaited, Refusal<'a>>
    ensures read { ReadsBy (fresh_by argument.now) given.old given.new result }
    ensures refused { FailsBy (fresh_by argument.now (said given.old)) result }
    ensures wrong { TellsBy (wrong_fresh argument.now) result }
{
    match argument_of(argument) {
        Argument::End => Ok(Awaited::Operands),
        Argument::Name(name) => read_named(given, name),
        Argument::Joined(name, value) => read_joined(given, name, value),
        Argument::Letters(letters) => read_letters(given, letters),
        Argument::Plain => {
            add_operand(given, argument)?;
            Ok(Awaited::Fresh)
        }
    }
}

/// Reads a long name without an argument.
fn read_named<'a>(given: &mut Given<'a>, name: &'a [u8]) -> Result<Awaited, Refusal<'a>>
    ensures read { ReadsBy (named_by name.now) given.old given.new result }
    ensures refused { FailsBy (named_by name.now (said given.old)) result }
    ensures wrong { TellsBy (wrong_name name.now) result }
{
    match option_of(name) {
        Ok(Long::Plain(switch)) => {
            given.flags = given.flags.switched(switch);
            Ok(Awaited::Fresh)
        }
        Ok(Long::Takes(valued)) => Ok(Awaited::Argument(valued)),
        Ok(Long::When) => {
            given.flags.color = Color::Auto;
            Ok(Awaited::Fresh)
        }
        Err(wrong) => Err(Refusal::Wrong(wrong)),
    }
}

/// Reads a long name with an argument behind an equals sign.
fn read_joined<'a>(
    given: &mut Given<'a>,
    name: &'a [u8],
    value: &'a [u8],
) -> Result<Awaited, Refusal<'a>>
    ensures read { ReadsBy (joined_by name.now value.now) given.old given.new result }
    ensures refused { FailsBy (joined_by name.now value.now (said given.old)) result }
    ensures wrong { TellsBy (wrong_joined (option_by name.now) name.now value.now) result }
{
    match option_of(name) {
        Ok(Long::Takes(valued)) => read_value(given, valued, value),
        Ok(Long::When) => match color_in(value) {
            Some(color) => {
                given.flags.color = color;
                Ok(Awaited::Fresh)
            }
            None => Err(Refusal::Wrong(Wrong::UnknownColor(value))),
        },
        Ok(Long::Plain(_)) => Err(Refusal::Wrong(Wrong::TakesNone(name))),
        Err(wrong) => Err(Refusal::Wrong(wrong)),
    }
}

/// Reads the argument of an option.
fn read_value<'a>(
    given: &mut Given<'a>,
    valued: Valued,
    argument: &'a [u8],
) -> Result<Awaited, Refusal<'a>>
    ensures read { ReadsBy (value_by valued argument.now) given.old given.new result }
    ensures refused { FailsBy (value_by valued argument.now (said given.old)) result }
    ensures wrong { TellsBy (wrong_value valued argument.now) result }
{
    match valued {
        Valued::Regexp => add_source(given, false, argument)?,
        Valued::PatternFile => add_source(given, true, argument)?,
        Valued::Kind => given.flags.kind = read_kind(argument)?,
        Valued::Separator => {
            given.flags.joined = false;
            given.separator = argument;
        }
        Valued::Label => given.label = argument,
        Valued::Format => set_format(given, argument)?,
        Valued::Included => add_rule(given, Sense::Include, argument)?,
        Valued::Excluded => add_rule(given, Sense::Exclude, argument)?,
        Valued::ExcludedFrom => add_rule(given, Sense::ExcludeFrom, argument)?,
        Valued::ExcludedFolder => {
            add_rule(given, Sense::ExcludeFolder, without_slashes(argument))?;
        }
        Valued::Folders => {
            set_switch(given, folders_in(argument), Wrong::UnknownFolders(argument))?;
        }
        Valued::Devices => {
            set_switch(given, devices_in(argument), Wrong::UnknownDevices(argument))?;
        }
        Valued::BinaryFiles => {
            set_switch(given, binary_in(argument), Wrong::UnknownBinary(argument))?;
        }
        Valued::RuleFile => add_rule_file(given, argument)?,
        _ => {
            let number = read_number(valued, argument)?;
            given.flags = given.flags.numbered(valued, number);
        }
    }
    Ok(Awaited::Fresh)
}

/// Takes an argument for the format of matches.
fn set_format<'a>(given: &mut Given<'a>, argument: &'a [u8]) -> Result<(), Refusal<'a>>
    ensures set { OnOk result (with_format argument.now (said given.old) ≡ Some (said given.new)) }
    ensures refused { FailsBy (with_format argument.now (said given.old)) result }
    ensures wrong { TellsBy (format_parts argument.now) result }
{
    read_format(argument, &mut given.format)?;
    given.flags.formatted = true;
    Ok(())
}

/// Turns on what an argument names, if it names something. Else it is wrong, for this reason.
fn set_switch<'a>(
    given: &mut Given<'a>,
    named: Option<Switch>,
    wrong: Wrong<'a>,
) -> Result<(), Refusal<'a>>
    ensures set { OnOk result (with_switch named (said given.old) ≡ Some (said given.new)) }
    ensures refused { FailsBy (with_switch named (said given.old)) result }
    ensures wrong { TellsBy (wrong_parts wrong.entry) result }
{
    match named {
        Some(switch) => given.flags = given.flags.switched(switch),
        None => return Err(Refusal::Wrong(wrong)),
    }
    Ok(())
}

/// The match kind that an argument names.
fn read_kind(argument: &[u8]) -> Result<MatchKind, Refusal<'_>>
    ensures read { IfOk result (λ kind. kind_by argument.now ≡ Some kind) }
    ensures refused { FailsBy (kind_by argument.now) result }
    ensures wrong { TellsBy (kind_parts argument.now) result }
{
    if argument == STANDARD {
        Ok(MatchKind::Standard)
    } else if argument == FIRST || argument == LEFTMOST_FIRST {
        Ok(MatchKind::LeftmostFirst)
    } else if argument == LONGEST || argument == LEFTMOST_LONGEST {
        Ok(MatchKind::LeftmostLongest)
    } else {
        Err(Refusal::Wrong(Wrong::UnknownKind(argument)))
    }
}

/// The number that the argument of this option is.
fn read_number(valued: Valued, argument: &[u8]) -> Result<u64, Refusal<'_>>
    ensures read { IfOk result (λ number. number_by argument.now ≡ Some number) }
    ensures refused { FailsBy (number_by argument.now) result }
    ensures wrong { TellsBy (number_parts (valued_name valued) argument.now) result }
{
    match number_in(argument) {
        Some(number) => Ok(number),
        None => Err(Refusal::Wrong(Wrong::NoNumber(valued, argument))),
    }
}

/// The number that bytes write, if they are digits.
pub fn number_in(bytes: &[u8]) -> Option<u64>
    ensures number { result ≡ number_by bytes.now }
{
    match str::from_utf8(bytes) {
        Ok(digits) => number_of(digits),
        Err(_) => None,
    }
}

/// The number that digits write, if there are digits alone, at least one, and it is below 2^64.
fn number_of(digits: &str) -> Option<u64>
    ensures number { result ≡ number_by digits.now }
{
    // A plus is no digit, but `parse` takes one.
    if digits.starts_with('+') {
        return None;
    }
    match digits.parse::<u64>() {
        Ok(number) => Some(number),
        Err(_) => None,
    }
}

/// Reads joined letters. Those of options with an argument take what stands behind them, and digits are a number of lines.
fn read_letters<'a>(given: &mut Given<'a>, letters: &'a [u8]) -> Result<Awaited, Refusal<'a>>
    ensures read { ReadsBy (letters_by letters.now) given.old given.new result }
    ensures refused { FailsBy (letters_by letters.now (said given.old)) result }
    ensures wrong { TellsBy (wrong_letters letters.now) result }
{
    // The digits that stand before `rest`, and what is left from the first of them on.
    let mut digits: &'a [u8] = b"";
    let mut from = letters;
    let mut rest = letters;
    while let Some((letter, behind)) = rest.split_first() {
        rest = behind;
        if letter.is_ascii_digit() {
            digits = &from[..from.len() - behind.len()];
            continue;
        }
        if let Err(refusal) = read_digits(given, digits) {
            return Err(refusal);
        }
        digits = b"";
        from = behind;
        if *letter == b'e' || *letter == b'f' {
            return take_source(given, *letter == b'f', behind);
        }
        if let Some(valued) = valued_letter(*letter) {
            return take_value(given, valued, behind);
        }
        match switch_of(*letter) {
            Some(switch) => given.flags = given.flags.switched(switch),
            None => return Err(Refusal::Wrong(Wrong::UnknownLetter(*letter))),
        }
    }
    match read_digits(given, digits) {
        Ok(()) => Ok(Awaited::Fresh),
        Err(refusal) => Err(refusal),
    }
}

/// Takes digits among joined letters for a number of lines, if there are some.
fn read_digits<'a>(given: &mut Given<'a>, digits: &'a [u8]) -> Result<(), Refusal<'a>>
    ensures read { OnOk result (with_digits digits.now (said given.old) ≡ Some (said given.new)) }
    ensures right { OnOk result ((others : List (List ℕ))
        → if_none (digits_value_of digits.now) (wrong_digits digits.now) others ≡ others) }
    ensures refused { FailsBy (with_digits digits.now (said given.old)) result }
    ensures none { FailsBy (digits_value_of digits.now) result }
    ensures wrong { TellsBy (wrong_digits digits.now) result }
{
    let Some(_) = digits.split_first() else {
        return Ok(());
    };
    match read_number(Valued::Around, digits) {
        Ok(number) => {
            given.flags.context = Some(number);
            Ok(())
        }
        Err(refusal) => Err(refusal),
    }
}

/// Takes what stands behind `-e`, or behind `-f`, for its argument, if it is not empty.
fn take_source<'a>(
    given: &mut Given<'a>,
    is_file: bool,
    behind: &'a [u8],
) -> Result<Awaited, Refusal<'a>>
    ensures read { IfOk result (λ awaited.
        taken_by is_file behind.now (said given.old) ≡ so_far awaited given.new) }
    ensures memory { IfErr result (λ refusal. refusal ≡ Refusal.OutOfMemory) }
{
    if behind.is_empty() {
        return Ok(Awaited::Argument(source_option(is_file)));
    }
    add_source(given, is_file, behind)?;
    Ok(Awaited::Fresh)
}

/// The option of a letter that takes an argument, but for those that give patterns.
fn valued_letter(letter: u8) -> Option<Valued>
    ensures option { result ≡ valued_letter letter }
{
    match letter {
        b'm' => Some(Valued::MaxCount),
        b'A' => Some(Valued::After),
        b'B' => Some(Valued::Before),
        b'C' => Some(Valued::Around),
        b'd' => Some(Valued::Folders),
        b'D' => Some(Valued::Devices),
        _ => None,
    }
}

/// Takes what stands behind such a letter for its argument, if it is not empty.
fn take_value<'a>(
    given: &mut Given<'a>,
    valued: Valued,
    behind: &'a [u8],
) -> Result<Awaited, Refusal<'a>>
    ensures read { ReadsBy (behind_by valued behind.now) given.old given.new result }
    ensures refused { FailsBy (behind_by valued behind.now (said given.old)) result }
    ensures wrong { TellsBy (wrong_behind valued behind.now) result }
{
    if behind.is_empty() {
        return Ok(Awaited::Argument(valued));
    }
    read_value(given, valued, behind)
}

/// The option that gives a file of patterns, or patterns.
fn source_option(is_file: bool) -> Valued
    ensures option { result ≡ source_option is_file }
{
    if is_file {
        Valued::PatternFile
    } else {
        Valued::Regexp
    }
}

/// Adds the patterns that `-e` or `-f` gives.
fn add_source<'a>(
    given: &mut Given<'a>,
    is_file: bool,
    argument: &'a [u8],
) -> Result<(), AllocError>
    ensures added { SaysMore (with_source is_file argument.now) given.old given.new result }
{
    let source = if is_file {
        Source::File(argument)
    } else {
        Source::Text(argument)
    };
    given.sources.push(source)?;
    Ok(())
}

/// Adds a rule of which files are searched.
fn add_rule<'a>(given: &mut Given<'a>, sense: Sense, glob: &'a [u8]) -> Result<(), AllocError>
    ensures added { SaysMore (with_rule sense glob.now) given.old given.new result }
{
    given.rules.push(Rule { sense, glob })?;
    Ok(())
}

/// Adds a file of rules that mark lines.
fn add_rule_file<'a>(given: &mut Given<'a>, argument: &'a [u8]) -> Result<(), AllocError>
    ensures added { SaysMore (with_rule_file argument.now) given.old given.new result }
{
    given.rule_files.push(argument)?;
    given.flags.by_rules = true;
    Ok(())
}

/// Adds what is no option.
fn add_operand<'a>(given: &mut Given<'a>, argument: &'a [u8]) -> Result<(), AllocError>
    ensures added { SaysMore (with_operand argument.now) given.old given.new result }
{
    given.operands.push(argument)?;
    Ok(())
}
