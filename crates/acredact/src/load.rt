//! The rules of all patterns, files and tables that are given.

ghost use Rattle.std.specs.Prelude.{◌≡◌, IfErr, IfOk, OnOk};
ghost use Rattle.aho_core.specs.Replacement.{pieces_of};
ghost use Rattle.aho_devices.specs.Counts.{counted};
ghost use Rattle.tool_parts.specs.Streams.{bytes_left};
ghost use Rattle.acredact.specs.Arguments.{all_given, given_of, last_value};
ghost use Rattle.acredact.specs.Calls.{AreGivenBy, CannotGiveBy, rules_asked};
ghost use Rattle.acredact.specs.Loading.{CannotLoad, CannotLoadKey, CannotRead, GivesEnvironment, GivesSecrets, GivesValues, HoldsByKind, HoldsSecrets, HoldsVariables, IsEnvironmentFailure, IsFileFailure, IsKeyGiven, IsKindFailure, IsValuesFailure, IsVariablesFailure, IsPatternFailure, IsTextFailure, IsTextReason, OptionGives, is_failed_text, key_in, reading_of_lists, rules_for};
ghost use Rattle.acredact.specs.Parts.{AddsSome, ArePartsBy, GivesPattern};
ghost use Rattle.acredact.specs.Reads.{OfName, ReadsText};
ghost use Rattle.acredact.specs.Values.{GivesValue};
ghost use Rattle.acredact.specs.declared.options.Word.TheVariants.{Pseudonym};
ghost use Rattle.acredact.specs.declared.failure.Failure.TheVariants.{Pattern};
ghost use Rattle.acredact.specs.declared.patterns.LineFault.TheVariants.{OutOfMemory};

use crate::failure::Failure;
use crate::files::{is_input, opened};
use crate::folder::Folder;
use crate::forms::add_forms;
use crate::options::{Item, Word, covers, has, last_value};
use crate::parts::add_parts;
use crate::patterns::{BadLine, Form, LineFault, Place, add_line, add_lines, mark_of};
use crate::rule::Rule;
use crate::values::{
    are_refused, first_fault, is_some_value, values_in_text, values_of_entries, whole_in,
};
use chromesquid::{FromRead, Source};
use std::alloc::Global;
use std::io::Read;
use tool_parts::failure;
use tool_parts::reason::Reason;

/// How many bytes of a list are read at once.
const PIECE: usize = 16 * 1024;

/// How many bytes a key has at least.
const LEAST_KEY: usize = 16;

/// What a file is that gives patterns.
#[derive(Clone, Copy)]
pub enum Listed {
    /// A file of patterns.
    Plain,
    /// A table.
    Rows,
    /// A file of variables.
    Variables,
    /// A file that is one pattern.
    Whole,
}

/// How files of patterns and tables are read.
#[derive(Clone, Copy)]
pub struct Lists<'f, 'v, F> {
    /// What memory is taken from.
    pub alloc: Global,
    /// What opens files.
    pub folder: &'f F,
    /// Whether a carriage return at the end of a line is left out.
    pub crlf: bool,
    /// Whether a file may be empty, and a value.
    pub allow_empty: bool,
    /// Whether long lines of a pattern that has line ends are patterns too.
    pub parts: bool,
    /// Which forms of patterns are patterns too, by the names that are given.
    pub forms: Option<&'v str>,
}

/// How the files of patterns and tables are read that are given.
pub fn lists_of<'f, 'v, F>(alloc: Global, given: &[Item<'v>], folder: &'f F) -> Lists<'f, 'v, F>
    ensures folder { result.folder.now ≡ folder.now }
    ensures rules { rules_for result ≡ rules_asked (all_given given.now) }
{
    Lists {
        alloc,
        folder,
        crlf: has(given, Word::Crlf),
        allow_empty: has(given, Word::AllowEmpty),
        parts: covers(given),
        forms: last_value(given, Word::Forms),
    }
}

/// The rules of all patterns, files of patterns and tables that are given, in order, and then of their forms.
///
/// # Errors
///
/// The first pattern, file or line that gives no rule, with the reason; or memory runs out.
pub fn rules<'a, F: Folder, I: Read>(
    alloc: Global,
    given: &[Item<'a>],
    folder: &F,
    input: &mut FromRead<I>,
) -> Result<Vec<Rule>, Failure<'a>>
    ensures given { IfOk result (AreGivenBy F.Folder folder.now given.now (bytes_left input.old) (bytes_left input.new)) }
    ensures fails { IfErr result (CannotGiveBy F.Folder folder.now given.now) }
{
    let lists = lists_of(alloc, given, folder);
    let mut rules = Vec::new(alloc);
    for (number, item) in given.iter().enumerate() {
        // Not by `?`: this error holds names.
        match add_item(&lists, &mut rules, *item, number, input) {
            Ok(()) => {}
            Err(failure) => return Err(failure),
        }
    }
    add_forms(alloc, &mut rules, lists.forms)?;
    Ok(rules)
}

/// The key of pseudonyms, where these are asked for: all bytes of its file.
///
/// # Errors
///
/// Its file cannot be read, or is empty.
pub fn key_of<'a, F: Folder, I: Read>(
    lists: &Lists<'_, '_, F>,
    items: &[Item<'a>],
    input: &mut FromRead<I>,
) -> Result<Option<Vec<u8>>, Failure<'a>>
    ensures key { IfOk result (λ key.
        IsKeyGiven (reading_of_lists F.Folder lists.now) (last_value Pseudonym (all_given items.now))
        (key_in key) (bytes_left input.old) (bytes_left input.new)) }
    ensures fails { IfErr result (CannotLoadKey (reading_of_lists F.Folder lists.now) (all_given items.now)) }
{
    let name = match last_value(items, Word::Pseudonym) {
        Some(name) => name,
        None => return Ok(None),
    };
    match read_list(lists, name, input) {
        Ok(key) => {
            if key.len() < LEAST_KEY {
                return Err(Failure::ShortKey(name));
            }
            Ok(Some(key))
        }
        Err(reason) => Err(Failure::Unread(name, reason)),
    }
}

/// Adds the rules of an item, if it has any.
fn add_item<'a, F: Folder, I: Read>(
    lists: &Lists<'_, '_, F>,
    rules: &mut Vec<Rule>,
    item: Item<'a>,
    number: usize,
    input: &mut FromRead<I>,
) -> Result<(), Failure<'a>>
    ensures added { OnOk result (AddsSome (λ more. OptionGives (reading_of_lists F.Folder lists.now)
        (given_of item.entry).word (given_of item.entry).value more (bytes_left input.old) (bytes_left input.new))
        rules.old rules.new) }
    ensures fails { IfErr result (CannotLoad (reading_of_lists F.Folder lists.now) (given_of item.entry)) }
{
    let name = item.value;
    match item.word {
        Word::Pattern => add_pattern(lists, rules, name.as_bytes(), number),
        Word::Env => add_environment(lists, rules, name, number),
        Word::Patterns => add_file(lists, rules, name, Listed::Plain, number, input),
        Word::Table => add_file(lists, rules, name, Listed::Rows, number, input),
        Word::EnvFile => add_file(lists, rules, name, Listed::Variables, number, input),
        Word::Whole => add_file(lists, rules, name, Listed::Whole, number, input),
        _ => Ok(()),
    }
}

/// Adds the rules of the values of variables of the environment.
fn add_environment<'a, F: Folder>(
    lists: &Lists<'_, '_, F>,
    rules: &mut Vec<Rule>,
    name: &'a str,
    list: usize,
) -> Result<(), Failure<'a>>
    ensures added { OnOk result (AddsSome
        (GivesEnvironment (reading_of_lists F.Folder lists.now) name.now) rules.old rules.new) }
    ensures fails { IfErr result (IsEnvironmentFailure (reading_of_lists F.Folder lists.now) name.now) }
{
    let entries = lists.folder.entries(lists.alloc)?;
    let entries = entries.as_slice();
    let values = values_of_entries(lists.alloc, entries, name.as_bytes())?;
    let values = values.as_slice();
    if are_refused(lists.allow_empty, values) && is_some_value(entries, name.as_bytes()) {
        return Err(Failure::ValueForName);
    }
    add_values(lists, rules, name, values, list)
}

/// Adds the rules of some values, of what has this name; or refuses them, where there is none, or an empty one.
fn add_values<'a, F>(
    lists: &Lists<'_, '_, F>,
    rules: &mut Vec<Rule>,
    name: &'a str,
    values: &[&[u8]],
    list: usize,
) -> Result<(), Failure<'a>>
    ensures added { OnOk result (AddsSome
        (GivesValues (rules_for lists.now) (pieces_of values.now)) rules.old rules.new) }
    ensures fails { IfErr result (IsValuesFailure (rules_for lists.now) name.now (pieces_of values.now)) }
{
    if are_refused(lists.allow_empty, values) {
        return Err(Failure::NoValue(name));
    }
    for value in values {
        match add_value(lists, rules, value, list) {
            Ok(()) => {}
            Err(_) => return Err(Failure::Other(failure::Failure::OutOfMemory)),
        }
    }
    Ok(())
}

/// Adds the rule of a value, if that is not empty.
fn add_value<F>(
    lists: &Lists<'_, '_, F>,
    rules: &mut Vec<Rule>,
    value: &[u8],
    list: usize,
) -> Result<(), LineFault>
    ensures added { OnOk result (AddsSome (GivesValue lists.now.parts value.now) rules.old rules.new) }
{
    if value.is_empty() {
        return Ok(());
    }
    match add_pattern(lists, rules, value, list) {
        Ok(()) => Ok(()),
        Err(_) => Err(LineFault::OutOfMemory),
    }
}

/// Adds the rule of a pattern that stands in no list.
fn add_pattern<'a, F>(
    lists: &Lists<'_, '_, F>,
    rules: &mut Vec<Rule>,
    pattern: &[u8],
    list: usize,
) -> Result<(), Failure<'a>>
    ensures added { OnOk result (AddsSome (GivesPattern lists.now.parts pattern.now) rules.old rules.new) }
    ensures fails { IfErr result (IsPatternFailure pattern.now) }
{
    match add_line(lists.alloc, rules, pattern, false, Place { list, line: 0 }) {
        Ok(()) => add_parts_of(lists, rules, pattern, list),
        Err(fault) => Err(Failure::Pattern(fault)),
    }
}

/// Adds the lines of a pattern that has line ends, where these are patterns too.
fn add_parts_of<'a, F>(
    lists: &Lists<'_, '_, F>,
    rules: &mut Vec<Rule>,
    pattern: &[u8],
    list: usize,
) -> Result<(), Failure<'a>>
    ensures added { OnOk result (AddsSome (ArePartsBy lists.now.parts list pattern.now) rules.old rules.new) }
    ensures fails { IfErr result (λ failure. failure ≡ Pattern OutOfMemory) }
{
    if !lists.parts {
        return Ok(());
    }
    match add_parts(lists.alloc, rules, pattern, list) {
        Ok(()) => Ok(()),
        Err(_) => Err(Failure::Pattern(LineFault::OutOfMemory)),
    }
}

/// Adds the rules of a file.
fn add_file<'a, F: Folder, I: Read>(
    lists: &Lists<'_, '_, F>,
    rules: &mut Vec<Rule>,
    name: &'a str,
    listed: Listed,
    list: usize,
    input: &mut FromRead<I>,
) -> Result<(), Failure<'a>>
    ensures added { OnOk result (AddsSome (λ more. GivesSecrets (reading_of_lists F.Folder lists.now)
        listed name.now more (bytes_left input.old) (bytes_left input.new)) rules.old rules.new) }
    ensures fails { IfErr result (IsFileFailure (reading_of_lists F.Folder lists.now) listed name.now) }
{
    let text = match read_list(lists, name, input) {
        Ok(text) => text,
        Err(reason) => return Err(Failure::Unread(name, reason)),
    };
    let text = text.as_slice();
    match mark_of(text) {
        Some(fault) => Err(Failure::Line(name, BadLine { number: 1, fault })),
        None => add_text(lists, rules, name, listed, list, text),
    }
}

/// Adds the rules of the text of a file.
fn add_text<'a, F>(
    lists: &Lists<'_, '_, F>,
    rules: &mut Vec<Rule>,
    name: &'a str,
    listed: Listed,
    list: usize,
    text: &[u8],
) -> Result<(), Failure<'a>>
    ensures added { OnOk result (AddsSome (HoldsByKind (rules_for lists.now) listed text.now)
        rules.old rules.new) }
    ensures fails { IfErr result (IsKindFailure (rules_for lists.now) listed name.now text.now) }
{
    match listed {
        Listed::Plain => add_lines_of(lists, rules, name, false, list, text),
        Listed::Rows => add_lines_of(lists, rules, name, true, list, text),
        Listed::Variables => add_variables(lists, rules, name, list, text),
        Listed::Whole => {
            let form = Form {
                table: false,
                crlf: lists.crlf,
            };
            add_values(lists, rules, name, &[whole_in(form, text)], list)
        }
    }
}

/// Adds the rules of the text of a file of variables.
fn add_variables<'a, F>(
    lists: &Lists<'_, '_, F>,
    rules: &mut Vec<Rule>,
    name: &'a str,
    list: usize,
    text: &[u8],
) -> Result<(), Failure<'a>>
    ensures added { OnOk result (AddsSome (HoldsVariables (rules_for lists.now) text.now) rules.old rules.new) }
    ensures fails { IfErr result (IsVariablesFailure (rules_for lists.now) name.now text.now) }
{
    let form = Form {
        table: false,
        crlf: lists.crlf,
    };
    match first_fault(lists.allow_empty, form, text) {
        Some(line) => return Err(Failure::Line(name, line)),
        None => {}
    }
    let values = values_in_text(lists.alloc, form, text)?;
    add_values(lists, rules, name, values.as_slice(), list)
}

/// Adds the rules of the text of a file that has one in each line.
fn add_lines_of<'a, F>(
    lists: &Lists<'_, '_, F>,
    rules: &mut Vec<Rule>,
    name: &'a str,
    table: bool,
    list: usize,
    text: &[u8],
) -> Result<(), Failure<'a>>
    ensures added { OnOk result (AddsSome (HoldsSecrets (rules_for lists.now) table text.now) rules.old rules.new) }
    ensures fails { IfErr result (IsTextFailure (rules_for lists.now) table name.now text.now) }
{
    if text.is_empty() && !lists.allow_empty {
        return Err(Failure::Empty(name));
    }
    let form = Form {
        table,
        crlf: lists.crlf,
    };
    match add_lines(lists.alloc, rules, text, form, list) {
        Ok(()) => Ok(()),
        Err(line) => Err(Failure::Line(name, line)),
    }
}

/// All bytes of a file, or of the input.
pub fn read_list<F: Folder, I: Read>(
    lists: &Lists<'_, '_, F>,
    name: &str,
    input: &mut FromRead<I>,
) -> Result<Vec<u8>, Reason>
    ensures text { IfOk result (λ text.
        OfName (F.holds lists.now.folder.now) name.now (ReadsText text.items)
        (bytes_left input.old) (bytes_left input.new)) }
    ensures fails { IfErr result (CannotRead (reading_of_lists F.Folder lists.now) name.now) }
{
    if is_input(name) {
        return read_whole(lists.alloc, input);
    }
    match opened(lists.folder, name) {
        Ok(source) => {
            let mut source = source;
            read_whole(lists.alloc, &mut source)
        }
        Err(reason) => Err(reason),
    }
}

/// All bytes that the input gives. A failed read is not tried again.
fn read_whole<I: Read>(alloc: Global, input: &mut FromRead<I>) -> Result<Vec<u8>, Reason>
    ensures text { IfOk result (λ text.
        ReadsText text.items (bytes_left input.old) (bytes_left input.new)) }
    ensures fails { IfErr result IsTextReason }
    // A read fault is answered exactly where a read failed.
    ensures failed { input.new.failures ≡ counted (is_failed_text result) input.old.failures }
{
    input.restart();
    let mut text = Vec::new(alloc);
    let mut piece = [0; PIECE];
    loop {
        match input.read(&mut piece) {
            Ok(0) => return Ok(text),
            Ok(count) => {
                let Ok(()) = text.extend_from_slice(&piece[..count]) else {
                    return Err(Reason::OutOfMemory);
                };
            }
            Err(_) => return Err(Reason::ReadFault),
        }
    }
}
