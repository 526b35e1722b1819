//! Arguments that are not UTF-8. Those that name files are set apart and told, and the others are wrong.

ghost use Rattle.std.specs.Prelude.{◌≡◌, ◌⊎◌, ℕ, List, IfErr, IfOk, OnErr, string_bytes};
ghost use Rattle.tool_parts.specs.Arguments.{texts};
ghost use Rattle.tool_parts.specs.Telling.{TellsBytes};
ghost use Rattle.tool_parts.specs.declared.failure.Failure.TheVariants.{OutOfMemory, Usage};
ghost use Rattle.acredact.specs.Apart.{IsSetApart, IsNotApart, IsToldOf, Puts, names_file, next_behind, status_behind, told_by, told_lines, unnamed_lines};
ghost use Rattle.acredact.specs.Reads.{bytes_of_names};
ghost use Rattle.acredact.specs.Arguments.{all_given};
ghost use Rattle.acredact.specs.Calls.{IsWrongFailure};
ghost use Rattle.acredact.specs.declared.arguments.Expects.TheVariants.{Any};

use crate::arguments::{Expects, items, read};
use crate::failure::{FAILED, Failure, PROGRAM};
use crate::mistakes::Mistake;
use crate::options::{Item, Word, gives_pattern, gives_rules, has};
use chromesquid::Sink;
use rule_files::tell_shown;
use std::alloc::{Alloc, AllocError, Global};
use std::env::{Env, FillError};
use tool_parts::errors::Errors;
use tool_parts::failure;
use tool_parts::options::argument::{Argument, argument_of};

/// How long an argument may be at first.
const FIRST_LENGTH: usize = 4096;

/// What is told of a file whose name is not UTF-8.
const NO_TEXT: &[u8] = b"its name is not UTF-8, so it cannot be opened";

/// The arguments of a call.
#[derive(Drop)]
pub struct Apart {
    /// Those that are UTF-8, in order.
    pub arguments: Vec<String>,
    /// The names of files that are not, in order.
    pub names: Vec<Vec<u8>>,
}

/// What was told of the files whose names are not UTF-8, and what is left to do.
#[derive(Clone, Copy)]
pub enum Told {
    /// Nothing: there is none, or the call reads no file. All is left to do.
    Nothing,
    /// Each: what the other arguments ask for is left to do, and the status is 2.
    Each,
    /// Each, and nothing is left to do: no other file is given, or all files have one output, which is not to be replaced then.
    EachAlone,
}

/// The arguments after the program's name, in order, but for the names of files that are not UTF-8.
///
/// # Errors
///
/// `OutOfMemory` where memory runs out, and `Usage` where another argument is not UTF-8.
pub fn arguments<R: Env + Alloc<A = Global>>(rt: &R) -> Result<Apart, failure::Failure>
    ensures set { IfOk result (λ apart. (given : List (List ℕ)) × IsSetApart Any given apart) }
    ensures fails { IfErr result (λ e. (e ≡ OutOfMemory) ⊎ (e ≡ Usage)) }
{
    let Ok(given) = given(rt) else {
        return Err(failure::Failure::OutOfMemory);
    };
    set_apart(rt.alloc(), given.as_slice())
}

/// The arguments after the program's name, in order.
fn given<R: Env + Alloc<A = Global>>(rt: &R) -> Result<Vec<Vec<u8>>, AllocError> {
    let mut arguments = Vec::new(rt.alloc());
    let mut buffer = Vec::new(rt.alloc());
    buffer.resize(FIRST_LENGTH, 0)?;
    for number in 1..usize::MAX {
        if !push_argument(rt, number, &mut buffer, &mut arguments)? {
            return Ok(arguments);
        }
    }
    Ok(arguments)
}

/// Adds the argument of a number, and answers whether there is one. It is put into a buffer first, which grows.
fn push_argument<R: Env + Alloc<A = Global>>(
    rt: &R,
    number: usize,
    buffer: &mut Vec<u8>,
    arguments: &mut Vec<Vec<u8>>,
) -> Result<bool, AllocError> {
    for _ in 0..u64::MAX {
        match rt.arg(number, buffer.as_mut_slice()) {
            Ok(length) => {
                arguments.push(Vec::from_slice(rt.alloc(), &buffer[..length])?)?;
                return Ok(true);
            }
            Err(FillError::NotPresent) => return Ok(false),
            Err(FillError::TooLong) => {
                let longer = buffer.len().saturating_mul(2);
                buffer.resize(longer, 0)?;
            }
        }
    }
    Ok(false)
}

/// Sets the names of files that are not UTF-8 apart.
///
/// # Errors
///
/// As `arguments`.
fn set_apart(alloc: Global, given: &[Vec<u8>]) -> Result<Apart, failure::Failure>
    ensures set { IfOk result (IsSetApart Any (bytes_of_names given.now)) }
    ensures wrong { IfErr result (IsNotApart (bytes_of_names given.now)) }
{
    let mut apart = Apart {
        arguments: Vec::new(alloc),
        names: Vec::new(alloc),
    };
    let mut expects = Expects::Any;
    let mut rest = given;
    while let Some((argument, behind)) = rest.split_first() {
        match put(alloc, &mut apart, expects, argument.as_slice())? {
            Some(next) => expects = next,
            None => return Err(failure::Failure::Usage),
        }
        rest = behind;
    }
    Ok(apart)
}

/// Adds an argument, where this is expected, and answers what is expected of the next: nothing where this one is not UTF-8 and names
/// no file.
fn put(
    alloc: Global,
    apart: &mut Apart,
    expects: Expects,
    argument: &[u8],
) -> Result<Option<Expects>, AllocError>
    ensures puts { Puts expects argument.now result apart.old apart.new }
{
    match str::from_utf8(argument) {
        Ok(text) => {
            let text = String::from_str(alloc, text)?;
            let next = expected_behind(alloc, expects, &text)?;
            apart.arguments.push(text)?;
            Ok(Some(next))
        }
        Err(_) => {
            if !is_name(expects, argument) {
                return Ok(None);
            }
            apart.names.push(Vec::from_slice(alloc, argument)?)?;
            Ok(Some(expects))
        }
    }
}

/// What is expected of the argument behind this one. Behind one that is wrong it does not matter: such a call is refused.
fn expected_behind(
    alloc: Global,
    expects: Expects,
    argument: &String,
) -> Result<Expects, AllocError>
    ensures next { IfOk result (λ next. next ≡ next_behind expects (string_bytes argument.now)) }
{
    let mut items = Vec::new(alloc);
    match read(&mut items, expects, argument) {
        Ok(next) => Ok(next),
        Err(Mistake::OutOfMemory) => Err(AllocError),
        Err(_) => Ok(Expects::Any),
    }
}

/// Whether an argument that is not UTF-8 names a file: no option takes it for its value, and it begins as one only behind `--`.
fn is_name(expects: Expects, argument: &[u8]) -> bool
    ensures name { result ≡ names_file expects argument.now }
{
    match expects {
        Expects::Any => matches!(argument_of(argument), Argument::Plain),
        Expects::Value(_) => false,
        Expects::Name => true,
    }
}

/// Tells each file whose name is not UTF-8, where files are read, and answers what is left to do.
///
/// # Errors
///
/// As `items`: the other arguments are wrong, or memory runs out. Then nothing is told.
pub fn tell_apart<'a, E: Sink>(
    alloc: Global,
    apart: &'a Apart,
    errors: &mut Errors<'_, E>,
) -> Result<Told, Failure<'a>>
    ensures which { IfOk result (IsToldOf apart.now) }
    ensures told { IfOk result (λ told. TellsBytes E.Sink errors.old errors.new
        (told_lines told (bytes_of_names apart.now.names.items))) }
    ensures wrong { IfErr result (IsWrongFailure (texts apart.now.arguments.items)) }
    ensures untold { OnErr result (errors.new ≡ errors.old) }
{
    match items(alloc, apart.arguments.as_slice()) {
        Ok(given) => {
            let names = apart.names.as_slice();
            let told = told_by(given.as_slice(), names.is_empty());
            tell_names_by(errors, told, names);
            Ok(told)
        }
        Err(mistake) => Err(Failure::Arguments(mistake)),
    }
}

/// What is to be told of the files whose names are not UTF-8, by what else is given.
fn told_by(given: &[Item<'_>], none: bool) -> Told
    ensures told { result ≡ told_by (all_given given.now) none }
{
    let seeks = gives_pattern(given) || gives_rules(given);
    if none || has(given, Word::Help) || has(given, Word::Version) || !seeks {
        return Told::Nothing;
    }
    if has(given, Word::Output) || !has(given, Word::File) {
        return Told::EachAlone;
    }
    Told::Each
}

/// Tells each of these files, where that is to be done.
fn tell_names_by<E: Sink>(errors: &mut Errors<'_, E>, told: Told, names: &[Vec<u8>])
    ensures told { TellsBytes E.Sink errors.old errors.new (told_lines told (bytes_of_names names.now)) }
{
    match told {
        Told::Nothing => errors.write(&[]),
        Told::Each | Told::EachAlone => tell_names(errors, names),
    }
}

/// Tells each of these files.
fn tell_names<E: Sink>(errors: &mut Errors<'_, E>, names: &[Vec<u8>])
    ensures told { TellsBytes E.Sink errors.old errors.new (unnamed_lines (bytes_of_names names.now)) }
{
    for name in names {
        tell_shown(errors, PROGRAM, name.as_slice(), None, NO_TEXT);
    }
}

/// The status of a call of which this was told, and whose rest ends with that one.
pub fn status_behind(told: Told, status: u8) -> u8
    ensures status { result ≡ status_behind told status }
    ensures zero { result ≡ 0 → status ≡ 0 }
    ensures one { result ≡ 1 → status ≡ 1 }
    ensures two { status ≡ 2 → result ≡ 2 }
{
    match told {
        Told::Nothing => status,
        Told::Each | Told::EachAlone => FAILED,
    }
}
