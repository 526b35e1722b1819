//! Reading the rules by which lines are marked.

ghost use Rattle.std.specs.Prelude.{◌≡◌, IfSome, IsNone, IsSome, OnOk, false, true};
ghost use Rattle.tool_parts.specs.Telling.{TellsSome};
ghost use Rattle.acgrep.specs.ToldByRules.{IsMarkTold};
ghost use Rattle.tool_parts.specs.Names.{name_bytes};
ghost use Rattle.secret_rules.specs.Rules.{AreSound};
ghost use Rattle.secret_rules.specs.Tables.{TellsRules};
ghost use Rattle.acgrep.specs.Gathered.{AddsGiven};
ghost use Rattle.acgrep.specs.RunsByRules.{AreAllRules, AreNamedRules};

use crate::arguments::Source;
use crate::keys::{read_text, tell_source};
use crate::open::Open;
use crate::tell::{PROGRAM, tell_memory};
use chromesquid::{BuildError, Sink};
use rule_files::{TextFault, rules_in, tell_fault};
use secret_rules::{BUILTIN, Rule, Rules, RulesError};
use std::alloc::Global;
use std::io::Read;
use tool_parts::errors::Errors;

/// The name that stands for the rules of the program.
const OWN: &[u8] = b"builtin";

/// What stands for a file in messages about all rules.
const ALL: &[u8] = b"--rules";

/// The rules of all files, in order. There is none where one cannot be read, or gives no rules, which is told.
pub fn read_rules<F: Open, R: Read, E: Sink>(
    alloc: Global,
    names: &[&[u8]],
    files: &F,
    input: &mut R,
    errors: &mut Errors<'_, E>,
) -> Option<Rules>
    ensures rules { IfSome result (AreAllRules (F.holds files.now) (name_bytes names.now)
        (R.remaining input.old) (R.remaining input.new)) }
    ensures sound { IfSome result AreSound }
    ensures silent { IsSome result → errors.new ≡ errors.old }
    ensures told { IsNone result → TellsSome E.Sink IsMarkTold errors.old errors.new }
{
    let mut rules = Vec::new(alloc);
    for name in names {
        if !add_rules(alloc, &mut rules, *name, files, input, errors) {
            return None;
        }
    }
    match Rules::new(alloc, rules) {
        Ok(rules) => Some(rules),
        Err(error) => {
            tell_refused(&error, errors);
            None
        }
    }
}

/// Adds the rules of a file, or those of the program, and answers whether there are some. Where there are none that is told.
fn add_rules<F: Open, R: Read, E: Sink>(
    alloc: Global,
    rules: &mut Vec<Rule>,
    name: &[u8],
    files: &F,
    input: &mut R,
    errors: &mut Errors<'_, E>,
) -> bool
    ensures added { result ≡ true → AddsGiven (AreNamedRules (F.holds files.now) name.now
        (R.remaining input.old) (R.remaining input.new)) rules.old.items rules.new.items }
    ensures silent { result ≡ true → errors.new ≡ errors.old }
    ensures told { result ≡ false → TellsSome E.Sink IsMarkTold errors.old errors.new }
{
    if name == OWN {
        return add_text(alloc, rules, name, BUILTIN.as_bytes(), errors);
    }
    let mut text = Vec::new(alloc);
    match read_text(&mut text, name, files, input) {
        Ok(()) => add_text(alloc, rules, name, text.as_slice(), errors),
        Err(error) => {
            tell_source(Source::File(name), &error, errors);
            false
        }
    }
}

/// Adds the rules of the text of a file, and answers whether there are some. Where there are none that is told.
fn add_text<E: Sink>(
    alloc: Global,
    rules: &mut Vec<Rule>,
    name: &[u8],
    text: &[u8],
    errors: &mut Errors<'_, E>,
) -> bool
    ensures added { result ≡ true → AddsGiven (TellsRules text.now) rules.old.items rules.new.items }
    ensures silent { result ≡ true → errors.new ≡ errors.old }
    ensures told { result ≡ false → TellsSome E.Sink IsMarkTold errors.old errors.new }
{
    match more_rules(alloc, rules, text) {
        Ok(()) => true,
        Err(fault) => {
            tell_fault(errors, PROGRAM, name, &fault);
            false
        }
    }
}

/// Adds the rules of a text.
fn more_rules(alloc: Global, rules: &mut Vec<Rule>, text: &[u8]) -> Result<(), TextFault>
    ensures added { OnOk result (AddsGiven (TellsRules text.now) rules.old.items rules.new.items) }
{
    let mut more = rules_in(alloc, text, false)?;
    rules.append(&mut more)?;
    Ok(())
}

/// Tells why all rules together are refused: each of them was looked at before.
fn tell_refused<E: Sink>(error: &RulesError, errors: &mut Errors<'_, E>)
    ensures told { TellsSome E.Sink IsMarkTold errors.old errors.new }
{
    match error {
        RulesError::Keywords(error) => tell_all(error, errors),
        RulesError::Rule(_, _, _) | RulesError::OutOfMemory => tell_memory(errors),
    }
}

/// Tells why no searcher is built for all rules.
pub fn tell_all<E: Sink>(error: &BuildError, errors: &mut Errors<'_, E>)
    ensures told { TellsSome E.Sink IsMarkTold errors.old errors.new }
{
    errors.tell_build(PROGRAM, Some(ALL), None, error);
}
