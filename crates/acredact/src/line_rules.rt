//! The rules that are given, by which lines are redacted.

ghost use Rattle.std.specs.Prelude.{◌≡◌, ◌∷◌, [], IfOk, OnOk};
ghost use Rattle.secret_rules.specs.Rules.{AreSound};
ghost use Rattle.secret_rules.specs.Tables.{TellsRules};
ghost use Rattle.acredact.specs.Arguments.{all_given, given_of};
ghost use Rattle.acredact.specs.LineRules.{AddsNamed, AddsOption, AddsThese, GivesBehind, ReadsLineRules, is_builtin};

use crate::failure::Failure;
use crate::folder::Folder;
use crate::load::{Lists, read_list};
use crate::options::{Item, Word};
use chromesquid::FromRead;
use rule_files::{RuleFlaw, TextFault, bad_rule, flaw_of, rules_in};
use secret_rules::{BUILTIN, LineError, MarkError, Rule as LineRule, Rules, RulesError};
use std::alloc::{AllocError, Global};
use std::io::Read;
use tool_parts::failure;

/// What stands for a file in messages about the rule of a keyword.
const AFTER: &str = "--after";

/// The rules of all files and keywords that are given, in order. Each expression is compiled when a line first needs it.
///
/// # Errors
///
/// The first file that gives no rules, or the first rule that is none, with the reason; or memory runs out.
pub fn line_rules_of<'a, F: Folder, I: Read>(
    lists: &Lists<'_, '_, F>,
    items: &[Item<'a>],
    input: &mut FromRead<I>,
) -> Result<Rules, Failure<'a>>
    ensures given { IfOk result (λ rules. ReadsLineRules F.Folder lists.now (all_given items.now)
        rules input.old input.new) }
    ensures sound { IfOk result AreSound }
{
    match read_rules(lists, items, input) {
        Ok(rules) => match Rules::new(lists.alloc, rules) {
            Ok(rules) => Ok(rules),
            Err(error) => Err(unsound(error)),
        },
        Err(failure) => Err(failure),
    }
}

/// The rules that the options give, in order.
fn read_rules<'a, F: Folder, I: Read>(
    lists: &Lists<'_, '_, F>,
    items: &[Item<'a>],
    input: &mut FromRead<I>,
) -> Result<Vec<LineRule>, Failure<'a>>
    ensures read { IfOk result (λ rules. ReadsLineRules F.Folder lists.now (all_given items.now)
        rules.items input.old input.new) }
{
    let mut rules = Vec::new(lists.alloc);
    for item in items {
        // Not by `?`: this error holds names.
        match add_rules(lists, &mut rules, *item, input) {
            Ok(()) => {}
            Err(failure) => return Err(failure),
        }
    }
    Ok(rules)
}

/// Adds the rules of an item, if it has any.
fn add_rules<'a, F: Folder, I: Read>(
    lists: &Lists<'_, '_, F>,
    rules: &mut Vec<LineRule>,
    item: Item<'a>,
    input: &mut FromRead<I>,
) -> Result<(), Failure<'a>>
    ensures added { OnOk result (AddsOption F.Folder lists.now (given_of item.entry)
        rules.old rules.new input.old input.new) }
{
    match item.word {
        Word::After => add_after(lists.alloc, rules, item.value),
        Word::Rules => add_named(lists, rules, item.value, input),
        _ => Ok(()),
    }
}

/// Adds the rule of what stands behind a keyword.
fn add_after<'a>(alloc: Global, rules: &mut Vec<LineRule>, keyword: &str) -> Result<(), Failure<'a>>
    ensures added { OnOk result (AddsThese (GivesBehind keyword.now) rules.old rules.new) }
{
    let rule = LineRule::after(alloc, keyword)?;
    match flaw_of(alloc, &rule)? {
        None => Ok(push_rule(rules, rule)?),
        // The rule is called as its keyword, which may be a secret: it is told by a number.
        Some(flaw) => Err(no_rule(alloc, AFTER, 1, &LineRule::after(alloc, "")?, flaw)),
    }
}

/// Adds the rules of a file, or those of the program.
fn add_named<'a, F: Folder, I: Read>(
    lists: &Lists<'_, '_, F>,
    rules: &mut Vec<LineRule>,
    name: &'a str,
    input: &mut FromRead<I>,
) -> Result<(), Failure<'a>>
    ensures added { OnOk result (AddsNamed F.Folder lists.now name.now
        rules.old rules.new input.old input.new) }
{
    if is_builtin(name) {
        return add_text(lists, rules, name, BUILTIN.as_bytes());
    }
    match read_list(lists, name, input) {
        Ok(text) => add_text(lists, rules, name, text.as_slice()),
        Err(reason) => Err(Failure::Unread(name, reason)),
    }
}

/// Whether the name stands for the rules of the program.
fn is_builtin(name: &str) -> bool
    ensures is { result ≡ is_builtin name.now }
{
    name == "builtin"
}

/// Adds the rules of the bytes of a file. There may be none only where that is allowed.
fn add_text<'a, F>(
    lists: &Lists<'_, '_, F>,
    rules: &mut Vec<LineRule>,
    name: &'a str,
    text: &[u8],
) -> Result<(), Failure<'a>>
    ensures added { OnOk result (AddsThese (TellsRules text.now) rules.old rules.new) }
{
    match rules_in(lists.alloc, text, lists.allow_empty) {
        Ok(mut more) => Ok(rules.append(&mut more)?),
        Err(fault) => Err(Failure::Text(name, fault)),
    }
}

/// Adds a rule.
fn push_rule(rules: &mut Vec<LineRule>, rule: LineRule) -> Result<(), AllocError>
    ensures pushed { OnOk result (AddsThese (λ more. more ≡ rule ∷ []) rules.old rules.new) }
{
    rules.push(rule)?;
    Ok(())
}

/// Memory runs out.
fn no_memory<'a>() -> Failure<'a> {
    Failure::Other(failure::Failure::OutOfMemory)
}

/// What is wrong with the rule of this number, from 1 on, of a file or an option.
fn no_rule<'a>(
    alloc: Global,
    name: &'a str,
    number: usize,
    rule: &LineRule,
    flaw: RuleFlaw,
) -> Failure<'a> {
    match bad_rule(alloc, number, rule, flaw) {
        Ok(bad) => Failure::Text(name, TextFault::Rule(bad)),
        Err(_) => no_memory(),
    }
}

/// Why rules are none. Each was looked at before.
fn unsound<'a>(error: RulesError) -> Failure<'a> {
    match error {
        RulesError::Keywords(error) => Failure::Keywords(error),
        RulesError::Rule(_number, _id, _fault) => no_memory(),
        RulesError::OutOfMemory => no_memory(),
    }
}

/// Why a line is not covered, as it is told.
pub fn failure_in<'a>(alloc: Global, rules: &[LineRule], error: LineError) -> Failure<'a> {
    match error {
        LineError::Stream(error) => Failure::Other(failure::Failure::from(error)),
        LineError::Mark(MarkError::TooBig(number)) => too_big(alloc, rules, number),
        LineError::Mark(MarkError::OutOfMemory) => no_memory(),
    }
}

/// The expression of the rule of this number is too big to be compiled.
fn too_big<'a>(alloc: Global, rules: &[LineRule], number: usize) -> Failure<'a> {
    match rules.get(number) {
        Some(rule) => {
            let number = number.saturating_add(1);
            no_rule(alloc, "--rules", number, rule, RuleFlaw::TooBig)
        }
        None => no_memory(),
    }
}
