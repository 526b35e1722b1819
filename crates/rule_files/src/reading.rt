//! Reading rules from the text of a file.

ghost use Rattle.std.specs.Prelude.{◌≡◌, IfOk};
ghost use Rattle.secret_rules.specs.Tables.{TellsRules};
ghost use Rattle.rule_files.specs.Flaws.{IsBadRuleOf};

use crate::fault::TextFault;
use crate::flaw::{BadRule, RuleFlaw};
use memchr::memchr;
use secret_rules::{ParseError, Rule, RuleFault, parse};
use std::alloc::{AllocError, Global};
use std::str;

/// The rules of the bytes of a file, in order. There may be none only where that is allowed.
///
/// # Errors
///
/// It gives no rules, or a rule is none: the first of these is told.
pub fn rules_in(alloc: Global, text: &[u8], allow_empty: bool) -> Result<Vec<Rule>, TextFault>
    ensures rules { IfOk result (λ rules. TellsRules text.now rules.items) }
{
    if let Some(fault) = mark_of(text) {
        return Err(fault);
    }
    match str::from_utf8(text) {
        Ok(text) => parsed(alloc, text, allow_empty),
        Err(error) => Err(TextFault::NotText(line_at(text, error.valid_up_to()))),
    }
}

/// What is wrong with the beginning of a text: a byte order mark.
fn mark_of(text: &[u8]) -> Option<TextFault> {
    if text.starts_with(b"\xef\xbb\xbf") {
        return Some(TextFault::ByteOrderMark);
    }
    if text.starts_with(b"\xff\xfe") || text.starts_with(b"\xfe\xff") {
        return Some(TextFault::Utf16);
    }
    None
}

/// The number, from 1 on, of the line in which a place lies.
fn line_at(text: &[u8], place: usize) -> usize {
    let mut number: usize = 1;
    let mut at = 0;
    while at < place && at < text.len() {
        if text[at] == b'\n' {
            number = number.saturating_add(1);
        }
        at += 1;
    }
    number
}

/// The rules of a text of TOML.
fn parsed(alloc: Global, text: &str, allow_empty: bool) -> Result<Vec<Rule>, TextFault>
    ensures rules { IfOk result (λ rules. TellsRules text.now rules.items) }
{
    match parse(alloc, text) {
        Ok(rules) => looked_at(alloc, rules, allow_empty),
        Err(error) => Err(fault_of(text, error)),
    }
}

/// These rules of a text, where each is one.
fn looked_at(alloc: Global, rules: Vec<Rule>, allow_empty: bool) -> Result<Vec<Rule>, TextFault>
    ensures same { IfOk result (λ made. made.items ≡ rules.items) }
{
    if rules.is_empty() && !allow_empty {
        return Err(TextFault::NoRule);
    }
    match first_bad(alloc, rules.as_slice())? {
        None => Ok(rules),
        Some(bad) => Err(TextFault::Rule(bad)),
    }
}

/// The first of these rules with which something is wrong, and what.
fn first_bad(alloc: Global, rules: &[Rule]) -> Result<Option<BadRule>, AllocError> {
    let mut number: usize = 1;
    let mut rest = rules;
    while !rest.is_empty() {
        if let Some(flaw) = flaw_of(alloc, &rest[0])? {
            return Ok(Some(bad_rule(alloc, number, &rest[0], flaw)?));
        }
        number = number.saturating_add(1);
        rest = &rest[1..];
    }
    Ok(None)
}

/// Why a text of TOML gives no rules.
fn fault_of(text: &str, error: ParseError) -> TextFault {
    match error {
        ParseError::Toml(error) => {
            let place = match error.span() {
                Some(span) => span.start,
                None => 0,
            };
            TextFault::Toml(line_at(text.as_bytes(), place), error)
        }
        ParseError::NoRules => TextFault::NoRule,
        ParseError::Missing(number, key) => without_id(number, RuleFlaw::Missing(key)),
        ParseError::WrongType(number, key) => without_id(number, RuleFlaw::WrongType(key)),
        ParseError::OutOfMemory => TextFault::OutOfMemory,
    }
}

/// What is wrong with the rule of a number, from 0 on in its text, that has no name.
fn without_id(number: usize, flaw: RuleFlaw) -> TextFault {
    TextFault::Rule(BadRule {
        number: number.saturating_add(1),
        id: None,
        flaw,
    })
}

/// What is wrong with a rule that has a name, and this number, from 1 on.
pub fn bad_rule(
    alloc: Global,
    number: usize,
    rule: &Rule,
    flaw: RuleFlaw,
) -> Result<BadRule, AllocError>
    ensures bad { IfOk result (IsBadRuleOf number rule.now flaw) }
{
    let id = String::from_str(alloc, rule.id.as_str())?;
    Ok(BadRule {
        number,
        id: Some(id),
        flaw,
    })
}

/// What is wrong with a rule, if something is: it is none, or a keyword holds a line end.
pub fn flaw_of(alloc: Global, rule: &Rule) -> Result<Option<RuleFlaw>, AllocError> {
    if has_line_end(rule.keywords.as_slice()) {
        return Ok(Some(RuleFlaw::LineEnd));
    }
    match rule.fault(alloc)? {
        None => Ok(None),
        Some(RuleFault::EmptyKeyword) => Ok(Some(RuleFlaw::EmptyKeyword)),
        Some(RuleFault::Regex(error)) => Ok(Some(RuleFlaw::Regex(error))),
        Some(RuleFault::UnknownGroup) => Ok(Some(RuleFlaw::UnknownGroup)),
    }
}

/// Whether a keyword holds a line end, so that it stands in no line.
fn has_line_end(keywords: &[String]) -> bool {
    let mut rest = keywords;
    while !rest.is_empty() {
        if memchr(b'\n', rest[0].as_bytes()).is_some() {
            return true;
        }
        rest = &rest[1..];
    }
    false
}
