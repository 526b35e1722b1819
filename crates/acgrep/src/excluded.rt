//! The rules of `--exclude-from`: each line of a file is a glob of files that are not searched.

ghost use Rattle.std.specs.Prelude.{◌≡◌, ◌++◌, [], IfOk, IfSome, IsErr, IsNone, IsSome, OnOk, true};
ghost use Rattle.acgrep.specs.Listed.{listed_bytes};
ghost use Rattle.acgrep.specs.Loading.{IsTextOfRule, ReadsTexts};
ghost use Rattle.acgrep.specs.Rules.{expanded, glob_of_line, is_from_file, is_space, rule_before, rule_said, rules_by, rules_said};
ghost use Rattle.acgrep.specs.Told.{TellsOfRules};

use crate::arguments::Source;
use crate::keys::{read_text, tell_source};
use crate::lines::{behind, line_end};
use crate::open::Open;
use crate::rules::{Rule, Sense};
use crate::tell::tell_memory;
use chromesquid::Sink;
use std::alloc::{AllocError, Global};
use std::io;
use std::io::Read;
use tool_parts::errors::Errors;

/// The texts of the files of rules, one for each rule: an empty one for a rule that is a glob. There is none where a file cannot be read,
/// which is told.
pub fn read_globs<F: Open, R: Read, E: Sink>(
    alloc: Global,
    rules: &[Rule<'_>],
    files: &F,
    input: &mut R,
    errors: &mut Errors<'_, E>,
) -> Option<Vec<Vec<u8>>>
    ensures texts { IfSome result (λ texts.
        ReadsTexts F.Open R.Read files.now rules.now input.old input.new texts.items) }
    ensures silent { IsSome result → errors.new ≡ errors.old }
    ensures told { IsNone result → TellsOfRules E.Sink (rules_said rules.now) errors.old errors.new }
{
    let mut texts = Vec::new(alloc);
    for rule in rules {
        let text = match text_of(alloc, *rule, files, input) {
            Ok(text) => text,
            Err(error) => {
                tell_source(Source::File(rule.glob), &error, errors);
                return None;
            }
        };
        let Ok(()) = texts.push(text) else {
            tell_memory(errors);
            return None;
        };
    }
    Some(texts)
}

/// The text of the file of a rule.
fn text_of<F: Open, R: Read>(
    alloc: Global,
    rule: Rule<'_>,
    files: &F,
    input: &mut R,
) -> io::Result<Vec<u8>>
    ensures read { IfOk result (λ text. IsTextOfRule (F.holds files.now) (rule_said rule.entry)
        (R.remaining input.old) (R.remaining input.new) text.items) }
    ensures file { IsErr result → is_from_file rule.entry.sense ≡ true }
{
    let mut text = Vec::new(alloc);
    if !is_from_file(rule.sense) {
        return Ok(text);
    }
    read_text(&mut text, rule.glob, files, input)?;
    Ok(text)
}

/// Whether the globs of a rule stand in a file.
fn is_from_file(sense: Sense) -> bool
    ensures file { result ≡ is_from_file sense }
{
    match sense {
        Sense::ExcludeFrom => true,
        Sense::Include | Sense::Exclude | Sense::ExcludeFolder => false,
    }
}

/// These rules, with those that the texts of files hold in place of theirs.
pub fn expanded<'a>(
    alloc: Global,
    rules: &[Rule<'a>],
    texts: &'a [Vec<u8>],
) -> Result<Vec<Rule<'a>>, AllocError>
    ensures expanded { IfOk result (λ all.
        rules_said all.items ≡ expanded (rules_said rules.now) (listed_bytes texts.now)) }
{
    let mut all = Vec::new(alloc);
    let mut left = texts;
    for rule in rules {
        let Some((text, others)) = left.split_first() else {
            return Ok(all);
        };
        add_rules(&mut all, *rule, text.as_slice())?;
        left = others;
    }
    Ok(all)
}

/// Adds a rule, or those of the text of its file.
fn add_rules<'a>(all: &mut Vec<Rule<'a>>, rule: Rule<'a>, text: &'a [u8]) -> Result<(), AllocError>
    ensures added { OnOk result (rules_said all.new.items
        ≡ rules_said all.old.items ++ rules_by (rule_said rule.entry) text.now) }
{
    if !is_from_file(rule.sense) {
        all.push(rule)?;
        return Ok(());
    }
    // Each line that holds more than white space is one.
    let mut rest = text;
    while !rest.is_empty() {
        let end = line_end(rest, b'\n');
        add_glob(all, trimmed(&rest[..end]))?;
        rest = behind(rest, end);
    }
    Ok(())
}

/// Adds the rule of a glob that is not empty.
fn add_glob<'a>(all: &mut Vec<Rule<'a>>, glob: &'a [u8]) -> Result<(), AllocError>
    ensures added { OnOk result (rules_said all.new.items
        ≡ rules_said all.old.items ++ rule_before glob.now []) }
{
    if glob.is_empty() {
        return Ok(());
    }
    let sense = Sense::Exclude;
    all.push(Rule { sense, glob })?;
    Ok(())
}

/// A line without the white space at its end.
fn trimmed(line: &[u8]) -> &[u8]
    ensures cut { result.now ≡ glob_of_line line.now }
{
    let mut rest = line;
    while let Some((last, before)) = rest.split_last() {
        if !is_space(*last) {
            return rest;
        }
        rest = before;
    }
    rest
}

/// Whether a byte is white space.
fn is_space(byte: u8) -> bool
    ensures space { result ≡ is_space byte }
{
    byte == b' ' || 9 <= byte && byte <= 13
}
