//! Lines of lists that may be meant otherwise than they stand there: with a blank at an end, or with quotes around them; and patterns
//! that are too short for forms.

ghost use Rattle.std.specs.Prelude.{◌≡◌, IfErr, OnErr, OnOk, false, true};
ghost use Rattle.std.specs.List.{concat};
ghost use Rattle.tool_parts.specs.Telling.{TellsBytes};
ghost use Rattle.acredact.specs.Doubts.{AreUndoubted, IsDoubtFailure, RefusesFirstDoubt, TellsDoubts, list_doubt_lines, doubt_in, doubt_lines, doubt_of, is_blank, list_name};
ghost use Rattle.acredact.specs.Arguments.{all_given};
ghost use Rattle.acredact.specs.Short.{AreLongAsked};
ghost use Rattle.acredact.specs.Tables.{secret_of, secrets_of};

use crate::failure::{Failure, tell_line};
use crate::options::Item;
use crate::patterns::{BadLine, LineFault};
use crate::rule::Rule;
use crate::short::{refuse_short_asked, tell_short_asked};
use chromesquid::Sink;
use tool_parts::errors::Errors;

/// Tells of each pattern of a list that is doubtful, by file and line, and of each that is too short for forms, by its number; or
/// refuses the first of them.
pub fn warn_of_lists<'a, E: Sink>(
    errors: &mut Errors<'_, E>,
    given: &[Item<'a>],
    rules: &[Rule],
    strict: bool,
) -> Result<(), Failure<'a>>
    ensures told { OnOk result (TellsDoubts E.Sink strict (all_given given.now) (secrets_of rules.now) errors.old errors.new) }
    ensures refused { IfErr result (IsDoubtFailure strict (all_given given.now) (secrets_of rules.now)) }
    ensures untold { OnErr result (errors.new ≡ errors.old) }
{
    if strict {
        return refuse_all(given, rules);
    }
    tell_of_lists(errors, given, rules);
    Ok(())
}

/// Tells of each pattern of a list that is doubtful, and of each that is too short for forms.
pub fn tell_of_lists<E: Sink>(errors: &mut Errors<'_, E>, given: &[Item<'_>], rules: &[Rule])
    ensures told { TellsDoubts E.Sink false (all_given given.now) (secrets_of rules.now) errors.old errors.new }
{
    tell_doubtful(errors, given, rules);
    tell_short_asked(errors, given, rules);
}

/// Refuses the first pattern of a list that is doubtful, and then the first that is too short for forms.
fn refuse_all<'a>(given: &[Item<'a>], rules: &[Rule]) -> Result<(), Failure<'a>>
    ensures none { OnOk result (AreUndoubted (secrets_of rules.now)
        × AreLongAsked (all_given given.now) (secrets_of rules.now)) }
    ensures refused { IfErr result (IsDoubtFailure true (all_given given.now) (secrets_of rules.now)) }
{
    match refuse_doubtful(given, rules) {
        Ok(()) => refuse_short_asked(given, rules),
        Err(failure) => Err(failure),
    }
}

/// Refuses the first pattern of a list that is doubtful.
fn refuse_doubtful<'a>(given: &[Item<'a>], rules: &[Rule]) -> Result<(), Failure<'a>>
    ensures none { OnOk result (AreUndoubted (secrets_of rules.now)) }
    ensures refused { IfErr result (RefusesFirstDoubt (all_given given.now) (secrets_of rules.now)) }
{
    for rule in rules {
        match doubt_of(rule) {
            Some(fault) => {
                let number = rule.line;
                let name = name_of_list(given, rule.list);
                return Err(Failure::Line(name, BadLine { number, fault }));
            }
            None => {}
        }
    }
    Ok(())
}

/// Tells of each pattern of a list that is doubtful.
#[tactic(auto, using(crate::proofs::Doubting::told_more, crate::proofs::Doubting::secrets_cut, crate::proofs::Done::concat_both))]
fn tell_doubtful<E: Sink>(errors: &mut Errors<'_, E>, given: &[Item<'_>], rules: &[Rule])
    ensures told { TellsBytes E.Sink errors.old errors.new (concat (list_doubt_lines (all_given given.now) (secrets_of rules.now))) }
{
    for rule in rules {
        tell_doubt(errors, given, rule);
    }
}

/// Tells of a pattern, if it is one of a list and doubtful.
fn tell_doubt<E: Sink>(errors: &mut Errors<'_, E>, given: &[Item<'_>], rule: &Rule)
    ensures told { TellsBytes E.Sink errors.old errors.new (concat (doubt_lines (all_given given.now) (secret_of rule.now))) }
{
    match doubt_of(rule) {
        Some(fault) => {
            let number = rule.line;
            let name = name_of_list(given, rule.list);
            tell_line(errors, name, BadLine { number, fault })
        }
        None => errors.write(&[]),
    }
}

/// The file of the option of this number.
#[tactic(auto, using(crate::proofs::Doubting::made_there))]
fn name_of_list<'a>(given: &[Item<'a>], number: usize) -> &'a str
    ensures name { result.now ≡ list_name (all_given given.now) number }
{
    match given.get(number) {
        Some(item) => item.value,
        None => "-",
    }
}

/// What is doubtful of a pattern, if it is one of a list.
fn doubt_of(rule: &Rule) -> Option<LineFault>
    ensures doubt { result ≡ doubt_of (secret_of rule.now) }
{
    if rule.line == 0 {
        return None;
    }
    doubt_in(rule.pattern.as_slice())
}

/// What is doubtful of a line.
fn doubt_in(line: &[u8]) -> Option<LineFault>
    ensures doubt { result ≡ doubt_in line.now }
{
    if line.is_empty() {
        return None;
    }
    let first = line[0];
    let last = line[line.len() - 1];
    if is_blank(first) || is_blank(last) {
        return Some(LineFault::Blank);
    }
    if line.len() > 1 && first == last && (first == b'"' || first == b'\'' || first == b'`') {
        return Some(LineFault::Quotes);
    }
    None
}

/// Whether a byte is a space or a TAB.
fn is_blank(byte: u8) -> bool
    ensures blank { result ≡ is_blank byte }
{
    byte == b' ' || byte == b'\t'
}
