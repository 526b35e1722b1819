//! Patterns that are too short for forms: each is told by its number, or the first is refused.

ghost use Rattle.std.specs.Prelude.{◌≡◌, IfErr, None, OnOk};
ghost use Rattle.std.specs.List.{concat};
ghost use Rattle.tool_parts.specs.Telling.{TellsBytes};
ghost use Rattle.acredact.specs.Arguments.{all_given};
ghost use Rattle.acredact.specs.Short.{AreLongAsked, RefusesShort, RefusesShortAsked, first_short, is_formless, lines_of_short, short_lines, short_told};
ghost use Rattle.acredact.specs.Tables.{secret_of, secrets_of};

use crate::failure::{Failure, tell_short};
use crate::options::{Item, Word, has};
use crate::rule::Rule;
use chromesquid::Sink;
use tool_parts::errors::Errors;

/// How many bytes a pattern has at least that has forms.
const LEAST: usize = 4;

/// Tells of each pattern that is too short for forms, where forms are asked for.
pub fn tell_short_asked<E: Sink>(errors: &mut Errors<'_, E>, given: &[Item<'_>], rules: &[Rule])
    ensures told { TellsBytes E.Sink errors.old errors.new
        (concat (short_told (all_given given.now) (secrets_of rules.now))) }
{
    if has(given, Word::Forms) {
        return tell_each(errors, rules);
    }
    errors.write(&[]);
}

/// Tells of each pattern that is too short for forms.
#[tactic(auto, using(crate::proofs::Doubting::told_more, crate::proofs::Doubting::secrets_cut, crate::proofs::Done::concat_both))]
fn tell_each<E: Sink>(errors: &mut Errors<'_, E>, rules: &[Rule])
    ensures told { TellsBytes E.Sink errors.old errors.new (concat (short_lines 1 (secrets_of rules.now))) }
{
    let mut number: usize = 1;
    for rule in rules {
        tell_if_short(errors, rule, number);
        number += 1;
    }
}

/// Tells of a pattern, if it is too short for forms.
fn tell_if_short<E: Sink>(errors: &mut Errors<'_, E>, rule: &Rule, number: usize)
    ensures told { TellsBytes E.Sink errors.old errors.new (concat (lines_of_short number (secret_of rule.now))) }
{
    if is_formless(rule) {
        return tell_short(errors, number);
    }
    errors.write(&[]);
}

/// Refuses the first pattern that is too short for forms, where forms are asked for.
pub fn refuse_short_asked<'a>(given: &[Item<'_>], rules: &[Rule]) -> Result<(), Failure<'a>>
    ensures none { OnOk result (AreLongAsked (all_given given.now) (secrets_of rules.now)) }
    ensures refused { IfErr result (RefusesShortAsked (all_given given.now) (secrets_of rules.now)) }
{
    if has(given, Word::Forms) {
        return refuse_first(rules);
    }
    Ok(())
}

/// Refuses the first pattern that is too short for forms.
fn refuse_first<'a>(rules: &[Rule]) -> Result<(), Failure<'a>>
    ensures none { OnOk result (first_short 1 (secrets_of rules.now) ≡ None) }
    ensures refused { IfErr result (RefusesShort (secrets_of rules.now)) }
{
    let mut number: usize = 1;
    for rule in rules {
        if is_formless(rule) {
            return Err(Failure::Short(number));
        }
        number += 1;
    }
    Ok(())
}

/// Whether a pattern was given, and is too short for forms.
fn is_formless(rule: &Rule) -> bool
    ensures short { result ≡ is_formless (secret_of rule.now) }
{
    rule.form_of.is_none() && rule.pattern.len() < LEAST
}
