//! How many matches and runs have the number of each pattern and of each rule, and how that and a summary are told.

ghost use Rattle.std.specs.Prelude.{◌≡◌, IfErr, IfOk, OnOk, drop, true};
ghost use Rattle.tool_parts.specs.Telling.{Tells, TellsBytes};
ghost use Rattle.acredact.specs.Arguments.{counts_given};
ghost use Rattle.acredact.specs.Calls.{IsCountsFailure};
ghost use Rattle.acredact.specs.Counts.{PutsText};
ghost use Rattle.acredact.specs.RunCounts.{IsNumbersLine, TellsAnyCounts, counted_text};
ghost use Rattle.acredact.specs.Summaries.{rule_counts_of, rules_lent};

use crate::counts::{put_counts, put_number};
use crate::failure::Failure;
use crate::options::{Item, Word, counts, has};
use crate::rule::Rule;
use crate::shown::put_shown;
use crate::summary::{Volume, put_summary};
use crate::sums::sums_of;
use chromesquid::Sink;
use secret_rules::Rule as LineRule;
use std::alloc::{AllocError, Global};
use tool_parts::errors::Errors;

/// Tells what is asked for: how often the text of each pattern was written, and of a call with rules how many runs have the number of
/// each; and a summary. It answers whether all files were read.
///
/// # Errors
///
/// Out of memory, and `Counts` where they cannot be written.
pub fn tell_counted<'a, E: Sink>(
    alloc: Global,
    all: bool,
    given: &[Item<'_>],
    secrets: &[Rule],
    rules: Option<&[LineRule]>,
    tally: &[u64],
    volume: Volume,
    errors: &mut Errors<'_, E>,
) -> Result<bool, Failure<'a>>
    ensures all { IfOk result (λ done. done ≡ all) }
    ensures told { OnOk result (TellsAnyCounts E.Sink given.now secrets.now rules.entry tally.now volume
        errors.old errors.new) }
    ensures lines { Tells E.Sink (IsNumbersLine given.now secrets.now rules.entry tally.now volume)
        errors.old errors.new }
    ensures fails { IfErr result (IsCountsFailure (counts_given given.now)) }
{
    if !counts(given) {
        return Ok(all);
    }
    write_counted(alloc, given, secrets, rules, tally, volume, errors)?;
    if errors.has_failed() {
        return Err(Failure::Counts);
    }
    Ok(all)
}

/// Writes the counts and the summary, those that are asked for, by one write.
///
/// # Errors
///
/// The error says that memory ran out, and nothing was written then.
fn write_counted<E: Sink>(
    alloc: Global,
    given: &[Item<'_>],
    secrets: &[Rule],
    rules: Option<&[LineRule]>,
    tally: &[u64],
    volume: Volume,
    errors: &mut Errors<'_, E>,
) -> Result<(), AllocError>
    requires asked { counts_given given.now ≡ true }
    ensures told { OnOk result (TellsBytes E.Sink errors.old errors.new
        (counted_text given.now secrets.now rules.entry tally.now volume)) }
    ensures lines { Tells E.Sink (IsNumbersLine given.now secrets.now rules.entry tally.now volume)
        errors.old errors.new }
{
    let sums = sums_of(alloc, secrets, tally)?;
    let sums = sums.as_slice();
    let runs = behind(tally, secrets.len());
    let mut text = Vec::new(alloc);
    if has(given, Word::Count) {
        put_counts(&mut text, secrets, sums)?;
        put_rule_counts(&mut text, rules, runs)?;
    }
    if has(given, Word::Summary) {
        put_summary(&mut text, volume, sums, rules, runs)?;
    }
    errors.write(&[text.as_slice()]);
    Ok(())
}

/// The counts behind so many.
fn behind(counts: &[u64], many: usize) -> &[u64]
    ensures behind { result.now ≡ drop many counts.now }
{
    let from = many.min(counts.len());
    &counts[from..]
}

/// Puts a line for each rule of a call with rules: how many runs have its number, a TAB, and its name as messages show it.
fn put_rule_counts(
    text: &mut Vec<u8>,
    rules: Option<&[LineRule]>,
    counts: &[u64],
) -> Result<(), AllocError>
    ensures put { OnOk result (PutsText text.old text.new (rule_counts_of (rules_lent rules.entry) counts.now)) }
{
    let Some(mut rest) = rules else {
        return Ok(());
    };
    let mut left = counts;
    while let Some((rule, rules)) = rest.split_first() {
        let Some((count, others)) = left.split_first() else {
            return Ok(());
        };
        put_number(text, *count)?;
        text.push(b'\t')?;
        put_shown(text, rule.id.as_bytes())?;
        text.push(b'\n')?;
        rest = rules;
        left = others;
    }
    Ok(())
}
