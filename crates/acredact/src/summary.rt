//! How much was read and replaced, as one object of JSON.

ghost use Rattle.std.specs.Prelude.{◌≡◌, OnOk};
ghost use Rattle.acredact.specs.Counts.{PutsText};
ghost use Rattle.acredact.specs.Doubts.{last_of};
ghost use Rattle.acredact.specs.Summaries.{amounts_text, bytes_in_json, listed, rule_object, rules_lent, rules_listed, rules_text, summary_text};

use crate::counts::put_number;
use crate::shown::put_digits;
use secret_rules::Rule as LineRule;
use std::alloc::AllocError;

/// How much was read. A count stops at the greatest number.
#[derive(Clone, Copy)]
pub struct Volume {
    /// How many files, each to its end.
    pub files: u64,
    /// How many bytes of them and of others.
    pub bytes: u64,
}

/// The text of a summary: how much was read, for each pattern how often its text was written, and of a call with rules what is told of
/// these. It holds no pattern, and nothing that a rule marks.
pub fn put_summary(
    text: &mut Vec<u8>,
    volume: Volume,
    counts: &[u64],
    rules: Option<&[LineRule]>,
    runs: &[u64],
) -> Result<(), AllocError>
    ensures put { OnOk result (PutsText text.old text.new
        (summary_text volume counts.now (rules_lent rules.entry) runs.now)) }
{
    put_amounts(text, volume, counts)?;
    put_members(text, rules, runs)?;
    text.extend_from_slice(b"}\n")
}

/// The members that a call has without rules too.
fn put_amounts(text: &mut Vec<u8>, volume: Volume, counts: &[u64]) -> Result<(), AllocError>
    ensures put { OnOk result (PutsText text.old text.new (amounts_text volume counts.now)) }
{
    text.extend_from_slice(b"{\"files\":")?;
    put_number(text, volume.files)?;
    text.extend_from_slice(b",\"bytes\":")?;
    put_number(text, volume.bytes)?;
    text.extend_from_slice(b",\"replacements\":[")?;
    put_list(text, counts)?;
    text.push(b']')?;
    Ok(())
}

/// Numbers with commas between them.
fn put_list(text: &mut Vec<u8>, counts: &[u64]) -> Result<(), AllocError>
    ensures put { OnOk result (PutsText text.old text.new (listed counts.now)) }
{
    let Some((first, more)) = counts.split_first() else {
        return Ok(());
    };
    put_number(text, *first)?;
    for number in more {
        text.push(b',')?;
        put_number(text, *number)?;
    }
    Ok(())
}

/// The members of a call with rules: for each rule its name and how many runs have its number, and how many lines were too long. The
/// last of these numbers stands behind those of rules.
fn put_members(
    text: &mut Vec<u8>,
    rules: Option<&[LineRule]>,
    runs: &[u64],
) -> Result<(), AllocError>
    ensures put { OnOk result (PutsText text.old text.new (rules_text (rules_lent rules.entry) runs.now)) }
{
    let Some(rules) = rules else {
        return Ok(());
    };
    text.extend_from_slice(b",\"rules\":[")?;
    put_rules(text, rules, runs)?;
    text.extend_from_slice(b"],\"long\":")?;
    put_number(text, last_of(runs))
}

/// An object for each rule, with commas between them.
fn put_rules(text: &mut Vec<u8>, rules: &[LineRule], runs: &[u64]) -> Result<(), AllocError>
    ensures put { OnOk result (PutsText text.old text.new (rules_listed rules.now runs.now)) }
{
    let Some((rule, more)) = rules.split_first() else {
        return Ok(());
    };
    let Some((count, others)) = runs.split_first() else {
        return Ok(());
    };
    put_rule(text, rule, *count)?;
    let mut rest = more;
    let mut left = others;
    while let Some((rule, more)) = rest.split_first() {
        let Some((count, others)) = left.split_first() else {
            return Ok(());
        };
        text.push(b',')?;
        put_rule(text, rule, *count)?;
        rest = more;
        left = others;
    }
    Ok(())
}

/// The object of a rule: its name, and how many runs have its number.
fn put_rule(text: &mut Vec<u8>, rule: &LineRule, count: u64) -> Result<(), AllocError>
    ensures put { OnOk result (PutsText text.old text.new (rule_object rule.now count)) }
{
    text.extend_from_slice(b"{\"id\":\"")?;
    put_bytes(text, rule.id.as_bytes())?;
    text.extend_from_slice(b"\",\"runs\":")?;
    put_number(text, count)?;
    text.push(b'}')?;
    Ok(())
}

/// Puts bytes as they stand within a string of JSON: a quote and a backslash behind a backslash, and one below 32 by its number.
fn put_bytes(text: &mut Vec<u8>, bytes: &[u8]) -> Result<(), AllocError>
    ensures put { OnOk result (PutsText text.old text.new (bytes_in_json bytes.now)) }
{
    for byte in bytes {
        if *byte < 32 {
            text.extend_from_slice(b"\\u00")?;
            put_digits(text, *byte)?;
            continue;
        }
        if *byte == b'"' || *byte == b'\\' {
            text.push(b'\\')?;
        }
        text.push(*byte)?;
    }
    Ok(())
}

/// The last of some counts, which has one for each text that is written.
pub fn last_of(counts: &[u64]) -> u64
    ensures last { result ≡ last_of counts.now }
{
    if counts.is_empty() {
        return 0;
    }
    counts[counts.len() - 1]
}
