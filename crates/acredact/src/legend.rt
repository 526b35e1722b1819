//! By which pattern or rule a run is, as that is told, and what was found in the lines of a file.

ghost use Rattle.std.specs.Prelude.{◌≡◌, OnOk};
ghost use Rattle.acredact.specs.Counts.{PutsText};
ghost use Rattle.acredact.specs.Findings.{finding_line, label_of, labels_of, long_label, numbers_in, rule_or_long, told_for};

use crate::counts::put_number;
use crate::rule::Rule;
use crate::shown::put_shown;
use secret_rules::Rule as LineRule;
use std::alloc::{AllocError, Global};

/// What the numbers of runs stand for.
#[derive(Clone, Copy)]
pub struct Legend<'s, 'r> {
    /// The patterns.
    pub secrets: &'s [Rule],
    /// The rules, whose numbers are behind those of patterns.
    pub rules: &'r [LineRule],
    /// How many bytes a line may have. The number of one with more is behind those of rules.
    pub most: usize,
}

/// What was found in the lines of a file by now.
#[derive(Clone, Copy)]
pub struct Findings<'n, 's, 'r> {
    /// What memory is taken from.
    pub alloc: Global,
    /// The name of the file.
    pub name: &'n [u8],
    /// What the numbers of runs stand for.
    pub legend: Legend<'s, 'r>,
    /// The number of the next line, from 1 on. It stops at the greatest.
    pub line: u64,
    /// Whether something is covered in a line before it.
    pub found: bool,
}

/// How many numbers there are.
pub fn numbers_in(legend: &Legend<'_, '_>) -> usize
    ensures numbers { result ≡ numbers_in (labels_of legend.now) }
{
    let count = legend.secrets.len().saturating_add(legend.rules.len());
    count.saturating_add(1)
}

/// The number by which a run is told: that of its pattern, where it is of a form, and else its own.
pub fn told_for(legend: &Legend<'_, '_>, number: usize) -> usize
    ensures told { result ≡ told_for (labels_of legend.now) number }
{
    match legend.secrets.get(number) {
        Some(rule) => rule.form_of.unwrap_or(number),
        None => number,
    }
}

/// Puts the line that tells of a run: of which file, of which line of it, and what its number stands for.
pub fn put_finding(
    text: &mut Vec<u8>,
    legend: &Legend<'_, '_>,
    name: &[u8],
    line: u64,
    number: usize,
) -> Result<(), AllocError>
    ensures put { OnOk result (PutsText text.old text.new
        (finding_line (labels_of legend.now) name.now line number)) }
{
    put_shown(text, name)?;
    text.push(b':')?;
    put_number(text, line)?;
    text.extend_from_slice(b": ")?;
    put_label(text, legend, number)?;
    text.push(b'\n')?;
    Ok(())
}

/// Puts what a number stands for: the number of a pattern from 1 on, or what is told of a rule.
fn put_label(text: &mut Vec<u8>, legend: &Legend<'_, '_>, number: usize) -> Result<(), AllocError>
    ensures put { OnOk result (PutsText text.old text.new (label_of (labels_of legend.now) number)) }
{
    let patterns = legend.secrets.len();
    if number < patterns {
        text.extend_from_slice(b"pattern ")?;
        return put_number(text, number.saturating_add(1) as u64);
    }
    put_rule(text, legend, number - patterns)
}

/// Puts the name of the rule of a number, or that number from 1 on where the name is empty; where there is no rule, that a line is too long.
fn put_rule(text: &mut Vec<u8>, legend: &Legend<'_, '_>, number: usize) -> Result<(), AllocError>
    ensures put { OnOk result (PutsText text.old text.new (rule_or_long (labels_of legend.now) number)) }
{
    match legend.rules.get(number) {
        Some(rule) => {
            let id = rule.id.as_bytes();
            if id.is_empty() {
                return put_number(text, number.saturating_add(1) as u64);
            }
            put_shown(text, id)
        }
        None => put_long(text, legend.most),
    }
}

/// Puts that a line has more bytes than this.
fn put_long(text: &mut Vec<u8>, most: usize) -> Result<(), AllocError>
    ensures put { OnOk result (PutsText text.old text.new (long_label most)) }
{
    text.extend_from_slice(b"line of more than ")?;
    put_number(text, most as u64)?;
    text.extend_from_slice(b" bytes")?;
    Ok(())
}
