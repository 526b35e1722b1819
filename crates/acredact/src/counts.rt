//! How many matches of each pattern were replaced.

ghost use Rattle.std.specs.Prelude.{◌≡◌, IfOk, OnOk, decimal};
ghost use Rattle.acredact.specs.Counts.{PutsText, counts_told, zeros};

use crate::rule::Rule;
use rule_files::{MAX_DIGITS, digits_of};
use std::alloc::{AllocError, Global};

/// A count for each rule where they are counted, and else none.
pub fn counts_of(alloc: Global, rules: &[Rule], counted: bool) -> Result<Vec<u64>, AllocError>
    ensures counts { IfOk result (λ all. all.items ≡ zeros counted rules.now) }
{
    let size = if counted { rules.len() } else { 0 };
    vec![in alloc; 0; size]
}

/// Puts a line for each pattern: how many of its matches were replaced, a TAB, its number from 1 on, a TAB, and the number of its
/// line in its file, or `-e`.
pub fn put_counts(text: &mut Vec<u8>, rules: &[Rule], counts: &[u64]) -> Result<(), AllocError>
    ensures put { OnOk result (PutsText text.old text.new (counts_told rules.now counts.now)) }
{
    let mut rest = rules;
    let mut left = counts;
    let mut number: usize = 1;
    while let Some((rule, rules)) = rest.split_first() {
        let Some((count, others)) = left.split_first() else {
            return Ok(());
        };
        put_number(text, *count)?;
        text.push(b'\t')?;
        put_number(text, number as u64)?;
        text.push(b'\t')?;
        if rule.line == 0 {
            text.extend_from_slice(b"-e")?;
        } else {
            put_number(text, rule.line as u64)?;
        }
        text.push(b'\n')?;
        number = number.saturating_add(1);
        rest = rules;
        left = others;
    }
    Ok(())
}

/// Puts a number in decimal.
pub fn put_number(text: &mut Vec<u8>, number: u64) -> Result<(), AllocError>
    ensures put { OnOk result (PutsText text.old text.new (decimal number)) }
{
    let mut room = [0; MAX_DIGITS];
    text.extend_from_slice(digits_of(number, &mut room))?;
    Ok(())
}
