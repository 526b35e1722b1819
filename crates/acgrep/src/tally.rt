//! How often each pattern was found, and how that is told.

ghost use Rattle.std.specs.Prelude.{◌≡◌, ◌∷◌, [], IfOk, OnOk, decimal};
ghost use Rattle.aho_core.specs.Replacement.{pieces_of};
ghost use Rattle.acgrep.specs.Lines.{lines};
ghost use Rattle.acgrep.specs.Tallies.{CountsLines, PutsBytes, row_of, rows_counted, zeros_of};

use crate::arguments::number_in;
use crate::lines::{behind, line_end};
use crate::print::{DIGITS, put_digits};
use std::alloc::{AllocError, Global};

/// A count of 0 for each pattern.
pub fn zeros(alloc: Global, patterns: &[&[u8]]) -> Result<Vec<u64>, AllocError>
    ensures zeros { IfOk result (λ counts. counts.items ≡ zeros_of (pieces_of patterns.now)) }
{
    let mut counts = Vec::new(alloc);
    let mut rest = patterns;
    while !rest.is_empty() {
        counts.push(0)?;
        rest = &rest[1..];
    }
    Ok(counts)
}

/// Counts the lines, each ended by `ending`, that write a pattern's number, for each pattern. A count stays at the greatest number.
pub fn tally(numbers: &[u8], ending: u8, counts: &mut [u64])
    ensures counted { CountsLines (lines ending numbers.now) counts.old counts.new }
{
    let mut rest = numbers;
    while !rest.is_empty() {
        let end = line_end(rest, ending);
        tally_line(&rest[..end], counts);
        rest = behind(rest, end);
    }
}

/// Counts a line that writes a pattern's number, where there is a count for it.
fn tally_line(line: &[u8], counts: &mut [u64])
    ensures counted { CountsLines (line.now ∷ []) counts.old counts.new }
{
    if let Some(number) = number_in(line) {
        if number < counts.len() as u64 {
            let at = number as usize;
            counts[at] = counts[at].saturating_add(1);
        }
    }
}

/// Puts a row for each pattern.
pub fn put_rows(text: &mut Vec<u8>, patterns: &[&[u8]], counts: &[u64]) -> Result<(), AllocError>
    ensures put { OnOk result
        (PutsBytes text.old text.new (rows_counted 0 (pieces_of patterns.now) counts.now)) }
{
    let mut number = 0;
    let mut left = counts;
    for pattern in patterns {
        let Some((count, others)) = left.split_first() else {
            return Ok(());
        };
        put_row(text, number, *count, *pattern)?;
        number += 1;
        left = others;
    }
    Ok(())
}

/// Puts the row of a pattern: its number from 0 on, how often it was found, and its bytes, with TABs between them.
fn put_row(text: &mut Vec<u8>, number: u64, count: u64, pattern: &[u8]) -> Result<(), AllocError>
    ensures put { OnOk result (PutsBytes text.old text.new (row_of number count pattern.now)) }
{
    put_number(text, number)?;
    text.push(b'\t')?;
    put_number(text, count)?;
    text.push(b'\t')?;
    text.extend_from_slice(pattern)?;
    text.push(b'\n')?;
    Ok(())
}

/// Puts a number in decimal.
fn put_number(text: &mut Vec<u8>, number: u64) -> Result<(), AllocError>
    ensures put { OnOk result (PutsBytes text.old text.new (decimal number)) }
{
    let mut digits = [0; DIGITS];
    let start = put_digits(number, &mut digits);
    text.extend_from_slice(&digits[start..])?;
    Ok(())
}
