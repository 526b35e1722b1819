//! Values that are patterns: of variables, of the environment or of a file, and of whole files.

ghost use Rattle.std.specs.Prelude.{◌≡◌, IfOk, OnOk};
ghost use Rattle.std.specs.Io.BufRead.{ends_with_byte};
ghost use Rattle.aho_core.specs.Replacement.{pieces_of};
ghost use Rattle.acredact.specs.Reads.{bytes_of_names};
ghost use Rattle.acredact.specs.Tables.{lines_in, stripped_by};
ghost use Rattle.acredact.specs.Values.{are_refused, behind_equals, fault_of_line, first_fault, is_named, is_no_variable, is_quote, is_some_value, is_value_text, is_variable_name, lent, unquoted, value_of_entry, values_in_entries, values_in_lines, values_with, whole_in};

use crate::patterns::{
    BadLine, Form, LineFault, ends_in_return, lines_of, part_of, stripped_by, without_last,
};
use std::alloc::{AllocError, Global};

/// Whether a variable can be called so: by letters of ASCII, digits and `_`, and behind them a star, if any.
pub fn is_variable_name(name: &str) -> bool
    ensures is { result ≡ is_variable_name name.now }
{
    let text = without_last(name.as_bytes(), b'*');
    text.iter()
        .all(|byte| byte.is_ascii_alphanumeric() || *byte == b'_')
}

/// Whether a variable has this name, or one that begins so, where the name ends in a star.
fn is_named(name: &[u8], found: &[u8]) -> bool
    ensures named { result ≡ is_named name.now found.now }
{
    match name.split_last() {
        Some((b'*', front)) => found.starts_with(front),
        _ => found == name,
    }
}

/// The value of an entry of the environment, `NAME=value`, where it has this name.
fn value_of_entry<'e>(name: &[u8], entry: &'e [u8]) -> Option<&'e [u8]>
    ensures value { lent result ≡ value_of_entry name.now entry.entry.now }
{
    match part_of(entry, b'=') {
        (found, Some(value)) => {
            if is_named(name, found) {
                return Some(value);
            }
            None
        }
        (_, None) => None,
    }
}

/// The values of those entries of the environment that have this name, each with its quotes and without.
pub fn values_of_entries<'e>(
    alloc: Global,
    entries: &'e [Vec<u8>],
    name: &[u8],
) -> Result<Vec<&'e [u8]>, AllocError>
    ensures values { IfOk result (λ values. pieces_of values.items
        ≡ values_in_entries name.now (bytes_of_names entries.entry.now)) }
{
    let mut values = Vec::new(alloc);
    for entry in entries {
        push_value(&mut values, value_of_entry(name, entry.as_slice()))?;
    }
    Ok(values)
}

/// Whether a text is the value of some entry of the environment, perhaps with a star behind it.
pub fn is_some_value(entries: &[Vec<u8>], text: &[u8]) -> bool
    ensures some { result ≡ is_some_value (bytes_of_names entries.now) text.now }
{
    for entry in entries {
        if is_value_text(text, behind_equals(entry.as_slice())) {
            return true;
        }
    }
    false
}

/// Whether a text is this value, perhaps with a star behind it.
fn is_value_text(text: &[u8], value: Option<&[u8]>) -> bool
    ensures is { result ≡ is_value_text text.now (lent value.entry) }
{
    match value {
        Some(value) => value == text || value == without_last(text, b'*'),
        None => false,
    }
}

/// Whether a byte is a quote that shells leave out around a value.
fn is_quote(byte: u8) -> bool
    ensures quote { result ≡ is_quote byte }
{
    byte == b'"' || byte == b'\''
}

/// Whether a text ends in this byte.
fn ends_in(text: &[u8], byte: u8) -> bool
    ensures ends { result ≡ ends_with_byte byte text.now }
{
    match text.split_last() {
        Some((last, _)) => *last == byte,
        None => false,
    }
}

/// A value without the quotes around it, where it has two equal ones and something between them.
fn unquoted(value: &[u8]) -> Option<&[u8]>
    ensures unquoted { lent result ≡ unquoted value.entry.now }
{
    match value.split_first() {
        Some((first, rest)) => {
            let inner = without_last(rest, *first);
            if is_quote(*first) && ends_in(rest, *first) && !inner.is_empty() {
                return Some(inner);
            }
            None
        }
        None => None,
    }
}

/// Adds a value, if there is one, and that without the quotes around it, if it has some.
fn push_value<'e>(values: &mut Vec<&'e [u8]>, value: Option<&'e [u8]>) -> Result<(), AllocError>
    ensures pushed { OnOk result (pieces_of values.new.items
        ≡ values_with (pieces_of values.old.items) (lent value.entry)) }
{
    if let Some(value) = value {
        values.push(value)?;
        if let Some(inner) = unquoted(value) {
            values.push(inner)?;
        }
    }
    Ok(())
}

/// Whether a line of a file of variables is passed over: it is blank, or a comment.
fn is_no_variable(line: &[u8]) -> bool
    ensures passed { result ≡ is_no_variable line.now }
{
    match line.iter().find(|byte| **byte != b' ' && **byte != b'\t') {
        Some(byte) => *byte == b'#',
        None => true,
    }
}

/// What stands behind the first equals sign of a text, where there is one.
fn behind_equals(text: &[u8]) -> Option<&[u8]>
    ensures behind { lent result ≡ behind_equals text.entry.now }
{
    part_of(text, b'=').1
}

/// The values in a text of variables, one in each line, each with its quotes and without.
pub fn values_in_text<'t>(
    alloc: Global,
    form: Form,
    text: &'t [u8],
) -> Result<Vec<&'t [u8]>, AllocError>
    ensures values { IfOk result (λ values. pieces_of values.items ≡ values_in_lines form (lines_in text.entry.now)) }
{
    let mut values = Vec::new(alloc);
    let mut left = lines_of(text);
    while let Some(rest) = left {
        let (line, more) = part_of(rest, b'\n');
        let line = stripped_by(form, line);
        if !is_no_variable(line) {
            push_value(&mut values, behind_equals(line))?;
        }
        left = more;
    }
    Ok(values)
}

/// What is wrong with a line of a file of variables, if something is. Its value may be empty only where that is allowed.
fn fault_of_line(allow_empty: bool, line: &[u8]) -> Option<LineFault>
    ensures fault { result ≡ fault_of_line allow_empty line.now }
{
    if is_no_variable(line) {
        return None;
    }
    if ends_in_return(line) {
        return Some(LineFault::CarriageReturn);
    }
    match behind_equals(line) {
        Some(value) => {
            if value.is_empty() && !allow_empty {
                return Some(LineFault::EmptyValue);
            }
            None
        }
        None => Some(LineFault::NoEquals),
    }
}

/// The first line of a text of variables that is wrong, if one is.
pub fn first_fault(allow_empty: bool, form: Form, text: &[u8]) -> Option<BadLine>
    ensures first { result ≡ first_fault allow_empty form 1 (lines_in text.now) }
{
    let mut number: usize = 1;
    let mut left = lines_of(text);
    while let Some(rest) = left {
        let (line, more) = part_of(rest, b'\n');
        if let Some(fault) = fault_of_line(allow_empty, stripped_by(form, line)) {
            return Some(BadLine { number, fault });
        }
        number = number.saturating_add(1);
        left = more;
    }
    None
}

/// The bytes of a whole file without a line end behind them.
pub fn whole_in(form: Form, text: &[u8]) -> &[u8]
    ensures whole { result.now ≡ whole_in form text.now }
{
    stripped_by(form, without_last(text, b'\n'))
}

/// Whether values are refused: there is none, or one is empty, and that is not allowed.
pub fn are_refused(allow_empty: bool, values: &[&[u8]]) -> bool
    ensures refused { result ≡ are_refused allow_empty (pieces_of values.now) }
{
    if allow_empty {
        return false;
    }
    for value in values {
        if value.is_empty() {
            return true;
        }
    }
    values.is_empty()
}
