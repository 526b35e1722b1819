//! Patterns with their replacements: of a file of patterns, and of a table.

ghost use Rattle.std.specs.Prelude.{◌≡◌, ◌<◌, ◌≤◌, ◌∷◌, ◌++◌, IfErr, IfNone, IfOk, IfSome, OnOk, false, length, map, nat_eq, option_map, true};
ghost use Rattle.std.specs.Io.BufRead.{ends_with_byte, strip_last};
ghost use Rattle.std.specs.List.{slice_split};
ghost use Rattle.aho_core.specs.Replacement.{pieces_of};
ghost use Rattle.acredact.specs.Forms.{split_first};
ghost use Rattle.acredact.specs.LineFaults.{IsBadStart, IsLineFault, IsLineFaultBy, IsListFault, IsTextFault, mark_in};
ghost use Rattle.acredact.specs.Parts.{AddsSome};
ghost use Rattle.acredact.specs.Tables.{AddsAt, AreOfLines, Holds, HoldsBy, IsWithout, StandsHere, escape_of, in_table, stripped_by, lines_in, parts_left, patterns_in, piece_by, secret_of, secrets_of};

use crate::rule::Rule;
use std::alloc::{AllocError, AllocFailed, Global};
use std::slice;

/// Where a pattern stands.
#[derive(Clone, Copy)]
pub struct Place {
    /// The number of the option that gives it, from 0 on.
    pub list: usize,
    /// The number of the line in its file, from 1 on, and 0 for an argument.
    pub line: usize,
}

/// How the lines of a file are read.
#[derive(Clone, Copy)]
pub struct Form {
    /// Whether the file is a table, and not a file of patterns.
    pub table: bool,
    /// Whether a carriage return at the end of a line is left out.
    pub crlf: bool,
}

/// Why a line of a file holds no rule.
#[derive(Clone, Copy, PartialEq, Eq)]
pub enum LineFault {
    /// Its pattern is empty.
    EmptyPattern,
    /// There is no TAB in a line of a table.
    NoTab,
    /// There is a second TAB in a line of a table.
    SecondTab,
    /// Behind a backslash stands none of `t`, `n` and a backslash.
    BadEscape,
    /// A pattern of a file of patterns ends in a carriage return.
    CarriageReturn,
    /// A byte order mark stands in front of the first line.
    ByteOrderMark,
    /// The file is UTF-16: a byte order mark of that stands in front of the first line.
    Utf16,
    /// There is a zero byte in it.
    ZeroByte,
    /// Its pattern begins or ends with a blank.
    Blank,
    /// Quotes stand around its pattern.
    Quotes,
    /// There is no equals sign in a line of a file of variables.
    NoEquals,
    /// The value of a variable is empty.
    EmptyValue,
    /// Memory runs out.
    OutOfMemory,
}

impl From<AllocError> for LineFault {
    ghost use Rattle.acredact.specs.declared.patterns.LineFault.TheVariants.{OutOfMemory};

    ghost from_gives = { λ _ fault. fault ≡ OutOfMemory };

    fn from(_error: AllocError) -> LineFault {
        LineFault::OutOfMemory
    }
}

impl<T: Drop> From<AllocFailed<T>> for LineFault {
    ghost use Rattle.acredact.specs.declared.patterns.LineFault.TheVariants.{OutOfMemory};

    ghost from_gives = { λ _ fault. fault ≡ OutOfMemory };

    fn from(_error: AllocFailed<T>) -> LineFault {
        LineFault::OutOfMemory
    }
}

/// A text without this byte at its end.
pub fn without_last(text: &[u8], byte: u8) -> &[u8]
    ensures stripped { result.now ≡ strip_last byte text.now }
{
    match text.split_last() {
        Some((last, front)) if *last == byte => front,
        _ => text,
    }
}

/// The rule of a line of a file of patterns: its bytes are the pattern.
fn plain(alloc: Global, line: &[u8], place: Place) -> Result<Rule, LineFault>
    ensures rule { IfOk result (λ rule. Holds false line.now (secret_of rule)) }
    ensures fault { IfErr result (IsLineFault false line.now) }
    ensures stands { IfOk result (λ rule. StandsHere place (secret_of rule)) }
{
    if line.is_empty() {
        return Err(LineFault::EmptyPattern);
    }
    Ok(Rule {
        pattern: copy_of(alloc, line)?,
        replacement: None,
        list: place.list,
        line: place.line,
        form_of: None,
    })
}

/// The rule of a line of a table: its pattern, a TAB, and the replacement.
fn row(alloc: Global, line: &[u8], place: Place) -> Result<Rule, LineFault>
    ensures rule { IfOk result (λ rule. Holds true line.now (secret_of rule)) }
    ensures fault { IfErr result (IsLineFault true line.now) }
    ensures stands { IfOk result (λ rule. StandsHere place (secret_of rule)) }
{
    let Some((before, behind)) = split_at(line, b'\t') else {
        return Err(LineFault::NoTab);
    };
    let pattern = unescaped(alloc, before)?;
    if pattern.is_empty() {
        return Err(LineFault::EmptyPattern);
    }
    let replacement = unescaped(alloc, behind)?;
    Ok(Rule {
        pattern,
        replacement: Some(replacement),
        list: place.list,
        line: place.line,
        form_of: None,
    })
}

/// What stands before the first place of a byte, and behind it.
pub fn split_at(text: &[u8], byte: u8) -> Option<(&[u8], &[u8])>
    ensures split { IfSome result (λ parts. text.now ≡ parts.0.now ++ (byte ∷ parts.1.now)) }
    ensures first { IfSome result (λ parts. IsWithout byte parts.0.now) }
    ensures shorter { IfSome result (λ two. length two.1.now < length text.now) }
    ensures none { IfNone result (IsWithout byte text.now) }
{
    match text.iter().position(|other| *other == byte) {
        Some(at) => Some((&text[..at], &text[at + 1..])),
        None => None,
    }
}

/// The first part of a text that a byte parts, and what stands behind that byte, where it stands there.
#[tactic(auto, using(std::proofs::lemmas::List::Splits::slice_split_at, std::proofs::lemmas::List::Splits::slice_split_none, crate::proofs::Readings::parted_at, crate::proofs::Readings::parted_none))]
pub fn part_of(text: &[u8], byte: u8) -> (&[u8], Option<&[u8]>)
    ensures parts { slice_split (λ b. nat_eq b byte) text.entry.now ≡ result.0.now ∷ parts_left byte result.1 }
    ensures halves { split_first byte text.entry.now ≡ option_map (λ rest. (result.0.now, rest.now)) result.1 }
{
    match split_at(text, byte) {
        Some((part, rest)) => (part, Some(rest)),
        None => (text, None),
    }
}

/// The bytes that stand so in a table: `\t` for a TAB, `\n` for a line end, and `\\` for a backslash. Any other byte stands
/// for itself.
fn unescaped(alloc: Global, text: &[u8]) -> Result<Vec<u8>, LineFault>
    ensures bytes { IfOk result (λ bytes. in_table bytes.items ≡ text.now) }
    ensures fault { IfErr result (IsTextFault text.now) }
{
    let mut bytes = Vec::new(alloc);
    let mut rest = text;
    while !rest.is_empty() {
        match first_byte(rest) {
            Ok((byte, more)) => {
                bytes.push(byte)?;
                rest = more;
            }
            Err(fault) => return Err(fault),
        }
    }
    Ok(bytes)
}

/// The byte that stands first in a text, as itself or as a backslash and another, and what follows it.
fn first_byte(text: &[u8]) -> Result<(u8, &[u8]), LineFault>
    requires some { 1 ≤ length text.now }
    ensures first { IfOk result (λ two. text.now ≡ escape_of two.0 ++ two.1.now) }
    ensures shorter { IfOk result (λ parts. length parts.1.now < length text.now) }
    ensures fault { IfErr result (IsBadStart text.now) }
{
    let first = text[0];
    if first == b'\t' {
        return Err(LineFault::SecondTab);
    }
    if first == b'\n' {
        return Err(LineFault::BadEscape);
    }
    if first != b'\\' {
        return Ok((first, &text[1..]));
    }
    if text.len() < 2 {
        return Err(LineFault::BadEscape);
    }
    if text[1] == b't' {
        return Ok((b'\t', &text[2..]));
    }
    if text[1] == b'n' {
        return Ok((b'\n', &text[2..]));
    }
    if text[1] == b'\\' {
        return Ok((b'\\', &text[2..]));
    }
    Err(LineFault::BadEscape)
}

/// These bytes in memory of their own.
pub fn copy_of(alloc: Global, bytes: &[u8]) -> Result<Vec<u8>, AllocError>
    ensures same { IfOk result (λ copy. copy.items ≡ bytes.now) }
{
    let mut copy = Vec::new(alloc);
    copy.extend_from_slice(bytes)?;
    Ok(copy)
}

/// A line that holds no rule.
#[derive(Clone, Copy, PartialEq, Eq)]
pub struct BadLine {
    /// The line's number, from 1 on.
    pub number: usize,
    /// What is wrong with it.
    pub fault: LineFault,
}

/// What is wrong with the beginning of a list, if something is: a byte order mark stands there, of UTF-8 or of UTF-16.
pub fn mark_of(text: &[u8]) -> Option<LineFault>
    ensures mark { result ≡ mark_in text.now }
{
    if text.starts_with(b"\xEF\xBB\xBF") {
        return Some(LineFault::ByteOrderMark);
    }
    if text.starts_with(b"\xFF\xFE") || text.starts_with(b"\xFE\xFF") {
        return Some(LineFault::Utf16);
    }
    None
}

/// Adds the rules of a text, one for each line: of a table, or of a file of patterns.
///
/// # Errors
///
/// The first line that holds no rule, with the reason; or `OutOfMemory`, at any line.
pub fn add_lines(
    alloc: Global,
    rules: &mut Vec<Rule>,
    text: &[u8],
    form: Form,
    list: usize,
) -> Result<(), BadLine>
    ensures added { OnOk result (AddsSome (AreOfLines form (lines_in text.now)) rules.old rules.new) }
    ensures fault { IfErr result (IsListFault form (lines_in text.now)) }
{
    let mut number: usize = 1;
    let mut left = lines_of(text);
    while let Some(rest) = left {
        let (line, more) = part_of(rest, b'\n');
        match add_listed(alloc, rules, line, form, Place { list, line: number }) {
            Ok(()) => {}
            Err(fault) => return Err(BadLine { number, fault }),
        }
        number = number.saturating_add(1);
        left = more;
    }
    Ok(())
}

/// The lines of a text, with line ends between them: nothing where it is empty.
pub fn lines_of(text: &[u8]) -> Option<&[u8]>
    ensures lines { parts_left 10 result ≡ lines_in text.entry.now }
{
    if text.is_empty() {
        return None;
    }
    Some(without_last(text, b'\n'))
}

/// Adds the rule of the line of a file.
fn add_listed(
    alloc: Global,
    rules: &mut Vec<Rule>,
    line: &[u8],
    form: Form,
    place: Place,
) -> Result<(), LineFault>
    ensures added { OnOk result (AddsAt (HoldsBy form line.now) place rules.old rules.new) }
    ensures fault { IfErr result (IsLineFaultBy form line.now) }
{
    let line = stripped_by(form, line);
    if !form.table && ends_in_return(line) {
        return Err(LineFault::CarriageReturn);
    }
    if split_at(line, 0).is_some() {
        return Err(LineFault::ZeroByte);
    }
    add_line(alloc, rules, line, form.table, place)
}

/// A line as its rule stands in it: without a carriage return at its end, where those are left out.
pub fn stripped_by(form: Form, line: &[u8]) -> &[u8]
    ensures line { result.now ≡ stripped_by form line.now }
{
    if form.crlf {
        return without_last(line, b'\r');
    }
    line
}

/// Whether a line ends in a carriage return.
pub fn ends_in_return(line: &[u8]) -> bool
    ensures ends { result ≡ ends_with_byte 13 line.now }
{
    matches!(line.split_last(), Some((b'\r', _)))
}

/// Adds the rule of a line, which stands here.
pub fn add_line(
    alloc: Global,
    rules: &mut Vec<Rule>,
    line: &[u8],
    table: bool,
    place: Place,
) -> Result<(), LineFault>
    ensures added { OnOk result (AddsAt (Holds table line.now) place rules.old rules.new) }
    ensures fault { IfErr result (IsLineFault table line.now) }
{
    let rule = if table {
        row(alloc, line, place)?
    } else {
        plain(alloc, line, place)?
    };
    rules.push(rule)?;
    Ok(())
}

/// The patterns of the rules.
pub fn patterns_of<'r>(alloc: Global, rules: &'r [Rule]) -> Result<Vec<&'r [u8]>, AllocError>
    ensures patterns { IfOk result (λ patterns. pieces_of patterns.items
        ≡ patterns_in (secrets_of rules.entry.now)) }
{
    let mut patterns = Vec::new(alloc);
    for rule in rules {
        patterns.push(rule.pattern.as_slice())?;
    }
    Ok(patterns)
}

/// What is written for each rule: its own replacement, or this text where it has none.
pub fn replacements_of<'r>(
    alloc: Global,
    rules: &'r [Rule],
    text: &'r [u8],
) -> Result<Vec<&'r [u8]>, AllocError>
    ensures pieces { IfOk result (λ pieces. pieces_of pieces.items
        ≡ map (piece_by text.entry.now) (secrets_of rules.entry.now)) }
{
    let mut replacements = Vec::new(alloc);
    for rule in rules {
        replacements.push(replacement_of(rule, text))?;
    }
    Ok(replacements)
}

/// What is written for a rule.
fn replacement_of<'r>(rule: &'r Rule, text: &'r [u8]) -> &'r [u8]
    ensures piece { result.now ≡ piece_by text.entry.now (secret_of rule.entry.now) }
{
    match &rule.replacement {
        Some(replacement) => replacement.as_slice(),
        None => text,
    }
}
