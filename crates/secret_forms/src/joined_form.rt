//! A secret as it is quoted for a shell, also by encoders that look at the byte before each, and as the numbers of its bytes.
//!
//! What such an encoder puts between two bytes stands before a secret, and is no part of its pattern.

ghost use Rattle.std.specs.Prelude.{◌≡◌, ◌<◌, All, Err, IfErr, IfOk, OnOk, [], ◌∷◌, length};
ghost use Rattle.secret_forms.specs.Joined as spec;
ghost use Rattle.secret_forms.specs.Joined.{HidesJoined, joinings, shell_patterns};
ghost use Rattle.secret_forms.specs.Patterns.{AddsPatterns, ListsPatterns, Writes, pattern_bytes};
ghost use Rattle.secret_forms.specs.Spelling.{HidesSpelled, shell_spellings};
ghost use Rattle.secret_forms.specs.declared.error.FormError.TheVariants.{TooShort};

use crate::bytewise::{
    Digits, add_spelled, digit, is_bash_mark, is_control, is_printable, push_escaped, push_octal,
};
use crate::error::{FormError, SHORTEST};
use crate::listed::push_new;
use crate::spelled_form::shell_encoders;
use std::alloc::{AllocError, Global};

/// How a program writes the number of a byte.
#[derive(Clone, Copy, Debug, PartialEq, Eq)]
pub enum Radix {
    /// By two hexadecimal digits.
    Hexadecimal(Digits),
    /// By its decimal digits.
    Decimal,
}

/// What stands between two numbers.
#[derive(Clone, Copy, Debug, PartialEq, Eq)]
pub enum Separator {
    /// A space.
    Space,
    /// A colon.
    Colon,
    /// `-`.
    Dash,
    /// A comma.
    Comma,
    /// A comma and a space.
    CommaSpace,
}

/// How a shell's word is quoted by what looks at the byte before each, and how a program prints the numbers of bytes.
#[derive(Clone, Copy, Debug, PartialEq, Eq)]
pub enum Joining {
    /// By the backslashes that bash writes, also before `~` behind `=` or `:`.
    Bash,
    /// As coreutils do: within single quotes, and control characters within `$'` and `'`.
    Coreutils,
    /// So in ASCII alone.
    CoreutilsAscii,
    /// By the number of each byte, with a separator between two.
    Numbers(Radix, Separator),
}

/// Whether a byte is written by a letter or its number.
fn is_numbered(joining: Joining, byte: u8) -> bool
    ensures { result ≡ spec.is_dollar_byte joining byte }
{
    match joining {
        Joining::Bash | Joining::Numbers(_, _) => false,
        Joining::Coreutils => is_control(byte),
        Joining::CoreutilsAscii => !is_printable(byte),
    }
}

/// Writes a byte within single quotes, or within `$'` and `'`.
fn push_named(out: &mut Vec<u8>, is_kept: bool, byte: u8) -> Result<(), AllocError>
    ensures named { Writes result out.old out.new (spec.named_byte is_kept byte) }
{
    match byte {
        b'\'' => out.extend_from_slice(b"'\\''"),
        7 => out.extend_from_slice(b"\\a"),
        8 => out.extend_from_slice(b"\\b"),
        9 => out.extend_from_slice(b"\\t"),
        10 => out.extend_from_slice(b"\\n"),
        11 => out.extend_from_slice(b"\\v"),
        12 => out.extend_from_slice(b"\\f"),
        13 => out.extend_from_slice(b"\\r"),
        _ => push_octal(out, is_kept, byte),
    }
}

/// Writes a byte by its decimal digits.
fn push_decimal(out: &mut Vec<u8>, byte: u8) -> Result<(), AllocError>
    ensures decimal { Writes result out.old out.new (spec.decimal_byte byte) }
{
    if byte < 10 {
        return out.extend_from_slice(&[b'0' + byte]);
    }
    if byte < 100 {
        return out.extend_from_slice(&[b'0' + byte / 10, b'0' + byte % 10]);
    }
    out.extend_from_slice(&[b'0' + byte / 100, b'0' + byte / 10 % 10, b'0' + byte % 10])
}

/// Writes the number of a byte.
fn push_radix(out: &mut Vec<u8>, radix: Radix, byte: u8) -> Result<(), AllocError>
    ensures radix { Writes result out.old out.new (spec.radix_byte radix byte) }
{
    match radix {
        Radix::Hexadecimal(digits) => {
            out.extend_from_slice(&[digit(digits, byte / 16), digit(digits, byte % 16)])
        }
        Radix::Decimal => push_decimal(out, byte),
    }
}

/// Writes a byte by itself.
fn push_alone(out: &mut Vec<u8>, joining: Joining, byte: u8) -> Result<(), AllocError>
    ensures alone { Writes result out.old out.new (spec.alone_byte joining byte) }
{
    match joining {
        Joining::Bash => push_escaped(out, !is_bash_mark(byte), byte),
        Joining::Coreutils => push_named(out, !is_numbered(joining, byte), byte),
        Joining::CoreutilsAscii => push_named(out, !is_numbered(joining, byte), byte),
        Joining::Numbers(radix, _) => push_radix(out, radix, byte),
    }
}

/// Whether a backslash stands before a byte behind another.
fn escapes_tilde(joining: Joining, before: u8, byte: u8) -> bool
    ensures { result ≡ spec.escapes_tilde joining before byte }
{
    match joining {
        Joining::Bash => byte == b'~' && (before == b'=' || before == b':'),
        _ => false,
    }
}

/// What begins numbers, unless the byte before is one.
fn opening(is_open: bool) -> &'static [u8]
    ensures { result.now ≡ spec.opening_marks is_open }
{
    if is_open {
        return b"";
    }
    b"'$'"
}

/// What ends numbers before a byte: a quote ends them by itself.
fn closing(byte: u8) -> &'static [u8]
    ensures { result.now ≡ spec.closing_marks byte }
{
    if byte == b'\'' {
        return b"";
    }
    b"''"
}

/// What separates two numbers.
fn marks_of(separator: Separator) -> &'static [u8]
    ensures { result.now ≡ spec.separator_marks separator }
{
    match separator {
        Separator::Space => b" ",
        Separator::Colon => b":",
        Separator::Dash => b"-",
        Separator::Comma => b",",
        Separator::CommaSpace => b", ",
    }
}

/// What separates two bytes that are neither within `$'` and `'`.
fn separating(joining: Joining) -> &'static [u8]
    ensures { result.now ≡ spec.separating_marks joining }
{
    match joining {
        Joining::Numbers(_, separator) => marks_of(separator),
        _ => b"",
    }
}

/// What stands between two bytes.
fn between(joining: Joining, before: u8, byte: u8) -> &'static [u8]
    ensures { result.now ≡ spec.marks_between joining before byte }
{
    if is_numbered(joining, byte) {
        return opening(is_numbered(joining, before));
    }
    if is_numbered(joining, before) {
        return closing(byte);
    }
    if escapes_tilde(joining, before, byte) {
        return b"\\";
    }
    separating(joining)
}

/// What stands before a byte, be it the first or not.
fn marks_before(joining: Joining, before: Option<u8>, byte: u8) -> &'static [u8]
    ensures { result.now ≡ spec.marks_before joining before byte }
{
    match before {
        Some(before) => between(joining, before, byte),
        None => b"",
    }
}

/// A secret as an encoder writes it.
fn joined(alloc: Global, secret: &[u8], joining: Joining) -> Result<Vec<u8>, AllocError>
    ensures whole { IfOk result (λ v. v.items ≡ spec.joined_word joining secret.now) }
{
    let mut out = Vec::new(alloc);
    let mut before = None;
    for byte in secret {
        out.extend_from_slice(marks_before(joining, before, *byte))?;
        push_alone(&mut out, joining, *byte)?;
        before = Some(*byte);
    }
    Ok(out)
}

/// Adds a secret as an encoder writes it.
fn add_one(
    alloc: Global,
    secret: &[u8],
    joining: Joining,
    patterns: &mut Vec<Vec<u8>>,
) -> Result<(), AllocError>
    ensures one { OnOk result (AddsPatterns patterns.old patterns.new (spec.joined_word joining secret.now ∷ [])) }
{
    push_new(patterns, joined(alloc, secret, joining)?)
}

/// These encoders: of words, and of the numbers of bytes as a dump, Go and Python have them.
fn encoders() -> [Joining; 12]
    ensures { result ≡ joinings }
{
    let lower = Radix::Hexadecimal(Digits::Lower);
    let upper = Radix::Hexadecimal(Digits::Upper);
    [
        Joining::Bash,
        Joining::Coreutils,
        Joining::CoreutilsAscii,
        Joining::Numbers(lower, Separator::Space),
        Joining::Numbers(lower, Separator::Colon),
        Joining::Numbers(lower, Separator::Dash),
        Joining::Numbers(upper, Separator::Space),
        Joining::Numbers(upper, Separator::Colon),
        Joining::Numbers(upper, Separator::Dash),
        Joining::Numbers(Radix::Decimal, Separator::Space),
        Joining::Numbers(Radix::Decimal, Separator::Comma),
        Joining::Numbers(Radix::Decimal, Separator::CommaSpace),
    ]
}

/// Adds a secret as each of these encoders writes it.
fn add_joined(alloc: Global, secret: &[u8], patterns: &mut Vec<Vec<u8>>) -> Result<(), AllocError>
    ensures all { OnOk result (AddsPatterns patterns.old patterns.new (spec.joined_words joinings secret.now)) }
{
    for joining in &encoders() {
        add_one(alloc, secret, *joining, patterns)?;
    }
    Ok(())
}

/// Adds the patterns of a secret in a shell's words.
pub(crate) fn add_shell(
    alloc: Global,
    secret: &[u8],
    patterns: &mut Vec<Vec<u8>>,
) -> Result<(), AllocError>
    ensures all { OnOk result (AddsPatterns patterns.old patterns.new (shell_patterns secret.now)) }
{
    add_spelled(alloc, secret, &shell_encoders(), patterns)?;
    add_joined(alloc, secret, patterns)
}

/// A secret as it is quoted for a shell: within single quotes, as git and coreutils do too, within double quotes, or `$'` and `'`, or by
/// backslashes, also by those that bash writes when it traces `[[ ]]`.
///
/// The last two clauses say that no character of the secret is shown outside these patterns.
pub fn shell_forms(alloc: Global, secret: &[u8]) -> Result<Vec<Vec<u8>>, FormError>
    ensures short { length secret.now < 4 → result ≡ Err TooShort }
    ensures long { IfErr result (λ e. e ≡ TooShort → length secret.now < 4) }
    ensures value { ListsPatterns result (shell_patterns secret.now) }
    ensures law { IfOk result (λ v. All (HidesSpelled (pattern_bytes v.items) secret.now) shell_spellings) }
    ensures joined { IfOk result (λ v. All (HidesJoined (pattern_bytes v.items) secret.now) joinings) }
{
    if secret.len() < SHORTEST {
        return Err(FormError::TooShort);
    }
    let mut patterns = Vec::new(alloc);
    add_shell(alloc, secret, &mut patterns)?;
    Ok(patterns)
}
