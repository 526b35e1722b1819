//! A secret as URLs show it, byte by byte, or by its characters as the `escape` of JavaScript has it.
//!
//! A secret that is no UTF-8 has no characters, and so no form of that kind.

ghost use Rattle.std.specs.Prelude.{◌≡◌, ◌<◌, All, Err, IfErr, IfOk, IsUtf8, OnOk, [], ◌∷◌, chars, length};
ghost use Rattle.secret_forms.specs.Escape as spec;
ghost use Rattle.secret_forms.specs.Escape.{escape_char, escape_patterns, url_patterns};
ghost use Rattle.secret_forms.specs.Law.{HidesEach};
ghost use Rattle.secret_forms.specs.Patterns.{AddsPatterns, ListsPatterns, Writes, pattern_bytes};
ghost use Rattle.secret_forms.specs.Spelling.{HidesSpelled, url_spellings};
ghost use Rattle.secret_forms.specs.declared.error.FormError.TheVariants.{TooShort};

use crate::bytewise::{Digits, Kept, Space, add_spelled, digit, push_url};
use crate::error::{FormError, SHORTEST};
use crate::listed::push_new;
use crate::spelled_form::url_encoders;
use std::alloc::{AllocError, Global};

/// Writes a character, or half of a pair, by its number: `%u` and four digits.
fn push_number(out: &mut Vec<u8>, unit: u16) -> Result<(), AllocError>
    ensures number { Writes result out.old out.new (spec.escape_unit unit) }
{
    let high = digit(Digits::Upper, (unit / 4096) as u8);
    let second = digit(Digits::Upper, (unit / 256 % 16) as u8);
    let third = digit(Digits::Upper, (unit / 16 % 16) as u8);
    let low = digit(Digits::Upper, (unit % 16) as u8);
    out.extend_from_slice(&[b'%', b'u', high, second, third, low])
}

/// Writes a character beyond the first 65,536 as a pair of numbers.
fn push_halves(out: &mut Vec<u8>, above: u32) -> Result<(), AllocError>
    requires { above < 1048576 }
    ensures halves { Writes result out.old out.new (spec.escape_pair above) }
{
    push_number(out, (0xD800 + above / 1024) as u16)?;
    push_number(out, (0xDC00 + above % 1024) as u16)
}

/// Writes a character.
fn push_escape(out: &mut Vec<u8>, character: char) -> Result<(), AllocError>
    ensures character { Writes result out.old out.new (escape_char character) }
{
    let code = u32::from(character);
    if code < 256 {
        return push_url(out, Kept::Escape, Space::Encoded, Digits::Upper, code as u8);
    }
    if code < 65536 {
        return push_number(out, code as u16);
    }
    push_halves(out, code - 65536)
}

/// A text as `escape` writes it.
fn escaped(alloc: Global, text: &str) -> Result<Vec<u8>, AllocError>
    ensures whole { IfOk result (λ v. v.items ≡ spec.escaped (chars text.now)) }
{
    let mut out = Vec::new(alloc);
    for character in text.chars() {
        push_escape(&mut out, character)?;
    }
    Ok(out)
}

/// Adds a text as `escape` writes it.
fn add_text(alloc: Global, text: &str, patterns: &mut Vec<Vec<u8>>) -> Result<(), AllocError>
    ensures text { OnOk result (AddsPatterns patterns.old patterns.new (spec.escaped (chars text.now) ∷ [])) }
{
    push_new(patterns, escaped(alloc, text)?)
}

/// Adds a secret as `escape` writes it, if it has characters.
fn add_escaped(alloc: Global, secret: &[u8], patterns: &mut Vec<Vec<u8>>) -> Result<(), AllocError>
    ensures escape { OnOk result (AddsPatterns patterns.old patterns.new (escape_patterns secret.now)) }
{
    match str::from_utf8(secret) {
        Ok(text) => add_text(alloc, text, patterns),
        Err(_) => Ok(()),
    }
}

/// Adds the patterns of a secret in URLs.
pub(crate) fn add_url(
    alloc: Global,
    secret: &[u8],
    patterns: &mut Vec<Vec<u8>>,
) -> Result<(), AllocError>
    ensures all { OnOk result (AddsPatterns patterns.old patterns.new (url_patterns secret.now)) }
{
    add_spelled(alloc, secret, &url_encoders(), patterns)?;
    add_escaped(alloc, secret, patterns)
}

/// A secret as a URL shows it, percent-encoded, as a form that is sent does, where `+` stands for a space, and by the numbers of its
/// characters as the `escape` of JavaScript writes them.
///
/// The last two clauses say that no character of the secret is shown outside these patterns. By `escape` that holds of a secret of
/// whole characters.
pub fn url_forms(alloc: Global, secret: &[u8]) -> Result<Vec<Vec<u8>>, FormError>
    ensures short { length secret.now < 4 → result ≡ Err TooShort }
    ensures long { IfErr result (λ e. e ≡ TooShort → length secret.now < 4) }
    ensures value { ListsPatterns result (url_patterns secret.now) }
    ensures law { IfOk result (λ v. All (HidesSpelled (pattern_bytes v.items) secret.now) url_spellings) }
    ensures characters { IfOk result (λ v. IsUtf8 secret.now → HidesEach escape_char (pattern_bytes v.items) (chars secret.now)) }
{
    if secret.len() < SHORTEST {
        return Err(FormError::TooShort);
    }
    let mut patterns = Vec::new(alloc);
    add_url(alloc, secret, &mut patterns)?;
    Ok(patterns)
}
