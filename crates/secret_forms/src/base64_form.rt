//! A secret within base64.
//!
//! Three bytes make four characters. So what a secret decides depends on how many bytes stand ahead of it in the group in which it
//! begins: its shift, 0, 1 or 2. Where it begins or ends within a character, that character has bits of other bytes too.

ghost use Rattle.std.specs.Prelude.{◌≡◌, ◌<◌, ◌≤◌, Err, IfErr, IfOk, OnOk, [], ◌∷◌, length};
ghost use Rattle.base64.specs.Engines.{standard, standard_no_pad, url_safe, url_safe_no_pad};
ghost use Rattle.base64.specs.GeneralPurpose.{encode_of};
ghost use Rattle.secret_forms.specs.Base64.{all_ahead, all_behind, alphabet_patterns, base64_patterns, core_of, secret_within, shift_patterns, with_ahead, with_behind};
ghost use Rattle.secret_forms.specs.Base64 as spec;
ghost use Rattle.secret_forms.specs.Law.{HidesBits};
ghost use Rattle.secret_forms.specs.Patterns.{AddsPatterns, ListsPatterns, pattern_bytes};
ghost use Rattle.secret_forms.specs.declared.error.FormError.TheVariants.{TooShort};

use crate::error::{FormError, SHORTEST};
use crate::listed::push_new;
use base64::engine::general_purpose::{GeneralPurpose, STANDARD_NO_PAD, URL_SAFE_NO_PAD};
use std::alloc::{AllocError, Global};

/// The secret between other bytes: `shift` of them ahead, of which the last is `before`.
fn message(
    alloc: Global,
    shift: usize,
    before: u8,
    secret: &[u8],
    after: &[u8],
) -> Result<Vec<u8>, AllocError>
    requires { shift ≤ 2 }
    ensures whole { IfOk result (λ v. v.items ≡ secret_within shift before secret.now after.now) }
{
    let ahead = [0, before];
    let mut message = Vec::from_slice(alloc, &ahead[2 - shift..])?;
    message.extend_from_slice(secret)?;
    message.extend_from_slice(after)?;
    Ok(message)
}

/// A text without its first `front` and its last `back` characters.
fn trimmed(text: &[u8], front: usize, back: usize) -> &[u8]
    ensures part { result.now ≡ spec.trimmed front back text.now }
{
    let end = text.len().saturating_sub(back);
    if front < end {
        &text[front..end]
    } else {
        &text[..0]
    }
}

/// Adds the encoding of a message without its first `front` and its last `back` characters.
fn add_part(
    alloc: Global,
    engine: &GeneralPurpose,
    message: &[u8],
    front: usize,
    back: usize,
    patterns: &mut Vec<Vec<u8>>,
) -> Result<(), AllocError>
    ensures part { OnOk result (AddsPatterns patterns.old patterns.new (spec.trimmed front back (encode_of engine.now message.now) ∷ [])) }
{
    let text = engine.encode(alloc, message)?;
    let part = Vec::from_slice(alloc, trimmed(text.as_bytes(), front, back))?;
    push_new(patterns, part)
}

/// How many values the bits have that stand ahead of the secret in its first character.
fn values_ahead(shift: usize) -> u8
    ensures { result ≡ spec.values_ahead shift }
{
    match shift {
        0 => 0,
        1 => 4,
        _ => 16,
    }
}

/// How many values the bits have that stand behind the secret in its last character.
fn values_behind(rest: usize) -> u8
    ensures { result ≡ spec.values_behind rest }
{
    match rest {
        0 => 0,
        1 => 16,
        _ => 4,
    }
}

/// The byte that begins with such bits.
fn byte_behind(rest: usize, bits: u8) -> u8
    requires { bits < spec.values_behind rest }
    ensures { result ≡ spec.byte_behind rest bits }
{
    match rest {
        1 => bits * 16,
        _ => bits * 64,
    }
}

/// How many bytes of the last group are the secret's, or stand ahead of it.
fn rest_of(shift: usize, secret: &[u8]) -> usize
    requires { shift ≤ 2 }
    ensures { result ≡ spec.rest_of shift secret.now }
{
    (shift + secret.len() % 3) % 3
}

/// Whether the last character that holds bits of the secret holds other bits too: 1 if so.
fn back_of(rest: usize) -> usize
    ensures { result ≡ spec.back_of rest }
{
    match rest {
        0 => 0,
        _ => 1,
    }
}

/// Adds the characters that the secret alone decides.
fn add_core(
    alloc: Global,
    engine: &GeneralPurpose,
    secret: &[u8],
    shift: usize,
    patterns: &mut Vec<Vec<u8>>,
) -> Result<(), AllocError>
    requires { shift ≤ 2 }
    ensures core { OnOk result (AddsPatterns patterns.old patterns.new (core_of engine.now secret.now shift ∷ [])) }
{
    let message = message(alloc, shift, 0, secret, &[])?;
    let front = (4 * shift + 2) / 3;
    let back = back_of(rest_of(shift, secret));
    add_part(alloc, engine, &message, front, back, patterns)
}

/// Adds these and the character ahead, in which the secret begins behind these bits.
fn add_ahead(
    alloc: Global,
    engine: &GeneralPurpose,
    secret: &[u8],
    shift: usize,
    bits: u8,
    patterns: &mut Vec<Vec<u8>>,
) -> Result<(), AllocError>
    requires { shift ≤ 2 }
    ensures ahead { OnOk result (AddsPatterns patterns.old patterns.new (with_ahead engine.now secret.now shift bits ∷ [])) }
{
    let message = message(alloc, shift, bits, secret, &[])?;
    let back = back_of(rest_of(shift, secret));
    add_part(alloc, engine, &message, shift, back, patterns)
}

/// Adds these and the character behind, in which the secret ends before these bits.
fn add_behind(
    alloc: Global,
    engine: &GeneralPurpose,
    secret: &[u8],
    shift: usize,
    bits: u8,
    patterns: &mut Vec<Vec<u8>>,
) -> Result<(), AllocError>
    requires small { shift ≤ 2 }
    requires value { bits < spec.values_behind (spec.rest_of shift secret.now) }
    ensures behind { OnOk result (AddsPatterns patterns.old patterns.new (with_behind engine.now secret.now shift bits ∷ [])) }
{
    let after = byte_behind(rest_of(shift, secret), bits);
    let message = message(alloc, shift, 0, secret, &[after])?;
    add_part(alloc, engine, &message, (4 * shift + 2) / 3, 1, patterns)
}

/// Adds a pattern for each value of the bits ahead.
fn add_all_ahead(
    alloc: Global,
    engine: &GeneralPurpose,
    secret: &[u8],
    shift: usize,
    patterns: &mut Vec<Vec<u8>>,
) -> Result<(), AllocError>
    requires { shift ≤ 2 }
    ensures all { OnOk result (AddsPatterns patterns.old patterns.new (all_ahead engine.now secret.now shift)) }
{
    for bits in 0..values_ahead(shift) {
        add_ahead(alloc, engine, secret, shift, bits, patterns)?;
    }
    Ok(())
}

/// Adds a pattern for each value of the bits behind.
fn add_all_behind(
    alloc: Global,
    engine: &GeneralPurpose,
    secret: &[u8],
    shift: usize,
    patterns: &mut Vec<Vec<u8>>,
) -> Result<(), AllocError>
    requires { shift ≤ 2 }
    ensures all { OnOk result (AddsPatterns patterns.old patterns.new (all_behind engine.now secret.now shift)) }
{
    for bits in 0..values_behind(rest_of(shift, secret)) {
        add_behind(alloc, engine, secret, shift, bits, patterns)?;
    }
    Ok(())
}

/// Adds the patterns of a shift.
fn add_shift(
    alloc: Global,
    engine: &GeneralPurpose,
    secret: &[u8],
    shift: usize,
    patterns: &mut Vec<Vec<u8>>,
) -> Result<(), AllocError>
    requires { shift ≤ 2 }
    ensures all { OnOk result (AddsPatterns patterns.old patterns.new (shift_patterns engine.now secret.now shift)) }
{
    add_core(alloc, engine, secret, shift, patterns)?;
    add_all_ahead(alloc, engine, secret, shift, patterns)?;
    add_all_behind(alloc, engine, secret, shift, patterns)
}

/// Adds the patterns of an alphabet.
fn add_alphabet(
    alloc: Global,
    engine: &GeneralPurpose,
    secret: &[u8],
    patterns: &mut Vec<Vec<u8>>,
) -> Result<(), AllocError>
    ensures all { OnOk result (AddsPatterns patterns.old patterns.new (alphabet_patterns engine.now secret.now)) }
{
    add_shift(alloc, engine, secret, 0, patterns)?;
    add_shift(alloc, engine, secret, 1, patterns)?;
    add_shift(alloc, engine, secret, 2, patterns)
}

/// The standard alphabet, with no padding.
fn standard_alphabet() -> GeneralPurpose
    ensures { result ≡ standard_no_pad }
{
    STANDARD_NO_PAD
}

/// The alphabet of URLs, with no padding.
fn url_alphabet() -> GeneralPurpose
    ensures { result ≡ url_safe_no_pad }
{
    URL_SAFE_NO_PAD
}

/// Adds the patterns of the standard alphabet, and of that of URLs.
pub(crate) fn add_base64(
    alloc: Global,
    secret: &[u8],
    patterns: &mut Vec<Vec<u8>>,
) -> Result<(), AllocError>
    ensures all { OnOk result (AddsPatterns patterns.old patterns.new (base64_patterns secret.now)) }
{
    add_alphabet(alloc, &standard_alphabet(), secret, patterns)?;
    add_alphabet(alloc, &url_alphabet(), secret, patterns)
}

/// The patterns of a secret within base64, of the standard alphabet and of that of URLs.
///
/// Of bytes with the secret within, whichever stand beside it, base64 shows no character that holds a bit of the secret outside
/// these patterns, with padding or without.
pub fn base64_forms(alloc: Global, secret: &[u8]) -> Result<Vec<Vec<u8>>, FormError>
    ensures short { length secret.now < 4 → result ≡ Err TooShort }
    ensures long { IfErr result (λ e. e ≡ TooShort → length secret.now < 4) }
    ensures value { ListsPatterns result (base64_patterns secret.now) }
    ensures standard { IfOk result (λ v. HidesBits 6 (encode_of standard) (pattern_bytes v.items) secret.now) }
    ensures standard_no_pad { IfOk result (λ v. HidesBits 6 (encode_of standard_no_pad) (pattern_bytes v.items) secret.now) }
    ensures url_safe { IfOk result (λ v. HidesBits 6 (encode_of url_safe) (pattern_bytes v.items) secret.now) }
    ensures url_safe_no_pad { IfOk result (λ v. HidesBits 6 (encode_of url_safe_no_pad) (pattern_bytes v.items) secret.now) }
{
    if secret.len() < SHORTEST {
        return Err(FormError::TooShort);
    }
    let mut patterns = Vec::new(alloc);
    add_base64(alloc, secret, &mut patterns)?;
    Ok(patterns)
}
