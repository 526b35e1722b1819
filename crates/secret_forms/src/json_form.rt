//! A secret within a JSON string.
//!
//! An encoder that leaves characters beyond ASCII as they are works byte by byte. One that writes these by their numbers works
//! character by character: a secret that is no UTF-8, as one that begins or ends within a character, has no form of this kind.

ghost use Rattle.std.specs.Prelude.{◌≡◌, ◌<◌, All, Err, IfErr, IfOk, IsUtf8, OnOk, [], ◌∷◌, chars, encode_utf8, length};
ghost use Rattle.secret_forms.specs.Json as spec;
ghost use Rattle.secret_forms.specs.Json.{HidesCharacters, json_patterns, json_spellings, json_ways};
ghost use Rattle.secret_forms.specs.Patterns.{AddsPatterns, ListsPatterns, Writes, pattern_bytes};
ghost use Rattle.secret_forms.specs.Spelling.{HidesSpelled};
ghost use Rattle.secret_forms.specs.declared.error.FormError.TheVariants.{TooShort};

use crate::bytewise::{
    Digits, Feeds, Json, Marks, Numbered, Spelling, add_spelled, push_json, push_unit,
};
use crate::error::{FormError, SHORTEST};
use crate::listed::push_new;
use std::alloc::{AllocError, Global};

/// Writes a character beyond the first 65,536 as a pair of numbers.
fn push_pair(out: &mut Vec<u8>, digits: Digits, above: u32) -> Result<(), AllocError>
    requires { above < 1048576 }
    ensures pair { Writes result out.old out.new (spec.json_pair digits above) }
{
    push_unit(out, digits, (0xD800 + above / 1024) as u16)?;
    push_unit(out, digits, (0xDC00 + above % 1024) as u16)
}

/// Whether a character beyond the first 127 is written by its number.
fn has_number(numbered: Numbered, code: u32) -> bool
    ensures { result ≡ spec.has_number numbered code }
{
    match numbered {
        Numbered::Delete => true,
        Numbered::Beyond => code > 127,
        Numbered::Separators => code == 0x2028 || code == 0x2029,
    }
}

/// Writes a character by its number, or by two.
fn push_number(out: &mut Vec<u8>, digits: Digits, code: u32) -> Result<(), AllocError>
    requires { code < 1114112 }
    ensures number { Writes result out.old out.new (spec.json_number digits code) }
{
    if code < 65536 {
        return push_unit(out, digits, code as u16);
    }
    push_pair(out, digits, code - 65536)
}

/// Writes a character in UTF-8.
fn push_utf8(out: &mut Vec<u8>, character: char) -> Result<(), AllocError>
    ensures utf8 { Writes result out.old out.new (encode_utf8 character) }
{
    let mut buffer = [0; 4];
    let encoded = character.encode_utf8(&mut buffer);
    out.extend_from_slice(encoded.as_bytes())
}

/// Writes a character of a JSON string.
fn push_char(out: &mut Vec<u8>, json: Json, character: char) -> Result<(), AllocError>
    ensures character { Writes result out.old out.new (spec.json_char json character) }
{
    let code = u32::from(character);
    if code < 127 {
        return push_json(out, json, code as u8);
    }
    if has_number(json.numbered, code) {
        return push_number(out, json.digits, code);
    }
    if code < 128 {
        return push_json(out, json, code as u8);
    }
    push_utf8(out, character)
}

/// A text within a JSON string, character by character.
fn numbered(alloc: Global, text: &str, json: Json) -> Result<Vec<u8>, AllocError>
    ensures whole { IfOk result (λ v. v.items ≡ spec.numbered json (chars text.now)) }
{
    let mut out = Vec::new(alloc);
    for character in text.chars() {
        push_char(&mut out, json, character)?;
    }
    Ok(out)
}

/// Adds a text within a JSON string, character by character.
fn add_one(
    alloc: Global,
    text: &str,
    json: Json,
    patterns: &mut Vec<Vec<u8>>,
) -> Result<(), AllocError>
    ensures one { OnOk result (AddsPatterns patterns.old patterns.new (spec.numbered json (chars text.now) ∷ [])) }
{
    push_new(patterns, numbered(alloc, text, json)?)
}

/// Adds a text as each encoder of JSON strings writes it, character by character.
fn add_numbered(alloc: Global, text: &str, patterns: &mut Vec<Vec<u8>>) -> Result<(), AllocError>
    ensures all { OnOk result (AddsPatterns patterns.old patterns.new (spec.numbered_by json_ways (chars text.now))) }
{
    for json in &encoders() {
        add_one(alloc, text, *json, patterns)?;
    }
    Ok(())
}

/// The encoders of JSON: with each choice of what is escaped beside what has to be, and with digits in both cases; then those of PHP,
/// which has the digits of marks alone in upper case, with characters beyond ASCII by their numbers or not, and those of Go.
fn encoders() -> [Json; 31]
    ensures { result ≡ json_ways }
{
    let (upper, lower) = (Digits::Upper, Digits::Lower);
    let (letters, numbers) = (Feeds::Letters, Feeds::Numbers);
    let (delete, beyond, separators) = (Numbered::Delete, Numbered::Beyond, Numbered::Separators);
    [
        Json {
            marks: Marks::Kept,
            mark_digits: lower,
            digits: lower,
            feeds: letters,
            numbered: delete,
        },
        Json {
            marks: Marks::Kept,
            mark_digits: upper,
            digits: upper,
            feeds: letters,
            numbered: delete,
        },
        Json {
            marks: Marks::Slash,
            mark_digits: lower,
            digits: lower,
            feeds: letters,
            numbered: delete,
        },
        Json {
            marks: Marks::Slash,
            mark_digits: upper,
            digits: upper,
            feeds: letters,
            numbered: delete,
        },
        Json {
            marks: Marks::Markup,
            mark_digits: lower,
            digits: lower,
            feeds: letters,
            numbered: delete,
        },
        Json {
            marks: Marks::Markup,
            mark_digits: upper,
            digits: upper,
            feeds: letters,
            numbered: delete,
        },
        Json {
            marks: Marks::SlashAndMarkup,
            mark_digits: lower,
            digits: lower,
            feeds: letters,
            numbered: delete,
        },
        Json {
            marks: Marks::SlashAndMarkup,
            mark_digits: upper,
            digits: upper,
            feeds: letters,
            numbered: delete,
        },
        Json {
            marks: Marks::Gson,
            mark_digits: lower,
            digits: lower,
            feeds: letters,
            numbered: delete,
        },
        Json {
            marks: Marks::Gson,
            mark_digits: upper,
            digits: upper,
            feeds: letters,
            numbered: delete,
        },
        Json {
            marks: Marks::Dotnet,
            mark_digits: lower,
            digits: lower,
            feeds: letters,
            numbered: delete,
        },
        Json {
            marks: Marks::Dotnet,
            mark_digits: upper,
            digits: upper,
            feeds: letters,
            numbered: delete,
        },
        Json {
            marks: Marks::Html,
            mark_digits: lower,
            digits: lower,
            feeds: letters,
            numbered: delete,
        },
        Json {
            marks: Marks::Html,
            mark_digits: upper,
            digits: upper,
            feeds: letters,
            numbered: delete,
        },
        Json {
            marks: Marks::SlashAndHtml,
            mark_digits: lower,
            digits: lower,
            feeds: letters,
            numbered: delete,
        },
        Json {
            marks: Marks::SlashAndHtml,
            mark_digits: upper,
            digits: upper,
            feeds: letters,
            numbered: delete,
        },
        Json {
            marks: Marks::Kept,
            mark_digits: upper,
            digits: lower,
            feeds: letters,
            numbered: beyond,
        },
        Json {
            marks: Marks::Slash,
            mark_digits: upper,
            digits: lower,
            feeds: letters,
            numbered: beyond,
        },
        Json {
            marks: Marks::Markup,
            mark_digits: upper,
            digits: lower,
            feeds: letters,
            numbered: beyond,
        },
        Json {
            marks: Marks::SlashAndMarkup,
            mark_digits: upper,
            digits: lower,
            feeds: letters,
            numbered: beyond,
        },
        Json {
            marks: Marks::Html,
            mark_digits: upper,
            digits: lower,
            feeds: letters,
            numbered: beyond,
        },
        Json {
            marks: Marks::SlashAndHtml,
            mark_digits: upper,
            digits: lower,
            feeds: letters,
            numbered: beyond,
        },
        Json {
            marks: Marks::Kept,
            mark_digits: upper,
            digits: lower,
            feeds: letters,
            numbered: separators,
        },
        Json {
            marks: Marks::Slash,
            mark_digits: upper,
            digits: lower,
            feeds: letters,
            numbered: separators,
        },
        Json {
            marks: Marks::Markup,
            mark_digits: upper,
            digits: lower,
            feeds: letters,
            numbered: separators,
        },
        Json {
            marks: Marks::SlashAndMarkup,
            mark_digits: upper,
            digits: lower,
            feeds: letters,
            numbered: separators,
        },
        Json {
            marks: Marks::Html,
            mark_digits: upper,
            digits: lower,
            feeds: letters,
            numbered: separators,
        },
        Json {
            marks: Marks::SlashAndHtml,
            mark_digits: upper,
            digits: lower,
            feeds: letters,
            numbered: separators,
        },
        Json {
            marks: Marks::Markup,
            mark_digits: lower,
            digits: lower,
            feeds: letters,
            numbered: separators,
        },
        Json {
            marks: Marks::Markup,
            mark_digits: lower,
            digits: lower,
            feeds: numbers,
            numbered: separators,
        },
        Json {
            marks: Marks::Kept,
            mark_digits: lower,
            digits: lower,
            feeds: numbers,
            numbered: separators,
        },
    ]
}

/// The same encoders, where characters beyond ASCII stand as they are.
fn spellings() -> [Spelling; 31]
    ensures { result ≡ json_spellings }
{
    let [
        a,
        b,
        c,
        d,
        e,
        f,
        g,
        h,
        i,
        j,
        k,
        l,
        m,
        n,
        o,
        p,
        q,
        r,
        s,
        t,
        u,
        v,
        w,
        x,
        y,
        z,
        aa,
        bb,
        cc,
        dd,
        ee,
    ] = encoders();
    [
        Spelling::Json(a),
        Spelling::Json(b),
        Spelling::Json(c),
        Spelling::Json(d),
        Spelling::Json(e),
        Spelling::Json(f),
        Spelling::Json(g),
        Spelling::Json(h),
        Spelling::Json(i),
        Spelling::Json(j),
        Spelling::Json(k),
        Spelling::Json(l),
        Spelling::Json(m),
        Spelling::Json(n),
        Spelling::Json(o),
        Spelling::Json(p),
        Spelling::Json(q),
        Spelling::Json(r),
        Spelling::Json(s),
        Spelling::Json(t),
        Spelling::Json(u),
        Spelling::Json(v),
        Spelling::Json(w),
        Spelling::Json(x),
        Spelling::Json(y),
        Spelling::Json(z),
        Spelling::Json(aa),
        Spelling::Json(bb),
        Spelling::Json(cc),
        Spelling::Json(dd),
        Spelling::Json(ee),
    ]
}

/// Adds the patterns of a secret within JSON strings.
pub(crate) fn add_json(
    alloc: Global,
    secret: &[u8],
    patterns: &mut Vec<Vec<u8>>,
) -> Result<(), AllocError>
    ensures all { OnOk result (AddsPatterns patterns.old patterns.new (json_patterns secret.now)) }
{
    add_spelled(alloc, secret, &spellings(), patterns)?;
    match str::from_utf8(secret) {
        Ok(text) => add_numbered(alloc, text, patterns),
        Err(_) => Ok(()),
    }
}

/// A secret within a JSON string, by the shortest escapes, with `/`, `<`, `>` and `&` escaped too, with what Gson or .NET escapes,
/// or with quotes escaped too, as PHP and Json.NET do for HTML, in the encoding of the text or in ASCII alone.
///
/// The last two clauses say that no character of the secret is shown outside these patterns. In ASCII alone that holds of a secret of
/// whole characters.
pub fn json_forms(alloc: Global, secret: &[u8]) -> Result<Vec<Vec<u8>>, FormError>
    ensures short { length secret.now < 4 → result ≡ Err TooShort }
    ensures long { IfErr result (λ e. e ≡ TooShort → length secret.now < 4) }
    ensures value { ListsPatterns result (json_patterns secret.now) }
    ensures bytes { IfOk result (λ v. All (HidesSpelled (pattern_bytes v.items) secret.now) json_spellings) }
    ensures characters { IfOk result (λ v. IsUtf8 secret.now → All (HidesCharacters (pattern_bytes v.items) secret.now) json_ways) }
{
    if secret.len() < SHORTEST {
        return Err(FormError::TooShort);
    }
    let mut patterns = Vec::new(alloc);
    add_json(alloc, secret, &mut patterns)?;
    Ok(patterns)
}
