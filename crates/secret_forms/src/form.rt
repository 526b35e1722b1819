//! Forms by their names, and several at once.

ghost use Rattle.std.specs.Prelude.{◌≡◌, ◌<◌, All, Err, IfErr, IfOk, OnOk, Some, length};
ghost use Rattle.secret_forms.specs.Forms.{HidesForm, HidesNested, form_name, form_of_name, form_patterns, forms_patterns, inner_patterns, nested_patterns};
ghost use Rattle.secret_forms.specs.Patterns.{AddsPatterns, ListsPatterns, pattern_bytes};
ghost use Rattle.secret_forms.specs.declared.error.FormError.TheVariants.{TooShort};

use crate::base64_form::add_base64;
use crate::bytewise::add_spelled;
use crate::error::{FormError, SHORTEST};
use crate::escape_form::add_url;
use crate::hex_form::add_hex;
use crate::joined_form::add_shell;
use crate::json_form::add_json;
use crate::lines_form::add_lines;
use crate::spelled_form::xml_encoders;
use std::alloc::{AllocError, Global};

/// How a secret is encoded.
#[derive(Clone, Copy, Debug, PartialEq, Eq)]
pub enum Form {
    /// Within base64, of the standard alphabet and of that of URLs: `base64_forms`.
    Base64,
    /// As hexadecimal digits: `hex_forms`.
    Hex,
    /// Percent-encoded: `url_forms`.
    Url,
    /// Within a JSON string: `json_forms`.
    Json,
    /// Within XML or HTML: `xml_forms`.
    Xml,
    /// Quoted for a shell: `shell_forms`.
    Shell,
    /// Line by line: `lines_forms`.
    Lines,
}

impl Form {
    /// The form's name.
    pub fn name(self) -> &'static str
        ensures value { result.now ≡ form_name self }
        ensures back { form_of_name result.now ≡ Some self }
    {
        match self {
            Form::Base64 => "base64",
            Form::Hex => "hex",
            Form::Url => "url",
            Form::Json => "json",
            Form::Xml => "xml",
            Form::Shell => "shell",
            Form::Lines => "lines",
        }
    }

    /// The form of a name.
    pub fn of_name(name: &str) -> Option<Form>
        ensures { result ≡ form_of_name name.now }
    {
        match name {
            "base64" => Some(Form::Base64),
            "hex" => Some(Form::Hex),
            "url" => Some(Form::Url),
            "json" => Some(Form::Json),
            "xml" => Some(Form::Xml),
            "shell" => Some(Form::Shell),
            "lines" => Some(Form::Lines),
            _ => None,
        }
    }
}

/// Adds the patterns of a form.
fn add_form(
    alloc: Global,
    secret: &[u8],
    form: Form,
    patterns: &mut Vec<Vec<u8>>,
) -> Result<(), AllocError>
    ensures all { OnOk result (AddsPatterns patterns.old patterns.new (form_patterns secret.now form)) }
{
    match form {
        Form::Base64 => add_base64(alloc, secret, patterns),
        Form::Hex => add_hex(alloc, secret, patterns),
        Form::Url => add_url(alloc, secret, patterns),
        Form::Json => add_json(alloc, secret, patterns),
        Form::Xml => add_spelled(alloc, secret, &xml_encoders(), patterns),
        Form::Shell => add_shell(alloc, secret, patterns),
        Form::Lines => add_lines(alloc, secret, patterns),
    }
}

/// Adds the patterns of each form.
fn add_forms(
    alloc: Global,
    secret: &[u8],
    forms: &[Form],
    patterns: &mut Vec<Vec<u8>>,
) -> Result<(), AllocError>
    ensures all { OnOk result (AddsPatterns patterns.old patterns.new (forms_patterns forms.now secret.now)) }
{
    for form in forms {
        add_form(alloc, secret, *form, patterns)?;
    }
    Ok(())
}

/// The patterns of a secret by several forms, each pattern once, in the order of the forms.
///
/// The last clause says that none of these forms shows a character that holds a bit of the secret outside the patterns.
pub fn forms(alloc: Global, secret: &[u8], forms: &[Form]) -> Result<Vec<Vec<u8>>, FormError>
    ensures short { length secret.now < 4 → result ≡ Err TooShort }
    ensures long { IfErr result (λ e. e ≡ TooShort → length secret.now < 4) }
    ensures value { ListsPatterns result (forms_patterns forms.now secret.now) }
    ensures law { IfOk result (λ v. All (HidesForm (pattern_bytes v.items) secret.now) forms.now) }
{
    if secret.len() < SHORTEST {
        return Err(FormError::TooShort);
    }
    let mut patterns = Vec::new(alloc);
    add_forms(alloc, secret, forms, &mut patterns)?;
    Ok(patterns)
}

/// Adds the patterns of each of some patterns, which a form encodes as it does a secret.
fn add_each(
    alloc: Global,
    inner: &[Vec<u8>],
    outer: Form,
    patterns: &mut Vec<Vec<u8>>,
) -> Result<(), AllocError>
    ensures all { OnOk result (AddsPatterns patterns.old patterns.new (nested_patterns (pattern_bytes inner.now) outer)) }
{
    for pattern in inner {
        add_form(alloc, pattern, outer, patterns)?;
    }
    Ok(())
}

/// The patterns of a secret that is encoded twice, as within base64 of JSON: by the inner form, and what that makes by the outer one.
///
/// The last clause says that the outer form shows no character that holds a bit of what the inner one makes of the secret outside the
/// patterns.
pub fn nested_forms(
    alloc: Global,
    secret: &[u8],
    inner: Form,
    outer: Form,
) -> Result<Vec<Vec<u8>>, FormError>
    ensures short { length secret.now < 4 → result ≡ Err TooShort }
    ensures long { IfErr result (λ e. e ≡ TooShort → length secret.now < 4) }
    ensures value { ListsPatterns result (nested_patterns (inner_patterns secret.now inner) outer) }
    ensures law { IfOk result (λ v. All (HidesNested (pattern_bytes v.items) outer) (form_patterns secret.now inner)) }
{
    if secret.len() < SHORTEST {
        return Err(FormError::TooShort);
    }
    let mut within = Vec::new(alloc);
    add_form(alloc, secret, inner, &mut within)?;
    let mut patterns = Vec::new(alloc);
    add_each(alloc, &within, outer, &mut patterns)?;
    Ok(patterns)
}
