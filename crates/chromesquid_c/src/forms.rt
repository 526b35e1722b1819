//! The patterns of a secret in its forms.

ghost use Rattle.std.specs.Prelude.{◌≡◌, ◌≢◌, ◌<◌, ◌≤◌, ◌⊎◌, ℕ, List, All, IfErr, IfOk, length};
ghost use Rattle.secret_forms.specs.Forms.{HidesForm};
ghost use Rattle.secret_forms.specs.Patterns.{pattern_bytes};
ghost use Rattle.secret_forms.specs.declared.error.FormError.TheVariants.{OutOfMemory};
ghost use Rattle.chromesquid_c.specs.Replacing.{EndsReplacing};
ghost use Rattle.chromesquid_c.specs.SecretForms.{HoldsLaid, IsMeasured, PutsForms, WantsMore, each_form, form_bit, forms_in, patterns_by_bits};

use crate::status::{DONE, NO_MEMORY, NO_OPTION, NO_ROOM, TOO_SHORT};
use chromesquid::forms::{Form, FormError, forms};
use std::alloc::{AllocError, Global};

/// Within base64, of the standard alphabet and of that of URLs.
pub const FORM_BASE64: u32 = 1;

/// As hexadecimal digits.
pub const FORM_HEX: u32 = 2;

/// Percent-encoded.
pub const FORM_URL: u32 = 4;

/// Within a JSON string.
pub const FORM_JSON: u32 = 8;

/// Within XML or HTML.
pub const FORM_XML: u32 = 16;

/// Quoted for a shell.
pub const FORM_SHELL: u32 = 32;

/// Line by line.
pub const FORM_LINES: u32 = 64;

/// Each form.
pub const FORMS_ALL: u32 = 127;

/// A secret of fewer bytes has no forms.
const SHORTEST: usize = 4;

/// The patterns one behind the other, and where each ends.
#[derive(Drop)]
struct Laid {
    bytes: Vec<u8>,
    ends: Vec<usize>,
}

/// The bit of a form.
fn form_bit(form: Form) -> u32
    ensures bit { result ≡ form_bit form }
{
    match form {
        Form::Base64 => FORM_BASE64,
        Form::Hex => FORM_HEX,
        Form::Url => FORM_URL,
        Form::Json => FORM_JSON,
        Form::Xml => FORM_XML,
        Form::Shell => FORM_SHELL,
        Form::Lines => FORM_LINES,
    }
}

/// Each form, in the order of their bits.
fn each_form() -> [Form; 7]
    ensures each { result ≡ each_form }
{
    [
        Form::Base64,
        Form::Hex,
        Form::Url,
        Form::Json,
        Form::Xml,
        Form::Shell,
        Form::Lines,
    ]
}

/// The forms whose bits are set.
fn forms_in(alloc: Global, bits: u32) -> Result<Vec<Form>, AllocError>
    ensures set { IfOk result (λ listed. listed.items ≡ forms_in bits) }
{
    let mut listed = Vec::new(alloc);
    let each = each_form();
    for form in &each {
        if bits & form_bit(*form) != 0 {
            listed.push(*form)?;
        }
    }
    Ok(listed)
}

/// Lays patterns one behind the other.
fn lay(alloc: Global, patterns: &[Vec<u8>]) -> Result<Laid, AllocError>
    ensures laid { IfOk result (HoldsLaid (pattern_bytes patterns.now)) }
{
    let mut bytes = Vec::new(alloc);
    let mut ends = Vec::new(alloc);
    for pattern in patterns {
        bytes.extend_from_slice(pattern)?;
        ends.push(bytes.len())?;
    }
    Ok(Laid { bytes, ends })
}

/// The patterns of a secret by these forms, laid one behind the other.
fn laid_forms(alloc: Global, secret: &[u8], bits: u32) -> Result<Laid, FormError>
    requires long { 4 ≤ length secret.now }
    ensures laid { IfOk result (HoldsLaid (patterns_by_bits bits secret.now)) }
    ensures law { IfOk result (λ _.
        All (HidesForm (patterns_by_bits bits secret.now) secret.now) (forms_in bits)) }
    ensures failed { IfErr result (λ error. error ≡ OutOfMemory) }
{
    let listed = forms_in(alloc, bits)?;
    let patterns = forms(alloc, secret, &listed)?;
    Ok(lay(alloc, &patterns)?)
}

/// Puts patterns into the rooms, if they fit, and how many bytes and how many patterns there are.
fn put_laid(
    laid: &Laid,
    room: &mut [u8],
    ends: &mut [usize],
    len: &mut usize,
    count: &mut usize,
) -> u32
    ensures put { (patterns : List (List ℕ)) → HoldsLaid patterns laid.now → result ≡ DONE
        → PutsForms patterns room.old room.new ends.old ends.new }
    ensures wanted { (patterns : List (List ℕ)) → HoldsLaid patterns laid.now → result ≢ DONE
        → WantsMore patterns room.old ends.old }
    ensures measured { (patterns : List (List ℕ)) → HoldsLaid patterns laid.now
        → IsMeasured patterns len.new count.new }
    ensures kept { result ≢ DONE → room.new ≡ room.old }
    ensures kept_ends { result ≢ DONE → ends.new ≡ ends.old }
    ensures answered { (result ≡ DONE) ⊎ (result ≡ NO_ROOM) }
{
    *len = laid.bytes.len();
    *count = laid.ends.len();
    if room.len() < laid.bytes.len() || ends.len() < laid.ends.len() {
        return NO_ROOM;
    }
    room[..laid.bytes.len()].copy_from_slice(&laid.bytes);
    ends[..laid.ends.len()].copy_from_slice(&laid.ends);
    DONE
}

/// Puts the patterns of a secret by the forms of these bits one behind the other into `room`, each once and in the order of the bits,
/// where each ends into `ends`, how many bytes they have into `len` and how many there are into `count`, and answers 0. Where a room
/// is too small it answers 11: `len` and `count` are what is wanted, and nothing is written to the rooms. The patterns are made in
/// memory of their own first.
///
/// # Errors
///
/// 6 where a bit is of no form; else 15 where the secret has fewer than four bytes; else 5 where memory runs out. `room` and `ends`
/// are as they were unless 0 is answered, `len` and `count` unless 0 or 11 is.
#[unsafe(no_mangle)]
pub extern "C" fn cs_forms(
    alloc: Global,
    secret: &[u8],
    forms: u32,
    room: &mut [u8],
    ends: &mut [usize],
    len: &mut usize,
    count: &mut usize,
) -> u32
    ensures no_option { FORMS_ALL < forms → result ≡ NO_OPTION }
    ensures short { forms ≤ FORMS_ALL → length secret.now < 4 → result ≡ TOO_SHORT }
    ensures answered { forms ≤ FORMS_ALL → 4 ≤ length secret.now → EndsReplacing result }
    ensures put { result ≡ DONE
        → PutsForms (patterns_by_bits forms secret.now) room.old room.new ends.old ends.new }
    ensures wanted { result ≡ NO_ROOM → WantsMore (patterns_by_bits forms secret.now) room.old ends.old }
    ensures measured { (result ≡ DONE) ⊎ (result ≡ NO_ROOM)
        → IsMeasured (patterns_by_bits forms secret.now) len.new count.new }
    ensures law { result ≡ DONE
        → All (HidesForm (patterns_by_bits forms secret.now) secret.now) (forms_in forms) }
    ensures kept { result ≢ DONE → room.new ≡ room.old }
    ensures kept_ends { result ≢ DONE → ends.new ≡ ends.old }
    ensures unmeasured { result ≢ DONE → result ≢ NO_ROOM → len.new ≡ len.old }
    ensures uncounted { result ≢ DONE → result ≢ NO_ROOM → count.new ≡ count.old }
{
    if forms > FORMS_ALL {
        return NO_OPTION;
    }
    if secret.len() < SHORTEST {
        return TOO_SHORT;
    }
    match laid_forms(alloc, secret, forms) {
        Ok(laid) => put_laid(&laid, room, ends, len, count),
        Err(_) => NO_MEMORY,
    }
}
