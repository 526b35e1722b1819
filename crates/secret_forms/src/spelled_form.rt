//! A secret as encoders write it that work byte by byte.
//!
//! The encoding of some bytes is that of the first ones, and then that of the others. So that of a secret stands whole wherever the
//! secret does, also where a character is cut in two: an encoder that works by bytes does not see characters.

ghost use Rattle.std.specs.Prelude.{◌≡◌, ◌<◌, All, Err, IfErr, IfOk, length};
ghost use Rattle.secret_forms.specs.Patterns.{ListsPatterns, pattern_bytes};
ghost use Rattle.secret_forms.specs.Spelling as spec;
ghost use Rattle.secret_forms.specs.Spelling.{HidesSpelled, shell_spellings, spelled_by, url_spellings, xml_spellings};
ghost use Rattle.secret_forms.specs.declared.error.FormError.TheVariants.{TooShort};

use crate::bytewise::{
    Backslashed, Beyond, Digits, Kept, Letters, Literal, Numbers, Quotes, Quoting, Space, Spelling,
    add_spelled,
};
use crate::error::{FormError, SHORTEST};
use std::alloc::Global;

/// A secret as each of some encoders writes it.
///
/// Of bytes with the secret within, such an encoder shows no character of the secret outside these patterns.
pub fn spelled_forms(
    alloc: Global,
    secret: &[u8],
    spellings: &[Spelling],
) -> Result<Vec<Vec<u8>>, FormError>
    ensures short { length secret.now < 4 → result ≡ Err TooShort }
    ensures long { IfErr result (λ e. e ≡ TooShort → length secret.now < 4) }
    ensures value { ListsPatterns result (spelled_by spellings.now secret.now) }
    ensures law { IfOk result (λ v. All (HidesSpelled (pattern_bytes v.items) secret.now) spellings.now) }
{
    if secret.len() < SHORTEST {
        return Err(FormError::TooShort);
    }
    let mut patterns = Vec::new(alloc);
    add_spelled(alloc, secret, spellings, &mut patterns)?;
    Ok(patterns)
}

/// The encoders of URLs: ten that leave some bytes, each with a space as any other byte and as `+`, seven that write no `+` for a space,
/// one that encodes each byte, and five more without `+`, with bytes above 127 encoded and as they are; with digits in both cases.
pub(crate) fn url_encoders() -> [Spelling; 76]
    ensures { result ≡ url_spellings }
{
    let (encoded, plus) = (Space::Encoded, Space::Plus);
    let (upper, lower) = (Digits::Upper, Digits::Lower);
    [
        Spelling::Url(Kept::Unreserved, encoded, upper),
        Spelling::Url(Kept::Unreserved, encoded, lower),
        Spelling::Url(Kept::Unreserved, plus, upper),
        Spelling::Url(Kept::Unreserved, plus, lower),
        Spelling::Url(Kept::Slash, encoded, upper),
        Spelling::Url(Kept::Slash, encoded, lower),
        Spelling::Url(Kept::Slash, plus, upper),
        Spelling::Url(Kept::Slash, plus, lower),
        Spelling::Url(Kept::Component, encoded, upper),
        Spelling::Url(Kept::Component, encoded, lower),
        Spelling::Url(Kept::Component, plus, upper),
        Spelling::Url(Kept::Component, plus, lower),
        Spelling::Url(Kept::Uri, encoded, upper),
        Spelling::Url(Kept::Uri, encoded, lower),
        Spelling::Url(Kept::Uri, plus, upper),
        Spelling::Url(Kept::Uri, plus, lower),
        Spelling::Url(Kept::Form, encoded, upper),
        Spelling::Url(Kept::Form, encoded, lower),
        Spelling::Url(Kept::Form, plus, upper),
        Spelling::Url(Kept::Form, plus, lower),
        Spelling::Url(Kept::Fewest, encoded, upper),
        Spelling::Url(Kept::Fewest, encoded, lower),
        Spelling::Url(Kept::Fewest, plus, upper),
        Spelling::Url(Kept::Fewest, plus, lower),
        Spelling::Url(Kept::Dotnet, encoded, upper),
        Spelling::Url(Kept::Dotnet, encoded, lower),
        Spelling::Url(Kept::Dotnet, plus, upper),
        Spelling::Url(Kept::Dotnet, plus, lower),
        Spelling::Url(Kept::Query, encoded, upper),
        Spelling::Url(Kept::Query, encoded, lower),
        Spelling::Url(Kept::Query, plus, upper),
        Spelling::Url(Kept::Query, plus, lower),
        Spelling::Url(Kept::Path, encoded, upper),
        Spelling::Url(Kept::Path, encoded, lower),
        Spelling::Url(Kept::Path, plus, upper),
        Spelling::Url(Kept::Path, plus, lower),
        Spelling::Url(Kept::Alphanumeric, encoded, upper),
        Spelling::Url(Kept::Alphanumeric, encoded, lower),
        Spelling::Url(Kept::Alphanumeric, plus, upper),
        Spelling::Url(Kept::Alphanumeric, plus, lower),
        Spelling::Url(Kept::User, encoded, upper),
        Spelling::Url(Kept::User, encoded, lower),
        Spelling::Url(Kept::GoUser, encoded, upper),
        Spelling::Url(Kept::GoUser, encoded, lower),
        Spelling::Url(Kept::GoSegment, encoded, upper),
        Spelling::Url(Kept::GoSegment, encoded, lower),
        Spelling::Url(Kept::GoPath, encoded, upper),
        Spelling::Url(Kept::GoPath, encoded, lower),
        Spelling::Url(Kept::GoFragment, encoded, upper),
        Spelling::Url(Kept::GoFragment, encoded, lower),
        Spelling::Url(Kept::Turned, encoded, upper),
        Spelling::Url(Kept::Turned, encoded, lower),
        Spelling::Url(Kept::Escape, encoded, upper),
        Spelling::Url(Kept::Escape, encoded, lower),
        Spelling::Url(Kept::Nothing, encoded, upper),
        Spelling::Url(Kept::Nothing, encoded, lower),
        Spelling::Url(Kept::PlainPath(Beyond::Encoded), encoded, upper),
        Spelling::Url(Kept::PlainPath(Beyond::Encoded), encoded, lower),
        Spelling::Url(Kept::PlainPath(Beyond::Kept), encoded, upper),
        Spelling::Url(Kept::PlainPath(Beyond::Kept), encoded, lower),
        Spelling::Url(Kept::PlainQuery(Beyond::Encoded), encoded, upper),
        Spelling::Url(Kept::PlainQuery(Beyond::Encoded), encoded, lower),
        Spelling::Url(Kept::PlainQuery(Beyond::Kept), encoded, upper),
        Spelling::Url(Kept::PlainQuery(Beyond::Kept), encoded, lower),
        Spelling::Url(Kept::JavaQuery(Beyond::Encoded), encoded, upper),
        Spelling::Url(Kept::JavaQuery(Beyond::Encoded), encoded, lower),
        Spelling::Url(Kept::JavaQuery(Beyond::Kept), encoded, upper),
        Spelling::Url(Kept::JavaQuery(Beyond::Kept), encoded, lower),
        Spelling::Url(Kept::JavaUser(Beyond::Encoded), encoded, upper),
        Spelling::Url(Kept::JavaUser(Beyond::Encoded), encoded, lower),
        Spelling::Url(Kept::JavaUser(Beyond::Kept), encoded, upper),
        Spelling::Url(Kept::JavaUser(Beyond::Kept), encoded, lower),
        Spelling::Url(Kept::Fragment(Beyond::Encoded), encoded, upper),
        Spelling::Url(Kept::Fragment(Beyond::Encoded), encoded, lower),
        Spelling::Url(Kept::Fragment(Beyond::Kept), encoded, upper),
        Spelling::Url(Kept::Fragment(Beyond::Kept), encoded, lower),
    ]
}

/// The encoders of XML and HTML: with both quotes or one as they are, as canonical XML has it, with quotes by named, decimal and
/// hexadecimal references, and with quotes and marks by their numbers.
pub(crate) fn xml_encoders() -> [Spelling; 11]
    ensures { result ≡ xml_spellings }
{
    [
        Spelling::Xml(Quotes::Kept),
        Spelling::Xml(Quotes::Mixed),
        Spelling::Xml(Quotes::Named),
        Spelling::Xml(Quotes::DoubleAlone),
        Spelling::Xml(Quotes::Canonical),
        Spelling::Xml(Quotes::Padded),
        Spelling::Xml(Quotes::Decimal),
        Spelling::Xml(Quotes::Hexadecimal),
        Spelling::Xml(Quotes::DecimalMarks),
        Spelling::Xml(Quotes::HexadecimalMarks(Digits::Upper)),
        Spelling::Xml(Quotes::HexadecimalMarks(Digits::Lower)),
    ]
}

/// A secret as XML and HTML show it, with named, decimal or hexadecimal references.
pub fn xml_forms(alloc: Global, secret: &[u8]) -> Result<Vec<Vec<u8>>, FormError>
    ensures short { length secret.now < 4 → result ≡ Err TooShort }
    ensures long { IfErr result (λ e. e ≡ TooShort → length secret.now < 4) }
    ensures value { ListsPatterns result (spelled_by xml_spellings secret.now) }
    ensures law { IfOk result (λ v. All (HidesSpelled (pattern_bytes v.items) secret.now) xml_spellings) }
{
    spelled_forms(alloc, secret, &xml_encoders())
}

/// The ways to write a string of a program: as Python, Go, coreutils in two ways, Apache, nginx and PHP do.
fn literals() -> [Literal; 15]
    ensures { result ≡ spec.literals }
{
    let lower = Numbers::Hexadecimal(Digits::Lower);
    let upper = Numbers::Hexadecimal(Digits::Upper);
    [
        Literal {
            backslashed: Backslashed::Alone,
            letters: Letters::Three,
            numbers: lower,
            beyond: Beyond::Kept,
        },
        Literal {
            backslashed: Backslashed::Alone,
            letters: Letters::Three,
            numbers: lower,
            beyond: Beyond::Encoded,
        },
        Literal {
            backslashed: Backslashed::Single,
            letters: Letters::Three,
            numbers: lower,
            beyond: Beyond::Kept,
        },
        Literal {
            backslashed: Backslashed::Single,
            letters: Letters::Three,
            numbers: lower,
            beyond: Beyond::Encoded,
        },
        Literal {
            backslashed: Backslashed::Double,
            letters: Letters::Seven,
            numbers: lower,
            beyond: Beyond::Kept,
        },
        Literal {
            backslashed: Backslashed::Double,
            letters: Letters::Seven,
            numbers: lower,
            beyond: Beyond::Encoded,
        },
        Literal {
            backslashed: Backslashed::Double,
            letters: Letters::Seven,
            numbers: Numbers::Octal,
            beyond: Beyond::Kept,
        },
        Literal {
            backslashed: Backslashed::Double,
            letters: Letters::Seven,
            numbers: Numbers::Octal,
            beyond: Beyond::Encoded,
        },
        Literal {
            backslashed: Backslashed::Space,
            letters: Letters::Seven,
            numbers: Numbers::Octal,
            beyond: Beyond::Kept,
        },
        Literal {
            backslashed: Backslashed::Space,
            letters: Letters::Seven,
            numbers: Numbers::Octal,
            beyond: Beyond::Encoded,
        },
        Literal {
            backslashed: Backslashed::Double,
            letters: Letters::Five,
            numbers: lower,
            beyond: Beyond::Kept,
        },
        Literal {
            backslashed: Backslashed::Double,
            letters: Letters::Five,
            numbers: lower,
            beyond: Beyond::Encoded,
        },
        Literal {
            backslashed: Backslashed::Nothing,
            letters: Letters::Nothing,
            numbers: upper,
            beyond: Beyond::Kept,
        },
        Literal {
            backslashed: Backslashed::Nothing,
            letters: Letters::Nothing,
            numbers: upper,
            beyond: Beyond::Encoded,
        },
        Literal {
            backslashed: Backslashed::Single,
            letters: Letters::Nothing,
            numbers: Numbers::Kept,
            beyond: Beyond::Kept,
        },
    ]
}

/// The ways to quote a shell's word, and a string of a program.
pub(crate) fn shell_encoders() -> [Spelling; 33]
    ensures { result ≡ shell_spellings }
{
    let [a, b, c, d, e, f, g, h, i, j, k, l, m, n, o] = literals();
    [
        Spelling::Shell(Quoting::Single),
        Spelling::Shell(Quoting::SingleByDouble),
        Spelling::Shell(Quoting::Double),
        Spelling::Shell(Quoting::Backslashes),
        Spelling::Shell(Quoting::BashBackslashes),
        Spelling::Shell(Quoting::BashTildes),
        Spelling::Shell(Quoting::Every),
        Spelling::Shell(Quoting::EveryCharacter),
        Spelling::Shell(Quoting::RegexMarks),
        Spelling::Shell(Quoting::Dollar),
        Spelling::Shell(Quoting::DollarAscii),
        Spelling::Shell(Quoting::Git),
        Spelling::Shell(Quoting::DoubledSingle),
        Spelling::Shell(Quoting::DoubledDouble),
        Spelling::Shell(Quoting::Ruby),
        Spelling::Shell(Quoting::Zsh(Beyond::Kept)),
        Spelling::Shell(Quoting::Zsh(Beyond::Encoded)),
        Spelling::Shell(Quoting::Fish),
        Spelling::Literal(a),
        Spelling::Literal(b),
        Spelling::Literal(c),
        Spelling::Literal(d),
        Spelling::Literal(e),
        Spelling::Literal(f),
        Spelling::Literal(g),
        Spelling::Literal(h),
        Spelling::Literal(i),
        Spelling::Literal(j),
        Spelling::Literal(k),
        Spelling::Literal(l),
        Spelling::Literal(m),
        Spelling::Literal(n),
        Spelling::Literal(o),
    ]
}
