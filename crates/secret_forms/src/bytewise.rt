//! How encoders that work byte by byte write each byte.

ghost use Rattle.std.specs.Prelude.{◌≡◌, ◌<◌, IfOk, OnOk, [], ◌∷◌};
ghost use Rattle.secret_forms.specs.Patterns.{AddsPatterns, Writes};
ghost use Rattle.secret_forms.specs.Spelling as spec;

use crate::listed::push_new;
use std::alloc::{AllocError, Global};

/// The bytes that stand in a URL as they are.
#[derive(Clone, Copy, Debug, PartialEq, Eq)]
pub enum Kept {
    /// None: each byte is encoded.
    Nothing,
    /// The unreserved ones: letters, digits, `-`, `.`, `_` and `~`.
    Unreserved,
    /// These and `/`.
    Slash,
    /// What JavaScript leaves in a part of a URL: these without `/`, and `!'()*`.
    Component,
    /// What JavaScript leaves in a whole URL: these, `/` and `;,?:@&=+$#`.
    Uri,
    /// What forms of HTML and Java leave: letters, digits, `*`, `-`, `.` and `_`.
    Form,
    /// What PHP leaves in a form: letters, digits, `-`, `.` and `_`.
    Fewest,
    /// What .NET leaves: these and `!*()`.
    Dotnet,
    /// What a browser leaves in the query of a URL: all marks but `"#<>'`.
    Query,
    /// What a browser leaves in the path of a URL: all marks but `"#<>?` and backquotes and braces.
    Path,
    /// What a browser leaves in the name and password of a URL: `!$%&'()*+,-._~`.
    User,
    /// What Go leaves in the name and password of a URL: the unreserved ones and `$&+,;=`.
    GoUser,
    /// What Go leaves in a segment of a path: the unreserved ones and `$&+:=@`.
    GoSegment,
    /// What Go leaves in a path: the unreserved ones and `$&+,/:;=@`.
    GoPath,
    /// What Go leaves in a fragment: these and `?!()*`.
    GoFragment,
    /// Letters and digits alone.
    Alphanumeric,
    /// What a browser leaves in the path of a URL, in which it turns each backslash into `/`.
    Turned,
    /// What `escape` of JavaScript leaves: letters, digits and `@*_+-./`.
    Escape,
    /// What RFC 3986 leaves in a path, as Java does: the unreserved ones and `!'()*;,/:@&=+$`.
    PlainPath(Beyond),
    /// What it leaves in a query: these and `?`.
    PlainQuery(Beyond),
    /// What Java leaves in a query and a fragment: these, `[` and `]`.
    JavaQuery(Beyond),
    /// What Java leaves in the name and password of a URL: the unreserved ones and `!'()*;,:&=+$`.
    JavaUser(Beyond),
    /// What a browser leaves in the fragment of a URL: all marks but `"<>` and backquotes.
    Fragment(Beyond),
}

/// How a URL's encoder writes the bytes above 127.
#[derive(Clone, Copy, Debug, PartialEq, Eq)]
pub enum Beyond {
    /// Encoded.
    Encoded,
    /// As they are.
    Kept,
}

/// How a URL's encoder writes a space.
#[derive(Clone, Copy, Debug, PartialEq, Eq)]
pub enum Space {
    /// As any other byte.
    Encoded,
    /// As `+`.
    Plus,
}

/// The letters among hexadecimal digits.
#[derive(Clone, Copy, Debug, PartialEq, Eq)]
pub enum Digits {
    /// `A` to `F`.
    Upper,
    /// `a` to `f`.
    Lower,
}

/// How XML and HTML write quotes, and marks: `&`, `<` and `>` stand by their names, where nothing else is said.
#[derive(Clone, Copy, Debug, PartialEq, Eq)]
pub enum Quotes {
    /// As they are.
    Kept,
    /// `&quot;` and `&#39;`.
    Mixed,
    /// `&quot;` and `&apos;`.
    Named,
    /// `&quot;`, and a single quote as it is.
    DoubleAlone,
    /// `&quot;`, and a single quote and `>` as they are.
    Canonical,
    /// `&quot;` and `&#039;`.
    Padded,
    /// `&#34;` and `&#39;`.
    Decimal,
    /// `&quot;` and `&#x27;`.
    Hexadecimal,
    /// Quotes and marks by their decimal numbers: `&#60;` for `<`.
    DecimalMarks,
    /// Quotes and marks by their hexadecimal numbers, `&#x3C;` or `&#x3c;` for `<`.
    HexadecimalMarks(Digits),
}

/// How a shell's word is quoted.
#[derive(Clone, Copy, Debug, PartialEq, Eq)]
pub enum Quoting {
    /// Within single quotes, with `'\''` for one.
    Single,
    /// Within single quotes, with `'"'"'` for one.
    SingleByDouble,
    /// Within double quotes, with backslashes.
    Double,
    /// By backslashes alone.
    Backslashes,
    /// By the backslashes that bash writes, which leaves `#` and `~` and other bytes that other shells escape.
    BashBackslashes,
    /// So with `~` escaped too, as bash does behind `=` and `:`.
    BashTildes,
    /// As bash traces a comparison by `[[ ]]`: with a backslash before each byte, but 1 and 127.
    Every,
    /// So, with none within a character of UTF-8.
    EveryCharacter,
    /// As bash traces `=~`: with a backslash before the marks of a regular expression.
    RegexMarks,
    /// Within `$'` and `'`, with letters or octal digits for control characters.
    Dollar,
    /// So in ASCII alone.
    DollarAscii,
    /// As git does: within single quotes, with `'\''` for one and `'\!'` for `!`.
    Git,
    /// As SQL, YAML and PowerShell do: within single quotes, with `''` for one.
    DoubledSingle,
    /// As CSV, SQL and PowerShell do: within double quotes, with `""` for one.
    DoubledDouble,
    /// As Ruby's `Shellwords` does: by a backslash before each character but some, and a line feed within single quotes.
    Ruby,
    /// As zsh does: by backslashes, and each control character within `$'` and `'`.
    Zsh(Beyond),
    /// As fish does where a quote or a control character is in the word: by backslashes, with letters and numbers.
    Fish,
}

/// The bytes before which a backslash stands in a string of a program.
#[derive(Clone, Copy, Debug, PartialEq, Eq)]
pub enum Backslashed {
    /// None: the backslash and `"` are written by their numbers.
    Nothing,
    /// The backslash alone.
    Alone,
    /// The backslash and `'`.
    Single,
    /// The backslash and `"`.
    Double,
    /// The backslash and the space.
    Space,
}

/// The control characters that a string of a program has by a letter.
#[derive(Clone, Copy, Debug, PartialEq, Eq)]
pub enum Letters {
    /// None.
    Nothing,
    /// `\t`, `\n` and `\r`.
    Three,
    /// These, `\b` and `\v`.
    Five,
    /// These, `\a` and `\f`.
    Seven,
}

/// How a string of a program has the control characters that have no letter.
#[derive(Clone, Copy, Debug, PartialEq, Eq)]
pub enum Numbers {
    /// By `\x` and two hexadecimal digits.
    Hexadecimal(Digits),
    /// By a backslash and three octal digits.
    Octal,
    /// As they are.
    Kept,
}

/// How a program writes a string.
#[derive(Clone, Copy, Debug, PartialEq, Eq)]
pub struct Literal {
    /// The bytes before which a backslash stands.
    pub backslashed: Backslashed,
    /// The control characters that it has by a letter.
    pub letters: Letters,
    /// How it has the others.
    pub numbers: Numbers,
    /// Whether it has the bytes above 127 so too.
    pub beyond: Beyond,
}

/// What JSON escapes beside quotes, backslashes and control characters.
#[derive(Clone, Copy, Debug, PartialEq, Eq)]
pub enum Marks {
    /// Nothing.
    Kept,
    /// `/`.
    Slash,
    /// `<`, `>` and `&`, by their numbers.
    Markup,
    /// All four.
    SlashAndMarkup,
    /// What Gson escapes: `<`, `>`, `&`, `=` and single quotes, by their numbers.
    Gson,
    /// What .NET escapes: `<`, `>`, `&`, `+`, both quotes, backquotes and the byte 127, by their numbers.
    Dotnet,
    /// What Newtonsoft's Json.NET escapes for HTML: `<`, `>`, `&` and both quotes, by their numbers.
    Html,
    /// These and `/`, as PHP does.
    SlashAndHtml,
}

/// How JSON has a backspace and a form feed.
#[derive(Clone, Copy, Debug, PartialEq, Eq)]
pub enum Feeds {
    /// As `\b` and `\f`.
    Letters,
    /// By their numbers, as Go has them up to version 1.21.
    Numbers,
}

/// Which characters beyond ASCII an encoder of JSON writes by their numbers where it works character by character.
#[derive(Clone, Copy, Debug, PartialEq, Eq)]
pub enum Numbered {
    /// All of them, and the character 127.
    Delete,
    /// All of them.
    Beyond,
    /// The separators of lines and paragraphs, U+2028 and U+2029.
    Separators,
}

/// How an encoder of JSON writes what it escapes.
#[derive(Clone, Copy, Debug, PartialEq, Eq)]
pub struct Json {
    /// What it escapes beside what it has to.
    pub marks: Marks,
    /// The digits of such a mark's number.
    pub mark_digits: Digits,
    /// The digits of another character's number.
    pub digits: Digits,
    /// How it has a backspace and a form feed.
    pub feeds: Feeds,
    /// Which characters beyond ASCII it writes by their numbers.
    pub numbered: Numbered,
}

/// How an encoder writes each byte.
#[derive(Clone, Copy, Debug, PartialEq, Eq)]
pub enum Spelling {
    /// Percent-encoded.
    Url(Kept, Space, Digits),
    /// Within a JSON string, where characters beyond ASCII stand as they are.
    Json(Json),
    /// With references.
    Xml(Quotes),
    /// Quoted for a shell.
    Shell(Quoting),
    /// As a string of a program.
    Literal(Literal),
}

/// The marks that stand in a URL as they are.
fn kept_marks(kept: Kept) -> &'static [u8]
    ensures { result.now ≡ spec.kept_marks kept }
{
    match kept {
        Kept::Nothing => b"",
        Kept::Unreserved => b"-._~",
        Kept::Slash => b"-._~/",
        Kept::Component => b"-._~!'()*",
        Kept::Uri => b"-._~!'()*;,/?:@&=+$#",
        Kept::Form => b"-._*",
        Kept::Fewest => b"-._",
        Kept::Dotnet => b"-._!*()",
        Kept::Query => b"-._~!()*;,/?:@&=+$%[\\]^`{|}",
        Kept::Path => b"-._~!'()*;,/:@&=+$%[\\]^|",
        Kept::User => b"-._~!'()*,&+$%",
        Kept::GoUser => b"-._~$&+,;=",
        Kept::GoSegment => b"-._~$&+:=@",
        Kept::GoPath => b"-._~$&+,/:;=@",
        Kept::GoFragment => b"-._~$&+,/:;=?@!()*",
        Kept::Alphanumeric => b"",
        Kept::Turned => b"-._~!'()*;,/:@&=+$%[\\]^|",
        Kept::Escape => b"-._*@+/",
        Kept::PlainPath(_) => b"-._~!'()*;,/:@&=+$",
        Kept::PlainQuery(_) => b"-._~!'()*;,/?:@&=+$",
        Kept::JavaQuery(_) => b"-._~!'()*;,/?:@&=+$[]",
        Kept::JavaUser(_) => b"-._~!'()*;,:&=+$",
        Kept::Fragment(_) => b"-._~!'()*;,/?:@&=+$#%[\\]^{|}",
    }
}

/// Whether bytes above 127 stand in a URL as they are.
fn keeps_beyond(kept: Kept) -> bool
    ensures { result ≡ spec.keeps_beyond kept }
{
    match kept {
        Kept::PlainPath(beyond)
        | Kept::PlainQuery(beyond)
        | Kept::JavaQuery(beyond)
        | Kept::JavaUser(beyond)
        | Kept::Fragment(beyond) => beyond == Beyond::Kept,
        _ => false,
    }
}

/// Whether letters and digits stand in a URL as they are.
fn keeps_letters(kept: Kept) -> bool
    ensures { result ≡ spec.keeps_letters kept }
{
    match kept {
        Kept::Nothing => false,
        _ => true,
    }
}

/// Whether a byte stands in a URL as it is.
fn is_unencoded(kept: Kept, byte: u8) -> bool
    ensures { result ≡ spec.is_unencoded kept byte }
{
    keeps_letters(kept) && byte.is_ascii_alphanumeric()
        || kept_marks(kept).contains(&byte)
        || keeps_beyond(kept) && byte > 127
}

/// Whether a URL has `/` in place of a byte.
fn is_turned(kept: Kept, byte: u8) -> bool
    ensures { result ≡ spec.is_turned kept byte }
{
    match kept {
        Kept::Turned => byte == b'\\',
        _ => false,
    }
}

/// A hexadecimal digit.
pub(crate) fn digit(digits: Digits, value: u8) -> u8
    requires { value < 16 }
    ensures { result ≡ spec.digit digits value }
{
    if value < 10 {
        return b'0' + value;
    }
    match digits {
        Digits::Upper => b'A' - 10 + value,
        Digits::Lower => b'a' - 10 + value,
    }
}

/// Whether a space is written as `+`.
fn is_plus(space: Space, byte: u8) -> bool
    ensures { result ≡ spec.is_plus space byte }
{
    match space {
        Space::Encoded => false,
        Space::Plus => byte == b' ',
    }
}

/// Writes a byte of a URL.
pub(crate) fn push_url(
    out: &mut Vec<u8>,
    kept: Kept,
    space: Space,
    digits: Digits,
    byte: u8,
) -> Result<(), AllocError>
    ensures url { Writes result out.old out.new (spec.url_byte kept space digits byte) }
{
    if is_turned(kept, byte) {
        return out.extend_from_slice(b"/");
    }
    if is_unencoded(kept, byte) {
        return out.extend_from_slice(&[byte]);
    }
    if is_plus(space, byte) {
        return out.extend_from_slice(b"+");
    }
    out.extend_from_slice(&[b'%', digit(digits, byte / 16), digit(digits, byte % 16)])
}

/// Writes a character, or half of a pair, by its number: `\u` and four digits.
pub(crate) fn push_unit(out: &mut Vec<u8>, digits: Digits, unit: u16) -> Result<(), AllocError>
    ensures unit { Writes result out.old out.new (spec.json_unit digits unit) }
{
    let high = digit(digits, (unit / 4096) as u8);
    let second = digit(digits, (unit / 256 % 16) as u8);
    let third = digit(digits, (unit / 16 % 16) as u8);
    let low = digit(digits, (unit % 16) as u8);
    out.extend_from_slice(&[b'\\', b'u', high, second, third, low])
}

/// Whether `/` is escaped.
fn escapes_slash(marks: Marks) -> bool
    ensures { result ≡ spec.escapes_slash marks }
{
    match marks {
        Marks::Slash | Marks::SlashAndMarkup | Marks::SlashAndHtml => true,
        _ => false,
    }
}

/// The bytes beside control characters that JSON writes by their numbers.
fn numbered_marks(marks: Marks) -> &'static [u8]
    ensures { result.now ≡ spec.numbered_marks marks }
{
    match marks {
        Marks::Kept | Marks::Slash => b"",
        Marks::Markup | Marks::SlashAndMarkup => b"<>&",
        Marks::Gson => b"<>&='",
        Marks::Dotnet => b"<>&+'\"`\x7f",
        Marks::Html | Marks::SlashAndHtml => b"<>&'\"",
    }
}

/// Whether JSON writes a mark by its number.
fn is_numbered_mark(marks: Marks, byte: u8) -> bool
    ensures { result ≡ spec.is_numbered_mark marks byte }
{
    numbered_marks(marks).contains(&byte)
}

/// Whether a backslash stands before a byte of a JSON string that is not written by its number.
fn has_backslash(marks: Marks, byte: u8) -> bool
    ensures { result ≡ spec.has_backslash marks byte }
{
    byte == b'"' || byte == b'/' && escapes_slash(marks)
}

/// Writes a byte of a JSON string for which there is no letter.
fn push_no_letter(out: &mut Vec<u8>, json: Json, byte: u8) -> Result<(), AllocError>
    ensures json { Writes result out.old out.new (spec.json_no_letter json byte) }
{
    if byte < 32 {
        return push_unit(out, json.digits, u16::from(byte));
    }
    if is_numbered_mark(json.marks, byte) {
        return push_unit(out, json.mark_digits, u16::from(byte));
    }
    push_escaped(out, !has_backslash(json.marks, byte), byte)
}

/// Writes a backspace or a form feed.
fn push_feed(out: &mut Vec<u8>, json: Json, byte: u8, letter: u8) -> Result<(), AllocError>
    ensures feed { Writes result out.old out.new (spec.json_feed json byte letter) }
{
    match json.feeds {
        Feeds::Letters => out.extend_from_slice(&[b'\\', letter]),
        Feeds::Numbers => push_unit(out, json.digits, u16::from(byte)),
    }
}

/// Writes a byte of a JSON string.
pub(crate) fn push_json(out: &mut Vec<u8>, json: Json, byte: u8) -> Result<(), AllocError>
    ensures json { Writes result out.old out.new (spec.json_byte json byte) }
{
    match byte {
        b'\\' => out.extend_from_slice(b"\\\\"),
        8 => push_feed(out, json, byte, b'b'),
        9 => out.extend_from_slice(b"\\t"),
        10 => out.extend_from_slice(b"\\n"),
        12 => push_feed(out, json, byte, b'f'),
        13 => out.extend_from_slice(b"\\r"),
        _ => push_no_letter(out, json, byte),
    }
}

/// A double quote as XML and HTML write it.
fn double_quote(quotes: Quotes) -> &'static [u8]
    ensures { result.now ≡ spec.double_quote quotes }
{
    match quotes {
        Quotes::Kept => b"\"",
        Quotes::Mixed
        | Quotes::Named
        | Quotes::DoubleAlone
        | Quotes::Canonical
        | Quotes::Padded
        | Quotes::Hexadecimal => b"&quot;",
        Quotes::Decimal | Quotes::DecimalMarks => b"&#34;",
        Quotes::HexadecimalMarks(_) => b"&#x22;",
    }
}

/// A single quote as XML and HTML write it.
fn single_quote(quotes: Quotes) -> &'static [u8]
    ensures { result.now ≡ spec.single_quote quotes }
{
    match quotes {
        Quotes::Kept | Quotes::DoubleAlone | Quotes::Canonical => b"'",
        Quotes::Padded => b"&#039;",
        Quotes::Mixed | Quotes::Decimal | Quotes::DecimalMarks => b"&#39;",
        Quotes::Named => b"&apos;",
        Quotes::Hexadecimal | Quotes::HexadecimalMarks(_) => b"&#x27;",
    }
}

/// `&` as XML and HTML write it.
fn ampersand(quotes: Quotes) -> &'static [u8]
    ensures { result.now ≡ spec.ampersand quotes }
{
    match quotes {
        Quotes::DecimalMarks => b"&#38;",
        Quotes::HexadecimalMarks(_) => b"&#x26;",
        _ => b"&amp;",
    }
}

/// `<` as XML and HTML write it.
fn less_than(quotes: Quotes) -> &'static [u8]
    ensures { result.now ≡ spec.less_than quotes }
{
    match quotes {
        Quotes::DecimalMarks => b"&#60;",
        Quotes::HexadecimalMarks(Digits::Upper) => b"&#x3C;",
        Quotes::HexadecimalMarks(Digits::Lower) => b"&#x3c;",
        _ => b"&lt;",
    }
}

/// `>` as XML and HTML write it.
fn greater_than(quotes: Quotes) -> &'static [u8]
    ensures { result.now ≡ spec.greater_than quotes }
{
    match quotes {
        Quotes::DecimalMarks => b"&#62;",
        Quotes::HexadecimalMarks(Digits::Upper) => b"&#x3E;",
        Quotes::HexadecimalMarks(Digits::Lower) => b"&#x3e;",
        Quotes::Canonical => b">",
        _ => b"&gt;",
    }
}

/// Writes a byte of XML or HTML.
fn push_xml(out: &mut Vec<u8>, quotes: Quotes, byte: u8) -> Result<(), AllocError>
    ensures xml { Writes result out.old out.new (spec.xml_byte quotes byte) }
{
    match byte {
        b'&' => out.extend_from_slice(ampersand(quotes)),
        b'<' => out.extend_from_slice(less_than(quotes)),
        b'>' => out.extend_from_slice(greater_than(quotes)),
        b'"' => out.extend_from_slice(double_quote(quotes)),
        b'\'' => out.extend_from_slice(single_quote(quotes)),
        _ => out.extend_from_slice(&[byte]),
    }
}

/// Whether a byte stands as it is in a word that is quoted by backslashes alone.
fn is_plain(byte: u8) -> bool
    ensures { result ≡ spec.is_plain byte }
{
    byte > 127 || byte.is_ascii_alphanumeric() || b"@%+=:,./-_".contains(&byte)
}

/// Writes a byte with a backslash before it, unless it stands as it is.
pub(crate) fn push_escaped(out: &mut Vec<u8>, is_kept: bool, byte: u8) -> Result<(), AllocError>
    ensures escaped { Writes result out.old out.new (spec.escaped_unless is_kept byte) }
{
    if is_kept {
        return out.extend_from_slice(&[byte]);
    }
    out.extend_from_slice(&[b'\\', byte])
}

/// Whether bash puts a backslash before a byte, by which it quotes a word.
pub(crate) fn is_bash_mark(byte: u8) -> bool
    ensures { result ≡ spec.is_bash_mark byte }
{
    b" !\"$&'()*,;<>?[\\]^`{|}".contains(&byte)
}

/// Whether a byte is such a one or `~`.
fn is_bash_mark_or_tilde(byte: u8) -> bool
    ensures { result ≡ spec.is_bash_mark_or_tilde byte }
{
    byte == b'~' || is_bash_mark(byte)
}

/// Whether bash puts a backslash before a byte when it traces a comparison.
fn is_traced(byte: u8) -> bool
    ensures { result ≡ spec.is_traced byte }
{
    byte != 1 && byte != 127
}

/// Whether a byte is within a character of UTF-8, and not its first.
fn is_continuation(byte: u8) -> bool
    ensures { result ≡ spec.is_continuation byte }
{
    byte > 127 && byte < 192
}

/// Whether bash puts a backslash before a character that begins with a byte.
fn is_traced_character(byte: u8) -> bool
    ensures { result ≡ spec.is_traced_character byte }
{
    is_traced(byte) && !is_continuation(byte)
}

/// Whether a byte is a mark of a regular expression.
fn is_regex_mark(byte: u8) -> bool
    ensures { result ≡ spec.is_regex_mark byte }
{
    b".[*^$+?(){|\\".contains(&byte)
}

/// Whether a byte is a control character of ASCII.
pub(crate) fn is_control(byte: u8) -> bool
    ensures { result ≡ spec.is_control byte }
{
    byte < 32 || byte == 127
}

/// Whether a byte is one of ASCII, and no control character.
pub(crate) fn is_printable(byte: u8) -> bool
    ensures { result ≡ spec.is_printable byte }
{
    !is_control(byte) && byte < 128
}

/// Writes a byte by its number, a backslash and three octal digits, unless it stands as it is.
pub(crate) fn push_octal(out: &mut Vec<u8>, is_kept: bool, byte: u8) -> Result<(), AllocError>
    ensures octal { Writes result out.old out.new (spec.octal_unless is_kept byte) }
{
    if is_kept {
        return out.extend_from_slice(&[byte]);
    }
    out.extend_from_slice(&[
        b'\\',
        b'0' + byte / 64,
        b'0' + byte / 8 % 8,
        b'0' + byte % 8,
    ])
}

/// Writes a byte within `$'` and `'`, where it stands as it is or not if there is no letter for it.
fn push_dollar(out: &mut Vec<u8>, is_kept: bool, byte: u8) -> Result<(), AllocError>
    ensures dollar { Writes result out.old out.new (spec.dollar_byte is_kept byte) }
{
    match byte {
        b'\'' => out.extend_from_slice(b"\\'"),
        b'\\' => out.extend_from_slice(b"\\\\"),
        7 => out.extend_from_slice(b"\\a"),
        8 => out.extend_from_slice(b"\\b"),
        9 => out.extend_from_slice(b"\\t"),
        10 => out.extend_from_slice(b"\\n"),
        11 => out.extend_from_slice(b"\\v"),
        12 => out.extend_from_slice(b"\\f"),
        13 => out.extend_from_slice(b"\\r"),
        27 => out.extend_from_slice(b"\\E"),
        _ => push_octal(out, is_kept, byte),
    }
}

/// Writes a byte within single quotes.
fn push_single(out: &mut Vec<u8>, quote: &[u8], byte: u8) -> Result<(), AllocError>
    ensures single { Writes result out.old out.new (spec.single_byte quote.now byte) }
{
    if byte == b'\'' {
        return out.extend_from_slice(quote);
    }
    out.extend_from_slice(&[byte])
}

/// Writes a byte within single quotes as git does, which ends them before a quote and before `!`.
fn push_git(out: &mut Vec<u8>, byte: u8) -> Result<(), AllocError>
    ensures git { Writes result out.old out.new (spec.git_byte byte) }
{
    if b"'!".contains(&byte) {
        return out.extend_from_slice(&[b'\'', b'\\', byte, b'\'']);
    }
    out.extend_from_slice(&[byte])
}

/// Writes a byte, or a mark twice.
fn push_doubled(out: &mut Vec<u8>, mark: u8, byte: u8) -> Result<(), AllocError>
    ensures doubled { Writes result out.old out.new (spec.doubled_byte mark byte) }
{
    if byte == mark {
        return out.extend_from_slice(&[mark, mark]);
    }
    out.extend_from_slice(&[byte])
}

/// Whether Ruby writes a byte with no backslash before it: one that stands as it is, or one within a character.
fn is_ruby_plain(byte: u8) -> bool
    ensures { result ≡ spec.is_ruby_plain byte }
{
    byte.is_ascii_alphanumeric() || b"_-.,:+/@".contains(&byte) || is_continuation(byte)
}

/// Writes a byte of a word as Ruby's `Shellwords` does.
fn push_ruby(out: &mut Vec<u8>, byte: u8) -> Result<(), AllocError>
    ensures ruby { Writes result out.old out.new (spec.ruby_byte byte) }
{
    if byte == b'\n' {
        return out.extend_from_slice(b"'\n'");
    }
    push_escaped(out, is_ruby_plain(byte), byte)
}

/// Whether zsh puts a backslash before a byte.
fn is_zsh_mark(byte: u8) -> bool
    ensures { result ≡ spec.is_zsh_mark byte }
{
    b" '\"$\\#[]{}()<>|&;`*?^".contains(&byte)
}

/// Whether a byte is printed: one of ASCII that is no control character, or one above 127 that is kept.
fn is_printed(beyond: Beyond, byte: u8) -> bool
    ensures { result ≡ spec.is_printed beyond byte }
{
    match beyond {
        Beyond::Encoded => is_printable(byte),
        Beyond::Kept => !is_control(byte),
    }
}

/// Whether a backslash stands before a byte in a string of a program.
fn is_backslashed(backslashed: Backslashed, byte: u8) -> bool
    ensures { result ≡ spec.is_backslashed backslashed byte }
{
    match backslashed {
        Backslashed::Nothing => false,
        Backslashed::Alone => byte == b'\\',
        Backslashed::Single => byte == b'\\' || byte == b'\'',
        Backslashed::Double => byte == b'\\' || byte == b'"',
        Backslashed::Space => byte == b'\\' || byte == b' ',
    }
}

/// Whether a byte that could be printed is written by its number.
fn is_numbered_quote(backslashed: Backslashed, byte: u8) -> bool
    ensures { result ≡ spec.is_numbered_quote backslashed byte }
{
    match backslashed {
        Backslashed::Nothing => byte == b'\\' || byte == b'"',
        _ => false,
    }
}

/// Whether a byte stands as it is in a string of a program.
fn is_literal(literal: Literal, byte: u8) -> bool
    ensures { result ≡ spec.is_literal literal byte }
{
    is_printed(literal.beyond, byte) && !is_numbered_quote(literal.backslashed, byte)
}

/// Whether a string of a program has a control character by a letter.
fn has_letter(letters: Letters, byte: u8) -> bool
    ensures { result ≡ spec.has_letter letters byte }
{
    match letters {
        Letters::Nothing => false,
        Letters::Three => byte == 9 || byte == 10 || byte == 13,
        Letters::Five => byte > 7 && byte < 14 && byte != 12,
        Letters::Seven => byte > 6 && byte < 14,
    }
}

/// The letter of a control character.
fn letter(byte: u8) -> u8
    ensures { result ≡ spec.letter byte }
{
    match byte {
        7 => b'a',
        8 => b'b',
        9 => b't',
        10 => b'n',
        11 => b'v',
        12 => b'f',
        _ => b'r',
    }
}

/// Writes a byte by its number, or as it is.
fn push_numbered(out: &mut Vec<u8>, numbers: Numbers, byte: u8) -> Result<(), AllocError>
    ensures numbered { Writes result out.old out.new (spec.numbered_byte numbers byte) }
{
    match numbers {
        Numbers::Hexadecimal(digits) => out.extend_from_slice(&[
            b'\\',
            b'x',
            digit(digits, byte / 16),
            digit(digits, byte % 16),
        ]),
        Numbers::Octal => push_octal(out, false, byte),
        Numbers::Kept => out.extend_from_slice(&[byte]),
    }
}

/// Writes a byte by its letter, or its number in octal digits.
fn push_letter(out: &mut Vec<u8>, byte: u8) -> Result<(), AllocError>
    ensures letter { Writes result out.old out.new (spec.lettered_byte byte) }
{
    if has_letter(Letters::Seven, byte) {
        return out.extend_from_slice(&[b'\\', letter(byte)]);
    }
    push_octal(out, false, byte)
}

/// Writes a byte of a word within `$'` and `'`.
#[tactic(auto, using(std::proofs::Common::append_assoc))]
fn push_zsh_number(out: &mut Vec<u8>, byte: u8) -> Result<(), AllocError>
    ensures number { Writes result out.old out.new (spec.zsh_number byte) }
{
    out.extend_from_slice(b"$'")?;
    push_letter(out, byte)?;
    out.extend_from_slice(b"'")
}

/// Writes a byte of a word as zsh does.
fn push_zsh(out: &mut Vec<u8>, beyond: Beyond, byte: u8) -> Result<(), AllocError>
    ensures zsh { Writes result out.old out.new (spec.zsh_byte beyond byte) }
{
    if is_printed(beyond, byte) {
        return push_escaped(out, !is_zsh_mark(byte), byte);
    }
    push_zsh_number(out, byte)
}

/// Whether fish puts a backslash before a byte.
fn is_fish_mark(byte: u8) -> bool
    ensures { result ≡ spec.is_fish_mark byte }
{
    b" \"#$%&'()*;<=>?[\\]{|}~".contains(&byte)
}

/// Whether fish has a control character by the letter that C has for it.
fn is_fish_letter(byte: u8) -> bool
    ensures { result ≡ spec.is_fish_letter byte }
{
    byte == 8 || byte == 9 || byte == 10 || byte == 13
}

/// Writes a control character of a word as fish does.
fn push_fish_control(out: &mut Vec<u8>, byte: u8) -> Result<(), AllocError>
    ensures control { Writes result out.old out.new (spec.fish_control byte) }
{
    if is_fish_letter(byte) {
        return out.extend_from_slice(&[b'\\', letter(byte)]);
    }
    if byte < 27 {
        return out.extend_from_slice(&[b'\\', b'c', 96 + byte]);
    }
    if byte == 27 {
        return out.extend_from_slice(b"\\e");
    }
    push_numbered(out, Numbers::Hexadecimal(Digits::Lower), byte)
}

/// Writes a byte of a word as fish does.
fn push_fish(out: &mut Vec<u8>, byte: u8) -> Result<(), AllocError>
    ensures fish { Writes result out.old out.new (spec.fish_byte byte) }
{
    if is_control(byte) {
        return push_fish_control(out, byte);
    }
    push_escaped(out, !is_fish_mark(byte), byte)
}

/// Writes a byte of a string of a program.
fn push_literal(out: &mut Vec<u8>, literal: Literal, byte: u8) -> Result<(), AllocError>
    ensures literal { Writes result out.old out.new (spec.literal_byte literal byte) }
{
    if is_backslashed(literal.backslashed, byte) {
        return out.extend_from_slice(&[b'\\', byte]);
    }
    if has_letter(literal.letters, byte) {
        return out.extend_from_slice(&[b'\\', letter(byte)]);
    }
    if is_literal(literal, byte) {
        return out.extend_from_slice(&[byte]);
    }
    push_numbered(out, literal.numbers, byte)
}

/// Writes a byte of a shell's word.
fn push_shell(out: &mut Vec<u8>, quoting: Quoting, byte: u8) -> Result<(), AllocError>
    ensures shell { Writes result out.old out.new (spec.shell_byte quoting byte) }
{
    match quoting {
        Quoting::Single => push_single(out, b"'\\''", byte),
        Quoting::SingleByDouble => push_single(out, b"'\"'\"'", byte),
        Quoting::Double => push_escaped(out, !b"$`\"\\".contains(&byte), byte),
        Quoting::Backslashes => push_escaped(out, is_plain(byte), byte),
        Quoting::BashBackslashes => push_escaped(out, !is_bash_mark(byte), byte),
        Quoting::BashTildes => push_escaped(out, !is_bash_mark_or_tilde(byte), byte),
        Quoting::Every => push_escaped(out, !is_traced(byte), byte),
        Quoting::EveryCharacter => push_escaped(out, !is_traced_character(byte), byte),
        Quoting::RegexMarks => push_escaped(out, !is_regex_mark(byte), byte),
        Quoting::Dollar => push_dollar(out, !is_control(byte), byte),
        Quoting::DollarAscii => push_dollar(out, is_printable(byte), byte),
        Quoting::Git => push_git(out, byte),
        Quoting::DoubledSingle => push_doubled(out, b'\'', byte),
        Quoting::DoubledDouble => push_doubled(out, b'"', byte),
        Quoting::Ruby => push_ruby(out, byte),
        Quoting::Zsh(beyond) => push_zsh(out, beyond, byte),
        Quoting::Fish => push_fish(out, byte),
    }
}

/// Writes a byte as an encoder does.
fn push_spelled(out: &mut Vec<u8>, spelling: Spelling, byte: u8) -> Result<(), AllocError>
    ensures byte { Writes result out.old out.new (spec.spelled_byte spelling byte) }
{
    match spelling {
        Spelling::Url(kept, space, digits) => push_url(out, kept, space, digits, byte),
        Spelling::Json(json) => push_json(out, json, byte),
        Spelling::Xml(quotes) => push_xml(out, quotes, byte),
        Spelling::Shell(quoting) => push_shell(out, quoting, byte),
        Spelling::Literal(literal) => push_literal(out, literal, byte),
    }
}

/// A secret as an encoder writes it.
fn spelled(alloc: Global, secret: &[u8], spelling: Spelling) -> Result<Vec<u8>, AllocError>
    ensures whole { IfOk result (λ v. v.items ≡ spec.spelled spelling secret.now) }
{
    let mut out = Vec::new(alloc);
    for byte in secret {
        push_spelled(&mut out, spelling, *byte)?;
    }
    Ok(out)
}

/// Adds a secret as an encoder writes it.
fn add_one(
    alloc: Global,
    secret: &[u8],
    spelling: Spelling,
    patterns: &mut Vec<Vec<u8>>,
) -> Result<(), AllocError>
    ensures one { OnOk result (AddsPatterns patterns.old patterns.new (spec.spelled spelling secret.now ∷ [])) }
{
    push_new(patterns, spelled(alloc, secret, spelling)?)
}

/// Adds a secret as each of some encoders writes it.
pub(crate) fn add_spelled(
    alloc: Global,
    secret: &[u8],
    spellings: &[Spelling],
    patterns: &mut Vec<Vec<u8>>,
) -> Result<(), AllocError>
    ensures all { OnOk result (AddsPatterns patterns.old patterns.new (spec.spelled_by spellings.now secret.now)) }
{
    for spelling in spellings {
        add_one(alloc, secret, *spelling, patterns)?;
    }
    Ok(())
}
