//! The colours of the output, as `GREP_COLORS` of the environment gives them.
//!
//! It is parts with colons between them: a name, or a name, an equals sign and a code of digits and semicolons. A name that is not known
//! says nothing, and what follows a part that is wrong says nothing either.

ghost use Rattle.std.specs.Prelude.{◌≡◌};
ghost use Rattle.std.specs.List.{slice_split};
ghost use Rattle.acgrep.specs.Colors.{colors_by, is_code, is_code_byte, is_colon, is_right, palette_of, with_parts};

use tool_parts::options::argument::first_equals;

/// The names of matches: in selected lines and around them, in selected ones, and around them.
const BOTH: &[u8] = b"mt";

const SELECTED: &[u8] = b"ms";

const BESIDE: &[u8] = b"mc";

/// Those of a file's name, a line's number, an offset, and what stands behind these.
const NAME: &[u8] = b"fn";

const LINE: &[u8] = b"ln";

const OFFSET: &[u8] = b"bn";

const SEPARATOR: &[u8] = b"se";

/// That with which no rest of a line is erased.
const KEEPS: &[u8] = b"ne";

/// What is known of the output and its colours.
#[derive(Clone, Copy)]
pub struct Screen<'a> {
    /// Whether the output is a terminal with colours.
    pub colored: bool,
    /// Whether it is a terminal.
    pub terminal: bool,
    /// What `GREP_COLORS` says.
    pub colors: &'a [u8],
}

/// The code of each colour; without one there is no colour.
#[derive(Clone, Copy)]
pub struct Colors<'a> {
    /// That of a file's name.
    pub name: &'a [u8],
    /// That of a line's number.
    pub line: &'a [u8],
    /// That of an offset.
    pub offset: &'a [u8],
    /// That of what stands behind these, and between lines.
    pub separator: &'a [u8],
    /// That of a match in a selected line.
    pub selected: &'a [u8],
    /// That of a match in a line around selected ones.
    pub beside: &'a [u8],
    /// Whether the rest of a line is erased where a colour begins or ends: it then has the colour behind the text.
    pub erases: bool,
}

impl<'a> Colors<'a> {
    ghost use Rattle.acgrep.specs.Colors.{usual_colors, with_code, with_name, with_part};

    /// Those where nothing is said of them.
    fn new() -> Colors<'a>
        ensures usual { palette_of result ≡ usual_colors }
    {
        Colors {
            name: b"35",
            line: b"32",
            offset: b"32",
            separator: b"36",
            selected: b"01;31",
            beside: b"01;31",
            erases: true,
        }
    }

    /// These with a part that is not wrong.
    fn with_part(self, part: &'a [u8]) -> Colors<'a>
        ensures with { palette_of result ≡ with_part part.now (palette_of self.entry) }
    {
        let end = first_equals(part);
        if end < part.len() {
            return self.with_code(&part[..end], &part[end + 1..]);
        }
        self.with_name(part)
    }

    /// These with a name that has no code.
    fn with_name(self, name: &[u8]) -> Colors<'a>
        ensures with { palette_of result ≡ with_name name.now (palette_of self.entry) }
    {
        let mut colors = self;
        if name == BOTH {
            colors.beside = colors.selected;
        } else if name == KEEPS {
            colors.erases = false;
        }
        colors
    }

    /// These with the code of a name.
    fn with_code(self, name: &[u8], code: &'a [u8]) -> Colors<'a>
        ensures with { palette_of result ≡ with_code name.now code.now (palette_of self.entry) }
    {
        let mut colors = self;
        if name == BOTH {
            colors.selected = code;
            colors.beside = code;
        } else if name == SELECTED {
            colors.selected = code;
        } else if name == BESIDE {
            colors.beside = code;
        } else if name == NAME {
            colors.name = code;
        } else if name == LINE {
            colors.line = code;
        } else if name == OFFSET {
            colors.offset = code;
        } else if name == SEPARATOR {
            colors.separator = code;
        } else if name == KEEPS {
            colors.erases = false;
        }
        colors
    }
}

/// The colours that a text gives.
pub fn read_colors<'a>(text: &'a [u8]) -> Colors<'a>
    ensures read { palette_of result ≡ colors_by text.now }
{
    let mut colors = Colors::new();
    read_parts(&mut colors, text);
    colors
}

/// Takes over what the parts of a text say.
fn read_parts<'a>(colors: &mut Colors<'a>, text: &'a [u8])
    ensures read { palette_of colors.new ≡ with_parts (slice_split is_colon text.now) (palette_of colors.old) }
{
    for part in text.split(|byte| *byte == b':') {
        if !is_right(part) {
            return;
        }
        *colors = colors.with_part(part);
    }
}

/// Whether a part is right: before an equals sign it has a name, and behind it a code.
fn is_right(part: &[u8]) -> bool
    ensures { result ≡ is_right part.now }
{
    let end = first_equals(part);
    if end < part.len() {
        return end > 0 && is_code(&part[end + 1..]);
    }
    true
}

/// Whether these bytes are a code.
fn is_code(bytes: &[u8]) -> bool
    ensures { result ≡ is_code bytes.now }
{
    for byte in bytes {
        if !is_code_byte(*byte) {
            return false;
        }
    }
    true
}

/// Whether this is a digit or a semicolon.
fn is_code_byte(byte: u8) -> bool
    ensures { result ≡ is_code_byte byte }
{
    byte == b';' || byte.is_ascii_digit()
}
