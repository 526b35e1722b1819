//! What the arguments of `--color`, `-d`, `-D` and `--binary-files` name.

ghost use Rattle.std.specs.Prelude.{◌≡◌};
ghost use Rattle.acgrep.specs.Actions.{binary_named, color_named, devices_named, folders_named, is_one_of};

use crate::all_options::Switch;
use crate::options::Color;
use tool_parts::options::found::Found;

/// The names of what is done with devices.
const READ: &[u8] = b"read";

const SKIP: &[u8] = b"skip";

/// The names of what is done with lines that hold a zero byte, and those behind them.
const BINARY: &[u8] = b"binary";

const TEXT: &[u8] = b"text";

const WITHOUT_MATCH: &[u8] = b"without-match";

/// When matches are coloured, if bytes name that.
pub fn color_in(bytes: &[u8]) -> Option<Color>
    ensures color { result ≡ color_named bytes.now }
{
    if is_one_of(b"always", b"yes", b"force", bytes) {
        Some(Color::Always)
    } else if is_one_of(b"never", b"no", b"none", bytes) {
        Some(Color::Never)
    } else if is_one_of(b"auto", b"tty", b"if-tty", bytes) {
        Some(Color::Auto)
    } else {
        None
    }
}

/// Whether bytes are one of these names, in whichever case.
fn is_one_of(first: &[u8], second: &[u8], third: &[u8], bytes: &[u8]) -> bool
    ensures one { result ≡ is_one_of first.now second.now third.now bytes.now }
{
    bytes.eq_ignore_ascii_case(first)
        || bytes.eq_ignore_ascii_case(second)
        || bytes.eq_ignore_ascii_case(third)
}

/// What is done with folders, if bytes name that or begin one name of it.
pub fn folders_in(bytes: &[u8]) -> Option<Switch>
    ensures folders { result ≡ folders_named bytes.now }
{
    Found::Unknown
        .or(bytes, b"read", Switch::ReadFolders)
        .or(bytes, b"recurse", Switch::Recursive)
        .or(bytes, b"skip", Switch::SkipFolders)
        .option()
        .ok()
}

/// What is done with devices, if bytes name that.
pub fn devices_in(bytes: &[u8]) -> Option<Switch>
    ensures devices { result ≡ devices_named bytes.now }
{
    if bytes == READ {
        Some(Switch::ReadDevices)
    } else if bytes == SKIP {
        Some(Switch::SkipDevices)
    } else {
        None
    }
}

/// What is done with lines from the first on that holds a zero byte, if bytes name that.
pub fn binary_in(bytes: &[u8]) -> Option<Switch>
    ensures binary { result ≡ binary_named bytes.now }
{
    if bytes == BINARY {
        Some(Switch::Binary)
    } else if bytes == TEXT {
        Some(Switch::Text)
    } else if bytes == WITHOUT_MATCH {
        Some(Switch::TextAlone)
    } else {
        None
    }
}
