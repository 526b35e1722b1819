//! Names in messages: a control character is written as `\x` and two hexadecimal digits, so that each message is one line.

ghost use Rattle.std.specs.Prelude.{◌≡◌, ◌<◌, decimal, true};
ghost use Rattle.tool_parts.specs.Messages.{line_before};
ghost use Rattle.tool_parts.specs.Telling.{TellsBytes};
ghost use Rattle.rule_files.specs.Messages.{as_shown, is_unshown, shown_byte, shown_line, upper_hex};

use chromesquid::Sink;
use itoa::write_digits;
use tool_parts::errors::Errors;

/// The most digits that a number has.
pub const MAX_DIGITS: usize = 20;

/// The digits of a number, in this room.
pub fn digits_of(number: u64, room: &mut [u8; MAX_DIGITS]) -> &[u8]
    ensures digits { result.now ≡ decimal number }
{
    let start = write_digits(number, room, MAX_DIGITS);
    &room[start..]
}

/// Tells as a line what is wrong with something, of which line of it, and why.
pub fn tell_shown<E: Sink>(
    errors: &mut Errors<'_, E>,
    program: &[u8],
    name: &[u8],
    line: Option<u64>,
    cause: &[u8],
)
    ensures told { TellsBytes E.Sink errors.old errors.new
        (shown_line program.now name.now line cause.now) }
{
    if is_plain(name) {
        return errors.tell(program, Some(name), line, cause);
    }
    errors.write(&[program, b": "]);
    write_shown(errors, name);
    errors.write(&[b": "]);
    write_line(errors, line);
    errors.write(&[cause, b"\n"]);
}

/// Writes of which line, if a line is told.
fn write_line<E: Sink>(errors: &mut Errors<'_, E>, line: Option<u64>)
    ensures told { TellsBytes E.Sink errors.old errors.new (line_before line) }
{
    let mut room = [0; MAX_DIGITS];
    match line {
        Some(line) => errors.write(&[b"line ", digits_of(line, &mut room), b": "]),
        None => errors.write(&[]),
    }
}

/// Writes a name.
pub fn write_shown<E: Sink>(errors: &mut Errors<'_, E>, name: &[u8])
    ensures told { TellsBytes E.Sink errors.old errors.new (as_shown name.now) }
{
    let mut rest = name;
    while !rest.is_empty() {
        write_byte(errors, rest[0]);
        rest = &rest[1..];
    }
}

/// Writes a byte of a name.
fn write_byte<E: Sink>(errors: &mut Errors<'_, E>, byte: u8)
    ensures told { TellsBytes E.Sink errors.old errors.new (shown_byte byte) }
{
    if is_control(byte) {
        let digits = [digit_of(byte / 16), digit_of(byte % 16)];
        return errors.write(&[b"\\x", &digits]);
    }
    errors.write(&[&[byte]]);
}

/// Whether no byte of a name is a control character.
pub fn is_plain(name: &[u8]) -> bool
    ensures plain { result ≡ true → as_shown name.now ≡ name.now }
{
    let mut rest = name;
    while !rest.is_empty() {
        if is_control(rest[0]) {
            return false;
        }
        rest = &rest[1..];
    }
    true
}

/// Whether a byte is a control character of ASCII.
pub fn is_control(byte: u8) -> bool
    ensures control { result ≡ is_unshown byte }
{
    byte < 32 || byte == 127
}

/// A hexadecimal digit.
pub fn digit_of(digit: u8) -> u8
    requires small { digit < 16 }
    ensures digit { result ≡ upper_hex digit }
{
    if digit < 10 {
        return b'0' + digit;
    }
    b'A' + (digit - 10)
}
