//! What is told of a match: the file's name, where it stands, its pattern and its bytes.

ghost use Rattle.std.specs.Prelude.{◌≡◌, decimal};
ghost use Rattle.acgrep.specs.Objects.{fields_told, fields_by};
ghost use Rattle.acgrep.specs.Printed.{Puts};

use crate::print::{DIGITS, Place, Style, part, put_digits};
use chromesquid::Match;
use std::io;
use std::io::Write;

/// What is told of a match.
#[derive(Clone, Copy)]
pub struct Fields<'a> {
    /// The file's name.
    pub path: &'a [u8],
    /// The line's number.
    pub line: u64,
    /// Where the match begins in the file.
    pub start: u64,
    /// Where it ends.
    pub end: u64,
    /// The pattern's number, from 0 on.
    pub pattern: u64,
    /// The bytes that were found.
    pub text: &'a [u8],
}

/// What is told of a match of a line.
pub fn fields_of<'a>(style: &Style<'a>, place: Place, line: &'a [u8], found: &Match) -> Fields<'a>
    ensures fields { fields_told result ≡ fields_by style.now place line.now found.now }
{
    let start = found.start();
    let end = found.end();
    Fields {
        path: style.name,
        line: place.lines.wrapping_add(1),
        start: place.bytes.wrapping_add(start as u64),
        end: place.bytes.wrapping_add(end as u64),
        pattern: found.pattern().as_usize() as u64,
        text: part(line, start, end),
    }
}

/// Writes a number.
pub fn put_decimal<W: Write>(output: &mut W, number: u64) -> io::Result<()>
    ensures written { Puts W.Write output.old output.new result
        (decimal number) }
{
    let mut digits = [0; DIGITS];
    let start = put_digits(number, &mut digits);
    output.write_all(&digits[start..])
}
