//! Writing lines and matches with what stands before them.

ghost use Rattle.std.specs.Prelude.{◌≡◌, ◌≤◌, IfOk, decimal, drop};
ghost use Rattle.acgrep.specs.Printed.{Puts, behind_match, colored_by, count_by, escape_by, file_line, head_of, line_by, match_by, match_code, name_ended, name_part, number_if, painted, part_by, part_of, separator_by, tab_before};
ghost use Rattle.acgrep.specs.Written.{after_line};

use crate::colors::Colors;
use crate::format::Piece;
use chromesquid::Match;
use itoa::write_digits;
use std::io;
use std::io::Write;

/// The room for a number's digits.
pub const DIGITS: usize = 20;

/// What stands before a line.
#[derive(Clone, Copy)]
pub struct Style<'a> {
    /// The file's name.
    pub name: &'a [u8],
    /// Whether the file's name stands before each line.
    pub with_name: bool,
    /// Whether a zero byte stands behind the file's name.
    pub null: bool,
    /// Whether the line's number does.
    pub number: bool,
    /// Whether its offset in the file does.
    pub offset: bool,
    /// Whether a tab stands behind them.
    pub tab: bool,
    /// Whether all that is coloured.
    pub color: bool,
    /// The code of each colour.
    pub colors: Colors<'a>,
    /// Whether a hyphen stands behind each part but a zero byte, as in the lines around selected ones, and else a colon.
    pub hyphen: bool,
    /// The byte that ends a line: a newline, or under `-z` a zero byte.
    pub ending: u8,
    /// What stands between lines that do not follow one another.
    pub separator: &'a [u8],
    /// How a match is written that is written with its fields.
    pub form: Form<'a>,
}

/// How a match is written with its fields.
#[derive(Clone, Copy)]
pub enum Form<'a> {
    /// As a JSON object.
    Json,
    /// By a format.
    Pieces(&'a [Piece]),
}

/// Where a line stands in its file.
#[derive(Clone, Copy)]
pub struct Place {
    /// How many lines stand before it.
    pub lines: u64,
    /// How many bytes do.
    pub bytes: u64,
}

/// The place behind a line and what ends it.
pub fn behind_line(place: Place, line: &[u8]) -> Place
    ensures place { result ≡ after_line place line.now }
{
    Place {
        lines: place.lines.wrapping_add(1),
        bytes: place.bytes.wrapping_add(line.len() as u64).wrapping_add(1),
    }
}

/// Writes what begins a colour of this code, or, where it is empty, what ends each.
fn put_escape<W: Write>(output: &mut W, style: &Style<'_>, code: &[u8]) -> io::Result<()>
    ensures written { Puts W.Write output.old output.new result
        (escape_by style.now.colors code.now) }
{
    output.write_all(b"\x1b[")?;
    output.write_all(code)?;
    output.write_all(b"m")?;
    if style.colors.erases {
        return output.write_all(b"\x1b[K");
    }
    Ok(())
}

/// Writes bytes, in a colour where colours are asked for and this one has a code.
fn put_painted<W: Write>(
    output: &mut W,
    style: &Style<'_>,
    code: &[u8],
    bytes: &[u8],
) -> io::Result<()>
    ensures written { Puts W.Write output.old output.new result
        (painted style.now code.now bytes.now) }
{
    if style.color && !code.is_empty() {
        put_escape(output, style, code)?;
        output.write_all(bytes)?;
        return put_escape(output, style, b"");
    }
    output.write_all(bytes)
}

/// The code of a match: the lines around selected ones have their own.
fn match_code<'a>(style: &Style<'a>) -> &'a [u8]
    ensures code { result.now ≡ match_code style.now }
{
    if style.hyphen {
        style.colors.beside
    } else {
        style.colors.selected
    }
}

/// Writes a part of what stands before a line, and a colon or a hyphen.
fn put_part<W: Write>(
    output: &mut W,
    style: &Style<'_>,
    code: &[u8],
    bytes: &[u8],
) -> io::Result<()>
    ensures written { Puts W.Write output.old output.new result
        (part_by style.now code.now bytes.now) }
{
    put_painted(output, style, code, bytes)?;
    let mark = if style.hyphen { b"-" } else { b":" };
    put_painted(output, style, style.colors.separator, mark)?;
    Ok(())
}

/// Writes the line between lines that do not follow one another.
pub fn put_separator<W: Write>(output: &mut W, style: &Style<'_>) -> io::Result<()>
    ensures written { Puts W.Write output.old output.new result
        (separator_by style.now) }
{
    put_painted(output, style, style.colors.separator, style.separator)?;
    output.write_all(b"\n")?;
    Ok(())
}

/// Puts a number's digits at the end of the room, and answers where they start.
pub fn put_digits(number: u64, room: &mut [u8; DIGITS]) -> usize
    ensures within { result ≤ 20 }
    ensures digits { drop result room.new ≡ decimal number }
{
    write_digits(number, room, DIGITS)
}

/// Writes what stands before a line, or before a match that begins at a place of it.
pub fn put_head<W: Write>(
    output: &mut W,
    style: &Style<'_>,
    number: u64,
    offset: u64,
    bytes: &[u8],
) -> io::Result<()>
    ensures written { Puts W.Write output.old output.new result
        (head_of style.now number offset bytes.now) }
{
    put_file(output, style)?;
    put_if(output, style.number, style, style.colors.line, number)?;
    put_if(output, style.offset, style, style.colors.offset, offset)?;
    put_tab(output, style, bytes)?;
    Ok(())
}

/// Writes a tab where it is asked for: between a line or a match and what stands before it.
fn put_tab<W: Write>(output: &mut W, style: &Style<'_>, bytes: &[u8]) -> io::Result<()>
    ensures written { Puts W.Write output.old output.new result
        (tab_before style.now bytes.now) }
{
    if style.tab && (style.with_name || style.number || style.offset) && !bytes.is_empty() {
        return output.write_all(b"\t");
    }
    Ok(())
}

/// Writes the file's name where it is asked for.
fn put_file<W: Write>(output: &mut W, style: &Style<'_>) -> io::Result<()>
    ensures written { Puts W.Write output.old output.new result
        (name_part style.now) }
{
    if !style.with_name {
        return Ok(());
    }
    if style.null {
        return put_ended(output, style, b"\0");
    }
    put_part(output, style, style.colors.name, style.name)
}

/// Writes a number where it is asked for, and a colon or a hyphen.
fn put_if<W: Write>(
    output: &mut W,
    asked: bool,
    style: &Style<'_>,
    code: &[u8],
    number: u64,
) -> io::Result<()>
    ensures written { Puts W.Write output.old output.new result
        (number_if asked style.now code.now number) }
{
    if asked {
        let mut digits = [0; DIGITS];
        let start = put_digits(number, &mut digits);
        return put_part(output, style, code, &digits[start..]);
    }
    Ok(())
}

/// Writes a line with what stands before it.
pub fn put_line<W: Write>(
    output: &mut W,
    style: &Style<'_>,
    place: Place,
    line: &[u8],
) -> io::Result<()>
    ensures written { Puts W.Write output.old output.new result
        (line_by style.now place line.now) }
{
    put_head(
        output,
        style,
        place.lines.wrapping_add(1),
        place.bytes,
        line,
    )?;
    output.write_all(line)?;
    output.write_all(&[style.ending])?;
    Ok(())
}

/// The bytes of a match.
pub fn part<'t>(line: &'t [u8], start: usize, end: usize) -> &'t [u8]
    ensures part { result.now ≡ part_of line.now start end }
{
    if start <= end && end <= line.len() {
        &line[start..end]
    } else {
        &[]
    }
}

/// Writes a line from a place on up to the end of a match, which is coloured, and answers that end. An empty match
/// changes nothing.
pub fn put_up_to<W: Write>(
    output: &mut W,
    style: &Style<'_>,
    line: &[u8],
    at: usize,
    found: &Match,
) -> io::Result<usize>
    ensures behind { IfOk result (λ behind. behind ≡ behind_match at found.now) }
    ensures written { Puts W.Write output.old output.new result
        (colored_by style.now line.now at found.now) }
{
    if found.start() == found.end() {
        return Ok(at);
    }
    output.write_all(part(line, at, found.start()))?;
    let bytes = part(line, found.start(), found.end());
    put_painted(output, style, match_code(style), bytes)?;
    Ok(found.end())
}

/// Writes a match with what stands before it, if it is not empty.
pub fn put_match<W: Write>(
    output: &mut W,
    style: &Style<'_>,
    place: Place,
    line: &[u8],
    found: &Match,
) -> io::Result<()>
    ensures written { Puts W.Write output.old output.new result
        (match_by style.now place line.now found.now) }
{
    let start = found.start();
    let end = found.end();
    if start == end {
        return Ok(());
    }
    let offset = place.bytes.wrapping_add(start as u64);
    let bytes = part(line, start, end);
    put_head(output, style, place.lines.wrapping_add(1), offset, bytes)?;
    put_painted(output, style, match_code(style), bytes)?;
    output.write_all(&[style.ending])?;
    Ok(())
}

/// Writes the number of selected lines.
pub fn put_count<W: Write>(output: &mut W, style: &Style<'_>, count: u64) -> io::Result<()>
    ensures written { Puts W.Write output.old output.new result
        (count_by style.now count) }
{
    put_file(output, style)?;
    let mut digits = [0; DIGITS];
    let start = put_digits(count, &mut digits);
    output.write_all(&digits[start..])?;
    output.write_all(b"\n")?;
    Ok(())
}

/// Writes the name of a file on a line of its own, or with a zero byte behind it.
pub fn put_name<W: Write>(output: &mut W, style: &Style<'_>) -> io::Result<()>
    ensures written { Puts W.Write output.old output.new result
        (file_line style.now) }
{
    if style.null {
        return put_ended(output, style, b"\0");
    }
    put_ended(output, style, b"\n")
}

/// Writes the name of a file and what ends it.
fn put_ended<W: Write>(output: &mut W, style: &Style<'_>, end: &[u8]) -> io::Result<()>
    ensures written { Puts W.Write output.old output.new result
        (name_ended style.now end.now) }
{
    put_painted(output, style, style.colors.name, style.name)?;
    output.write_all(end)?;
    Ok(())
}
