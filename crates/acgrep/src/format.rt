//! The format by which a match is written: bytes, and fields in braces.

ghost use Rattle.std.specs.List.{starts_with};
ghost use Rattle.std.specs.Prelude.{◌≡◌, ◌≤◌, ◌<◌, ◌∷◌, ◌++◌, [], IfSome, IsTrue, OnOk, Some, drop, length, nat_eq};
ghost use Rattle.acgrep.specs.Arguments.{FailsBy};
ghost use Rattle.acgrep.specs.Formats.{format_pieces, format_text, front_at, front_by, piece_text, plain_front, up_to_brace};
ghost use Rattle.acgrep.specs.Mistakes.{TellsBy};
ghost use Rattle.acgrep.specs.Told.{format_parts};

use crate::wrong::{Refusal, Wrong};
use memchr::memchr;
use std::alloc::AllocError;

/// A piece of a format.
#[derive(Clone, Copy)]
pub enum Piece {
    /// A byte that stands for itself.
    Byte(u8),
    /// `{path}`: the file's name.
    Path,
    /// `{line}`: the line's number.
    LineNumber,
    /// `{start}`: where the match begins in the file.
    Start,
    /// `{end}`: where it ends.
    End,
    /// `{pattern}`: the pattern's number from 0 on.
    PatternNumber,
    /// `{text}`: the bytes that were found.
    Found,
}

/// The first piece of a format.
#[derive(Clone, Copy)]
pub struct Front {
    /// What it stands for.
    pub piece: Piece,
    /// How many bytes of the format it takes.
    pub len: usize,
}

/// Reads a format, in place of the pieces of another one.
pub fn read_format<'a>(format: &'a [u8], pieces: &mut Vec<Piece>) -> Result<(), Refusal<'a>>
    ensures read { OnOk result (format_pieces format.now ≡ Some pieces.new.items) }
    ensures whole { OnOk result (format_text pieces.new.items ≡ format.now) }
    ensures refused { FailsBy (format_pieces format.now) result }
    ensures wrong { TellsBy (format_parts format.now) result }
{
    pieces.clear();
    let mut rest = format;
    while !rest.is_empty() {
        match front_of(rest) {
            Some(front) => {
                add_piece(pieces, front.piece)?;
                rest = &rest[front.len..];
            }
            None => return Err(Refusal::Wrong(Wrong::UnknownField(field_in(rest)))),
        }
    }
    Ok(())
}

/// Adds a piece.
fn add_piece(pieces: &mut Vec<Piece>, piece: Piece) -> Result<(), AllocError>
    ensures added { OnOk result (pieces.new.items ≡ pieces.old.items ++ (piece ∷ [])) }
{
    pieces.push(piece)?;
    Ok(())
}

/// The first piece of a format that is not empty, if there is one: a brace stands for itself where it is doubled.
fn front_of(rest: &[u8]) -> Option<Front>
    requires some { 0 < length rest.now }
    ensures front { result ≡ front_by rest.now }
    ensures some { IfSome result (λ front. 0 < front.len) }
    ensures within { IfSome result (λ front. front.len ≤ length rest.now) }
    ensures taken { IfSome result (λ front. piece_text front.piece ++ drop front.len rest.now ≡ rest.now) }
{
    if begins(rest, b"{{") {
        taking(Piece::Byte(b'{'), 2)
    } else if begins(rest, b"}}") {
        taking(Piece::Byte(b'}'), 2)
    } else if begins(rest, b"{path}") {
        taking(Piece::Path, 6)
    } else if begins(rest, b"{line}") {
        taking(Piece::LineNumber, 6)
    } else if begins(rest, b"{start}") {
        taking(Piece::Start, 7)
    } else if begins(rest, b"{end}") {
        taking(Piece::End, 5)
    } else if begins(rest, b"{pattern}") {
        taking(Piece::PatternNumber, 9)
    } else if begins(rest, b"{text}") {
        taking(Piece::Found, 6)
    } else {
        plain_front(rest[0])
    }
}

/// Whether a format begins with a text.
fn begins(rest: &[u8], text: &[u8]) -> bool
    ensures begins { result ≡ starts_with nat_eq rest.now text.now }
    ensures within { IsTrue result → length text.now ≤ length rest.now }
    ensures cut { IsTrue result → text.now ++ drop (length text.now) rest.now ≡ rest.now }
{
    rest.starts_with(text)
}

/// The piece that a byte is: none where it is a brace.
fn plain_front(byte: u8) -> Option<Front>
    ensures front { result ≡ plain_front byte }
    ensures text { IfSome result (λ front. piece_text front.piece ≡ byte ∷ []) }
    ensures one { IfSome result (λ front. front.len ≡ 1) }
{
    if byte == b'{' || byte == b'}' {
        return None;
    }
    taking(Piece::Byte(byte), 1)
}

/// A piece of so many bytes.
fn taking(piece: Piece, len: usize) -> Option<Front>
    ensures front { result ≡ front_at piece len }
{
    Some(Front { piece, len })
}

/// What stands where a field is: up to the brace that closes it, or to the end.
fn field_in(rest: &[u8]) -> &[u8]
    ensures field { result.now ≡ up_to_brace rest.now }
{
    match memchr(b'}', rest) {
        Some(end) => &rest[..end + 1],
        None => rest,
    }
}
