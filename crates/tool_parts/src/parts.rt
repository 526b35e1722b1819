//! Writing a line that is made of parts, and the lines of refused builds and searches.

ghost use Rattle.std.specs.Prelude.{◌≡◌, ◌≤◌, ◌++◌, IfSome, decimal, take};
ghost use Rattle.aho_core.specs.Texts.{kind_name};
ghost use Rattle.tool_parts.specs.Telling.{build_error_line, all_bytes, search_error_line, TakesBytes};

use chromesquid::{
    BuildError, MatchError, MatchErrorKind, MatchKind, Sink, StreamError, write_whole,
};
use itoa::write_digits;

/// The room in which a line is put together.
const ROOM: usize = 4096;

/// The most digits that a number has.
pub(crate) const MAX_DIGITS: usize = 20;

/// Writes these parts, one after another: by one write where they have up to 4,096 bytes together, so that nothing of another
/// writer stands between them. The first write that fails or takes no byte is the error, and a beginning was written then.
pub fn write_parts<S: Sink>(sink: &mut S, parts: &[&[u8]]) -> Result<(), StreamError>
    ensures written { TakesBytes S.Sink sink.old sink.new (all_bytes parts.now) result }
{
    let mut room = [0; ROOM];
    match gather(parts, &mut room) {
        Some(count) => write_whole(sink, &room[..count]),
        None => write_each(sink, parts),
    }
}

/// Puts these parts at the front of the room, and says how many bytes they have; none where the room is too small.
fn gather(parts: &[&[u8]], room: &mut [u8; ROOM]) -> Option<usize>
    ensures within { IfSome result (λ count. count ≤ 4096) }
    ensures gathered { IfSome result (λ count. take count room.new ≡ all_bytes parts.now) }
{
    let mut count = 0;
    let mut rest = parts;
    while !rest.is_empty() {
        count = put(rest[0], room, count)?;
        rest = &rest[1..];
    }
    Some(count)
}

/// Puts a part into the room behind the bytes that it holds, and says how many it holds then; none where the room is too small.
fn put(part: &[u8], room: &mut [u8; ROOM], held: usize) -> Option<usize>
    requires held { held ≤ 4096 }
    ensures within { IfSome result (λ count. count ≤ 4096) }
    ensures put { IfSome result (λ count. take count room.new ≡ take held room.old ++ part.now) }
{
    if part.len() > ROOM - held {
        return None;
    }
    let end = held + part.len();
    room[held..end].copy_from_slice(part);
    Some(end)
}

/// Writes these parts, each by a write of its own or more.
fn write_each<S: Sink>(sink: &mut S, parts: &[&[u8]]) -> Result<(), StreamError>
    ensures written { TakesBytes S.Sink sink.old sink.new (all_bytes parts.now) result }
{
    let mut rest = parts;
    while !rest.is_empty() {
        write_whole(sink, rest[0])?;
        rest = &rest[1..];
    }
    Ok(())
}

/// The digits of a number, at the end of the room.
pub(crate) fn digits_of(number: u64, room: &mut [u8; MAX_DIGITS]) -> &[u8]
    ensures digits { result.now ≡ decimal number }
{
    let start = write_digits(number, room, MAX_DIGITS);
    &room[start..]
}

/// Writes why an automaton is refused, and a line end.
pub fn write_build_line<S: Sink>(sink: &mut S, error: &BuildError) -> Result<(), StreamError>
    ensures written { TakesBytes S.Sink sink.old sink.new
        (build_error_line error.now) result }
{
    match error {
        BuildError::StateIDOverflow { max, requested } => {
            let mut most = [0; MAX_DIGITS];
            let mut wanted = [0; MAX_DIGITS];
            let parts = [
                b"state identifier overflow: failed to create state ID from ",
                digits_of(*requested, &mut wanted),
                b", which exceeds the max of ",
                digits_of(*max, &mut most),
                b"\n",
            ];
            write_parts(sink, &parts)
        }
        BuildError::PatternIDOverflow { max, requested } => {
            let mut most = [0; MAX_DIGITS];
            let mut wanted = [0; MAX_DIGITS];
            let parts = [
                b"pattern identifier overflow: failed to create pattern ID from ",
                digits_of(*requested, &mut wanted),
                b", which exceeds the max of ",
                digits_of(*max, &mut most),
                b"\n",
            ];
            write_parts(sink, &parts)
        }
        BuildError::PatternTooLong { pattern, len, max } => {
            let mut number = [0; MAX_DIGITS];
            let mut length = [0; MAX_DIGITS];
            let mut most = [0; MAX_DIGITS];
            let parts = [
                b"pattern ",
                digits_of(pattern.as_usize() as u64, &mut number),
                b" with length ",
                digits_of(*len as u64, &mut length),
                b" exceeds the maximum pattern length of ",
                digits_of(*max as u64, &mut most),
                b"\n",
            ];
            write_parts(sink, &parts)
        }
        BuildError::OutOfMemory => write_parts(sink, &[b"out of memory", b"\n"]),
    }
}

/// The name of a match kind.
fn name_of(kind: MatchKind) -> &'static [u8]
    ensures name { result.now ≡ kind_name kind }
{
    match kind {
        MatchKind::Standard => b"Standard",
        MatchKind::LeftmostFirst => b"LeftmostFirst",
        MatchKind::LeftmostLongest => b"LeftmostLongest",
    }
}

/// Writes why a search is refused, and a line end.
pub fn write_search_line<S: Sink>(sink: &mut S, error: &MatchError) -> Result<(), StreamError>
    ensures written { TakesBytes S.Sink sink.old sink.new
        (search_error_line error.now) result }
{
    match error.kind() {
        MatchErrorKind::InvalidInputAnchored => {
            write_parts(
                sink,
                &[b"anchored searches are not supported or enabled", b"\n"],
            )
        }
        MatchErrorKind::InvalidInputUnanchored => write_parts(
            sink,
            &[b"unanchored searches are not supported or enabled", b"\n"],
        ),
        MatchErrorKind::UnsupportedStream { got } => write_parts(
            sink,
            &[
                b"match kind ",
                name_of(*got),
                b" does not support stream searching",
                b"\n",
            ],
        ),
        MatchErrorKind::UnsupportedOverlapping { got } => write_parts(
            sink,
            &[
                b"match kind ",
                name_of(*got),
                b" does not support overlapping searches",
                b"\n",
            ],
        ),
        MatchErrorKind::UnsupportedEmpty => write_parts(
            sink,
            &[
                b"matching with an empty pattern string is not supported for this operation",
                b"\n",
            ],
        ),
    }
}
