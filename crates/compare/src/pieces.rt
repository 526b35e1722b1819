//! What a text becomes where matches are replaced, from byte to byte.

use aho_core::search::Match;
use std::alloc::{AllocError, Global};

/// What stands in the place of matches, by turns of their patterns.
const PIECES: [&str; 4] = ["-", "", "ab", "éxyz"];

/// A text for each of so many patterns.
pub(crate) fn pieces_for(alloc: Global, count: usize) -> Result<Vec<&'static str>, AllocError> {
    let mut pieces = Vec::new(alloc);
    for number in 0..count {
        pieces.push(PIECES[number % 4])?;
    }
    Ok(pieces)
}

/// The bytes of these texts.
pub(crate) fn bytes_of<'t>(alloc: Global, texts: &[&'t str]) -> Result<Vec<&'t [u8]>, AllocError> {
    let mut all = Vec::new(alloc);
    for text in texts {
        all.push(text.as_bytes())?;
    }
    Ok(all)
}

/// The text, with the piece of its pattern in the place of each match.
pub(crate) fn replaced(
    alloc: Global,
    text: &[u8],
    matches: &[Match],
    pieces: &[&[u8]],
) -> Result<Vec<u8>, AllocError> {
    let mut bytes = Vec::new(alloc);
    let mut at = 0;
    for m in matches {
        bytes.extend_from_slice(text.get(at..m.start()).unwrap_or(&[]))?;
        let piece = pieces.get(m.pattern().as_usize());
        bytes.extend_from_slice(piece.unwrap_or(&b"".as_slice()))?;
        at = m.end();
    }
    bytes.extend_from_slice(text.get(at..).unwrap_or(&[]))?;
    Ok(bytes)
}

/// The text, with brackets around the first so many of these matches.
pub(crate) fn bracketed(
    alloc: Global,
    text: &[u8],
    matches: &[Match],
    most: usize,
) -> Result<Vec<u8>, AllocError> {
    let mut bytes = Vec::new(alloc);
    let mut at = 0;
    for m in matches.iter().take(most) {
        bytes.extend_from_slice(text.get(at..m.start()).unwrap_or(&[]))?;
        bytes.push(b'[')?;
        bytes.extend_from_slice(text.get(m.start()..m.end()).unwrap_or(&[]))?;
        bytes.push(b']')?;
        at = m.end();
    }
    bytes.extend_from_slice(text.get(at..).unwrap_or(&[]))?;
    Ok(bytes)
}

/// The matches that begin and end between letters of the text.
pub(crate) fn on_boundaries(
    alloc: Global,
    text: &str,
    matches: &[Match],
) -> Result<Vec<Match>, AllocError> {
    let mut kept = Vec::new(alloc);
    for m in matches {
        if text.is_char_boundary(m.start()) && text.is_char_boundary(m.end()) {
            kept.push(*m)?;
        }
    }
    Ok(kept)
}
