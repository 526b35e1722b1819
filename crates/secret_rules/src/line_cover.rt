//! Covers of streams, line by line: what a source gives goes to a sink, but in the place of each run of bytes that rules mark and
//! patterns hold a piece.
//!
//! # Lines
//!
//! A line is what stands between line ends, and these are kept as they are. A line is covered once its end was read, by what rules mark in
//! it and what counts of the patterns. One that is too long is covered whole, as one run of a number of its own, and counts as an empty
//! one for the rules that mark up to a text. So no more memory is kept than for one line.
//!
//! # Numbers
//!
//! A run has the number of the longest that begins where it does: a pattern's own; a rule's number and that of the patterns; or that of
//! both, for a line that is too long.

use crate::open_line::OpenLine;
use aho_devices::buffer::Buffer;

/// What covers streams line by line, one after another. Its calls stand in `covering`: a contract of this file could not name the struct.
#[derive(Drop)]
pub struct LineCover<'r, 'a, A> {
    pub(crate) buffer: Buffer,
    pub(crate) open_line: OpenLine<'r, 'a, A>,
}
