//! Patterns: the lines of what the options give.

ghost use Rattle.std.specs.Prelude.{◌≡◌, ◌++◌, ◌<◌, [], IfOk, IfSome, None, OnOk, codes, length};
ghost use Rattle.aho_core.specs.Replacement.{pieces_of};
ghost use Rattle.acgrep.specs.Lines.{AreFreeOf, EndsLine, lines};

use crate::lines::{behind, line_end, line_start};
use std::alloc::{AllocError, Global};

/// The patterns of several sources, each followed by a newline, and where each source begins.
#[derive(Drop)]
pub struct Keys {
    /// The patterns of all sources.
    pub text: Vec<u8>,
    /// Where the text of each source begins.
    pub starts: Vec<usize>,
}

impl Keys {
    /// No source.
    pub fn new(alloc: Global) -> Keys
        ensures none { result.text.items ≡ [] }
    {
        Keys {
            text: Vec::new(alloc),
            starts: Vec::new(alloc),
        }
    }

    /// Begins a source.
    pub fn begin(&mut self) -> Result<(), AllocError>
        ensures same { self.new.text.items ≡ self.old.text.items }
    {
        self.starts.push(self.text.len())?;
        Ok(())
    }

    /// Adds a source that is a text. An empty one is one empty pattern.
    pub fn add_text(&mut self, text: &[u8]) -> Result<(), AllocError>
        ensures added { OnOk result
            (self.new.text.items ≡ self.old.text.items ++ (text.now ++ codes "\n")) }
    {
        self.begin()?;
        self.text.extend_from_slice(text)?;
        self.text.push(b'\n')?;
        Ok(())
    }

    /// Ends a source that is a file. A last newline ends the last pattern, and an empty file has none.
    pub fn end_file(&mut self) -> Result<(), AllocError>
        ensures lines { OnOk result (lines 10 self.new.text.items ≡ lines 10 self.old.text.items) }
        ensures ends { OnOk result (EndsLine 10 self.new.text.items) }
    {
        if line_start(self.text.as_slice(), b'\n') < self.text.len() {
            self.text.push(b'\n')?;
        }
        Ok(())
    }
}

/// The number of the first pattern that holds a byte, if there is one.
pub fn first_holding(patterns: &[&[u8]], byte: u8) -> Option<usize>
    ensures within { IfSome result (λ number. number < length patterns.now) }
    ensures none { result ≡ None → AreFreeOf byte (pieces_of patterns.now) }
{
    for number in 0..patterns.len() {
        if line_end(patterns[number], byte) < patterns[number].len() {
            return Some(number);
        }
    }
    None
}

/// The lines of a text, each without its newline. What follows the last newline is a line if it is not empty.
pub fn lines_of(alloc: Global, text: &[u8]) -> Result<Vec<&[u8]>, AllocError>
    ensures lines { IfOk result (λ found. pieces_of found.items ≡ lines 10 text.now) }
{
    let mut lines = Vec::new(alloc);
    let mut rest = text;
    while !rest.is_empty() {
        let end = line_end(rest, b'\n');
        lines.push(&rest[..end])?;
        rest = behind(rest, end);
    }
    Ok(lines)
}
