//! The lines of a text. A byte ends a line, which is a newline or under `-z` a zero byte, and what follows the last such byte is a line
//! where it is not empty.

ghost use Rattle.std.specs.Prelude.{◌≡◌, ◌≤◌, ◌<◌, ◌+◌, ◌-◌, drop, length};
ghost use Rattle.memchr.specs.Find.{Nowhere};
ghost use Rattle.acgrep.specs.Lines.{IsEnding};

use memchr::{memchr, memrchr};

/// Where the first line of a text ends: before the byte that ends it.
#[inline]
pub fn line_end(text: &[u8], ending: u8) -> usize
    ensures within { result ≤ length text.now }
    ensures none { Nowhere (IsEnding ending text.now) 0 result }
    ensures ends { result < length text.now → IsEnding ending text.now result }
{
    match memchr(ending, text) {
        Some(at) => at,
        None => text.len(),
    }
}

/// Where the last line of a text begins: behind the last byte that ends one.
#[inline]
pub fn line_start(text: &[u8], ending: u8) -> usize
    ensures within { result ≤ length text.now }
    ensures none { Nowhere (IsEnding ending text.now) result (length text.now) }
    ensures ends { 0 < result → IsEnding ending text.now (result - 1) }
{
    match memrchr(ending, text) {
        Some(at) => at + 1,
        None => 0,
    }
}

/// What follows the byte at a place that ends a line, if there is one.
#[inline]
pub fn behind(text: &[u8], end: usize) -> &[u8]
    ensures rest { result.now ≡ drop (end + 1) text.now }
{
    if end < text.len() {
        &text[end + 1..]
    } else {
        &text[text.len()..]
    }
}
