//! How much a search reads that only asks whether something occurs.

ghost use Rattle.std.specs.Prelude.{◌≤◌, length};
ghost use Rattle.chromesquid.specs.Rules.{Answers, No};

use chromesquid::{AhoCorasick, Anchored, Bytes, Span};

/// How many bytes of a text are read until it is known whether a word occurs in it.
pub fn read_until_known(searcher: &AhoCorasick, text: &[u8]) -> usize
    requires starts { Answers searcher.now No }
    ensures most { result ≤ length text.now }
{
    let mut bytes = Bytes::new(text);
    let span = Span {
        start: 0,
        end: text.len(),
    };
    let _found = searcher.earliest_in(&mut bytes, span, Anchored::No);
    bytes.reads()
}
