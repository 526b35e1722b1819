//! A keyword filter.

ghost use Rattle.std.specs.Prelude.{IfOk, true};
ghost use Rattle.chromesquid.specs.Rules.{TellsIfFound, default_settings, patterns_of, plain_search};

use chromesquid::{AhoCorasick, BuildError};
use std::alloc::Global;

/// Whether a text holds one of these words, whatever the case of their letters.
pub fn holds(alloc: Global, words: &[&[u8]], text: &str) -> Result<bool, BuildError>
    ensures holds { IfOk result (TellsIfFound
        (patterns_of (record default_settings { ignore_case = true }) words.now)
        (record (plain_search text.now) { earliest = true })) }
{
    let filter = AhoCorasick::builder()
        .ascii_case_insensitive(true)
        .build(alloc, words)?;
    Ok(filter.is_match(text))
}
