//! How large a searcher is.

ghost use Rattle.std.specs.Prelude.{◌≡◌, IfOk, length, map};
ghost use Rattle.chromesquid.specs.Rules.{IsBuiltFrom, Patterns, default_settings, longest, memory_for, patterns_of};

use chromesquid::{AhoCorasick, AhoCorasickKind, BuildError};
use std::alloc::Global;

/// How many bytes to keep of a text that comes in pieces, so that no match is cut.
pub fn kept(searcher: &AhoCorasick) -> usize
    ensures kept { (p : Patterns) → IsBuiltFrom searcher.now p
        → result ≡ longest (map length p.words) }
{
    searcher.max_pattern_len()
}

/// How many bytes a searcher without rows takes for these words.
pub fn bytes_for(alloc: Global, words: &[&[u8]]) -> Result<usize, BuildError>
    ensures bytes { IfOk result (λ bytes.
        bytes ≡ memory_for default_settings (patterns_of default_settings words.now)) }
{
    let searcher = AhoCorasick::builder()
        .kind(Some(AhoCorasickKind::NoncontiguousNFA))
        .build(alloc, words)?;
    Ok(searcher.memory_usage())
}
