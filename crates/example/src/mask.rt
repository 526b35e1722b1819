//! A replacement in memory.

ghost use Rattle.std.specs.Prelude.{◌≡◌, IfOk, List, None, length, string_bytes};
ghost use Rattle.chromesquid.specs.Rules.{AreFinds, Occurrence, default_settings, on_boundaries, patterns_of, pieces_of, plain_search, replaced};

use chromesquid::{AhoCorasick, BuildError};
use std::alloc::Global;

/// A text with each of these words replaced by its mask.
pub fn masked(
    alloc: Global,
    words: &[&[u8]],
    masks: &[&str],
    text: &str,
) -> Result<String, BuildError>
    requires one_each { length masks.now ≡ length words.now }
    ensures masked { (ms : List Occurrence)
        → AreFinds (patterns_of default_settings words.now) (plain_search text.now) None ms
        → IfOk result (λ masked. string_bytes masked
        ≡ replaced text.now (on_boundaries text.now ms) (pieces_of masks.now)) }
{
    let searcher = AhoCorasick::new(alloc, words)?;
    match searcher.replace_all(alloc, text, masks) {
        Ok(masked) => Ok(masked),
        Err(_) => Err(BuildError::OutOfMemory),
    }
}
