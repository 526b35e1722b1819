//! Replacement of text that may be refused.

ghost use Rattle.std.specs.Prelude.{◌≡◌, length};
ghost use Rattle.chromesquid.specs.Rules.{ReplacesText, patterns_len_of};

use chromesquid::{AhoCorasick, ReplaceError};
use std::alloc::Global;

/// The text with each match replaced by the mask of its pattern, if the searcher answers such a search.
pub fn text_masked_by(
    alloc: Global,
    searcher: &AhoCorasick,
    masks: &[&str],
    text: &str,
) -> Result<String, ReplaceError>
    requires one_each { length masks.now ≡ patterns_len_of searcher.now }
    ensures masked { ReplacesText searcher.now text.now masks.now result }
{
    searcher.try_replace_all(alloc, text, masks)
}
