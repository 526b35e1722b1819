//! All finds of patterns that a stranger gave.

ghost use Rattle.chromesquid.specs.Rules.{AreFinds, LeftmostFirst, default_settings, patterns_of, plain_search};
ghost use Rattle.std.specs.Prelude.{IfOk, None};

use chromesquid::{Backward, BackwardError, Match, MatchKind};
use std::alloc::Global;

/// The finds of these words in a text, in at most four look-ups for each byte of it, whatever the words are.
pub fn finds_of_any_words(
    alloc: Global,
    words: &[&[u8]],
    text: &[u8],
) -> Result<Vec<Match>, BackwardError>
    ensures found { IfOk result (λ found. AreFinds
        (patterns_of (record default_settings { kind = LeftmostFirst }) words.now)
        (plain_search text.now) None found.items) }
{
    let searcher = Backward::new(alloc, words, MatchKind::LeftmostFirst, false)?;
    Ok(searcher.find_all(alloc, text)?)
}
