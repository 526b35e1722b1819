//! Whether a searcher meets the conditions of a call.

ghost use Rattle.std.specs.Prelude.{◌≡◌, length, true};
ghost use Rattle.chromesquid.specs.Rules.{Answers, HasNoEmpty, IsBuiltFrom, No, Patterns, Standard};

use chromesquid::{AhoCorasick, MatchKind, StartKind};

/// Whether there is one mask for each pattern.
pub fn has_as_many(searcher: &AhoCorasick, masks: &[&[u8]]) -> bool
    ensures same { (p : Patterns) → IsBuiltFrom searcher.now p → result ≡ true
        → length masks.now ≡ length p.words }
{
    masks.len() == searcher.patterns_len()
}

/// Whether streams can be searched.
pub fn can_stream(searcher: &AhoCorasick) -> bool
    ensures no_empty { result ≡ true → HasNoEmpty searcher.now }
    ensures starts { result ≡ true → Answers searcher.now No }
{
    searcher.min_pattern_len() > 0 && searcher.start_kind() != StartKind::Anchored
}

/// Whether all occurrences can be listed.
pub fn can_list(searcher: &AhoCorasick) -> bool
    ensures kind { (p : Patterns) → IsBuiltFrom searcher.now p → result ≡ true
        → p.kind ≡ Standard }
{
    searcher.match_kind() == MatchKind::Standard
}
