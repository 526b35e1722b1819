//! A copy.

ghost use Rattle.std.specs.Prelude.{IfOk};
ghost use Rattle.chromesquid.specs.Rules.{IsBuiltFrom, Patterns};

use chromesquid::AhoCorasick;
use std::alloc::AllocError;

/// A second searcher of the same words.
pub fn copy_of(searcher: &AhoCorasick) -> Result<AhoCorasick, AllocError>
    ensures of { (p : Patterns) → IsBuiltFrom searcher.now p
        → IfOk result (λ copy. IsBuiltFrom copy p) }
{
    searcher.try_clone()
}
