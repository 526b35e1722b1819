//! Which automaton searches, and which searches are answered.

ghost use Rattle.std.specs.Prelude.{◌≡◌, ◌↔◌, IsTrue, true};
ghost use Rattle.chromesquid.specs.Rules.{Answers, Yes, automaton_kind_of};
ghost use Rattle.chromesquid.specs.declared.kinds.AhoCorasickKind.TheVariants.{NoncontiguousNFA};

use chromesquid::{AhoCorasick, AhoCorasickKind, StartKind};

/// Whether it is a trie with failure links.
pub fn is_trie(searcher: &AhoCorasick) -> bool
    ensures trie { IsTrue result ↔ (automaton_kind_of searcher.now ≡ NoncontiguousNFA) }
{
    searcher.kind() == AhoCorasickKind::NoncontiguousNFA
}

/// Whether a text can be lexed: whether anchored searches are answered.
pub fn can_lex(searcher: &AhoCorasick) -> bool
    ensures starts { result ≡ true → Answers searcher.now Yes }
{
    searcher.start_kind() != StartKind::Unanchored
}
