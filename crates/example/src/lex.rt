//! A lexer: tokens that follow one another without a gap.

ghost use Rattle.std.specs.Prelude.{IfOk, None};
ghost use Rattle.chromesquid.specs.Rules.{Answers, AreFinds, IsBuiltFrom, Patterns, Yes, default_settings, patterns_of, plain_search};

use anyhow::Result;
use chromesquid::{AhoCorasick, Anchored, Input, Match, StartKind};
use std::alloc::Global;

/// The tokens with which a text begins, each right after the one before.
pub fn tokens(alloc: Global, words: &[&[u8]], text: &[u8]) -> Result<Vec<Match>>
    ensures tokens { IfOk result (λ found. AreFinds (patterns_of default_settings words.now)
        (record (plain_search text.now) { anchored = Yes }) None found.items) }
{
    let lexer = AhoCorasick::builder()
        .start_kind(StartKind::Anchored)
        .build(alloc, words)?;
    let tokens = lexer.find_iter(Input::new(text).anchored(Anchored::Yes));
    Ok(tokens.collect(alloc)?)
}
