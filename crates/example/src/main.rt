//! Small programs: a search, a replacement, a keyword filter, a lexer and a redactor.
#![tactic(auto)]

mod callers;
mod filter;
mod lex;
mod mask;
mod redact;
mod search;

use anyhow::Result;
use chromesquid::{FromRead, FromWrite};

fn main(rt: HostRuntime) -> Result<()> {
    let words: [&[u8]; 2] = [b"fox", b"quick"];
    if let Some(found) = search::first_of(rt.alloc(), &[b"samwise", b"sam"], b"samwise")? {
        println!(rt; "{} at {}", found.pattern().as_usize(), found.start())?;
    }
    let masked = mask::masked(rt.alloc(), &words, &["sloth", "slow"], "The quick fox.")?;
    println!(rt; "{masked}")?;
    println!(rt; "{}", filter::holds(rt.alloc(), &words, "Quick!")?)?;
    for token in lex::tokens(rt.alloc(), &[b"a", b"+"], b"a+a?a")? {
        println!(rt; "{} at {}", token.pattern().as_usize(), token.start())?;
    }
    let mut source = FromRead::new(rt.stdin());
    let mut sink = FromWrite::new(rt.stdout());
    redact::redact(rt.alloc(), &[b"secret"], &[b"[..]"], &mut source, &mut sink)
}
