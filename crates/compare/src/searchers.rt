//! The one crate's searcher, by its own calls and as an automaton.

ghost use Rattle.aho_core.specs.Patterns.{Patterns};
ghost use Rattle.std.specs.Prelude.{IfOk};
ghost use Rattle.chromesquid.specs.Searcher.{Answers, IsBuiltFrom};
ghost use Rattle.aho_core.specs.declared.search.Anchored.TheVariants.{No};

use crate::automata::compare_calls;
use crate::count::Count;
use crate::memory::{Asked, MANY, some_input};
use crate::pieces::{on_boundaries, replaced};
use crate::turns::turns;
use aho_core::search::MatchKind;
use anyhow::{Result, bail};
use bench::listing::finds;
use bench::numbers::Numbers;
use bench::plain::plain;
use bench::scripted::{ScriptedSink, ScriptedSource, Turn};
use chromesquid::{AhoCorasick, AhoCorasickKind, Anchored, BuildError, MatchError, StartKind};
use std::alloc::Global;
use std::str;

/// How a searcher is built.
#[derive(Clone, Copy)]
struct Building {
    start_kind: StartKind,
    kind: Option<AhoCorasickKind>,
    prefilter: bool,
    depth: usize,
    best_effort: bool,
    finds_all: bool,
}

impl Building {
    /// The way that these numbers lead to.
    fn new(numbers: &mut Numbers) -> Building {
        Building {
            start_kind: match numbers.below(4) {
                0 => StartKind::Both,
                1 => StartKind::Anchored,
                _ => StartKind::Unanchored,
            },
            kind: match numbers.below(3) {
                0 => None,
                1 => Some(AhoCorasickKind::NoncontiguousNFA),
                _ => Some(AhoCorasickKind::Hybrid),
            },
            prefilter: numbers.once_in(2),
            depth: numbers.below(4),
            best_effort: numbers.once_in(2),
            finds_all: numbers.once_in(2),
        }
    }

    /// The searcher of these words.
    fn searcher(
        &self,
        alloc: Global,
        words: &[&[u8]],
        kind: MatchKind,
        ignore_case: bool,
    ) -> Result<AhoCorasick, BuildError>
        ensures of { IfOk result (λ built. (p : Patterns) × IsBuiltFrom built p) }
    {
        AhoCorasick::builder()
            .match_kind(kind)
            .ascii_case_insensitive(ignore_case)
            .start_kind(self.start_kind)
            .kind(self.kind)
            .prefilter(self.prefilter)
            .dense_depth(self.depth)
            .best_effort(self.best_effort)
            .finds_all(self.finds_all)
            .build(alloc, words)
    }
}

/// Why a search of this anchoring is refused, if it is.
fn refusal(searcher: &AhoCorasick, anchored: Anchored) -> Option<MatchError> {
    match (searcher.start_kind(), anchored) {
        (StartKind::Unanchored, Anchored::Yes) => Some(MatchError::invalid_input_anchored()),
        (StartKind::Anchored, Anchored::No) => Some(MatchError::invalid_input_unanchored()),
        _ => None,
    }
}

/// Compares one search of a part of the text.
fn one_search(
    searcher: &AhoCorasick,
    asked: &Asked<'_>,
    numbers: &mut Numbers,
    count: &mut Count,
) -> Result<()> {
    let input = some_input(numbers, asked.text);
    let wanted = match refusal(searcher, input.get_anchored()) {
        Some(error) if !input.is_done() => Err(error),
        _ => Ok(plain(asked.patterns, &input)),
    };
    count.same("AhoCorasick::try_find", &searcher.try_find(input), &wanted)
}

/// Compares all finds of a text.
fn all_at_once(
    alloc: Global,
    searcher: &AhoCorasick,
    asked: &Asked<'_>,
    count: &mut Count,
) -> Result<()>
    requires starts { Answers searcher.now No }
{
    let found = searcher.find_all(alloc, asked.text)?;
    count.same("AhoCorasick::find_all", &found, &asked.finds)
}

/// Compares whether a text has a match, and the first one.
fn first(searcher: &AhoCorasick, asked: &Asked<'_>, count: &mut Count) -> Result<()>
    requires starts { Answers searcher.now No }
{
    count.same(
        "AhoCorasick::is_match",
        &searcher.is_match(asked.text),
        &!asked.finds.is_empty(),
    )?;
    count.same(
        "AhoCorasick::find",
        &searcher.find(asked.text),
        &asked.finds.first().copied(),
    )
}

/// Compares iteration over a part of the text.
fn iteration(
    alloc: Global,
    searcher: &AhoCorasick,
    asked: &Asked<'_>,
    numbers: &mut Numbers,
    count: &mut Count,
) -> Result<()> {
    let input = some_input(numbers, asked.text);
    let wanted = finds(alloc, asked.patterns, input.clone()?)?;
    let refused = refusal(searcher, input.get_anchored());
    match searcher.try_find_iter(input) {
        Ok(matches) => {
            count.same("AhoCorasick::try_find_iter, answered", &None, &refused)?;
            let found = matches.collect(alloc)?;
            count.same("AhoCorasick::try_find_iter", &found, &wanted)
        }
        Err(error) => count.same(
            "AhoCorasick::try_find_iter, refused",
            &Some(error),
            &refused,
        ),
    }
}

/// Compares the list of all matches.
fn lists(
    alloc: Global,
    searcher: &AhoCorasick,
    asked: &Asked<'_>,
    count: &mut Count,
) -> Result<()> {
    let refused = if searcher.match_kind() == MatchKind::Standard {
        refusal(searcher, Anchored::No)
    } else {
        Some(MatchError::unsupported_overlapping(searcher.match_kind()))
    };
    match searcher.try_find_overlapping_iter(asked.text) {
        Ok(matches) => {
            count.same(
                "AhoCorasick::try_find_overlapping_iter, answered",
                &None,
                &refused,
            )?;
            let found = matches.collect(alloc)?;
            count.same("AhoCorasick::try_find_overlapping_iter", &found, &asked.all)
        }
        Err(error) => {
            count.same(
                "AhoCorasick::try_find_overlapping_iter, refused",
                &Some(error),
                &refused,
            )
        }
    }
}

/// Compares replacements in memory.
fn replacements(
    alloc: Global,
    searcher: &AhoCorasick,
    asked: &Asked<'_>,
    count: &mut Count,
) -> Result<()>
    requires starts { Answers searcher.now No }
{
    if asked.bytes.len() != searcher.patterns_len()
        || asked.pieces.len() != searcher.patterns_len()
    {
        bail!("patterns_len");
    }
    let found = searcher.replace_all_bytes(alloc, asked.text, asked.bytes)?;
    let wanted = replaced(alloc, asked.text, asked.finds.as_slice(), asked.bytes)?;
    count.same("AhoCorasick::replace_all_bytes", &found, &wanted)?;
    let Ok(text) = str::from_utf8(asked.text) else {
        return Ok(());
    };
    let found = searcher.replace_all(alloc, text, asked.pieces)?;
    let kept = on_boundaries(alloc, text, asked.finds.as_slice())?;
    let wanted = replaced(alloc, asked.text, kept.as_slice(), asked.bytes)?;
    count.same(
        "AhoCorasick::replace_all",
        &found.as_bytes(),
        &wanted.as_slice(),
    )
}

/// Compares a stream's matches, whose source cuts and does not fail.
fn stream_finds(
    alloc: Global,
    searcher: &AhoCorasick,
    asked: &Asked<'_>,
    reads: &[Turn],
    count: &mut Count,
) -> Result<()> {
    let mut source = ScriptedSource::new(asked.text, reads);
    let mut found = Vec::new(alloc);
    for item in searcher
        .try_stream_find_iter(alloc, &mut source)?
        .take(MANY)
    {
        if let Ok(m) = item {
            found.push(m)?;
        }
    }
    count.same("AhoCorasick::try_stream_find_iter", &found, &asked.finds)
}

/// Compares a stream's replacement, whose devices cut and do not fail.
fn stream_replacement(
    alloc: Global,
    searcher: &AhoCorasick,
    asked: &Asked<'_>,
    count: &mut Count,
) -> Result<()> {
    if asked.bytes.len() != searcher.patterns_len() {
        bail!("patterns_len");
    }
    let mut source = ScriptedSource::new(asked.text, &[Turn::Move(1); 20]);
    let mut sink = ScriptedSink::new(alloc, &[Turn::Move(1); 20]);
    searcher.try_stream_replace_all(alloc, &mut source, &mut sink, asked.bytes)?;
    let wanted = replaced(alloc, asked.text, asked.finds.as_slice(), asked.bytes)?;
    count.same(
        "AhoCorasick::try_stream_replace_all",
        &sink.taken(),
        &wanted.as_slice(),
    )
}

/// Compares the calls of a searcher that answers searches which are not anchored.
fn unanchored(
    alloc: Global,
    searcher: &AhoCorasick,
    asked: &Asked<'_>,
    numbers: &mut Numbers,
    count: &mut Count,
) -> Result<()>
    requires of { (p : Patterns) × IsBuiltFrom searcher.now p }
    requires starts { Answers searcher.now No }
{
    first(searcher, asked, count)?;
    all_at_once(alloc, searcher, asked, count)?;
    replacements(alloc, searcher, asked, count)?;
    if searcher.min_pattern_len() > 0 {
        let reads = turns(alloc, numbers, false)?;
        stream_finds(alloc, searcher, asked, reads.as_slice(), count)?;
        stream_replacement(alloc, searcher, asked, count)?;
    }
    Ok(())
}

/// Compares the calls of a searcher.
fn compare_searcher(
    alloc: Global,
    searcher: &AhoCorasick,
    asked: &Asked<'_>,
    numbers: &mut Numbers,
    count: &mut Count,
) -> Result<()>
    requires of { (p : Patterns) × IsBuiltFrom searcher.now p }
{
    one_search(searcher, asked, numbers, count)?;
    iteration(alloc, searcher, asked, numbers, count)?;
    lists(alloc, searcher, asked, count)?;
    match searcher.start_kind() {
        StartKind::Anchored => Ok(()),
        StartKind::Both => {
            unanchored(alloc, searcher, asked, numbers, count)?;
            compare_calls(alloc, searcher, asked, true, numbers, count)
        }
        StartKind::Unanchored => {
            unanchored(alloc, searcher, asked, numbers, count)?;
            compare_calls(alloc, searcher, asked, false, numbers, count)
        }
    }
}

/// Compares the calls of a searcher of these words.
pub(crate) fn compare_searchers(
    alloc: Global,
    words: &[&[u8]],
    (kind, ignore_case): (MatchKind, bool),
    asked: &Asked<'_>,
    numbers: &mut Numbers,
    count: &mut Count,
) -> Result<()> {
    let searcher = Building::new(numbers).searcher(alloc, words, kind, ignore_case)?;
    compare_searcher(alloc, &searcher, asked, numbers, count)
}
