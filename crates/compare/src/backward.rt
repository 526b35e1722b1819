//! All finds of a text by a walk backward, against the plain program.

ghost use Rattle.aho_core.specs.Patterns.{Patterns};
ghost use Rattle.aho_backward.specs.Searcher.{IsBackwardOf};

use crate::count::Count;
use crate::memory::Asked;
use crate::pieces::replaced;
use crate::streams::{given, judged};
use crate::turns::{answer_of, last, turns};
use aho_automaton::automaton::{Automaton, Counted, Walk};
use aho_backward::backward::Backward;
use aho_backward::error::BackwardError;
use aho_backward::find_all::find_all_in;
use aho_backward::stream::stream_replace_in;
use aho_core::error::StreamError;
use aho_core::search::{Match, MatchKind};
use anyhow::{Result, bail};
use bench::numbers::Numbers;
use bench::scripted::{ScriptedSink, ScriptedSource, Turn};
use std::alloc::Global;

/// All finds by a walk that counts, as `find_all` gives them, and how many look-ups it made.
fn find_counted<A: Automaton + Drop>(
    alloc: Global,
    searcher: &Backward<A>,
    text: &[u8],
) -> Result<(Vec<Match>, u128)>
    requires of { (p : Patterns) × IsBackwardOf A.Automaton searcher.now p }
{
    let automaton = searcher.automaton();
    let mut walk = Counted::new(automaton);
    let reach = automaton.max_pattern_len();
    let found = find_all_in(alloc, &mut walk, searcher.given(), reach, text)?;
    Ok((found, walk.lookups()))
}

/// What the replacement of a stream answers by a walk that counts, and how many look-ups it made.
fn replace_counted<A: Automaton + Drop>(
    alloc: Global,
    searcher: &Backward<A>,
    source: &mut ScriptedSource<'_>,
    sink: &mut ScriptedSink<'_>,
    pieces: &[&[u8]],
) -> (Result<(), StreamError>, u128)
    requires of { (p : Patterns) × IsBackwardOf A.Automaton searcher.now p }
{
    let automaton = searcher.automaton();
    let mut walk = Counted::new(automaton);
    let reach = automaton.max_pattern_len();
    let given = searcher.given();
    let answer = stream_replace_in(alloc, &mut walk, given, reach, source, sink, pieces);
    (answer, walk.lookups())
}

/// Compares all finds of the text, how many look-ups they take, and what is refused.
pub(crate) fn compare_backward(
    alloc: Global,
    words: &[&[u8]],
    settings: (MatchKind, bool),
    asked: &Asked<'_>,
    count: &mut Count,
) -> Result<()> {
    match Backward::new(alloc, words, settings.0, settings.1) {
        Ok(searcher) => {
            let (found, lookups) = find_counted(alloc, &searcher, asked.text)?;
            count.same("finds by a walk backward", &found, &asked.finds)?;
            let most = 4 * asked.text.len() as u128;
            count.same("their look-ups", &(lookups <= most), &true)?;
            let bytes = searcher.replace_all_bytes(alloc, asked.text, asked.bytes)?;
            let wanted = replaced(alloc, asked.text, asked.finds.as_slice(), asked.bytes)?;
            count.same("replaced by a walk backward", &bytes, &wanted)
        }
        Err(BackwardError::StandardKind) => {
            count.same("a kind refused", &settings.0, &MatchKind::Standard)
        }
        Err(BackwardError::EmptyPattern(number)) => {
            let empty = words.iter().position(|word| word.is_empty());
            count.same("an empty pattern", &Some(number), &empty)
        }
        Err(error) => bail!("{error}"),
    }
}

/// Compares the replacement of a stream, whose devices cut, end and fail, with that in memory, and how many look-ups it takes.
pub(crate) fn compare_backward_streams(
    alloc: Global,
    words: &[&[u8]],
    settings: (MatchKind, bool),
    asked: &Asked<'_>,
    numbers: &mut Numbers,
    count: &mut Count,
) -> Result<()> {
    let Ok(searcher) = Backward::new(alloc, words, settings.0, settings.1) else {
        return Ok(());
    };
    let reads = turns(alloc, numbers, true)?;
    let writes = turns(alloc, numbers, true)?;
    let mut source = ScriptedSource::new(asked.text, reads.as_slice());
    let mut sink = ScriptedSink::new(alloc, writes.as_slice());
    let (answer, lookups) = replace_counted(alloc, &searcher, &mut source, &mut sink, asked.bytes);
    let given = given(asked.text, &source);
    let most = 4 * given.len() as u128;
    count.same("look-ups of a stream backward", &(lookups <= most), &true)?;
    let last_read = last(reads.as_slice(), source.reads());
    let wanted = answer_of(last_read, last(writes.as_slice(), sink.writes()));
    let ended = answer.is_ok() || matches!(last_read, Some(Turn::Move(0)));
    let bytes = if ended { given } else { asked.text };
    let whole = searcher.replace_all_bytes(alloc, bytes, asked.bytes)?;
    judged(
        "a stream by a walk backward",
        &answer,
        &wanted,
        sink.taken(),
        whole.as_slice(),
        count,
    )
}
