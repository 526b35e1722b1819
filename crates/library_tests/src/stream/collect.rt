//! A caller of the search of a stream, with what it may promise in turn: it collects all matches.

ghost use Rattle.std.specs.Prelude.{◌≡◌, IfOk, ℕ, List, None, true};
ghost use Rattle.aho_core.specs.Iteration.{AreFinds};
ghost use Rattle.aho_core.specs.Patterns.{Patterns};
ghost use Rattle.aho_core.specs.Search.{plain_search};
ghost use Rattle.aho_stream.specs.FindRuns.{FindsAlong};
ghost use Rattle.aho_stream.specs.Finds.{FindsNextInStream};
ghost use Rattle.aho_stream.specs.Iterators.{automaton_of};
ghost use Rattle.aho_stream.specs.Replacing.{SourceGave};

use aho_automaton::automaton::Automaton;
use aho_core::error::StreamError;
use aho_core::search::Match;
use aho_devices::device::Source;
use aho_stream::finds::{StreamFindIter, try_stream_find_iter};
use std::alloc::Global;

/// All matches of what the source gives, up to its end.
///
/// # Errors
///
/// The first error: as those of `try_stream_find_iter`, `Read` where a read fails, `PositionLimit` where 2^63 - 1 bytes
/// were given and the end was not seen, and `Memory` where an allocation of the matches fails.
pub fn matches_of<A: Automaton, R: Source>(
    alloc: Global,
    automaton: &A,
    source: &mut R,
) -> Result<Vec<Match>, StreamError>
    requires of { (p : Patterns) × A.is_of automaton.now p }
    ensures all { (p : Patterns) → A.is_of automaton.now p → IfOk result (λ matches.
        (given : List ℕ) × SourceGave R.Source source.old source.new given true
        × AreFinds p (plain_search given) None matches.items) }
{
    let mut found = try_stream_find_iter(alloc, automaton, source)?;
    let matches = collect_matches(alloc, &mut found);
    let _source = found.into_source();
    matches
}

/// The matches that the iterator gives, up to its end.
fn collect_matches<'a, 'r, A: Automaton, R: Source>(
    alloc: Global,
    found: &mut StreamFindIter<'a, 'r, A, R>,
) -> Result<Vec<Match>, StreamError>
    requires ready { ⟦<StreamFindIter<'a, 'r, A, R> as Iterator>⟧.can_next found.old }
    requires along { (p : Patterns) → A.is_of (automaton_of found.old.chunks) p → FindsAlong R.Source
        ⟦<StreamFindIter<'a, 'r, A, R> as Iterator>⟧.next_gives p found.old }
    ensures same_source { found.new.chunks.source.ghost_name ≡ found.old.chunks.source.ghost_name }
    ensures all { (p : Patterns) → A.is_of (automaton_of found.old.chunks) p → IfOk result (λ matches.
        (given : List ℕ)
        × SourceGave R.Source found.old.chunks.source.now found.new.chunks.source.now given true
        × AreFinds p (plain_search given) None matches.items) }
{
    let mut matches = Vec::new(alloc);
    loop {
        match next_of(found) {
            None => return Ok(matches),
            Some(Err(error)) => return Err(error),
            Some(Ok(m)) => {
                let Ok(()) = matches.push(m) else {
                    return Err(StreamError::Memory);
                };
            }
        }
    }
}

/// The next item of the iterator.
fn next_of<'a, 'r, A: Automaton, R: Source>(
    found: &mut StreamFindIter<'a, 'r, A, R>,
) -> Option<Result<Match, StreamError>>
    requires ready { ⟦<StreamFindIter<'a, 'r, A, R> as Iterator>⟧.can_next found.old }
    ensures gives { FindsNextInStream A.Automaton R.Source found.old.chunks found.new.chunks result }
{
    found.next()
}
