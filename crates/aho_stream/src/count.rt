//! How many matches a stream has.

ghost use Rattle.std.specs.Prelude.{◌≡◌, false};
ghost use Rattle.aho_stream.specs.Counting.{CountsAll};
ghost use Rattle.aho_stream.specs.Iterators.{IsFresh};

use crate::chunks::{StreamChunk, StreamChunkIter};
use aho_automaton::automaton::Automaton;
use aho_core::error::StreamError;
use aho_devices::device::Source;

/// How many matches the stream has.
///
/// # Errors
///
/// The first error.
pub fn count_matches<'a, 'r, A: Automaton, R: Source>(
    chunks: &mut StreamChunkIter<'a, 'r, A, R>,
) -> Result<u64, StreamError>
    requires fresh { IsFresh A.Automaton chunks.old }
    requires open { chunks.old.progress.refused ≡ false }
    ensures counts { CountsAll A.Automaton R.Source chunks.old chunks.new result }
{
    let mut count: u64 = 0;
    while let Some(answer) = chunks.next() {
        match answer {
            Ok(chunk) => match chunk {
                StreamChunk::Match { bytes: _, mat: _ } => count += 1,
                StreamChunk::NonMatch { bytes: _ } => {}
            },
            Err(error) => return Err(*error),
        }
    }
    Ok(count)
}
