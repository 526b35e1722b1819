//! Skipping: in a start with no match in hand a stream's search passes over bytes that begin no match.
//!
//! Nothing of what was walked reaches behind a start, and nothing begins before the next candidate of a prefilter. So the
//! search under way may as well begin at that candidate. A prefilter knows only of matches that end in the bytes that it
//! is shown. A match that begins in the last bytes of the buffer, less than the longest pattern has, may end in bytes that
//! were not read yet: these bytes are walked.

ghost use Rattle.std.specs.Prelude.{◌≡◌, ◌+◌, ◌-◌, ◌<◌, ◌≤◌, ◌^◌, false, length};
ghost use Rattle.aho_core.specs.Patterns.{Patterns};
ghost use Rattle.aho_prefilter.specs.Candidate.{NoneStartsBefore};
ghost use Rattle.aho_prefilter.specs.Prefilter.{IsPrefilterOf};
ghost use Rattle.aho_stream.specs.After.{IsUnderWay, OnlyPasses, StaysAfter, starts_over};

use crate::progress::StreamProgress;
use aho_automaton::walk::Walk;
use aho_core::search::Span;
use aho_prefilter::prefilter::Prefilter;

/// How many of these bytes begin no match, whatever follows them, where no match has more than `longest` bytes.
fn passable(prefilter: &Prefilter, bytes: &[u8], longest: usize) -> usize
    requires some { 1 ≤ longest }
    ensures none { (p : Patterns) → IsPrefilterOf prefilter.now p
        → NoneStartsBefore p bytes.now 0 (length bytes.now) result }
    ensures kept { result ≤ (length bytes.now + 1) - longest }
{
    if bytes.len() < longest {
        return 0;
    }
    let surely = bytes.len() - (longest - 1);
    let span = Span {
        start: 0,
        end: bytes.len(),
    };
    match prefilter.find_in(bytes, span).into_option() {
        Some(place) => place.min(surely),
        None => surely,
    }
}

/// Whether a search is as at its beginning: no match is in hand, and the state that is held is a start.
pub(crate) fn is_at_beginning<W: Walk>(walk: &W, progress: &StreamProgress) -> bool
    requires valid { W.Of.valid (W.of walk.now) progress.now.sid }
    ensures beginning { result ≡ starts_over W.Of.Automaton (W.of walk.now) progress.now }
{
    progress.in_hand.is_none() && walk.is_start(progress.sid)
}

/// Passes over bytes that were read and not walked, up to the next place at which a match may begin, where the search is as
/// at its beginning, the automaton has a prefilter for streams and there is patience left.
#[inline(always)]
pub(crate) fn skip<W: Walk>(walk: &W, progress: &mut StreamProgress)
    requires after { IsUnderWay W.Of.Automaton (W.of walk.now) (W.lookups walk.now) progress.old }
    requires open { progress.old.refused ≡ false }
    ensures after { StaysAfter W.Of.Automaton (W.of walk.now)
        (W.lookups walk.now) progress.old (W.lookups walk.now) progress.new }
    ensures others { OnlyPasses progress.old progress.new }
    ensures on { progress.old.walked ≤ progress.new.walked }
{
    let Some(prefilter) = walk.stream_prefilter() else {
        return;
    };
    if progress.patience == 0 {
        return;
    }
    if !is_at_beginning(walk, progress) {
        return;
    }
    let bytes = progress.bytes(progress.walked, progress.read);
    let count = passable(prefilter, bytes, progress.buffer.min_buffer_len());
    progress.pass(count);
}
