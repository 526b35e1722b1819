//! Skipping: in a start a cover passes over bytes that no match holds.
//!
//! What ends behind a start begins there or behind it, and nothing begins before the next candidate of a prefilter. So the bytes
//! up to that candidate lie in no match that ends later, and the same start may as well be held there. A prefilter knows only of
//! matches that end in the bytes that it is shown. A match that begins in the last bytes of the buffer, as many as the longest
//! pattern has, may end in bytes that were not read yet: these bytes are walked. Runs in hand stay there, and are settled as they
//! would be without a skip.

ghost use Rattle.std.specs.Prelude.{◌≡◌, ◌-◌, ◌<◌, ◌≤◌, ℕ, List, length};
ghost use Rattle.aho_core.specs.Patterns.{Patterns};
ghost use Rattle.aho_prefilter.specs.Candidate.{NoneStartsBefore};
ghost use Rattle.aho_prefilter.specs.Prefilter.{IsPrefilterOf};
ghost use Rattle.aho_cover.specs.Feeds.{any_bytes};
ghost use Rattle.aho_cover.specs.Pieces.{PieceRule};
ghost use Rattle.aho_cover.specs.Progress.{IsSoundCover, walk_end};
ghost use Rattle.aho_cover.specs.Steps.{CanWalk, PassesOver};

use crate::progress::CoverProgress;
use aho_automaton::automaton::Automaton;
use aho_automaton::patience::patience_after;
use aho_automaton::walk::{Counted, Walk};
use aho_core::search::Span;
use aho_prefilter::prefilter::Prefilter;

/// How many of these bytes begin no match, whatever follows them, where no match has more than `longest` bytes. So many are left.
fn passable(prefilter: &Prefilter, bytes: &[u8], longest: usize) -> usize
    ensures none { (p : Patterns) → IsPrefilterOf prefilter.now p
        → NoneStartsBefore p bytes.now 0 (length bytes.now) result }
    ensures kept { result ≤ length bytes.now - longest }
{
    if bytes.len() <= longest {
        return 0;
    }
    let surely = bytes.len() - longest;
    let span = Span {
        start: 0,
        end: bytes.len(),
    };
    match prefilter.find_in(bytes, span).into_option() {
        Some(place) => place.min(surely),
        None => surely,
    }
}

/// Whether a walk may wait for a candidate: the automaton has a prefilter for streams, there is patience left, and more is left of
/// the bytes that may be walked than a match may have.
pub(crate) fn may_wait<A: Automaton>(
    walk: &Counted<'_, A>,
    progress: &CoverProgress,
    patience: usize,
    at: usize,
) -> bool
    requires within { at ≤ walk_end progress.now }
{
    if patience == 0 || walk.stream_prefilter().is_none() {
        return false;
    }
    progress.walk_end() - at > progress.buffer.min_buffer_len()
}

/// Passes over bytes that may be walked and were not, up to the next place at which a match may begin, where the state is a start,
/// the automaton has a prefilter for streams and there is patience left. Answers the place behind them.
#[inline(always)]
pub(crate) fn skip<A: Automaton>(
    walk: &Counted<'_, A>,
    progress: &mut CoverProgress,
    patience: &mut usize,
    at: usize,
) -> usize
    requires sound { IsSoundCover progress.old at }
    requires further { at < walk_end progress.old }
    requires can { (rule : PieceRule) × CanWalk A.Automaton walk.now rule any_bytes progress.old at }
    ensures sound { IsSoundCover progress.new result }
    ensures passes { PassesOver A.Automaton walk.now.automaton.now progress.old at progress.new result }
    ensures only { progress.new ≡ record progress.old { since = progress.new.since } }
    ensures on { at ≤ result }
    ensures further { result < walk_end progress.old }
{
    let Some(prefilter) = walk.stream_prefilter() else {
        return at;
    };
    if *patience == 0 {
        return at;
    }
    if !walk.is_start(progress.sid) {
        return at;
    }
    let bytes = progress.bytes(at, progress.walk_end());
    let count = passable(prefilter, bytes, progress.buffer.min_buffer_len());
    *patience = patience_after(*patience, count);
    progress.since = at + count;
    at + count
}
