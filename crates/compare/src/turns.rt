//! What the calls of a stream's devices do, and what that makes of the stream.

use aho_core::error::{Fault, StreamError};
use bench::numbers::Numbers;
use bench::scripted::Turn;
use std::alloc::{AllocError, Global};

/// How many bytes a call moves at most.
const MOST: [usize; 6] = [1, 1, 2, 3, 8, 64];

/// The turns of a device: none, so that each call moves all, or some that move few bytes or fail, and of which some may move
/// none.
pub(crate) fn turns(
    alloc: Global,
    numbers: &mut Numbers,
    moves_none: bool,
) -> Result<Vec<Turn>, AllocError> {
    let mut turns = Vec::new(alloc);
    if numbers.once_in(4) {
        return Ok(turns);
    }
    let most = MOST[numbers.below(6)];
    for _ in 0..numbers.below(120) {
        turns.push(turn(numbers, most, moves_none))?;
    }
    Ok(turns)
}

/// One turn.
fn turn(numbers: &mut Numbers, most: usize, moves_none: bool) -> Turn {
    if numbers.once_in(30) {
        return Turn::Fail;
    }
    if moves_none && numbers.once_in(40) {
        return Turn::Move(0);
    }
    Turn::Move(numbers.below(most.max(1)).saturating_add(1))
}

/// How many of the first so many turns fail.
pub(crate) fn failed(turns: &[Turn], calls: usize) -> usize {
    let mut failed = 0usize;
    for turn in turns.iter().take(calls) {
        if matches!(turn, Turn::Fail) {
            failed = failed.saturating_add(1);
        }
    }
    failed
}

/// The last of so many calls, which is none where it went by no turn.
pub(crate) fn last(turns: &[Turn], calls: usize) -> Option<Turn> {
    turns.get(calls.checked_sub(1)?).copied()
}

/// What a replacement answers whose last read and last write were these.
pub(crate) fn answer_of(read: Option<Turn>, write: Option<Turn>) -> Result<(), StreamError> {
    match (read, write) {
        (Some(Turn::Fail), _) => Err(StreamError::Read(Fault)),
        (_, Some(Turn::Fail)) => Err(StreamError::Write(Fault)),
        (_, Some(Turn::Move(0))) => Err(StreamError::WriteZero),
        _ => Ok(()),
    }
}
