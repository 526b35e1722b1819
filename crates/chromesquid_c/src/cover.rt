//! A haystack in which nothing is left that a match holds.

ghost use Rattle.std.specs.Prelude.{◌≡◌, ◌≢◌, ◌⊎◌, Some};
ghost use Rattle.aho_core.specs.declared.error.MatchErrorKind.{MatchErrorKind};
ghost use Rattle.chromesquid.specs.Rules.{CanCoverAll, ForItsPatterns, why_not_covered};
ghost use Rattle.chromesquid_c.specs.Covering.{PutsCover, WantsRoomForCover, cover_status, failure_status};
ghost use Rattle.chromesquid_c.specs.Holding.{ForPatternsHeld, HoldsSame, IfHeld, IsEmpty};
ghost use Rattle.chromesquid_c.specs.Replacing.{EndsReplacing, IsOneEach};

use crate::handle::CsSearcher;
use crate::replace::put_bytes;
use crate::status::{DONE, EMPTY_PATTERN, NO_MEMORY, NO_ROOM, NO_SEARCHER, NOT_ONE_EACH, REFUSED};
use chromesquid::{AhoCorasick, MatchError, MatchErrorKind, ReplaceError};
use std::alloc::Global;

/// The number that tells why a searcher covers nothing.
fn cover_status(error: &MatchError) -> u32
    ensures status { result ≡ cover_status error.now }
    ensures refused { (result ≡ REFUSED) ⊎ (result ≡ EMPTY_PATTERN) }
{
    match error.kind() {
        MatchErrorKind::UnsupportedEmpty => EMPTY_PATTERN,
        MatchErrorKind::InvalidInputAnchored
        | MatchErrorKind::InvalidInputUnanchored
        | MatchErrorKind::UnsupportedStream { .. }
        | MatchErrorKind::UnsupportedOverlapping { .. } => REFUSED,
    }
}

/// The number that tells why there is no cover.
fn failure_status(error: &ReplaceError) -> u32
    ensures status { result ≡ failure_status error.now }
    ensures failed { (result ≢ DONE) × (result ≢ NO_ROOM) }
{
    match error {
        ReplaceError::Match(refusal) => cover_status(refusal),
        ReplaceError::Memory => NO_MEMORY,
    }
}

/// Puts the cover, where the searcher covers.
fn cover_in(
    alloc: Global,
    searcher: &AhoCorasick,
    haystack: &[u8],
    replace_with: &[&[u8]],
    room: &mut [u8],
    len: &mut usize,
) -> u32
    ensures covered { ForItsPatterns searcher.now (λ p. result ≡ DONE
        → PutsCover p haystack.now replace_with.now room.old room.new len.new) }
    ensures wanted { ForItsPatterns searcher.now (λ p. result ≡ NO_ROOM
        → WantsRoomForCover p haystack.now replace_with.now room.old len.new) }
    ensures kept { result ≢ DONE → room.new ≡ room.old }
    ensures unmeasured { result ≢ DONE → result ≢ NO_ROOM → len.new ≡ len.old }
    ensures not_one_each { (IsOneEach searcher.now replace_with.now → ⊥) → result ≡ NOT_ONE_EACH }
    ensures refused { (reason : MatchErrorKind) → IsOneEach searcher.now replace_with.now
        → why_not_covered searcher.now ≡ Some reason → result ≡ cover_status reason }
    ensures answered { IsOneEach searcher.now replace_with.now → CanCoverAll searcher.now
        → EndsReplacing result }
{
    if replace_with.len() != searcher.patterns_len() {
        return NOT_ONE_EACH;
    }
    let covered = searcher.try_cover_all_bytes(alloc, haystack, replace_with);
    match &covered {
        Ok(bytes) => put_bytes(bytes, room, len),
        Err(error) => failure_status(error),
    }
}

/// Puts the haystack with each run of bytes that lie in matches replaced into `room`, and in `len` how many bytes that are, and
/// answers 0. Whichever matches overlap or touch, no byte of one is left. A run is replaced by the bytes for the longest pattern
/// that begins where it does, of equal ones the first. Where the room is too small it answers 11: `len` is how many bytes are
/// wanted, and nothing is written. The cover is made in memory of its own first.
///
/// # Errors
///
/// 2 where there is no searcher; else 10 where there is not one replacement for each pattern; else 3 where its match kind is not
/// Standard; else 14 where a pattern is empty; else 3 where it answers anchored searches alone, 5 where memory runs out. `room` is
/// as it was unless 0 is answered, `len` unless 0 or 11 is.
#[unsafe(no_mangle)]
pub extern "C" fn cs_cover_all(
    alloc: Global,
    searcher: &mut CsSearcher,
    haystack: &[u8],
    replace_with: &[&[u8]],
    room: &mut [u8],
    len: &mut usize,
) -> u32
    ensures covered { ForPatternsHeld searcher.old (λ p. result ≡ DONE
        → PutsCover p haystack.now replace_with.now room.old room.new len.new) }
    ensures wanted { ForPatternsHeld searcher.old (λ p. result ≡ NO_ROOM
        → WantsRoomForCover p haystack.now replace_with.now room.old len.new) }
    ensures kept { result ≢ DONE → room.new ≡ room.old }
    ensures unmeasured { result ≢ DONE → result ≢ NO_ROOM → len.new ≡ len.old }
    ensures not_one_each { IfHeld searcher.old (λ s.
        (IsOneEach s replace_with.now → ⊥) → result ≡ NOT_ONE_EACH) }
    ensures refused { IfHeld searcher.old (λ s. (reason : MatchErrorKind) →
        IsOneEach s replace_with.now → why_not_covered s ≡ Some reason → result ≡ cover_status reason) }
    ensures answered { IfHeld searcher.old (λ s.
        IsOneEach s replace_with.now → CanCoverAll s → EndsReplacing result) }
    ensures empty { IsEmpty searcher.old → result ≡ NO_SEARCHER }
    ensures same { HoldsSame searcher.old searcher.new }
{
    if searcher.full {
        cover_in(
            alloc,
            &searcher.held.get().searcher,
            haystack,
            replace_with,
            room,
            len,
        )
    } else {
        NO_SEARCHER
    }
}
