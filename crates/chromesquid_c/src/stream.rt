//! Streams whose bytes are pushed.

ghost use Rattle.std.specs.Prelude.{◌≡◌, ◌≢◌, ◌<◌, ◌≤◌, ◌⊎◌, IfOk, length};
ghost use Rattle.chromesquid.specs.Rules.{Answers, HasEmpty, HasNoEmpty, No, RefusesSearch};
ghost use Rattle.chromesquid_c.specs.Holding.{HoldsSame, IfHeld, IsEmpty};
ghost use Rattle.chromesquid_c.specs.HoldingStream.{HasNoStream, HoldsSameStream, IfStream, OfStream};
ghost use Rattle.chromesquid_c.specs.Replacing.{IsOneEach};
ghost use Rattle.chromesquid_c.specs.Streaming.{Ends, FillsRoom, HasBegun, HasEnded, IsFull, LeavesAll, TakesPushed, TellsFound, TellsReplaced, room_wanted};

use crate::handle::CsSearcher;
use crate::list::is_unanchored;
use crate::options::CsMatch;
use crate::pushed::Pushed;
use crate::status::{
    DONE, EMPTY_PATTERN, ENDED, FOUND, NO_MEMORY, NO_ROOM, NO_SEARCHER, NOT_ONE_EACH, REFUSED,
    TOO_MANY_BYTES,
};
use crate::stream_handle::CsStream;
use chromesquid::AhoCorasick;
use std::alloc::{AllocError, Global};
use std::sync::Arc;

/// A handle of a new stream of this searcher.
fn stream_of(alloc: Global, searcher: &Arc<AhoCorasick>) -> Result<CsStream, AllocError>
    requires no_empty { HasNoEmpty searcher.now.value }
    requires starts { Answers searcher.now.value No }
    ensures begun { IfOk result (λ h. OfStream h (HasBegun searcher.now.value)) }
{
    let stream = Pushed::new(alloc, searcher)?;
    CsStream::of(alloc, stream)
}

/// Puts a new stream of this searcher into `out`, where it answers.
fn begin_stream(alloc: Global, searcher: &Arc<AhoCorasick>, out: &mut CsStream) -> u32
    ensures begun { result ≡ DONE → OfStream out.new (HasBegun searcher.now.value) }
    ensures empty_pattern { HasEmpty searcher.now.value → result ≡ EMPTY_PATTERN }
    ensures refused { HasNoEmpty searcher.now.value → RefusesSearch searcher.now.value No
        → result ≡ REFUSED }
    ensures answered { HasNoEmpty searcher.now.value → Answers searcher.now.value No
        → (result ≡ DONE) ⊎ (result ≡ NO_MEMORY) }
    ensures kept { result ≢ DONE → out.new ≡ out.old }
{
    if searcher.min_pattern_len() == 0 {
        return EMPTY_PATTERN;
    }
    if !is_unanchored(searcher) {
        return REFUSED;
    }
    match stream_of(alloc, searcher) {
        Ok(stream) => {
            *out = stream;
            DONE
        }
        Err(_) => NO_MEMORY,
    }
}

/// Begins a stream, whose bytes are pushed, and puts it into `out`, in the place of the one that is there: 0. It has a share of the
/// searcher, and takes all its memory here: a buffer of 8 times as many bytes as the longest pattern has, and of 65536 at least.
///
/// # Errors
///
/// 2 where there is no searcher; else 14 where a pattern is empty; else 3 where the searcher answers anchored searches alone, 5
/// where memory runs out. `out` is then as it was.
#[unsafe(no_mangle)]
pub extern "C" fn cs_stream_new(alloc: Global, searcher: &mut CsSearcher, out: &mut CsStream) -> u32
    ensures begun { IfHeld searcher.old (λ s. result ≡ DONE → OfStream out.new (HasBegun s)) }
    ensures empty_pattern { IfHeld searcher.old (λ s. HasEmpty s → result ≡ EMPTY_PATTERN) }
    ensures refused { IfHeld searcher.old (λ s.
        HasNoEmpty s → RefusesSearch s No → result ≡ REFUSED) }
    ensures answered { IfHeld searcher.old (λ s.
        HasNoEmpty s → Answers s No → (result ≡ DONE) ⊎ (result ≡ NO_MEMORY)) }
    ensures empty { IsEmpty searcher.old → result ≡ NO_SEARCHER }
    ensures kept { result ≢ DONE → out.new ≡ out.old }
    ensures same { HoldsSame searcher.old searcher.new }
{
    if searcher.full {
        begin_stream(alloc, &searcher.held.get().searcher, out)
    } else {
        NO_SEARCHER
    }
}

/// Pushes bytes behind those that were pushed, from the front as many as there is room for, puts into `taken` how many, and answers
/// 0. Where `cs_stream_next` answered 0 last there is room for one at least; else it may take none.
///
/// # Errors
///
/// 2 where there is no stream; else 12 where its end was told; else 13 where 2^63 - 1 bytes were pushed. `taken` is then as it was.
#[unsafe(no_mangle)]
pub extern "C" fn cs_stream_push(stream: &mut CsStream, bytes: &[u8], taken: &mut usize) -> u32
    ensures pushed { IfStream stream.old (λ s. result ≡ DONE
        → OfStream stream.new (λ t. TakesPushed s t bytes.now taken.new)) }
    ensures filled { IfStream stream.old (λ s. result ≡ DONE → FillsRoom s bytes.now taken.new) }
    ensures unsearched { IfStream stream.old (λ s. result ≡ DONE → LeavesAll s taken.new) }
    ensures ended { IfStream stream.old (λ s. HasEnded s → result ≡ ENDED) }
    ensures full { IfStream stream.old (λ s.
        (HasEnded s → ⊥) → IsFull s → result ≡ TOO_MANY_BYTES) }
    ensures done { IfStream stream.old (λ s.
        (HasEnded s → ⊥) → (IsFull s → ⊥) → result ≡ DONE) }
    ensures empty { HasNoStream stream.old → result ≡ NO_SEARCHER }
    ensures kept { result ≢ DONE → HoldsSameStream stream.old stream.new }
    ensures untaken { result ≢ DONE → taken.new ≡ taken.old }
{
    if stream.full {
        stream.held.get().push(bytes, taken)
    } else {
        NO_SEARCHER
    }
}

/// The next match of all bytes pushed so far, searched for from the end of the one before: 1 and the match in `found`, by its place
/// in the stream, once it is certain, so that no byte that follows can change it; else 0. After the end 0 says that none is left. With
/// Standard a match is certain with its last byte, and else in the dead state, or at the end: where nothing could take its place it
/// still waits for one byte more.
///
/// # Errors
///
/// 2 where there is no stream. `found` is as it was unless 1 is answered.
#[unsafe(no_mangle)]
pub extern "C" fn cs_stream_next(stream: &mut CsStream, found: &mut CsMatch) -> u32
    ensures tells { IfStream stream.old (λ s.
        OfStream stream.new (λ t. TellsFound s t result found.new)) }
    ensures told { IfStream stream.old (λ _. result ≤ FOUND) }
    ensures empty { HasNoStream stream.old → result ≡ NO_SEARCHER }
    ensures kept { result ≢ FOUND → found.new ≡ found.old }
{
    if stream.full {
        stream.held.get().next(found)
    } else {
        NO_SEARCHER
    }
}

/// What is written for the next chunk of all bytes pushed so far, with the bytes for its pattern in the place of each match: 1 and the
/// bytes in `room`, and in `len` how many they are, once they are certain, as `cs_stream_next` says; else 0. So what is put, one call after
/// another, is the replacement of what is pushed; after the end 0 says that all of it was put.
///
/// The room holds as many bytes as were pushed and not put yet, and as the longest replacement has. Else the answer is 11, and `len` is
/// how many are wanted: at most 8 times as many as the longest pattern has or 65536, or those of the longest replacement.
///
/// # Errors
///
/// 2 where there is no stream; else 10 where there is not one replacement for each pattern; else 11. Nothing is told then. `room` is as
/// it was unless 1 is answered, `len` unless 1 or 11 is.
#[unsafe(no_mangle)]
pub extern "C" fn cs_stream_replace(
    stream: &mut CsStream,
    replace_with: &[&[u8]],
    room: &mut [u8],
    len: &mut usize,
) -> u32
    ensures tells { IfStream stream.old (λ s. result ≤ FOUND → OfStream stream.new
        (λ t. TellsReplaced s t replace_with.now result room.old room.new len.new)) }
    ensures not_one_each { IfStream stream.old (λ s.
        (IsOneEach s.searcher replace_with.now → ⊥) → result ≡ NOT_ONE_EACH) }
    ensures no_room { IfStream stream.old (λ s. IsOneEach s.searcher replace_with.now
        → length room.old < room_wanted s replace_with.now → result ≡ NO_ROOM) }
    ensures told { IfStream stream.old (λ s. IsOneEach s.searcher replace_with.now
        → room_wanted s replace_with.now ≤ length room.old → result ≤ FOUND) }
    ensures wanted { IfStream stream.old (λ s.
        result ≡ NO_ROOM → len.new ≡ room_wanted s replace_with.now) }
    ensures empty { HasNoStream stream.old → result ≡ NO_SEARCHER }
    ensures kept { FOUND < result → HoldsSameStream stream.old stream.new }
    ensures unwritten { result ≢ FOUND → room.new ≡ room.old }
    ensures unmeasured { result ≢ FOUND → result ≢ NO_ROOM → len.new ≡ len.old }
{
    if stream.full {
        stream.held.get().replace(replace_with, room, len)
    } else {
        NO_SEARCHER
    }
}

/// Says that nothing more is pushed, and answers 0: each match that is left is told then.
///
/// # Errors
///
/// 2 where there is no stream.
#[unsafe(no_mangle)]
pub extern "C" fn cs_stream_end(stream: &mut CsStream) -> u32
    ensures ends { IfStream stream.old (λ s. OfStream stream.new (Ends s)) }
    ensures done { IfStream stream.old (λ _. result ≡ DONE) }
    ensures empty { HasNoStream stream.old → result ≡ NO_SEARCHER }
{
    if stream.full {
        stream.held.get().end();
        DONE
    } else {
        NO_SEARCHER
    }
}

/// Lets the stream go, and its share of the searcher: the handle has none then. A handle that has none stays so.
#[unsafe(no_mangle)]
pub extern "C" fn cs_stream_free(alloc: Global, stream: &mut CsStream)
    ensures empty { HasNoStream stream.new }
{
    *stream = CsStream::none(alloc);
}
