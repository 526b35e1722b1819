//! A haystack with its matches replaced.

ghost use Rattle.std.specs.Prelude.{◌≡◌, ◌≢◌, ◌<◌, length};
ghost use Rattle.chromesquid.specs.Rules.{Answers, No, RefusesSearch, patterns_len_of};
ghost use Rattle.chromesquid_c.specs.Holding.{HoldsSame, IfHeld, IsEmpty};
ghost use Rattle.chromesquid_c.specs.Replacing.{EndsReplacing, FitsInto, IsOneEach, PutsReplaced, WantsRoom};

use crate::handle::CsSearcher;
use crate::status::{DONE, NO_MEMORY, NO_ROOM, NO_SEARCHER, NOT_ONE_EACH, REFUSED};
use chromesquid::{AhoCorasick, ReplaceError};
use std::alloc::Global;

/// Puts bytes into the room, if they fit, and in `len` how many there are.
pub(crate) fn put_bytes(bytes: &[u8], room: &mut [u8], len: &mut usize) -> u32
    ensures len { len.new ≡ length bytes.now }
    ensures put { result ≡ DONE → FitsInto bytes.now room.old room.new }
    ensures no_room { result ≢ DONE → (result ≡ NO_ROOM) × (length room.old < length bytes.now) }
    ensures kept { result ≢ DONE → room.new ≡ room.old }
{
    *len = bytes.len();
    if room.len() < bytes.len() {
        return NO_ROOM;
    }
    room[..bytes.len()].copy_from_slice(bytes);
    DONE
}

/// Puts the replacement, where the searcher answers.
fn replace_in(
    alloc: Global,
    searcher: &AhoCorasick,
    haystack: &[u8],
    replace_with: &[&[u8]],
    room: &mut [u8],
    len: &mut usize,
) -> u32
    ensures replaced { result ≡ DONE → PutsReplaced searcher.now haystack.now replace_with.now
        room.old room.new len.new }
    ensures wanted { result ≡ NO_ROOM → WantsRoom searcher.now haystack.now replace_with.now
        room.old len.new }
    ensures kept { result ≢ DONE → room.new ≡ room.old }
    ensures unmeasured { result ≢ DONE → result ≢ NO_ROOM → len.new ≡ len.old }
    ensures not_one_each { (IsOneEach searcher.now replace_with.now → ⊥) → result ≡ NOT_ONE_EACH }
    ensures refused { IsOneEach searcher.now replace_with.now → RefusesSearch searcher.now No
        → result ≡ REFUSED }
    ensures answered { IsOneEach searcher.now replace_with.now → Answers searcher.now No
        → EndsReplacing result }
{
    if replace_with.len() != searcher.patterns_len() {
        return NOT_ONE_EACH;
    }
    match searcher.try_replace_all_bytes(alloc, haystack, replace_with) {
        Ok(bytes) => put_bytes(&bytes, room, len),
        Err(ReplaceError::Memory) => NO_MEMORY,
        Err(ReplaceError::Match(_)) => REFUSED,
    }
}

/// Puts the haystack with each match replaced by the bytes for its pattern into `room`, and in `len` how many bytes that are, and
/// answers 0. Where the room is too small it answers 11: `len` is how many bytes are wanted, and nothing is written. The
/// replacement is made in memory of its own first.
///
/// # Errors
///
/// 2 where there is no searcher; else 10 where there is not one replacement for each pattern; else 3 where the searcher answers
/// anchored searches alone, 5 where memory runs out. `room` is as it was unless 0 is answered, `len` unless 0 or 11 is.
#[unsafe(no_mangle)]
pub extern "C" fn cs_replace_all(
    alloc: Global,
    searcher: &mut CsSearcher,
    haystack: &[u8],
    replace_with: &[&[u8]],
    room: &mut [u8],
    len: &mut usize,
) -> u32
    ensures replaced { IfHeld searcher.old (λ s. result ≡ DONE
        → PutsReplaced s haystack.now replace_with.now room.old room.new len.new) }
    ensures wanted { IfHeld searcher.old (λ s. result ≡ NO_ROOM
        → WantsRoom s haystack.now replace_with.now room.old len.new) }
    ensures kept { result ≢ DONE → room.new ≡ room.old }
    ensures unmeasured { result ≢ DONE → result ≢ NO_ROOM → len.new ≡ len.old }
    ensures not_one_each { IfHeld searcher.old (λ s.
        (IsOneEach s replace_with.now → ⊥) → result ≡ NOT_ONE_EACH) }
    ensures refused { IfHeld searcher.old (λ s.
        IsOneEach s replace_with.now → RefusesSearch s No → result ≡ REFUSED) }
    ensures answered { IfHeld searcher.old (λ s.
        IsOneEach s replace_with.now → Answers s No → EndsReplacing result) }
    ensures empty { IsEmpty searcher.old → result ≡ NO_SEARCHER }
    ensures same { HoldsSame searcher.old searcher.new }
{
    if searcher.full {
        replace_in(
            alloc,
            &searcher.held.get().searcher,
            haystack,
            replace_with,
            room,
            len,
        )
    } else {
        NO_SEARCHER
    }
}
