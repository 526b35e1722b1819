//! All matches of a haystack.

ghost use Rattle.std.specs.Prelude.{◌≡◌, ◌≢◌, ◌<◌, ◌≤◌, length, map, min, slice_set};
ghost use Rattle.std.specs.Iterator.{IsFinite};
ghost use Rattle.std.specs.Iterator.Runs.{WholeRun};
ghost use Rattle.chromesquid.specs.Rules.{Answers, ForItsPatterns, No, RefusesSearch, Standard, match_kind_of};
ghost use Rattle.chromesquid.specs.Searcher.{allows};
ghost use Rattle.chromesquid_c.specs.Evidence.{IsOfSome};
ghost use Rattle.chromesquid_c.specs.Holding.{ForPatternsHeld, HoldsSame, IfAnswered, IfHeld, IfRefused, IsEmpty};
ghost use Rattle.chromesquid_c.specs.Matches.{ListsFinds, ListsOccurrences, match_of, written_over};

use crate::handle::CsSearcher;
use crate::options::CsMatch;
use crate::search::form_of;
use crate::status::{DONE, NO_SEARCHER, REFUSED};
use chromesquid::{AhoCorasick, Match, StartKind};

/// Puts a match at this place, if there is one.
fn put(room: &mut [CsMatch], at: usize, found: &Match)
    ensures put { at < length room.old → room.new ≡ slice_set room.old at (match_of found.now) }
    ensures full { length room.old ≤ at → room.new ≡ room.old }
{
    if at < room.len() {
        room[at] = form_of(found);
    }
}

/// Puts what comes one after another, as far as there is room, and answers how many came, or 2^64 - 1 where more did.
fn list_all<I: Iterator<Item = Match> + Drop>(matches: I, room: &mut [CsMatch]) -> usize
    requires ready { I.can_next matches }
    requires finite { IsFinite (I.remaining matches) }
    ensures lists { WholeRun I.next_gives matches (λ run. (result ≡ min (length run.items) usize.MAX)
        × (room.new ≡ written_over room.old (map match_of run.items))) }
{
    let mut seen = 0usize;
    for found in matches {
        put(room, seen, &found);
        seen = seen.saturating_add(1);
    }
    seen
}

/// Puts the finds one after another, as far as there is room, and answers how many there are.
fn list_finds(searcher: &AhoCorasick, haystack: &[u8], room: &mut [CsMatch]) -> usize
    requires some { IsOfSome searcher.now }
    requires starts { Answers searcher.now No }
    ensures lists { ForItsPatterns searcher.now (λ p.
        ListsFinds p haystack.now room.old room.new result) }
{
    list_all(searcher.find_iter(haystack), room)
}

/// Whether the searcher answers searches that are not anchored.
pub(crate) fn is_unanchored(searcher: &AhoCorasick) -> bool
    ensures is { result ≡ allows searcher.now.start_kind No }
{
    match searcher.start_kind() {
        StartKind::Both | StartKind::Unanchored => true,
        StartKind::Anchored => false,
    }
}

/// Puts the finds and their count, where the searcher answers.
fn try_list_finds(
    searcher: &AhoCorasick,
    haystack: &[u8],
    room: &mut [CsMatch],
    count: &mut usize,
) -> u32
    requires some { IsOfSome searcher.now }
    ensures lists { ForItsPatterns searcher.now (λ p.
        result ≡ DONE → ListsFinds p haystack.now room.old room.new count.new) }
    ensures answered { Answers searcher.now No → result ≡ DONE }
    ensures refused { RefusesSearch searcher.now No → result ≡ REFUSED }
    ensures kept { result ≢ DONE → room.new ≡ room.old }
    ensures uncounted { result ≢ DONE → count.new ≡ count.old }
{
    if !is_unanchored(searcher) {
        return REFUSED;
    }
    *count = list_finds(searcher, haystack, room);
    DONE
}

/// Puts the matches of the haystack one after another into `room`, as many as it holds, and in `count` how many there are, and
/// answers 0. Each is searched for from the end of the one before.
///
/// # Errors
///
/// 2 where there is no searcher, 3 where it answers anchored searches alone. `room` and `count` are then as they were.
#[unsafe(no_mangle)]
pub extern "C" fn cs_find_all(
    searcher: &mut CsSearcher,
    haystack: &[u8],
    room: &mut [CsMatch],
    count: &mut usize,
) -> u32
    ensures lists { ForPatternsHeld searcher.old (λ p.
        result ≡ DONE → ListsFinds p haystack.now room.old room.new count.new) }
    ensures answered { IfAnswered searcher.old No (result ≡ DONE) }
    ensures refused { IfRefused searcher.old No (result ≡ REFUSED) }
    ensures empty { IsEmpty searcher.old → result ≡ NO_SEARCHER }
    ensures kept { result ≢ DONE → room.new ≡ room.old }
    ensures uncounted { result ≢ DONE → count.new ≡ count.old }
    ensures same { HoldsSame searcher.old searcher.new }
{
    if searcher.full {
        try_list_finds(&searcher.held.get().searcher, haystack, room, count)
    } else {
        NO_SEARCHER
    }
}

/// Puts all occurrences and their count, where the searcher lists them.
fn try_list_occurrences(
    searcher: &AhoCorasick,
    haystack: &[u8],
    room: &mut [CsMatch],
    count: &mut usize,
) -> u32
    ensures lists { ForItsPatterns searcher.now (λ p.
        result ≡ DONE → ListsOccurrences p haystack.now room.old room.new count.new) }
    ensures answered { match_kind_of searcher.now ≡ Standard → Answers searcher.now No
        → result ≡ DONE }
    ensures unsupported { match_kind_of searcher.now ≢ Standard → result ≡ REFUSED }
    ensures refused { RefusesSearch searcher.now No → result ≡ REFUSED }
    ensures kept { result ≢ DONE → room.new ≡ room.old }
    ensures uncounted { result ≢ DONE → count.new ≡ count.old }
{
    match searcher.try_find_overlapping_iter(haystack) {
        Ok(matches) => {
            *count = list_all(matches, room);
            DONE
        }
        Err(_) => REFUSED,
    }
}

/// Puts all matches of the haystack, those that overlap too, into `room`, as many as it holds, and in `count` how many there
/// are, and answers 0: by end, then start, then number. A count above 2^64 - 1 is told as that.
///
/// # Errors
///
/// 2 where there is no searcher, 3 where its match kind is not Standard, or it answers anchored searches alone. `room` and
/// `count` are then as they were.
#[unsafe(no_mangle)]
pub extern "C" fn cs_overlapping(
    searcher: &mut CsSearcher,
    haystack: &[u8],
    room: &mut [CsMatch],
    count: &mut usize,
) -> u32
    ensures lists { ForPatternsHeld searcher.old (λ p.
        result ≡ DONE → ListsOccurrences p haystack.now room.old room.new count.new) }
    ensures answered { IfHeld searcher.old (λ s.
        match_kind_of s ≡ Standard → Answers s No → result ≡ DONE) }
    ensures unsupported { IfHeld searcher.old (λ s. match_kind_of s ≢ Standard → result ≡ REFUSED) }
    ensures refused { IfRefused searcher.old No (result ≡ REFUSED) }
    ensures empty { IsEmpty searcher.old → result ≡ NO_SEARCHER }
    ensures kept { result ≢ DONE → room.new ≡ room.old }
    ensures uncounted { result ≢ DONE → count.new ≡ count.old }
    ensures same { HoldsSame searcher.old searcher.new }
{
    if searcher.full {
        try_list_occurrences(&searcher.held.get().searcher, haystack, room, count)
    } else {
        NO_SEARCHER
    }
}
