//! Lists of patterns in one vector of numbers, its words.
//!
//! A list is a word that tells its length, and behind it the patterns. Room for more of them may follow. Here a list is named
//! by the place of its first pattern, and the empty list by 0. A list behind which another word stands is closed: it cannot
//! grow there, so that it may have more than one owner.

ghost use Rattle.std.specs.Prelude.{◌≡◌, ◌≢◌, ◌⊎◌, ◌+◌, ◌-◌, ◌<◌, ◌≤◌, ◌∷◌, ◌++◌, [], ℕ, true, length, replicate, take, drop, IfOk, OnOk, OnErr};
ghost use Rattle.aho_core.specs.Numbers.{greatest_index};
ghost use Rattle.aho_table.specs.Words.{word_at as the_word, room, length_at, patterns_at, is_closed, laid, IsPlaceOfList, HasPatterns, AreLaid, IsPut, IsLengthened, IsClosed};

use aho_core::search::PatternID;
use std::alloc::AllocError;

/// What stands where room is.
const ROOM: u32 = u32::MAX;
/// What is added to a length, to tell it from a pattern.
const LENGTH: u32 = 1 << 31;

/// The word of this place, and room behind the last one.
fn word_at(words: &[u32], place: usize) -> u32
    ensures word { result ≡ the_word words.now place }
{
    match words.get(place) {
        Some(word) => *word,
        None => ROOM,
    }
}

/// How many patterns the list at this place has.
pub(crate) fn len_at(words: &[u32], list: usize) -> usize
    requires held { IsPlaceOfList words.now list }
    ensures len { result ≡ length_at words.now list }
{
    if list == 0 {
        return 0;
    }
    words[list - 1] as usize - LENGTH as usize
}

/// The pattern of this place in the list at this place.
pub(crate) fn pattern_at(words: &[u32], list: usize, index: usize) -> PatternID
    requires place { list + index < length words.now }
    requires small { the_word words.now (list + index) ≤ greatest_index }
    ensures pattern { result ≡ the_word words.now (list + index) }
{
    PatternID::new_unchecked(words[list + index] as usize)
}

/// So many words from this place on.
pub(crate) fn words_from(words: &[u32], from: usize, count: usize) -> &[u32]
    requires within { from + count ≤ length words.now }
    ensures part { result.now ≡ take count (drop from words.now) }
{
    &words[from..from + count]
}

/// A list of `len` patterns is begun at the end, with the `own` ones of a list.
fn begin(words: &mut Vec<u32>, list: usize, own: usize, len: usize) -> Result<(), AllocError>
    requires within { list + own ≤ length words.old.items }
    requires few { len ≤ greatest_index }
    ensures begun { OnOk result
        (words.new.items ≡ words.old.items ++ (2147483648 + len) ∷ take own (drop list words.old.items)) }
    ensures kept { take (length words.old.items) words.new.items ≡ words.old.items }
{
    words.push(LENGTH + len as u32)?;
    words.extend_from_within(list..list + own)
}

/// A list stands once more at the end, with one pattern more and room for as many as it had.
fn add_longer(words: &mut Vec<u32>, list: usize, own: usize, pattern: u32) -> Result<(), AllocError>
    requires within { list + own ≤ length words.old.items }
    requires len { own ≡ length_at words.old.items list }
    requires few { own + 1 ≤ greatest_index }
    ensures added { OnOk result (words.new.items ≡ words.old.items
        ++ laid (patterns_at words.old.items list ++ pattern ∷ []) ++ replicate own room) }
    ensures kept { take (length words.old.items) words.new.items ≡ words.old.items }
{
    begin(words, list, own, own + 1)?;
    words.push(pattern)?;
    let end = words.len();
    words.resize(end + own, ROOM)
}

/// A list stands once more at the end, with the patterns of another behind its own.
fn add_joined(
    words: &mut Vec<u32>,
    list: usize,
    own: usize,
    other: usize,
    more: usize,
) -> Result<(), AllocError>
    requires within { list + own ≤ length words.old.items }
    requires within_too { other + more ≤ length words.old.items }
    requires len { own ≡ length_at words.old.items list }
    requires len_too { more ≡ length_at words.old.items other }
    requires few { own + more ≤ greatest_index }
    ensures added { OnOk result (words.new.items ≡ words.old.items
        ++ laid (patterns_at words.old.items list ++ patterns_at words.old.items other)) }
    ensures kept { take (length words.old.items) words.new.items ≡ words.old.items }
{
    begin(words, list, own, own + more)?;
    words.extend_from_within(other..other + more)
}

/// Puts the word at this place, which may be that behind the last one.
fn put(words: &mut Vec<u32>, place: usize, word: u32) -> Result<(), AllocError>
    requires within { place ≤ length words.old.items }
    ensures put { OnOk result (IsPut words.old.items place word words.new.items) }
    ensures unchanged { OnErr result (words.new.items ≡ words.old.items) }
{
    if place < words.len() {
        words[place] = word;
        return Ok(());
    }
    words.push(word)?;
    Ok(())
}

/// The list has one pattern more, at this place behind its last one.
fn lengthen(words: &mut Vec<u32>, list: usize, end: usize, pattern: u32) -> Result<(), AllocError>
    requires some { list ≢ 0 }
    requires end { end ≡ list + length_at words.old.items list }
    requires within { end ≤ length words.old.items }
    requires few { the_word words.old.items (list - 1) + 1 < room }
    ensures lengthened { OnOk result
        (IsLengthened words.old.items list pattern words.new.items) }
    ensures unchanged { OnErr result (words.new.items ≡ words.old.items) }
{
    put(words, end, pattern)?;
    words[list - 1] += 1;
    Ok(())
}

/// Whether there is room behind the patterns of this list, of which there are so many. Behind the empty list there is none.
fn has_room(words: &[u32], list: usize, own: usize) -> bool
    requires within { list + own ≤ length words.now }
    ensures room { result ≡ true → (list ≢ 0) × (the_word words.now (list + own) ≡ room) }
{
    if list == 0 {
        return false;
    }
    word_at(words, list + own) == ROOM
}

/// The pattern is added at the end of the list at this place. Answers the list's place then.
///
/// # Errors
///
/// Out of memory. The words are then unchanged.
pub(crate) fn push_pattern(
    words: &mut Vec<u32>,
    list: usize,
    pattern: PatternID,
) -> Result<usize, AllocError>
    requires laid { (count : ℕ) × AreLaid words.old.items count × (count ≤ greatest_index) }
    requires held { IsPlaceOfList words.old.items list }
    ensures listed { IfOk result (λ made. HasPatterns words.old.items words.new.items list made
        (patterns_at words.old.items list ++ pattern ∷ [])) }
    ensures place { IfOk result (λ made. (made ≡ list) ⊎ (length words.old.items < made)) }
    ensures kept { IfOk result (λ made.
        (made ≡ list) ⊎ (take (length words.old.items) words.new.items ≡ words.old.items)) }
    ensures longer { OnOk result (length words.old.items ≤ length words.new.items) }
    ensures laid { OnOk result ((count : ℕ) → AreLaid words.old.items count → count ≤ greatest_index
        → AreLaid words.new.items (count + 1)) }
    ensures unchanged { OnErr result (words.new.items ≡ words.old.items) }
{
    let pattern = pattern.as_usize() as u32;
    let own = len_at(words, list);
    if has_room(words, list, own) {
        lengthen(words, list, list + own, pattern)?;
        return Ok(list);
    }
    let before = words.len();
    match add_longer(words, list, own, pattern) {
        Ok(()) => Ok(before + 1),
        Err(error) => {
            words.truncate(before);
            Err(error)
        }
    }
}

/// Closes the list at this place: a word that is no room stands behind its last pattern.
fn close(words: &mut Vec<u32>, list: usize, end: usize) -> Result<(), AllocError>
    requires end { end ≡ list + length_at words.old.items list }
    requires within { end ≤ length words.old.items }
    ensures closed { OnOk result (IsClosed words.old.items list words.new.items) }
    ensures longer { OnOk result (length words.old.items ≤ length words.new.items) }
    ensures unchanged { OnErr result (words.new.items ≡ words.old.items) }
{
    if word_at(words, end) < ROOM {
        return Ok(());
    }
    put(words, end, LENGTH)
}

/// An owner of the empty list gets the list at this place instead, which is closed, so that each owner keeps what it has.
/// Answers the place.
fn share_patterns(words: &mut Vec<u32>, list: usize) -> Result<usize, AllocError>
    requires laid { (count : ℕ) × AreLaid words.old.items count × (count ≤ greatest_index + 1) }
    requires held { IsPlaceOfList words.old.items list }
    requires some { list ≢ 0 }
    ensures listed { IfOk result (λ made.
        HasPatterns words.old.items words.new.items 0 made (patterns_at words.old.items list)) }
    ensures place { IfOk result (λ made. (made ≡ list) × (is_closed words.new.items made ≡ true)) }
    ensures longer { OnOk result (length words.old.items ≤ length words.new.items) }
    ensures laid { OnOk result ((count more : ℕ) → AreLaid words.old.items count → count ≤ more
        → AreLaid words.new.items more) }
    ensures unchanged { OnErr result (words.new.items ≡ words.old.items) }
{
    let own = len_at(words, list);
    close(words, list, list + own)?;
    Ok(list)
}

/// The patterns of the other list are added at the end of the list at this place. Answers the list's place then. The empty
/// list becomes the other one, which is closed.
///
/// # Errors
///
/// Out of memory. The words are then unchanged.
pub(crate) fn join_patterns(
    words: &mut Vec<u32>,
    list: usize,
    other: usize,
) -> Result<usize, AllocError>
    requires laid { (count : ℕ) × AreLaid words.old.items count
        × (count + length_at words.old.items other ≤ greatest_index + 1) }
    requires held { IsPlaceOfList words.old.items list }
    requires other { IsPlaceOfList words.old.items other }
    requires some { other ≢ 0 }
    ensures listed { IfOk result (λ made. HasPatterns words.old.items words.new.items list made
        (patterns_at words.old.items list ++ patterns_at words.old.items other)) }
    ensures place { IfOk result (λ made.
        (length words.old.items < made) ⊎ ((made ≡ other) × (is_closed words.new.items made ≡ true))) }
    ensures kept { IfOk result (λ made.
        (made ≡ other) ⊎ (take (length words.old.items) words.new.items ≡ words.old.items)) }
    ensures longer { OnOk result (length words.old.items ≤ length words.new.items) }
    ensures laid { OnOk result ((count : ℕ) → AreLaid words.old.items count
        → count + length_at words.old.items other ≤ greatest_index + 1
        → AreLaid words.new.items (count + length_at words.old.items other)) }
    ensures unchanged { OnErr result (words.new.items ≡ words.old.items) }
{
    if list == 0 {
        return share_patterns(words, other);
    }
    let own = len_at(words, list);
    let more = len_at(words, other);
    let end = words.len();
    match add_joined(words, list, own, other, more) {
        Ok(()) => Ok(end + 1),
        Err(error) => {
            words.truncate(end);
            Err(error)
        }
    }
}
