//! The patterns in the order of their bytes, so that the trie is made by walks through neighbouring memory.

ghost use Rattle.std.specs.Prelude.{◌≡◌, ◌+◌, ◌<◌, ◌≤◌, ◌++◌, ◌∷◌, [], length, map, slice_index_or, IfErr, IfOk, OnOk};
ghost use Rattle.std.specs.List.{All, range_with_len};
ghost use Rattle.std.specs.List.Sorted.{IsPermutation};
ghost use Rattle.aho_core.specs.Bytes.{folded_by};
ghost use Rattle.aho_core.specs.Numbers.{greatest_index};
ghost use Rattle.aho_core.specs.Replacement.{pieces_of};
ghost use Rattle.aho_core.specs.declared.search.MatchKind.{MatchKind};
ghost use Rattle.aho_levels.specs.Building.{AreItems, IsLevelsRefusal, patterns_of_kind};
ghost use Rattle.aho_levels.specs.Sorting.{AddsItem, HasItems, key_numbers, bytes_together, words_at};

use aho_core::error::BuildError;
use aho_core::search::{PatternID, SmallIndex, StateID};
use std::alloc::Global;
use std::cmp::Ordering;

/// A byte as it is compared: where case is ignored an upper-case ASCII letter as the lower-case one.
#[inline(always)]
pub fn folded(ignore_case: bool, byte: u8) -> u8
    ensures folded { result ≡ folded_by ignore_case byte }
{
    if ignore_case && byte >= 65 && byte <= 90 {
        byte + 32
    } else {
        byte
    }
}

/// A pattern on its way down the trie.
#[derive(Clone, Copy, Debug)]
pub struct Item {
    /// The state to which its first bytes led.
    pub state: StateID,
    /// Where its further bytes begin in the text of all patterns.
    pub at: SmallIndex,
    /// And where they end.
    pub end: SmallIndex,
    /// Its number.
    pub number: PatternID,
}

/// The patterns in the order of their bytes, and of equal ones by number.
#[derive(Drop)]
pub struct Ordered {
    /// Their bytes as they are compared, one pattern behind another.
    pub text: Vec<u8>,
    /// The patterns that are not led to the end yet.
    pub items: Vec<Item>,
}

/// A pattern's number, with its first eight bytes: most patterns are told apart by these.
#[derive(Clone, Copy, Debug)]
struct Key {
    head: u64,
    number: PatternID,
}

/// The patterns in order, each at this state.
///
/// # Errors
///
/// `StateIDOverflow` where they have more bytes than there are indexes; or `OutOfMemory`.
pub fn in_order(
    alloc: Global,
    ignore_case: bool,
    patterns: &[&[u8]],
    root: StateID,
) -> Result<Ordered, BuildError>
    ensures items { IfOk result (λ ordered. (kind : MatchKind) → AreItems
        (patterns_of_kind kind ignore_case (pieces_of patterns.now)) root ordered.text.items ordered.items.items) }
    ensures few { IfOk result (λ ordered. length ordered.text.items + 4 ≤ greatest_index) }
    ensures sized { IfOk result (λ _. bytes_together (pieces_of patterns.now) ≤ greatest_index) }
    ensures numbered { IfOk result (λ _. length patterns.now ≤ greatest_index) }
    ensures refused { IfErr result IsLevelsRefusal }
{
    let size = size_of(patterns)?;
    let keys = sorted_keys(alloc, ignore_case, patterns)?;
    let mut ordered = none_of(alloc, size, patterns.len())?;
    add_items(&mut ordered, ignore_case, patterns, root, &keys)?;
    Ok(ordered)
}

/// No pattern yet, with memory for so many bytes and patterns.
fn none_of(alloc: Global, size: usize, count: usize) -> Result<Ordered, BuildError>
    ensures text { IfOk result (λ made. made.text.items ≡ []) }
    ensures items { IfOk result (λ made. made.items.items ≡ []) }
    ensures refused { IfErr result IsLevelsRefusal }
{
    let Ok(text) = Vec::with_capacity(alloc, size) else {
        return Err(BuildError::OutOfMemory);
    };
    let Ok(items) = Vec::with_capacity(alloc, count) else {
        return Err(BuildError::OutOfMemory);
    };
    Ok(Ordered { text, items })
}

/// The patterns of these keys.
fn add_items(
    ordered: &mut Ordered,
    ignore_case: bool,
    patterns: &[&[u8]],
    root: StateID,
    keys: &[Key],
) -> Result<(), BuildError>
    requires no_text { ordered.old.text.items ≡ [] }
    requires no_items { ordered.old.items.items ≡ [] }
    requires numbers { All (λ number. number < length patterns.now) (key_numbers keys.now) }
    requires room { bytes_together (words_at (pieces_of patterns.now) (key_numbers keys.now)) ≤ greatest_index }
    ensures items { OnOk result (HasItems ignore_case (pieces_of patterns.now) root (key_numbers keys.now) ordered.new) }
    ensures refused { IfErr result IsLevelsRefusal }
{
    for key in keys {
        add_item(ordered, ignore_case, patterns, root, key.number)?;
    }
    Ok(())
}

/// One pattern more.
fn add_item(
    ordered: &mut Ordered,
    ignore_case: bool,
    patterns: &[&[u8]],
    root: StateID,
    number: PatternID,
) -> Result<(), BuildError>
    requires number { number < length patterns.now }
    requires room { length ordered.old.text.items + length (slice_index_or (pieces_of patterns.now) number []) ≤ greatest_index }
    ensures added { OnOk result (AddsItem ignore_case (pieces_of patterns.now) root number ordered.old ordered.new) }
    ensures refused { IfErr result IsLevelsRefusal }
{
    let at = ordered.text.len();
    push_word(&mut ordered.text, ignore_case, patterns[number.as_usize()])?;
    let item = Item {
        state: root,
        at: SmallIndex::new_unchecked(at),
        end: SmallIndex::new_unchecked(ordered.text.len()),
        number,
    };
    match ordered.items.push(item) {
        Ok(()) => Ok(()),
        Err(_) => Err(BuildError::OutOfMemory),
    }
}

/// The bytes of a word as they are compared.
fn push_word(text: &mut Vec<u8>, ignore_case: bool, word: &[u8]) -> Result<(), BuildError>
    ensures pushed { OnOk result (text.new.items ≡ text.old.items ++ map (folded_by ignore_case) word.now) }
    ensures bytes { All (λ byte. byte < 256) word.now }
    ensures refused { IfErr result IsLevelsRefusal }
{
    for byte in word {
        if text.push(folded(ignore_case, *byte)).is_err() {
            return Err(BuildError::OutOfMemory);
        }
    }
    Ok(())
}

/// How many bytes they have together. With two states more there are numbers for all of them, and for the place behind.
fn size_of(patterns: &[&[u8]]) -> Result<usize, BuildError>
    ensures size { IfOk result (λ size. size ≡ bytes_together (pieces_of patterns.now)) }
    ensures few { IfOk result (λ size. size + 4 ≤ greatest_index) }
    ensures numbered { IfOk result (λ _. length patterns.now ≤ greatest_index) }
    ensures refused { IfErr result IsLevelsRefusal }
{
    let max = SmallIndex::MAX.as_usize() - 4;
    let mut size: usize = 0;
    for pattern in patterns {
        size = size.saturating_add(pattern.len());
    }
    if size > max || patterns.len() > max {
        return Err(BuildError::StateIDOverflow {
            max: max as u64,
            requested: size.max(patterns.len()) as u64,
        });
    }
    Ok(size)
}

/// The numbers of the patterns in their order.
fn sorted_keys(alloc: Global, ignore_case: bool, patterns: &[&[u8]]) -> Result<Vec<Key>, BuildError>
    requires numbered { length patterns.now ≤ greatest_index }
    ensures all { IfOk result (λ keys. IsPermutation (range_with_len 0 (length patterns.now)) (key_numbers keys.items)) }
    ensures refused { IfErr result IsLevelsRefusal }
{
    let mut keys = keys_of(alloc, ignore_case, patterns)?;
    if keys
        .sort_by(|left, right| compare_keys(patterns, ignore_case, left, right))
        .is_err()
    {
        return Err(BuildError::OutOfMemory);
    }
    Ok(keys)
}

/// Their keys by number.
fn keys_of(alloc: Global, ignore_case: bool, patterns: &[&[u8]]) -> Result<Vec<Key>, BuildError>
    requires numbered { length patterns.now ≤ greatest_index }
    ensures all { IfOk result (λ keys. key_numbers keys.items ≡ range_with_len 0 (length patterns.now)) }
    ensures refused { IfErr result IsLevelsRefusal }
{
    let Ok(mut keys) = Vec::with_capacity(alloc, patterns.len()) else {
        return Err(BuildError::OutOfMemory);
    };
    for index in 0..patterns.len() {
        let key = Key {
            head: head_of(patterns[index], ignore_case),
            number: PatternID::new_unchecked(index),
        };
        push_key(&mut keys, key)?;
    }
    Ok(keys)
}

/// One more at the end.
fn push_key(keys: &mut Vec<Key>, key: Key) -> Result<(), BuildError>
    ensures pushed { OnOk result (keys.new.items ≡ keys.old.items ++ key ∷ []) }
    ensures refused { IfErr result IsLevelsRefusal }
{
    match keys.push(key) {
        Ok(()) => Ok(()),
        Err(_) => Err(BuildError::OutOfMemory),
    }
}

/// The first eight bytes as a number, with zeros behind a shorter word.
fn head_of(word: &[u8], ignore_case: bool) -> u64 {
    let mut head: u64 = 0;
    for index in 0..8 {
        let byte = if index < word.len() {
            folded(ignore_case, word[index])
        } else {
            0
        };
        head = head * 256 + byte as u64;
    }
    head
}

/// By the heads, and where these are the same by the whole words.
fn compare_keys(patterns: &[&[u8]], ignore_case: bool, left: &Key, right: &Key) -> Ordering {
    if left.head < right.head {
        return Ordering::Less;
    }
    if left.head > right.head {
        return Ordering::Greater;
    }
    let left = patterns.get(left.number.as_usize());
    let right = patterns.get(right.number.as_usize());
    match (left, right) {
        (Some(left), Some(right)) => compare_words(left, right, ignore_case),
        _ => Ordering::Equal,
    }
}

/// By the first byte that differs, and else by the lengths.
fn compare_words(left: &[u8], right: &[u8], ignore_case: bool) -> Ordering {
    let count = left.len().min(right.len());
    for index in 0..count {
        let one = folded(ignore_case, left[index]);
        let other = folded(ignore_case, right[index]);
        if one < other {
            return Ordering::Less;
        }
        if one > other {
            return Ordering::Greater;
        }
    }
    left.len().cmp(&right.len())
}
