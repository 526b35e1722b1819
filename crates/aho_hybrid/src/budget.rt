//! How many rows a budget of bytes holds, and how many words the other parts of a `Hybrid` take.

ghost use Rattle.std.specs.Prelude.{◌≡◌, ◌+◌, ◌<◌, ◌≤◌, length, nat_eq, sum_by, if◌then◌else◌, IfOk, IfErr, OnOk};
ghost use Rattle.aho_core.specs.Numbers.{greatest_index};
ghost use Rattle.aho_corasick.specs.ReadOut.{states_of, special_of, classes_of};
ghost use Rattle.aho_table.specs.Table.{fail_id, matches_in, state_at};
ghost use Rattle.aho_hybrid.specs.Layout.{stride_of};
ghost use Rattle.aho_hybrid.specs.Filled.{FitIndexes, IsRowDepth, IsTooLarge, deep_count, has_own_list, is_deep, list_words, lists_size, moves_size, moves_words, rows_refusal, rows_count, row_entries, source_in, told_size, transition_words};

use aho_automaton::automaton::Automaton;
use aho_build::special::Special;
use aho_corasick::noncontiguous::NFA;
use aho_core::error::BuildError;
use aho_core::search::{SmallIndex, StateID};
use aho_table::links::{DEAD, FAIL, Transitions};

/// The words of a deep state's record.
pub const RECORD_SIZE: usize = 5;

/// How many words the parts of a `Hybrid` have.
#[derive(Clone, Copy)]
pub struct Sizes {
    /// Those of all rows.
    pub dense: usize,
    /// Those of all records.
    pub deep: usize,
    pub lists: usize,
    pub moves: usize,
}

/// How many words all parts have, where they fit.
pub fn sizes_of(nfa: &NFA, stride: usize, row_depth: usize) -> Result<Sizes, BuildError>
    requires stride { stride ≡ stride_of (classes_of nfa.now) }
    requires bounded { stride ≤ 257 }
    ensures dense { IfOk result (λ sizes.
        sizes.dense ≡ row_entries row_depth (states_of nfa.now) (classes_of nfa.now)) }
    ensures fits { IfOk result (λ sizes. FitIndexes nfa.now row_depth) }
    ensures refused { IfErr result (λ error. error ≡ rows_refusal nfa.now row_depth) }
{
    let with_rows = rows_count(nfa, row_depth);
    let dense = with_rows * stride;
    let deep = (nfa.states_len() - with_rows) * RECORD_SIZE;
    fit(dense + deep)?;
    let lists = lists_size(nfa);
    fit(lists)?;
    let moves = moves_size(nfa, row_depth);
    fit(moves)?;
    Ok(Sizes {
        dense,
        deep,
        lists,
        moves,
    })
}

/// Refuses a size that is above the greatest index.
fn fit(size: usize) -> Result<(), BuildError>
    ensures fits { OnOk result (size ≤ greatest_index) }
    ensures refused { IfErr result (IsTooLarge size) }
{
    if size > SmallIndex::MAX.as_usize() {
        return Err(BuildError::StateIDOverflow {
            max: SmallIndex::MAX.as_usize() as u64,
            requested: size as u64,
        });
    }
    Ok(())
}

/// How many words the lists of all states have, or the greatest `usize`.
fn lists_size(nfa: &NFA) -> usize
    ensures size { result ≡ told_size (lists_size nfa.now) }
{
    let mut size: usize = 1;
    for index in 0..nfa.states_len() {
        size = size.saturating_add(list_words(nfa, index));
    }
    size
}

/// How many words the list of a state has, if it is its own, or the greatest `usize`.
fn list_words(nfa: &NFA, index: usize) -> usize
    requires within { index < length (states_of nfa.now) }
    requires small { index ≤ greatest_index }
    ensures words { result ≡ told_size (list_words (states_of nfa.now) index) }
{
    if !has_own_list(nfa, index) {
        return 0;
    }
    list_len(nfa, index).saturating_add(1)
}

/// Whether the list of a state is its own: it has more patterns than that of the state's link. Any other is the link's.
pub fn has_own_list(nfa: &NFA, index: usize) -> bool
    requires within { index < length (states_of nfa.now) }
    requires small { index ≤ greatest_index }
    ensures own { result ≡ has_own_list (states_of nfa.now) index }
{
    if index == FAIL.as_usize() {
        return false;
    }
    let sid = StateID::new_unchecked(index);
    nfa.match_len(nfa.fail(sid)) < nfa.match_len(sid)
}

/// How many patterns a state lists.
pub fn list_len(nfa: &NFA, index: usize) -> usize
    requires within { index < length (states_of nfa.now) }
    requires small { index ≤ greatest_index }
    ensures len { result ≡ length (matches_in (states_of nfa.now) index) }
{
    if index == FAIL.as_usize() {
        return 0;
    }
    nfa.match_len(StateID::new_unchecked(index))
}

/// How many words the transitions of all states without rows have, or the greatest `usize`.
fn moves_size(nfa: &NFA, row_depth: usize) -> usize
    ensures size { result ≡ told_size (moves_size nfa.now row_depth) }
{
    let mut size: usize = 0;
    for index in 0..nfa.states_len() {
        size = size.saturating_add(moves_words(nfa, row_depth, index));
    }
    size
}

/// How many words the transitions of a state have, if it has no row, or the greatest `usize`.
fn moves_words(nfa: &NFA, row_depth: usize, index: usize) -> usize
    requires within { index < length (states_of nfa.now) }
    requires small { index ≤ greatest_index }
    ensures words { result ≡ told_size
        (moves_words row_depth (special_of nfa.now) (states_of nfa.now) index) }
{
    if !is_deep(nfa, index, row_depth) {
        return 0;
    }
    transitions_words(nfa.transitions(source_of(nfa.special(), index)))
}

/// How many words these transitions have, or the greatest `usize`.
fn transitions_words(transitions: Transitions<'_>) -> usize
    ensures words { result ≡ told_size (sum_by transition_words transitions.entry) }
{
    let mut words: usize = 0;
    for (_, next) in transitions {
        words = words.saturating_add(transition_words(next));
    }
    words
}

/// How many words a transition has that leads here.
fn transition_words(next: StateID) -> usize
    ensures words { result ≡ (if nat_eq next fail_id then 0 else 2) }
{
    if next == FAIL { 0 } else { 2 }
}

/// Whether a state is deeper.
pub fn is_deep(nfa: &NFA, index: usize, depth: usize) -> bool
    requires within { index < length (states_of nfa.now) }
    requires small { index ≤ greatest_index }
    ensures deep { result ≡ is_deep depth (state_at (states_of nfa.now) index) }
{
    nfa.depth(StateID::new_unchecked(index)) > depth
}

/// The first of two numbers, or the second.
pub fn either(first: bool, one: usize, other: usize) -> usize
    ensures either { result ≡ (if first then one else other) }
{
    if first { one } else { other }
}

/// How deep the deepest state is.
fn deepest(nfa: &NFA) -> usize
    ensures deepest { deep_count result (states_of nfa.now) ≡ 0 }
{
    let mut most: usize = 0;
    for index in 0..nfa.states_len() {
        most = most.max(nfa.depth(StateID::new_unchecked(index)));
    }
    most
}

/// How many states are no deeper.
pub fn rows_count(nfa: &NFA, depth: usize) -> usize
    ensures count { result ≡ rows_count depth (states_of nfa.now) }
    ensures bound { result ≤ length (states_of nfa.now) }
    ensures small { length (states_of nfa.now) ≤ greatest_index + 1 }
{
    let mut count = 0;
    for index in 0..nfa.states_len() {
        count = either(is_deep(nfa, index, depth), count, count + 1);
    }
    count
}

/// The greatest depth down to which the rows of all states take at most so many bytes, or 0.
pub fn row_depth(nfa: &NFA, stride: usize, budget: usize) -> usize
    requires stride { stride ≡ stride_of (classes_of nfa.now) }
    requires bounded { stride ≤ 257 }
    ensures depth { IsRowDepth (states_of nfa.now) (classes_of nfa.now) budget result }
{
    let mut low = 0;
    let mut high = deepest(nfa);
    'halves: while low < high {
        let middle = high - (high - low) / 2;
        if rows_count(nfa, middle) * stride * 4 <= budget {
            low = middle;
        } else {
            high = middle - 1;
        }
    }
    low
}

/// The state whose row stands at the place of this one: its own, and for FAIL and the anchored start, which no unanchored
/// search holds, that of the unanchored start.
pub fn source_of(special: &Special, index: usize) -> StateID
    requires small { index ≤ greatest_index }
    ensures source { result ≡ source_in special.now index }
{
    if index == DEAD.as_usize() {
        return DEAD;
    }
    if index == FAIL.as_usize() || index == special.start_anchored_id.as_usize() {
        return special.start_unanchored_id;
    }
    StateID::new_unchecked(index)
}
