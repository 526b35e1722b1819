//! The states of a `Hybrid`, made from an `NFA`'s: rows for those near the start, and records for the others, each in the
//! order of the `NFA`'s numbers.

ghost use Rattle.std.specs.Prelude.{◌≡◌, ◌⊎◌, ℕ, List, true, [], ◌∷◌, ◌++◌, ◌+◌, ◌*◌, ◌<◌, ◌≤◌, length, slice_index_or, IfOk, IfErr, OnOk};
ghost use Rattle.aho_core.specs.Numbers.{greatest_index};
ghost use Rattle.aho_core.specs.Patterns.{Patterns};
ghost use Rattle.aho_build.specs.Walking.{IsState};
ghost use Rattle.aho_corasick.specs.ReadOut.{states_of, classes_of};
ghost use Rattle.aho_table.specs.Alphabet.{class_count};
ghost use Rattle.aho_table.specs.Table.{matches_in};
ghost use Rattle.aho_hybrid.specs.Layout.{IsSoundLayout, stride_of};
ghost use Rattle.aho_hybrid.specs.Reading.{IsLayoutOf};
ghost use Rattle.aho_hybrid.specs.Made.{AreMarkedIn, IsLaidOutOf};
ghost use Rattle.aho_hybrid.specs.Filled.{AreFirstBytes, AreMarked, AreStateNumbers, AreRows, HasEntries, HasRowBefore, FitIndexes, IsDeepState, AreDepths, AreLaidOut, IsNear, IsOutOfMemory, IsPlan, IsRowsRefusal, IsShallow, IsStep, IsToldBy, first_low, flat, is_deep, leads_in, number_or_zero, number_in, plan_of, row_entries, state_words};

use crate::budget::{
    RECORD_SIZE, Sizes, either, is_deep, row_depth, rows_count, sizes_of, source_of,
};
use crate::lists::lists_of;
use crate::rows::Rows;
use aho_automaton::automaton::Automaton;
use aho_corasick::noncontiguous::NFA;
use aho_core::error::BuildError;
use aho_core::search::{Anchored, SmallIndex, StateID};
use aho_table::alphabet::ByteClasses;
use aho_table::links::{FAIL, Transitions};
use std::alloc::Global;

/// How the states of an `NFA` are laid out.
#[derive(Drop)]
struct Plan {
    /// The entries of a row.
    stride: usize,
    /// The states down to this depth have rows.
    row_depth: usize,
    /// A byte of each class, by the class.
    firsts: [u8; 256],
    /// The number of each state, by that which the `NFA` knows it by.
    numbers: Vec<SmallIndex>,
    /// For each list its length, and then its patterns.
    lists: Vec<SmallIndex>,
    /// Where the list of each state stands, by the number that the `NFA` knows the state by.
    places: Vec<SmallIndex>,
    /// How deep each state with a row is, in the order of the rows.
    depths: Vec<SmallIndex>,
    /// Whether a search may skip from the start.
    skips: bool,
}

/// What was filled so far.
#[derive(Drop)]
struct Filled {
    entries: Vec<SmallIndex>,
    deep: Vec<SmallIndex>,
    moves: Vec<SmallIndex>,
    /// The states with rows are special below this number.
    low: usize,
    /// A state with a row is below this number if it is dead or lists a pattern.
    list_low: usize,
    /// The deep states are special below this number, and only those list a pattern.
    deep_low: usize,
}

/// The states of an `NFA`. Those down to some depth have rows: the greatest depth with which the rows take at most so
/// many bytes, or 0. Where a search may skip from the start, the start is special.
///
/// # Errors
///
/// `StateIDOverflow` exactly where the number of words of rows and records, of lists or of transitions is above the greatest index,
/// with the first such number. It is found before anything is allocated. Where all fit, `OutOfMemory` alone.
pub fn rows_of(alloc: Global, nfa: &NFA, budget: usize, skips: bool) -> Result<Rows, BuildError>
    ensures sound { IfOk result IsSoundLayout }
    ensures of { IfOk result (λ rows. (p : Patterns)
        → ⟦<NFA as Automaton>⟧.is_of nfa.now p
        → IsLayoutOf rows p (⟦<NFA as Automaton>⟧.kind nfa.now) (⟦<NFA as Automaton>⟧.lengths nfa.now)) }
    ensures laid_out { IfOk result (IsLaidOutOf ⟦<NFA as Automaton>⟧ nfa.now budget) }
    ensures marked { IfOk result (λ rows. (p : Patterns)
        → ⟦<NFA as Automaton>⟧.is_of nfa.now p → AreMarkedIn skips p rows) }
    ensures refused { IfErr result (IsRowsRefusal nfa.now budget) }
{
    let stride = nfa.byte_classes().alphabet_len() + 1;
    let row_depth = row_depth(nfa, stride, budget);
    let sizes = sizes_of(nfa, stride, row_depth)?;
    let numbers = numbers_of(alloc, nfa, stride, row_depth, sizes.dense)?;
    let lists = lists_of(alloc, nfa, sizes.lists)?;
    let depths = depths_of(alloc, nfa, row_depth)?;
    let plan = Plan {
        stride,
        row_depth,
        firsts: first_bytes(nfa.byte_classes()),
        numbers,
        lists: lists.words,
        places: lists.places,
        depths,
        skips,
    };
    let filled = filled_states(alloc, nfa, &plan, sizes)?;
    let start = number_or_zero(&plan.numbers, nfa.special().start_unanchored_id);
    Ok(Rows {
        classes: nfa.byte_classes().copy(),
        entries: filled.entries,
        deep: filled.deep,
        moves: filled.moves,
        lists: plan.lists,
        depths: plan.depths,
        row_depth,
        start: StateID::new_unchecked(start.as_usize()),
        low: filled.low,
        list_low: filled.list_low,
        deep_low: filled.deep_low,
    })
}

/// The number of each state: the place of its row, or that of its record behind all rows.
fn numbers_of(
    alloc: Global,
    nfa: &NFA,
    stride: usize,
    row_depth: usize,
    dense: usize,
) -> Result<Vec<SmallIndex>, BuildError>
    requires stride { stride ≡ stride_of (classes_of nfa.now) }
    requires bounded { stride ≤ 257 }
    requires dense { dense ≡ row_entries row_depth (states_of nfa.now) (classes_of nfa.now) }
    requires small { state_words row_depth (states_of nfa.now) (classes_of nfa.now) ≤ greatest_index }
    ensures numbers { IfOk result (λ numbers. AreStateNumbers row_depth (states_of nfa.now)
        (classes_of nfa.now) (length (states_of nfa.now)) numbers.items) }
    ensures refused { IfErr result IsOutOfMemory }
{
    let mut numbers = vec_of(alloc, nfa.states_len())?;
    let mut row = 0;
    let mut record = dense;
    for index in 0..nfa.states_len() {
        let deep = is_deep(nfa, index, row_depth);
        let number = SmallIndex::new_unchecked(either(deep, record, row));
        push(&mut numbers, number)?;
        row = either(deep, row, row + stride);
        record = either(deep, record + RECORD_SIZE, record);
    }
    Ok(numbers)
}

/// How deep each state is that has a row, in the order of the rows.
fn depths_of(alloc: Global, nfa: &NFA, row_depth: usize) -> Result<Vec<SmallIndex>, BuildError>
    ensures depths { IfOk result (λ depths. AreDepths row_depth (states_of nfa.now)
        (length (states_of nfa.now)) depths.items) }
    ensures refused { IfErr result IsOutOfMemory }
{
    let mut depths = vec_of(alloc, rows_count(nfa, row_depth))?;
    for index in 0..nfa.states_len() {
        add_depth(&mut depths, nfa, row_depth, index)?;
    }
    Ok(depths)
}

/// How deep one state more is, where it has a row.
fn add_depth(
    depths: &mut Vec<SmallIndex>,
    nfa: &NFA,
    row_depth: usize,
    index: usize,
) -> Result<(), BuildError>
    requires within { index < length (states_of nfa.now) }
    requires small { index ≤ greatest_index }
    requires depths { AreDepths row_depth (states_of nfa.now) index depths.old.items }
    ensures depths { OnOk result (AreDepths row_depth (states_of nfa.now) (index + 1) depths.new.items) }
    ensures refused { IfErr result IsOutOfMemory }
{
    if is_deep(nfa, index, row_depth) {
        return Ok(());
    }
    let depth = nfa.depth(StateID::new_unchecked(index));
    push(depths, SmallIndex::new_unchecked(depth))
}

/// All states.
fn filled_states(alloc: Global, nfa: &NFA, plan: &Plan, sizes: Sizes) -> Result<Filled, BuildError>
    requires plan { IsPlan (plan_of nfa.now plan.now) plan.now.stride }
    requires fits { FitIndexes nfa.now plan.now.row_depth }
    ensures filled { IfOk result (AreLaidOut (plan_of nfa.now plan.now) (length (states_of nfa.now))) }
    ensures refused { IfErr result IsOutOfMemory }
{
    let mut filled = Filled {
        entries: vec_of(alloc, sizes.dense)?,
        deep: vec_of(alloc, sizes.deep)?,
        moves: vec_of(alloc, sizes.moves)?,
        low: first_low(nfa, plan),
        list_low: 1,
        deep_low: 0,
    };
    for index in 0..nfa.states_len() {
        add_state(&mut filled, nfa, plan, index)?;
    }
    Ok(filled)
}

/// The number below which states with rows are special whatever they list: DEAD and, where a search may skip from the start,
/// all up to the start.
fn first_low(nfa: &NFA, plan: &Plan) -> usize
    requires plan { IsPlan (plan_of nfa.now plan.now) plan.now.stride }
    ensures some { 0 < result }
    ensures first { result ≡ first_low (plan_of nfa.now plan.now) }
{
    if plan.skips {
        number_or_zero(&plan.numbers, nfa.special().start_unanchored_id).as_usize() + 1
    } else {
        1
    }
}

/// One state more.
fn add_state(filled: &mut Filled, nfa: &NFA, plan: &Plan, index: usize) -> Result<(), BuildError>
    requires plan { IsPlan (plan_of nfa.now plan.now) plan.now.stride }
    requires fits { FitIndexes nfa.now plan.now.row_depth }
    requires within { index < length (states_of nfa.now) }
    requires small { index ≤ greatest_index }
    requires filled { AreLaidOut (plan_of nfa.now plan.now) index filled.old }
    ensures filled { OnOk result (AreLaidOut (plan_of nfa.now plan.now) (index + 1) filled.new) }
    ensures refused { IfErr result IsOutOfMemory }
{
    if is_deep(nfa, index, plan.row_depth) {
        add_record(filled, nfa, plan, index)
    } else {
        add_row(filled, nfa, plan, index)
    }
}

/// The row of one state more.
fn add_row(filled: &mut Filled, nfa: &NFA, plan: &Plan, index: usize) -> Result<(), BuildError>
    requires plan { IsPlan (plan_of nfa.now plan.now) plan.now.stride }
    requires fits { FitIndexes nfa.now plan.now.row_depth }
    requires within { index < length (states_of nfa.now) }
    requires small { index ≤ greatest_index }
    requires shallow { IsShallow (plan_of nfa.now plan.now) index }
    requires filled { AreLaidOut (plan_of nfa.now plan.now) index filled.old }
    ensures filled { OnOk result (AreLaidOut (plan_of nfa.now plan.now) (index + 1) filled.new) }
    ensures refused { IfErr result IsOutOfMemory }
{
    let sid = source_of(nfa.special(), index);
    let near = nearest_row(&filled.entries, nfa, plan, index, sid);
    push_entries(&mut filled.entries, nfa, plan, sid, &near)?;
    push(&mut filled.entries, entry_at(&plan.places, sid.as_usize()))?;
    filled.list_low = low_with(filled.list_low, filled.entries.len(), nfa.match_len(sid));
    filled.low = filled.low.max(filled.list_low);
    Ok(())
}

/// The record of one state more.
fn add_record(filled: &mut Filled, nfa: &NFA, plan: &Plan, index: usize) -> Result<(), BuildError>
    requires plan { IsPlan (plan_of nfa.now plan.now) plan.now.stride }
    requires fits { FitIndexes nfa.now plan.now.row_depth }
    requires within { index < length (states_of nfa.now) }
    requires small { index ≤ greatest_index }
    requires deep { IsDeepState (plan_of nfa.now plan.now) index }
    requires filled { AreLaidOut (plan_of nfa.now plan.now) index filled.old }
    ensures filled { OnOk result (AreLaidOut (plan_of nfa.now plan.now) (index + 1) filled.new) }
    ensures refused { IfErr result IsOutOfMemory }
{
    let own = StateID::new_unchecked(index);
    let sid = source_of(nfa.special(), index);
    let place = filled.moves.len();
    push_moves(&mut filled.moves, nfa.transitions(sid), &plan.numbers)?;
    let record = Record {
        link: number_or_zero(&plan.numbers, nfa.fail(sid)),
        list: entry_at(&plan.places, sid.as_usize()),
        height: SmallIndex::new_unchecked(nfa.depth(own) - plan.row_depth),
        place: SmallIndex::new_unchecked(place),
        count: SmallIndex::new_unchecked(filled.moves.len() - place),
    };
    push_record(&mut filled.deep, record)?;
    let end = number_or_zero(&plan.numbers, own).as_usize() + 1;
    filled.deep_low = low_with(filled.deep_low, end, nfa.match_len(sid));
    Ok(())
}

/// The words of a record.
#[derive(Clone, Copy)]
struct Record {
    link: SmallIndex,
    list: SmallIndex,
    height: SmallIndex,
    place: SmallIndex,
    count: SmallIndex,
}

/// This record at the end of the records.
fn push_record(deep: &mut Vec<SmallIndex>, words: Record) -> Result<(), BuildError>
    ensures pushed { OnOk result (deep.new.items
        ≡ deep.old.items ++ words.link ∷ words.list ∷ words.height ∷ words.place ∷ words.count ∷ []) }
    ensures refused { IfErr result IsOutOfMemory }
{
    push(deep, words.link)?;
    push(deep, words.list)?;
    push(deep, words.height)?;
    push(deep, words.place)?;
    push(deep, words.count)
}

/// The number of this state, and 0 where there is none.
fn number_or_zero(numbers: &[SmallIndex], sid: StateID) -> SmallIndex
    ensures number { result ≡ number_or_zero numbers.now sid }
{
    match numbers.get(sid.as_usize()) {
        Some(number) => *number,
        None => SmallIndex::new_unchecked(0),
    }
}

/// These transitions at the end: for each its byte, and the number of the state that it leads to.
fn push_moves(
    moves: &mut Vec<SmallIndex>,
    transitions: Transitions<'_>,
    numbers: &[SmallIndex],
) -> Result<(), BuildError>
    ensures pushed { OnOk result (moves.new.items ≡ moves.old.items ++ flat numbers.now transitions.entry) }
    ensures refused { IfErr result IsOutOfMemory }
{
    for (byte, next) in transitions {
        push_move(moves, byte, next, numbers)?;
    }
    Ok(())
}

/// This transition at the end, if it leads on.
fn push_move(
    moves: &mut Vec<SmallIndex>,
    byte: u8,
    next: StateID,
    numbers: &[SmallIndex],
) -> Result<(), BuildError>
    ensures pushed { OnOk result (moves.new.items
        ≡ moves.old.items ++ flat numbers.now ((byte, next) ∷ [])) }
    ensures refused { IfErr result IsOutOfMemory }
{
    if next == FAIL {
        return Ok(());
    }
    push(moves, SmallIndex::new_unchecked(byte as usize))?;
    push(moves, number_or_zero(numbers, next))
}

/// A vector with room for so many.
pub fn vec_of(alloc: Global, size: usize) -> Result<Vec<SmallIndex>, BuildError>
    ensures empty { IfOk result (λ list. list.items ≡ []) }
    ensures refused { IfErr result IsOutOfMemory }
{
    match Vec::with_capacity(alloc, size) {
        Ok(list) => Ok(list),
        Err(_) => Err(BuildError::OutOfMemory),
    }
}

/// One more at the end.
pub fn push(list: &mut Vec<SmallIndex>, index: SmallIndex) -> Result<(), BuildError>
    ensures pushed { OnOk result (list.new.items ≡ list.old.items ++ index ∷ []) }
    ensures refused { IfErr result IsOutOfMemory }
{
    match list.push(index) {
        Ok(()) => Ok(()),
        Err(_) => Err(BuildError::OutOfMemory),
    }
}

/// A byte of each class, by the class.
fn first_bytes(classes: &ByteClasses) -> [u8; 256]
    ensures first { AreFirstBytes classes.now result }
{
    let mut firsts = [0; 256];
    for index in 0..256usize {
        let byte = index as u8;
        firsts[classes.get(byte) as usize] = byte;
    }
    firsts
}

/// The number below which states may list a pattern, with one state more: its row or record ends here, and it lists so many.
fn low_with(low: usize, end: usize, listed: usize) -> usize
    ensures higher { low ≤ result }
    ensures past { result < end → listed ≡ 0 }
    ensures no_higher { (result ≡ low) ⊎ ((0 < listed) × (result ≡ end)) }
{
    if listed > 0 { low.max(end) } else { low }
}

/// A row that tells where most bytes lead from a state: that of a state down its links.
#[derive(Drop)]
struct Near {
    /// Where the row begins, if there is one.
    row: Option<SmallIndex>,
    /// The bytes of which it does not tell: one of the states above it takes them.
    taken: [bool; 256],
}

/// The row of the nearest state down the links that has one already. Where no state above takes a byte, the byte leads from
/// there to the same state.
fn nearest_row(entries: &[SmallIndex], nfa: &NFA, plan: &Plan, index: usize, sid: StateID) -> Near
    requires plan { IsPlan (plan_of nfa.now plan.now) plan.now.stride }
    requires state { IsState (states_of nfa.now) sid }
    requires within { index < length (states_of nfa.now) }
    requires small { index ≤ greatest_index }
    requires rows { (low : ℕ) × AreRows (plan_of nfa.now plan.now) index entries.now low }
    ensures near { IsNear (plan_of nfa.now plan.now) sid entries.now result }
{
    let len = nfa.states_len();
    let mut taken = [false; 256];
    let mut at = sid;
    for _ in 0..nfa.depth(sid) + 1 {
        mark(&mut taken, nfa.transitions(at));
        let link = nfa.fail(at);
        if has_row(nfa, plan, index, link) {
            let row = Some(number_or_zero(&plan.numbers, link));
            return Near { row, taken };
        }
        if link.as_usize() >= len {
            return Near { row: None, taken };
        }
        // The start takes every byte.
        if link == nfa.special().start_unanchored_id {
            return Near { row: None, taken };
        }
        at = link;
    }
    Near { row: None, taken }
}

/// Marks the bytes of these transitions.
fn mark(taken: &mut [bool; 256], transitions: Transitions<'_>)
    ensures marked { AreMarked transitions.entry taken.old taken.new }
{
    for (byte, _) in transitions {
        taken[byte as usize] = true;
    }
}

/// Whether the row of this state stands among those of the states before: its own, and not that of the start in its place.
fn has_row(nfa: &NFA, plan: &Plan, index: usize, sid: StateID) -> bool
    requires within { index < length (states_of nfa.now) }
    requires small { index ≤ greatest_index }
    ensures row { result ≡ true → HasRowBefore (plan_of nfa.now plan.now) index sid }
{
    if sid.as_usize() >= index {
        return false;
    }
    if source_of(nfa.special(), sid.as_usize()) != sid {
        return false;
    }
    !is_deep(nfa, sid.as_usize(), plan.row_depth)
}

/// The entries of a row: where a byte of each class leads.
fn push_entries(
    entries: &mut Vec<SmallIndex>,
    nfa: &NFA,
    plan: &Plan,
    sid: StateID,
    near: &Near,
) -> Result<(), BuildError>
    requires plan { IsPlan (plan_of nfa.now plan.now) plan.now.stride }
    requires state { IsState (states_of nfa.now) sid }
    requires near { IsNear (plan_of nfa.now plan.now) sid entries.old.items near.now }
    ensures entries { OnOk result (HasEntries (plan_of nfa.now plan.now) sid
        (class_count (classes_of nfa.now)) entries.old.items entries.new.items) }
    ensures refused { IfErr result IsOutOfMemory }
{
    for class in 0..plan.stride - 1 {
        let entry = entry_for(entries, nfa, plan, sid, near, class);
        push(entries, entry)?;
    }
    Ok(())
}

/// Where a byte of the class leads: by the row that is near, or else by the `NFA`.
fn entry_for(
    entries: &[SmallIndex],
    nfa: &NFA,
    plan: &Plan,
    sid: StateID,
    near: &Near,
    class: usize,
) -> SmallIndex
    requires state { IsState (states_of nfa.now) sid }
    requires within { class < 256 }
    requires sized { length plan.now.firsts ≡ 256 }
    requires near { IsToldBy (plan_of nfa.now plan.now) sid entries.now near.now class }
    ensures entry { result ≡ number_in (plan_of nfa.now plan.now)
        (leads_in (plan_of nfa.now plan.now) sid class) }
    ensures step { IsStep (states_of nfa.now) sid (slice_index_or plan.now.firsts class 0) }
{
    if let Some(row) = near.row
        && !near.taken[plan.firsts[class] as usize]
    {
        return entry_at(entries, row.as_usize() + class);
    }
    let next = nfa.next_state(Anchored::No, sid, plan.firsts[class]);
    number_or_zero(&plan.numbers, next)
}

/// The entry that stands here, and 0 where there is none.
fn entry_at(entries: &[SmallIndex], place: usize) -> SmallIndex
    ensures entry { result ≡ slice_index_or entries.now place 0 }
{
    match entries.get(place) {
        Some(entry) => *entry,
        None => SmallIndex::new_unchecked(0),
    }
}
