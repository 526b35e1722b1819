//! The links and the rows: state by state, each from those of shorter words.

ghost use Rattle.std.specs.Prelude.{◌≡◌, ◌&&◌, ◌+◌, ◌*◌, ◌<◌, ◌≤◌, ◌++◌, ◌∷◌, [], ℕ, List, Option, length, nat_lt, slice_index_or, if◌then◌else◌, IfErr, IfOk, OnOk};
ghost use Rattle.aho_core.specs.Failure.{is_leftmost};
ghost use Rattle.aho_core.specs.Numbers.{greatest_index};
ghost use Rattle.aho_core.specs.Patterns.{Patterns};
ghost use Rattle.aho_levels.specs.Building.{AreBare, AreOfTrie, HasSameTrie, IsLevelsRefusal};
ghost use Rattle.aho_levels.specs.Layout.{AreRising, CanStepThrough, HasChildren, IsStateNumber, child_bytes, first_child, link_at};
ghost use Rattle.aho_levels.specs.Linking.{AreFolded, AreInLevels, AreLinkedTo, AreSet, HasFirstLinks, HasNewLink, HasNewRow, HasSetRow, HaveRowsTo, IsLonger, IsWalkOf, link_below, upper_by};
ghost use Rattle.aho_levels.specs.Listing.{AreAllAt};
ghost use Rattle.aho_levels.specs.Meaning.{LeadsAsWords};

use crate::states::{DEAD, ROOT, ROW, States};
use crate::trie::Own;
use aho_core::error::BuildError;
use aho_core::search::{MatchKind, StateID, Work};

/// So many states have rows at most.
pub const MOST_ROWS: usize = 1024;

/// How the states of some patterns are linked.
#[derive(Debug, Drop)]
struct Walk {
    kind: MatchKind,
    /// Where the states of one byte lead.
    back: StateID,
    /// So many states have rows at most.
    most_rows: usize,
}

/// Whether a state ends the walk along links: under a leftmost kind one that has patterns of its own, from one of those that end
/// on and before another.
fn ends_walk(kind: MatchKind, own: usize, next: usize) -> bool
    ensures ends { result ≡ (is_leftmost kind && nat_lt own next) }
{
    match kind {
        MatchKind::Standard => false,
        MatchKind::LeftmostFirst | MatchKind::LeftmostLongest => own < next,
    }
}

/// The first from this one on of the patterns that end which does not end at the state.
pub fn past_owns(owns: &[Own], from: usize, sid: StateID) -> usize
    requires within { from ≤ length owns.now }
    ensures at { AreAllAt owns.now from result sid }
{
    for index in from..owns.len() {
        if owns[index].state != sid {
            return index;
        }
    }
    owns.len()
}

/// The dead state where the walk ends, and else this one.
fn dead_or(ends: bool, sid: StateID) -> StateID
    ensures link { result ≡ (if ends then 0 else sid) }
{
    if ends { DEAD } else { sid }
}

/// Links all states, and gives the first ones rows.
///
/// # Errors
///
/// Out of memory.
pub fn link_states(
    states: &mut States,
    kind: MatchKind,
    owns: &[Own],
    most_rows: usize,
) -> Result<(), BuildError>
    requires bare { AreBare states.old }
    requires some { (p : Patterns) × (names : List (Option (List ℕ)))
        × (p.kind ≡ kind) × AreOfTrie p names owns.now states.old }
    ensures links { OnOk result ((p : Patterns) (names : List (Option (List ℕ)))
        → p.kind ≡ kind → AreOfTrie p names owns.now states.old
        → LeadsAsWords p states.new names) }
    ensures can { OnOk result (CanStepThrough states.new) }
    ensures all { OnOk result (length states.new.fails ≡ length states.new.bytes) }
    ensures same { OnOk result (HasSameTrie states.old states.new) }
    ensures refused { IfErr result IsLevelsRefusal }
{
    let mut own = past_owns(owns, 0, ROOT);
    let back = dead_or(ends_walk(kind, 0, own), ROOT);
    let walk = Walk {
        kind,
        back,
        most_rows,
    };
    link_first(states, back)?;
    for parent in 1..states.bytes.len() {
        own = link_children(states, owns, own, &walk, parent)?;
    }
    Ok(())
}

/// Links the children of a state. Answers which pattern ends next.
fn link_children(
    states: &mut States,
    owns: &[Own],
    own: usize,
    walk: &Walk,
    parent: usize,
) -> Result<usize, BuildError>
    requires walk { IsWalkOf owns.now walk.now }
    requires some { 0 < parent }
    requires within { IsStateNumber states.old parent }
    requires linked { AreLinkedTo walk.now.kind owns.now own (first_child states.old parent) states.old }
    requires rows { HaveRowsTo walk.now.most_rows (first_child states.old parent) states.old }
    ensures linked { IfOk result (λ next.
        AreLinkedTo walk.now.kind owns.now next (first_child states.new (parent + 1)) states.new) }
    ensures rows { IfOk result (λ _.
        HaveRowsTo walk.now.most_rows (first_child states.new (parent + 1)) states.new) }
    ensures same { IfOk result (λ _. HasSameTrie states.old states.new) }
    ensures refused { IfErr result IsLevelsRefusal }
{
    let first = states.firsts[parent].as_usize();
    let end = states.firsts[parent + 1].as_usize();
    let mut next = own;
    for child in first..end {
        next = link_child(states, owns, next, walk, parent, child)?;
    }
    Ok(next)
}

/// Links one child of a state. Answers which pattern ends next.
fn link_child(
    states: &mut States,
    owns: &[Own],
    own: usize,
    walk: &Walk,
    parent: usize,
    child: usize,
) -> Result<usize, BuildError>
    requires walk { IsWalkOf owns.now walk.now }
    requires some { 0 < parent }
    requires within { IsStateNumber states.old parent }
    requires from { first_child states.old parent ≤ child }
    requires to { child < first_child states.old (parent + 1) }
    requires linked { AreLinkedTo walk.now.kind owns.now own child states.old }
    requires rows { HaveRowsTo walk.now.most_rows child states.old }
    ensures linked { IfOk result (λ next. AreLinkedTo walk.now.kind owns.now next (child + 1) states.new) }
    ensures rows { IfOk result (λ _. HaveRowsTo walk.now.most_rows (child + 1) states.new) }
    ensures same { IfOk result (λ _. HasSameTrie states.old states.new) }
    ensures refused { IfErr result IsLevelsRefusal }
{
    let sid = StateID::new_unchecked(child);
    let next = past_owns(owns, own, sid);
    let below = link_below(states, walk.back, parent, child);
    let link = dead_or(ends_walk(walk.kind, own, next), below);
    push_link(states, link)?;
    if child >= walk.most_rows {
        return Ok(next);
    }
    add_row(states, sid, link)?;
    Ok(next)
}

/// Where the child of a state leads on failure, unless the walk ends at it.
fn link_below(states: &States, back: StateID, parent: usize, child: usize) -> StateID
    requires can { CanStepThrough states.now }
    requires linked { parent < length states.now.fails }
    requires lower { link_at states.now parent < length states.now.fails }
    requires within { IsStateNumber states.now child }
    ensures link { result ≡ link_below states.now back parent child }
{
    if parent == 1 {
        return back;
    }
    let from = states.link(StateID::new_unchecked(parent));
    states.step(from, states.bytes[child], &mut Work::new())
}

/// The link of one state more.
fn push_link(states: &mut States, link: StateID) -> Result<(), BuildError>
    ensures linked { OnOk result (HasNewLink states.old states.new link) }
    ensures refused { IfErr result IsLevelsRefusal }
{
    push_state(&mut states.fails, link)
}

/// The links and rows of the dead state and of the root.
fn link_first(states: &mut States, back: StateID) -> Result<(), BuildError>
    requires bare { AreBare states.old }
    requires levels { AreInLevels states.old }
    ensures linked { OnOk result (HasFirstLinks states.old states.new back) }
    ensures refused { IfErr result IsLevelsRefusal }
{
    push_link(states, DEAD)?;
    push_link(states, DEAD)?;
    push_row(&mut states.rows, DEAD)?;
    push_row(&mut states.rows, back)?;
    set_children(states, ROOT);
    states.row_count = 2;
    Ok(())
}

/// The row of one state more: that of its link, but for the bytes that lead to its children.
fn add_row(states: &mut States, sid: StateID, link: StateID) -> Result<(), BuildError>
    requires can { CanStepThrough states.old }
    requires levels { AreInLevels states.old }
    requires state { IsStateNumber states.old sid }
    requires next { states.old.row_count ≡ sid }
    requires link { link < sid }
    ensures row { OnOk result (HasNewRow states.old states.new sid link) }
    ensures refused { IfErr result IsLevelsRefusal }
{
    copy_row(&mut states.rows, link.as_usize() * ROW)?;
    set_children(states, sid);
    states.row_count += 1;
    Ok(())
}

/// Sets the entries of the state's row for the bytes that lead to its children.
fn set_children(states: &mut States, sid: StateID)
    requires children { HasChildren states.old }
    requires sized { length states.old.firsts ≡ length states.old.bytes + 1 }
    requires small { length states.old.bytes ≤ greatest_index }
    requires state { IsStateNumber states.old sid }
    requires folded { AreFolded states.old.ignore_case (child_bytes states.old sid) }
    requires room { sid * 256 + 256 ≤ length states.old.rows }
    ensures set { HasSetRow states.old states.new sid }
{
    let first = states.firsts[sid.as_usize()].as_usize();
    let end = states.firsts[sid.as_usize() + 1].as_usize();
    let row = sid.as_usize() * ROW;
    set_entries(
        &mut states.rows,
        row,
        &states.bytes[first..end],
        first,
        states.ignore_case,
    );
}

/// Sets the entries of a row for the bytes that lead to these children.
fn set_entries(rows: &mut Vec<StateID>, row: usize, bytes: &[u8], first: usize, ignore_case: bool)
    requires folded { AreFolded ignore_case bytes.now }
    requires rising { AreRising bytes.now }
    requires small { first + length bytes.now ≤ greatest_index }
    requires room { row + 256 ≤ length rows.old.items }
    ensures set { AreSet ignore_case bytes.now first row (length bytes.now) rows.old.items rows.new.items }
{
    for index in 0..bytes.len() {
        let child = StateID::new_unchecked(first + index);
        let byte = bytes[index];
        rows[row + byte as usize] = child;
        rows[row + upper(ignore_case, byte) as usize] = child;
    }
}

/// The upper-case byte of a lower-case one, where case is ignored; else the byte itself.
fn upper(ignore_case: bool, byte: u8) -> u8
    ensures upper { result ≡ upper_by ignore_case byte }
{
    if ignore_case && byte >= 97 && byte <= 122 {
        byte - 32
    } else {
        byte
    }
}

/// A row at the end that leads to this state alone.
fn push_row(rows: &mut Vec<StateID>, sid: StateID) -> Result<(), BuildError>
    ensures longer { OnOk result (IsLonger rows.old.items rows.new.items 256) }
    ensures entries { OnOk result ((byte : ℕ) → byte < 256
        → slice_index_or rows.new.items (length rows.old.items + byte) 0 ≡ sid) }
    ensures refused { IfErr result IsLevelsRefusal }
{
    for _ in 0..ROW {
        push_state(rows, sid)?;
    }
    Ok(())
}

/// The row that stands here once more at the end.
fn copy_row(rows: &mut Vec<StateID>, from: usize) -> Result<(), BuildError>
    requires within { from + 256 ≤ length rows.old.items }
    ensures longer { OnOk result (IsLonger rows.old.items rows.new.items 256) }
    ensures entries { OnOk result ((byte : ℕ) → byte < 256
        → slice_index_or rows.new.items (length rows.old.items + byte) 0
        ≡ slice_index_or rows.old.items (from + byte) 0) }
    ensures refused { IfErr result IsLevelsRefusal }
{
    for byte in 0..ROW {
        let next = rows[from + byte];
        push_state(rows, next)?;
    }
    Ok(())
}

/// One more at the end.
fn push_state(list: &mut Vec<StateID>, sid: StateID) -> Result<(), BuildError>
    ensures pushed { OnOk result (list.new.items ≡ list.old.items ++ sid ∷ []) }
    ensures refused { IfErr result IsLevelsRefusal }
{
    match list.push(sid) {
        Ok(()) => Ok(()),
        Err(_) => Err(BuildError::OutOfMemory),
    }
}
