//! The second half of a build: the start states, the failure links, and the patterns that are listed along them.

ghost use Rattle.std.specs.Prelude.{◌≡◌, ◌≢◌, ◌+◌, ◌<◌, ◌≤◌, [], ◌∷◌, ◌++◌, length, vec_len, slice_index, OnOk, IfErr, IsOk};
ghost use Rattle.aho_core.specs.declared.error.BuildError.TheVariants.{OutOfMemory};
ghost use Rattle.aho_table.specs.Table.{state_at, next_in, fail_in, matches_in, transitions_count, matches_count};
ghost use Rattle.aho_table.specs.Refusal.{IsRefusalOf};
ghost use Rattle.aho_build.specs.FirstStates.{root_id, anchored_id};
ghost use Rattle.aho_build.specs.Starts.{IsLedBelow, IsLedAsRoot, looped, stops_at, ListsAllBytes};
ghost use Rattle.aho_build.specs.FailureLinks.{rows_of, append_matches, linked_state, CanStepBySome, StepsTo, CanLinkBySome, LinksTo, IsLinkingBySome, KeepsLinking, unlinked_count, OnlyCopies, IsLinkingRefusal, IsReadyRefusal};
ghost use Rattle.aho_build.specs.Built.{IsReadyBySome, BuildsReady};

use crate::compiler::starts::{anchored_start, unanchored_start};
use aho_core::error::BuildError;
use aho_core::search::{MatchKind, StateID, Work};
use aho_table::links::{DEAD, FAIL, Table};
use std::alloc::Global;

/// Where the byte leads from the state, and FAIL where it leads nowhere.
fn next_of(table: &Table, sid: StateID, byte: u8) -> StateID
    requires added { sid < length table.now.states }
    ensures next { result ≡ next_in table.now.states sid byte }
{
    table.follow(sid, byte, &mut Work::new())
}

/// The second state lists the first one's patterns too, after its own.
fn copy_matches(table: &mut Table, from: StateID, to: StateID) -> Result<(), BuildError>
    requires from { from < length table.old.states }
    requires to { to < length table.old.states }
    requires apart { to ≢ from }
    ensures copied { OnOk result (table.new.states ≡ append_matches table.old.states to from) }
    ensures limit { OnOk result (table.new.limit ≡ table.old.limit) }
    ensures rows { OnOk result (rows_of table.new ≡ rows_of table.old) }
    ensures refused { IfErr result
        (IsRefusalOf table.old.limit
        (matches_count table.old.states + length (matches_in table.old.states from))) }
{
    table.append_matches(to, from)
}

/// Gives the anchored start the root's transitions and patterns.
pub fn set_anchored_start_state(table: &mut Table) -> Result<(), BuildError>
    requires starts { anchored_id < length table.old.states }
    ensures led { OnOk result (IsLedAsRoot table.old.states table.new.states) }
    ensures limit { OnOk result (table.new.limit ≡ table.old.limit) }
    ensures full { OnOk result
        (ListsAllBytes table.old.states anchored_id → ListsAllBytes table.new.states anchored_id) }
    ensures transitions { OnOk result
        (ListsAllBytes table.old.states anchored_id
        → transitions_count table.new.states ≡ transitions_count table.old.states) }
    ensures refused { IfErr result (λ error.
        ListsAllBytes table.old.states anchored_id
        → IsRefusalOf table.old.limit
        (matches_count table.old.states + length (matches_in table.old.states root_id)) error) }
{
    let root = unanchored_start();
    let anchored = anchored_start();
    for byte in 0..256u16 {
        let next = next_of(table, root, byte as u8);
        table.set(anchored, byte as u8, next)?;
    }
    copy_matches(table, root, anchored)
}

/// Whether the state ends the walk along failure links: it lists a pattern, and the kind chooses by the start of a match.
fn ends_here(table: &Table, kind: MatchKind, sid: StateID) -> bool
    requires added { sid < length table.now.states }
    ensures ends { result ≡ stops_at kind (matches_in table.now.states sid) }
{
    match kind {
        MatchKind::Standard => false,
        MatchKind::LeftmostFirst | MatchKind::LeftmostLongest => table.has_matches(sid),
    }
}

/// Leads each byte that led from the root nowhere back to the root, or to DEAD where the kind is leftmost and the root lists
/// a pattern: nothing that starts later is then looked for.
pub fn add_unanchored_start_state_loop(table: &mut Table, kind: MatchKind) -> Result<(), BuildError>
    requires start { root_id < length table.old.states }
    ensures looped { OnOk result
        (IsLedBelow root_id 256 (looped kind table.old.states) table.old.states table.new.states) }
    ensures limit { OnOk result (table.new.limit ≡ table.old.limit) }
    ensures transitions { OnOk result
        (ListsAllBytes table.old.states root_id
        → transitions_count table.new.states ≡ transitions_count table.old.states) }
    ensures full { ListsAllBytes table.old.states root_id → IsOk result }
{
    let root = unanchored_start();
    let back = if ends_here(table, kind, root) {
        DEAD
    } else {
        root
    };
    for byte in 0..256u16 {
        if next_of(table, root, byte as u8) == FAIL {
            table.set(root, byte as u8, back)?;
        }
    }
    Ok(())
}

/// Where the byte leads from a state, along the failure links.
fn step(table: &Table, from: StateID, byte: u8) -> StateID
    requires can { CanStepBySome table.now.states from }
    ensures steps { StepsTo table.now.states from byte result }
{
    let mut state = from;
    'walk: loop {
        let next = next_of(table, state, byte);
        if next != FAIL {
            return next;
        }
        state = table.fail(state);
    }
}

/// The failure link of the child to which the byte leads.
fn child_link(table: &Table, kind: MatchKind, parent: StateID, byte: u8, child: StateID) -> StateID
    requires can { CanLinkBySome kind table.now.states parent byte child }
    ensures links { LinksTo kind table.now.states parent byte child result }
{
    let root = unanchored_start();
    if ends_here(table, kind, child) {
        return DEAD;
    }
    if parent != root {
        return step(table, table.fail(parent), byte);
    }
    if ends_here(table, kind, root) {
        return DEAD;
    }
    root
}

/// The state leads on failure to another, and lists that one's patterns after its own.
fn link(table: &mut Table, sid: StateID, fail: StateID) -> Result<(), BuildError>
    requires sid { sid < length table.old.states }
    requires fail { fail < length table.old.states }
    requires apart { sid ≢ fail }
    ensures linked { OnOk result (table.new.states ≡ linked_state table.old.states sid fail) }
    ensures limit { OnOk result (table.new.limit ≡ table.old.limit) }
    ensures rows { OnOk result (rows_of table.new ≡ rows_of table.old) }
    ensures refused { IfErr result
        (IsRefusalOf table.old.limit
        (matches_count table.old.states + length (matches_in table.old.states fail))) }
{
    table.set_fail(sid, fail);
    copy_matches(table, fail, sid)
}

/// Puts the state at the queue's end.
fn enqueue(queue: &mut Vec<StateID>, sid: StateID) -> Result<(), BuildError>
    ensures enqueued { OnOk result (queue.new.items ≡ queue.old.items ++ sid ∷ []) }
    ensures refused { IfErr result (λ error. error ≡ OutOfMemory) }
{
    if queue.push(sid).is_err() {
        return Err(BuildError::OutOfMemory);
    }
    Ok(())
}

/// Links the state to which the head's transition of this place leads and puts it into the queue, unless it was linked
/// before.
fn visit(
    table: &mut Table,
    kind: MatchKind,
    queue: &mut Vec<StateID>,
    head: usize,
    index: usize,
) -> Result<(), BuildError>
    requires inside { head < vec_len queue.old }
    requires within { index
        < length (state_at table.old.states (slice_index queue.old.items head)).transitions }
    requires linking { IsLinkingBySome kind queue.old.items head index table.old.states }
    ensures linking { OnOk result
        (KeepsLinking kind queue.old.items head index table.old.states
        queue.new.items head (index + 1) table.new.states) }
    ensures counted { OnOk result
        (unlinked_count table.new.states + vec_len queue.new
        ≡ unlinked_count table.old.states + vec_len queue.old) }
    ensures longer { OnOk result (vec_len queue.old ≤ vec_len queue.new) }
    ensures head { OnOk result
        (slice_index queue.new.items head ≡ slice_index queue.old.items head) }
    ensures copies { OnOk result (OnlyCopies table.old table.new) }
    ensures refused { IfErr result (IsLinkingRefusal kind queue.old.items head index table.old) }
{
    let parent = queue[head];
    let (byte, child) = table.transition(parent, index);
    if child == FAIL || table.fail(child) != FAIL {
        return Ok(());
    }
    let fail = child_link(table, kind, parent, byte, child);
    link(table, child, fail)?;
    enqueue(queue, child)
}

/// Links every state of the trie, the nearest to the root first, and lists the patterns of its link after its own.
pub fn fill_failure_transitions(
    alloc: Global,
    table: &mut Table,
    kind: MatchKind,
) -> Result<(), BuildError>
    requires ready { IsReadyBySome kind table.old.states }
    ensures built { OnOk result (BuildsReady kind table.old.states table.new.states) }
    ensures copies { OnOk result (OnlyCopies table.old table.new) }
    ensures refused { IfErr result (IsReadyRefusal kind table.old) }
{
    let root = unanchored_start();
    table.set_fail(root, DEAD);
    let mut queue = Vec::new(alloc);
    enqueue(&mut queue, root)?;
    let mut head = 0;
    'states: while head < queue.len() {
        'transitions: for index in 0..table.transitions_len(queue[head]) {
            visit(table, kind, &mut queue, head, index)?;
        }
        head += 1;
    }
    Ok(())
}
