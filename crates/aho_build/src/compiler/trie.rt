//! The trie of the patterns: the states of an automaton with their transitions and own patterns, before links are made.

ghost use Rattle.std.specs.Prelude.{◌≡◌, ◌&&◌, ◌+◌, ◌<◌, ◌≤◌, ◌↔◌, [], length, min, nat_lt, IsOk, IfOk, IfErr, OnOk};
ghost use Rattle.std.specs.Iterator.{IsFinite};
ghost use Rattle.aho_core.specs.Numbers.{greatest_index};
ghost use Rattle.aho_core.specs.declared.error.BuildError.TheVariants.{PatternIDOverflow, PatternTooLong};
ghost use Rattle.aho_core.specs.Patterns.{Patterns};
ghost use Rattle.aho_build.specs.TrieGrowth.{HasChild, IsFilledBelow, leaves_out, AwaitsWord, AddsWord, AddsPattern, IsChildRefusal, IsWordRefusal, AreWithin};
ghost use Rattle.aho_build.specs.Trie.{HoldsFirst};
ghost use Rattle.aho_table.specs.Refusal.{IsRefusalOf};
ghost use Rattle.aho_build.specs.Settings.{in_force};
ghost use Rattle.aho_build.specs.Items.{OfDrained, IsTrieFailure};
ghost use Rattle.aho_build.specs.Made.{IsTrieMade};
ghost use Rattle.aho_build.specs.Dense.{AddsBorders};
ghost use Rattle.aho_build.specs.Prefilters.{Collects};
ghost use Rattle.aho_table.specs.Table.{IsWithinLimit, state_at, matches_in, transitions_count};

use crate::compiler::borders::set_bytes;
use crate::compiler::prefilter::PrefilterPatterns;
use crate::compiler::starts::unanchored_start;
use crate::settings::Settings;
use aho_core::error::BuildError;
use aho_core::letters::opposite_ascii_case;
use aho_core::search::{MatchKind, PatternID, SmallIndex, StateID};
use aho_table::alphabet::ByteClassSet;
use aho_table::links::{Child, Table};
use std::alloc::Global;

/// The trie of some patterns, and how long each is.
#[derive(Drop)]
pub struct Trie {
    pub table: Table,
    /// By the patterns' numbers, in bytes.
    pub lens: Vec<SmallIndex>,
    /// All patterns, those that are not kept as well.
    pub prefilter: PrefilterPatterns,
    /// Around each byte of the patterns that are kept.
    pub borders: ByteClassSet,
}

/// The state to which the byte leads, which is added at this depth where there is none.
fn child(
    table: &mut Table,
    ignore_case: bool,
    parent: StateID,
    byte: u8,
    depth: SmallIndex,
) -> Result<StateID, BuildError>
    requires added { parent < length table.old.states }
    ensures child { IfOk result
        (HasChild ignore_case parent byte depth table.old.states table.new.states) }
    ensures limit { OnOk result (table.new.limit ≡ table.old.limit) }
    ensures refused { IfErr result
        (IsChildRefusal ignore_case table.old.limit parent byte table.old.states) }
{
    let child = match table.follow_or_add(parent, byte, depth)? {
        Child::Found(child) => return Ok(child),
        Child::Added(child) => child,
    };
    let other = opposite_ascii_case(byte);
    if ignore_case && other != byte {
        table.set(parent, other, child)?;
    }
    Ok(child)
}

/// Whether a pattern that passes the state is left out.
fn passes_match(table: &Table, kind: MatchKind, state: StateID) -> bool
    requires added { state < length table.now.states }
    ensures passes { result ≡
        (leaves_out kind && nat_lt 0 (length (matches_in table.now.states state))) }
{
    match kind {
        MatchKind::LeftmostFirst => table.has_matches(state),
        MatchKind::Standard => false,
        MatchKind::LeftmostLongest => false,
    }
}

/// The state of the pattern's bytes, with all states on the way to it; none for a pattern that is left out.
fn add_word(
    table: &mut Table,
    settings: &Settings,
    pattern: &[u8],
) -> Result<Option<StateID>, BuildError>
    requires sized { length pattern.now ≤ greatest_index }
    requires trie { AwaitsWord settings.now pattern.now table.old.states }
    ensures ends { IfOk result
        (AddsWord settings.now pattern.now table.old.states table.new.states) }
    ensures limit { OnOk result (table.new.limit ≡ table.old.limit) }
    ensures refused { IfErr result
        (IsWordRefusal settings.now pattern.now table.old.limit table.old.states) }
{
    let mut state = unanchored_start();
    for (index, byte) in pattern.iter().enumerate() {
        if passes_match(table, settings.kind, state) {
            return Ok(None);
        }
        let depth = SmallIndex::new_unchecked(index + 1);
        state = child(table, settings.ignore_case, state, *byte, depth)?;
    }
    Ok(Some(state))
}

/// Every byte leads from the state to the next one.
fn init_full_state(table: &mut Table, sid: StateID, next: StateID) -> Result<(), BuildError>
    requires added { sid < length table.old.states }
    requires empty { (state_at table.old.states sid).transitions ≡ [] }
    ensures filled { OnOk result
        (IsFilledBelow sid next 256 table.old.states table.new.states) }
    ensures limit { OnOk result (table.new.limit ≡ table.old.limit) }
    ensures refused { IfErr result
        (IsRefusalOf table.old.limit (transitions_count table.old.states + 256)) }
{
    for byte in 0..256u16 {
        table.set(sid, byte as u8, next)?;
    }
    Ok(())
}

/// The dead state, the fail state and the two starts. DEAD leads to itself, and none of the others to a state.
fn first_states(alloc: Global, limit: usize) -> Result<Table, BuildError>
    ensures start { IfOk result (λ table. (p : Patterns) → HoldsFirst p 0 table.states) }
    ensures limit { IfOk result (λ table. table.limit ≡ min limit greatest_index) }
    ensures refused { IfErr result (IsRefusalOf (min limit greatest_index) 769) }
{
    let mut table = Table::new(alloc, limit)?;
    let depth = SmallIndex::new_unchecked(0);
    let dead = table.add_state(depth)?;
    let fail = table.add_state(depth)?;
    let unanchored = table.add_state(depth)?;
    let anchored = table.add_state(depth)?;
    init_full_state(&mut table, unanchored, fail)?;
    init_full_state(&mut table, anchored, fail)?;
    init_full_state(&mut table, dead, dead)?;
    table.set_fail(dead, dead);
    table.set_fail(fail, dead);
    table.set_fail(anchored, dead);
    Ok(table)
}

/// The number of the pattern at this place.
///
/// # Errors
///
/// `PatternIDOverflow` where it is above the limit.
fn number_of(place: usize, limit: usize) -> Result<PatternID, BuildError>
    ensures accepted { IsOk result ↔ (place ≤ min limit greatest_index) }
    ensures value { IfOk result (λ number. number ≡ place) }
    ensures refused { IfErr result (λ error.
        error ≡ PatternIDOverflow (min limit greatest_index) place) }
{
    let max = limit.min(PatternID::MAX.as_usize());
    if place > max {
        return Err(BuildError::PatternIDOverflow {
            max: max as u64,
            requested: place as u64,
        });
    }
    Ok(PatternID::new_unchecked(place))
}

/// The length of the pattern.
///
/// # Errors
///
/// `PatternTooLong` where it is above the limit.
fn length_of(pattern: PatternID, len: usize, limit: usize) -> Result<SmallIndex, BuildError>
    ensures accepted { IsOk result ↔ (len ≤ min limit greatest_index) }
    ensures value { IfOk result (λ index. index ≡ len) }
    ensures refused { IfErr result (λ error.
        error ≡ PatternTooLong pattern len (min limit greatest_index)) }
{
    let max = limit.min(SmallIndex::MAX.as_usize());
    if len > max {
        return Err(BuildError::PatternTooLong { pattern, len, max });
    }
    Ok(SmallIndex::new_unchecked(len))
}

/// One pattern more: its states, its number at the last of them, and borders around its bytes. A pattern that is left out
/// adds none.
fn add_pattern(
    table: &mut Table,
    borders: &mut ByteClassSet,
    settings: &Settings,
    pattern: &[u8],
    number: PatternID,
) -> Result<(), BuildError>
    requires sized { length pattern.now ≤ greatest_index }
    requires trie { AwaitsWord settings.now pattern.now table.old.states }
    ensures adds { OnOk result
        (AddsPattern settings.now pattern.now number table.old.states table.new.states) }
    ensures borders { OnOk result
        (AddsBorders settings.now pattern.now number table.old.states borders.old borders.new) }
    ensures limit { OnOk result (table.new.limit ≡ table.old.limit) }
    ensures refused { IfErr result
        (IsWordRefusal settings.now pattern.now table.old.limit table.old.states) }
{
    if let Some(end) = add_word(table, settings, pattern)? {
        set_bytes(borders, settings.ignore_case, pattern);
        table.add_match(end, number)?;
    }
    Ok(())
}

/// The trie of all patterns that are kept, which are taken one after another.
///
/// # Errors
///
/// `PatternIDOverflow`, `PatternTooLong` and `StateIDOverflow` where a number passes its limit, at the first pattern that
/// makes it do so; or `OutOfMemory`, at any time.
pub fn build_trie<'p, I: Iterator<Item = &'p [u8]> + Drop>(
    alloc: Global,
    settings: &Settings,
    patterns: I,
) -> Result<Trie, BuildError>
    requires can { I.can_next patterns }
    requires ends { IsFinite (I.remaining patterns) }
    ensures built { IfOk result (λ trie.
        OfDrained I.next_gives patterns settings.now (IsTrieMade settings.now trie)) }
    ensures limit { IfOk result (λ trie. trie.table.limit ≡ (in_force settings.now).id) }
    ensures within { IfOk result (λ trie.
        IsWithinLimit (in_force settings.now).id trie.table.states) }
    ensures stopped { IfErr result (IsTrieFailure I.next_gives patterns settings.now) }
{
    let limits = settings.limits;
    let mut trie = Trie {
        table: first_states(alloc, limits.id)?,
        lens: Vec::new(alloc),
        prefilter: PrefilterPatterns::new(alloc, settings),
        borders: ByteClassSet::empty(),
    };
    trie.table.facts();
    for pattern in patterns {
        let number = number_of(trie.lens.len(), limits.pattern)?;
        let len = length_of(number, pattern.len(), limits.length)?;
        let Ok(()) = trie.prefilter.add(pattern) else {
            return Err(BuildError::OutOfMemory);
        };
        add_pattern(
            &mut trie.table,
            &mut trie.borders,
            settings,
            pattern,
            number,
        )?;
        trie.table.facts();
        if trie.lens.push(len).is_err() {
            return Err(BuildError::OutOfMemory);
        }
    }
    Ok(trie)
}
