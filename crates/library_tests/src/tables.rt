//! What the tables of a few states answer.

ghost use Rattle.std.specs.Prelude.{◌≡◌, ◌<◌, [], length};
ghost use Rattle.std.specs.Iterator.{IsFinite};
ghost use Rattle.aho_table.specs.Table.{fail_id, state_at};

use crate::asserts::assert_same;
use aho_core::error::BuildError;
use aho_core::search::{PatternID, SmallIndex, StateID, Work};
use aho_table::alphabet::ByteClassSet;
use aho_table::links::{DEAD, FAIL, Table};
use std::alloc::{AllocError, Global};
use std::process::Abort;

fn index(rt: &impl Abort, number: usize) -> SmallIndex {
    SmallIndex::new(number).expect(rt, "a small index")
}

fn pattern(rt: &impl Abort, number: usize) -> PatternID {
    PatternID::new(number).expect(rt, "a pattern's number")
}

// A table of two states, with three more entries in each of its tables at most.
fn two_states(rt: &impl Abort, alloc: Global) -> Table
    ensures two { length result.states ≡ 2 }
    ensures bare { (state_at result.states fail_id).transitions ≡ [] }
{
    let mut table = Table::new(alloc, 3).expect(rt, "an empty table");
    assert!(rt; table.is_empty());
    let dead = table.add_state(index(rt, 0)).expect(rt, "a state");
    let fail = table.add_state(index(rt, 3)).expect(rt, "another state");
    assert_same(rt, dead, DEAD);
    assert_same(rt, fail, FAIL);
    assert_eq!(rt; table.len(), 2);
    table
}

fn lead(rt: &impl Abort, table: &mut Table, byte: u8, next: StateID)
    requires two { length table.old.states ≡ 2 }
    ensures two { length table.new.states ≡ 2 }
{
    table.set(FAIL, byte, next).expect(rt, "a transition");
}

#[test]
fn states_answer_what_was_listed(rt: HostRuntime) {
    assert_same(&rt, DEAD.as_usize(), 0);
    assert_same(&rt, FAIL.as_usize(), 1);
    let mut table = two_states(&rt, rt.alloc());
    assert!(rt; !table.is_empty());
    assert_same(&rt, table.fail(FAIL), FAIL);
    table.set_fail(FAIL, DEAD);
    assert_same(&rt, table.fail(FAIL), DEAD);
    assert_same(&rt, table.depth(FAIL), 3);
    lead(&rt, &mut table, b'm', FAIL);
    lead(&rt, &mut table, b'z', DEAD);
    lead(&rt, &mut table, b'a', FAIL);
    lead(&rt, &mut table, b'm', DEAD);
    let mut work = Work::new();
    assert_same(&rt, table.follow(FAIL, b'a', &mut work), FAIL);
    assert_same(&rt, table.follow(FAIL, b'm', &mut work), DEAD);
    assert_same(&rt, table.follow(FAIL, b'n', &mut work), FAIL);
    assert_same(&rt, table.follow(DEAD, b'z', &mut work), FAIL);
    assert_same(&rt, work.count(), 4);
    assert_eq!(rt; table.transitions_len(FAIL), 3);
    assert_same(&rt, table.transition(FAIL, 1), (b'm', DEAD));
    assert_same(&rt, table.transitions_count(), 4);
}

// The pairs that an iterator gives, in its order.
fn collected<I: Iterator<Item = (u8, StateID)> + Drop>(
    alloc: Global,
    pairs: I,
) -> Result<Vec<(u8, StateID)>, AllocError>
    requires can { I.can_next pairs }
    requires ends { IsFinite (I.remaining pairs) }
{
    pairs.collect(alloc)
}

// The transitions of FAIL are given from the least byte, and DEAD has none.
fn transitions_are_given(rt: &impl Abort, alloc: Global, table: &mut Table)
    requires two { length table.old.states ≡ 2 }
    ensures two { length table.new.states ≡ 2 }
{
    lead(rt, table, b'm', FAIL);
    lead(rt, table, b'z', DEAD);
    lead(rt, table, b'a', DEAD);
    let pairs = collected(alloc, table.transitions(FAIL)).expect(rt, "memory");
    let wanted = [(b'a', DEAD), (b'm', FAIL), (b'z', DEAD)];
    assert_same(rt, pairs.as_slice(), wanted.as_slice());
    let none = collected(alloc, table.transitions(DEAD)).expect(rt, "memory");
    assert!(rt; none.is_empty());
}

// The patterns that a state lists, as they are iterated.
fn iterated(rt: &impl Abort, alloc: Global, table: &Table, sid: StateID) -> Vec<PatternID>
    requires within { sid < length table.now.states }
{
    table.matches(sid).collect(alloc).expect(rt, "memory")
}

// DEAD lists these two patterns, and FAIL none.
fn patterns_are_given(
    rt: &impl Abort,
    alloc: Global,
    table: &Table,
    first: PatternID,
    second: PatternID,
)
    requires two { length table.now.states ≡ 2 }
{
    let patterns = iterated(rt, alloc, table, DEAD);
    assert_same(rt, patterns.as_slice(), [first, second].as_slice());
    assert!(rt; iterated(rt, alloc, table, FAIL).is_empty());
}

// The counts of these patterns.
fn patterns_are_counted(rt: &impl Abort, table: &Table, second: PatternID)
    requires two { length table.now.states ≡ 2 }
{
    assert!(rt; table.has_matches(DEAD));
    assert!(rt; !table.has_matches(FAIL));
    assert_eq!(rt; table.match_len(DEAD), 2);
    assert_same(rt, table.match_pattern(DEAD, 1), second);
    assert_same(rt, table.matches_count(), 3);
}

#[test]
fn iterators_give_what_was_listed(rt: HostRuntime) {
    let mut table = two_states(&rt, rt.alloc());
    transitions_are_given(&rt, rt.alloc(), &mut table);
    let (first, second) = (pattern(&rt, 7), pattern(&rt, 2));
    table.add_match(DEAD, first).expect(&rt, "a pattern");
    table.add_match(DEAD, second).expect(&rt, "another pattern");
    patterns_are_given(&rt, rt.alloc(), &table, first, second);
    patterns_are_counted(&rt, &table, second);
}

// The state lists these patterns.
fn lists_these(rt: &impl Abort, alloc: Global, table: &Table, sid: StateID, wanted: &[PatternID])
    requires within { sid < length table.now.states }
{
    let patterns = iterated(rt, alloc, table, sid);
    assert_same(rt, patterns.as_slice(), wanted);
}

// A table of two states, where FAIL lists what DEAD lists.
fn sharing(rt: &impl Abort, alloc: Global, shared: PatternID) -> Table
    ensures two { length result.states ≡ 2 }
{
    let mut table = Table::new(alloc, 9).expect(rt, "an empty table");
    table.add_state(index(rt, 0)).expect(rt, "a state");
    table.add_state(index(rt, 1)).expect(rt, "another state");
    table.add_match(DEAD, shared).expect(rt, "a pattern");
    let appended = table.append_matches(FAIL, DEAD);
    appended.expect(rt, "a shared list");
    table
}

// One of them lists one pattern more, and then the other.
fn owners_grow_apart(rt: &impl Abort, alloc: Global, one: StateID, other: StateID)
    requires one { one < 2 }
    requires other { other < 2 }
{
    let (first, second, third) = (pattern(rt, 7), pattern(rt, 2), pattern(rt, 5));
    let mut table = sharing(rt, alloc, first);
    table.add_match(one, second).expect(rt, "a pattern");
    lists_these(rt, alloc, &table, one, [first, second].as_slice());
    lists_these(rt, alloc, &table, other, [first].as_slice());
    let added = table.add_match(other, third);
    added.expect(rt, "another pattern");
    lists_these(rt, alloc, &table, one, [first, second].as_slice());
    lists_these(rt, alloc, &table, other, [first, third].as_slice());
}

#[test]
fn states_share_a_list(rt: HostRuntime) {
    owners_grow_apart(&rt, rt.alloc(), DEAD, FAIL);
    owners_grow_apart(&rt, rt.alloc(), FAIL, DEAD);
}

#[test]
fn a_state_appends_what_it_shares(rt: HostRuntime) {
    let (first, second) = (pattern(&rt, 7), pattern(&rt, 2));
    let mut table = sharing(&rt, rt.alloc(), first);
    let appended = table.append_matches(DEAD, FAIL);
    appended.expect(&rt, "the list once more");
    lists_these(&rt, rt.alloc(), &table, DEAD, [first, first].as_slice());
    table.add_match(FAIL, second).expect(&rt, "a pattern");
    lists_these(&rt, rt.alloc(), &table, DEAD, [first, first].as_slice());
    lists_these(&rt, rt.alloc(), &table, FAIL, [first, second].as_slice());
}

#[test]
fn a_row_starts_within_the_limit(rt: HostRuntime) {
    let mut table = two_states(&rt, rt.alloc());
    let mut borders = ByteClassSet::empty();
    borders.set_range(b'a', b'a');
    borders.set_range(0, 9);
    let classes = borders.byte_classes();
    assert_same(&rt, classes.alphabet_len(), 4);
    assert_same(
        &rt,
        (
            classes.get(9),
            classes.get(10),
            classes.get(b'a'),
            classes.get(255),
        ),
        (0, 1, 2, 3),
    );
    table.set_byte_classes(classes);
    table.add_row(FAIL).expect(&rt, "the row at 1");
    assert_same(&rt, table.dense_len(), 5);
    let above = BuildError::StateIDOverflow {
        max: 3,
        requested: 5,
    };
    assert!(rt; table.add_row(FAIL) == Err(above));
    let mut work = Work::new();
    assert_same(&rt, table.follow(FAIL, b'a', &mut work), FAIL);
    lead(&rt, &mut table, b'a', DEAD);
    assert_same(&rt, table.follow(FAIL, b'a', &mut work), DEAD);
    assert_same(&rt, (work.count(), table.dense_len()), (2, 5));
}

// The refusal of the entry past the third.
fn overflow() -> BuildError {
    BuildError::StateIDOverflow {
        max: 3,
        requested: 4,
    }
}

// A fourth transition is refused, and one in the place of another is not.
fn transitions_are_full(rt: &impl Abort, table: &mut Table)
    requires two { length table.old.states ≡ 2 }
    ensures two { length table.new.states ≡ 2 }
{
    lead(rt, table, b'c', DEAD);
    lead(rt, table, b'a', DEAD);
    lead(rt, table, b'b', DEAD);
    assert_same(rt, table.set(FAIL, b'd', DEAD), Err(overflow()));
    assert_same(rt, table.transitions_len(FAIL), 3);
    lead(rt, table, b'b', FAIL);
    assert_eq!(rt; table.transitions_len(FAIL), 3);
    assert_same(rt, table.transition(FAIL, 1), (b'b', FAIL));
}

// A fourth pattern is refused.
fn patterns_are_full(rt: &impl Abort, table: &mut Table)
    requires two { length table.old.states ≡ 2 }
    ensures two { length table.new.states ≡ 2 }
{
    for _ in 0..3 {
        assert_eq!(rt; table.len(), 2);
        let added = table.add_match(FAIL, pattern(rt, 5));
        added.expect(rt, "a pattern");
    }
    assert_eq!(rt; table.len(), 2);
    assert_same(rt, table.add_match(FAIL, pattern(rt, 5)), Err(overflow()));
    assert_same(rt, table.match_len(FAIL), 3);
    assert_eq!(rt; table.len(), 2);
}

// A fifth state is refused.
fn states_are_full(rt: &impl Abort, table: &mut Table)
    ensures four { length table.new.states ≡ 4 }
{
    table.add_state(index(rt, 1)).expect(rt, "a third state");
    table.add_state(index(rt, 1)).expect(rt, "a fourth state");
    assert_same(rt, table.add_state(index(rt, 1)), Err(overflow()));
    assert_eq!(rt; table.len(), 4);
    assert_same(rt, table.match_len(FAIL), 3);
}

// A clone has what the table has.
fn clone_is_as_full(rt: &impl Abort, table: &Table) {
    let clone = table.try_clone().expect(rt, "memory");
    assert_eq!(rt; clone.len(), 4);
    assert_eq!(rt; clone.transitions_len(FAIL), 3);
    assert_same(rt, clone.transition(FAIL, 1), (b'b', FAIL));
    assert_same(rt, clone.match_len(FAIL), 3);
}

#[test]
fn full_tables_stay_as_they_were(rt: HostRuntime) {
    let mut table = two_states(&rt, rt.alloc());
    transitions_are_full(&rt, &mut table);
    patterns_are_full(&rt, &mut table);
    states_are_full(&rt, &mut table);
    clone_is_as_full(&rt, &table);
}
