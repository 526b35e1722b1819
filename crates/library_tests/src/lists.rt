//! Lists of two stores, changed in turn.

ghost use Rattle.std.specs.Prelude.{◌≡◌};
ghost use Rattle.aho_table.specs.Lists.{IsList};

use crate::asserts::assert_same;
use aho_core::error::BuildError;
use aho_core::search::{PatternID, StateID};
use aho_table::lists::matches::MatchLists;
use aho_table::lists::transitions::{FAIL, TransitionLists};
use std::process::Abort;

fn state(rt: &impl Abort, number: usize) -> StateID {
    StateID::new(number).expect(rt, "a state's number")
}

fn pattern(rt: &impl Abort, number: usize) -> PatternID {
    PatternID::new(number).expect(rt, "a pattern's number")
}

fn overflow(max: u32) -> BuildError {
    BuildError::StateIDOverflow {
        max: u64::from(max),
        requested: u64::from(max) + 1,
    }
}

#[test]
fn a_list_rises_by_byte(rt: HostRuntime) {
    let mut store = TransitionLists::new(rt.alloc(), 4);
    let list = store
        .set(StateID::ZERO, b'm', state(&rt, 7))
        .expect(&rt, "m");
    let list = store.set(list, b'z', state(&rt, 8)).expect(&rt, "z");
    let list = store.set(list, b'a', state(&rt, 9)).expect(&rt, "a");
    let list = store.set(list, b'n', state(&rt, 5)).expect(&rt, "n");
    let list = store.set(list, b'm', state(&rt, 6)).expect(&rt, "m again");
    assert_eq!(rt; store.len(), 5);
    assert_same(&rt, store.follow(list, b'a'), state(&rt, 9));
    assert_same(&rt, store.follow(list, b'm'), state(&rt, 6));
    assert_same(&rt, store.follow(list, b'b'), FAIL);
    let mut walk = store.iter(list);
    assert_same(&rt, walk.next(), Some((b'a', state(&rt, 9))));
    assert_same(&rt, walk.next(), Some((b'm', state(&rt, 6))));
    assert_same(&rt, walk.next(), Some((b'n', state(&rt, 5))));
    assert_same(&rt, walk.next(), Some((b'z', state(&rt, 8))));
    assert_same(&rt, walk.next(), None);
    assert_same(&rt, store.set(list, b'b', FAIL), Err(overflow(4)));
    assert_eq!(rt; store.len(), 5);
}

#[test]
fn a_list_is_read_by_index(rt: HostRuntime) {
    let mut store = TransitionLists::new(rt.alloc(), 9);
    let list = store
        .set(StateID::ZERO, b'd', state(&rt, 7))
        .expect(&rt, "d");
    let list = store.set(list, b'e', state(&rt, 8)).expect(&rt, "e");
    assert_same(&rt, store.len_of(list), 2);
    assert_same(&rt, store.get(list, 1), (b'e', state(&rt, 8)));
    let list = store.set(list, b'a', state(&rt, 9)).expect(&rt, "a");
    assert_same(&rt, store.len_of(list), 3);
    assert_same(&rt, store.get(list, 0), (b'a', state(&rt, 9)));
    assert_same(&rt, store.get(list, 2), (b'e', state(&rt, 8)));
    assert_same(&rt, store.len_of(StateID::ZERO), 0);
    let clone = store.try_clone(rt.alloc()).expect(&rt, "memory");
    assert_eq!(rt; clone.len(), 4);
}

#[test]
fn patterns_stand_in_their_order(rt: HostRuntime) {
    let mut store = MatchLists::new(rt.alloc(), 3);
    let list = store.push(0, pattern(&rt, 4)).expect(&rt, "a pattern");
    let list = store.push(list, pattern(&rt, 2)).expect(&rt, "another");
    let list = store.push(list, pattern(&rt, 4)).expect(&rt, "a third");
    assert_eq!(rt; store.len(), 4);
    assert_same(&rt, store.len_of(list), 3);
    assert_same(&rt, store.get(list, 1), pattern(&rt, 2));
    let mut walk = store.iter(list);
    assert_same(&rt, walk.next(), Some(pattern(&rt, 4)));
    assert_same(&rt, walk.next(), Some(pattern(&rt, 2)));
    assert_same(&rt, walk.next(), Some(pattern(&rt, 4)));
    assert_same(&rt, walk.next(), None);
    assert_same(&rt, store.push(list, pattern(&rt, 1)), Err(overflow(3)));
    let clone = store.try_clone(rt.alloc()).expect(&rt, "memory");
    assert_eq!(rt; clone.len(), 4);
}
