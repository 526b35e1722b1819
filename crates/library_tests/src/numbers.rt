//! The numbers of states once a build is over, and what is told by them.

ghost use Rattle.std.specs.Prelude.{◌≡◌, ◌<◌, length};

use crate::asserts::{assert_same, assert_same_in};
use crate::automata::{nfa_with, state_after};
use aho_automaton::automaton::Automaton;
use aho_build::special::Special;
use aho_core::search::{Anchored, MatchKind, SmallIndex, StateID, Work};
use aho_table::links::{DEAD, FAIL, Table};
use aho_table::remapper::Remapper;
use std::alloc::Global;
use std::process::Abort;

/// The bytes that lead to a state from the unanchored start, its number, and whether it is a match and special.
type Reached = (&'static [u8], usize, bool, bool);

/// An automaton, the greatest number of a special state and of a match state, its starts, and some of its states.
struct Numbers {
    kind: MatchKind,
    patterns: &'static [&'static [u8]],
    prefilter: bool,
    special: [usize; 4],
    reached: &'static [Reached],
}

const NUMBERS: &[Numbers] = &[
    Numbers {
        kind: MatchKind::Standard,
        patterns: &[b"b", b"abc", b"abcd"],
        prefilter: false,
        special: [5, 5, 6, 7],
        reached: &[
            (b"", 6, false, false),
            (b"a", 8, false, false),
            (b"ab", 5, true, true),
            (b"abcd", 3, true, true),
        ],
    },
    Numbers {
        kind: MatchKind::LeftmostLongest,
        patterns: &[b"xyz", b""],
        prefilter: true,
        special: [4, 4, 3, 4],
        reached: &[
            (b"", 3, true, true),
            (b"xyz", 2, true, true),
            (b"z", 0, false, true),
        ],
    },
    Numbers {
        kind: MatchKind::LeftmostFirst,
        patterns: &[b"abc"],
        prefilter: false,
        special: [2, 2, 3, 4],
        reached: &[(b"", 3, false, false), (b"abc", 2, true, true)],
    },
    Numbers {
        kind: MatchKind::LeftmostFirst,
        patterns: &[b"abc"],
        prefilter: true,
        special: [4, 2, 3, 4],
        reached: &[(b"", 3, false, true), (b"abc", 2, true, true)],
    },
    Numbers {
        kind: MatchKind::Standard,
        patterns: &[],
        prefilter: true,
        special: [1, 1, 2, 3],
        reached: &[(b"x", 2, false, false)],
    },
];

fn numbers_of(special: &Special) -> [usize; 4] {
    [
        special.max_special_id.as_usize(),
        special.max_match_id.as_usize(),
        special.start_unanchored_id.as_usize(),
        special.start_anchored_id.as_usize(),
    ]
}

#[test]
fn match_states_come_before_the_starts(rt: HostRuntime) {
    for numbers in NUMBERS {
        for depth in [0, 3] {
            let case = (numbers.patterns, numbers.prefilter, depth);
            let nfa = nfa_with(
                &rt,
                rt.alloc(),
                numbers.patterns,
                numbers.kind,
                false,
                numbers.prefilter,
                depth,
            );
            assert_same_in(&rt, &case, numbers_of(nfa.special()), numbers.special);
            for (word, number, is_match, is_special) in numbers.reached {
                let sid = state_after(&rt, &nfa, Anchored::No, word);
                assert_same_in(
                    &rt,
                    (&word, &case),
                    (sid.as_usize(), nfa.is_match(sid), nfa.is_special(sid)),
                    (*number, *is_match, *is_special),
                );
            }
        }
    }
}

/// Five states, each at the depth of its number; the third is its own link, and leads by a byte to the fifth.
fn five_states(rt: &impl Abort, alloc: Global) -> Table
    ensures five { length result.states ≡ 5 }
{
    let mut table = Table::new(alloc, 9).expect(rt, "an empty table");
    for depth in 0..5 {
        let depth = SmallIndex::new(depth).expect(rt, "a small index");
        table.add_state(depth).expect(rt, "a state");
    }
    assert_eq!(rt; table.len(), 5);
    table.set_fail(number(2), number(2));
    table
        .set(number(2), b'x', number(4))
        .expect(rt, "a transition");
    assert_eq!(rt; table.len(), 5);
    table
}

fn number(index: usize) -> StateID
    requires small { index < 5 }
    ensures number { result ≡ index }
{
    StateID::new_unchecked(index)
}

/// The third state and the fifth change places, then the fifth and the fourth.
fn move_three(mut remapper: Remapper, table: &mut Table)
    requires as_many { length remapper ≡ 5 }
    requires five { length table.old.states ≡ 5 }
{
    remapper.swap(table, number(2), number(4));
    remapper.swap(table, number(4), number(3));
    remapper.remap(table);
}

/// The numbers that the five states had at first, by those that they have then.
const DEPTHS: [usize; 5] = [0, 1, 4, 2, 3];

#[test]
fn a_table_is_named_by_places(rt: HostRuntime) {
    let mut table = five_states(&rt, rt.alloc());
    let remapper = Remapper::new(rt.alloc(), &table).expect(&rt, "memory");
    move_three(remapper, &mut table);
    assert_eq!(rt; table.len(), 5);
    for place in 0..5 {
        assert_same(&rt, table.depth(number(place)), DEPTHS[place]);
    }
    let third = number(3);
    assert_same(&rt, table.fail(third), third);
    assert_same(&rt, table.follow(third, b'x', &mut Work::new()), number(2));
    assert_same(&rt, table.fail(DEAD), FAIL);
}
