//! Automata to test, and what is read off them by their own calls.

ghost use Rattle.std.specs.Prelude.{◌≡◌};
ghost use Rattle.aho_core.specs.Patterns.{Patterns};

use aho_automaton::automaton::Automaton;
use aho_corasick::noncontiguous::{Builder, NFA};
use aho_core::search::{Anchored, MatchKind, StateID};
use bench::relinked::Relinked;
use std::alloc::{AllocError, Global};
use std::process::Abort;

/// How far from the start states have dense rows, as the tests have it.
pub(crate) const DEPTHS: [usize; 4] = [0, 1, 3, usize::MAX];

/// The automaton of these patterns.
pub(crate) fn nfa_of(
    rt: &impl Abort,
    alloc: Global,
    words: &[&[u8]],
    kind: MatchKind,
    ignore_case: bool,
) -> NFA
    ensures of { (p : Patterns) × ⟦<NFA as Automaton>⟧.is_of result p }
{
    nfa_by(rt, alloc, &builder_of(kind, ignore_case), words)
}

/// A builder of this match kind and case rule.
pub(crate) fn builder_of(kind: MatchKind, ignore_case: bool) -> Builder {
    let mut builder = Builder::new();
    builder.match_kind(kind).ascii_case_insensitive(ignore_case);
    builder
}

/// The automaton of these patterns, which holds a prefilter only where this is wanted, and rows up to this depth.
pub(crate) fn nfa_with(
    rt: &impl Abort,
    alloc: Global,
    words: &[&[u8]],
    kind: MatchKind,
    ignore_case: bool,
    prefilter: bool,
    dense_depth: usize,
) -> NFA
    ensures of { (p : Patterns) × ⟦<NFA as Automaton>⟧.is_of result p }
{
    let builder = builder_with(kind, ignore_case, prefilter, dense_depth);
    nfa_by(rt, alloc, &builder, words)
}

/// A builder of this match kind and case rule, that keeps a prefilter only where this is wanted, and rows up to this depth.
fn builder_with(
    kind: MatchKind,
    ignore_case: bool,
    prefilter: bool,
    dense_depth: usize,
) -> Builder {
    let mut builder = builder_of(kind, ignore_case);
    builder.prefilter(prefilter).dense_depth(dense_depth);
    builder
}

/// The automaton that a builder makes of these patterns.
pub(crate) fn nfa_by(rt: &impl Abort, alloc: Global, builder: &Builder, words: &[&[u8]]) -> NFA
    ensures of { (p : Patterns) × ⟦<NFA as Automaton>⟧.is_of result p }
{
    let nfa = builder.build(alloc, words.iter().copied());
    nfa.expect(rt, "an automaton")
}

/// The automaton of what this one tells of its states.
pub(crate) fn relinked_of(rt: &impl Abort, alloc: Global, nfa: &NFA) -> Relinked
    requires of { (p : Patterns) × ⟦<NFA as Automaton>⟧.is_of nfa.now p }
    ensures of { (p : Patterns) × ⟦<Relinked as Automaton>⟧.is_of result p }
{
    Relinked::new(alloc, nfa).expect(rt, "an automaton")
}

/// The start of an anchoring.
pub(crate) fn start_of<A: Automaton>(rt: &impl Abort, automaton: &A, anchored: Anchored) -> StateID
    ensures valid { A.valid automaton.now result }
    ensures shallow { A.depth automaton.now result ≡ 0 }
{
    let start = automaton.start_state(anchored);
    start.expect(rt, "a start")
}

/// The state after these bytes.
pub(crate) fn state_after<A: Automaton>(
    rt: &impl Abort,
    automaton: &A,
    anchored: Anchored,
    word: &[u8],
) -> StateID
    ensures valid { A.valid automaton.now result }
{
    let mut sid = start_of(rt, automaton, anchored);
    for byte in word {
        sid = automaton.next_state(anchored, sid, *byte);
    }
    sid
}

/// The numbers of the patterns that a state lists, in its order.
pub(crate) fn listed<A: Automaton>(
    alloc: Global,
    automaton: &A,
    sid: StateID,
) -> Result<Vec<usize>, AllocError>
    requires valid { A.valid automaton.now sid }
{
    let mut numbers = Vec::new(alloc);
    for index in 0..automaton.match_len(sid) {
        let pattern = automaton.match_pattern(sid, index);
        numbers.push(pattern.as_usize())?;
    }
    Ok(numbers)
}
