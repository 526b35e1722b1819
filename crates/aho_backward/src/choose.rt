//! The finds of a block: chosen in one pass forward, from what the states of a walk backward tell.

ghost use Rattle.std.specs.Prelude.{◌≡◌, ◌+◌, ◌<◌, ◌≤◌, ◌^◌, ℕ, List, IfOk, IfSome, OnOk, length};
ghost use Rattle.aho_core.specs.Laws.{Fits};
ghost use Rattle.aho_core.specs.Patterns.{Patterns};
ghost use Rattle.aho_backward.specs.Backward.{FindsUpTo, TellsBlock, told_back};

use aho_automaton::walk::Walk;
use aho_core::search::{Match, PatternID, Span, StateID};
use std::alloc::AllocError;

/// What a state tells at a place: the first pattern that it lists, which begins there.
#[inline(always)]
pub(crate) fn told_from<W: Walk>(
    walk: &W,
    given: &[PatternID],
    sid: StateID,
    place: usize,
) -> Option<Match>
    requires valid { W.Of.valid (W.of walk.now) sid }
    requires fits { (room : ℕ) × (place + room < 2 ^ 64)
        × Fits (W.Of.lengths (W.of walk.now)) room (W.Of.list (W.of walk.now) sid) }
    requires one_each { length given.now ≡ length (W.Of.lengths (W.of walk.now)) }
    ensures told { result ≡ told_back given.now (W.Of.lengths (W.of walk.now)) place
        (W.Of.list (W.of walk.now) sid) }
{
    if !walk.is_match(sid) {
        return None;
    }
    let number = walk.match_pattern(sid, 0);
    let range = Span {
        start: place,
        end: place + walk.pattern_len(number),
    };
    Some(Match::new(given[number.as_usize()], range))
}

/// Adds the finds that begin in a block, whose first place is where the finds before end. Answers the place where the search goes
/// on: the block's end or, where a find goes further, the end of that.
#[inline(always)]
pub(crate) fn choose<W: Walk>(
    walk: &W,
    given: &[PatternID],
    states: &[StateID],
    block: Span,
    found: &mut Vec<Match>,
) -> Result<usize, AllocError>
    requires ordered { block.start ≤ block.end }
    requires tells { (p : Patterns) × (haystack : List ℕ) × (length haystack < 2 ^ 64)
        × TellsBlock W.Of.Automaton (W.of walk.now) given.now block states.now p haystack }
    ensures finds { (p : Patterns) (haystack : List ℕ)
        → TellsBlock W.Of.Automaton (W.of walk.now) given.now block states.now p haystack
        → FindsUpTo p haystack block.start found.old.items
        → IfOk result (λ place. FindsUpTo p haystack place found.new.items) }
    ensures further { IfOk result (λ place. block.end ≤ place) }
    ensures within { (p : Patterns) (haystack : List ℕ)
        → TellsBlock W.Of.Automaton (W.of walk.now) given.now block states.now p haystack
        → IfOk result (λ place. place ≤ length haystack) }
{
    let mut at = block.start;
    while at < block.end {
        let sid = states[states.len() - 1 - (at - block.start)];
        match told_from(walk, given, sid, at) {
            Some(m) => {
                found.push(m)?;
                at = m.end();
            }
            None => at += 1,
        }
    }
    Ok(at)
}
