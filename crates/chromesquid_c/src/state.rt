//! The states of a searcher's automaton, for who reads bytes one by one.

ghost use Rattle.std.specs.Prelude.{◌≡◌, ◌≢◌, ◌<◌, ◌≤◌, [], Some, length, slice_get, true};
ghost use Rattle.aho_core.specs.Numbers.{greatest_index};
ghost use Rattle.aho_core.specs.Steps.{GoesOn};
ghost use Rattle.chromesquid.specs.Rules.{Answers, ForItsPatterns, RefusesSearch};
ghost use Rattle.chromesquid_c.specs.Evidence.{IsOfSome};
ghost use Rattle.chromesquid_c.specs.Holding.{HoldsSame, IfAnswered, IfHeld, IfRefused, IsEmpty};
ghost use Rattle.chromesquid_c.specs.States.{TellsByStates, IsBegunBy, HasState, IsHeldAfter, next_told, patterns_listed, state_told};
ghost use Rattle.chromesquid_c.specs.Telling.{anchoring_by};

use crate::handle::CsSearcher;
use crate::options::CsState;
use crate::search::anchoring_of;
use crate::status::{DONE, NO_PATTERN, NO_SEARCHER, REFUSED};
use chromesquid::{AhoCorasick, Automaton, StateID};

/// The state of a number.
fn state_of(number: u32) -> StateID
    requires within { number ≤ greatest_index }
    ensures same { result ≡ number }
{
    StateID::new_unchecked(number as usize)
}

/// Puts the state in which a search begins, where the searcher answers such searches.
#[tactic(auto, using(crate::proofs::Laws::tells_by_states))]
fn start_by(searcher: &AhoCorasick, anchored: bool, state: &mut u32) -> u32
    requires some { IsOfSome searcher.now }
    ensures begun { result ≡ DONE → IsBegunBy searcher.now (anchoring_by anchored) state.new }
    ensures of { result ≡ DONE → HasState searcher.now state.new }
    ensures held { ForItsPatterns searcher.now (λ p.
        result ≡ DONE → IsHeldAfter searcher.now p (anchoring_by anchored) [] state.new) }
    ensures laws { ForItsPatterns searcher.now (TellsByStates searcher.now) }
    ensures answered { Answers searcher.now (anchoring_by anchored) → result ≡ DONE }
    ensures refused { RefusesSearch searcher.now (anchoring_by anchored) → result ≡ REFUSED }
    ensures kept { result ≢ DONE → state.new ≡ state.old }
{
    match searcher.start_state(anchoring_of(anchored)) {
        Ok(start) => {
            *state = start.as_usize() as u32;
            DONE
        }
        Err(_) => REFUSED,
    }
}

/// Puts the state in which a search begins into `state`, and answers 0.
///
/// # Errors
///
/// 2 where there is no searcher, 3 where the searcher was not built for searches of this anchoring. `state` is then as it was.
#[unsafe(no_mangle)]
pub extern "C" fn cs_start_state(searcher: &mut CsSearcher, anchored: bool, state: &mut u32) -> u32
    ensures begun { IfHeld searcher.old (λ s.
        result ≡ DONE → IsBegunBy s (anchoring_by anchored) state.new) }
    ensures of { IfHeld searcher.old (λ s. result ≡ DONE → HasState s state.new) }
    ensures held { IfHeld searcher.old (λ s. ForItsPatterns s (λ p.
        result ≡ DONE → IsHeldAfter s p (anchoring_by anchored) [] state.new)) }
    ensures laws { IfHeld searcher.old (λ s. ForItsPatterns s (TellsByStates s)) }
    ensures answered { IfAnswered searcher.old (anchoring_by anchored) (result ≡ DONE) }
    ensures refused { IfRefused searcher.old (anchoring_by anchored) (result ≡ REFUSED) }
    ensures empty { IsEmpty searcher.old → result ≡ NO_SEARCHER }
    ensures kept { result ≢ DONE → state.new ≡ state.old }
    ensures same { HoldsSame searcher.old searcher.new }
{
    if searcher.full {
        start_by(&searcher.held.get().searcher, anchored, state)
    } else {
        NO_SEARCHER
    }
}

/// The state behind a byte.
fn next_by(searcher: &AhoCorasick, anchored: bool, state: u32, byte: u8) -> u32
    requires of { HasState searcher.now state }
    ensures next { result ≡ next_told searcher.now (anchoring_by anchored) state byte }
    ensures of { HasState searcher.now result }
    ensures held { ForItsPatterns searcher.now (λ p.
        GoesOn (IsHeldAfter searcher.now p (anchoring_by anchored)) state byte result) }
    ensures dead { (state_told searcher.now state).is_dead ≡ true
        → (state_told searcher.now result).is_dead ≡ true }
{
    let next = searcher.next_state(anchoring_of(anchored), state_of(state), byte);
    next.as_usize() as u32
}

/// Puts the state behind one more byte into `next`, and answers 0. A search that is anchored is so at each of its bytes.
///
/// # Errors
///
/// 2 where there is no searcher. `next` is then as it was.
#[unsafe(no_mangle)]
pub extern "C" fn cs_next_state(
    searcher: &mut CsSearcher,
    anchored: bool,
    state: u32,
    byte: u8,
    next: &mut u32,
) -> u32
    requires of { IfHeld searcher.old (λ s. HasState s state) }
    ensures next { IfHeld searcher.old (λ s.
        next.new ≡ next_told s (anchoring_by anchored) state byte) }
    ensures of { IfHeld searcher.old (λ s. HasState s next.new) }
    ensures held { IfHeld searcher.old (λ s. ForItsPatterns s (λ p.
        GoesOn (IsHeldAfter s p (anchoring_by anchored)) state byte next.new)) }
    ensures dead { IfHeld searcher.old (λ s. (state_told s state).is_dead ≡ true
        → (state_told s next.new).is_dead ≡ true) }
    ensures done { IfHeld searcher.old (λ _. result ≡ DONE) }
    ensures empty { IsEmpty searcher.old → result ≡ NO_SEARCHER }
    ensures kept { result ≢ DONE → next.new ≡ next.old }
    ensures same { HoldsSame searcher.old searcher.new }
{
    if searcher.full {
        *next = next_by(&searcher.held.get().searcher, anchored, state, byte);
        DONE
    } else {
        NO_SEARCHER
    }
}

/// What is told of a state.
fn state_told(searcher: &AhoCorasick, state: u32) -> CsState
    requires of { HasState searcher.now state }
    ensures told { result ≡ state_told searcher.now state }
{
    let state = state_of(state);
    let patterns = searcher.match_len(state);
    CsState {
        is_dead: searcher.is_dead(state),
        is_match: patterns > 0,
        is_start: searcher.is_start(state),
        is_special: searcher.is_special(state),
        patterns,
    }
}

/// Puts what is told of a state into `out`, and answers 0.
///
/// # Errors
///
/// 2 where there is no searcher. `out` is then as it was.
#[unsafe(no_mangle)]
pub extern "C" fn cs_state_is(searcher: &mut CsSearcher, state: u32, out: &mut CsState) -> u32
    requires of { IfHeld searcher.old (λ s. HasState s state) }
    ensures told { IfHeld searcher.old (λ s. out.new ≡ state_told s state) }
    ensures done { IfHeld searcher.old (λ _. result ≡ DONE) }
    ensures empty { IsEmpty searcher.old → result ≡ NO_SEARCHER }
    ensures kept { result ≢ DONE → out.new ≡ out.old }
    ensures same { HoldsSame searcher.old searcher.new }
{
    if searcher.full {
        *out = state_told(&searcher.held.get().searcher, state);
        DONE
    } else {
        NO_SEARCHER
    }
}

/// Puts a pattern that a state lists, where it lists so many.
fn pattern_by(searcher: &AhoCorasick, state: u32, index: usize, pattern: &mut usize) -> u32
    requires of { HasState searcher.now state }
    ensures listed { result ≡ DONE
        → slice_get (patterns_listed searcher.now state) index ≡ Some pattern.new }
    ensures done { index < length (patterns_listed searcher.now state) → result ≡ DONE }
    ensures none { length (patterns_listed searcher.now state) ≤ index → result ≡ NO_PATTERN }
    ensures kept { result ≢ DONE → pattern.new ≡ pattern.old }
{
    let state = state_of(state);
    if index >= searcher.match_len(state) {
        return NO_PATTERN;
    }
    *pattern = searcher.match_pattern(state, index).as_usize();
    DONE
}

/// Puts the number of a pattern that a state lists into `pattern`, by its place among these from 0 on, and answers 0. The best that
/// ends where the state is held stands first; of kind Standard they are all that end there, the longest first, then by number.
///
/// # Errors
///
/// 2 where there is no searcher, 16 where the state does not list so many. `pattern` is then as it was.
#[unsafe(no_mangle)]
pub extern "C" fn cs_match_pattern(
    searcher: &mut CsSearcher,
    state: u32,
    index: usize,
    pattern: &mut usize,
) -> u32
    requires of { IfHeld searcher.old (λ s. HasState s state) }
    ensures listed { IfHeld searcher.old (λ s. result ≡ DONE
        → slice_get (patterns_listed s state) index ≡ Some pattern.new) }
    ensures done { IfHeld searcher.old (λ s.
        index < length (patterns_listed s state) → result ≡ DONE) }
    ensures none { IfHeld searcher.old (λ s.
        length (patterns_listed s state) ≤ index → result ≡ NO_PATTERN) }
    ensures empty { IsEmpty searcher.old → result ≡ NO_SEARCHER }
    ensures kept { result ≢ DONE → pattern.new ≡ pattern.old }
    ensures same { HoldsSame searcher.old searcher.new }
{
    if searcher.full {
        pattern_by(&searcher.held.get().searcher, state, index, pattern)
    } else {
        NO_SEARCHER
    }
}
