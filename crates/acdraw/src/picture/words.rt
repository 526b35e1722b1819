//! The words of states: a state's word is that of a state which is nearer to the start, with the byte that leads on.

ghost use Rattle.std.specs.Prelude.{◌<◌, length, IfOk, IfSome, IsNone};
ghost use Rattle.aho_corasick.specs.ReadOut.{states_of};
ghost use Rattle.acdraw.specs.Words.{IsLastTo, IsReachedBy, IsUnreached, IsWordOf, Leads};

use aho_corasick::links::Transitions;
use aho_corasick::noncontiguous::NFA;
use aho_core::search::StateID;
use std::alloc::{AllocError, Global};

/// How a state is reached: from a state that is nearer to the start, by a byte.
#[derive(Clone, Copy)]
struct Reached {
    from: StateID,
    byte: u8,
}

/// The word of a state.
pub fn word_of(alloc: Global, nfa: &NFA, sid: StateID) -> Result<Vec<u8>, AllocError>
    requires within { sid < length (states_of nfa.now) }
    ensures word { IfOk result (λ word. IsWordOf nfa.now sid word.items) }
{
    let mut word = Vec::new(alloc);
    let mut at = sid;
    while let Some(reached) = reached_of(nfa, at) {
        word.push(reached.byte)?;
        at = reached.from;
    }
    word.reverse();
    Ok(word)
}

/// How a state is reached, if it is: the starts, DEAD and FAIL are not.
fn reached_of(nfa: &NFA, sid: StateID) -> Option<Reached>
    requires within { sid < length (states_of nfa.now) }
    ensures reached { IfSome result (IsReachedBy (states_of nfa.now) sid) }
    ensures unreached { IsNone result → IsUnreached (states_of nfa.now) sid }
{
    for index in 0..nfa.states_len() {
        let from = StateID::new_unchecked(index);
        if let Some(byte) = leading_byte(nfa, from, sid) {
            return Some(Reached { from, byte });
        }
    }
    None
}

/// The last byte by which a state leads to another, where it is nearer to the start. Under the case rule that is the lower
/// one of a letter's two cases.
fn leading_byte(nfa: &NFA, from: StateID, sid: StateID) -> Option<u8>
    requires from_within { from < length (states_of nfa.now) }
    requires within { sid < length (states_of nfa.now) }
    ensures leads { Leads (states_of nfa.now) from sid result }
{
    if nfa.depth(from) >= nfa.depth(sid) {
        return None;
    }
    last_to(nfa.transitions(from), sid)
}

/// The last byte of a list of transitions that leads to a state.
fn last_to(transitions: Transitions<'_>, sid: StateID) -> Option<u8>
    ensures last { IsLastTo sid transitions.entry result }
{
    let mut last = None;
    for (byte, next) in transitions {
        if next == sid {
            last = Some(byte);
        }
    }
    last
}
