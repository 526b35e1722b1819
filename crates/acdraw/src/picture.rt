//! A picture of an automaton as plain data: what is drawn of each state.

ghost use Rattle.std.specs.Prelude.{◌≡◌, ◌<◌, length, map, IfOk};
ghost use Rattle.std.specs.List.{All};
ghost use Rattle.aho_corasick.specs.ReadOut.{states_of};
ghost use Rattle.acdraw.specs.Picture.{IsDrawn, IsPicture, drawn_of, is_drawn};

use aho_corasick::links::{FAIL, Matches};
use aho_corasick::noncontiguous::NFA;
use aho_core::search::{PatternID, StateID};
use arrows::{Arrow, arrows_of};
use std::alloc::{AllocError, Global};
use words::word_of;

/// What is drawn of an automaton.
#[derive(Drop)]
pub struct Picture {
    /// Its states by number, all but FAIL, and without the anchored start where that is left out.
    pub nodes: Vec<Node>,
    /// The start of searches that are not anchored.
    pub unanchored_start: StateID,
    /// The start of anchored ones.
    pub anchored_start: StateID,
}

/// What is drawn of a state.
#[derive(Drop)]
pub struct Node {
    /// Its number.
    pub sid: StateID,
    /// Its word: empty for the starts. DEAD has none, and this says nothing of it.
    pub word: Vec<u8>,
    /// The patterns that it lists.
    pub listed: Vec<PatternID>,
    /// Where it leads on failure.
    pub link: StateID,
    /// Where bytes lead: an arrow for each state that they lead to. Bytes that lead to FAIL lead nowhere.
    pub arrows: Vec<Arrow>,
}

/// The picture of an automaton, with its anchored start or without it. The only error is that memory runs out.
pub fn picture_of(alloc: Global, nfa: &NFA, anchored: bool) -> Result<Picture, AllocError>
    ensures picture { IfOk result (IsPicture nfa.now anchored) }
{
    let nodes = nodes_of(alloc, nfa, anchored)?;
    let special = nfa.special();
    Ok(Picture {
        nodes,
        unanchored_start: special.start_unanchored_id,
        anchored_start: special.start_anchored_id,
    })
}

/// The states that are drawn.
fn nodes_of(alloc: Global, nfa: &NFA, anchored: bool) -> Result<Vec<Node>, AllocError>
    ensures states { IfOk result (λ nodes. map (λ (node : Node). node.sid) nodes.items
        ≡ drawn_of nfa.now anchored (length (states_of nfa.now))) }
    ensures drawn { IfOk result (λ nodes. All (IsDrawn nfa.now) nodes.items) }
{
    let mut nodes = Vec::new(alloc);
    for index in 0..nfa.states_len() {
        let sid = StateID::new_unchecked(index);
        if !is_drawn(nfa, anchored, sid) {
            continue;
        }
        nodes.push(node_of(alloc, nfa, sid)?)?;
    }
    Ok(nodes)
}

/// Whether a state is drawn: any but FAIL, and but the anchored start where that is left out.
fn is_drawn(nfa: &NFA, anchored: bool, sid: StateID) -> bool
    ensures drawn { result ≡ is_drawn nfa.now anchored sid }
{
    sid != FAIL && (anchored || sid != nfa.special().start_anchored_id)
}

/// What is drawn of this state.
fn node_of(alloc: Global, nfa: &NFA, sid: StateID) -> Result<Node, AllocError>
    requires within { sid < length (states_of nfa.now) }
    ensures sid { IfOk result (λ node. node.sid ≡ sid) }
    ensures drawn { IfOk result (IsDrawn nfa.now) }
{
    Ok(Node {
        sid,
        word: word_of(alloc, nfa, sid)?,
        listed: listed_of(alloc, nfa.matches(sid))?,
        link: nfa.fail(sid),
        arrows: arrows_of(alloc, nfa.transitions(sid))?,
    })
}

/// The patterns of a list.
fn listed_of(alloc: Global, matches: Matches<'_>) -> Result<Vec<PatternID>, AllocError>
    ensures same { IfOk result (λ listed. listed.items ≡ matches.entry) }
{
    let mut listed = Vec::new(alloc);
    for pattern in matches {
        listed.push(pattern)?;
    }
    Ok(listed)
}

pub mod arrows;
pub mod runs;
mod words;
