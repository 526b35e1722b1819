//! A picture as text of the dot language.
//!
//! A state is a circle with its word. One that lists patterns is a double circle, with their numbers below the word. DEAD and
//! the two starts are boxes. A solid arrow has the bytes that lead from one state to another: each run of them is a line of its
//! label. A gray dashed one is a failure link. A byte that leads to FAIL leads nowhere, and has no arrow.

ghost use Rattle.std.specs.Prelude.{IfOk};
ghost use Rattle.acdraw.specs.Calls.{IsWhole};

use crate::picture::arrows::Arrow;
use crate::picture::runs::Run;
use crate::picture::{Node, Picture};
use crate::text::DotText;
use aho_corasick::links::DEAD;
use aho_core::search::StateID;
use std::alloc::{AllocError, Global};

/// The text of a picture: its states, then their arrows.
pub fn dot_of(alloc: Global, picture: &Picture) -> Result<Vec<u8>, AllocError>
    ensures whole { IfOk result (λ text. IsWhole text.items) }
{
    let mut text = DotText::new(alloc);
    text.put("digraph automaton {\n    rankdir=LR;\n")?;
    text.put("    node [shape=circle];\n    edge [fontsize=11];\n")?;
    for node in &picture.nodes {
        put_node(&mut text, picture, node)?;
    }
    for node in &picture.nodes {
        put_arrows(&mut text, node)?;
    }
    text.put("}\n")?;
    Ok(text.into_bytes())
}

/// A state with its name and the patterns that it lists.
fn put_node(text: &mut DotText, picture: &Picture, node: &Node) -> Result<(), AllocError> {
    text.put("    ")?;
    text.put_number(node.sid.as_usize())?;
    text.put(" [label=\"")?;
    put_name(text, picture, node)?;
    put_listed(text, node)?;
    text.put("\"")?;
    text.put(shape_of(picture, node))?;
    text.put("];\n")
}

/// What a state is called: its word, where it is no start and not DEAD.
fn put_name(text: &mut DotText, picture: &Picture, node: &Node) -> Result<(), AllocError> {
    if node.sid == DEAD {
        text.put("DEAD")
    } else if node.sid == picture.unanchored_start {
        text.put("start")
    } else if node.sid == picture.anchored_start {
        text.put("anchored start")
    } else {
        text.put_word(node.word.as_slice())
    }
}

/// The patterns that a state lists, on a line of their own.
fn put_listed(text: &mut DotText, node: &Node) -> Result<(), AllocError> {
    let mut between = "\\n";
    for pattern in &node.listed {
        text.put(between)?;
        text.put_number(pattern.as_usize())?;
        between = ", ";
    }
    Ok(())
}

/// How a state is drawn.
fn shape_of(picture: &Picture, node: &Node) -> &'static str {
    let boxed = node.sid == DEAD
        || node.sid == picture.unanchored_start
        || node.sid == picture.anchored_start;
    match (boxed, node.listed.is_empty()) {
        (true, true) => ", shape=box",
        (true, false) => ", shape=box, peripheries=2",
        (false, true) => "",
        (false, false) => ", shape=doublecircle",
    }
}

/// The arrows from a state, its link among them.
fn put_arrows(text: &mut DotText, node: &Node) -> Result<(), AllocError> {
    for arrow in &node.arrows {
        put_labelled(text, node.sid, arrow)?;
    }
    // DEAD leads to itself already.
    if node.sid == DEAD {
        return Ok(());
    }
    put_arrow(text, node.sid, node.link)?;
    text.put(" [style=dashed, color=gray];\n")
}

/// An arrow with its runs of bytes, each on a line of its own.
fn put_labelled(text: &mut DotText, sid: StateID, arrow: &Arrow) -> Result<(), AllocError> {
    put_arrow(text, sid, arrow.next)?;
    text.put(" [label=\"")?;
    let mut between = "";
    for run in &arrow.runs {
        text.put(between)?;
        put_run(text, run)?;
        between = "\\n";
    }
    text.put("\"];\n")
}

/// A run of bytes: its byte, or its first and its last.
fn put_run(text: &mut DotText, run: &Run) -> Result<(), AllocError> {
    text.put_byte(run.first)?;
    if run.more > 0 {
        text.put("-")?;
        text.put_byte(run.last())?;
    }
    Ok(())
}

/// An arrow from a state to another, without its label.
fn put_arrow(text: &mut DotText, from: StateID, to: StateID) -> Result<(), AllocError> {
    text.put("    ")?;
    text.put_number(from.as_usize())?;
    text.put(" -> ")?;
    text.put_number(to.as_usize())
}
