//! Arrows: the runs of bytes that lead from a state to one other, together.

ghost use Rattle.std.specs.Prelude.{◌≡◌, ◌≢◌, IfOk, IsFalse, IsTrue};
ghost use Rattle.std.specs.List.{All, Any};
ghost use Rattle.aho_table.specs.Table.{fail_id};
ghost use Rattle.acdraw.specs.Arrows.{AreArrowsOf, IsJoined, LeadsTo, runs_to};

use super::runs::{Run, runs_of};
use aho_corasick::links::{FAIL, Transitions};
use aho_core::search::StateID;
use std::alloc::{AllocError, Global};

/// An arrow from a state to another.
#[derive(Drop)]
pub struct Arrow {
    /// Where it leads, which is not FAIL.
    pub next: StateID,
    /// The runs of bytes that lead there, all of them.
    pub runs: Vec<Run>,
}

/// The arrows of a list of transitions: one for each state that they lead to.
pub fn arrows_of(alloc: Global, transitions: Transitions<'_>) -> Result<Vec<Arrow>, AllocError>
    ensures arrows { IfOk result (λ arrows. AreArrowsOf transitions.entry arrows.items) }
{
    let runs = runs_of(alloc, transitions)?;
    joined(alloc, runs.as_slice())
}

/// The arrows of some runs.
fn joined(alloc: Global, runs: &[Run]) -> Result<Vec<Arrow>, AllocError>
    ensures joined { IfOk result (λ arrows. IsJoined runs.now arrows.items) }
{
    let mut arrows = Vec::new(alloc);
    for run in runs {
        if !wants_arrow(arrows.as_slice(), run.next) {
            continue;
        }
        arrows.push(Arrow {
            next: run.next,
            runs: chosen(alloc, runs, run.next)?,
        })?;
    }
    Ok(arrows)
}

/// Whether a state is to have an arrow that is none of these: it is not FAIL, and none leads there.
fn wants_arrow(arrows: &[Arrow], next: StateID) -> bool
    ensures none { IsTrue result → All (λ (arrow : Arrow). arrow.next ≢ next) arrows.now }
    ensures somewhere { IsTrue result → next ≢ fail_id }
    ensures there { IsFalse result → next ≢ fail_id → Any (LeadsTo next) arrows.now }
{
    if next == FAIL {
        return false;
    }
    for arrow in arrows {
        if arrow.next == next {
            return false;
        }
    }
    true
}

/// The runs that lead to a state.
fn chosen(alloc: Global, runs: &[Run], next: StateID) -> Result<Vec<Run>, AllocError>
    ensures chosen { IfOk result (λ chosen. chosen.items ≡ runs_to next runs.now) }
{
    let mut chosen = Vec::new(alloc);
    for run in runs {
        if run.next == next {
            chosen.push(*run)?;
        }
    }
    Ok(chosen)
}
