//! Searching the lines of what a reader gives by rules.

ghost use Rattle.std.specs.Prelude.{◌≡◌, ◌⊎◌, IsNone, Ok};
ghost use Rattle.secret_rules.specs.Ready.{CanCoverLines, CoversTheSame};
ghost use Rattle.acgrep.specs.Marked.{asked_of};
ghost use Rattle.acgrep.specs.MarkedFiles.{HasToldAll, IfMarks, WalksLines, pass_from};

use crate::failure::Stop;
use crate::marked::{Marked, Pass, Task, needs_one};
use crate::options::Shown;
use crate::print::Place;
use chromesquid::{Automaton, Sink, Source, StreamError};
use secret_rules::{LineCover, LineError, MarkError, visit_lines};
use std::cell::Cell;
use tool_parts::reason::Reason;

/// What comes of the lines of a source.
#[derive(Clone, Copy)]
pub struct Came {
    /// How far they were searched.
    pub pass: Pass,
    /// Whether they were read to their end.
    pub done: Result<(), LineError>,
}

/// The same, with where something was written.
#[derive(Drop)]
struct Walked<'o, W> {
    /// Where something of the lines was written.
    output: &'o mut W,
    /// What comes of them.
    came: Came,
}

/// Why the lines of a file were not all searched.
#[derive(Drop)]
pub enum End {
    /// As a search by patterns may stop.
    Stop(Stop),
    /// The expression of the rule of this number is too big.
    Rule(usize),
}

/// Writes what is asked of the lines that a source gives, of which the first stands there. `ends` holds how many line ends its last read
/// gave.
pub fn mark_source<A: Automaton, S: Source, W: Sink>(
    cover: &mut LineCover<'_, '_, A>,
    task: Task<'_, '_>,
    first: Place,
    ends: &Cell<usize>,
    source: &mut S,
    sink: &mut W,
) -> Came
    requires ready { CanCoverLines A.Automaton cover.old }
    ensures walks { IfMarks A.Automaton cover.old (WalksLines S.Source W.Sink (asked_of task.entry) (pass_from first)
        result.pass result.done source.old source.new sink.old sink.new) }
    ensures same { CoversTheSame cover.old cover.new }
    ensures ready { CanCoverLines A.Automaton cover.new }
{
    let marked = Marked {
        output: sink,
        task,
        pass: Pass {
            place: first,
            selected: 0,
            long: 0,
        },
        ends,
    };
    let walked = mark_with(cover, source, marked);
    let Walked { output, came } = walked;
    let _output = output;
    came
}

/// Has what writes of lines take those that a source gives.
fn mark_with<'o, A: Automaton, S: Source, W: Sink>(
    cover: &mut LineCover<'_, '_, A>,
    source: &mut S,
    marked: Marked<'o, '_, '_, W>,
) -> Walked<'o, W>
    requires ready { CanCoverLines A.Automaton cover.old }
    ensures walks { IfMarks A.Automaton cover.old (WalksLines S.Source W.Sink (asked_of marked.entry.task)
        marked.entry.pass result.came.pass result.came.done source.old source.new
        marked.entry.output.now result.output.now) }
    ensures same_output { result.output.ghost_name ≡ marked.entry.output.ghost_name }
    ensures same { CoversTheSame cover.old cover.new }
    ensures ready { CanCoverLines A.Automaton cover.new }
{
    let mut marked = marked;
    let done = visit_lines(cover, source, &mut marked);
    let Marked { output, pass, .. } = marked;
    let came = Came { pass, done };
    Walked { output, came }
}

/// Why the lines of a file were not all searched, if there is a reason but that one of them tells all.
pub fn end_of(came: Came, reason: Option<Reason>, shown: Shown) -> Option<End>
    ensures none { IsNone result → (came.done ≡ Ok tt) ⊎ HasToldAll shown came.pass }
{
    if needs_one(shown) && came.pass.selected > 0 {
        return None;
    }
    match came.done {
        Ok(()) => None,
        Err(LineError::Stream(error)) => Some(End::Stop(stop_in(error, reason))),
        Err(LineError::Mark(MarkError::TooBig(number))) => Some(End::Rule(number)),
        Err(LineError::Mark(MarkError::OutOfMemory)) => Some(End::Stop(Stop::OutOfMemory)),
    }
}

/// Why a search stops at an error of a stream, by why a read failed.
fn stop_in(error: StreamError, reason: Option<Reason>) -> Stop {
    match error {
        StreamError::Read(_) => Stop::Read(reason.unwrap_or(Reason::ReadFault)),
        StreamError::PositionLimit => Stop::Read(Reason::PositionLimit),
        StreamError::Memory => Stop::OutOfMemory,
        StreamError::Match(_) | StreamError::Write(_) | StreamError::WriteZero => Stop::Write,
    }
}
