//! A visitor of lines that writes what is asked of those that rules mark.

ghost use Rattle.std.specs.Prelude.{◌≡◌, IfErr, OnErr, OnOk};
ghost use Rattle.std.specs.Io.KnownBytes.{Appends, Keeps};
ghost use Rattle.aho_devices.specs.Counts.{AppendsBeginning};
ghost use Rattle.secret_rules.specs.Visitors.{IsVisitRefusal};
ghost use Rattle.acgrep.specs.Marked.{is_marked, line_len, more_if, pass_behind, task_line};
ghost use Rattle.acgrep.specs.Written.{needs_one};

use crate::marking::put_marked;
use crate::options::Shown;
use crate::print::{Place, Style};
use chromesquid::{Match, Sink, StreamError, write_whole};
use secret_rules::{LineVisitor, Rule};
use std::alloc::Global;
use std::cell::Cell;

/// What is written of the lines of a file.
#[derive(Clone, Copy)]
pub struct Task<'s, 'r> {
    /// What memory is taken from.
    pub alloc: Global,
    /// What is written of a selected line.
    pub shown: Shown,
    /// What stands before a line.
    pub style: Style<'s>,
    /// The rules.
    pub rules: &'r [Rule],
}

/// How far a file was searched.
#[derive(Clone, Copy)]
pub struct Pass {
    /// What stands before the next line.
    pub place: Place,
    /// How many lines were selected.
    pub selected: u64,
    /// How many of them are too long.
    pub long: u64,
}

/// What writes of the lines of a file as they are read.
#[derive(Drop)]
pub struct Marked<'o, 's, 'r, W> {
    /// Where it is written.
    pub output: &'o mut W,
    /// What is written.
    pub task: Task<'s, 'r>,
    /// How far the file was searched.
    pub pass: Pass,
    /// How many line ends were read and not visited yet.
    pub ends: &'o Cell<usize>,
}

impl<W: Sink> LineVisitor for Marked<'_, '_, '_, W> {
    ghost use Rattle.acgrep.specs.Marked.{StopsMarked, WritesMarked};

    ghost visits = { λ old new line runs. WritesMarked W.Sink old.output new.output old.task new.task
        old.pass new.pass line.bytes runs };

    ghost stops = { λ old new line runs error. StopsMarked W.Sink old.output new.output old.task new.task
        old.pass new.pass line.bytes runs };

    fn visit(&mut self, line: &[u8], _end: &[u8], runs: &[Match]) -> Result<(), StreamError> {
        let last = is_last(self.ends);
        let place = self.pass.place;
        write_marked(&mut *self.output, &self.task, place, line, runs, last)?;
        self.pass = behind(self.pass, line, runs);
        if needs_one(self.task.shown) && is_marked(runs) {
            return Err(StreamError::WriteZero);
        }
        Ok(())
    }
}

/// Whether the first selected line tells all. Nothing is written of it then, and the search is over.
pub fn needs_one(shown: Shown) -> bool
    ensures one { result ≡ needs_one shown }
{
    matches!(shown, Shown::Names | Shown::Lacking | Shown::Nothing)
}

/// Whether a line is selected.
fn is_marked(runs: &[Match]) -> bool
    ensures marked { result ≡ is_marked runs.now }
{
    !runs.is_empty()
}

/// How many bytes a line has. One that is too long is one run.
fn line_len(line: &[u8], runs: &[Match]) -> usize
    ensures len { result ≡ line_len line.now runs.now }
{
    if !line.is_empty() {
        return line.len();
    }
    match runs.first() {
        Some(run) => run.end(),
        None => 0,
    }
}

/// A count with one more, if that is so.
fn more_if(asked: bool, count: u64) -> u64
    ensures more { result ≡ more_if asked count }
{
    if asked {
        count.saturating_add(1)
    } else {
        count
    }
}

/// How far a file was searched behind one more line.
fn behind(pass: Pass, line: &[u8], runs: &[Match]) -> Pass
    ensures behind { result ≡ pass_behind pass line.now runs.now }
{
    let len = line_len(line, runs) as u64;
    Pass {
        place: Place {
            lines: pass.place.lines.wrapping_add(1),
            bytes: pass.place.bytes.wrapping_add(len).wrapping_add(1),
        },
        selected: more_if(is_marked(runs), pass.selected),
        // One that is too long comes without its bytes.
        long: more_if(line.is_empty() && is_marked(runs), pass.long),
    }
}

/// Counts one line end down, and returns whether this was the last that was read: the next read may wait.
fn is_last(ends: &Cell<usize>) -> bool {
    let left = ends.get();
    ends.set(left.saturating_sub(1));
    left <= 1
}

/// Writes what is asked of a line, and hands all on at the last line before a read. It is put together first: where the output cannot be
/// written to the end, what is there is a beginning of it.
fn write_marked<W: Sink>(
    output: &mut W,
    task: &Task<'_, '_>,
    place: Place,
    line: &[u8],
    runs: &[Match],
    last: bool,
) -> Result<(), StreamError>
    ensures written { OnOk result (Appends (W.taken output.old) (W.taken output.new)
        (task_line task.now place line.now runs.now)) }
    ensures begun { OnErr result (AppendsBeginning (W.taken output.old) (W.taken output.new)
        (task_line task.now place line.now runs.now)) }
    ensures only { IfErr result IsVisitRefusal }
{
    if runs.is_empty() || line.is_empty() {
        return hand_on(last, output);
    }
    let mut page = Vec::new(task.alloc);
    let put = put_marked(
        &mut page,
        task.shown,
        &task.style,
        task.rules,
        place,
        line,
        runs,
    );
    let Ok(()) = put else {
        return Err(StreamError::Memory);
    };
    write_whole(output, page.as_slice())?;
    hand_on(last, output)
}

/// Hands on what the output keeps, if that is so.
fn hand_on<W: Sink>(last: bool, output: &mut W) -> Result<(), StreamError>
    ensures kept { Keeps (W.taken output.old) (W.taken output.new) }
    ensures only { IfErr result IsVisitRefusal }
{
    if last {
        return output.flush();
    }
    Ok(())
}
