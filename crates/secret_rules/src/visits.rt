//! Having a visitor take the lines of a text, one after another.

ghost use Rattle.std.specs.Prelude.{◌≡◌, ◌+◌, ◌≤◌, ◌++◌, ◌∷◌, [], ℕ, List, IfErr, OnOk, length};
ghost use Rattle.aho_core.specs.Occurrence.{occurrence};
ghost use Rattle.aho_stream.specs.After.{greatest_position};
ghost use Rattle.secret_rules.specs.Marking.{HasMarked, IsLineFailure};
ghost use Rattle.secret_rules.specs.OpenLines.{IsSetting, line_rules};
ghost use Rattle.secret_rules.specs.SeenLines.{HoldsNext, HasKept, IsLineUnvisited, MissesOpen, MissesOpenLines, SeesOpen, HoldsBehind, TakesOpen, TakesOpenLines};
ghost use Rattle.secret_rules.specs.Visitors.{CanBeVisited};

use crate::error::{LineError, MarkError};
use crate::open_line::OpenLine;
use crate::visitor::LineVisitor;
use aho_automaton::automaton::Automaton;
use aho_core::search::{Match, PatternID, Span};
use memchr::memchr;
use std::alloc::AllocError;

/// Gives the run of a whole line of so many bytes.
fn whole_run(number: PatternID, count: usize, runs: &mut Vec<Match>) -> Result<(), AllocError>
    ensures run { OnOk result (runs.new.items ≡ occurrence 0 count number ∷ []) }
{
    runs.clear();
    let range = Span {
        start: 0,
        end: count,
    };
    runs.push(Match::new(number, range))?;
    Ok(())
}

impl<'r, 'a, A: Automaton> OpenLine<'r, 'a, A> {
    /// Adds bytes that hold no line end, and counts them. Those of a line that is too long are not kept.
    fn keep(&mut self, bytes: &[u8], count: &mut usize) -> Result<(), AllocError>
        requires fits { count.old + length bytes.now ≤ greatest_position }
        ensures kept { (read : List ℕ) → HasKept self.old count.old read → OnOk result
            (HasKept self.new count.new (read ++ bytes.now)) }
        ensures counted { count.new ≡ count.old + length bytes.now }
        ensures marker { self.new.marker ≡ self.old.marker }
        ensures setting { self.new.setting ≡ self.old.setting }
    {
        *count += bytes.len();
        if *count > self.setting.most {
            return Ok(());
        }
        self.line.extend_from_slice(bytes)
    }

    /// Finds the one run of a line that is too long, of which so many bytes were read, and forgets those that were kept.
    fn find_whole(&mut self, count: usize) -> Result<(), MarkError>
        ensures runs { OnOk result (self.new.runs.items ≡ occurrence 0 count self.old.setting.whole ∷ []) }
        ensures line { self.new.line.items ≡ [] }
        ensures marked { (before : List (List ℕ)) → HasMarked self.old.marker before
            → OnOk result (HasMarked self.new.marker (before ++ [] ∷ [])) }
        ensures refused { IfErr result (IsLineFailure (line_rules self.old)) }
        ensures setting { self.new.setting ≡ self.old.setting }
        ensures rules { line_rules self.new ≡ line_rules self.old }
    {
        self.line.clear();
        self.marker.mark(&[], &mut self.marks)?;
        Ok(whole_run(self.setting.whole, count, &mut self.runs)?)
    }

    /// Finds what a visitor is to take of the line, of which so many bytes were read.
    fn find_seen(&mut self, count: usize) -> Result<(), MarkError>
        requires setting { IsSetting A.Automaton self.old.setting (line_rules self.old) }
        requires stands { (before : List (List ℕ)) × (read : List ℕ) × HoldsBehind self.old count before read }
        ensures sees { OnOk result (SeesOpen A.Automaton self.old count self.new) }
        ensures lie { OnOk result (CanBeVisited self.new.line.items self.new.runs.items) }
        ensures refused { IfErr result (IsLineFailure (line_rules self.old)) }
        ensures setting { self.new.setting ≡ self.old.setting }
        ensures rules { line_rules self.new ≡ line_rules self.old }
    {
        if count > self.setting.most {
            return self.find_whole(count);
        }
        self.find_runs()
    }

    /// Has a visitor take the line, of which so many bytes were read, with this end, and begins the next.
    pub(crate) fn give<V: LineVisitor>(
        &mut self,
        end: &[u8],
        count: &mut usize,
        visitor: &mut V,
    ) -> Result<(), LineError>
        requires setting { IsSetting A.Automaton self.old.setting (line_rules self.old) }
        requires stands { (before : List (List ℕ)) × (read : List ℕ) × HoldsBehind self.old count.old before read }
        ensures takes { OnOk result
            (TakesOpen A.Automaton V.LineVisitor self.old count.old visitor.old visitor.new end.now) }
        ensures misses { IfErr result
            (MissesOpen A.Automaton V.LineVisitor self.old count.old visitor.old visitor.new end.now) }
        ensures stands { OnOk result (HoldsNext self.old count.old self.new count.new) }
        ensures none { OnOk result (count.new ≡ 0) }
        ensures only { IfErr result (IsLineUnvisited (line_rules self.old)) }
        ensures setting { self.new.setting ≡ self.old.setting }
        ensures rules { line_rules self.new ≡ line_rules self.old }
    {
        self.find_seen(*count)?;
        visitor.visit(self.line.as_slice(), end, self.runs.as_slice())?;
        self.line.clear();
        *count = 0;
        Ok(())
    }

    /// Takes more bytes of a text, and has a visitor take each line that comes to its end. So many bytes of the last were read.
    pub(crate) fn give_lines<V: LineVisitor>(
        &mut self,
        bytes: &[u8],
        count: &mut usize,
        visitor: &mut V,
    ) -> Result<(), LineError>
        requires setting { IsSetting A.Automaton self.old.setting (line_rules self.old) }
        requires stands { (before : List (List ℕ)) × (read : List ℕ) × HoldsBehind self.old count.old before read }
        requires fits { count.old + length bytes.now ≤ greatest_position }
        ensures takes { OnOk result
            (TakesOpenLines A.Automaton V.LineVisitor self.old count.old visitor.old visitor.new self.new count.new bytes.now) }
        ensures misses { IfErr result
            (MissesOpenLines A.Automaton V.LineVisitor self.old count.old visitor.old visitor.new bytes.now) }
        ensures counted { OnOk result (count.new ≤ count.old + length bytes.now) }
        ensures only { IfErr result (IsLineUnvisited (line_rules self.old)) }
        ensures setting { self.new.setting ≡ self.old.setting }
        ensures rules { line_rules self.new ≡ line_rules self.old }
    {
        let mut rest = bytes;
        'lines: while let Some(end) = memchr(b'\n', rest) {
            self.keep(&rest[..end], count)?;
            self.give(b"\n", count, visitor)?;
            rest = &rest[end + 1..];
        }
        Ok(self.keep(rest, count)?)
    }
}
