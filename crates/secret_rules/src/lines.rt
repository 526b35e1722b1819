//! Covering a text line by line.

ghost use Rattle.std.specs.Prelude.{◌≡◌, ◌+◌, ◌<◌, ◌≤◌, ◌++◌, ◌∷◌, [], ℕ, List, IfErr, IfOk, IfSome, OnErr, OnOk, false, length, map, true};
ghost use Rattle.aho_core.specs.Listing.{IsMember};
ghost use Rattle.aho_core.specs.Numbers.{greatest_index};
ghost use Rattle.aho_core.specs.Patterns.{Patterns};
ghost use Rattle.std.specs.Io.KnownBytes.{Appends};
ghost use Rattle.aho_cover.specs.Words.{CountsIn};
ghost use Rattle.aho_cover.specs.Writes.{TellsWrites};
ghost use Rattle.aho_devices.specs.Counts.{AppendsBeginning};
ghost use Rattle.secret_rules.specs.Covering.{marked};
ghost use Rattle.secret_rules.specs.LineCovers.{AreSearchedFor};
ghost use Rattle.secret_rules.specs.Marks.{AreAllMarks};
ghost use Rattle.secret_rules.specs.Marking.{HasMarked, IsLineFailure};
ghost use Rattle.secret_rules.specs.OpenLines.{AreRunsBy, BeginsNext, CanSearch, GoesOnOpen, HasRead, IsSetting, StandsBehind, StopsOpen, StopsOpenLines, TellsLine, WritesOpen, line_rules};
ghost use Rattle.secret_rules.specs.Picking.{StandForAll};
ghost use Rattle.secret_rules.specs.Writing.{LieFrom};
ghost use Rattle.secret_rules.specs.declared.marks.Mark.{Mark};
ghost use Rattle.secret_rules.specs.declared.rule.Rule.{Rule};

use crate::error::{LineError, MarkError};
use crate::joining::join;
use crate::marks::Mark;
use crate::occurrences::push_patterns;
use crate::open_line::{OpenLine, Setting};
use crate::writing::{count_number, count_runs, write_both, write_line};
use aho_automaton::automaton::Automaton;
use aho_core::error::StreamError;
use aho_core::search::{Match, PatternID, Span};
use aho_cover::pieces::Pieces;
use aho_devices::device::Sink;
use memchr::memchr;
use std::alloc::AllocError;

/// Adds a mark of a line as an occurrence, whose number is behind those of so many patterns.
fn push_mark(patterns: usize, mark: &Mark, found: &mut Vec<Match>) -> Result<(), AllocError>
    requires numbered { patterns + mark.now.rule ≤ greatest_index }
    requires ordered { mark.now.start ≤ mark.now.end }
    ensures pushed { OnOk result (found.new.items ≡ found.old.items ++ marked patterns mark.now ∷ []) }
{
    let range = Span {
        start: mark.start,
        end: mark.end,
    };
    let number = PatternID::new_unchecked(patterns + mark.rule);
    found.push(Match::new(number, range))?;
    Ok(())
}

/// Adds the marks of a line as occurrences.
fn push_marks(patterns: usize, marks: &[Mark], found: &mut Vec<Match>) -> Result<(), AllocError>
    requires numbered { (mark : Mark) → IsMember marks.now mark → patterns + mark.rule ≤ greatest_index }
    requires ordered { (mark : Mark) → IsMember marks.now mark → mark.start ≤ mark.end }
    ensures pushed { OnOk result (found.new.items ≡ found.old.items ++ map (marked patterns) marks.now) }
{
    for mark in marks {
        push_mark(patterns, mark, found)?;
    }
    Ok(())
}

/// Gives what stands for all that counts of the patterns in a line, if there are some.
fn find_patterns<A: Automaton>(
    setting: &Setting<'_, A>,
    line: &[u8],
    found: &mut Vec<Match>,
) -> Result<(), AllocError>
    requires searches { IfSome setting.now.automaton (λ a. CanSearch A.Automaton a.now) }
    ensures stand { (p : Patterns) → AreSearchedFor A.Automaton setting.now.automaton p
        → OnOk result (StandForAll (CountsIn setting.now.words p line.now) found.new.items) }
{
    found.clear();
    match setting.automaton {
        Some(automaton) => push_patterns(automaton, setting.words, line, found),
        None => Ok(()),
    }
}

/// Finds the runs of a line that is not too long, of which these are all marks.
fn runs_in<A: Automaton>(
    setting: &Setting<'_, A>,
    line: &[u8],
    marks: &[Mark],
    found: &mut Vec<Match>,
    runs: &mut Vec<Match>,
) -> Result<(), AllocError>
    requires short { length line.now ≤ setting.now.most }
    requires marks { (rules : List Rule) × (before : List (List ℕ)) × IsSetting A.Automaton setting.now rules
        × AreAllMarks rules before line.now marks.now }
    ensures runs { OnOk result ((rules : List Rule) (before : List (List ℕ)) → IsSetting A.Automaton setting.now rules
        → AreAllMarks rules before line.now marks.now → AreRunsBy A.Automaton setting.now rules before line.now runs.new.items) }
    ensures lie { OnOk result (LieFrom line.now 0 runs.new.items) }
{
    let _whole = setting.whole.as_usize();
    find_patterns(setting, line, found)?;
    push_marks(setting.patterns, marks, found)?;
    join(found, runs)
}

/// Writes the piece of a run that has ended, and an end behind it.
fn write_piece<W: Sink, P: Pieces>(
    sink: &mut W,
    pieces: &mut P,
    number: PatternID,
    end: &[u8],
) -> Result<(), StreamError>
    ensures whole { (fed : List ℕ) → P.holds pieces.old fed → OnOk result
        (Appends (W.taken sink.old) (W.taken sink.new) (P.rule pieces.old number fed ++ end.now)) }
    ensures beginning { (fed : List ℕ) → P.holds pieces.old fed → OnErr result
        (AppendsBeginning (W.taken sink.old) (W.taken sink.new) (P.rule pieces.old number fed ++ end.now)) }
    ensures tells { TellsWrites W.Sink sink.old sink.new result }
    ensures rule { P.rule pieces.new ≡ P.rule pieces.old }
{
    pieces.end(number);
    write_both(sink, pieces.piece(number), end)
}

/// Begins a piece, and feeds some bytes and others behind them.
fn feed_both<P: Pieces>(pieces: &mut P, bytes: &[u8], more: &[u8])
    ensures fed { P.holds pieces.new (bytes.now ++ more.now) }
    ensures rule { P.rule pieces.new ≡ P.rule pieces.old }
{
    pieces.begin();
    pieces.feed(bytes);
    pieces.feed(more);
}

impl<'r, 'a, A: Automaton> OpenLine<'r, 'a, A> {
    /// Begins another text.
    pub(crate) fn restart(&mut self)
        ensures marked { HasMarked self.new.marker [] }
        ensures empty { self.new.line.items ≡ [] }
        ensures short { self.new.long ≡ false }
        ensures setting { self.new.setting ≡ self.old.setting }
        ensures rules { line_rules self.new ≡ line_rules self.old }
    {
        self.marker.restart();
        self.line.clear();
        self.long = false;
    }

    /// Adds bytes that hold no line end.
    pub(crate) fn add<P: Pieces>(&mut self, bytes: &[u8], pieces: &mut P) -> Result<(), AllocError>
        ensures read { (read : List ℕ) → HasRead P.Pieces self.old pieces.old read → OnOk result
            (HasRead P.Pieces self.new pieces.new (read ++ bytes.now)) }
        ensures marker { self.new.marker ≡ self.old.marker }
        ensures setting { self.new.setting ≡ self.old.setting }
        ensures rule { P.rule pieces.new ≡ P.rule pieces.old }
    {
        if self.long {
            pieces.feed(bytes);
            return Ok(());
        }
        let line = self.line.as_slice();
        let room = self.setting.most.saturating_sub(line.len());
        if bytes.len() > room {
            feed_both(pieces, line, bytes);
            self.line.clear();
            self.long = true;
            return Ok(());
        }
        self.line.extend_from_slice(bytes)
    }

    /// Finds the runs of the line, which is not too long.
    pub(crate) fn find_runs(&mut self) -> Result<(), MarkError>
        requires setting { IsSetting A.Automaton self.old.setting (line_rules self.old) }
        requires marked { (before : List (List ℕ)) × HasMarked self.old.marker before }
        requires short { length self.old.line.items ≤ self.old.setting.most }
        ensures runs { OnOk result ((before : List (List ℕ)) → HasMarked self.old.marker before
            → AreRunsBy A.Automaton self.old.setting (line_rules self.old) before self.old.line.items self.new.runs.items) }
        ensures lie { OnOk result (LieFrom self.old.line.items 0 self.new.runs.items) }
        ensures marked { (before : List (List ℕ)) → HasMarked self.old.marker before
            → OnOk result (HasMarked self.new.marker (before ++ self.old.line.items ∷ [])) }
        ensures refused { IfErr result (IsLineFailure (line_rules self.old)) }
        ensures line { self.new.line ≡ self.old.line }
        ensures long { self.new.long ≡ self.old.long }
        ensures setting { self.new.setting ≡ self.old.setting }
        ensures rules { line_rules self.new ≡ line_rules self.old }
    {
        let line = self.line.as_slice();
        self.marker.mark(line, &mut self.marks)?;
        let marks = self.marks.as_slice();
        Ok(runs_in(&self.setting, line, marks, &mut self.found, &mut self.runs)?)
    }

    /// Writes the cover of the line, which is not too long, with this end, and begins the next.
    fn end_short<W: Sink, P: Pieces>(
        &mut self,
        end: &[u8],
        sink: &mut W,
        pieces: &mut P,
        counts: &mut [u64],
    ) -> Result<(), LineError>
        requires setting { IsSetting A.Automaton self.old.setting (line_rules self.old) }
        requires long { self.old.long ≡ false }
        requires stands { (before : List (List ℕ)) × (read : List ℕ) × StandsBehind P.Pieces self.old pieces.old before read }
        ensures writes { OnOk result
            (WritesOpen A.Automaton W.Sink P.Pieces self.old pieces.old sink.old sink.new counts.old counts.new end.now) }
        ensures stops { OnErr result
            (StopsOpen A.Automaton W.Sink P.Pieces self.old pieces.old sink.old sink.new counts.old counts.new end.now) }
        ensures stands { OnOk result (BeginsNext P.Pieces self.old pieces.old self.new pieces.new) }
        ensures tells { TellsLine W.Sink (line_rules self.old) sink.old sink.new result }
        ensures setting { self.new.setting ≡ self.old.setting }
        ensures rules { line_rules self.new ≡ line_rules self.old }
        ensures rule { P.rule pieces.new ≡ P.rule pieces.old }
    {
        self.find_runs()?;
        let runs = self.runs.as_slice();
        write_line(sink, pieces, self.line.as_slice(), runs, end)?;
        count_runs(counts, runs);
        self.line.clear();
        Ok(())
    }

    /// Writes the piece of the line, which is too long, with this end, and begins the next.
    fn end_long<W: Sink, P: Pieces>(
        &mut self,
        end: &[u8],
        sink: &mut W,
        pieces: &mut P,
        counts: &mut [u64],
    ) -> Result<(), LineError>
        requires setting { IsSetting A.Automaton self.old.setting (line_rules self.old) }
        requires long { self.old.long ≡ true }
        ensures writes { OnOk result
            (WritesOpen A.Automaton W.Sink P.Pieces self.old pieces.old sink.old sink.new counts.old counts.new end.now) }
        ensures stops { OnErr result
            (StopsOpen A.Automaton W.Sink P.Pieces self.old pieces.old sink.old sink.new counts.old counts.new end.now) }
        ensures stands { OnOk result (BeginsNext P.Pieces self.old pieces.old self.new pieces.new) }
        ensures tells { TellsLine W.Sink (line_rules self.old) sink.old sink.new result }
        ensures setting { self.new.setting ≡ self.old.setting }
        ensures rules { line_rules self.new ≡ line_rules self.old }
        ensures rule { P.rule pieces.new ≡ P.rule pieces.old }
    {
        self.marker.mark(&[], &mut self.marks)?;
        let number = self.setting.whole;
        write_piece(sink, pieces, number, end)?;
        count_number(counts, number);
        self.line.clear();
        self.long = false;
        Ok(())
    }

    /// Writes the cover of the line, with this end, and begins the next.
    pub(crate) fn end<W: Sink, P: Pieces>(
        &mut self,
        end: &[u8],
        sink: &mut W,
        pieces: &mut P,
        counts: &mut [u64],
    ) -> Result<(), LineError>
        requires setting { IsSetting A.Automaton self.old.setting (line_rules self.old) }
        requires stands { (before : List (List ℕ)) × (read : List ℕ) × StandsBehind P.Pieces self.old pieces.old before read }
        ensures writes { OnOk result
            (WritesOpen A.Automaton W.Sink P.Pieces self.old pieces.old sink.old sink.new counts.old counts.new end.now) }
        ensures stops { OnErr result
            (StopsOpen A.Automaton W.Sink P.Pieces self.old pieces.old sink.old sink.new counts.old counts.new end.now) }
        ensures stands { OnOk result (BeginsNext P.Pieces self.old pieces.old self.new pieces.new) }
        ensures tells { TellsLine W.Sink (line_rules self.old) sink.old sink.new result }
        ensures setting { self.new.setting ≡ self.old.setting }
        ensures rules { line_rules self.new ≡ line_rules self.old }
        ensures rule { P.rule pieces.new ≡ P.rule pieces.old }
    {
        if self.long {
            return self.end_long(end, sink, pieces, counts);
        }
        self.end_short(end, sink, pieces, counts)
    }

    /// Takes more bytes of a text.
    pub(crate) fn take_in<W: Sink, P: Pieces>(
        &mut self,
        bytes: &[u8],
        sink: &mut W,
        pieces: &mut P,
        counts: &mut [u64],
    ) -> Result<(), LineError>
        requires setting { IsSetting A.Automaton self.old.setting (line_rules self.old) }
        requires stands { (before : List (List ℕ)) × (read : List ℕ) × StandsBehind P.Pieces self.old pieces.old before read }
        ensures writes { OnOk result
            (GoesOnOpen A.Automaton W.Sink P.Pieces self.old pieces.old sink.old sink.new counts.old counts.new self.new pieces.new bytes.now) }
        ensures stops { OnErr result
            (StopsOpenLines A.Automaton W.Sink P.Pieces self.old pieces.old sink.old sink.new counts.old counts.new bytes.now) }
        ensures tells { TellsLine W.Sink (line_rules self.old) sink.old sink.new result }
        ensures setting { self.new.setting ≡ self.old.setting }
        ensures rules { line_rules self.new ≡ line_rules self.old }
        ensures rule { P.rule pieces.new ≡ P.rule pieces.old }
    {
        let mut rest = bytes;
        'lines: while let Some(end) = memchr(b'\n', rest) {
            self.add(&rest[..end], pieces)?;
            self.end(b"\n", sink, pieces, counts)?;
            rest = &rest[end + 1..];
        }
        Ok(self.add(rest, pieces)?)
    }
}
