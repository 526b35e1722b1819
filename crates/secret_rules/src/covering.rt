//! Covering streams line by line, one after another.

ghost use Rattle.std.specs.Prelude.{◌≡◌, ◌+◌, ◌≤◌, ◌<◌, ◌++◌, ◌∷◌, [], ℕ, List, None, IfErr, IfOk, IfSome, OnErr, OnOk, length, true};
ghost use Rattle.std.specs.Io.KnownBytes.{Consumes};
ghost use Rattle.aho_core.specs.Numbers.{greatest_index};
ghost use Rattle.aho_devices.specs.Counts.{counted, moves_nothing};
ghost use Rattle.aho_devices.specs.Errors.{CountsErrors};
ghost use Rattle.aho_devices.specs.Refusals.{IsFillRefusal, is_read_fault};
ghost use Rattle.aho_stream.specs.After.{greatest_position};
ghost use Rattle.secret_rules.specs.LineCovers.{AreSearchedFor, IsCoverFailure, LeavesLines, of_devices};
ghost use Rattle.secret_rules.specs.OpenLines.{CanSearch, IsSetting, StandsBehind, line_rules};
ghost use Rattle.secret_rules.specs.Ready.{CoversTheSame, CanCoverLines, searched_automaton, most_of, rules_of, words_of};

use crate::error::LineError;
use crate::line_cover::LineCover;
use crate::marker::Marker;
use crate::open_line::{OpenLine, Setting};
use crate::rule::Rule;
use crate::rules::Rules;
use aho_automaton::automaton::Automaton;
use aho_core::error::StreamError;
use aho_core::search::PatternID;
use aho_cover::pieces::Pieces;
use aho_devices::buffer::Buffer;
use aho_devices::device::{Sink, Source};
use std::alloc::{AllocError, Global};

/// The most bytes that a stream may give: 2^63 - 1.
const MAX_POSITION: u64 = 9_223_372_036_854_775_807;

/// How many patterns an automaton has; none where there is none.
fn pattern_count<A: Automaton>(automaton: Option<&A>) -> usize
    ensures count { IfSome automaton.entry (λ a. result ≡ length (A.lengths a.now)) }
    ensures none { automaton.entry ≡ None → result ≡ 0 }
{
    match automaton {
        Some(automaton) => automaton.patterns_len(),
        None => 0,
    }
}

/// The number of lines that are covered whole, behind those of so many patterns and of some rules.
fn whole_number(patterns: usize, rules: &[Rule]) -> PatternID
    requires few { patterns + length rules.now ≤ greatest_index }
    ensures number { result ≡ patterns + length rules.now }
{
    PatternID::new_unchecked(patterns + rules.len())
}

impl<'r, 'a, A: Automaton> LineCover<'r, 'a, A> {
    /// What covers lines by these rules and, if there are some, by the patterns of an automaton: by all that occurs, or by words alone,
    /// beside which no letter of ASCII, no digit and no `_` stands. A line of more than so many bytes is covered whole.
    ///
    /// A rule's runs have its number and that of the patterns, and a line that is covered whole that of both.
    ///
    /// # Errors
    ///
    /// Out of memory.
    pub fn new(
        alloc: Global,
        rules: &'r Rules,
        automaton: Option<&'a A>,
        words: bool,
        most: usize,
    ) -> Result<LineCover<'r, 'a, A>, AllocError>
        requires searches { IfSome automaton (λ a. CanSearch A.Automaton a.now) }
        requires few { IfSome automaton (λ a. length (A.lengths a.now) + length rules.now ≤ greatest_index) }
        requires few_rules { length rules.now ≤ greatest_index }
        ensures ready { IfOk result (CanCoverLines A.Automaton) }
        ensures automaton { IfOk result (λ cover. searched_automaton cover ≡ automaton.entry) }
        ensures words { IfOk result (λ cover. words_of cover ≡ words) }
        ensures rules { IfOk result (λ cover. rules_of cover ≡ rules.entry.now) }
        ensures most { IfOk result (λ cover. most_of cover ≡ most) }
    {
        let patterns = pattern_count(automaton);
        let whole = whole_number(patterns, rules.as_slice());
        let marker = Marker::new(alloc, rules)?;
        let buffer = Buffer::new(alloc, 1)?;
        let setting = Setting {
            automaton,
            words,
            most,
            patterns,
            whole,
        };
        let open_line = OpenLine {
            setting,
            marker,
            line: Vec::new(alloc),
            long: false,
            marks: Vec::new(alloc),
            found: Vec::new(alloc),
            runs: Vec::new(alloc),
        };
        Ok(LineCover { buffer, open_line })
    }
}

/// Reads once, in the place of what is held.
pub(crate) fn read_once<R: Source>(
    buffer: &mut Buffer,
    read: u64,
    source: &mut R,
) -> Result<u64, StreamError>
    requires within { read ≤ greatest_position }
    ensures given { Consumes (R.remaining source.old) (R.remaining source.new) buffer.new.bytes }
    ensures told { IfOk result (λ count. length buffer.new.bytes ≡ count) }
    ensures limited { IfOk result (λ count. read + count ≤ greatest_position) }
    ensures nothing { OnErr result (buffer.new.bytes ≡ []) }
    ensures ended { R.empty_reads source.new
        ≡ counted (moves_nothing result) (R.empty_reads source.old) }
    ensures read_failed { R.failures source.new
        ≡ counted (is_read_fault result) (R.failures source.old) }
    ensures only { IfErr result IsFillRefusal }
{
    buffer.facts();
    buffer.clear();
    let filled = buffer.fill_once(source, MAX_POSITION - read)?;
    Ok(filled.read)
}

/// Reads once, in the place of what is held. The sink shows that all that was written by now was flushed.
fn refill<R: Source, W: Sink>(
    buffer: &mut Buffer,
    read: u64,
    source: &mut R,
    _sink: &W,
) -> Result<u64, StreamError>
    requires flushed { W.flushed _sink.now ≡ true }
    requires within { read ≤ greatest_position }
    ensures given { Consumes (R.remaining source.old) (R.remaining source.new) buffer.new.bytes }
    ensures told { IfOk result (λ count. length buffer.new.bytes ≡ count) }
    ensures limited { IfOk result (λ count. read + count ≤ greatest_position) }
    ensures nothing { OnErr result (buffer.new.bytes ≡ []) }
    ensures ended { R.empty_reads source.new
        ≡ counted (moves_nothing result) (R.empty_reads source.old) }
    ensures read_failed { R.failures source.new
        ≡ counted (is_read_fault result) (R.failures source.old) }
    ensures only { IfErr result IsFillRefusal }
{
    read_once(buffer, read, source)
}

/// Covers what a source gives, of a stream that has not begun.
fn cover_from<A: Automaton, R: Source, W: Sink, P: Pieces>(
    line: &mut OpenLine<'_, '_, A>,
    buffer: &mut Buffer,
    source: &mut R,
    sink: &mut W,
    pieces: &mut P,
    counts: &mut [u64],
) -> Result<(), LineError>
    requires setting { IsSetting A.Automaton line.old.setting (line_rules line.old) }
    requires unbegun { StandsBehind P.Pieces line.old pieces.old [] [] }
    ensures leaves { LeavesLines R.Source W.Sink (AreSearchedFor A.Automaton line.old.setting.automaton)
        line.old.setting.words (line_rules line.old) line.old.setting.most (P.rule pieces.old)
        source.old source.new sink.old sink.new counts.old counts.new result }
    ensures errors { CountsErrors R.Source W.Sink
        source.old source.new sink.old sink.new (of_devices result) }
    ensures only { IfErr result (IsCoverFailure (line_rules line.old)) }
    ensures setting { line.new.setting ≡ line.old.setting }
    ensures rules { line_rules line.new ≡ line_rules line.old }
    ensures rule { P.rule pieces.new ≡ P.rule pieces.old }
{
    let mut read = 0u64;
    'reads: loop {
        sink.flush()?;
        let more = refill(buffer, read, source, &*sink)?;
        if more == 0 {
            return line.end(b"", sink, pieces, counts);
        }
        read += more;
        line.take_in(buffer.buffer(), sink, pieces, counts)?;
    }
}

/// Writes what the source gives to the sink, line by line, but in the place of each run of bytes that rules mark or patterns hold a piece
/// that is made of it.
///
/// A line is what stands between line ends, which are kept. It is written once its end was read, and flushed before the next read. One that
/// is too long is one run. The runs are those of all that is covered in the line, whether rules mark it or a pattern holds it, and each is
/// told by the number of the longest that begins where it does, of equal ones the first. `counts[n]` grows by the runs of number `n`.
///
/// Whatever it answers, the next stream begins anew.
///
/// # Errors
///
/// `Stream` where a device failed: `Read` exactly where a read fails, `Write` where a write or a flush fails, `WriteZero` where a write of
/// some bytes takes none, and `PositionLimit` where 2^63 - 1 bytes were given and the end was not seen. `Mark` where the expression of a
/// rule is too big or memory ran out. What was written then is a beginning of the cover, whatever bytes would have followed, and the runs
/// of the lines that were written whole were counted. After `Read` and `PositionLimit` these are all lines whose ends were given.
pub fn cover_lines<A: Automaton, R: Source, W: Sink, P: Pieces>(
    cover: &mut LineCover<'_, '_, A>,
    source: &mut R,
    sink: &mut W,
    pieces: &mut P,
    counts: &mut [u64],
) -> Result<(), LineError>
    requires ready { CanCoverLines A.Automaton cover.old }
    ensures leaves { LeavesLines R.Source W.Sink (AreSearchedFor A.Automaton (searched_automaton cover.old))
        (words_of cover.old) (rules_of cover.old) (most_of cover.old) (P.rule pieces.old)
        source.old source.new sink.old sink.new counts.old counts.new result }
    ensures errors { CountsErrors R.Source W.Sink
        source.old source.new sink.old sink.new (of_devices result) }
    ensures only { IfErr result (IsCoverFailure (rules_of cover.old)) }
    ensures same { CoversTheSame cover.old cover.new }
    ensures ready { CanCoverLines A.Automaton cover.new }
    ensures rule { P.rule pieces.new ≡ P.rule pieces.old }
{
    cover.open_line.restart();
    cover_from(
        &mut cover.open_line,
        &mut cover.buffer,
        source,
        sink,
        pieces,
        counts,
    )
}
