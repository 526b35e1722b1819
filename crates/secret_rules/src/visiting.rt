//! Visiting the lines of streams, one stream after another.

ghost use Rattle.std.specs.Prelude.{◌≡◌, [], IfErr};
ghost use Rattle.aho_devices.specs.Counts.{counted};
ghost use Rattle.aho_devices.specs.Refusals.{is_read_fault};
ghost use Rattle.secret_rules.specs.LineCovers.{AreSearchedFor, of_devices};
ghost use Rattle.secret_rules.specs.OpenLines.{IsSetting, line_rules};
ghost use Rattle.secret_rules.specs.Ready.{CanCoverLines, CoversTheSame, most_of, rules_of, searched_automaton, words_of};
ghost use Rattle.secret_rules.specs.SeenLines.{HoldsBehind};
ghost use Rattle.secret_rules.specs.Visits.{IsVisitFailure, LeavesVisited};

use crate::covering::read_once;
use crate::error::LineError;
use crate::line_cover::LineCover;
use crate::open_line::OpenLine;
use crate::visitor::LineVisitor;
use aho_automaton::automaton::Automaton;
use aho_devices::buffer::Buffer;
use aho_devices::device::Source;

/// Has a visitor take the lines of what a source gives, of a stream that has not begun.
fn visit_from<A: Automaton, R: Source, V: LineVisitor>(
    line: &mut OpenLine<'_, '_, A>,
    buffer: &mut Buffer,
    source: &mut R,
    visitor: &mut V,
) -> Result<(), LineError>
    requires setting { IsSetting A.Automaton line.old.setting (line_rules line.old) }
    requires unbegun { HoldsBehind line.old 0 [] [] }
    ensures leaves { LeavesVisited R.Source V.LineVisitor (AreSearchedFor A.Automaton line.old.setting.automaton)
        line.old.setting.words (line_rules line.old) line.old.setting.most
        source.old source.new visitor.old visitor.new result }
    ensures errors { R.failures source.new
        ≡ counted (is_read_fault (of_devices result)) (R.failures source.old) }
    ensures only { IfErr result (IsVisitFailure (line_rules line.old)) }
    ensures setting { line.new.setting ≡ line.old.setting }
    ensures rules { line_rules line.new ≡ line_rules line.old }
{
    let mut read = 0u64;
    let mut count = 0usize;
    'reads: loop {
        let more = read_once(buffer, read, source)?;
        if more == 0 {
            return line.give(b"", &mut count, visitor);
        }
        read += more;
        line.give_lines(buffer.buffer(), &mut count, visitor)?;
    }
}

/// Reads a source to its end and has a visitor take each line, with the runs that `cover_lines` finds in it.
///
/// A line is what stands between line ends. The visitor takes it once its end was read, and each before the next. What stands behind the
/// last line end is the last line, which has no end: where the source ends with a line end, or gives nothing, it is empty. One that is
/// too long comes without its bytes, with one run from 0 up to how many they are, of the number of lines that are covered whole.
///
/// Whatever it answers, the next stream begins anew.
///
/// # Errors
///
/// `Stream` with `Read` exactly where a read fails, with `PositionLimit` where 2^63 - 1 bytes were given and the end was not seen, and
/// else with the error of the visit that failed. `Mark` where the expression of a rule is too big or memory ran out. The visitor then took
/// some first lines, whatever bytes would have followed. After `Read` and `PositionLimit` these are all lines whose ends were given.
pub fn visit_lines<A: Automaton, R: Source, V: LineVisitor>(
    cover: &mut LineCover<'_, '_, A>,
    source: &mut R,
    visitor: &mut V,
) -> Result<(), LineError>
    requires ready { CanCoverLines A.Automaton cover.old }
    ensures leaves { LeavesVisited R.Source V.LineVisitor (AreSearchedFor A.Automaton (searched_automaton cover.old))
        (words_of cover.old) (rules_of cover.old) (most_of cover.old)
        source.old source.new visitor.old visitor.new result }
    ensures errors { R.failures source.new
        ≡ counted (is_read_fault (of_devices result)) (R.failures source.old) }
    ensures only { IfErr result (IsVisitFailure (rules_of cover.old)) }
    ensures same { CoversTheSame cover.old cover.new }
    ensures ready { CanCoverLines A.Automaton cover.new }
{
    cover.open_line.restart();
    visit_from(&mut cover.open_line, &mut cover.buffer, source, visitor)
}
