//! A call by rules: the lines are selected in which they mark something.

ghost use Rattle.std.specs.Prelude.{◌≡◌, ◌<◌, ◌≤◌, IfOk, false, true};
ghost use Rattle.tool_parts.specs.Names.{name_bytes};
ghost use Rattle.tool_parts.specs.Telling.{TellsBytes};
ghost use Rattle.secret_rules.specs.Covering.{covering_by};
ghost use Rattle.secret_rules.specs.Ready.{CanCoverLines, rules_of};
ghost use Rattle.acgrep.specs.Arguments.{said, shown_by};
ghost use Rattle.acgrep.specs.Folders.{known_by};
ghost use Rattle.acgrep.specs.MarkedFiles.{IfMarks, IsMarking, MarksBy};
ghost use Rattle.acgrep.specs.Told.{TellsStatus};
ghost use Rattle.acgrep.specs.ToldByRules.{IsMarkTold};
ghost use Rattle.acgrep.specs.declared.options.Shown.TheVariants.{Nothing};
ghost use Rattle.acgrep.specs.RunsByRules.{MarksAsked, MayBeginAsked, MayReachMarked, ReachesMarked, long_message, most_said, no_patterns, unwritten_line};

use crate::arguments::Given;
use crate::below::{are_several, reach, status_below};
use crate::colors::Screen;
use crate::files::Files;
use crate::folders::Folders;
use crate::job::job_of;
use crate::marked_files::{Marking, mark_each};
use crate::open::Open;
use crate::options::Flags;
use crate::rule_lists::{read_rules, tell_all};
use crate::run::finish;
use crate::tell::PROGRAM;
use chromesquid::{AhoCorasick, Automaton, BuildError, Sink};
use rule_files::{MAX_DIGITS, digits_of};
use secret_rules::{LineCover, Rules};
use std::alloc::Global;
use std::io::Read;
use tool_parts::errors::Errors;

/// How many bytes a line may have, where nothing else is said.
const USUAL_MOST: u64 = 1024 * 1024;

/// How many rules there may be at most.
const MOST_RULES: usize = 2_147_483_646;

/// Reads the rules, searches by them, and tells how many lines are too long.
pub fn mark_asked<F: Open + Folders, R: Read, W: Sink, E: Sink>(
    alloc: Global,
    given: &Given<'_>,
    screen: &Screen<'_>,
    files: &F,
    input: &mut R,
    output: &mut W,
    errors: &mut Errors<'_, E>,
) -> u8
    ensures bound { result ≤ 2 }
    ensures searches { result < 2 → MarksAsked (known_by F.Open F.Folders files.now) screen.now (said given.now)
        (R.remaining input.old) (W.taken output.old) (W.taken output.new) result }
    ensures begins { MayBeginAsked (known_by F.Open F.Folders files.now) screen.now (said given.now)
        (R.remaining input.old) (W.taken output.old) (W.taken output.new) }
    ensures told { TellsStatus E.Sink IsMarkTold given.now.flags.no_messages Nothing result errors.old errors.new }
    ensures flushed { result < 2 → W.flushed output.new ≡ true }
{
    let names = given.rule_files.as_slice();
    let Some(rules) = read_rules(alloc, names, files, input, errors) else {
        return 2;
    };
    let most = most_of(&given.flags);
    let cover = match cover_of(alloc, &rules, most) {
        Ok(cover) => cover,
        Err(error) => {
            tell_all(&error, errors);
            return 2;
        }
    };
    let mut marking = Marking {
        cover,
        rules: rules.as_slice(),
        input_read: false,
        long: 0,
    };
    let operands = given.operands.as_slice();
    let status = mark_operands(
        alloc,
        &mut marking,
        given,
        screen,
        operands,
        files,
        input,
        output,
        errors,
    );
    tell_long(most, marking.long, errors);
    status
}

/// How many bytes a line may have.
fn most_of(flags: &Flags) -> usize
    ensures most { result ≡ most_said flags.now }
{
    flags.longest.unwrap_or(USUAL_MOST) as usize
}

/// What marks lines of so many bytes by these rules.
fn cover_of<'r, 'a>(
    alloc: Global,
    rules: &'r Rules,
    most: usize,
) -> Result<LineCover<'r, 'a, AhoCorasick>, BuildError>
    ensures ready { IfOk result (CanCoverLines ⟦<AhoCorasick as Automaton>⟧) }
    ensures rules { IfOk result (λ cover. rules_of cover ≡ rules.entry.now) }
    ensures marks { IfOk result (λ cover. MarksBy ⟦<AhoCorasick as Automaton>⟧ cover
        (covering_by false rules.entry.now most no_patterns)) }
{
    let count = rules.as_slice().len();
    if count > MOST_RULES {
        return Err(BuildError::PatternIDOverflow {
            max: MOST_RULES as u64,
            requested: count as u64,
        });
    }
    match LineCover::new(alloc, rules, None, false, most) {
        Ok(cover) => Ok(cover),
        Err(_) => Err(BuildError::OutOfMemory),
    }
}

/// Searches the files that these operands name, with those below folders where that is asked for.
fn mark_operands<A: Automaton, F: Open + Folders, R: Read, W: Sink, E: Sink>(
    alloc: Global,
    marking: &mut Marking<'_, '_, A>,
    given: &Given<'_>,
    screen: &Screen<'_>,
    names: &[&[u8]],
    files: &F,
    input: &mut R,
    output: &mut W,
    errors: &mut Errors<'_, E>,
) -> u8
    requires ready { IsMarking A.Automaton marking.old }
    requires unread { marking.old.input_read ≡ false }
    ensures bound { result ≤ 2 }
    ensures searched { IfMarks A.Automaton marking.old.cover (λ covering. result < 2
        → ReachesMarked (known_by F.Open F.Folders files.now) screen.now (said given.now) covering
        (name_bytes names.now) (R.remaining input.old) (W.taken output.old) (W.taken output.new) result) }
    ensures begun { IfMarks A.Automaton marking.old.cover (λ covering.
        MayReachMarked (known_by F.Open F.Folders files.now) screen.now (said given.now) covering
        (name_bytes names.now) (R.remaining input.old) (W.taken output.old) (W.taken output.new)) }
    ensures told { TellsStatus E.Sink IsMarkTold given.now.flags.no_messages (shown_by given.now.flags)
        result errors.old errors.new }
    ensures flushed { result < 2 → W.flushed output.new ≡ true }
{
    let operands = Files {
        alloc,
        names,
        files,
    };
    let Some(found) = reach(given, &operands, errors) else {
        return 2;
    };
    let listed = found.names.as_slice();
    let several = are_several(&given.flags, names, listed);
    let job = job_of(alloc, given, screen, several);
    let seen = mark_each(marking, &job, files, listed, input, output, errors);
    let status = seen.status(job.shown);
    finish(
        status_below(&given.flags, found.unread.as_slice(), status),
        output,
        errors,
    )
}

/// Tells how many lines have more bytes than this, if one has.
fn tell_long<E: Sink>(most: usize, count: u64, errors: &mut Errors<'_, E>)
    ensures told { TellsBytes E.Sink errors.old errors.new (long_message most count) }
{
    if count == 0 {
        return;
    }
    tell_some_long(most, count, errors);
}

/// Tells that so many lines have more bytes than this.
fn tell_some_long<E: Sink>(most: usize, count: u64, errors: &mut Errors<'_, E>)
    ensures told { TellsBytes E.Sink errors.old errors.new (unwritten_line most count) }
{
    let mut room = [0; MAX_DIGITS];
    let mut other_room = [0; MAX_DIGITS];
    let digits = digits_of(most as u64, &mut room);
    let other_digits = digits_of(count, &mut other_room);
    errors.write(&[
        PROGRAM,
        b": lines of more than ",
        digits,
        b" bytes, each selected and not written: ",
        other_digits,
        b"\n",
    ]);
}
