//! Searching the files of a call by rules, one after another.

ghost use Rattle.std.specs.Prelude.{◌≡◌, ◌||◌, List, Option, false, ℕ};
ghost use Rattle.std.specs.Io.KnownBytes.{Keeps};
ghost use Rattle.tool_parts.specs.Names.{is_input};
ghost use Rattle.tool_parts.specs.Telling.{TellsSome};
ghost use Rattle.acgrep.specs.InTurn.{AreSeen};
ghost use Rattle.acgrep.specs.Listed.{listed_bytes};
ghost use Rattle.acgrep.specs.MarkedFiles.{ComesMarked, ComesOfName, IfMarks, IsMarking, SameMarking, mark_work};
ghost use Rattle.acgrep.specs.Told.{TellsIf, TellsOutcome};
ghost use Rattle.acgrep.specs.ToldByRules.{IsMarkTold};

use crate::failure::Stop;
use crate::files::{Outcome, Seen, break_off, end_file, goes_on, job_for, shown_name};
use crate::job::Job;
use crate::marked::Task;
use crate::marked_lines::{End, end_of, mark_source};
use crate::noting::Noting;
use crate::open::{Open, is_input};
use crate::opening::{input_obstacle, open_other, pass_over};
use crate::tell::{PROGRAM, tell_memory};
use chromesquid::{Automaton, FromRead, Sink};
use rule_files::{RuleFlaw, bad_rule, tell_rule};
use secret_rules::{LineCover, Rule};
use std::alloc::Global;
use std::cell::Cell;
use std::io::Read;
use tool_parts::errors::Errors;

/// What stands for a file in messages about a rule that cannot be used.
const RULES: &[u8] = b"--rules";

/// What marks the lines of files.
#[derive(Drop)]
pub struct Marking<'r, 'a, A> {
    /// What marks them.
    pub cover: LineCover<'r, 'a, A>,
    /// The rules.
    pub rules: &'r [Rule],
    /// Whether standard input was read.
    pub input_read: bool,
    /// How many lines are too long.
    pub long: u64,
}

/// Searches the files of these names, one after another, and answers what was seen. A file that cannot be read does not
/// stop the others.
pub fn mark_each<A: Automaton, F: Open, R: Read, W: Sink, E: Sink>(
    marking: &mut Marking<'_, '_, A>,
    job: &Job<'_>,
    files: &F,
    names: &[Vec<u8>],
    input: &mut R,
    output: &mut W,
    errors: &mut Errors<'_, E>,
) -> Seen
    requires ready { IsMarking A.Automaton marking.old }
    requires unread { marking.old.input_read ≡ false }
    ensures seen { IfMarks A.Automaton marking.old.cover (λ covering.
        AreSeen (mark_work job.now covering (F.holds files.now) (R.remaining input.old)) job.now.shown
        (listed_bytes names.now) false marking.new.input_read
        (W.taken output.old) (W.taken output.new) result) }
    ensures told { TellsIf E.Sink IsMarkTold job.now.hushed result.failed errors.old errors.new }
{
    let mut seen = Seen::new();
    let mut rest = names;
    while goes_on(rest, seen) {
        let outcome = mark_name(
            marking,
            job,
            files,
            rest[0].as_slice(),
            input,
            output,
            errors,
        );
        seen = seen.after(job.shown, outcome);
        rest = &rest[1..];
    }
    seen
}

/// Searches the file of a name. Standard input has nothing more where it was read before.
fn mark_name<A: Automaton, F: Open, R: Read, W: Sink, E: Sink>(
    marking: &mut Marking<'_, '_, A>,
    job: &Job<'_>,
    files: &F,
    name: &[u8],
    input: &mut R,
    output: &mut W,
    errors: &mut Errors<'_, E>,
) -> Outcome
    requires ready { IsMarking A.Automaton marking.old }
    // Of standard input it is known what it has left at first, where it was not read before.
    ensures comes { IfMarks A.Automaton marking.old.cover (λ covering.
        ComesOfName job.now covering (F.holds files.now) (R.remaining input.old) marking.old.input_read
        name.now (W.taken output.old) (W.taken output.new) result) }
    ensures read { marking.new.input_read ≡ (marking.old.input_read || is_input name.now) }
    ensures leaves { is_input name.now ≡ false → input.new ≡ input.old }
    ensures told { TellsOutcome E.Sink IsMarkTold job.now.hushed result errors.old errors.new }
    ensures same { SameMarking marking.old marking.new }
    ensures ready { IsMarking A.Automaton marking.new }
{
    let named = job_for(job, shown_name(job, name), false);
    let again = marking.input_read;
    let from_input = is_input(name);
    marking.input_read |= from_input;
    let why = if from_input {
        match input_obstacle(&named, files) {
            Some(why) => why,
            None => {
                if again {
                    return end_file(&named, 0, output, errors);
                }
                return mark_reader(marking, &named, input, output, errors);
            }
        }
    } else {
        match open_other(&named, files, name) {
            Err(why) => why,
            Ok(file) => return mark_reader(marking, &named, file, output, errors),
        }
    };
    pass_over(&named, why, output, errors);
    Outcome::Unread
}

/// Searches what a reader gives, and writes what is asked of it.
fn mark_reader<A: Automaton, R: Read + Drop, W: Sink, E: Sink>(
    marking: &mut Marking<'_, '_, A>,
    job: &Job<'_>,
    reader: R,
    output: &mut W,
    errors: &mut Errors<'_, E>,
) -> Outcome
    requires ready { IsMarking A.Automaton marking.old }
    ensures comes { (known : Option (List ℕ)) → Keeps known (R.remaining reader)
        → IfMarks A.Automaton marking.old.cover (λ covering.
        ComesMarked job.now covering known (W.taken output.old) (W.taken output.new) result) }
    ensures read { marking.new.input_read ≡ marking.old.input_read }
    ensures told { TellsOutcome E.Sink IsMarkTold job.now.hushed result errors.old errors.new }
    ensures same { SameMarking marking.old marking.new }
    ensures ready { IsMarking A.Automaton marking.new }
{
    let reason = Cell::new(None);
    let ends = Cell::new(0);
    let mut source = FromRead::new(Noting::new(reader, &reason, &ends));
    let task = Task {
        alloc: job.alloc,
        shown: job.shown,
        style: job.style,
        rules: marking.rules,
    };
    let came = mark_source(
        &mut marking.cover,
        task,
        job.first,
        &ends,
        &mut source,
        output,
    );
    marking.long = marking.long.saturating_add(came.pass.long);
    let selected = came.pass.selected;
    match end_of(came, reason.get(), job.shown) {
        None => end_file(job, selected, output, errors),
        Some(End::Rule(number)) => {
            let _ = output.flush();
            tell_too_big(job.alloc, marking.rules, number, errors);
            Outcome::Stopped
        }
        Some(End::Stop(stop)) => break_off(job, selected, &stop, output, errors),
    }
}

/// Tells that the expression of the rule of a number is too big to be compiled.
fn tell_too_big<E: Sink>(alloc: Global, rules: &[Rule], number: usize, errors: &mut Errors<'_, E>)
    ensures told { TellsSome E.Sink IsMarkTold errors.old errors.new }
{
    if let Some(rule) = rules.get(number) {
        if let Ok(bad) = bad_rule(alloc, number.saturating_add(1), rule, RuleFlaw::TooBig) {
            return tell_rule(errors, PROGRAM, RULES, &bad);
        }
    }
    tell_memory(errors);
}
