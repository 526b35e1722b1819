//! A call of `acfind` over its arguments and streams. Both programs take the build and the report of a failure from here.

ghost use Rattle.std.specs.Prelude.{IfErr, IfOk, IsOk, OnOk, true, ◌≡◌, ◌<◌, ◌≤◌, ⊤};
ghost use Rattle.std.specs.Io.KnownBytes.{IsAtEnd};
ghost use Rattle.aho_core.specs.Patterns.{Patterns};
ghost use Rattle.aho_core.specs.declared.search.Anchored.TheVariants.{No};
ghost use Rattle.aho_core.specs.declared.search.MatchKind.TheVariants.{Standard};
ghost use Rattle.chromesquid.specs.Searcher.{Answers, IsBuiltFrom, match_kind_of};
ghost use Rattle.tool_parts.specs.Answers.{AreFindsIn, AreMatches, BeginsIfWritten, Begun, BegunFor, BuildsFirst, BuildsFirstToReplace, FailsMatches, FailsReplacement, LeavesIfNotPrinted, LeavesIfNotReplaced, PrintsAll, PrintsAnswer, PrintsFor, PrintsIfDone, TellsFailure, TellsIfFailed, TellsLine, WritesIfDone, WritesReplacement};
ghost use Rattle.tool_parts.specs.Arguments.{AreWrong, AskForNone, IfAsked, IfReplacing};
ghost use Rattle.tool_parts.specs.Asked.{Builds, asked_for, kind_of, request_patterns, settings_for};
ghost use Rattle.tool_parts.specs.Automata.{IsNFAFor};
ghost use Rattle.tool_parts.specs.Failures.{status_of_failure, HasStatus, IsOfWrite, LeavesPrinting};
ghost use Rattle.tool_parts.specs.Streams.{bytes_left, contents, CountsFaults, CountsReads, CountsWrites, GivesBytes, NoFaults, Unread, Unwritten};
ghost use Rattle.tool_parts.specs.declared.command.Task.TheVariants.{Overlap};
ghost use Rattle.tool_parts.specs.declared.failure.Failure.TheVariants.{Usage};

use crate::command::{Request, Task, parse, parse_replace};
use crate::failure::Failure;
use crate::print::print;
use crate::replace::replace;
use crate::searcher::{bytes_of, searcher_for};
use chromesquid::noncontiguous::{Builder, NFA};
use chromesquid::{AhoCorasick, Automaton, FromRead, FromWrite, Input, Sink, Source};
use std::alloc::Global;
use std::io::{Read, Write};

/// How many bytes are asked of the input at once.
const PIECE: usize = 16 * 1024;

/// Does what the arguments after the program's name ask for, and answers the exit status: 0 where matches were printed or
/// the input was replaced to its end, 1 where there is no match to print, 2 where the arguments are wrong, the automaton,
/// the search or the replacement is refused or memory runs out, and 3 where a device fails.
///
/// The automaton is built before the input is read. The input is read whole before a match is printed; a replacement is
/// written while it is read, in memory that does not grow with it. Where the status is 0 or 1, all output was flushed.
/// Where it is 2 or 3, `errors` gets a line that says why; where that line cannot be written, the status is the same.
pub fn run<R: Read, W: Write, E: Write>(
    alloc: Global,
    arguments: &[String],
    input: &mut FromRead<R>,
    output: &mut FromWrite<W>,
    errors: &mut FromWrite<E>,
) -> u8
    // Wrong arguments are found first, and told.
    ensures usage { AreWrong arguments.now → result ≡ 2 }
    ensures unread { AreWrong arguments.now → Unread input.old input.new }
    ensures unwritten { AreWrong arguments.now → Unwritten output.old output.new }
    ensures tells_usage { AreWrong arguments.now → TellsLine E.Write errors.old errors.new Usage }

    // For right arguments the automaton is built before anything is read.
    ensures built_first { IfAsked arguments.now (BuildsFirst input.old input.new) }
    ensures built_to_replace { IfReplacing arguments.now
        (BuildsFirstToReplace input.old input.new) }

    // All matches are printed, and told by the status.
    ensures prints { IfAsked arguments.now
        (PrintsIfDone W.Write input.old input.new output.old output.new result) }
    // Or the input is written with its matches replaced, all of it.
    ensures replaces { IfReplacing arguments.now
        (WritesIfDone W.Write input.old input.new output.old output.new result) }
    ensures no_status_1 { IfReplacing arguments.now (λ _. result < 2 → result ≡ 0) }
    ensures flushed { result < 2 → output.new.device.flushed ≡ true }
    ensures quiet { result < 2 → errors.new ≡ errors.old }

    // Any other status is that of a failure, which is told. It is that of a device exactly where this device failed.
    ensures no_fault { result < 2 → NoFaults input.old input.new output.old output.new }
    ensures fails { TellsIfFailed E.Write errors.old errors.new
        input.old input.new output.old output.new result }
    ensures bound { result ≤ 3 }
    ensures refused { IfAsked arguments.now (λ _.
        result ≡ 2 → Unwritten output.old output.new) }
    ensures tells_failure { 2 ≤ result → IfAsked arguments.now (λ asked.
        TellsFailure E.Write errors.old errors.new result
        (FailsMatches W.Write input.old input.new output.old output.new asked)) }
    ensures begins { IfAsked arguments.now
        (BeginsIfWritten W.Write input.old input.new output.old output.new) }
    ensures tells_replace_failure { 2 ≤ result → IfReplacing arguments.now (λ asked.
        TellsFailure E.Write errors.old errors.new result
        (FailsReplacement W.Write input.old input.new output.old output.new asked)) }
{
    match answer(alloc, arguments, input, output) {
        Ok(true) => 0,
        Ok(false) => 1,
        Err(failure) => report(&failure, errors),
    }
}

/// Writes why a call answers nothing as a line, and answers the exit status, whether that could be written or not.
pub fn report<E: Write>(failure: &Failure, errors: &mut FromWrite<E>) -> u8
    ensures status { result ≡ status_of_failure failure.now }
    ensures line { TellsLine E.Write errors.old errors.new failure.now }
{
    match failure.write_line(errors) {
        Ok(()) => {
            let _ = errors.flush();
            failure.status()
        }
        Err(_) => failure.status(),
    }
}

/// Does what the arguments ask for. Where they ask for matches, it answers whether there was one.
fn answer<R: Read, W: Write>(
    alloc: Global,
    arguments: &[String],
    input: &mut FromRead<R>,
    output: &mut FromWrite<W>,
) -> Result<bool, Failure>
    ensures usage { AreWrong arguments.now → result ≡ Err Usage }
    ensures unread { AreWrong arguments.now → Unread input.old input.new }
    ensures unwritten { AreWrong arguments.now → Unwritten output.old output.new }
    ensures built_first { IfAsked arguments.now (BuildsFirst input.old input.new) }
    ensures built_to_replace { IfReplacing arguments.now
        (BuildsFirstToReplace input.old input.new) }
    ensures prints { IfOk result (λ any. IfAsked arguments.now
        (PrintsAnswer W.Write input.old input.new output.old output.new any)) }
    ensures replaces { OnOk result (IfReplacing arguments.now
        (WritesReplacement (contents W.Write input.old input.new output.old output.new))) }
    ensures replaced { IfReplacing arguments.now (λ _. IfOk result (λ any. any ≡ true)) }
    ensures flushed { OnOk result (output.new.device.flushed ≡ true) }
    ensures leaves { IfAsked arguments.now
        (LeavesIfNotPrinted W.Write input.old input.new output.old output.new result) }
    ensures leaves_replacing { IfReplacing arguments.now
        (LeavesIfNotReplaced W.Write input.old input.new output.old output.new result) }
    ensures faults { CountsFaults input.old input.new output.old output.new result }
{
    match parse_replace(arguments) {
        Some(pairs) => {
            replace(alloc, pairs, input, output)?;
            Ok(true)
        }
        None => answer_matches(alloc, arguments, input, output),
    }
}

/// Prints the matches in the input that the arguments ask for, and answers whether there was one.
fn answer_matches<R: Read, W: Write>(
    alloc: Global,
    arguments: &[String],
    input: &mut FromRead<R>,
    output: &mut FromWrite<W>,
) -> Result<bool, Failure>
    ensures usage { AskForNone arguments.now → result ≡ Err Usage }
    ensures unread { AskForNone arguments.now
        → Unread input.old input.new }
    ensures unwritten { AskForNone arguments.now
        → Unwritten output.old output.new }
    ensures built_first { IfAsked arguments.now (BuildsFirst input.old input.new) }
    ensures prints { IfOk result (λ any. IfAsked arguments.now
        (PrintsAnswer W.Write input.old input.new output.old output.new any)) }
    ensures flushed { OnOk result (output.new.device.flushed ≡ true) }
    ensures leaves { IfAsked arguments.now
        (LeavesIfNotPrinted W.Write input.old input.new output.old output.new result) }
    ensures faults { CountsFaults input.old input.new output.old output.new result }
{
    match parse(arguments) {
        Some(request) => search_input(alloc, &request, input, output),
        None => Err(Failure::Usage),
    }
}

/// Prints the matches in the input that a request asks for, and answers whether there was one.
fn search_input<R: Read, W: Write>(
    alloc: Global,
    request: &Request<'_>,
    input: &mut FromRead<R>,
    output: &mut FromWrite<W>,
) -> Result<bool, Failure>
    ensures built_first { BuildsFirst input.old input.new (asked_for request.now) }
    ensures prints { IfOk result (λ any. PrintsAnswer W.Write
        input.old input.new output.old output.new any (asked_for request.now)) }
    ensures flushed { OnOk result (output.new.device.flushed ≡ true) }
    ensures leaves { LeavesIfNotPrinted W.Write
        input.old input.new output.old output.new result (asked_for request.now) }
    ensures faults { CountsFaults input.old input.new output.old output.new result }
{
    let patterns = bytes_of(alloc, request.patterns)?;
    let automaton = build(alloc, request)?;
    let text = read(alloc, input)?;
    let searcher = searcher_for(
        alloc,
        automaton,
        request.task,
        patterns.as_slice(),
        text.len(),
    );
    print_request(&searcher, request, text.as_slice(), output)
}

/// The automaton of the patterns that a request asks for, or why it is refused.
pub fn build(alloc: Global, request: &Request<'_>) -> Result<NFA, Failure>
    ensures of { IfOk result (IsNFAFor (request_patterns request.now)) }
    ensures leaves { IfErr result (LeavesPrinting ⊤ ⊤ ⊥) }
    ensures accepted { OnOk result (Builds (asked_for request.now)) }
    ensures status { IfErr result (HasStatus 2) }
{
    let patterns = request.patterns.iter().map(|pattern| pattern.as_bytes());
    Ok(builder(request.task).build(alloc, patterns)?)
}

/// How the automaton is built.
fn builder(task: Task) -> Builder
    ensures settings { result ≡ settings_for task }
{
    let mut builder = NFA::builder();
    builder
        .match_kind(task.kind())
        .ascii_case_insensitive(task.ignore_case());
    builder
}

/// All of the input. A failed read is not tried again.
fn read<R: Read>(alloc: Global, input: &mut FromRead<R>) -> Result<Vec<u8>, Failure>
    ensures read { IfOk result (λ text. GivesBytes input.old input.new text.items) }
    ensures ended { OnOk result (IsAtEnd (bytes_left input.new)) }
    ensures leaves { IfErr result (LeavesPrinting ⊥ ⊤ ⊥) }
    ensures faults { CountsReads input.old input.new result }
{
    input.restart();
    let mut text = Vec::new(alloc);
    let mut piece = [0; PIECE];
    loop {
        match input.read(&mut piece) {
            Ok(0) => return Ok(text),
            Ok(count) => text.extend_from_slice(&piece[..count])?,
            Err(_) => return Err(Failure::Read),
        }
    }
}

/// Prints the matches of a text that a request asks for, by the rows of the searcher if it has some, and answers whether there was
/// one.
fn print_request<W: Write>(
    searcher: &AhoCorasick,
    request: &Request<'_>,
    text: &[u8],
    output: &mut FromWrite<W>,
) -> Result<bool, Failure>
    requires of { IsBuiltFrom searcher.now (request_patterns request.now) }
    requires answers { Answers searcher.now No }
    requires kind { match_kind_of searcher.now ≡ kind_of request.now.task }
    ensures printed { IfOk result (PrintsAll W.Write request.now.task
        (request_patterns request.now) text.now output.old output.new) }
    ensures begun { Begun W.Write (AreMatches request.now.task
        (request_patterns request.now) text.now) output.old output.new }
    ensures flushed { OnOk result (output.new.device.flushed ≡ true) }
    ensures of_write { IfErr result IsOfWrite }
    ensures faults { CountsWrites output.old output.new result }
{
    match searcher.rows() {
        Some(rows) => print_matches(rows, request.task, text, output),
        None => print_matches(searcher.itself(), request.task, text, output),
    }
}

/// Prints the matches of a text that a task asks for, and answers whether there was one.
///
/// The automaton has the task's match kind, and refuses no search that is not anchored.
fn print_matches<A: Automaton, W: Write>(
    automaton: &A,
    task: Task,
    text: &[u8],
    output: &mut FromWrite<W>,
) -> Result<bool, Failure>
    requires of { (p : Patterns) × A.is_of automaton.now p }
    requires starts { IsOk (A.start automaton.now No) }
    requires kind { A.kind automaton.now ≡ kind_of task }
    ensures printed { PrintsFor W.Write (A.is_of automaton.now)
        (λ p. AreMatches task p text.now) output.old output.new result }
    ensures begun { BegunFor W.Write (A.is_of automaton.now)
        (λ p. AreMatches task p text.now) output.old output.new }
    ensures flushed { OnOk result (output.new.device.flushed ≡ true) }
    ensures of_write { IfErr result IsOfWrite }
    ensures faults { CountsWrites output.old output.new result }
{
    match task {
        Task::Find { .. } => print_finds(automaton, text, output),
        Task::Overlap => print_occurrences(automaton, text, output),
    }
}

/// Prints the matches of a text one after another, and answers whether there was one.
fn print_finds<A: Automaton, W: Write>(
    automaton: &A,
    text: &[u8],
    output: &mut FromWrite<W>,
) -> Result<bool, Failure>
    requires of { (p : Patterns) × A.is_of automaton.now p }
    requires starts { IsOk (A.start automaton.now No) }
    ensures printed { PrintsFor W.Write (A.is_of automaton.now)
        (λ p. AreFindsIn p text.now) output.old output.new result }
    ensures begun { BegunFor W.Write (A.is_of automaton.now)
        (λ p. AreFindsIn p text.now) output.old output.new }
    ensures flushed { OnOk result (output.new.device.flushed ≡ true) }
    ensures of_write { IfErr result IsOfWrite }
    ensures faults { CountsWrites output.old output.new result }
{
    print(output, automaton.try_find_iter(Input::new(text))?)
}

/// Prints all that occurs in a text, and answers whether something does.
fn print_occurrences<A: Automaton, W: Write>(
    automaton: &A,
    text: &[u8],
    output: &mut FromWrite<W>,
) -> Result<bool, Failure>
    requires of { (p : Patterns) × A.is_of automaton.now p }
    requires starts { IsOk (A.start automaton.now No) }
    requires standard { A.kind automaton.now ≡ Standard }
    ensures printed { PrintsFor W.Write (A.is_of automaton.now)
        (λ p. AreMatches Overlap p text.now) output.old output.new result }
    ensures begun { BegunFor W.Write (A.is_of automaton.now)
        (λ p. AreMatches Overlap p text.now) output.old output.new }
    ensures flushed { OnOk result (output.new.device.flushed ≡ true) }
    ensures of_write { IfErr result IsOfWrite }
    ensures faults { CountsWrites output.old output.new result }
{
    print(
        output,
        automaton.try_find_overlapping_iter(Input::new(text))?,
    )
}
