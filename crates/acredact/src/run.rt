//! A call of the program over its arguments, files and streams.

ghost use Rattle.std.specs.Prelude.{◌≡◌, ◌<◌, ◌≤◌, IfErr, IfOk, OnOk, false, true};
ghost use Rattle.chromesquid.specs.Searcher.{ForItsPatterns};
ghost use Rattle.tool_parts.specs.Arguments.{texts};
ghost use Rattle.tool_parts.specs.Streams.{WritesBytes};
ghost use Rattle.tool_parts.specs.Telling.{TellsSome};
ghost use Rattle.acredact.specs.Arguments.{AreMistaken, AsksAnyCheck, GivesNoPattern, IfAsked, IfChecking, IfNoCheck, IfRight, IfRuled, IfRulesCheck, IsCheck, RefusesUnclean, all_given, counts_asked, has};
ghost use Rattle.acredact.specs.Back.{DoesByPatterns};
ghost use Rattle.acredact.specs.Calls.{AskedOutcome, BeginsAsked, CountsAsked, HidesAsked, IsPrintFailure, IsWrongLine, LeavesNoneAsked, NumbersToldAsked, OutputFails, RedactsAsked, TellsAsked, WarnsAsked};
ghost use Rattle.acredact.specs.Checks.{MatchedAsked, TellsListsAsked, TellsUncheckedAsked, UnmatchedAsked};
ghost use Rattle.acredact.specs.Files.{CanDo};
ghost use Rattle.acredact.specs.RuledChecks.{ListsByRules, RuledClean, RuledFindingsBegin, RuledFound};
ghost use Rattle.acredact.specs.Ruled.{NotesAsked, RuledAsked, RuledBegins, RuledCountsAsked, RuledTells};
ghost use Rattle.acredact.specs.Statuses.{IsIdle, SaysOfCall};
ghost use Rattle.acredact.specs.declared.options.Word.TheVariants.{Forms, Summary};

use crate::arguments::items;
use crate::check::check;
use crate::counts::counts_of;
use crate::failure::{Failure, report, report_end};
use crate::files::{Job, redact_files};
use crate::folder::Folder;
use crate::help::{HELP, VERSION};
use crate::mistakes::Mistake;
use crate::options::{Aim, Item, Word, aim_of, counts, gives_pattern, has};
use crate::prepare::{job_of, prepare};
use crate::ruled::redact_by_rules;
use crate::ruled_check::check_by_rules;
use crate::run_counts::tell_counted;
use crate::secrets::load;
use crate::streams::Streams;
use crate::summary::Volume;
use chromesquid::{AhoCorasick, Automaton, FromWrite, Sink, StreamError, write_whole};
use std::alloc::Global;
use std::io::{Read, Write};

/// Writes each file with a replacement in the place of each match, or checks whether it has one, and answers the exit status: 0 where
/// all was redacted or nothing would be, 1 where a check found something, and 2 where the arguments or the patterns are wrong,
/// memory runs out, or a file cannot be read or the output not be written.
pub fn run<F: Folder, I: Read, W: Write, E: Sink>(
    alloc: Global,
    arguments: &[String],
    folder: &F,
    streams: &mut Streams<'_, I, W, E>,
) -> u8
    // Wrong arguments are found and told before anything is read or written.
    ensures wrong { AreMistaken arguments.now → result ≡ 2 }
    ensures unread { AreMistaken arguments.now
        → streams.new.input ≡ streams.old.input }
    ensures unwritten { AreMistaken arguments.now
        → streams.new.output ≡ streams.old.output }
    ensures tells_wrong { AreMistaken arguments.now → TellsSome E.Sink
        (IsWrongLine (texts arguments.now)) streams.old.errors streams.new.errors }
    ensures patternless { IfAsked arguments.now (λ given. GivesNoPattern given → result ≡ 2) }
    ensures idle { IfAsked arguments.now (λ given.
        GivesNoPattern given → IsIdle streams.old streams.new) }
    ensures check_patternless { IfChecking arguments.now (λ given. GivesNoPattern given → result ≡ 2) }
    ensures check_idle { IfChecking arguments.now (λ given.
        GivesNoPattern given → IsIdle streams.old streams.new) }

    // Where the status is 0, the files were redacted, one after another, and no secret is left.
    ensures redacts { IfAsked arguments.now (λ given. result ≡ 0
        → RedactsAsked W.Write F.Folder folder.now given streams.old streams.new) }

    // Where forms are asked for, each character that shows a bit of a secret in one of them lies in a range that was replaced.
    ensures hides { IfAsked arguments.now (λ given. has Forms given ≡ true → result ≡ 0
        → HidesAsked W.Write F.Folder folder.now given streams.old streams.new) }

    // Whatever the status is, each file's redaction was written or a beginning of it, one after another, and nothing else. Where a
    // read failed, of a cover all was written but for what lies in a match or may.
    ensures begins { IfAsked arguments.now (λ given.
        BeginsAsked W.Write F.Folder folder.now given streams.old streams.new) }

    // Where pieces that are not clean are refused, and all that occurs counts, no pattern occurs in what was written of a file.
    ensures strict { IfAsked arguments.now (λ given. RefusesUnclean given → result ≡ 0
        → LeavesNoneAsked W.Write F.Folder folder.now given streams.old streams.new) }

    // Where all was redacted nothing is told but a piece of a cover that is not clean, and the counts that are asked for: for each
    // pattern, how many ranges of all texts were replaced by its text.
    ensures quiet { IfAsked arguments.now (λ given. counts_asked given ≡ false → result ≡ 0
        → WarnsAsked E.Sink F.Folder folder.now given streams.old streams.new) }
    ensures counts { IfAsked arguments.now (λ given. counts_asked given ≡ true → result ≡ 0
        → CountsAsked W.Write E.Sink F.Folder folder.now given streams.old streams.new) }

    // Else lines say why, and hold nothing of a file's content or of a pattern.
    ensures tells { IfAsked arguments.now (λ given. result ≡ 2
        → TellsAsked E.Sink F.Folder folder.now given streams.old streams.new) }

    // Whatever the status is: lines without a counted number are told, then at most such with numbers, none of them greater than the
    // bytes that were read, and then at most why the call ends early.
    ensures numbers { IfAsked arguments.now (λ given.
        NumbersToldAsked E.Sink F.Folder folder.now given streams.old streams.new) }

    // A check: at status 0 each file was read to its end, and nothing counts in any: no pattern occurs, or with `-w` none stands as a word.
    // At status 1 one does, in some file.
    ensures unmatched { IfChecking arguments.now (λ given. result ≡ 0
        → UnmatchedAsked F.Folder folder.now given streams.old streams.new) }
    ensures matched { IfChecking arguments.now (λ given. result ≡ 1
        → MatchedAsked F.Folder folder.now given streams.old streams.new) }

    // At any other each file that cannot be read is told, and each other was looked at; or it is told why the check ends. At status 0
    // or 1 nothing is told but of patterns of lists that may be meant otherwise, and where these are refused there is none.
    ensures unchecked { IfChecking arguments.now (λ given. result ≡ 2
        → TellsUncheckedAsked F.Folder folder.now given streams.old streams.new E.Sink) }
    ensures check_quiet { IfChecking arguments.now (λ all. result < 2
        → TellsListsAsked F.Folder folder.now all streams.old streams.new E.Sink) }
    ensures check_unwritten { IfChecking arguments.now (λ _.
        streams.new.output ≡ streams.old.output) }

    // With rules: where the status is 0, each line of each file was written with just those bytes replaced that a rule marks or a pattern
    // holds. Whatever it is, of each file that was written or a beginning of it, and nothing else.
    ensures ruled { IfRuled arguments.now (λ given. result ≡ 0
        → RuledAsked W.Write F.Folder folder.now given streams.old streams.new) }
    ensures ruled_begins { IfRuled arguments.now (λ given.
        RuledBegins W.Write F.Folder folder.now given streams.old streams.new) }

    // Lines say why it is 2, and hold nothing of a line. Where it is 0 they tell which patterns of lists may be meant otherwise, how many
    // lines were too long, and what is asked for: how many runs of all files have the number of each pattern and rule, and how much was
    // read.
    ensures ruled_tells { IfRuled arguments.now (λ given. result ≡ 2
        → RuledTells E.Sink F.Folder folder.now given streams.old streams.new) }
    ensures ruled_quiet { IfRuled arguments.now (λ given. result ≡ 0
        → NotesAsked E.Sink F.Folder folder.now given streams.old streams.new) }
    ensures ruled_counts { IfRuled arguments.now (λ given. result ≡ 0
        → RuledCountsAsked E.Sink F.Folder folder.now given streams.old streams.new) }

    // A check by rules: at status 0 each file was read to its end, and in no line is something covered; at status 1 it is in some line. Where
    // that is asked for, each number that a run of a line has is told once, as a line that holds nothing of the text, and nothing else is
    // written; whatever the status is, a beginning of that.
    ensures rules_unmatched { IfRulesCheck arguments.now (λ given. result ≡ 0
        → RuledClean F.Folder folder.now given streams.old streams.new W.Write) }
    ensures rules_matched { IfRulesCheck arguments.now (λ given. result ≡ 1
        → RuledFound F.Folder folder.now given streams.old streams.new W.Write) }
    ensures rules_findings { IfRulesCheck arguments.now (λ given.
        RuledFindingsBegin F.Folder folder.now given streams.old streams.new W.Write) }

    // Where it is not asked for nothing is written. Lines say why the status is 2, and else nothing is told but of patterns of lists.
    ensures rules_unwritten { IfRulesCheck arguments.now (λ given. has Summary given ≡ false
        → streams.new.output ≡ streams.old.output) }
    ensures rules_unchecked { IfRulesCheck arguments.now (λ given. result ≡ 2
        → RuledTells E.Sink F.Folder folder.now given streams.old streams.new) }
    ensures rules_check_quiet { IfRulesCheck arguments.now (λ given. result < 2
        → ListsByRules F.Folder folder.now given streams.old streams.new E.Sink) }
    ensures rules_flushed { IfRulesCheck arguments.now (λ given. has Summary given ≡ true → result < 2
        → streams.new.output.device.flushed ≡ true) }

    // All output of a redaction was flushed where the status tells of no failure. A check alone ends with status 1.
    ensures flushed { IfNoCheck arguments.now (result ≡ 0
        → streams.new.output.device.flushed ≡ true) }
    ensures bound { result ≤ 2 }
    ensures one { result ≡ 1 → IsCheck arguments.now }
{
    answer_to(alloc, arguments, folder, streams)
}

/// Reads the arguments, does what they ask for, and answers the exit status.
pub fn answer_to<F: Folder, I: Read, W: Write, E: Sink>(
    alloc: Global,
    arguments: &[String],
    folder: &F,
    streams: &mut Streams<'_, I, W, E>,
) -> u8
    ensures wrong { AreMistaken arguments.now → result ≡ 2 }
    ensures idle { AreMistaken arguments.now → IsIdle streams.old streams.new }
    ensures tells_wrong { AreMistaken arguments.now → TellsSome E.Sink
        (IsWrongLine (texts arguments.now)) streams.old.errors streams.new.errors }
    ensures says { IfRight arguments.now (λ given.
        SaysOfCall W.Write E.Sink F.Folder folder.now result streams.old streams.new given) }
    ensures flushed { IfNoCheck arguments.now (result ≡ 0
        → streams.new.output.device.flushed ≡ true) }
    ensures bound { result ≤ 2 }
    ensures one { result ≡ 1 → IsCheck arguments.now }
{
    match items(alloc, arguments) {
        Ok(given) => answer(alloc, given.as_slice(), folder, streams),
        Err(mistake) => report(&Failure::Arguments(mistake), &mut streams.errors),
    }
}

/// Does what the options and files ask for, and answers the exit status.
fn answer<F: Folder, I: Read, W: Write, E: Sink>(
    alloc: Global,
    given: &[Item<'_>],
    folder: &F,
    streams: &mut Streams<'_, I, W, E>,
) -> u8
    ensures says { SaysOfCall W.Write E.Sink F.Folder folder.now
        result streams.old streams.new (all_given given.now) }
    ensures flushed { (AsksAnyCheck (all_given given.now) → ⊥) → result ≡ 0
        → streams.new.output.device.flushed ≡ true }
    ensures bound { result ≤ 2 }
    ensures one { result ≡ 1 → AsksAnyCheck (all_given given.now) }
{
    match aim_of(given) {
        Aim::CheckLines => check_by_rules(alloc, given, folder, streams),
        Aim::CheckTexts => check(
            alloc,
            given,
            folder,
            &mut streams.input,
            &mut streams.errors,
        ),
        Aim::RedactLines => {
            let done = redact_by_rules(alloc, given, folder, streams);
            report_end(done, &mut streams.errors)
        }
        Aim::RedactTexts => {
            let done = redact_asked(alloc, given, folder, streams);
            report_end(done, &mut streams.errors)
        }
        Aim::Explain => {
            let done = print(&mut streams.output, explained(given));
            report_end(done, &mut streams.errors)
        }
    }
}

/// What the help says, where it is asked for, and else the version.
fn explained(given: &[Item<'_>]) -> &'static [u8] {
    if has(given, Word::Help) {
        return HELP;
    }
    VERSION
}

/// Redacts what the options and files ask for, without rules, and answers whether all files were read.
fn redact_asked<'a, F: Folder, I: Read, W: Write, E: Sink>(
    alloc: Global,
    given: &[Item<'a>],
    folder: &F,
    streams: &mut Streams<'_, I, W, E>,
) -> Result<bool, Failure<'a>>
    ensures patternless { GivesNoPattern (all_given given.now) → OnOk result ⊥ }
    ensures idle { GivesNoPattern (all_given given.now) → IsIdle streams.old streams.new }
    ensures outcome { AskedOutcome W.Write E.Sink
        F.Folder folder.now (all_given given.now) result streams.old streams.new }
    ensures flushed { OnOk result (streams.new.output.device.flushed ≡ true) }
{
    if !gives_pattern(given) {
        return Err(Failure::Arguments(Mistake::NoPattern));
    }
    let secrets = match load(alloc, given, folder, &mut streams.input) {
        Ok(secrets) => secrets,
        Err(failure) => return Err(failure),
    };
    let rules = secrets.rules.as_slice();
    let mut counted = counts_of(alloc, rules, counts(given))?;
    let ready = match prepare(alloc, given, &secrets, &mut streams.errors) {
        Ok(ready) => ready,
        Err(failure) => return Err(failure),
    };
    let tally = counted.as_mut_slice();
    let mut volume = Volume { files: 0, bytes: 0 };
    let job = job_of(alloc, given, &secrets, &ready, folder);
    let all = redact_by(&ready.searcher, &job, tally, &mut volume, streams)?;
    let errors = &mut streams.errors;
    tell_counted(alloc, all, given, rules, None, tally, volume, errors)
}

/// Writes a text whole, and answers that nothing was left out.
fn print<'a, W: Write>(output: &mut FromWrite<W>, text: &[u8]) -> Result<bool, Failure<'a>>
    ensures printed { OnOk result (WritesBytes W.Write output.old output.new text.now) }
    ensures all { IfOk result (λ all. all ≡ true) }
    ensures flushed { OnOk result (output.new.device.flushed ≡ true) }
    ensures fails { IfErr result (IsPrintFailure (OutputFails output.old output.new)) }
{
    write_whole(output, text)?;
    output.flush()?;
    Ok(true)
}

/// Redacts all files by the walk backward that the searcher holds, if it holds one, and else by the automaton that it holds.
pub fn redact_by<F: Folder, I: Read, W: Write, E: Sink>(
    searcher: &AhoCorasick,
    job: &Job<'_, '_, F>,
    counts: &mut [u64],
    volume: &mut Volume,
    streams: &mut Streams<'_, I, W, E>,
) -> Result<bool, StreamError>
    requires ready { CanDo ⟦<AhoCorasick as Automaton>⟧ searcher.now job.now }
    ensures done { ForItsPatterns searcher.now (DoesByPatterns W.Write E.Sink F.Folder job.now
        result streams.old streams.new counts.old counts.new volume.old volume.new) }
{
    let back = searcher.backward();
    if back.is_some() {
        return redact_files(searcher.itself(), back, job, counts, volume, streams);
    }
    if let Some(rows) = searcher.rows() {
        return redact_files(rows, back, job, counts, volume, streams);
    }
    match searcher.levels() {
        Some(levels) => redact_files(levels, back, job, counts, volume, streams),
        None => redact_files(searcher.itself(), back, job, counts, volume, streams),
    }
}
