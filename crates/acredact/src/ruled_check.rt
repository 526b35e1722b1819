//! A check by rules: whether something would be redacted in a line of a file, and, where that is asked for, by which rule in which line.

ghost use Rattle.std.specs.Prelude.{◌≡◌, ◌<◌, ◌≤◌, IfOk, OnOk, false, true};
ghost use mathlib.Core.Logic.{inr};
ghost use Rattle.chromesquid.specs.Searcher.{IsBuiltFrom};
ghost use Rattle.secret_rules.specs.OpenLines.{CanSearch};
ghost use Rattle.tool_parts.specs.Names.{name_bytes};
ghost use Rattle.acredact.specs.Arguments.{all_given, has};
ghost use Rattle.acredact.specs.Calls.{call_of, names_asked};
ghost use Rattle.acredact.specs.Ruled.{Between, patterns_by_case};
ghost use Rattle.acredact.specs.RuledChecks.{AskedCheck, IsByLines, LoadedCheck, RuledCheckStatus, RuledFindingsBegin, check_load, lines_looked_for};
ghost use Rattle.acredact.specs.Tables.{patterns_in, secrets_of};
ghost use Rattle.acredact.specs.declared.options.Word.TheVariants.{Summary};

use crate::check::status_of;
use crate::failure::{Failure, report};
use crate::folder::Folder;
use crate::legend::Legend;
use crate::line_size::most_of;
use crate::look::{Searched, Verdict, look_at_files};
use crate::options::{Item, Word, has};
use crate::rule::Rule;
use crate::ruled_files::line_cover;
use crate::ruled_load::{load_rules, ready_for_lines};
use crate::streams::Streams;
use crate::teller::ByLines;
use chromesquid::{AhoCorasick, Automaton, BuildError, Nowhere, Sink};
use secret_rules::Rules;
use std::alloc::Global;
use std::io::{Read, Write};

/// Looks at the lines of each file, and answers the exit status: 0 where nothing would be redacted in any, 1 where something would be, and
/// 2 where rules or patterns are wrong, memory runs out, or a file cannot be read or the output not be written.
pub fn check_by_rules<F: Folder, I: Read, W: Write, E: Sink>(
    alloc: Global,
    given: &[Item<'_>],
    folder: &F,
    streams: &mut Streams<'_, I, W, E>,
) -> u8
    ensures says { Between W.Write (RuledCheckStatus E.Sink (call_of F.Folder folder.now (all_given given.now)) result)
        streams.old streams.new }
    ensures begins { RuledFindingsBegin F.Folder folder.now (all_given given.now) streams.old streams.new W.Write }
    ensures unwritten { has Summary (all_given given.now) ≡ false
        → streams.new.output ≡ streams.old.output }
    ensures flushed { has Summary (all_given given.now) ≡ true → result < 2
        → streams.new.output.device.flushed ≡ true }
    ensures bound { result ≤ 2 }
{
    match check_given(alloc, given, folder, streams) {
        Ok(verdict) => status_of(verdict),
        Err(failure) => report(&failure, &mut streams.errors),
    }
}

/// Loads all patterns and rules, tells of doubtful patterns of lists, and looks at all files by what was loaded.
fn check_given<'a, F: Folder, I: Read, W: Write, E: Sink>(
    alloc: Global,
    given: &[Item<'a>],
    folder: &F,
    streams: &mut Streams<'_, I, W, E>,
) -> Result<Verdict, Failure<'a>>
    ensures outcome { AskedCheck W.Write E.Sink F.Folder folder.now (all_given given.now)
        result streams.old streams.new }
    ensures unwritten { has Summary (all_given given.now) ≡ false
        → streams.new.output ≡ streams.old.output }
    ensures flushed { has Summary (all_given given.now) ≡ true
        → OnOk result (streams.new.output.device.flushed ≡ true) }
{
    let rules = match load_rules(alloc, given, folder, &mut streams.input) {
        Ok(rules) => rules,
        Err(failure) => return Err(failure),
    };
    let secrets = rules.secrets.as_slice();
    match ready_for_lines(alloc, given, secrets, &mut streams.errors) {
        Ok(ready) => check_by(
            alloc,
            given,
            secrets,
            &rules.rules,
            folder,
            &ready.searcher,
            ready.names.as_slice(),
            streams,
        ),
        Err(failure) => Err(failure),
    }
}

/// Looks at all files by the automaton that the searcher of these patterns holds.
#[tactic(auto, using(crate::proofs::Standing::search_as))]
fn check_by<'a, F: Folder, I: Read, W: Write, E: Sink>(
    alloc: Global,
    given: &[Item<'_>],
    secrets: &[Rule],
    rules: &Rules,
    folder: &F,
    searcher: &AhoCorasick,
    names: &[&str],
    streams: &mut Streams<'_, I, W, E>,
) -> Result<Verdict, Failure<'a>>
    requires can { CanSearch ⟦<AhoCorasick as Automaton>⟧ searcher.now }
    requires of { IsBuiltFrom searcher.now (patterns_by_case (all_given given.now) (patterns_in (secrets_of secrets.now))) }
    requires names { name_bytes names.now ≡ names_asked (all_given given.now) }
    ensures outcome { LoadedCheck W.Write E.Sink F.Folder folder.now given.now secrets.now rules.now
        result streams.old streams.new }
    ensures unwritten { has Summary (all_given given.now) ≡ false
        → streams.new.output ≡ streams.old.output }
    ensures flushed { has Summary (all_given given.now) ≡ true
        → OnOk result (streams.new.output.device.flushed ≡ true) }
{
    if let Some(rows) = searcher.rows() {
        return check_cover(alloc, given, secrets, rules, folder, rows, names, streams);
    }
    match searcher.levels() {
        Some(levels) => check_cover(alloc, given, secrets, rules, folder, levels, names, streams),
        None => check_cover(
            alloc,
            given,
            secrets,
            rules,
            folder,
            searcher.itself(),
            names,
            streams,
        ),
    }
}

/// Looks at all files by an automaton of these patterns, and tells to the output what is found, where that is asked for, and flushes it.
fn check_cover<'a, A: Automaton, F: Folder, I: Read, W: Write, E: Sink>(
    alloc: Global,
    given: &[Item<'_>],
    secrets: &[Rule],
    rules: &Rules,
    folder: &F,
    automaton: &A,
    names: &[&str],
    streams: &mut Streams<'_, I, W, E>,
) -> Result<Verdict, Failure<'a>>
    requires can { CanSearch A.Automaton automaton.now }
    requires of { A.is_of automaton.now (patterns_by_case (all_given given.now) (patterns_in (secrets_of secrets.now))) }
    requires names { name_bytes names.now ≡ names_asked (all_given given.now) }
    ensures outcome { LoadedCheck W.Write E.Sink F.Folder folder.now given.now secrets.now rules.now
        result streams.old streams.new }
    ensures unwritten { has Summary (all_given given.now) ≡ false
        → streams.new.output ≡ streams.old.output }
    ensures flushed { has Summary (all_given given.now) ≡ true
        → OnOk result (streams.new.output.device.flushed ≡ true) }
{
    let mut looker = looker_by(alloc, given, secrets, rules, automaton)?;
    let tells = has(given, Word::Summary);
    let files = Searched {
        folder,
        names,
        tells,
    };
    if !tells {
        return look_at_files(
            &mut looker,
            &files,
            &mut streams.input,
            &mut Nowhere,
            &mut streams.errors,
        );
    }
    let verdict = match look_at_files(
        &mut looker,
        &files,
        &mut streams.input,
        &mut streams.output,
        &mut streams.errors,
    ) {
        Ok(verdict) => verdict,
        Err(failure) => return Err(failure),
    };
    match streams.output.flush() {
        Ok(()) => Ok(verdict),
        Err(error) => Err(Failure::from(error)),
    }
}

/// What looks for these patterns and rules in lines.
fn looker_by<'r, 'a, 's, A: Automaton>(
    alloc: Global,
    given: &[Item<'_>],
    secrets: &'s [Rule],
    rules: &'r Rules,
    automaton: &'a A,
) -> Result<ByLines<'r, 'a, 's, 'r, A>, BuildError>
    requires can { CanSearch A.Automaton automaton.now }
    requires of { A.is_of automaton.now (patterns_by_case (all_given given.now) (patterns_in (secrets_of secrets.now))) }
    ensures by { IfOk result (λ looker. IsByLines A.Automaton looker.cover looker.legend
        (inr (lines_looked_for (all_given given.now) (check_load secrets.entry.now rules.entry.now)))) }
{
    let words = has(given, Word::AsWord);
    let most = most_of(given);
    let cover = line_cover(alloc, automaton, rules, words, most)?;
    let rules = rules.as_slice();
    let legend = Legend {
        secrets,
        rules,
        most,
    };
    Ok(ByLines {
        alloc,
        cover,
        legend,
    })
}
