//! A call over its arguments, files and streams.

ghost use Rattle.std.specs.Prelude.{◌≡◌, ◌≤◌, ◌<◌, [], IfSome, IsTrue, None, Some, false, true};
ghost use Rattle.std.specs.Io.KnownBytes.{Appends, Keeps};
ghost use Rattle.aho_devices.specs.Counts.{AppendsBeginning};
ghost use Rattle.aho_core.specs.Replacement.{pieces_of};
ghost use Rattle.acgrep.specs.Listed.{listed_bytes};
ghost use Rattle.acgrep.specs.Arguments.{said, said_by};
ghost use Rattle.acgrep.specs.Beside.{unfit_said};
ghost use Rattle.tool_parts.specs.Names.{name_bytes};
ghost use Rattle.tool_parts.specs.Telling.{Tells, TellsSome};
ghost use Rattle.acgrep.specs.Told.{IsLoud, IsMessage, StaysOrFails, TellsOfCall, TellsOfSaid, TellsOfSearch};
ghost use Rattle.acgrep.specs.ToldByRules.{IsMarkTold, TellsByRules};
ghost use Rattle.acgrep.specs.Mistakes.{MayTellOf, TellsLacking, TellsMistake, TellsNoPattern, TellsRefused, TellsUnfit};
ghost use Rattle.acgrep.specs.Folders.{known_by, tree_of};
ghost use Rattle.acgrep.specs.Runs.{AsksAny, AsksByRules, AsksToSearch, BeginsNoMatch, BeginsSaid, BeginsSearch, BeginsFor, GivesNone, IfSaid, IsByPatterns, Searches, SearchesFor, SearchesSaid, WritesNoMatch, are_empty, kind_sought, knows_none, lists_finds, origins_of, selects_none, status_told, takes_any, words_sought};
ghost use Rattle.acgrep.specs.RunsByRules.{BeginsByRules, SearchesByRules};

use crate::arguments::{Given, Source, parse, with_rules};
use crate::beside::{tell_unfit, unfit_of};
use crate::colors::Screen;
use crate::counted::{end_counts, search_or_count};
use crate::excluded::{expanded, read_globs};
use crate::files::Files;
use crate::folders::Folders;
use crate::help::{HELP, VERSION};
use crate::job::{asks_none, inverts, is_colored};
use crate::keys::{read_keys, tell_ending, tell_refusal};
use crate::open::Open;
use crate::options::{Fit, Flags, Shown};
use crate::patterns::{first_holding, lines_of};
use crate::ruled::mark_asked;
use crate::tell::{tell_memory, tell_write, tell_wrong};
use crate::wrong::{Refusal, Wrong};
use chromesquid::{MatchKind, Sink, write_whole};
use std::alloc::Global;
use std::io::Read;
use tool_parts::building::searcher_of;
use tool_parts::errors::Errors;

/// Does what the arguments after the program's name ask for, and answers the exit status: 0 where a line was selected, 1 where
/// none was, or 0 there too under `--no-match-ok`, and 2 where an error occurred. `screen` says what is known of the output's colours.
pub fn run<F: Open + Folders, R: Read, W: Sink, E: Sink>(
    alloc: Global,
    arguments: &[Vec<u8>],
    screen: &Screen<'_>,
    files: &F,
    input: &mut R,
    output: &mut W,
    errors: &mut Errors<'_, E>,
) -> u8
    ensures bound { result ≤ 2 }

    // Wrong arguments are found first, and the first mistake is told.
    ensures usage { said_by (listed_bytes arguments.now) ≡ None → result ≡ 2 }
    ensures mistake { said_by (listed_bytes arguments.now) ≡ None
        → TellsMistake E.Sink (listed_bytes arguments.now) errors.old errors.new }
    ensures unread { said_by (listed_bytes arguments.now) ≡ None → input.new ≡ input.old }
    ensures unwritten { said_by (listed_bytes arguments.now) ≡ None
        → Keeps (W.taken output.old) (W.taken output.new) }

    // Options that do not go together are told.
    ensures unfit { IfSaid arguments.now (λ said. AsksAny said → IfSome (unfit_said said) (λ line. result ≡ 2)) }
    ensures unfitting { IfSaid arguments.now (λ s. AsksAny s → IfSome (unfit_said s)
        (λ line. TellsUnfit E.Sink line errors.old errors.new)) }
    ensures unfit_unread { IfSaid arguments.now (λ s. AsksAny s → IfSome (unfit_said s)
        (λ line. input.new ≡ input.old)) }
    ensures unfit_unwritten { IfSaid arguments.now (λ s. AsksAny s → IfSome (unfit_said s)
        (λ line. Keeps (W.taken output.old) (W.taken output.new))) }

    // A search needs a pattern, and where there is none that is told.
    ensures patternless { IfSaid arguments.now (λ said. AsksToSearch said → GivesNone said
        → result ≡ 2) }
    ensures lacking { IfSaid arguments.now (λ said. AsksToSearch said → GivesNone said
        → TellsLacking E.Sink errors.old errors.new) }

    // Where the status tells of no error, the globs in files and then the patterns were read, and these searched for in the files that
    // the globs do not leave out, one after another.
    ensures searches { IfSaid arguments.now (λ said. AsksToSearch said → result < 2
        → Searches (known_by F.Open F.Folders files.now) screen.now said
        (R.remaining input.old) (R.remaining input.new)
        (W.taken output.old) (W.taken output.new) result) }

    // Whatever the status, what is written is a beginning of what is asked: the files are told one after another, and one that
    // cannot be read, or to whose end the output cannot be written, by some first lines and a beginning of what follows.
    ensures begins { IfSaid arguments.now (λ said. AsksToSearch said
        → BeginsSearch (known_by F.Open F.Folders files.now) screen.now said
        (R.remaining input.old) (W.taken output.old) (W.taken output.new)) }

    // By rules the files are searched so for the lines in which they mark something.
    ensures marks { IfSaid arguments.now (λ said. AsksByRules said → result < 2
        → SearchesByRules (known_by F.Open F.Folders files.now) screen.now said
        (R.remaining input.old) (W.taken output.old) (W.taken output.new) result) }
    ensures begins_marks { IfSaid arguments.now (λ said. AsksByRules said
        → BeginsByRules (known_by F.Open F.Folders files.now) screen.now said
        (R.remaining input.old) (W.taken output.old) (W.taken output.new)) }

    // Where the status tells of no error nothing is told, but under `-q` of files that cannot be read. Where it tells of one, a line
    // says why: whole, unless writing it failed. Under `-s` no line names a file that is searched, and there may be none.
    ensures tells { IsByPatterns (said_by (listed_bytes arguments.now))
        → Tells E.Sink (MayTellOf (known_by F.Open F.Folders files.now) (R.remaining input.old)
        (listed_bytes arguments.now) (said_by (listed_bytes arguments.now))) errors.old errors.new }
    ensures silent { IfSaid arguments.now (λ s. IsByPatterns (Some s) → s.flags.quiet ≡ false
        → result < 2 → errors.new ≡ errors.old) }
    ensures says_why { IsLoud (said_by (listed_bytes arguments.now)) → result ≡ 2
        → TellsSome E.Sink (MayTellOf (known_by F.Open F.Folders files.now) (R.remaining input.old)
        (listed_bytes arguments.now) (said_by (listed_bytes arguments.now))) errors.old errors.new }

    // By rules a line may tell of these too, and of lines that are too long with any status.
    ensures tells_marks { IfSaid arguments.now (λ said. AsksByRules said
        → Tells E.Sink IsMarkTold errors.old errors.new) }
    ensures says_why_marks { IfSaid arguments.now (λ said. AsksByRules said → said.flags.no_messages ≡ false
        → result ≡ 2 → TellsSome E.Sink IsMarkTold errors.old errors.new) }

    // All output was flushed where the status tells of no error.
    ensures flushed { result < 2 → W.flushed output.new ≡ true }
{
    match parse(alloc, arguments) {
        Ok(given) => answer(alloc, given, screen, files, input, output, errors),
        Err(refusal) => {
            tell_refused(refusal, errors);
            2
        }
    }
}

/// Tells why the arguments are refused.
fn tell_refused<E: Sink>(refusal: Refusal<'_>, errors: &mut Errors<'_, E>)
    ensures exact { TellsRefused E.Sink refusal.entry errors.old errors.new }
{
    match refusal {
        Refusal::Wrong(wrong) => tell_wrong(errors, wrong),
        Refusal::OutOfMemory => tell_memory(errors),
    }
}

/// Tells that there is no memory to begin with, and answers the exit status.
pub fn refuse<E: Sink>(errors: &mut Errors<'_, E>) -> u8
    ensures failed { result ≡ 2 }
    ensures told { TellsSome E.Sink (IsMessage []) errors.old errors.new }
{
    tell_memory(errors);
    2
}

/// Hands on what the output keeps, and answers the status.
pub fn finish<W: Sink, E: Sink>(status: u8, output: &mut W, errors: &mut Errors<'_, E>) -> u8
    ensures kept { Keeps (W.taken output.old) (W.taken output.new) }
    ensures flushed { result < 2 → W.flushed output.new ≡ true }
    ensures told { StaysOrFails E.Sink status result errors.old errors.new }
{
    match output.flush() {
        Ok(()) => status,
        Err(_) => {
            // Where the status is 2 it is told already why.
            if status < 2 {
                tell_write(errors);
                return 2;
            }
            status
        }
    }
}

/// Does what right arguments ask for.
fn answer<F: Open + Folders, R: Read, W: Sink, E: Sink>(
    alloc: Global,
    given: Given<'_>,
    screen: &Screen<'_>,
    files: &F,
    input: &mut R,
    output: &mut W,
    errors: &mut Errors<'_, E>,
) -> u8
    ensures bound { result ≤ 2 }
    ensures patternless { AsksToSearch (said given.entry) → GivesNone (said given.entry) → result ≡ 2 }
    ensures lacking { AsksToSearch (said given.entry) → GivesNone (said given.entry)
        → TellsLacking E.Sink errors.old errors.new }
    ensures searches { AsksToSearch (said given.entry) → result < 2
        → Searches (known_by F.Open F.Folders files.now) screen.now (said given.entry)
        (R.remaining input.old) (R.remaining input.new)
        (W.taken output.old) (W.taken output.new) result }
    ensures begins { AsksToSearch (said given.entry)
        → BeginsSearch (known_by F.Open F.Folders files.now) screen.now (said given.entry)
        (R.remaining input.old) (W.taken output.old) (W.taken output.new) }
    ensures unfit { AsksAny (said given.entry) → IfSome (unfit_said (said given.entry)) (λ line. result ≡ 2) }
    ensures unfitting { AsksAny (said given.entry) → IfSome (unfit_said (said given.entry))
        (λ line. TellsUnfit E.Sink line errors.old errors.new) }
    ensures unfit_unread { AsksAny (said given.entry) → IfSome (unfit_said (said given.entry))
        (λ line. input.new ≡ input.old) }
    ensures unfit_unwritten { AsksAny (said given.entry) → IfSome (unfit_said (said given.entry))
        (λ line. Keeps (W.taken output.old) (W.taken output.new)) }
    ensures marks { AsksByRules (said given.entry) → result < 2
        → SearchesByRules (known_by F.Open F.Folders files.now) screen.now (said given.entry)
        (R.remaining input.old) (W.taken output.old) (W.taken output.new) result }
    ensures begins_marks { AsksByRules (said given.entry)
        → BeginsByRules (known_by F.Open F.Folders files.now) screen.now (said given.entry)
        (R.remaining input.old) (W.taken output.old) (W.taken output.new) }
    ensures told_marks { AsksByRules (said given.entry)
        → TellsByRules E.Sink (said given.entry) result errors.old errors.new }
    ensures told { IsByPatterns (Some (said given.entry))
        → TellsOfCall E.Sink (known_by F.Open F.Folders files.now) (R.remaining input.old)
        (said given.entry) result errors.old errors.new }
    ensures flushed { result < 2 → W.flushed output.new ≡ true }
{
    if given.flags.version {
        return write_text(VERSION, output, errors);
    }
    if given.flags.help {
        return write_text(HELP, output, errors);
    }
    if let Some(unfit) = unfit_of(&given) {
        tell_unfit(errors, unfit);
        return 2;
    }
    if lacks_pattern(&given) {
        tell_wrong(errors, Wrong::NoPattern);
        return 2;
    }
    // The globs of files that are not searched are read first.
    let rules = given.rules.as_slice();
    let Some(texts) = read_globs(alloc, rules, files, input, errors) else {
        return 2;
    };
    let Ok(all) = expanded(alloc, rules, texts.as_slice()) else {
        tell_memory(errors);
        return 2;
    };
    let no_match_ok = given.flags.no_match_ok;
    let by_rules = given.flags.by_rules;
    let ruled = with_rules(given, all);
    if by_rules {
        let status = mark_asked(alloc, &ruled, screen, files, input, output, errors);
        return status_told(no_match_ok, status);
    }
    let status = search_asked(alloc, &ruled, screen, files, input, output, errors);
    status_told(no_match_ok, status)
}

/// Whether neither an option nor an operand gives a pattern, and lines are not selected by rules.
fn lacks_pattern(given: &Given<'_>) -> bool
    ensures by { IsTrue result → given.now.flags.by_rules ≡ false }
    ensures none { IsTrue result → GivesNone (said given.now) }
    ensures some { result ≡ false → given.now.flags.by_rules ≡ false → GivesNone (said given.now) → ⊥ }
{
    !given.flags.by_rules && given.sources.is_empty() && given.operands.is_empty()
}

/// The status of a search, by whether finding nothing is no failure.
fn status_told(no_match_ok: bool, status: u8) -> u8
    ensures told { result ≡ status_told no_match_ok status }
    ensures bound { status ≤ 2 → result ≤ 2 }
    ensures low { result < 2 → status < 2 }
    ensures failed { result ≡ 2 → status ≡ 2 }
{
    if no_match_ok && status == 1 {
        return 0;
    }
    status
}

/// Searches as the arguments say. Where no option gives patterns the first operand does.
fn search_asked<F: Open + Folders, R: Read, W: Sink, E: Sink>(
    alloc: Global,
    given: &Given<'_>,
    screen: &Screen<'_>,
    files: &F,
    input: &mut R,
    output: &mut W,
    errors: &mut Errors<'_, E>,
) -> u8
    ensures bound { result ≤ 2 }
    ensures patternless { GivesNone (said given.now) → result ≡ 2 }
    ensures lacking { GivesNone (said given.now)
        → TellsNoPattern E.Sink errors.old errors.new }
    ensures searches { result < 2 → SearchesSaid (known_by F.Open F.Folders files.now) screen.now (said given.now)
        (R.remaining input.old) (R.remaining input.new)
        (W.taken output.old) (W.taken output.new) result }
    ensures begins { BeginsSaid (known_by F.Open F.Folders files.now) screen.now (said given.now)
        (R.remaining input.old) (W.taken output.old) (W.taken output.new) }
    ensures told { TellsOfSaid E.Sink (tree_of F.Folders files.now) (said given.now) result errors.old errors.new }
    ensures flushed { result < 2 → W.flushed output.new ≡ true }
{
    let sources = given.sources.as_slice();
    let operands = given.operands.as_slice();
    if !sources.is_empty() {
        return search(
            alloc, given, screen, sources, operands, files, input, output, errors,
        );
    }
    match operands.split_first() {
        Some((pattern, names)) => {
            let first = [Source::Text(*pattern)];
            search(
                alloc, given, screen, &first, names, files, input, output, errors,
            )
        }
        None => {
            tell_wrong(errors, Wrong::NoPattern);
            2
        }
    }
}

/// Writes a text, and answers the status.
fn write_text<W: Sink, E: Sink>(text: &[u8], output: &mut W, errors: &mut Errors<'_, E>) -> u8
    ensures written { result ≡ 0 → Appends (W.taken output.old) (W.taken output.new) text.now }
    // Where it fails a beginning of that is written.
    ensures begun { AppendsBeginning (W.taken output.old) (W.taken output.new) text.now }
    ensures flushed { result < 2 → W.flushed output.new ≡ true }
    ensures told { StaysOrFails E.Sink 0 result errors.old errors.new }
{
    match write_whole(output, text) {
        Ok(()) => finish(0, output, errors),
        Err(_) => {
            tell_write(errors);
            2
        }
    }
}

/// Searches the files of these names for the patterns of these sources.
fn search<F: Open + Folders, R: Read, W: Sink, E: Sink>(
    alloc: Global,
    given: &Given<'_>,
    screen: &Screen<'_>,
    sources: &[Source<'_>],
    names: &[&[u8]],
    files: &F,
    input: &mut R,
    output: &mut W,
    errors: &mut Errors<'_, E>,
) -> u8
    ensures bound { result ≤ 2 }
    ensures searches { result < 2 → SearchesFor (known_by F.Open F.Folders files.now) screen.now (said given.now)
        (origins_of sources.now) (name_bytes names.now)
        (R.remaining input.old) (R.remaining input.new)
        (W.taken output.old) (W.taken output.new) result }
    ensures begins { BeginsFor (known_by F.Open F.Folders files.now) screen.now (said given.now)
        (origins_of sources.now) (name_bytes names.now)
        (R.remaining input.old) (W.taken output.old) (W.taken output.new) }
    ensures told { TellsOfSearch E.Sink (tree_of F.Folders files.now) (said given.now)
        (origins_of sources.now) (name_bytes names.now) result errors.old errors.new }
    ensures flushed { result < 2 → W.flushed output.new ≡ true }
{
    let flags = &given.flags;
    let Some(keys) = read_keys(alloc, sources, files, input, errors) else {
        return 2;
    };
    let Ok(patterns) = lines_of(alloc, keys.text.as_slice()) else {
        tell_memory(errors);
        return 2;
    };
    let all = patterns.as_slice();
    let words = sought(flags, all);
    if knows_none(flags, words) {
        return end_unsearched(alloc, flags, all, output, errors);
    }
    if let Some(number) = first_holding(words, flags.ending()) {
        tell_ending(&keys, sources, number, errors);
        return 2;
    }
    let named = Files {
        alloc,
        names,
        files,
    };
    let listed = lists_finds(flags, screen.colored);
    match searcher_of(alloc, kind_sought(flags), flags.ignore_case, listed, words) {
        Ok(searcher) => search_or_count(
            &searcher, given, screen, all, &named, input, output, errors,
        ),
        Err(error) => {
            tell_refusal(&keys, sources, &error, errors);
            2
        }
    }
}

/// Ends a call of which it is known that no line is selected, and answers the status.
fn end_unsearched<W: Sink, E: Sink>(
    alloc: Global,
    flags: &Flags,
    patterns: &[&[u8]],
    output: &mut W,
    errors: &mut Errors<'_, E>,
) -> u8
    ensures written { result < 2 → WritesNoMatch flags.now (pieces_of patterns.now)
        (W.taken output.old) (W.taken output.new) }
    ensures begun { BeginsNoMatch flags.now (pieces_of patterns.now)
        (W.taken output.old) (W.taken output.new) }
    ensures flushed { result < 2 → W.flushed output.new ≡ true }
    ensures told { StaysOrFails E.Sink 1 result errors.old errors.new }
{
    if flags.asks_counts() {
        return end_counts(alloc, patterns, b"", flags.ending(), 1, output, errors);
    }
    finish(1, output, errors)
}

/// The patterns that are searched for: none where at most no line is asked for.
fn sought<'a>(flags: &Flags, patterns: &'a [&'a [u8]]) -> &'a [&'a [u8]]
    ensures words { pieces_of result.now ≡ words_sought flags.now (pieces_of patterns.now) }
{
    if asks_none(flags.most) {
        &patterns[..0]
    } else {
        patterns
    }
}

/// The match kind that is searched by. Where not any match is enough, the longest tells whether there is one that is.
fn kind_sought(flags: &Flags) -> MatchKind
    ensures { result ≡ kind_sought flags.now }
{
    if takes_any(flags.fit()) {
        flags.kind
    } else {
        MatchKind::LeftmostLongest
    }
}

/// Whether any match is enough.
fn takes_any(fit: Fit) -> bool
    ensures { result ≡ takes_any fit }
{
    matches!(fit, Fit::AnyPart)
}

/// Whether that no line is selected is known without reading a file, and no file is to be named for it. Then none is opened, as with
/// grep.
fn knows_none(flags: &Flags, patterns: &[&[u8]]) -> bool
    ensures { result ≡ knows_none flags.now (pieces_of patterns.now) }
{
    (flags.quiet || !flags.lacking) && selects_none(patterns, flags.fit(), inverts(flags))
}

/// Whether no line is selected, whatever it holds: there is no pattern, or `-v` is given without `-w` and `-x` and all are empty.
fn selects_none(patterns: &[&[u8]], fit: Fit, invert: bool) -> bool
    ensures { result ≡ selects_none fit invert (pieces_of patterns.now) }
{
    if patterns.is_empty() {
        return !invert;
    }
    invert && takes_any(fit) && are_empty(patterns)
}

/// Whether all patterns are empty.
fn are_empty(patterns: &[&[u8]]) -> bool
    ensures { result ≡ are_empty (pieces_of patterns.now) }
{
    for pattern in patterns {
        if !pattern.is_empty() {
            return false;
        }
    }
    true
}

/// Whether matches are written, or coloured.
fn lists_finds(flags: &Flags, terminal: bool) -> bool
    ensures listed { result ≡ lists_finds flags.now terminal }
{
    match flags.shown() {
        Shown::Matches | Shown::Objects => true,
        Shown::Lines => is_colored(flags.color, terminal),
        _ => false,
    }
}
