//! A call with rules: each line is redacted by what rules mark in it, and by the patterns that occur in it.

ghost use Rattle.std.specs.Prelude.{◌≡◌, IfOk, None, OnOk, true};
ghost use Rattle.aho_core.specs.Replacement.{pieces_of};
ghost use Rattle.chromesquid.specs.Searcher.{IsBuiltFrom};
ghost use Rattle.secret_rules.specs.OpenLines.{CanSearch};
ghost use Rattle.tool_parts.specs.Names.{name_bytes};
ghost use Rattle.tool_parts.specs.Telling.{TellsBytes};
ghost use Rattle.acredact.specs.LongLines.{long_told};
ghost use Rattle.acredact.specs.Arguments.{all_given};
ghost use Rattle.acredact.specs.Calls.{call_of, names_asked};
ghost use Rattle.acredact.specs.Ruled.{Between, IsLined, LoadedRuled, RuledCall, named_count, own_text, patterns_by_case, ruled_load, ruling_by, texts_asked};
ghost use Rattle.acredact.specs.Tables.{patterns_in, secrets_of};

use crate::failure::{Failure, tell_with_other};
use crate::files::redact_flushed;
use crate::folder::Folder;
use crate::line_rules::failure_in;
use crate::line_size::most_of;
use crate::options::{Item, Word, has};
use crate::patterns::replacements_of;
use crate::prepare::{key_by, text_of};
use crate::rule::Rule;
use crate::ruled_files::{Lined, line_cover};
use crate::ruled_load::{GivenRules, load_rules, ready_for_lines};
use crate::run_counts::tell_counted;
use crate::run_pieces::RunPieces;
use crate::secrets::{key_bytes, load_key};
use crate::streams::Streams;
use crate::summary::{Volume, last_of};
use chromesquid::any::Pieces;
use chromesquid::{AhoCorasick, Automaton, BuildError, Sink};
use secret_rules::{Rule as LineRule, Rules};
use std::alloc::{AllocError, Global};
use std::io::{Read, Write};
use tool_parts::errors::Errors;

/// Loads all patterns, rules and the key, tells of doubtful patterns of lists, redacts each file line by line by what was loaded, and
/// answers whether all were read.
///
/// # Errors
///
/// Rules or patterns are wrong, memory runs out, or the output or the counts cannot be written.
pub fn redact_by_rules<'a, F: Folder, I: Read, W: Write, E: Sink>(
    alloc: Global,
    given: &[Item<'a>],
    folder: &F,
    streams: &mut Streams<'_, I, W, E>,
) -> Result<bool, Failure<'a>>
    ensures outcome { Between W.Write (RuledCall E.Sink (call_of F.Folder folder.now (all_given given.now)) result)
        streams.old streams.new }
    ensures flushed { OnOk result (streams.new.output.device.flushed ≡ true) }
{
    let GivenRules { secrets, rules } = match load_rules(alloc, given, folder, &mut streams.input) {
        Ok(loaded) => loaded,
        Err(failure) => return Err(failure),
    };
    let keyed = match load_key(alloc, given, secrets, folder, &mut streams.input) {
        Ok(keyed) => keyed,
        Err(failure) => return Err(failure),
    };
    let key = key_bytes(&keyed);
    let secrets = keyed.rules.as_slice();
    match ready_for_lines(alloc, given, secrets, &mut streams.errors) {
        Ok(ready) => redact_by(
            alloc,
            given,
            secrets,
            &rules,
            key,
            folder,
            &ready.searcher,
            ready.names.as_slice(),
            streams,
        ),
        Err(failure) => Err(failure),
    }
}

/// Redacts all files by the automaton that the searcher of these patterns holds.
#[tactic(auto, using(crate::proofs::Standing::search_as))]
fn redact_by<'a, F: Folder, I: Read, W: Write, E: Sink>(
    alloc: Global,
    given: &[Item<'_>],
    secrets: &[Rule],
    rules: &Rules,
    key: Option<&[u8]>,
    folder: &F,
    searcher: &AhoCorasick,
    names: &[&str],
    streams: &mut Streams<'_, I, W, E>,
) -> Result<bool, Failure<'a>>
    requires can { CanSearch ⟦<AhoCorasick as Automaton>⟧ searcher.now }
    requires of { IsBuiltFrom searcher.now (patterns_by_case (all_given given.now) (patterns_in (secrets_of secrets.now))) }
    requires names { name_bytes names.now ≡ names_asked (all_given given.now) }
    ensures outcome { LoadedRuled W.Write E.Sink F.Folder folder.now given.now secrets.now rules.now key.entry
        result streams.old streams.new }
    ensures flushed { OnOk result (streams.new.output.device.flushed ≡ true) }
{
    if let Some(rows) = searcher.rows() {
        return redact_lines(
            alloc, given, secrets, rules, key, folder, rows, names, streams,
        );
    }
    match searcher.levels() {
        Some(levels) => redact_lines(
            alloc, given, secrets, rules, key, folder, levels, names, streams,
        ),
        None => redact_lines(
            alloc,
            given,
            secrets,
            rules,
            key,
            folder,
            searcher.itself(),
            names,
            streams,
        ),
    }
}

/// Redacts all files by an automaton of these patterns, tells how many lines were too long and the counts and the summary that are asked
/// for, and answers whether all were read.
#[tactic(auto, using(crate::proofs::RuledCalls::unbegun))]
fn redact_lines<'a, A: Automaton, F: Folder, I: Read, W: Write, E: Sink>(
    alloc: Global,
    given: &[Item<'_>],
    secrets: &[Rule],
    rules: &Rules,
    key: Option<&[u8]>,
    folder: &F,
    automaton: &A,
    names: &[&str],
    streams: &mut Streams<'_, I, W, E>,
) -> Result<bool, Failure<'a>>
    requires can { CanSearch A.Automaton automaton.now }
    requires of { A.is_of automaton.now (patterns_by_case (all_given given.now) (patterns_in (secrets_of secrets.now))) }
    requires names { name_bytes names.now ≡ names_asked (all_given given.now) }
    ensures outcome { LoadedRuled W.Write E.Sink F.Folder folder.now given.now secrets.now rules.now key.entry
        result streams.old streams.new }
    ensures flushed { OnOk result (streams.new.output.device.flushed ≡ true) }
{
    let texts = texts_of(alloc, given, secrets, rules)?;
    let texts = texts.as_slice();
    let mut counts: Vec<u64> = vec![in alloc; 0; texts.len()]?;
    let mut lined = lined_by(alloc, given, secrets, rules, key, automaton, texts)?;
    let tally = counts.as_mut_slice();
    let mut volume = Volume { files: 0, bytes: 0 };
    match redact_flushed(&mut lined, folder, names, tally, &mut volume, streams) {
        Ok(all) => {
            tell_count(&mut streams.errors, most_of(given), last_of(tally));
            let rules = Some(rules.as_slice());
            let errors = &mut streams.errors;
            tell_counted(alloc, all, given, secrets, rules, tally, volume, errors)
        }
        Err(error) => Err(failure_in(alloc, rules.as_slice(), lined.fault(error))),
    }
}

/// What is written for each pattern, then for each rule, and then for lines that are too long.
fn texts_of<'r>(
    alloc: Global,
    given: &[Item<'r>],
    secrets: &'r [Rule],
    rules: &'r Rules,
) -> Result<Vec<&'r [u8]>, AllocError>
    ensures texts { IfOk result (λ texts. pieces_of texts.items
        ≡ texts_asked (all_given given.now) (ruled_load secrets.entry.now rules.entry.now None)) }
{
    let usual = text_of(given);
    let mut texts = replacements_of(alloc, secrets, usual)?;
    let line_rules = rules.as_slice();
    for rule in line_rules {
        texts.push(own_text(rule, usual))?;
    }
    texts.push(usual)?;
    Ok(texts)
}

/// The text of a rule, its own or the usual one.
fn own_text<'r>(rule: &'r LineRule, usual: &'r [u8]) -> &'r [u8]
    ensures own { result.now ≡ own_text usual.entry.now rule.entry.now }
{
    match &rule.with {
        Some(own) => own.as_bytes(),
        None => usual,
    }
}

/// What redacts lines by what was loaded: the piece of each run is its text; or, where there is a key, its pseudonym, but for patterns
/// that it has named.
fn lined_by<'r, 'a, 'p, 'q, A: Automaton>(
    alloc: Global,
    given: &[Item<'_>],
    secrets: &[Rule],
    rules: &'r Rules,
    key: Option<&[u8]>,
    automaton: &'a A,
    texts: &'p [&'q [u8]],
) -> Result<Lined<'r, 'a, A, RunPieces<'p, 'q>>, BuildError>
    requires can { CanSearch A.Automaton automaton.now }
    requires of { A.is_of automaton.now (patterns_by_case (all_given given.now) (patterns_in (secrets_of secrets.now))) }
    requires texts { pieces_of texts.now ≡ texts_asked (all_given given.now) (ruled_load secrets.now rules.now None) }
    ensures lined { IfOk result (λ lined. IsLined A.Automaton ⟦<RunPieces<'p, 'q> as Pieces>⟧ lined
        (ruling_by (all_given given.now) (ruled_load secrets.now rules.entry.now key.entry))) }
{
    let words = has(given, Word::AsWord);
    let cover = line_cover(alloc, automaton, rules, words, most_of(given))?;
    let key = key_by(key, has(given, Word::IgnoreCase));
    let pieces = RunPieces::new(texts, key, named_count(given, secrets.len()));
    Ok(Lined {
        cover,
        pieces,
        done: Ok(()),
    })
}

/// How many numbers are those of patterns that a key has named: so it does where forms are asked for.
fn named_count(given: &[Item<'_>], patterns: usize) -> usize
    ensures count { result ≡ named_count (all_given given.now) patterns }
{
    if has(given, Word::Forms) {
        return patterns;
    }
    0
}

/// Tells how many lines were too long, if some were.
fn tell_count<E: Sink>(errors: &mut Errors<'_, E>, most: usize, count: u64)
    ensures told { TellsBytes E.Sink errors.old errors.new (long_told most count) }
{
    if count == 0 {
        return;
    }
    let why = b" bytes, each covered whole: ";
    tell_with_other(errors, b": lines of more than ", most, why, count, b"\n");
}
