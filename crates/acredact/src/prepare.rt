//! What is ready before any file is read: what is searched for, what is written in the place of that, and which files are read.

ghost use Rattle.std.specs.Prelude.{◌≡◌, ◌⊎◌, IfErr, IfOk, OnErr, OnOk, Some, option_map, true};
ghost use Rattle.tool_parts.specs.Names.{name_bytes};
ghost use Rattle.acredact.specs.Arguments.{all_given, has};
ghost use Rattle.acredact.specs.Builds.{patterns_by_given};
ghost use Rattle.acredact.specs.Calls.{CannotPrepare, keyed_as, names_asked, redactor_by_given, text_asked};
ghost use Rattle.acredact.specs.Checks.{IsBuildFailure};
ghost use Rattle.acredact.specs.Doubts.{TellsDoubts, TellsWarnings};
ghost use Rattle.acredact.specs.Files.{CanDo, keyed_of};
ghost use Rattle.acredact.specs.Loading.{key_lent, loaded_in};
ghost use Rattle.acredact.specs.Pieces.{IsJudged, TellsUnclean};
ghost use Rattle.acredact.specs.Ready.{IsJobFor, IsReadyBy, IsReadyFor};
ghost use Rattle.acredact.specs.Tables.{patterns_in, secrets_of};
ghost use Rattle.acredact.specs.declared.options.Word.TheVariants.{Strict};
ghost use Rattle.acredact.specs.declared.clean.Unclean.{Unclean};
ghost use Rattle.acredact.specs.declared.failure.Failure.TheVariants.{Unclean as UncleanPiece};

use crate::clean::{Judge, Unclean, unclean_of};
use crate::doubts::warn_of_lists;
use crate::failure::{Failure, tell_unclean};
use crate::files::Job;
use crate::folder::Folder;
use crate::options::{Item, Word, counts, covers, has, is_same, kind_of, last_value};
use crate::patterns::{patterns_of, replacements_of};
use crate::rule::Rule;
use crate::secrets::{Secrets, key_bytes};
use crate::ways::Key;
use chromesquid::{AhoCorasick, Automaton, MatchKind, Sink};
use std::alloc::{AllocError, Global};
use tool_parts::building::searcher_of;
use tool_parts::errors::Errors;

/// What is written in the place of a match, where nothing else is given.
const REDACTED: &[u8] = b"[redacted]";

/// What is ready.
#[derive(Drop)]
pub struct Ready<'r> {
    /// The patterns.
    pub patterns: Vec<&'r [u8]>,
    /// What is written in the place of each.
    pub replacements: Vec<&'r [u8]>,
    /// The names of the files.
    pub names: Vec<&'r str>,
    /// What searches for the patterns.
    pub searcher: AhoCorasick,
}

/// Tells of doubtful patterns of lists, or refuses the first; makes ready what redacts; and tells of a piece that is not clean, or refuses it.
pub fn prepare<'a, 'r, E: Sink>(
    alloc: Global,
    given: &'r [Item<'a>],
    secrets: &'r Secrets,
    errors: &mut Errors<'_, E>,
) -> Result<Ready<'r>, Failure<'a>>
    ensures ready { IfOk result (IsReadyBy given.now secrets.now) }
    ensures told { OnOk result (TellsWarnings E.Sink (has Strict (all_given given.now)) (all_given given.now)
        (secrets_of secrets.now.rules.items) (redactor_by_given (all_given given.now) (loaded_in secrets.now))
        errors.old errors.new) }
    ensures fails { IfErr result (CannotPrepare (all_given given.now) (loaded_in secrets.now)) }
    ensures untold { OnErr result ((errors.new ≡ errors.old) ⊎ TellsDoubts E.Sink (has Strict (all_given given.now))
        (all_given given.now) (secrets_of secrets.now.rules.items) errors.old errors.new) }
{
    let strict = has(given, Word::Strict);
    let rules = secrets.rules.as_slice();
    match warn_of_lists(errors, given, rules, strict) {
        Ok(()) => {}
        Err(failure) => return Err(failure),
    }
    let ready = match ready_of(alloc, &*given, rules, finds_all(given)) {
        Ok(ready) => ready,
        Err(failure) => return Err(failure),
    };
    let unclean = unclean_in(given, secrets, &ready);
    match warn(errors, unclean, strict) {
        Ok(()) => {}
        Err(failure) => return Err(failure),
    }
    Ok(ready)
}

/// Whether all finds of a text are replaced, and no match is counted.
fn finds_all(given: &[Item<'_>]) -> bool {
    kind_of(given) != MatchKind::Standard && !counts(given)
}

/// What is ready by these rules.
pub fn ready_of<'a, 'r>(
    alloc: Global,
    given: &[Item<'r>],
    rules: &'r [Rule],
    finds_all: bool,
) -> Result<Ready<'r>, Failure<'a>>
    ensures ready { IfOk result (IsReadyFor (all_given given.now) (secrets_of rules.now)) }
    ensures refused { IfErr result (IsBuildFailure (patterns_by_given (all_given given.now)
        (patterns_in (secrets_of rules.now)))) }
{
    let patterns = patterns_of(alloc, rules)?;
    let replacements = replacements_of(alloc, rules, text_of(given))?;
    let names = names(alloc, given)?;
    let kind = kind_of(given);
    let ignore_case = has(given, Word::IgnoreCase);
    let words = patterns.as_slice();
    let searcher = searcher_of(alloc, kind, ignore_case, finds_all, words)?;
    Ok(Ready {
        patterns,
        replacements,
        names,
        searcher,
    })
}

/// The first pattern whose piece is not clean, of what is ready.
fn unclean_in(given: &[Item<'_>], secrets: &Secrets, ready: &Ready<'_>) -> Option<Unclean>
    requires ready { IsReadyBy given.now secrets.now ready.now }
    ensures judged { IsJudged (redactor_by_given (all_given given.now) (loaded_in secrets.now)) result }
{
    let judge = Judge {
        words: ready.patterns.as_slice(),
        ignore_case: has(given, Word::IgnoreCase),
        pieces: ready.replacements.as_slice(),
    };
    let named = secrets.key.is_some();
    unclean_of(ready.searcher.itself(), &judge, covers(given), named)
}

/// Tells of a piece that is not clean, or refuses it.
fn warn<'a, E: Sink>(
    errors: &mut Errors<'_, E>,
    unclean: Option<Unclean>,
    strict: bool,
) -> Result<(), Failure<'a>>
    ensures told { OnOk result (TellsUnclean E.Sink strict unclean errors.old errors.new) }
    ensures refused { IfErr result (λ failure. (piece : Unclean) × (unclean ≡ Some piece)
        × (failure ≡ UncleanPiece piece) × (strict ≡ true)) }
    ensures untold { OnErr result (errors.new ≡ errors.old) }
{
    match unclean {
        None => Ok(()),
        Some(piece) => {
            if strict {
                return Err(Failure::Unclean(piece));
            }
            tell_unclean(errors, piece);
            Ok(())
        }
    }
}

/// What is done to the files.
#[tactic(auto, using(crate::proofs::Ready::ready_redacts))]
pub fn job_of<'s, 't, F: Folder>(
    alloc: Global,
    given: &[Item<'_>],
    secrets: &'s Secrets,
    ready: &'s Ready<'t>,
    folder: &'s F,
) -> Job<'s, 't, F>
    ensures job { IsReadyBy given.now secrets.now ready.now
        → IsJobFor folder.now (all_given given.now) (loaded_in secrets.now) result }
    ensures can { IsReadyBy given.now secrets.now ready.now
        → CanDo ⟦<AhoCorasick as Automaton>⟧ ready.now.searcher result }
{
    Job {
        alloc,
        folder,
        names: ready.names.as_slice(),
        replacements: ready.replacements.as_slice(),
        key: key_by(key_bytes(secrets), has(given, Word::IgnoreCase)),
        covers: covers(given),
        words: has(given, Word::AsWord),
    }
}

/// A key, by the case rule of the patterns.
pub fn key_by(bytes: Option<&[u8]>, ignore_case: bool) -> Option<Key<'_>>
    ensures key { option_map keyed_of result ≡ option_map (keyed_as ignore_case) (key_lent bytes.entry) }
{
    match bytes {
        Some(bytes) => Some(Key { bytes, ignore_case }),
        None => None,
    }
}

/// What is written for a pattern that has no replacement of its own.
pub fn text_of<'a>(given: &[Item<'a>]) -> &'a [u8]
    ensures text { result.now ≡ text_asked (all_given given.now) }
{
    match last_value(given, Word::With) {
        Some(text) => text.as_bytes(),
        None => REDACTED,
    }
}

/// The names of the files that are read: standard input where none is given.
pub fn names<'a>(alloc: Global, given: &[Item<'a>]) -> Result<Vec<&'a str>, AllocError>
    ensures names { IfOk result (λ files. name_bytes files.items ≡ names_asked (all_given given.now)) }
{
    let mut files = Vec::new(alloc);
    for item in given {
        if is_same(Word::File, item.word) {
            files.push(item.value)?;
        }
    }
    if files.is_empty() {
        files.push("-")?;
    }
    Ok(files)
}
