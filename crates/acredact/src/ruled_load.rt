//! What a call with rules loads, and what is built of it before any file is read.

ghost use Rattle.std.specs.Prelude.{IfOk, false};
ghost use Rattle.secret_rules.specs.OpenLines.{CanSearch};
ghost use Rattle.tool_parts.specs.Streams.{bytes_left};
ghost use Rattle.acredact.specs.Arguments.{all_given};
ghost use Rattle.acredact.specs.Doubts.{TellsDoubts};
ghost use Rattle.acredact.specs.Ruled.{AreRulesGivenBy, IsReadyForLines};
ghost use Rattle.acredact.specs.Tables.{secrets_of};

use crate::doubts::tell_of_lists;
use crate::failure::Failure;
use crate::folder::Folder;
use crate::line_rules::line_rules_of;
use crate::load::{lists_of, rules};
use crate::options::{Item, Word, has};
use crate::patterns::{patterns_of, split_at};
use crate::prepare::names;
use crate::rule::Rule;
use chromesquid::{AhoCorasick, Automaton, BuildError, FromRead, MatchKind, Sink};
use secret_rules::Rules;
use std::alloc::Global;
use std::io::Read;
use tool_parts::building::searcher_of;
use tool_parts::errors::Errors;

/// The patterns and the rules that were loaded.
#[derive(Drop)]
pub struct GivenRules {
    /// The patterns.
    pub secrets: Vec<Rule>,
    /// The rules.
    pub rules: Rules,
}

/// What is ready before a line is read.
#[derive(Drop)]
pub struct LinesReady<'r> {
    /// The names of the files.
    pub names: Vec<&'r str>,
    /// What searches for the patterns.
    pub searcher: AhoCorasick,
}

/// Loads all patterns and rules.
pub fn load_rules<'a, F: Folder, I: Read>(
    alloc: Global,
    given: &[Item<'a>],
    folder: &F,
    input: &mut FromRead<I>,
) -> Result<GivenRules, Failure<'a>>
    ensures given { IfOk result (AreRulesGivenBy F.Folder folder.now given.now (bytes_left input.old) (bytes_left input.new)) }
{
    let secrets = match rules(alloc, given, folder, input) {
        Ok(secrets) => secrets,
        Err(failure) => return Err(failure),
    };
    let lists = lists_of(alloc, given, folder);
    match line_rules_of(&lists, given, input) {
        Ok(rules) => Ok(GivenRules { secrets, rules }),
        Err(failure) => Err(failure),
    }
}

/// Tells of doubtful patterns of lists, and makes ready what searches for all patterns.
#[tactic(auto, using(crate::proofs::Ready::searcher_searches, crate::proofs::Ready::rules_shortest))]
pub fn ready_for_lines<'a, E: Sink>(
    alloc: Global,
    given: &[Item<'a>],
    secrets: &[Rule],
    errors: &mut Errors<'_, E>,
) -> Result<LinesReady<'a>, Failure<'a>>
    ensures ready { IfOk result (IsReadyForLines (all_given given.now) (secrets_of secrets.now)) }
    ensures can { IfOk result (λ ready. CanSearch ⟦<AhoCorasick as Automaton>⟧ ready.searcher) }
    ensures told { TellsDoubts E.Sink false (all_given given.now) (secrets_of secrets.now) errors.old errors.new }
{
    tell_of_lists(errors, given, secrets);
    if let Some(number) = line_end_in(secrets) {
        return Err(Failure::LineEnd(number));
    }
    let patterns = patterns_of(alloc, secrets)?;
    let names = names(alloc, given)?;
    let patterns = patterns.as_slice();
    let ignore_case = has(given, Word::IgnoreCase);
    let searcher = searcher_of(alloc, MatchKind::Standard, ignore_case, false, patterns)?;
    Ok(LinesReady { names, searcher })
}

/// The number, from 1 on, of the first pattern that holds a line end, if one does.
fn line_end_in(secrets: &[Rule]) -> Option<usize> {
    for (at, secret) in secrets.iter().enumerate() {
        if split_at(secret.pattern.as_slice(), b'\n').is_some() {
            return Some(at + 1);
        }
    }
    None
}
