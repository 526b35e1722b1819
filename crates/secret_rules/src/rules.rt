//! Some rules, with the searcher of all their keywords.

ghost use Rattle.std.specs.Prelude.{◌≡◌, ◌↔◌, ◌⊎◌, ◌<◌, All, IfErr, IfOk, IsTrue, MatchOption, OnOk, false, length, map, true};
ghost use Rattle.aho_core.specs.Listing.{IsMember};
ghost use Rattle.aho_core.specs.Overlapping.{all_occurrences};
ghost use Rattle.aho_core.specs.declared.search.Anchored.TheVariants.{No};
ghost use Rattle.aho_core.specs.declared.search.MatchKind.TheVariants.{Standard};
ghost use Rattle.chromesquid.specs.Searcher.{Answers, ForItsPatterns, IsBuiltFrom, match_kind_of};
ghost use Rattle.secret_rules.specs.Faults.{IsFirstFault, IsKeywordFailure, IsMarkFailure, IsRulesFailure};
ghost use Rattle.secret_rules.specs.Keywords.{HasOwner, is_always};
ghost use Rattle.secret_rules.specs.Markers.{AreFlagsFor, NoneApplies, flag_at};
ghost use Rattle.secret_rules.specs.Marks.{ForRuleAt};
ghost use Rattle.secret_rules.specs.Rules.{AreSound, keyword_patterns, regex_of};

use crate::error::{MarkError, RulesError};
use crate::expression::Expression;
use crate::keywords::{owners_of, words_of};
use crate::rule::{Rule, RuleFault};
use chromesquid::{AhoCorasick, BuildError, Match};
use std::alloc::{AllocError, Global};
use std::cell::OnceCell;
use std::marker::Model;

/// Some rules, which are numbered from 0 on as they stand. Contracts see the list. An expression is compiled when it is first needed,
/// and kept.
#[derive(Drop)]
pub struct Rules {
    rules: Vec<Rule>,
    /// Searches for the keywords of all rules.
    searcher: AhoCorasick,
    /// Of each keyword the number of its rule.
    owners: Vec<usize>,
    /// Of each rule whether it has no keywords.
    flags: Vec<bool>,
    /// Whether one of them has none.
    always: bool,
    /// The expression of each rule, once it was compiled.
    expressions: Vec<OnceCell<Expression>>,
}

impl Model for Rules {
    ghost use Rattle.std.specs.Prelude.{List, length};
    ghost use Rattle.secret_rules.specs.Searching.{IsSearchedBy};
    ghost use Rattle.secret_rules.specs.declared.rule.Rule.{Rule};

    ghost Value = { List Rule };

    ghost view = { λ r. r.rules.items };

    ghost invariant = { λ r. IsSearchedBy r.rules.items r.searcher r.owners.items r.flags.items r.always (length r.expressions.items) };
}

/// The first rule with which something is wrong, and what.
fn first_fault(alloc: Global, rules: &[Rule]) -> Result<Option<(usize, RuleFault)>, AllocError>
    ensures { IfOk result (λ found. MatchOption found (AreSound rules.now) (λ f. IsFirstFault rules.now f.0 f.1)) }
{
    for number in 0..rules.len() {
        if let Some(fault) = rules[number].fault(alloc)? {
            return Ok(Some((number, fault)));
        }
    }
    Ok(None)
}

/// The searcher of these keywords, with ASCII letters the same in both cases.
fn searcher_of(alloc: Global, words: &[&[u8]]) -> Result<AhoCorasick, RulesError>
    ensures of { IfOk result (λ searcher. IsBuiltFrom searcher (keyword_patterns (map (λ word. word.now) words.now))) }
    ensures kind { IfOk result (λ searcher. match_kind_of searcher ≡ Standard) }
    ensures starts { IfOk result (λ searcher. Answers searcher No) }
    ensures refused { IfErr result (IsKeywordFailure (map (λ word. word.now) words.now)) }
{
    let built = AhoCorasick::builder()
        .ascii_case_insensitive(true)
        .build(alloc, words);
    match built {
        Ok(searcher) => Ok(searcher),
        Err(BuildError::OutOfMemory) => Err(RulesError::OutOfMemory),
        Err(error) => Err(RulesError::Keywords(error)),
    }
}

/// Room for so many expressions.
fn room_for(alloc: Global, count: usize) -> Result<Vec<OnceCell<Expression>>, AllocError>
    ensures { IfOk result (λ room. length room.items ≡ count) }
{
    let mut room = Vec::new(alloc);
    for number in 0..count {
        let _number = number;
        room.push(OnceCell::new())?;
    }
    Ok(room)
}

/// All occurrences in a line of what a searcher searches for.
fn occurrences(searcher: &AhoCorasick, alloc: Global, line: &[u8]) -> Result<Vec<Match>, AllocError>
    requires standard { match_kind_of searcher.now ≡ Standard }
    requires starts { Answers searcher.now No }
    ensures all { ForItsPatterns searcher.now (λ p. IfOk result (λ found.
        found.items ≡ all_occurrences p line.now 0 (length line.now))) }
{
    Ok(searcher.find_overlapping_iter(line).collect(alloc)?)
}

/// Of each rule whether it has no keywords.
fn always_of(alloc: Global, rules: &[Rule]) -> Result<Vec<bool>, AllocError>
    ensures { IfOk result (λ flags. flags.items ≡ map is_always rules.now) }
{
    let mut flags = Vec::with_capacity(alloc, rules.len())?;
    for rule in rules {
        flags.push(rule.keywords.is_empty())?;
    }
    Ok(flags)
}

/// Whether one of some rules has no keywords.
fn any_always(rules: &[Rule]) -> bool
    ensures { IsTrue result ↔ IsMember (map is_always rules.now) true }
{
    for rule in rules {
        if rule.keywords.is_empty() {
            return true;
        }
    }
    false
}

/// The flags with that of each rule set of which a keyword was found.
fn set_owners(found: &[Match], owners: &[usize], flags: &mut [bool])
    requires found { All (λ m. m.pattern < length owners.now) found.now }
    requires owned { All (λ owner. owner < length flags.old) owners.now }
    ensures flags { (k : _) → IsTrue (flag_at flags.new k)
        ↔ (IsTrue (flag_at flags.old k) ⊎ HasOwner owners.now found.now k) }
{
    for m in found {
        flags[owners[m.pattern().as_usize()]] = true;
    }
}

impl Rules {
    /// These rules.
    ///
    /// # Errors
    ///
    /// Something is wrong with a rule, or no searcher can be built for their keywords. Or memory ran out, at any time.
    pub fn new(alloc: Global, mut rules: Vec<Rule>) -> Result<Rules, RulesError>
        ensures rules { IfOk result (λ made. made ≡ rules.items) }
        ensures sound { OnOk result (AreSound rules.items) }
        ensures refused { IfErr result (IsRulesFailure rules.items) }
    {
        if let Some((number, fault)) = first_fault(alloc, &rules)? {
            let Rule { id, .. } = rules.swap_remove(number);
            return Err(RulesError::Rule(number, id, fault));
        }
        let searcher = searcher_of(alloc, &words_of(alloc, &rules)?)?;
        let owners = owners_of(alloc, &rules)?;
        let expressions = room_for(alloc, rules.len())?;
        let flags = always_of(alloc, &rules)?;
        let always = any_always(&rules);
        Ok(Rules {
            rules,
            searcher,
            owners,
            flags,
            always,
            expressions,
        })
    }

    /// The rules.
    pub fn as_slice(&self) -> &[Rule]
        ensures same { result.now ≡ self.now }
        ensures sound { AreSound self.now }
    {
        &self.rules
    }

    /// Whether a rule may apply to a line: none does where no keyword occurs in it and each rule has some.
    pub(crate) fn may_apply(&self, line: &[u8]) -> bool
        ensures none { result ≡ false → NoneApplies self.now line.now }
    {
        if self.always {
            return true;
        }
        self.searcher.is_match(line)
    }

    /// Tells of each rule whether it applies to a line.
    pub(crate) fn tell_applying(
        &self,
        alloc: Global,
        line: &[u8],
        flags: &mut [bool],
    ) -> Result<(), AllocError>
        requires count { length flags.old ≡ length self.now }
        ensures flags { OnOk result (AreFlagsFor self.now line.now flags.new) }
    {
        let found = occurrences(&self.searcher, alloc, line)?;
        flags.copy_from_slice(&self.flags);
        set_owners(&found, &self.owners, flags);
        Ok(())
    }

    /// The expression of a rule. It is compiled if it was not yet.
    ///
    /// # Errors
    ///
    /// It is too big, or memory ran out.
    pub(crate) fn expression(&self, alloc: Global, number: usize) -> Result<&Expression, MarkError>
        requires within { number < length self.now }
        ensures source { ForRuleAt self.now number (λ rule. IfOk result (λ e. e.now ≡ regex_of rule)) }
        ensures refused { IfErr result (IsMarkFailure number) }
    {
        let source = self.rules[number].regex.as_str();
        let compiled = self.expressions[number].get_or_try_init(|| compile(alloc, source, number))?;
        // It always is: a contract cannot say what a cell holds, so this is asked once for each rule.
        if compiled.as_str() == source {
            Ok(compiled)
        } else {
            Err(MarkError::OutOfMemory)
        }
    }
}

/// The expression of a text, that of the rule of this number.
fn compile(alloc: Global, source: &str, number: usize) -> Result<Expression, MarkError>
    ensures refused { IfErr result (IsMarkFailure number) }
{
    match Expression::new(alloc, source) {
        Ok(expression) => Ok(expression),
        Err(regex::Error::OutOfMemory) => Err(MarkError::OutOfMemory),
        Err(_) => Err(MarkError::TooBig(number)),
    }
}
