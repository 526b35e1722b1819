//! Rules that are named by a key: each has for its replacement the pseudonym of its secret, in whatever form that stands.

ghost use Rattle.std.specs.Prelude.{◌≡◌, IfOk};
ghost use Rattle.acredact.specs.Named.{all_named, named_secret, own_pattern, rule_by_key};
ghost use Rattle.acredact.specs.Tables.{secret_of, secrets_of};

use crate::patterns::copy_of;
use crate::pseudonym::Pseudonyms;
use crate::rule::Rule;
use crate::ways::Key;
use chromesquid::PatternID;
use chromesquid::any::Pieces;
use std::alloc::{AllocError, Global};

/// These rules, named by a key.
pub fn named_rules(alloc: Global, rules: &[Rule], key: Key<'_>) -> Result<Vec<Rule>, AllocError>
    ensures named { IfOk result (λ named. secrets_of named.items
        ≡ all_named (rule_by_key key.entry) (secrets_of rules.now)) }
{
    let mut named = Vec::new(alloc);
    for rule in rules {
        let mut pieces = Pseudonyms::new(key.bytes, key.ignore_case);
        named.push(named_rule(alloc, rules, rule, &mut pieces)?)?;
    }
    Ok(named)
}

/// One of these rules, named by what makes the pieces of runs.
fn named_rule<P: Pieces>(
    alloc: Global,
    rules: &[Rule],
    rule: &Rule,
    pieces: &mut P,
) -> Result<Rule, AllocError>
    ensures named { IfOk result (λ named. secret_of named
        ≡ named_secret (P.rule pieces.old) (secrets_of rules.now) (secret_of rule.now)) }
{
    let name = piece_of(alloc, pieces, own_pattern(rules, rule))?;
    Ok(Rule {
        pattern: copy_of(alloc, rule.pattern.as_slice())?,
        replacement: Some(name),
        list: rule.list,
        line: rule.line,
        form_of: rule.form_of,
    })
}

/// The pattern of the rule of which this one is a form, or its own.
#[tactic(auto, using(crate::proofs::Doubting::made_there))]
fn own_pattern<'r>(rules: &'r [Rule], rule: &'r Rule) -> &'r [u8]
    ensures own { result.now ≡ own_pattern (secrets_of rules.entry.now) (secret_of rule.entry.now) }
{
    match rule.form_of {
        Some(number) => match rules.get(number) {
            Some(own) => own.pattern.as_slice(),
            None => rule.pattern.as_slice(),
        },
        None => rule.pattern.as_slice(),
    }
}

/// The piece of a run of these bytes.
fn piece_of<P: Pieces>(alloc: Global, pieces: &mut P, bytes: &[u8]) -> Result<Vec<u8>, AllocError>
    ensures piece { IfOk result (λ p. p.items ≡ P.rule pieces.old 0 bytes.now) }
{
    let pattern = PatternID::new_unchecked(0);
    pieces.begin();
    pieces.feed(bytes);
    pieces.end(pattern);
    copy_of(alloc, pieces.piece(pattern))
}
