//! The keywords of all rules, for one searcher.

ghost use Rattle.std.specs.Prelude.{◌≡◌, ◌++◌, IfOk, OnOk, flat_map, map};
ghost use Rattle.secret_rules.specs.Keywords.{owners_from};
ghost use Rattle.secret_rules.specs.Rules.{keywords_of};

use crate::rule::Rule;
use std::alloc::{AllocError, Global};

/// Adds the keywords of a rule.
fn push_words<'r>(words: &mut Vec<&'r [u8]>, rule: &'r Rule) -> Result<(), AllocError>
    ensures { OnOk result (map (λ w. w.now) words.new.items
        ≡ map (λ w. w.now) words.old.items ++ keywords_of rule.entry.now) }
{
    for keyword in &rule.keywords {
        words.push(keyword.as_bytes())?;
    }
    Ok(())
}

/// The keywords of all rules, in order.
pub(crate) fn words_of<'r>(alloc: Global, rules: &'r [Rule]) -> Result<Vec<&'r [u8]>, AllocError>
    ensures { IfOk result (λ words. map (λ word. word.now) words.items ≡ flat_map keywords_of rules.entry.now) }
{
    let mut words = Vec::new(alloc);
    for rule in rules {
        push_words(&mut words, rule)?;
    }
    Ok(words)
}

/// Adds the number of a rule once for each of its keywords.
fn push_owners(
    owners: &mut Vec<usize>,
    number: usize,
    keywords: &[String],
) -> Result<(), AllocError>
    ensures { OnOk result (owners.new.items ≡ owners.old.items ++ map (λ _. number) keywords.now) }
{
    for _keyword in keywords {
        owners.push(number)?;
    }
    Ok(())
}

/// Of each of these keywords the number of its rule.
pub(crate) fn owners_of(alloc: Global, rules: &[Rule]) -> Result<Vec<usize>, AllocError>
    ensures { IfOk result (λ owners. owners.items ≡ owners_from 0 rules.now) }
{
    let mut owners = Vec::new(alloc);
    for number in 0..rules.len() {
        push_owners(&mut owners, number, &rules[number].keywords)?;
    }
    Ok(owners)
}
