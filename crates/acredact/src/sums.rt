//! What is counted for each pattern that was given: its own count, and those of its forms.

ghost use Rattle.std.specs.Prelude.{◌≡◌, IfOk};
ghost use Rattle.acredact.specs.Sums.{HaveGrown, counts_for, share, sum_for, sums_of};
ghost use Rattle.acredact.specs.Tables.{secret_of, secrets_of};

use crate::rule::Rule;
use std::alloc::{AllocError, Global};

/// For each pattern that was given how often its text was written: by its own count and those of its forms. A number stops at the
/// greatest.
pub fn sums_of(alloc: Global, rules: &[Rule], counts: &[u64]) -> Result<Vec<u64>, AllocError>
    ensures sums { IfOk result (λ sums. sums.items ≡ sums_of (secrets_of rules.now) counts.now) }
{
    let mut sums = Vec::new(alloc);
    for rule in rules {
        if rule.form_of.is_none() {
            sums.push(0)?;
        }
    }
    add_counts(sums.as_mut_slice(), rules, counts);
    Ok(sums)
}

/// Adds each count to the sum for which it counts, if there is one.
fn add_counts(sums: &mut [u64], rules: &[Rule], counts: &[u64])
    ensures grown { HaveGrown (λ number. sum_for number 0 (secrets_of rules.now) counts.now) sums.old sums.new }
{
    for place in 0..rules.len().min(counts.len()) {
        add_count(sums, &rules[place], place, counts[place]);
    }
}

/// Adds a count to the sum for which that of the rule at this place counts, if there is one.
fn add_count(sums: &mut [u64], rule: &Rule, place: usize, count: u64)
    ensures grown { HaveGrown (λ number. share (counts_for place (secret_of rule.now)) number count) sums.old sums.new }
{
    let number = rule.form_of.unwrap_or(place);
    if number < sums.len() {
        sums[number] = sums[number].saturating_add(count);
    }
}
