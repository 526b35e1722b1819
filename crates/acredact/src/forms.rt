//! Forms of patterns: how a secret that is encoded gets into a log. Which patterns a form has is told by `secret_forms`.

ghost use Rattle.std.specs.Prelude.{◌≡◌, ◌≤◌, IfOk, OnOk, length, map};
ghost use Rattle.acredact.specs.Forms.{AddsForms, AddsSecrets, are_forms, asked_form_patterns, asked_forms, asks_for, filled, form_called, form_secret, forms_asked, forms_from, forms_named, forms_of, is_all, is_asked, is_called, names_form, nested_by, nested_called, nested_named};
ghost use Rattle.acredact.specs.Tables.{secret_of, secrets_of};
ghost use Rattle.acredact.specs.Values.{lent};
ghost use Rattle.secret_forms.specs.Patterns.{pattern_bytes};

use crate::patterns::{copy_of, part_of};
use crate::rule::Rule;
use secret_forms::{Form, FormError, forms, nested_forms};
use std::alloc::{AllocError, Global};

/// A pattern of fewer bytes has no forms.
const SHORTEST: usize = 4;

/// Whether a form is called so.
fn is_called(name: &[u8], form: Form) -> bool
    ensures called { result ≡ is_called name.now form }
{
    name == form.name().as_bytes()
}

/// The form that is called so.
fn form_called(name: &[u8]) -> Option<Form>
    ensures called { result ≡ form_called name.now }
{
    if is_called(name, Form::Base64) {
        return Some(Form::Base64);
    }
    if is_called(name, Form::Hex) {
        return Some(Form::Hex);
    }
    if is_called(name, Form::Url) {
        return Some(Form::Url);
    }
    if is_called(name, Form::Json) {
        return Some(Form::Json);
    }
    if is_called(name, Form::Xml) {
        return Some(Form::Xml);
    }
    if is_called(name, Form::Shell) {
        return Some(Form::Shell);
    }
    if is_called(name, Form::Lines) {
        return Some(Form::Lines);
    }
    None
}

/// A form of what another one makes of a secret.
#[derive(Clone, Copy)]
pub struct Nested {
    /// How the secret is encoded.
    pub inner: Form,
    /// How that is encoded.
    pub outer: Form,
}

/// A form of a form, where both are there.
fn nested_by(inner: Option<Form>, outer: Option<Form>) -> Option<Nested>
    ensures nested { result ≡ nested_by inner outer }
{
    match (inner, outer) {
        (Some(inner), Some(outer)) => Some(Nested { inner, outer }),
        _ => None,
    }
}

/// The two forms whose names stand so: the inner one, `+`, and the outer one.
fn nested_called(name: &[u8]) -> Option<Nested>
    ensures called { result ≡ nested_called name.now }
{
    match part_of(name, b'+') {
        (inner, Some(outer)) => nested_by(form_called(inner), form_called(outer)),
        (_, None) => None,
    }
}

/// Whether this names all forms.
fn is_all(name: &[u8]) -> bool
    ensures all { result ≡ is_all name.now }
{
    name == b"all".as_slice()
}

/// Whether this names a form, all of them, or a form of a form.
fn is_asked(name: &[u8]) -> bool
    ensures asked { result ≡ is_asked name.now }
{
    is_all(name) || form_called(name).is_some() || nested_called(name).is_some()
}

/// Whether a value names forms, with commas between them.
pub fn are_forms(value: &str) -> bool
    ensures are { result ≡ are_forms value.now }
{
    let mut left = Some(value.as_bytes());
    while let Some(rest) = left {
        let (name, more) = part_of(rest, b',');
        if !is_asked(name) {
            return false;
        }
        left = more;
    }
    true
}

/// Whether this names the form, by itself or with all.
fn names_form(name: &[u8], form: Form) -> bool
    ensures names { result ≡ names_form name.now form }
{
    is_all(name) || is_called(name, form)
}

/// Whether a value names this form.
fn asks_for(value: &[u8], form: Form) -> bool
    ensures asks { result ≡ asks_for value.now form }
{
    let mut left = Some(value);
    while let Some(rest) = left {
        let (name, more) = part_of(rest, b',');
        if names_form(name, form) {
            return true;
        }
        left = more;
    }
    false
}

/// The forms that a value names, each once.
fn forms_by(alloc: Global, value: &[u8]) -> Result<Vec<Form>, AllocError>
    ensures forms { IfOk result (λ forms. forms.items ≡ forms_named value.now) }
{
    let all = [
        Form::Base64,
        Form::Hex,
        Form::Url,
        Form::Json,
        Form::Xml,
        Form::Shell,
        Form::Lines,
    ];
    all.iter()
        .copied()
        .filter(|form| asks_for(value, *form))
        .collect(alloc)
}

/// The forms of forms that a value names, in order.
fn nested_named(alloc: Global, value: &[u8]) -> Result<Vec<Nested>, AllocError>
    ensures nested { IfOk result (λ v. v.items ≡ nested_named value.now) }
{
    let mut nested = Vec::new(alloc);
    let mut left = Some(value);
    while let Some(rest) = left {
        let (name, more) = part_of(rest, b',');
        if let Some(one) = nested_called(name) {
            nested.push(one)?;
        }
        left = more;
    }
    Ok(nested)
}

/// Which forms are asked for.
#[derive(Drop)]
pub struct Asked {
    /// Of secrets.
    pub forms: Vec<Form>,
    /// Of what other forms make of them.
    pub nested: Vec<Nested>,
}

/// Those that a value names, or none where there is none.
fn asked_by(alloc: Global, value: Option<&str>) -> Result<Asked, AllocError>
    ensures asked { IfOk result (λ asked. asked_forms asked ≡ forms_asked (lent value.entry)) }
{
    match value {
        Some(value) => Ok(Asked {
            forms: forms_by(alloc, value.as_bytes())?,
            nested: nested_named(alloc, value.as_bytes())?,
        }),
        None => Ok(Asked {
            forms: Vec::new(alloc),
            nested: Vec::new(alloc),
        }),
    }
}

/// Adds the patterns of the forms that a value names, for each rule in order: each is replaced as the rule's own pattern is, and
/// counts for it. A pattern of fewer than four bytes has none.
pub fn add_forms(
    alloc: Global,
    rules: &mut Vec<Rule>,
    value: Option<&str>,
) -> Result<(), AllocError>
    ensures formed { OnOk result (AddsForms (lent value.entry) rules.old rules.new) }
{
    let asked = asked_by(alloc, value)?;
    let mut more = forms_of_rules(alloc, rules.as_slice(), &asked)?;
    rules.append(&mut more)?;
    Ok(())
}

/// Those of all these rules.
#[tactic(auto, using(crate::proofs::Doubting::secrets_cut, std::proofs::Common::append_assoc))]
fn forms_of_rules(alloc: Global, rules: &[Rule], asked: &Asked) -> Result<Vec<Rule>, AllocError>
    ensures made { IfOk result (λ more.
        secrets_of more.items ≡ forms_from (asked_forms asked.now) 0 (secrets_of rules.now)) }
{
    let mut more = Vec::new(alloc);
    for (number, rule) in rules.iter().enumerate() {
        add_forms_of(alloc, &mut more, rule, number, asked)?;
    }
    Ok(more)
}

/// Adds those of a rule that has this number.
fn add_forms_of(
    alloc: Global,
    more: &mut Vec<Rule>,
    rule: &Rule,
    number: usize,
    asked: &Asked,
) -> Result<(), AllocError>
    ensures added { OnOk result (AddsSecrets (forms_of (asked_forms asked.now) number (secret_of rule.now)) more.old more.new) }
{
    if rule.pattern.len() < SHORTEST {
        return Ok(());
    }
    match patterns_by(alloc, rule.pattern.as_slice(), asked) {
        Ok(patterns) => add_patterns(alloc, more, rule, number, patterns.as_slice()),
        // The pattern is long enough, so memory is wanting.
        Err(FormError::TooShort | FormError::OutOfMemory) => Err(AllocError),
    }
}

/// The patterns of a pattern by the forms that are asked for: of it, and of what other forms make of it.
fn patterns_by(alloc: Global, pattern: &[u8], asked: &Asked) -> Result<Vec<Vec<u8>>, FormError>
    ensures made { IfOk result (λ patterns.
        pattern_bytes patterns.items ≡ asked_form_patterns (asked_forms asked.now) pattern.now) }
{
    let mut patterns = forms(alloc, pattern, asked.forms.as_slice())?;
    for one in &asked.nested {
        let mut more = nested_forms(alloc, pattern, one.inner, one.outer)?;
        patterns.append(&mut more)?;
    }
    Ok(patterns)
}

/// Adds a rule for each of some patterns that are forms of a rule, but for empty ones.
fn add_patterns(
    alloc: Global,
    more: &mut Vec<Rule>,
    rule: &Rule,
    number: usize,
    patterns: &[Vec<u8>],
) -> Result<(), AllocError>
    ensures added { OnOk result (AddsSecrets
        (map (form_secret number (secret_of rule.now)) (filled (pattern_bytes patterns.now))) more.old more.new) }
{
    for pattern in patterns {
        if !pattern.is_empty() {
            more.push(form_of(alloc, rule, number, pattern.as_slice())?)?;
        }
    }
    Ok(())
}

/// The rule of a pattern that is one of a form of another rule.
fn form_of(alloc: Global, rule: &Rule, number: usize, pattern: &[u8]) -> Result<Rule, AllocError>
    requires some { 1 ≤ length pattern.now }
    ensures form { IfOk result (λ made. secret_of made
        ≡ form_secret number (secret_of rule.now) pattern.now) }
{
    let replacement = match &rule.replacement {
        Some(bytes) => Some(copy_of(alloc, bytes.as_slice())?),
        None => None,
    };
    Ok(Rule {
        pattern: copy_of(alloc, pattern)?,
        replacement,
        list: rule.list,
        line: 0,
        form_of: Some(number),
    })
}
