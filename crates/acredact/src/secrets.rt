//! What is loaded before any file is read: the rules of all patterns, and the key of pseudonyms.

ghost use Rattle.std.specs.Prelude.{◌≡◌, IfErr, IfOk};
ghost use Rattle.tool_parts.specs.Streams.{bytes_left};
ghost use Rattle.acredact.specs.Arguments.{all_given, has};
ghost use Rattle.acredact.specs.Calls.{AreKeyedBy, AreLoadedBy, CannotLoadBy, IsKeyedBy};
ghost use Rattle.acredact.specs.Loading.{for_runs, key_in, key_lent, loaded_in};
ghost use Rattle.acredact.specs.declared.options.Word.TheVariants.{IgnoreCase};

use crate::failure::Failure;
use crate::folder::Folder;
use crate::load::{key_of, lists_of, rules};
use crate::named::named_rules;
use crate::options::{Item, Word, has};
use crate::rule::Rule;
use crate::ways::Key;
use chromesquid::FromRead;
use std::alloc::{AllocError, Global};
use std::io::Read;

/// What was loaded.
#[derive(Drop)]
pub struct Secrets {
    /// The rules of all patterns.
    pub rules: Vec<Rule>,
    /// The key that names each run, where there is one.
    pub key: Option<Vec<u8>>,
}

/// Loads all patterns, and the key of pseudonyms, where they are asked for.
pub fn load<'a, F: Folder, I: Read>(
    alloc: Global,
    given: &[Item<'a>],
    folder: &F,
    input: &mut FromRead<I>,
) -> Result<Secrets, Failure<'a>>
    ensures loaded { IfOk result (AreLoadedBy F.Folder folder.now given.now (bytes_left input.old) (bytes_left input.new)) }
    ensures fails { IfErr result (CannotLoadBy F.Folder folder.now given.now) }
{
    let rules = match rules(alloc, given, folder, input) {
        Ok(rules) => rules,
        Err(failure) => return Err(failure),
    };
    match load_key(alloc, given, rules, folder, input) {
        Ok(keyed) => Ok(for_runs(given, keyed)),
        Err(failure) => Err(failure),
    }
}

/// The same, but that a key that has named all secrets names no run.
fn for_runs(given: &[Item<'_>], keyed: Secrets) -> Secrets
    ensures same { loaded_in result ≡ for_runs (all_given given.now) (loaded_in keyed) }
{
    if !has(given, Word::Forms) {
        return keyed;
    }
    let Secrets { rules, key: _key } = keyed;
    Secrets { rules, key: None }
}

/// Loads the key of pseudonyms, where they are asked for, beside these rules. Where forms are asked for, each form has the pseudonym of
/// its secret for its text.
pub fn load_key<'a, F: Folder, I: Read>(
    alloc: Global,
    given: &[Item<'a>],
    rules: Vec<Rule>,
    folder: &F,
    input: &mut FromRead<I>,
) -> Result<Secrets, Failure<'a>>
    ensures keyed { IfOk result (AreKeyedBy F.Folder folder.now given.now rules.items
        (bytes_left input.old) (bytes_left input.new)) }
    ensures fails { IfErr result (CannotLoadBy F.Folder folder.now given.now) }
{
    let lists = lists_of(alloc, given, folder);
    match key_of(&lists, given, input) {
        Ok(key) => Ok(with_key(alloc, given, rules, key)?),
        Err(failure) => Err(failure),
    }
}

/// These rules with this key, if any, which names the secrets where forms are asked for.
fn with_key(
    alloc: Global,
    given: &[Item<'_>],
    rules: Vec<Rule>,
    key: Option<Vec<u8>>,
) -> Result<Secrets, AllocError>
    ensures keyed { IfOk result (IsKeyedBy given.now rules.items (key_in key)) }
{
    let Some(key) = key else {
        return Ok(Secrets { rules, key: None });
    };
    if !has(given, Word::Forms) {
        return Ok(Secrets {
            rules,
            key: Some(key),
        });
    }
    let named = named_rules(alloc, rules.as_slice(), name_key(given, key.as_slice()))?;
    Ok(Secrets {
        rules: named,
        key: Some(key),
    })
}

/// A key, by the case rule that is given.
pub fn name_key<'k>(given: &[Item<'_>], bytes: &'k [u8]) -> Key<'k>
    ensures case { result.ignore_case ≡ has IgnoreCase (all_given given.now) }
    ensures bytes { result.bytes.now ≡ bytes.entry.now }
{
    Key {
        bytes,
        ignore_case: has(given, Word::IgnoreCase),
    }
}

/// The bytes of the key, where there is one.
pub fn key_bytes(secrets: &Secrets) -> Option<&[u8]>
    ensures key { key_lent result ≡ key_in secrets.now.key }
{
    match &secrets.key {
        Some(key) => Some(key.as_slice()),
        None => None,
    }
}
