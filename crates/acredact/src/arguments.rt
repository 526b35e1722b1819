//! What the arguments of a call are: options with their values, and names of files.

ghost use Rattle.std.specs.Prelude.{◌≡◌, ◌++◌, [], ◌∷◌, Ok, Some, IfErr, IfOk, OnOk, string_bytes};
ghost use Rattle.tool_parts.specs.Arguments.{texts};
ghost use Rattle.acredact.specs.Arguments.{FailsAs, IsMistake, IsMistakeOfCall, ReadsAs, all_asked, all_given, by_any, by_argument, given, given_by, is_value_of, by_joined, by_letters, mixture_of, by_name, by_taken, rights_mixture_of, rules_mixture_of, words_mixture_of, by_value};

use crate::forms::are_forms;
use crate::line_size::size_of;
use crate::long::option_of;
use crate::mistakes::{Mistake, Mixture};
use crate::options::{Item, Word, covers, gives_rules, has, is_cover, kind_by, takes_value};
use crate::values::is_variable_name;
use std::alloc::{AllocError, Global};
use tool_parts::options::argument::{Argument, text_argument_of};

/// What the next argument is read as.
#[derive(Clone, Copy)]
pub enum Expects {
    /// An option or a file.
    Any,
    /// The value of this option.
    Value(Word),
    /// A file, whatever it begins with: it stands behind `--`.
    Name,
}

/// All options and files, in order, where they go together.
pub fn items(alloc: Global, arguments: &[String]) -> Result<Vec<Item<'_>>, Mistake<'_>>
    ensures given { IfOk result (λ items.
        all_asked (texts arguments.now) ≡ Some (all_given items.items)) }
    ensures wrong { IfErr result (IsMistakeOfCall (texts arguments.now)) }
{
    let items = read_items(alloc, arguments)?;
    match mixture_of(items.as_slice()) {
        Some(mixture) => Err(Mistake::Mixed(mixture)),
        None => Ok(items),
    }
}

/// The options that do not go together, where some do not.
fn mixture_of(items: &[Item<'_>]) -> Option<Mixture>
    ensures mixture { result ≡ mixture_of (all_given items.now) }
{
    if has(items, Word::Strict) && !covers(items) {
        return Some(Mixture::StrictKind);
    }
    if has(items, Word::Pseudonym) && !covers(items) {
        return Some(Mixture::PseudonymKind);
    }
    if has(items, Word::Pseudonym) && has(items, Word::With) {
        return Some(Mixture::PseudonymWith);
    }
    if has(items, Word::Pseudonym) && has(items, Word::Table) {
        return Some(Mixture::PseudonymTable);
    }
    if has(items, Word::Forms) && !covers(items) {
        return Some(Mixture::FormsKind);
    }
    if has(items, Word::Count) && has(items, Word::Check) {
        return Some(Mixture::CountCheck);
    }
    if has(items, Word::Summary) && has(items, Word::Check) && !gives_rules(items) {
        return Some(Mixture::SummaryCheck);
    }
    if has(items, Word::Output) && has(items, Word::Check) {
        return Some(Mixture::OutputCheck);
    }
    words_mixture_of(items)
}

/// That of `--word` or `--in-place` with another option, where they do not go together.
fn words_mixture_of(items: &[Item<'_>]) -> Option<Mixture>
    ensures mixture { result ≡ words_mixture_of (all_given items.now) }
{
    if has(items, Word::AsWord) && !covers(items) {
        return Some(Mixture::WordsKind);
    }
    if has(items, Word::AsWord) && has(items, Word::Forms) {
        return Some(Mixture::WordsForms);
    }
    if has(items, Word::InPlace) && has(items, Word::Check) {
        return Some(Mixture::InPlaceCheck);
    }
    if has(items, Word::InPlace) && has(items, Word::Output) {
        return Some(Mixture::InPlaceOutput);
    }
    rules_mixture_of(items)
}

/// That of rules, or of `--max-line` without them, with another option, where they do not go together.
fn rules_mixture_of(items: &[Item<'_>]) -> Option<Mixture>
    ensures mixture { result ≡ rules_mixture_of (all_given items.now) }
{
    let rules = gives_rules(items);
    if !rules && has(items, Word::MaxLine) {
        return Some(Mixture::MaxLineAlone);
    }
    if rules && !covers(items) {
        return Some(Mixture::RulesKind);
    }
    if rules && has(items, Word::InPlace) {
        return Some(Mixture::RulesInPlace);
    }
    if rules && has(items, Word::Strict) {
        return Some(Mixture::RulesStrict);
    }
    rights_mixture_of(items)
}

/// That of `--keep-mode` or `--overwrite`, where no file is replaced.
fn rights_mixture_of(items: &[Item<'_>]) -> Option<Mixture>
    ensures mixture { result ≡ rights_mixture_of (all_given items.now) }
{
    let rights = has(items, Word::KeepMode) || has(items, Word::Overwrite);
    if rights && !(has(items, Word::InPlace) || has(items, Word::Output)) {
        return Some(Mixture::RightsAlone);
    }
    None
}

/// All options and files, in order.
fn read_items(alloc: Global, arguments: &[String]) -> Result<Vec<Item<'_>>, Mistake<'_>>
    ensures given { IfOk result (λ items.
        given_by (texts arguments.now) ≡ Ok (all_given items.items)) }
    ensures wrong { IfErr result (IsMistake (texts arguments.now)) }
{
    let mut items = Vec::new(alloc);
    let mut expects = Expects::Any;
    for argument in arguments {
        expects = read(&mut items, expects, argument)?;
    }
    match expects {
        Expects::Value(word) => Err(Mistake::NoValue(word)),
        Expects::Any | Expects::Name => Ok(items),
    }
}

/// Reads an argument, where this is expected, and answers what is expected of the next.
pub fn read<'a>(
    items: &mut Vec<Item<'a>>,
    expects: Expects,
    argument: &'a String,
) -> Result<Expects, Mistake<'a>>
    ensures read { ReadsAs (by_argument expects (string_bytes argument.now)) items.old items.new result }
    ensures refused { FailsAs (by_argument expects (string_bytes argument.now)) items.old result }
{
    match expects {
        Expects::Any => read_any(items, argument.as_str()),
        Expects::Value(word) => read_value(items, word, argument.as_str()),
        Expects::Name => {
            add(items, Word::File, argument.as_str())?;
            Ok(Expects::Name)
        }
    }
}

/// Adds an option with its value, or a file with its name.
fn add<'a>(items: &mut Vec<Item<'a>>, word: Word, value: &'a str) -> Result<(), AllocError>
    ensures added { OnOk result (all_given items.new.items
        ≡ all_given items.old.items ++ (given word value.now ∷ [])) }
{
    items.push(Item { word, value })?;
    Ok(())
}

/// Reads an argument that stands where an option may.
fn read_any<'a>(items: &mut Vec<Item<'a>>, argument: &'a str) -> Result<Expects, Mistake<'a>>
    ensures read { ReadsAs (by_any argument.now) items.old items.new result }
    ensures refused { FailsAs (by_any argument.now) items.old result }
{
    match text_argument_of(argument) {
        Argument::End => Ok(Expects::Name),
        Argument::Name(name) => read_named(items, name),
        Argument::Joined(name, value) => read_joined(items, name, value),
        Argument::Letters(letters) => read_letters(items, letters),
        Argument::Plain => {
            add(items, Word::File, argument)?;
            Ok(Expects::Any)
        }
    }
}

/// Reads a long name with a value behind an equals sign.
fn read_joined<'a>(
    items: &mut Vec<Item<'a>>,
    name: &'a str,
    value: &'a str,
) -> Result<Expects, Mistake<'a>>
    ensures read { ReadsAs (by_joined name.now value.now) items.old items.new result }
    ensures refused { FailsAs (by_joined name.now value.now) items.old result }
{
    let word = option_of(name.as_bytes())?;
    if takes_value(word) {
        return read_value(items, word, value);
    }
    Err(Mistake::TakesNone(name.as_bytes()))
}

/// Reads a long name without a value.
fn read_named<'a>(items: &mut Vec<Item<'a>>, name: &'a str) -> Result<Expects, Mistake<'a>>
    ensures read { ReadsAs (by_name name.now) items.old items.new result }
    ensures refused { FailsAs (by_name name.now) items.old result }
{
    let word = option_of(name.as_bytes())?;
    if takes_value(word) {
        return Ok(Expects::Value(word));
    }
    add(items, word, "")?;
    Ok(Expects::Any)
}

/// Reads joined letters. That of an option with a value takes what stands behind it.
fn read_letters<'a>(items: &mut Vec<Item<'a>>, letters: &'a str) -> Result<Expects, Mistake<'a>>
    ensures read { ReadsAs (by_letters letters.now) items.old items.new result }
    ensures refused { FailsAs (by_letters letters.now) items.old result }
{
    let mut rest = letters;
    'letters: loop {
        if let Some(behind) = rest.strip_prefix('i') {
            add(items, Word::IgnoreCase, "")?;
            rest = behind;
        } else if let Some(behind) = rest.strip_prefix('w') {
            add(items, Word::AsWord, "")?;
            rest = behind;
        } else if let Some(behind) = rest.strip_prefix('e') {
            return take_value(items, Word::Pattern, behind);
        } else if let Some(behind) = rest.strip_prefix('f') {
            return take_value(items, Word::Patterns, behind);
        } else if let Some(behind) = rest.strip_prefix('t') {
            return take_value(items, Word::Table, behind);
        } else {
            return match rest.as_bytes().first() {
                Some(letter) => Err(Mistake::UnknownLetter(*letter)),
                None => Ok(Expects::Any),
            };
        }
    }
}

/// Takes what stands behind the letter of an option for its value, if it is not empty.
fn take_value<'a>(
    items: &mut Vec<Item<'a>>,
    word: Word,
    rest: &'a str,
) -> Result<Expects, Mistake<'a>>
    ensures read { ReadsAs (by_taken word rest.now) items.old items.new result }
    ensures memory { IfErr result (λ mistake. mistake ≡ Mistake.OutOfMemory) }
{
    if rest.is_empty() {
        return Ok(Expects::Value(word));
    }
    add(items, word, rest)?;
    Ok(Expects::Any)
}

/// Reads the value of an option, if it can have this one.
fn read_value<'a>(
    items: &mut Vec<Item<'a>>,
    word: Word,
    value: &'a str,
) -> Result<Expects, Mistake<'a>>
    ensures read { ReadsAs (by_value word value.now) items.old items.new result }
    ensures refused { FailsAs (by_value word value.now) items.old result }
{
    if is_value_of(word, value) {
        add(items, word, value)?;
        return Ok(Expects::Any);
    }
    match word {
        Word::Forms => Err(Mistake::UnknownForm),
        Word::Env => Err(Mistake::BadName),
        Word::MaxLine => Err(Mistake::BadSize),
        _ => Err(Mistake::UnknownKind),
    }
}

/// Whether an option can have this value: that of `--kind` is `cover` or a match kind, that of `--forms` names forms, that of `--env`
/// variables, and that of `--max-line` is a number of bytes.
fn is_value_of(word: Word, value: &str) -> bool
    ensures is { result ≡ is_value_of word value.now }
{
    match word {
        Word::Kind => is_cover(value) || kind_by(value).is_some(),
        Word::Forms => are_forms(value),
        Word::Env => is_variable_name(value),
        Word::MaxLine => size_of(value).is_some(),
        _ => true,
    }
}
