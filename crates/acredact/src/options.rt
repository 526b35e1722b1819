//! The options of a call: which there are, and what was given.

ghost use Rattle.std.specs.Prelude.{◌≡◌, option_map};
ghost use Rattle.tool_parts.specs.Arguments.{kind_by};
ghost use Rattle.acredact.specs.Arguments.{aim_of, all_given, counts_asked, covers_asked, given, has, in_place_asked, is_cover, is_same, kind_asked, last_value, output_asked, rights_asked, takes_value, gives_pattern, gives_rules, words_asked};
ghost use Rattle.acredact.specs.Mistakes.{value_name};

use chromesquid::MatchKind;

/// What an argument is, or the option that it is the value of.
#[derive(Clone, Copy, PartialEq, Eq)]
pub enum Word {
    /// `-i`: ASCII letters are the same in both cases.
    IgnoreCase,
    /// `--kind`: what is replaced where several matches share bytes.
    Kind,
    /// `-e`: a pattern.
    Pattern,
    /// `-f`: a file of patterns.
    Patterns,
    /// `-t`: a table of patterns with their replacements.
    Table,
    /// `--env`: a variable of the environment, or several, whose values are patterns.
    Env,
    /// `--env-file`: a file of variables whose values are patterns.
    EnvFile,
    /// `--whole`: a file whose bytes are one pattern.
    Whole,
    /// `--with`: the replacement of each pattern that has none of its own.
    With,
    /// `--pseudonym`: the file of the key by which the text in the place of each run is made of its bytes.
    Pseudonym,
    /// `--forms`: which forms of each pattern are patterns too.
    Forms,
    /// `-w`: an occurrence counts where no letter, digit or `_` stands beside it.
    AsWord,
    /// `--rules`: a file of rules, or those of the program.
    Rules,
    /// `--after`: a keyword; what stands behind it is redacted.
    After,
    /// `--max-line`: how many bytes a line may have that is not redacted whole.
    MaxLine,
    /// `--output`: the file that is written, in the place of standard output.
    Output,
    /// `--in-place`: each file is replaced, and nothing goes to standard output.
    InPlace,
    /// `--keep-mode`: the new file gets the whole mode of the file that it replaces.
    KeepMode,
    /// `--overwrite`: the old file is overwritten with the bytes of the new one.
    Overwrite,
    /// `--count`: how often the text of each pattern was written is told.
    Count,
    /// `--summary`: how much was read, and how often the text of each pattern was written, is told as JSON.
    Summary,
    /// `--crlf`: a carriage return at the end of a line of a file of patterns or of a table is left out.
    Crlf,
    /// `--allow-empty`: a file of patterns or a table may be empty, and so may a value.
    AllowEmpty,
    /// `--strict`: a replacement that is not clean is refused.
    Strict,
    /// `--check`: it is only told whether something would be replaced.
    Check,
    /// `--help`: only the help is written.
    Help,
    /// `--version`: only the version is written.
    Version,
    /// A file that is read; `-` is standard input.
    File,
}

/// What a new file gets of the rights of the file that it replaces.
#[derive(Clone, Copy, PartialEq, Eq)]
pub enum Rights {
    /// The permissions of the owner and of others, and those of the group that others have too.
    Shared,
    /// The whole mode.
    Mode,
    /// Every right: the old file stays and is overwritten.
    Every,
}

/// What a call is to do.
#[derive(Clone, Copy)]
pub enum Aim {
    /// To write the help or the version.
    Explain,
    /// To redact files by patterns.
    RedactTexts,
    /// To redact the lines of files by rules, and by patterns beside them.
    RedactLines,
    /// To look for patterns in files.
    CheckTexts,
    /// To look by rules in the lines of files.
    CheckLines,
}

/// An option with its value, or a file with its name. An option without a value has itself for one.
#[derive(Clone, Copy)]
pub struct Item<'a> {
    /// Which option it is.
    pub word: Word,
    /// Its value.
    pub value: &'a str,
}

/// How this option is called, if it needs a value.
pub fn value_name(word: Word) -> Option<&'static str>
    ensures name { option_map (λ name. name.now) result ≡ value_name word }
{
    match word {
        Word::Kind => Some("--kind"),
        Word::Pattern => Some("-e"),
        Word::Patterns => Some("-f"),
        Word::Table => Some("-t"),
        Word::Env => Some("--env"),
        Word::EnvFile => Some("--env-file"),
        Word::Whole => Some("--whole"),
        Word::With => Some("--with"),
        Word::Pseudonym => Some("--pseudonym"),
        Word::Forms => Some("--forms"),
        Word::Rules => Some("--rules"),
        Word::After => Some("--after"),
        Word::MaxLine => Some("--max-line"),
        Word::Output => Some("--output"),
        _ => None,
    }
}

/// Whether this option needs a value.
pub fn takes_value(word: Word) -> bool
    ensures takes { result ≡ takes_value word }
{
    value_name(word).is_some()
}

/// The match kind of this name.
pub fn kind_by(name: &str) -> Option<MatchKind>
    ensures kind { result ≡ kind_by name.now }
{
    match name {
        "longest" | "leftmost-longest" => Some(MatchKind::LeftmostLongest),
        "first" | "leftmost-first" => Some(MatchKind::LeftmostFirst),
        "standard" => Some(MatchKind::Standard),
        _ => None,
    }
}

/// Whether this is the kind that covers each byte of each match.
pub fn is_cover(name: &str) -> bool
    ensures is { result ≡ is_cover name.now }
{
    name == "cover"
}

/// Whether these are the same option.
pub fn is_same(word: Word, other: Word) -> bool
    ensures same { result ≡ is_same word other }
{
    word == other
}

/// Whether this option is given.
pub fn has(items: &[Item<'_>], word: Word) -> bool
    ensures has { result ≡ has word (all_given items.now) }
{
    last_value(items, word).is_some()
}

/// The last value of this option.
pub fn last_value<'a>(items: &[Item<'a>], word: Word) -> Option<&'a str>
    ensures last { option_map (λ value. value.now) result ≡ last_value word (all_given items.now) }
{
    let mut value = None;
    for item in items {
        if is_same(word, item.word) {
            value = Some(item.value);
        }
    }
    value
}

/// What these options ask for.
pub fn aim_of(items: &[Item<'_>]) -> Aim
    ensures aim { result ≡ aim_of (all_given items.now) }
{
    if has(items, Word::Help) || has(items, Word::Version) {
        return Aim::Explain;
    }
    match (has(items, Word::Check), gives_rules(items)) {
        (false, false) => Aim::RedactTexts,
        (false, true) => Aim::RedactLines,
        (true, false) => Aim::CheckTexts,
        (true, true) => Aim::CheckLines,
    }
}

/// The file that is written, where that is asked for, and no help and no version.
pub fn output_of<'a>(items: &[Item<'a>]) -> Option<&'a str>
    ensures output { option_map (λ name. name.now) result ≡ output_asked (all_given items.now) }
{
    if has(items, Word::Help) || has(items, Word::Version) {
        return None;
    }
    last_value(items, Word::Output)
}

/// Whether files are to be replaced in place, and no help and no version is asked for.
pub fn replaces_in_place(items: &[Item<'_>]) -> bool
    ensures asked { result ≡ in_place_asked (all_given items.now) }
{
    has(items, Word::InPlace) && !has(items, Word::Help) && !has(items, Word::Version)
}

/// Which rights a new file gets.
pub fn rights_of(items: &[Item<'_>]) -> Rights
    ensures rights { result ≡ rights_asked (all_given items.now) }
{
    if has(items, Word::Overwrite) {
        return Rights::Every;
    }
    if has(items, Word::KeepMode) {
        return Rights::Mode;
    }
    Rights::Shared
}

/// Whether a cover is asked for: so it is where no kind is given.
pub fn covers(items: &[Item<'_>]) -> bool
    ensures covers { result ≡ covers_asked (all_given items.now) }
{
    match last_value(items, Word::Kind) {
        Some(name) => is_cover(name),
        None => true,
    }
}

/// Whether an option gives rules.
pub fn gives_rules(items: &[Item<'_>]) -> bool
    ensures gives { result ≡ gives_rules (all_given items.now) }
{
    has(items, Word::Rules) || has(items, Word::After)
}

/// Whether words alone count: of a cover.
pub fn words(items: &[Item<'_>]) -> bool
    ensures words { result ≡ words_asked (all_given items.now) }
{
    covers(items) && has(items, Word::AsWord)
}

/// The match kind that is searched by. A cover needs all matches, so for it that is `Standard`.
pub fn kind_of(items: &[Item<'_>]) -> MatchKind
    ensures kind { result ≡ kind_asked (all_given items.now) }
{
    match last_value(items, Word::Kind) {
        Some(name) => kind_by(name).unwrap_or(MatchKind::Standard),
        None => MatchKind::Standard,
    }
}

/// Whether it is asked for how often the text of each pattern is written: as lines, or in a summary.
pub fn counts(items: &[Item<'_>]) -> bool
    ensures counts { result ≡ counts_asked (all_given items.now) }
{
    has(items, Word::Count) || has(items, Word::Summary)
}

/// Whether an option gives patterns.
pub fn gives_pattern(given: &[Item<'_>]) -> bool
    ensures gives { result ≡ gives_pattern (all_given given.now) }
{
    has(given, Word::Pattern)
        || has(given, Word::Patterns)
        || has(given, Word::Table)
        || has(given, Word::Env)
        || has(given, Word::EnvFile)
        || has(given, Word::Whole)
}
