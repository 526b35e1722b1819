//! The long names of options, and their beginnings.

ghost use Rattle.std.specs.Prelude.{◌≡◌, Some, None, IfErr, IfOk, map};
ghost use Rattle.acgrep.specs.Long.{found_by, named_by, option_by};
ghost use Rattle.acgrep.specs.Mistakes.{wrong_name};
ghost use Rattle.acgrep.specs.Told.{wrong_parts};
ghost use Rattle.tool_parts.specs.OptionNames.{found_among, found_more};
ghost use Rattle.tool_parts.specs.declared.options.found.Found.TheVariants.{Unknown};

use crate::all_options::{Switch, Valued};
use crate::wrong::Wrong;
use tool_parts::options::found::Found;

/// An option by its long name.
#[derive(Clone, Copy)]
pub enum Long {
    /// One that takes no argument.
    Plain(Switch),
    /// One that takes an argument.
    Takes(Valued),
    /// `--color`, which takes an argument behind `=` alone.
    When,
}

/// An option: its long name, or its two, and what they mean.
#[derive(Clone, Copy)]
enum Row {
    /// One that has one name.
    One(&'static [u8], Long),
    /// One that has two.
    Either(&'static [u8], &'static [u8], Long),
}

/// The options that grep has too.
const SHARED: &[Row] = &[
    // What is searched for.
    Row::One(b"regexp", Long::Takes(Valued::Regexp)),
    Row::One(b"file", Long::Takes(Valued::PatternFile)),
    Row::One(b"ignore-case", Long::Plain(Switch::IgnoreCase)),
    Row::One(b"no-ignore-case", Long::Plain(Switch::MatchCase)),
    Row::One(b"invert-match", Long::Plain(Switch::Invert)),
    Row::One(b"word-regexp", Long::Plain(Switch::WholeWords)),
    Row::One(b"line-regexp", Long::Plain(Switch::WholeLines)),
    Row::Either(b"fixed-strings", b"fixed-regexp", Long::Plain(Switch::Same)),
    Row::One(b"text", Long::Plain(Switch::Text)),
    Row::One(b"binary", Long::Plain(Switch::Same)),
    Row::One(b"binary-files", Long::Takes(Valued::BinaryFiles)),
    // What is written.
    Row::One(b"count", Long::Plain(Switch::Counts)),
    Row::One(b"files-with-matches", Long::Plain(Switch::OnlyNames)),
    Row::One(b"files-without-match", Long::Plain(Switch::OnlyLacking)),
    Row::One(b"null", Long::Plain(Switch::NullNames)),
    Row::One(b"null-data", Long::Plain(Switch::NullData)),
    Row::One(b"quiet", Long::Plain(Switch::Quiet)),
    Row::One(b"silent", Long::Plain(Switch::Quiet)),
    Row::One(b"only-matching", Long::Plain(Switch::OnlyMatching)),
    Row::One(b"initial-tab", Long::Plain(Switch::InitialTab)),
    Row::One(b"label", Long::Takes(Valued::Label)),
    Row::One(b"line-number", Long::Plain(Switch::Numbers)),
    Row::One(b"byte-offset", Long::Plain(Switch::Offsets)),
    Row::One(b"with-filename", Long::Plain(Switch::WithName)),
    Row::One(b"no-filename", Long::Plain(Switch::NoName)),
    Row::One(b"max-count", Long::Takes(Valued::MaxCount)),
    // Which lines are written around selected ones.
    Row::One(b"after-context", Long::Takes(Valued::After)),
    Row::One(b"before-context", Long::Takes(Valued::Before)),
    Row::One(b"context", Long::Takes(Valued::Around)),
    Row::One(b"no-group-separator", Long::Plain(Switch::NoSeparator)),
    Row::One(b"group-separator", Long::Takes(Valued::Separator)),
    // Which files are searched.
    Row::One(b"include", Long::Takes(Valued::Included)),
    Row::One(b"exclude", Long::Takes(Valued::Excluded)),
    Row::One(b"exclude-from", Long::Takes(Valued::ExcludedFrom)),
    Row::One(b"exclude-dir", Long::Takes(Valued::ExcludedFolder)),
    Row::One(b"directories", Long::Takes(Valued::Folders)),
    Row::One(b"devices", Long::Takes(Valued::Devices)),
    // All others.
    Row::Either(b"color", b"colour", Long::When),
    Row::One(b"recursive", Long::Plain(Switch::Recursive)),
    Row::One(b"dereference-recursive", Long::Plain(Switch::Follow)),
    Row::One(b"no-messages", Long::Plain(Switch::NoMessages)),
    Row::One(b"line-buffered", Long::Plain(Switch::Same)),
    Row::One(b"unix-byte-offsets", Long::Plain(Switch::Same)),
    Row::One(b"help", Long::Plain(Switch::Help)),
    Row::One(b"version", Long::Plain(Switch::Version)),
];

/// Those that only acgrep has.
const OWN: &[Row] = &[
    Row::One(b"kind", Long::Takes(Valued::Kind)),
    Row::One(b"counts", Long::Plain(Switch::Tallies)),
    Row::One(b"json", Long::Plain(Switch::Json)),
    Row::One(b"format", Long::Takes(Valued::Format)),
    Row::One(b"offset", Long::Takes(Valued::Offset)),
    Row::One(b"first-line", Long::Takes(Valued::FirstLine)),
    Row::One(b"no-match-ok", Long::Plain(Switch::NoMatchOk)),
    Row::One(b"rules", Long::Takes(Valued::RuleFile)),
    Row::One(b"max-line", Long::Takes(Valued::LineLimit)),
];

/// The option of a long name, or of a beginning that no other option's name has.
pub fn option_of(name: &[u8]) -> Result<Long, Wrong<'_>>
    ensures found { IfOk result (λ long. option_by name.now ≡ Some long) }
    ensures refused { IfErr result (λ wrong. option_by name.now ≡ None) }
    ensures wrong { IfErr result (λ wrong. wrong_parts wrong ≡ wrong_name name.now) }
{
    match found_of(name).option() {
        Ok(long) => Ok(long),
        Err(why) => Err(Wrong::NotFound(why, name)),
    }
}

/// What a name means. A beginning is one of a name that grep has too, where one begins so.
fn found_of(name: &[u8]) -> Found<Long>
    ensures found { result ≡ found_by name.now }
{
    match among(SHARED, name) {
        Found::Unknown => among(OWN, name),
        found => found,
    }
}

/// What a name means among these options.
fn among(rows: &[Row], name: &[u8]) -> Found<Long>
    ensures found { result ≡ found_among (map named_by rows.now) name.now Unknown }
{
    let mut found = Found::Unknown;
    for row in rows {
        found = or_row(found, name, row);
    }
    found
}

/// What a name means with an option more.
fn or_row(found: Found<Long>, name: &[u8], row: &Row) -> Found<Long>
    ensures found { result ≡ found_more name.now found (named_by row.now).names (named_by row.now).means }
{
    match row {
        Row::One(own, means) => found.or(name, own, *means),
        Row::Either(one, other, means) => found.or_either(name, one, other, *means),
    }
}
