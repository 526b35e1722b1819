//! The long names of options, and their beginnings.

ghost use Rattle.std.specs.Prelude.{◌≡◌, Err, Ok, IfErr, IfOk, map};
ghost use Rattle.acredact.specs.Long.{found_of_name, named_row, word_by_name};
ghost use Rattle.acredact.specs.Mistakes.{mistake_line};
ghost use Rattle.tool_parts.specs.OptionNames.{found_among};
ghost use Rattle.tool_parts.specs.declared.options.found.Found.TheVariants.{Unknown};

use crate::mistakes::Mistake;
use crate::options::Word;
use tool_parts::options::found::Found;

/// The long name of an option, and what it means.
#[derive(Clone, Copy)]
struct Row(&'static [u8], Word);

/// All of them.
const ROWS: &[Row] = &[
    Row(b"ignore-case", Word::IgnoreCase),
    Row(b"kind", Word::Kind),
    Row(b"pattern", Word::Pattern),
    Row(b"file", Word::Patterns),
    Row(b"table", Word::Table),
    Row(b"env", Word::Env),
    Row(b"env-file", Word::EnvFile),
    Row(b"whole", Word::Whole),
    Row(b"with", Word::With),
    Row(b"pseudonym", Word::Pseudonym),
    Row(b"forms", Word::Forms),
    Row(b"word", Word::AsWord),
    Row(b"rules", Word::Rules),
    Row(b"after", Word::After),
    Row(b"max-line", Word::MaxLine),
    Row(b"crlf", Word::Crlf),
    Row(b"allow-empty", Word::AllowEmpty),
    Row(b"output", Word::Output),
    Row(b"in-place", Word::InPlace),
    Row(b"keep-mode", Word::KeepMode),
    Row(b"overwrite", Word::Overwrite),
    Row(b"count", Word::Count),
    Row(b"summary", Word::Summary),
    Row(b"strict", Word::Strict),
    Row(b"check", Word::Check),
    Row(b"help", Word::Help),
    Row(b"version", Word::Version),
];

/// The option of a long name, or of a beginning that no other option's name has.
pub fn option_of(name: &[u8]) -> Result<Word, Mistake<'_>>
    ensures found { IfOk result (λ word. word_by_name name.now ≡ Ok word) }
    ensures wrong { IfErr result (λ mistake. word_by_name name.now ≡ Err (mistake_line mistake)) }
{
    match found_of(name).option() {
        Ok(word) => Ok(word),
        Err(why) => Err(Mistake::NotFound(why, name)),
    }
}

/// What a name means among all options.
#[tactic(auto, unfolding(crate::specs::Long::found_of_name))]
fn found_of(name: &[u8]) -> Found<Word>
    ensures found { result ≡ found_of_name name.now }
{
    among(ROWS, name)
}

/// What a name means among these options.
fn among(rows: &[Row], name: &[u8]) -> Found<Word>
    ensures found { result ≡ found_among (map named_row rows.now) name.now Unknown }
{
    let mut found = Found::Unknown;
    for row in rows {
        found = found.or(name, row.0, row.1);
    }
    found
}
