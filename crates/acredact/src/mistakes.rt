//! Why the arguments of a call are wrong.

ghost use Rattle.std.specs.Prelude.{◌≡◌};
ghost use Rattle.acredact.specs.Mistakes.{option_name};

use crate::options::{Word, value_name};
use std::alloc::AllocError;
use tool_parts::options::found::NotFound;

/// Options that do not go together.
#[derive(Clone, Copy)]
pub enum Mixture {
    /// `--strict` with another kind than cover: it promises something of covers alone.
    StrictKind,
    /// `--pseudonym` with another kind than cover: only a cover has runs.
    PseudonymKind,
    /// `--pseudonym` with `--with`: each says what is written.
    PseudonymWith,
    /// `--pseudonym` with a table, whose lines say what is written.
    PseudonymTable,
    /// `--forms` with another kind than cover: by other kinds a part of a form can stay.
    FormsKind,
    /// `--word` with another kind than cover: a match that is no word could hide a word from another kind.
    WordsKind,
    /// `--word` with `--forms`: a form can stand within a word.
    WordsForms,
    /// `--rules` or `--after` with another kind than cover: what rules mark may overlap.
    RulesKind,
    /// `--rules` or `--after` with `--in-place`.
    RulesInPlace,
    /// `--rules` or `--after` with `--strict`, which promises nothing of what rules mark.
    RulesStrict,
    /// `--keep-mode` or `--overwrite` with neither `--in-place` nor `--output`: no file is replaced.
    RightsAlone,
    /// `--max-line` without rules: no line is kept.
    MaxLineAlone,
    /// `--count` with `--check`, which counts nothing.
    CountCheck,
    /// `--summary` with `--check`, without rules.
    SummaryCheck,
    /// `--output` with `--check`, which writes nothing.
    OutputCheck,
    /// `--in-place` with `--check`.
    InPlaceCheck,
    /// `--in-place` with `--output`: each says what is replaced.
    InPlaceOutput,
}

/// Why arguments are wrong. Each holds what has to be named.
#[derive(Clone, Copy)]
pub enum Mistake<'a> {
    /// No option has this letter.
    UnknownLetter(u8),
    /// This long name means no option.
    NotFound(NotFound, &'a [u8]),
    /// The last argument is this option, which needs a value.
    NoValue(Word),
    /// The option of this long name has a value, and takes none.
    TakesNone(&'a [u8]),
    /// The value of `--kind` is no kind. It is not told: it may be a secret, where the option is not the one that was meant.
    UnknownKind,
    /// The value of `--forms` names no forms. It is not told either.
    UnknownForm,
    /// The value of `--env` can be no name of a variable. It is not told: it may be the value of one.
    BadName,
    /// The value of `--max-line` is no number of bytes. It is not told either.
    BadSize,
    /// No option gives a pattern.
    NoPattern,
    /// These options do not go together.
    Mixed(Mixture),
    /// Memory runs out.
    OutOfMemory,
}

impl From<AllocError> for Mistake<'_> {
    ghost use Rattle.acredact.specs.declared.mistakes.Mistake.TheVariants.{OutOfMemory};

    ghost from_gives = { λ _ mistake. mistake ≡ OutOfMemory };

    fn from(_error: AllocError) -> Self {
        Mistake::OutOfMemory
    }
}

/// How an option that needs a value is called.
pub fn name_of(word: Word) -> &'static str
    ensures name { result.now ≡ option_name word }
{
    match value_name(word) {
        Some(name) => name,
        None => "-e",
    }
}
