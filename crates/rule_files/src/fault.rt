//! Why a text gives no rules, and how that is told.

ghost use Rattle.std.specs.Prelude.{◌≡◌, ℕ, List};
ghost use Rattle.tool_parts.specs.Telling.{TellsBytes};
ghost use Rattle.rule_files.specs.Flaws.{IsFaultLine};

use crate::flaw::{BadRule, tell_rule};
use crate::shown::tell_shown;
use chromesquid::Sink;
use std::alloc::AllocError;
use toml::de::Error as TomlError;
use tool_parts::errors::Errors;

/// Why a text gives no rules.
#[derive(Drop)]
pub enum TextFault {
    /// It begins with a byte order mark of UTF-8.
    ByteOrderMark,
    /// It begins with a byte order mark of UTF-16.
    Utf16,
    /// It is not UTF-8, as TOML is: in this line.
    NotText(usize),
    /// It is no TOML: in this line, for this reason.
    Toml(usize, TomlError),
    /// It has no rule.
    NoRule,
    /// A rule of it is none.
    Rule(BadRule),
    /// Memory runs out.
    OutOfMemory,
}

impl From<AllocError> for TextFault {
    ghost use Rattle.rule_files.specs.declared.fault.TextFault.TheVariants.{OutOfMemory};

    ghost from_gives = { λ _ fault. fault ≡ OutOfMemory };

    fn from(_error: AllocError) -> TextFault {
        TextFault::OutOfMemory
    }
}

/// Tells as a line why the text of the file of a name gives no rules.
pub fn tell_fault<E: Sink>(
    errors: &mut Errors<'_, E>,
    program: &[u8],
    name: &[u8],
    fault: &TextFault,
)
    ensures told { (line : List ℕ) × IsFaultLine program.now name.now fault.now line
        × TellsBytes E.Sink errors.old errors.new line }
{
    match fault {
        TextFault::ByteOrderMark => tell_shown(
            errors,
            program,
            name,
            Some(1),
            b"byte order mark: leave it out",
        ),
        TextFault::Utf16 => tell_shown(
            errors,
            program,
            name,
            Some(1),
            b"UTF-16: give UTF-8, or what the files hold",
        ),
        TextFault::NotText(line) => {
            tell_shown(errors, program, name, Some(*line as u64), b"not UTF-8")
        }
        TextFault::Toml(line, error) => {
            let cause = error.message().as_bytes();
            tell_shown(errors, program, name, Some(*line as u64), cause)
        }
        TextFault::NoRule => tell_shown(errors, program, name, None, b"no [[rules]]"),
        TextFault::Rule(bad) => tell_rule(errors, program, name, bad),
        TextFault::OutOfMemory => errors.tell(program, None, None, b"out of memory"),
    }
}
