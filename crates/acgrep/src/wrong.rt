//! Why the arguments of a call are refused.

ghost use Rattle.std.specs.Prelude.{◌≡◌};

use crate::all_options::Valued;
use std::alloc::AllocError;
use tool_parts::options::found::NotFound;

/// Why arguments are wrong. Each holds what has to be named.
#[derive(Clone, Copy)]
pub enum Wrong<'a> {
    /// There is no pattern.
    NoPattern,
    /// No option has this letter.
    UnknownLetter(u8),
    /// This long name means no option.
    NotFound(NotFound, &'a [u8]),
    /// This option has no argument.
    NoArgument(Valued),
    /// The option of this long name has an argument, and takes none.
    TakesNone(&'a [u8]),
    /// The argument of `--kind` is none of its three.
    UnknownKind(&'a [u8]),
    /// The argument of `--color` is none of its nine.
    UnknownColor(&'a [u8]),
    /// The argument of `-d` is none of its three.
    UnknownFolders(&'a [u8]),
    /// The argument of `-D` is none of its two.
    UnknownDevices(&'a [u8]),
    /// The argument of `--binary-files` is none of its three.
    UnknownBinary(&'a [u8]),
    /// The argument of `--format` has this where a field stands.
    UnknownField(&'a [u8]),
    /// The argument of this option is no number below 2^64.
    NoNumber(Valued, &'a [u8]),
}

/// Why there is no `Given`.
#[derive(Clone, Copy)]
pub enum Refusal<'a> {
    /// The arguments are wrong.
    Wrong(Wrong<'a>),
    /// Memory runs out.
    OutOfMemory,
}

impl<'a> From<AllocError> for Refusal<'a> {
    ghost use Rattle.acgrep.specs.declared.wrong.Refusal.TheVariants.{OutOfMemory};

    ghost from_gives = { λ _ refusal. refusal ≡ OutOfMemory };

    fn from(_error: AllocError) -> Refusal<'a> {
        Refusal::OutOfMemory
    }
}
