//! What is told of an option that is misused.

ghost use Rattle.std.specs.Prelude.{◌≡◌};
ghost use Rattle.tool_parts.specs.Misuses.{text_before, text_behind};

use crate::options::found::NotFound;

/// How an option is misused.
#[derive(Clone, Copy)]
pub enum Misuse {
    /// No option has this letter.
    UnknownLetter,
    /// This long name means no option.
    NotFound(NotFound),
    /// The option of this long name has an argument, and takes none.
    TakesNone,
    /// The option that is called so has no argument, and needs one.
    NoArgument,
}

impl Misuse {
    /// What is told before the letter, the long name or what the option is called.
    pub fn before(self) -> &'static [u8]
        ensures text { result.now ≡ text_before self }
    {
        match self {
            Misuse::UnknownLetter => b"unknown option '-",
            Misuse::NotFound(NotFound::UnknownName) => b"unknown option '--",
            Misuse::NotFound(NotFound::Ambiguous) => b"several options begin with '--",
            Misuse::TakesNone => b"option '--",
            Misuse::NoArgument => b"option '",
        }
    }

    /// What is told behind it.
    pub fn behind(self) -> &'static [u8]
        ensures text { result.now ≡ text_behind self }
    {
        match self {
            Misuse::UnknownLetter | Misuse::NotFound(_) => b"'",
            Misuse::TakesNone => b"' takes no argument",
            Misuse::NoArgument => b"' needs an argument",
        }
    }
}
