//! The bytes with which patterns begin, as long as they are few.

ghost use Rattle.std.specs.Prelude.{◌≡◌};
ghost use Rattle.aho_prefilter.specs.FirstBytes.{has_byte};
ghost use Rattle.aho_prefilter.specs.Inside.{bytes_of, few_with, few_with_word};

use aho_core::letters::opposite_ascii_case;

/// The bytes with which patterns begin, each once.
#[derive(Clone, Copy)]
pub(crate) enum FirstBytes {
    /// There is no pattern.
    None,
    One(u8),
    Two(u8, u8),
    Three(u8, u8, u8),
    /// More than three bytes, or every byte, where a pattern is empty.
    Any,
}

impl FirstBytes {
    /// The bytes with which these patterns and one more begin.
    pub(crate) fn with_pattern(self, ignore_case: bool, pattern: &[u8]) -> FirstBytes
        ensures with_pattern { result ≡ few_with_word ignore_case self pattern.now }
    {
        let Some(first) = pattern.first() else {
            return FirstBytes::Any;
        };
        let bytes = self.with(*first);
        if ignore_case {
            bytes.with(opposite_ascii_case(*first))
        } else {
            bytes
        }
    }

    /// These bytes and one more, unless it is one of them.
    fn with(self, byte: u8) -> FirstBytes
        ensures with { result ≡ few_with self byte }
    {
        if self.has(byte) {
            return self;
        }
        match self {
            FirstBytes::None => FirstBytes::One(byte),
            FirstBytes::One(x) => FirstBytes::Two(x, byte),
            FirstBytes::Two(x, y) => FirstBytes::Three(x, y, byte),
            FirstBytes::Three(_, _, _) | FirstBytes::Any => FirstBytes::Any,
        }
    }

    /// Whether the byte is one of these few.
    fn has(self, byte: u8) -> bool
        ensures has { result ≡ has_byte (bytes_of self) byte }
    {
        match self {
            FirstBytes::None | FirstBytes::Any => false,
            FirstBytes::One(x) => x == byte,
            FirstBytes::Two(x, y) => x == byte || y == byte,
            FirstBytes::Three(x, y, z) => x == byte || y == byte || z == byte,
        }
    }
}
