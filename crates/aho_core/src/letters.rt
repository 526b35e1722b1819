//! The two cases of ASCII letters.

ghost use Rattle.std.specs.Prelude.{◌≡◌};
ghost use Rattle.aho_core.specs.Bytes.{opposite};

/// The other case of an ASCII letter, and every other byte itself.
#[inline]
pub fn opposite_ascii_case(byte: u8) -> u8
    ensures opposite { result ≡ opposite byte }
{
    if byte >= 65 && byte <= 90 {
        byte + 32
    } else if byte >= 97 && byte <= 122 {
        byte - 32
    } else {
        byte
    }
}
