//! The borders between bytes that the kept patterns make: a byte of one is a class of its own.

ghost use Rattle.std.specs.Prelude.{◌≡◌, ℕ, ◌<◌, ◌||◌, [], ◌∷◌};
ghost use Rattle.aho_table.specs.Alphabet.{is_border};
ghost use Rattle.aho_build.specs.Dense.{is_parted_by};

use aho_core::letters::opposite_ascii_case;
use aho_table::alphabet::ByteClassSet;

/// Sets borders around the byte, and around its other case where case is ignored.
fn set_byte(borders: &mut ByteClassSet, ignore_case: bool, byte: u8)
    ensures borders { (at : ℕ) → at < 255 → is_border borders.new at
        ≡ (is_border borders.old at || is_parted_by ignore_case (byte ∷ []) at) }
{
    borders.set_range(byte, byte);
    if ignore_case {
        let other = opposite_ascii_case(byte);
        borders.set_range(other, other);
    }
}

/// Sets borders around each byte of the word, and around its other case where case is ignored.
pub fn set_bytes(borders: &mut ByteClassSet, ignore_case: bool, word: &[u8])
    ensures borders { (at : ℕ) → at < 255 → is_border borders.new at
        ≡ (is_border borders.old at || is_parted_by ignore_case word.now at) }
{
    for byte in word {
        set_byte(borders, ignore_case, *byte);
    }
}
