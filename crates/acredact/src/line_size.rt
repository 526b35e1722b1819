//! How many bytes a line may have.

ghost use Rattle.std.specs.Prelude.{◌≡◌};
ghost use Rattle.acredact.specs.Arguments.{all_given};
ghost use Rattle.acredact.specs.LineRules.{most_asked};
ghost use Rattle.acredact.specs.LineSizes.{size_in, with_digit};

use crate::options::{Item, Word, last_value};

/// How many bytes a line may have, where nothing else is given.
const USUAL_MOST: usize = 1024 * 1024;

/// Behind a greater number no digit is read.
const LAST: usize = 1_000_000_000_000_000;

/// A number with a digit behind it.
fn with_digit(number: usize, byte: u8) -> Option<usize>
    ensures digit { result ≡ with_digit number byte }
{
    if byte < b'0' || byte > b'9' || number > LAST {
        return None;
    }
    Some(number * 10 + (byte - b'0') as usize)
}

/// A number of bytes, from 1 on.
pub fn size_of(value: &str) -> Option<usize>
    ensures size { result ≡ size_in value.now }
{
    let mut number: usize = 0;
    let digits = value.as_bytes();
    for digit in digits {
        number = with_digit(number, *digit)?;
    }
    if number == 0 {
        return None;
    }
    Some(number)
}

/// How many bytes a line may have.
pub fn most_of(items: &[Item<'_>]) -> usize
    ensures most { result ≡ most_asked (all_given items.now) }
{
    match last_value(items, Word::MaxLine) {
        Some(value) => size_of(value).unwrap_or(USUAL_MOST),
        None => USUAL_MOST,
    }
}
