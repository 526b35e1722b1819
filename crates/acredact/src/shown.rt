//! Names that are put at the end of a text: each control character as `\x` and two hexadecimal digits.

ghost use Rattle.std.specs.Prelude.{OnOk};
ghost use Rattle.rule_files.specs.Messages.{as_shown, digits_in};
ghost use Rattle.acredact.specs.Counts.{PutsText};

use rule_files::{digit_of, is_control};
use std::alloc::AllocError;

/// Puts a name at the end of a text.
pub fn put_shown(text: &mut Vec<u8>, name: &[u8]) -> Result<(), AllocError>
    ensures put { OnOk result (PutsText text.old text.new (as_shown name.now)) }
{
    for byte in name {
        if is_control(*byte) {
            text.extend_from_slice(b"\\x")?;
            put_digits(text, *byte)?;
        } else {
            text.push(*byte)?;
        }
    }
    Ok(())
}

/// Puts a byte by its two hexadecimal digits.
pub fn put_digits(text: &mut Vec<u8>, byte: u8) -> Result<(), AllocError>
    ensures put { OnOk result (PutsText text.old text.new (digits_in byte)) }
{
    text.push(digit_of(byte / 16))?;
    text.push(digit_of(byte % 16))?;
    Ok(())
}
