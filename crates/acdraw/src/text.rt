//! Text of the dot language in memory.

ghost use Rattle.std.specs.Prelude.{◌≡◌, ◌++◌, OnOk};

use itoa::write_digits;
use std::alloc::{AllocError, Global};

/// Text that grows at its end.
#[derive(Drop)]
pub struct DotText {
    bytes: Vec<u8>,
}

impl DotText {
    /// No text.
    pub fn new(alloc: Global) -> DotText {
        DotText {
            bytes: Vec::new(alloc),
        }
    }

    /// Puts these characters at the end.
    pub fn put(&mut self, text: &str) -> Result<(), AllocError>
        ensures put { OnOk result (self.new.bytes.items ≡ self.old.bytes.items ++ text.now) }
    {
        self.bytes.extend_from_slice(text.as_bytes())?;
        Ok(())
    }

    /// Puts a number at the end.
    pub fn put_number(&mut self, number: usize) -> Result<(), AllocError> {
        let mut digits = [0; 20];
        let start = write_digits(number as u64, &mut digits, 20);
        self.bytes.extend_from_slice(&digits[start..])?;
        Ok(())
    }

    /// Puts a byte at the end as a label shows it: a backslash as two, any other that prints as itself, and else `\xNN`.
    pub fn put_byte(&mut self, byte: u8) -> Result<(), AllocError> {
        match byte {
            b'\\' => self.put("\\\\\\\\"),
            b'"' => self.put("\\\""),
            b' '..=b'~' => Ok(self.bytes.push(byte)?),
            _ => self.put_code(byte),
        }
    }

    /// Puts a byte at the end as `\xNN`.
    fn put_code(&mut self, byte: u8) -> Result<(), AllocError> {
        let digits = b"0123456789abcdef";
        let (high, low) = (byte / 16, byte % 16);
        self.put("\\\\x")?;
        self.bytes.push(digits[high as usize])?;
        self.bytes.push(digits[low as usize])?;
        Ok(())
    }

    /// Puts a word at the end, as a label shows its bytes.
    pub fn put_word(&mut self, word: &[u8]) -> Result<(), AllocError> {
        for byte in word {
            self.put_byte(*byte)?;
        }
        Ok(())
    }

    /// All of it.
    pub fn into_bytes(self) -> Vec<u8>
        ensures bytes { result.items ≡ self.bytes.items }
    {
        self.bytes
    }
}
