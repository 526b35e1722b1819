//! The environment of the process.

use std::alloc::{AllocError, Global};
use std::env::{Env, FillError};

/// How long an entry may be at first.
const FIRST_LENGTH: usize = 4096;

/// The entries of the environment, in order.
///
/// # Errors
///
/// Where memory runs out.
pub fn environment<R: Env>(rt: &R, alloc: Global) -> Result<Vec<Vec<u8>>, AllocError> {
    let mut entries = Vec::new(alloc);
    let mut buffer = Vec::new(alloc);
    buffer.resize(FIRST_LENGTH, 0)?;
    for number in 0..usize::MAX {
        if !push_entry(rt, alloc, number, &mut buffer, &mut entries)? {
            return Ok(entries);
        }
    }
    Ok(entries)
}

/// Adds the entry of a number, and answers whether there is one. It is put into a buffer first, which grows.
fn push_entry<R: Env>(
    rt: &R,
    alloc: Global,
    number: usize,
    buffer: &mut Vec<u8>,
    entries: &mut Vec<Vec<u8>>,
) -> Result<bool, AllocError> {
    for _ in 0..u64::MAX {
        match rt.var_at(number, buffer.as_mut_slice()) {
            Ok(length) => {
                entries.push(Vec::from_slice(alloc, &buffer[..length])?)?;
                return Ok(true);
            }
            Err(FillError::NotPresent) => return Ok(false),
            Err(FillError::TooLong) => {
                let longer = buffer.len().saturating_mul(2);
                buffer.resize(longer, 0)?;
            }
        }
    }
    Ok(false)
}
