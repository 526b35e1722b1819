//! The arguments and the environment of a call, which may be any bytes.

use std::alloc::{Alloc, AllocError, Global};
use std::env::{Env, FillError};

/// How long an argument or a value of the environment may be at first.
const FIRST_LENGTH: usize = 4096;

/// The arguments after the program's name, in order.
pub fn arguments<R: Env + Alloc<A = Global>>(rt: &R) -> Result<Vec<Vec<u8>>, AllocError> {
    let mut arguments = Vec::new(rt.alloc());
    let mut buffer = Vec::new(rt.alloc());
    buffer.resize(FIRST_LENGTH, 0)?;
    for number in 1..usize::MAX {
        if !push_argument(rt, number, &mut buffer, &mut arguments)? {
            return Ok(arguments);
        }
    }
    Ok(arguments)
}

/// Adds the argument of a number, and answers whether there is one. It is put into a buffer first, which grows.
fn push_argument<R: Env + Alloc<A = Global>>(
    rt: &R,
    number: usize,
    buffer: &mut Vec<u8>,
    arguments: &mut Vec<Vec<u8>>,
) -> Result<bool, AllocError> {
    for _ in 0..u64::MAX {
        match rt.arg(number, buffer.as_mut_slice()) {
            Ok(length) => {
                arguments.push(Vec::from_slice(rt.alloc(), &buffer[..length])?)?;
                return Ok(true);
            }
            Err(FillError::NotPresent) => return Ok(false),
            Err(FillError::TooLong) => {
                let longer = buffer.len().saturating_mul(2);
                buffer.resize(longer, 0)?;
            }
        }
    }
    Ok(false)
}

/// The value of a variable of the environment: nothing where it is not set.
pub fn variable<R: Env + Alloc<A = Global>>(rt: &R, name: &str) -> Result<Vec<u8>, AllocError> {
    let mut buffer = Vec::new(rt.alloc());
    buffer.resize(FIRST_LENGTH, 0)?;
    for _ in 0..u64::MAX {
        match rt.var(name, buffer.as_mut_slice()) {
            Ok(length) => {
                buffer.truncate(length);
                return Ok(buffer);
            }
            Err(FillError::NotPresent) => return Ok(Vec::new(rt.alloc())),
            Err(FillError::TooLong) => {
                let longer = buffer.len().saturating_mul(2);
                buffer.resize(longer, 0)?;
            }
        }
    }
    Ok(buffer)
}
