//! What a call of the program reads and writes besides files.

use chromesquid::{FromRead, FromWrite};
use std::io::Read;
use tool_parts::errors::Errors;

/// The streams of a call.
#[derive(Drop)]
pub struct Streams<'c, I: Read, W, E> {
    /// Standard input.
    pub input: FromRead<I>,
    /// Standard output.
    pub output: FromWrite<W>,
    /// Standard error.
    pub errors: Errors<'c, E>,
}
