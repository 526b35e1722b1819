//! A file that is overwritten with the bytes of another one. It keeps its owner, its rights and its links.

use crate::folder::Place;
use crate::seen::known;
use std::fs;
use std::fs::{File, Files, OpenOptions};
use std::io::{Read, Write};
use tool_parts::reason::Reason;

/// How many bytes are copied at once.
const PIECE: usize = 16 * 1024;

/// A file, and the one that is overwritten with its bytes.
#[derive(Drop)]
pub struct Overwriting {
    /// What is read.
    from: File,
    /// What is overwritten.
    into: File,
}

impl Overwriting {
    /// Opens both. Each name has to lead to the file that is at its place.
    pub fn new<R: Files<File = File>>(
        rt: &R,
        from: (&str, Place),
        into: (&str, Place),
    ) -> Result<Overwriting, Reason> {
        let source = known(fs::open(rt, from.0))?;
        let target = known(OpenOptions::new().write(true).open(rt, into.0))?;
        if !is_at(&source, from.1)? || !is_at(&target, into.1)? {
            return Err(Reason::Changed);
        }
        Ok(Overwriting {
            from: source,
            into: target,
        })
    }

    /// Copies all bytes, has the system write them down, and leaves none behind them.
    pub fn copy(self) -> Result<(), Reason> {
        let Overwriting { mut from, mut into } = self;
        let mut room = [0; PIECE];
        let mut length: u64 = 0;
        for _ in 0..u64::MAX {
            let read = known(from.read(&mut room))?;
            if read == 0 {
                break;
            }
            known(into.write_all(&room[..read]))?;
            length = length.saturating_add(read as u64);
        }
        known(into.set_len(length))?;
        known(into.sync_all())
    }
}

/// Whether a file is at this place.
fn is_at(file: &File, place: Place) -> Result<bool, Reason> {
    Ok(Place::of(&known(file.metadata())?) == place)
}
