//! A file that is to be replaced: it is opened and locked until that is done.

use crate::seen::{Seen, known, place_at, stays_at};
use std::fs;
use std::fs::{File, Files, TryLockError};
use tool_parts::reason::Reason;

/// A file that is to be replaced.
#[derive(Drop)]
pub struct Held {
    /// It was opened, and has a lock.
    file: File,
    /// What was looked at of it then.
    pub seen: Seen,
}

impl Held {
    /// Opens and locks the file of this name, if there is one. It has to be the one that has the name still when it is locked.
    pub fn new<R: Files<File = File>>(rt: &R, name: &str) -> Result<Option<Held>, Reason> {
        if place_at(rt, name)?.is_none() {
            return Ok(None);
        }
        let file = known(fs::open(rt, name))?;
        lock(&file)?;
        let seen = Seen::of(&known(file.metadata())?);
        stays_at(rt, name, Some(seen.place))?;
        Ok(Some(Held { file, seen }))
    }

    /// Refuses a file that was written or changed since, and a name that another file has now.
    pub fn stays<R: Files>(&self, rt: &R, name: &str) -> Result<(), Reason> {
        let seen = Seen::of(&known(self.file.metadata())?);
        if seen != self.seen {
            return Err(Reason::Changed);
        }
        stays_at(rt, name, Some(seen.place))
    }
}

/// Locks a file. It is not waited for another program that does.
pub fn lock(file: &File) -> Result<(), Reason> {
    match file.try_lock() {
        Ok(()) => Ok(()),
        Err(TryLockError::WouldBlock) => Err(Reason::Locked),
        Err(TryLockError::Error(_)) => Err(Reason::NoLock),
    }
}
