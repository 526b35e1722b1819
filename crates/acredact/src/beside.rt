//! New files of the process, each in the folder of the one whose place it is to take.

ghost use Rattle.std.specs.Prelude.{◌≡◌, None, OnOk, is_some, true, ⊤};

use crate::folder::Place;
use crate::held::{Held, lock};
use crate::left::{complete_name, folder_of, name_beside, remove_left};
use crate::options::Rights;
use crate::outputs::Outputs;
use crate::overwriting::Overwriting;
use crate::seen::{Seen, known, place_at, stays_at};
use chromesquid::FromWrite;
use std::alloc::{AllocError, Global};
use std::cell::Cell;
use std::fs::{File, Files, OpenOptions, Permissions};
use std::io::{BufWriter, ErrorKind, Write};
use std::os::unix::fs::{OpenOptionsExt, PermissionsExt, fchown};
use std::{fs, io};
use tool_parts::closed::Noted;
use tool_parts::reason::Reason;

/// How many bytes of a new file are kept before they are written.
const FILE_CAPACITY: usize = 64 * 1024;

/// How many names are tried for a new file.
const MOST_NAMES: usize = 100;

/// Until a new file takes the place of another one, its owner alone may read and write it.
const PRIVATE: u32 = 0o600;

/// What the system lets of these is given to a new file that takes no other one's place.
const USUAL: u32 = 0o666;

/// A file that is written, if there is one.
#[derive(Drop)]
pub struct Slot<W> {
    file: Option<W>,
}

impl<W: Write> Write for Slot<W> {
    // What the process did to files is told by nothing.
    ghost contents = { λ slot. None };

    fn write(&mut self, buf: &[u8]) -> io::Result<usize> {
        match &mut self.file {
            Some(file) => file.write(buf),
            None => Err(io::Error::from(ErrorKind::BrokenPipe)),
        }
    }

    fn flush(&mut self) -> io::Result<()> {
        match &mut self.file {
            Some(file) => file.flush(),
            None => Ok(()),
        }
    }
}

/// A new file.
#[derive(Drop)]
struct Made {
    /// Its name.
    name: String,
    /// Another handle of it.
    file: File,
    /// What was looked at of it when it was made.
    seen: Seen,
}

/// What has to be told of a file.
#[derive(Drop)]
pub enum Notice {
    /// The new file of this name did not get all permissions of its group.
    Narrowed(String),
    /// The file of this name is complete, and another one was overwritten with its bytes only in part.
    Complete(String),
}

/// New files of the process, each in the folder of the one whose place it is to take.
#[derive(Drop)]
pub struct Beside<'c, 'l, 'r, R> {
    /// What memory is taken from.
    alloc: Global,
    /// The runtime of the process.
    rt: &'r R,
    /// The number of the process.
    process: u32,
    /// Which rights a new file gets.
    rights: Rights,
    /// What has to be told.
    notices: Vec<Notice>,
    /// Where it is noted why a file cannot be written.
    reason: &'c Cell<Option<Reason>>,
    /// Where it is noted which file is to be replaced.
    looked: &'l Cell<Option<Place>>,
    /// The folder from which what others left was removed.
    cleared: Option<String>,
    /// The file that is to be replaced, where there is one.
    held: Option<Held>,
    /// The new file, where there is one.
    made: Option<Made>,
}

impl<'c, 'l, 'r, R: Files<File = File>> Beside<'c, 'l, 'r, R> {
    /// No file is made yet.
    pub fn new(
        alloc: Global,
        rt: &'r R,
        process: u32,
        rights: Rights,
        reason: &'c Cell<Option<Reason>>,
        looked: &'l Cell<Option<Place>>,
    ) -> Beside<'c, 'l, 'r, R>
        ensures process { result.process ≡ process }
        ensures uncleared { result.cleared ≡ None }
        ensures unheld { result.held ≡ None }
        ensures unmade { result.made ≡ None }
    {
        Beside {
            alloc,
            rt,
            process,
            rights,
            notices: Vec::new(alloc),
            reason,
            looked,
            cleared: None,
            held: None,
            made: None,
        }
    }

    /// Takes the file of this name, if there is one, and makes a new one beside it.
    fn begin(&mut self, name: &str) -> Result<BufWriter<Noted<'c, File>>, Reason>
        ensures made { OnOk result (is_some self.new.made ≡ true) }
    {
        self.held = Held::new(self.rt, name)?;
        self.looked
            .set(self.held.as_ref().map(|held| held.seen.place));
        if self.clear(name).is_err() {
            return Err(Reason::OutOfMemory);
        }
        let file = self.create(name)?;
        match BufWriter::with_capacity(self.alloc, FILE_CAPACITY, Noted::new(file, self.reason)) {
            Ok(file) => Ok(file),
            Err(_) => Err(Reason::OutOfMemory),
        }
    }

    /// Removes what others left in the folder of this file, unless that was done for the file before.
    fn clear(&mut self, name: &str) -> Result<(), AllocError>
        ensures held { self.new.held ≡ self.old.held }
        ensures made { self.new.made ≡ self.old.made }
    {
        let folder = folder_of(name);
        if let Some(cleared) = &self.cleared {
            if cleared.as_str() == folder {
                return Ok(());
            }
        }
        self.cleared = Some(String::from_str(self.alloc, folder)?);
        remove_left(self.alloc, self.rt, folder, self.process);
        Ok(())
    }

    /// Makes a file of the first name that no file has.
    fn create(&mut self, name: &str) -> Result<File, Reason>
        ensures made { OnOk result (is_some self.new.made ≡ true) }
    {
        let mode = if self.held.is_some() { PRIVATE } else { USUAL };
        for number in 0..MOST_NAMES {
            let Ok(beside) = name_beside(self.alloc, name, self.process, number) else {
                return Err(Reason::OutOfMemory);
            };
            let mut options = OpenOptions::new();
            options.write(true).create_new(true).mode(mode);
            match options.open(self.rt, beside.as_str()) {
                Ok(file) => return self.keep(file, beside),
                Err(error) => {
                    if error.kind() != ErrorKind::AlreadyExists {
                        return Err(Reason::of(&error));
                    }
                }
            }
        }
        Err(Reason::Unavailable)
    }

    /// Keeps a handle of the new file, which is locked where the system gives locks.
    fn keep(&mut self, file: File, name: String) -> Result<File, Reason>
        ensures made { OnOk result (is_some self.new.made ≡ true) }
        ensures held { self.new.held ≡ self.old.held }
    {
        let _locked = lock(&file);
        match other_handle(&file) {
            Ok((other, seen)) => {
                self.made = Some(Made {
                    name,
                    file: other,
                    seen,
                });
                Ok(file)
            }
            Err(reason) => {
                let _removed = fs::remove_file(self.rt, name.as_str());
                Err(reason)
            }
        }
    }

    /// What has to be told of files.
    pub fn notices(&self) -> &[Notice] {
        self.notices.as_slice()
    }

    /// That the new file of this name does not get all permissions of its group, where it does not. There is room for it then.
    fn narrowed(&mut self, name: &str) -> Result<Option<Notice>, AllocError> {
        let narrowed = match &self.held {
            Some(held) => permissions_by(self.rights, &held.seen) != held.seen.permissions(),
            None => false,
        };
        if !narrowed {
            return Ok(None);
        }
        self.notices.reserve(1)?;
        Ok(Some(Notice::Narrowed(String::from_str(self.alloc, name)?)))
    }

    /// Overwrites the file of this name with the bytes of the new one, and removes that. Where the file is overwritten only in part, the new
    /// one stays.
    fn overwrite(&mut self, made: &Made, name: &str) -> Result<(), Reason> {
        known(made.file.sync_all())?;
        let Some(held) = &self.held else {
            return Err(Reason::NotFound);
        };
        held.stays(self.rt, name)?;
        let place = made.seen.place;
        let new = made.name.as_str();
        stays_at(self.rt, new, Some(place))?;
        let over = Overwriting::new(self.rt, (new, place), (name, held.seen.place))?;
        let Ok(complete) = complete_name(self.alloc, name, self.process) else {
            return Err(Reason::OutOfMemory);
        };
        if place_at(self.rt, complete.as_str())?.is_some() {
            return Err(Reason::Exists);
        }
        if self.notices.reserve(1).is_err() {
            return Err(Reason::OutOfMemory);
        }
        known(fs::rename(self.rt, new, complete.as_str()))?;
        self.sync_folder(name);
        match over.copy() {
            Ok(()) => {
                let _removed = fs::remove_file(self.rt, complete.as_str());
                Ok(())
            }
            Err(reason) => {
                let _noted = self.notices.push(Notice::Complete(complete));
                Err(reason)
            }
        }
    }

    /// Has the new file, or its bytes, take the place of the one of this name.
    fn place(&mut self, made: &Made, name: &str) -> Result<(), Reason> {
        if self.held.is_some() && self.rights == Rights::Every {
            return self.overwrite(made, name);
        }
        let Ok(notice) = self.narrowed(name) else {
            return Err(Reason::OutOfMemory);
        };
        self.replace(made, name)?;
        if let Some(notice) = notice {
            let _noted = self.notices.push(notice);
        }
        Ok(())
    }

    /// Has the new file take the place of the one of this name.
    fn replace(&self, made: &Made, name: &str) -> Result<(), Reason> {
        if let Some(held) = &self.held {
            give(&made.file, &made.seen, &held.seen, self.rights)?;
        }
        known(made.file.sync_all())?;
        match &self.held {
            Some(held) => held.stays(self.rt, name)?,
            None => stays_at(self.rt, name, None)?,
        }
        stays_at(self.rt, made.name.as_str(), Some(made.seen.place))?;
        known(fs::rename(self.rt, made.name.as_str(), name))?;
        // It is written still by a handle that is not closed yet.
        let _unlocked = made.file.unlock();
        Ok(())
    }

    /// Has the system write down which file has the name, where it lets that be done.
    fn sync_folder(&self, name: &str) {
        if let Ok(folder) = fs::open(self.rt, folder_of(name)) {
            let _synced = folder.sync_all();
        }
    }

    /// Removes the new file, if there is one, and lets go of the other. Where the system does not remove it, it stays.
    fn end(&mut self)
        ensures unmade { self.new.made ≡ None }
        ensures unheld { self.new.held ≡ None }
    {
        if let Some(made) = self.made.take() {
            let _removed = fs::remove_file(self.rt, made.name.as_str());
        }
        self.looked.set(None);
        self.held = None;
    }
}

/// Another handle of a file, and what is looked at of it.
fn other_handle(file: &File) -> Result<(File, Seen), Reason> {
    let other = known(file.try_clone())?;
    let seen = Seen::of(&known(file.metadata())?);
    Ok((other, seen))
}

/// Which permissions a new file gets that replaces another one.
fn permissions_by(rights: Rights, old: &Seen) -> u32 {
    match rights {
        Rights::Shared => old.shared_permissions(),
        Rights::Mode | Rights::Every => old.permissions(),
    }
}

/// Gives a new file the owner and the group of another one, and then its permissions.
fn give(file: &File, made: &Seen, old: &Seen, rights: Rights) -> Result<(), Reason> {
    if made.owner != old.owner || made.group != old.group {
        if fchown(file, Some(old.owner), Some(old.group)).is_err() {
            return Err(Reason::Owner);
        }
    }
    let permissions = permissions_by(rights, old);
    known(file.set_permissions(Permissions::from_mode(permissions)))
}

impl<'c, R: Files<File = File>> Outputs for Beside<'c, '_, '_, R> {
    type File = Slot<BufWriter<Noted<'c, File>>>;

    // What the process did to files is told by nothing.
    ghost makes = { λ before after name held. ⊤ };

    ghost makes_none = { λ before after name reason. ⊤ };

    ghost puts = { λ before after name held. ⊤ };

    ghost puts_none = { λ before after name reason. ⊤ };

    ghost removes = { λ before after name. ⊤ };

    fn idle(&self) -> Slot<BufWriter<Noted<'c, File>>> {
        Slot { file: None }
    }

    fn make(&mut self, name: &str) -> Result<Slot<BufWriter<Noted<'c, File>>>, Reason> {
        match self.begin(name) {
            Ok(file) => Ok(Slot { file: Some(file) }),
            Err(reason) => {
                self.end();
                Err(reason)
            }
        }
    }

    fn put(
        &mut self,
        name: &str,
        _file: &FromWrite<Slot<BufWriter<Noted<'c, File>>>>,
    ) -> Result<(), Reason> {
        let Some(made) = self.made.take() else {
            return Err(Reason::NotFound);
        };
        match self.place(&made, name) {
            Ok(()) => {
                self.sync_folder(name);
                self.end();
                Ok(())
            }
            Err(reason) => {
                self.made = Some(made);
                Err(reason)
            }
        }
    }

    fn unwritten(&self) -> Reason {
        match self.reason.get() {
            Some(reason) => reason,
            None => Reason::Fault,
        }
    }

    fn remove(&mut self, _name: &str) {
        self.end();
    }
}
