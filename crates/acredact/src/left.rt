//! What runs left that were ended from outside: new files that took no place.

use crate::held::lock;
use crate::seen::place_at;
use std::alloc::{AllocError, Global};
use std::fs::{File, Files};
use std::io::{ErrorKind, Read};
use std::{fs, io};

/// What stands behind the name of a file in the name of the new one, before two numbers. It is long, so that nobody gives a file such a
/// name by chance: what looks like it is removed.
const MARK: &str = ".acredact-unfinished-";

/// What stands there in the name of a complete new file, while its bytes are written into the old one. No call removes what is called so.
const COMPLETE: &str = ".acredact-complete-";

/// How many bytes of names are read of a folder at once. A name has 255 at most.
const ROOM: usize = 8192;

/// A name for a new file beside the one of this name: with the number of the process, and one of several.
pub fn name_beside(
    alloc: Global,
    name: &str,
    process: u32,
    number: usize,
) -> Result<String, AllocError> {
    format!(in alloc; "{name}{MARK}{process}-{number}")
}

/// The name that a new file has while the one of this name is overwritten with its bytes.
pub fn complete_name(alloc: Global, name: &str, process: u32) -> Result<String, AllocError> {
    format!(in alloc; "{name}{COMPLETE}{process}")
}

/// The name of the folder of a file, with which a path of a file in it begins.
pub fn folder_of(name: &str) -> &str {
    match name.rfind('/') {
        Some(last) => &name[..=last],
        None => "./",
    }
}

/// Removes the new files in this folder that were left by processes that ended. What cannot be looked at or removed stays.
pub fn remove_left<R: Files<File = File>>(alloc: Global, rt: &R, folder: &str, process: u32) {
    // Where the system does not tell its processes, all of them seem to have ended.
    if fs::symlink_metadata(rt, "/proc/self").is_err() {
        return;
    }
    if let Ok(mut names) = rt.open_dir(folder) {
        let _done = remove_listed(alloc, rt, folder, process, &mut names);
    }
}

/// Removes those among these names, each of which ends with a zero byte.
fn remove_listed<R: Files<File = File>>(
    alloc: Global,
    rt: &R,
    folder: &str,
    process: u32,
    names: &mut R::Dir,
) -> io::Result<()> {
    let mut room = [0; ROOM];
    for _ in 0..u64::MAX {
        let read = names.read(&mut room)?;
        if read == 0 {
            break;
        }
        for name in room[..read].split(|byte| *byte == 0) {
            remove_one(alloc, rt, folder, process, name)?;
        }
    }
    Ok(())
}

/// Removes the file of this name, if it was left by a process that ended.
fn remove_one<R: Files<File = File>>(
    alloc: Global,
    rt: &R,
    folder: &str,
    process: u32,
    name: &[u8],
) -> Result<(), AllocError> {
    let Ok(name) = str::from_utf8(name) else {
        return Ok(());
    };
    let Some(maker) = maker_of(name) else {
        return Ok(());
    };
    let path = format!(in alloc; "{folder}{name}")?;
    if has_ended(alloc, rt, maker, process)? && is_free(rt, path.as_str()) {
        let _removed = fs::remove_file(rt, path.as_str());
    }
    Ok(())
}

/// The number of the process that made the new file of this name, as its digits; none where it is not the name of such a file.
fn maker_of(name: &str) -> Option<&str> {
    let (_, numbers) = name.rsplit_once(MARK)?;
    let (maker, number) = numbers.split_once('-')?;
    if is_number(maker) && is_number(number) {
        Some(maker)
    } else {
        None
    }
}

/// Whether a text is some digits.
fn is_number(text: &str) -> bool {
    !text.is_empty() && text.bytes().all(|byte| byte.is_ascii_digit())
}

/// Whether there is no process of this number besides this one.
fn has_ended<R: Files>(
    alloc: Global,
    rt: &R,
    maker: &str,
    process: u32,
) -> Result<bool, AllocError> {
    let own = format!(in alloc; "{process}")?;
    if maker == own.as_str() {
        return Ok(true);
    }
    let path = format!(in alloc; "/proc/{maker}")?;
    match fs::symlink_metadata(rt, path.as_str()) {
        Ok(_) => Ok(false),
        Err(error) => Ok(error.kind() == ErrorKind::NotFound),
    }
}

/// Whether a file is a regular one that no program holds. One that is still written is locked, also where its process is not seen from
/// here.
fn is_free<R: Files<File = File>>(rt: &R, path: &str) -> bool {
    if !matches!(place_at(rt, path), Ok(Some(_))) {
        return false;
    }
    match fs::open(rt, path) {
        Ok(file) => lock(&file).is_ok(),
        Err(_) => false,
    }
}
