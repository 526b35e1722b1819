//! What looks at names, and lists folders.

ghost use Rattle.std.specs.Prelude.{◌≡◌, ◌<◌, ℕ, Bool, List, Option, None, IfErr, IfOk, IfSome, length};
ghost use Rattle.std.specs.List.Sorted.{IsPermutation};
ghost use Rattle.acgrep.specs.Listed.{listed_bytes};
ghost use Rattle.acgrep.specs.declared.folders.Kind.{Kind};

use crate::open::{Identity, System};
use std::alloc::{AllocError, Global};
use std::fs::{FileType, Files};
use std::io::{ErrorKind, Read};
use std::os::unix::fs::MetadataExt;
use std::{fs, io};

/// How many bytes of names are read from a folder at once.
const ROOM_LEN: usize = 32 * 1024;

/// What a name stands for.
#[derive(Clone, Copy, PartialEq, Eq)]
pub enum Kind {
    /// A file.
    File,
    /// A folder.
    Folder,
    /// A symbolic link.
    Link,
    /// A device, a socket or a FIFO.
    Device,
}

/// What looks at names, and lists folders.
pub trait Folders {
    /// What a name stands for, where it is known, and where links are followed or not.
    ghost kinds: { Self → Bool → List ℕ → Option Kind } = { λ files follow name. None };

    /// The names in the folder of this name, where they are known.
    ghost lists: { Self → List ℕ → Option (List (List ℕ)) } = { λ files name. None };

    /// What this name stands for. Where `follow` is not set it may be a link.
    fn look(&self, name: &str, follow: bool) -> io::Result<Kind>
        ensures told { IfOk result (λ kind.
            IfSome (kinds self.now follow name.now) (λ known. kind ≡ known)) }
        // What is known can be looked at.
        ensures lost { IfErr result (λ error. kinds self.now follow name.now ≡ None) };

    /// What tells the folder of this name from all others, where links are followed.
    fn identity(&self, name: &str) -> io::Result<Identity>;

    /// The names in the folder of this name, in any order, but for `.` and `..`.
    fn list(&self, alloc: Global, name: &str) -> io::Result<Vec<Vec<u8>>>
        ensures told { IfOk result (λ names.
            IfSome (lists self.now name.now) (λ known. IsPermutation known (listed_bytes names.items))) };
}

impl<'a, R: Files> Folders for System<'a, R> {
    fn look(&self, name: &str, follow: bool) -> io::Result<Kind> {
        let found = if follow {
            fs::metadata(self.rt, name)?
        } else {
            fs::symlink_metadata(self.rt, name)?
        };
        Ok(kind_of(found.file_type()))
    }

    fn identity(&self, name: &str) -> io::Result<Identity> {
        let found = fs::metadata(self.rt, name)?;
        Ok(Identity {
            device: found.dev(),
            number: found.ino(),
        })
    }

    fn list(&self, alloc: Global, name: &str) -> io::Result<Vec<Vec<u8>>> {
        // With a slash a link to a folder is followed.
        let mut path = String::from_str(alloc, name)?;
        path.push('/')?;
        let mut folder = self.rt.open_dir(path.as_str())?;
        let mut room = Vec::from_elem(alloc, 0, ROOM_LEN)?;
        let text = read_names(alloc, &mut folder, room.as_mut_slice())?;
        Ok(names_in(alloc, text.as_slice())?)
    }
}

/// All that an open folder gives: names, each with a zero byte behind it. Each read is offered the whole room, since the system refuses one
/// that the next name does not fit.
#[tactic(auto, using(crate::proofs::FolderTexts::text_begun))]
fn read_names<R: Read>(alloc: Global, folder: &mut R, room: &mut [u8]) -> io::Result<Vec<u8>>
    requires room { 0 < length room.old }
    ensures whole { IfOk result (λ text. IfSome (R.remaining folder.old) (λ known. text.items ≡ known)) }
{
    let mut text = Vec::new(alloc);
    for _ in 0..u64::MAX {
        let count = folder.read(room)?;
        if count == 0 {
            return Ok(text);
        }
        text.extend_from_slice(&room[..count])?;
    }
    Err(io::Error::from(ErrorKind::OutOfMemory))
}

/// What a file of the system is.
fn kind_of(found: FileType) -> Kind {
    if found.is_dir() {
        Kind::Folder
    } else if found.is_symlink() {
        Kind::Link
    } else if found.is_file() {
        Kind::File
    } else {
        Kind::Device
    }
}

/// The names of a text in which each ends with a zero byte, but for `.` and `..`.
fn names_in(alloc: Global, text: &[u8]) -> Result<Vec<Vec<u8>>, AllocError> {
    let mut names = Vec::new(alloc);
    for name in text.split(|byte| *byte == 0) {
        if !matches!(name, b"" | b"." | b"..") {
            names.push(Vec::from_slice(alloc, name)?)?;
        }
    }
    Ok(names)
}
