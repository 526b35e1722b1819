//! Where files are opened, and what the environment holds: that of the process.

ghost use Rattle.std.specs.Prelude.{ℕ, Bool, List, Option, None, IfErr, IfOk, ⊤};
ghost use Rattle.std.specs.Io.KnownBytes.{Keeps};
ghost use Rattle.tool_parts.specs.declared.reason.Reason.{Reason};
ghost use Rattle.acredact.specs.Reads.{bytes_of_names};

use crate::environment::environment;
use std::alloc::{AllocError, Global};
use std::cell::Cell;
use std::env::Env;
use std::fs;
use std::fs::{Metadata, OpenFile};
use std::io::Read;
use std::os::unix::fs::MetadataExt;
use std::rt::Files;
use tool_parts::reason::Reason;

/// What opens files by their names, and tells the environment.
pub trait Folder {
    /// An opened file.
    type File: Read + Drop;

    /// The bytes of the file of this name, where the folder tells them.
    ghost holds: { Self → List ℕ → Option (List ℕ) };

    /// Why the file of this name may not be opened.
    ghost refuses: { Self → List ℕ → Reason → Type 0 };

    /// What may be answered of the file of this name: whether standard output goes to it.
    ghost meets: { Self → List ℕ → Bool → Type 0 };

    /// What may be the entries of the environment.
    ghost environment: { Self → List (List ℕ) → Type 0 };

    /// Opens the file of this name to be read.
    fn open(&self, name: &str) -> Result<Self::File, Reason>
        ensures told { IfOk result (λ file.
            Keeps (holds self.now name.now) (Self.File.remaining file)) }
        ensures refused { IfErr result (refuses self.now name.now) };

    /// Whether standard output goes to the file of this name, or to what standard input is, where the name is `-`.
    fn is_output(&self, name: &str) -> bool
        ensures { meets self.now name.now result };

    /// The entries of the environment, each `NAME=value`.
    ///
    /// # Errors
    ///
    /// Where memory runs out.
    fn entries(&self, alloc: Global) -> Result<Vec<Vec<u8>>, AllocError>
        ensures of { IfOk result (λ entries. environment self.now (bytes_of_names entries.items)) };
}

/// A regular file of the system, by its device and its number there.
#[derive(Clone, Copy, PartialEq, Eq)]
pub struct Place {
    device: u64,
    number: u64,
}

impl Place {
    /// The place of the file of which this is told.
    pub fn of(metadata: &Metadata) -> Place {
        Place {
            device: metadata.dev(),
            number: metadata.ino(),
        }
    }
}

/// The files of the process.
#[derive(Clone, Copy)]
pub struct Host<'c, 'n, 'r, R> {
    /// Its runtime.
    rt: &'r R,
    /// The regular file that standard output goes to, if it goes to one.
    output: Option<Place>,
    /// Which file is to be replaced, once that is noted.
    looked: &'c Cell<Option<Place>>,
    /// The only name that it has, where each other one leads to another file.
    replaced: Option<&'n str>,
}

impl<'c, 'n, 'r, R: Files> Host<'c, 'n, 'r, R> {
    /// The files of this process, and where its standard output goes. What is noted as to be replaced is all that is opened then, by the
    /// name for that, if one is given.
    pub fn new(
        rt: &'r R,
        looked: &'c Cell<Option<Place>>,
        replaced: Option<&'n str>,
    ) -> Host<'c, 'n, 'r, R> {
        Host {
            rt,
            output: place_of(rt, "/dev/stdout"),
            looked,
            replaced,
        }
    }

    /// Where the file of this name has to be, if that is noted.
    fn place_noted(&self, name: &str) -> Option<Place> {
        match self.replaced {
            Some(replaced) if replaced != name => None,
            _ => self.looked.get(),
        }
    }
}

/// The regular file that a name leads to, if it does.
pub fn place_of<R: Files>(rt: &R, name: &str) -> Option<Place> {
    match fs::metadata(rt, name) {
        Ok(metadata) if metadata.is_file() => Some(Place::of(&metadata)),
        _ => None,
    }
}

impl<R: Files + Env> Folder for Host<'_, '_, '_, R> {
    type File = R::File;

    // What the process can read is told by nothing, and neither is what it cannot.
    ghost holds = { λ folder name. None };

    ghost refuses = { λ folder name reason. ⊤ };

    ghost meets = { λ folder name answer. ⊤ };

    ghost environment = { λ folder entries. ⊤ };

    fn open(&self, name: &str) -> Result<R::File, Reason> {
        let file = match fs::open(self.rt, name) {
            Ok(file) => file,
            Err(error) => return Err(Reason::of(&error)),
        };
        // A directory can be opened, and only reading it would fail.
        match file.metadata() {
            Ok(metadata) if metadata.is_dir() => Err(Reason::Directory),
            Ok(metadata) => match self.place_noted(name) {
                Some(place) if place != Place::of(&metadata) => Err(Reason::Changed),
                _ => Ok(file),
            },
            Err(error) => Err(Reason::of(&error)),
        }
    }

    fn is_output(&self, name: &str) -> bool {
        let name = if name == "-" { "/dev/stdin" } else { name };
        match self.output {
            Some(output) => place_of(self.rt, name) == Some(output),
            None => false,
        }
    }

    fn entries(&self, alloc: Global) -> Result<Vec<Vec<u8>>, AllocError> {
        environment(self.rt, alloc)
    }
}
