//! What opens the files that a call names.

ghost use Rattle.std.specs.Prelude.{◌≡◌, ℕ, List, Option, None, IfOk};
ghost use Rattle.std.specs.Io.KnownBytes.{Keeps};
ghost use Rattle.tool_parts.specs.Names.{is_input};

use crate::failure::Obstacle;
use std::fs::Files;
use std::io::Read;
use std::os::unix::fs::MetadataExt;
use std::{fs, io};
use tool_parts::reason::Reason;

/// The name of standard input among the arguments.
const INPUT: &[u8] = b"-";

/// What opens files.
pub trait Open {
    /// A file that is open.
    type File: Read + Drop;

    /// The bytes of the file of this name, where they are known.
    ghost holds: { Self → List ℕ → Option (List ℕ) } = { λ files name. None };

    /// Opens the file of this name for reading.
    fn open(&self, name: &str) -> io::Result<Self::File>
        ensures told { IfOk result (λ file.
            Keeps (holds self.now name.now) (Self.File.remaining file)) };

    /// Whether the output goes to the file of this name, as far as that can be told.
    fn is_output(&self, name: &str) -> bool;

    /// Why standard input cannot be read at all, if it cannot.
    fn unusable_input(&self) -> Option<Obstacle>;
}

/// Whether this is the name of standard input.
pub fn is_input(name: &[u8]) -> bool
    ensures { result ≡ is_input name.now }
{
    name == INPUT
}

/// What tells a file from all others: the number of its device, and its own there.
#[derive(Clone, Copy, PartialEq, Eq)]
pub struct Identity {
    /// That of its device.
    pub device: u64,
    /// Its own.
    pub number: u64,
}

/// The files of the system. What they hold is known to nobody.
#[derive(Drop)]
pub struct System<'a, R> {
    /// What they are opened by.
    pub rt: &'a R,
    /// The file to which the output goes, if it is one.
    output: Option<Identity>,
    /// Why standard input cannot be read, if it cannot.
    unusable: Option<Obstacle>,
}

impl<'a, R: Files> System<'a, R> {
    /// Those of this runtime, with its standard input. A read of no bytes tells whether that can be read.
    pub fn new<I: Read>(rt: &'a R, input: &mut I) -> System<'a, R> {
        System {
            rt,
            output: file_named(rt, "/dev/stdout"),
            unusable: unusable_of(input),
        }
    }
}

/// Why it cannot be read at all, if it cannot.
fn unusable_of<I: Read>(input: &mut I) -> Option<Obstacle> {
    match input.read(&mut []) {
        Ok(_) => None,
        Err(error) => Some(Obstacle::Fault(Reason::of(&error))),
    }
}

/// What tells the file of this name from all others. A folder or a device is none.
fn file_named<R: Files>(rt: &R, name: &str) -> Option<Identity> {
    match fs::metadata(rt, name) {
        Ok(found) if found.file_type().is_file() => Some(Identity {
            device: found.dev(),
            number: found.ino(),
        }),
        _ => None,
    }
}

impl<'a, R: Files> Open for System<'a, R> {
    type File = R::File;

    fn open(&self, name: &str) -> io::Result<R::File> {
        fs::File::open(self.rt, name)
    }

    fn is_output(&self, name: &str) -> bool {
        match self.output {
            Some(output) => file_named(self.rt, name) == Some(output),
            None => false,
        }
    }

    fn unusable_input(&self) -> Option<Obstacle> {
        self.unusable
    }
}
