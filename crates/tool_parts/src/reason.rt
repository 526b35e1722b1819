//! Why a call of the system failed, as the programs tell it.

ghost use Rattle.std.specs.Prelude.{◌≡◌};
ghost use Rattle.tool_parts.specs.Messages.{reason_text};
ghost use Rattle.tool_parts.specs.Reasons.{IsReasonOf, reason_of};

use std::io;
use std::io::ErrorKind;

/// The system's number of a call that is not permitted, whoever may open the file.
const NOT_PERMITTED: i32 = 1;

/// Its number of a file that no device or server is behind, as a socket that is opened by its name.
const NO_DEVICE: i32 = 6;

/// Its number of a stream that is closed, or open for the other direction alone.
const NO_DESCRIPTOR: i32 = 9;

/// Its number of a process that has opened as many files as it may.
const MANY_FILES: i32 = 24;

/// Why a file cannot be opened or read to its end, or the output not be written.
#[derive(Clone, Copy, PartialEq, Eq)]
pub enum Reason {
    /// There is none of this name.
    NotFound,
    /// It may not be opened.
    Denied,
    /// The system permits no such call.
    NotPermitted,
    /// No device or server is behind its name: it is a socket, say.
    NoDevice,
    /// It is a stream that is closed, or open for the other direction alone.
    NoDescriptor,
    /// The process has opened as many files as it may.
    ManyFiles,
    /// It supports no such call.
    Unsupported,
    /// It is a directory.
    Directory,
    /// It is no regular file.
    Irregular,
    /// A part of its name is no directory.
    NoDirectory,
    /// Its name leads through too many links.
    Links,
    /// Its name is too long.
    LongName,
    /// The system takes no such call.
    Invalid,
    /// Its device is full.
    Full,
    /// It would get too large.
    TooLarge,
    /// Its owner may not take more room.
    Quota,
    /// Its file system is for reading alone.
    ReadOnly,
    /// Something else uses it.
    Busy,
    /// It is a program that runs.
    Runs,
    /// The server of its file system has it no more.
    Stale,
    /// The server of its file system does not answer.
    Late,
    /// Another one has its name.
    Exists,
    /// Its new name is on another device.
    OtherDevice,
    /// It has too many names.
    ManyLinks,
    /// It has no places to go to.
    NotSeekable,
    /// A signal came.
    Interrupted,
    /// It gives or takes nothing now.
    Unavailable,
    /// Another program holds its lock.
    Locked,
    /// The system gives no lock of it.
    NoLock,
    /// It is not what it was, or another one has its name.
    Changed,
    /// A new file does not get its owner and its group.
    Owner,
    /// Nobody reads it any more.
    Closed,
    /// Memory runs out.
    OutOfMemory,
    /// It is longer than a stream may be.
    PositionLimit,
    /// A read of a stream failed, which does not say why.
    ReadFault,
    /// A call of the system failed for another reason.
    Fault,
}

impl Reason {
    /// The reason of an error of the system.
    pub fn of(error: &io::Error) -> Reason
        ensures of { IsReasonOf error.now result }
    {
        match error.raw_os_error() {
            Some(NOT_PERMITTED) => Reason::NotPermitted,
            Some(NO_DEVICE) => Reason::NoDevice,
            Some(NO_DESCRIPTOR) => Reason::NoDescriptor,
            Some(MANY_FILES) => Reason::ManyFiles,
            _ => Reason::of_kind(error.kind()),
        }
    }

    /// The reason of an error of this kind, where its number tells no more.
    fn of_kind(kind: ErrorKind) -> Reason
        ensures of { result ≡ reason_of kind }
    {
        match kind {
            ErrorKind::NotFound => Reason::NotFound,
            ErrorKind::PermissionDenied => Reason::Denied,
            ErrorKind::IsADirectory => Reason::Directory,
            ErrorKind::NotADirectory => Reason::NoDirectory,
            ErrorKind::FilesystemLoop => Reason::Links,
            ErrorKind::InvalidFilename => Reason::LongName,
            ErrorKind::InvalidInput => Reason::Invalid,
            ErrorKind::StorageFull => Reason::Full,
            ErrorKind::FileTooLarge => Reason::TooLarge,
            ErrorKind::QuotaExceeded => Reason::Quota,
            ErrorKind::ReadOnlyFilesystem => Reason::ReadOnly,
            ErrorKind::ResourceBusy => Reason::Busy,
            ErrorKind::ExecutableFileBusy => Reason::Runs,
            ErrorKind::StaleNetworkFileHandle => Reason::Stale,
            ErrorKind::TimedOut => Reason::Late,
            ErrorKind::AlreadyExists => Reason::Exists,
            ErrorKind::CrossesDevices => Reason::OtherDevice,
            ErrorKind::TooManyLinks => Reason::ManyLinks,
            ErrorKind::NotSeekable => Reason::NotSeekable,
            ErrorKind::Interrupted => Reason::Interrupted,
            ErrorKind::WouldBlock => Reason::Unavailable,
            ErrorKind::BrokenPipe => Reason::Closed,
            ErrorKind::Unsupported => Reason::Unsupported,
            ErrorKind::OutOfMemory => Reason::OutOfMemory,
            _ => Reason::Fault,
        }
    }

    /// What is told of it.
    pub fn text(self) -> &'static str
        ensures text { result.now ≡ reason_text self }
    {
        match self {
            Reason::NotFound => "No such file or directory",
            Reason::Denied => "Permission denied",
            Reason::NotPermitted => "Operation not permitted",
            Reason::NoDevice => "No such device or address",
            Reason::NoDescriptor => "Bad file descriptor",
            Reason::ManyFiles => "Too many open files",
            Reason::Unsupported => "Operation not supported",
            Reason::Directory => "Is a directory",
            Reason::Irregular => "Not a regular file",
            Reason::NoDirectory => "Not a directory",
            Reason::Links => "Too many levels of symbolic links",
            Reason::LongName => "File name too long",
            Reason::Invalid => "Invalid argument",
            Reason::Full => "No space left on device",
            Reason::TooLarge => "File too large",
            Reason::Quota => "Disk quota exceeded",
            Reason::ReadOnly => "Read-only file system",
            Reason::Busy => "Device or resource busy",
            Reason::Runs => "Text file busy",
            Reason::Stale => "Stale file handle",
            Reason::Late => "Connection timed out",
            Reason::Exists => "File exists",
            Reason::OtherDevice => "Invalid cross-device link",
            Reason::ManyLinks => "Too many links",
            Reason::NotSeekable => "Illegal seek",
            Reason::Interrupted => "Interrupted system call",
            Reason::Unavailable => "Resource temporarily unavailable",
            Reason::Locked => "locked by another program",
            Reason::NoLock => "cannot be locked",
            Reason::Changed => "changed meanwhile",
            Reason::Owner => "owner or group cannot be kept",
            Reason::Closed => "Broken pipe",
            Reason::OutOfMemory => "out of memory",
            Reason::PositionLimit => "position limit reached",
            Reason::ReadFault => "read fault",
            Reason::Fault => "Input/output error",
        }
    }
}
