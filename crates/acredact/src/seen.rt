//! What is looked at of a file before it is replaced, and once more at the end.

ghost use Rattle.std.specs.Prelude.{◌≡◌, IfErr, IfOk, MatchResult, Ok, bit_and};
ghost use Rattle.std.specs.Fs.{metadata_len, metadata_mode};
ghost use Rattle.tool_parts.specs.Reasons.{IsReasonOf};

use crate::folder::Place;
use std::fs::{Files, Metadata};
use std::io::ErrorKind;
use std::os::unix::fs::MetadataExt;
use std::{fs, io};
use tool_parts::reason::Reason;

/// Who may read, write and run a file, without the bits by which a program runs as another user.
const PERMISSIONS: u32 = 0o777;

/// The same without those of its group.
const UNGROUPED: u32 = 0o707;

/// What is looked at of a file that is opened.
#[derive(Clone, Copy, PartialEq, Eq)]
pub struct Seen {
    /// Where it is.
    pub place: Place,
    /// The number of its owner.
    pub owner: u32,
    /// The number of its group.
    pub group: u32,
    /// Its kind, its permissions, and the other bits beside them.
    mode: u32,
    /// How many bytes it has.
    size: u64,
    /// When it was written last, in seconds.
    written: i64,
    /// And the nanoseconds of that.
    written_part: i64,
    /// When something else of it was changed last, in seconds.
    changed: i64,
    /// And the nanoseconds of that.
    changed_part: i64,
}

impl Seen {
    /// What this says of a file.
    pub fn of(metadata: &Metadata) -> Seen
        ensures size { result.size ≡ metadata_len metadata.now }
        ensures mode { result.mode ≡ metadata_mode metadata.now }
    {
        Seen {
            place: Place::of(metadata),
            owner: metadata.uid(),
            group: metadata.gid(),
            mode: metadata.mode(),
            size: metadata.size(),
            written: metadata.mtime(),
            written_part: metadata.mtime_nsec(),
            changed: metadata.ctime(),
            changed_part: metadata.ctime_nsec(),
        }
    }

    /// The same, but of its group only what others may too: where the file has an access list, the bits of its group are what the list
    /// allows at most, and not what its group may.
    pub fn shared_permissions(&self) -> u32 {
        self.mode & UNGROUPED
            | self.of_group(0o040, 0o004)
            | self.of_group(0o020, 0o002)
            | self.of_group(0o010, 0o001)
    }

    /// This bit of its group, where others have this one.
    fn of_group(&self, group: u32, others: u32) -> u32 {
        if self.mode & others == 0 {
            return 0;
        }
        self.mode & group
    }

    /// Who may read, write and run it. By no bit of this a program runs as another user.
    pub fn permissions(&self) -> u32
        ensures permissions { result ≡ bit_and self.now.mode 0o777 }
    {
        self.mode & PERMISSIONS
    }
}

/// What the system answers, or the reason why it does not.
pub fn known<T>(answer: io::Result<T>) -> Result<T, Reason>
    ensures known { IfOk answer (λ value. result ≡ Ok value) }
    ensures why { IfErr answer (λ e. MatchResult result (λ _. ⊥) (IsReasonOf e)) }
{
    match answer {
        Ok(known) => Ok(known),
        Err(error) => Err(Reason::of(&error)),
    }
}

/// The place of the file that has this name, if one has. Only a regular file may: no folder, no device and no link.
pub fn place_at<R: Files>(rt: &R, name: &str) -> Result<Option<Place>, Reason> {
    match fs::symlink_metadata(rt, name) {
        Ok(metadata) if metadata.is_file() => Ok(Some(Place::of(&metadata))),
        Ok(metadata) if metadata.is_dir() => Err(Reason::Directory),
        Ok(_) => Err(Reason::Irregular),
        Err(error) => {
            if error.kind() == ErrorKind::NotFound {
                return Ok(None);
            }
            Err(Reason::of(&error))
        }
    }
}

/// Refuses a name that does not lead to this place, without a link.
pub fn stays_at<R: Files>(rt: &R, name: &str, place: Option<Place>) -> Result<(), Reason> {
    if place_at(rt, name)? == place {
        Ok(())
    } else {
        Err(Reason::Changed)
    }
}
