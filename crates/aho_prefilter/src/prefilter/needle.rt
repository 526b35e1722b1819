//! A pattern that is searched for as a whole.

ghost use Rattle.std.specs.Prelude.{◌≡◌, ◌<◌, ◌^◌, length, IfOk};
ghost use Rattle.memchr.specs.Find.{FindsNeedle};

use memchr::memmem;
use std::alloc::AllocError;
use std::marker::Model;

/// A copy of a pattern. How it is searched for is made up anew by each search, in time that is at most in proportion to
/// what is searched.
///
/// A search that is made up once and kept would name a lifetime, and no function that takes an iterator over borrowed
/// patterns could give out what holds it.
#[derive(Drop)]
pub(crate) struct Needle {
    bytes: Vec<u8>,
}

impl Model for Needle {
    ghost use Rattle.std.specs.Prelude.{ℕ, List};

    ghost Value = { List ℕ };

    ghost view = { λ needle. needle.bytes.items };
}

impl Needle {
    /// The needle of these bytes.
    pub(crate) fn new(bytes: Vec<u8>) -> Needle
        ensures bytes { result ≡ bytes.items }
    {
        Needle { bytes }
    }

    /// How many bytes it has.
    pub(crate) fn len(&self) -> usize
        ensures len { result ≡ length self.now }
        ensures bound { result < 2 ^ 63 }
    {
        self.bytes.len()
    }

    /// The first place of this part of a haystack at which it stands.
    #[inline(never)]
    pub(crate) fn find(&self, part: &[u8]) -> Option<usize>
        ensures first { FindsNeedle part.now self.now 0 result }
    {
        if part.len() < self.bytes.len() {
            return None;
        }
        memmem::find(part, &self.bytes)
    }

    /// A copy.
    pub(crate) fn try_clone(&self) -> Result<Needle, AllocError>
        ensures same { IfOk result (λ copy. copy ≡ self.now) }
    {
        Ok(Needle {
            bytes: self.bytes.clone()?,
        })
    }
}
