//! How many bytes a source gives.

ghost use Rattle.std.specs.Prelude.{◌≡◌, ℕ, ◌-◌, ◌≤◌, ◌^◌, List, None, Option, length, is_err, IfOk};
ghost use Rattle.aho_devices.specs.Counts.{counted, is_empty_read};
ghost use Rattle.acredact.specs.Metering.{GivesFirst, IsMetered, StaysMetered};

use chromesquid::{Fault, Source, StreamError};
use std::marker::{Brand, PhantomData};
use tool_parts::reason::Reason;

/// What a source had to give before its bytes were counted, and the number to which they are added.
pub trait Known {
    /// All bytes, where the source tells them.
    ghost whole: { Option (List ℕ) };

    /// The number.
    ghost start: { ℕ };

    /// The name of the source's borrow.
    ghost name: { ℕ };
}

impl Known for Brand {
    ghost whole = { None };

    ghost start = { 0 };

    ghost name = { 0 };
}

/// A source that is lent, and a number to which its bytes are added. It stops at the greatest.
#[derive(Drop)]
pub struct Lent<'s, S> {
    /// The source.
    pub source: &'s mut S,
    /// The number.
    pub bytes: u64,
    ghost fits: { bytes ≤ 2 ^ 64 - 1 },
}

impl<S: Source> Lent<'_, S> {
    /// Reads from it, and counts what it gives.
    fn take(&mut self, buf: &mut [u8]) -> Result<usize, Fault>
        ensures same { self.new.source.ghost_name ≡ self.old.source.ghost_name }
        ensures within { IfOk result (λ count. count ≤ length buf.new) }
        ensures given { GivesFirst result
            (S.remaining self.old.source.now) (S.remaining self.new.source.now) buf.new }
        ensures metered { StaysMetered (S.remaining self.old.source.now)
            (S.remaining self.new.source.now) self.old.bytes self.new.bytes }
        ensures failures { S.failures self.new.source.now
            ≡ counted (is_err result) (S.failures self.old.source.now) }
        ensures empty_reads { S.empty_reads self.new.source.now
            ≡ counted (is_empty_read result buf.new) (S.empty_reads self.old.source.now) }
    {
        let count = self.source.read(buf)?;
        self.bytes = self.bytes.saturating_add(count as u64);
        Ok(count)
    }
}

/// What was read of a source, and what came of it.
#[derive(Drop)]
pub struct Taken<'s, S> {
    /// The source, and how many bytes were counted.
    pub lent: Lent<'s, S>,
    /// Why it cannot be read to its end, where it cannot.
    pub done: Result<Option<Reason>, StreamError>,
}

/// A source whose bytes are counted.
#[derive(Drop)]
pub struct Metered<'s, S: Source, K: Known> {
    /// What gives the bytes.
    pub lent: Lent<'s, S>,
    /// What it had to give.
    pub of: PhantomData<K>,
    ghost same: { lent.source.ghost_name ≡ K.name },
    ghost metered: { IsMetered K.whole (S.remaining lent.source.now) K.start lent.bytes },
}

impl<S: Source, K: Known> Source for Metered<'_, S, K> {
    ghost remaining = { λ m. S.remaining m.lent.source.now };

    ghost failures = { λ m. S.failures m.lent.source.now };

    ghost empty_reads = { λ m. S.empty_reads m.lent.source.now };

    fn read(&mut self, buf: &mut [u8]) -> Result<usize, Fault> {
        self.lent.take(buf)
    }
}
