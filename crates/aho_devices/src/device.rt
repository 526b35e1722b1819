//! The devices of a stream: what gives its bytes and what takes them.

ghost use Rattle.std.specs.Prelude.{◌≡◌, ◌≤◌, ℕ, Bool, true, Option, List, length, take, IfOk, IfErr, OnOk, MatchResult, is_err};
ghost use Rattle.std.specs.Io.KnownBytes.{Appends, Consumes, Keeps};
ghost use Rattle.aho_devices.specs.Counts.{counted, is_empty_read, is_empty_write};
ghost use Rattle.aho_devices.specs.Refusals.{is_write_fault, is_write_of_nothing, IsWriteRefusal};

use aho_core::error::{Fault, StreamError};

/// What gives the bytes of a stream.
///
/// Its counts wrap at 2^64, so only whether one has risen in a call means something.
pub trait Source {
    /// The bytes that its reads will give from here on, where the source tells them.
    ghost remaining: { Self → Option (List ℕ) };

    /// How many reads have failed.
    ghost failures: { Self → ℕ };

    /// How many reads that had room have given nothing.
    ghost empty_reads: { Self → ℕ };

    /// Puts bytes at the front of `buf`, and says how many. None where there is room means that the stream has ended
    /// for now: a later read may give more. A read that fails gives nothing.
    fn read(&mut self, buf: &mut [u8]) -> Result<usize, Fault>
        ensures within { IfOk result (λ count. count ≤ length buf.new) }
        ensures given { MatchResult result
            (λ count. Consumes (remaining self.old) (remaining self.new) (take count buf.new))
            (λ _. Keeps (remaining self.old) (remaining self.new)) }
        ensures failures { failures self.new ≡ counted (is_err result) (failures self.old) }
        ensures empty_reads { empty_reads self.new
            ≡ counted (is_empty_read result buf.new) (empty_reads self.old) };
}

/// What takes the bytes of a stream.
///
/// Its counts wrap at 2^64, so only whether one has risen in a call means something.
pub trait Sink {
    /// The bytes that it has taken so far, where the sink tells them.
    ghost taken: { Self → Option (List ℕ) };

    /// How many writes and flushes have failed.
    ghost failures: { Self → ℕ };

    /// How many writes of a nonempty piece have taken nothing. A flush that finds such a write behind the sink counts too.
    ghost empty_writes: { Self → ℕ };

    /// Whether nothing was taken since the last flush that did not fail.
    ghost flushed: { Self → Bool };

    /// Takes bytes from the front of `piece`, and says how many. A write that fails takes nothing.
    fn write(&mut self, piece: &[u8]) -> Result<usize, Fault>
        ensures within { IfOk result (λ count. count ≤ length piece.now) }
        ensures taken { MatchResult result
            (λ count. Appends (taken self.old) (taken self.new) (take count piece.now))
            (λ _. Keeps (taken self.old) (taken self.new)) }
        ensures failures { failures self.new ≡ counted (is_err result) (failures self.old) }
        ensures empty_writes { empty_writes self.new
            ≡ counted (is_empty_write result piece.now) (empty_writes self.old) };

    /// Hands on all that it keeps of what it has taken.
    fn flush(&mut self) -> Result<(), StreamError>
        ensures flushed { OnOk result (flushed self.new ≡ true) }
        ensures kept { Keeps (taken self.old) (taken self.new) }
        ensures failures { failures self.new ≡ counted (is_write_fault result) (failures self.old) }
        ensures empty_writes { empty_writes self.new
            ≡ counted (is_write_of_nothing result) (empty_writes self.old) }
        ensures only { IfErr result IsWriteRefusal };
}
