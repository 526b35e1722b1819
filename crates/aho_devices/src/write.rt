//! Writing a whole piece, and a sink for what nobody wants.

ghost use Rattle.std.specs.Prelude.{◌≡◌, [], None, Ok, OnErr, OnOk, IfErr, true};
ghost use Rattle.std.specs.Io.KnownBytes.{Appends};
ghost use Rattle.aho_devices.specs.Counts.{counted, AppendsBeginning};
ghost use Rattle.aho_devices.specs.Refusals.{is_write_fault, is_write_of_nothing, IsWriteRefusal};

use crate::device::Sink;
use aho_core::error::{Fault, StreamError};

/// A sink that takes all and keeps nothing.
#[derive(Clone, Copy)]
pub struct Nowhere;

impl Sink for Nowhere {
    ghost taken = { λ _. None };

    ghost failures = { λ _. 0 };

    ghost empty_writes = { λ _. 0 };

    ghost flushed = { λ _. true };

    fn write(&mut self, piece: &[u8]) -> Result<usize, Fault> {
        Ok(piece.len())
    }

    fn flush(&mut self) -> Result<(), StreamError> {
        Ok(())
    }
}

/// Writes all of `piece`, by as many writes as the sink needs; an empty piece makes no write. Nothing is tried again:
/// the first write that fails or takes no byte is the error, and a beginning of the piece was taken then.
pub fn write_whole<W: Sink>(sink: &mut W, piece: &[u8]) -> Result<(), StreamError>
    ensures whole { OnOk result (Appends (W.taken sink.old) (W.taken sink.new) piece.now) }
    ensures beginning { OnErr result
        (AppendsBeginning (W.taken sink.old) (W.taken sink.new) piece.now) }

    // Each error is answered exactly where its count rose.
    ensures write_failed { W.failures sink.new
        ≡ counted (is_write_fault result) (W.failures sink.old) }
    ensures took_nothing { W.empty_writes sink.new
        ≡ counted (is_write_of_nothing result) (W.empty_writes sink.old) }
    ensures only { IfErr result IsWriteRefusal }

    ensures nothing_to_write { piece.now ≡ [] → result ≡ Ok tt }
    ensures untouched { piece.now ≡ [] → sink.new ≡ sink.old }
{
    let mut rest = piece;
    while !rest.is_empty() {
        match sink.write(rest) {
            Ok(0) => return Err(StreamError::WriteZero),
            Ok(count) => rest = &rest[count..],
            Err(fault) => return Err(StreamError::Write(fault)),
        }
    }
    Ok(())
}
