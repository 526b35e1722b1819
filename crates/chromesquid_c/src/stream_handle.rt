//! What C holds of a stream.

ghost use Rattle.std.specs.Prelude.{◌≡◌};
ghost use Rattle.chromesquid_c.specs.Owned.{is_some};

use crate::held_stream::HeldStream;
use crate::loose::Loose;
use crate::pushed::Pushed;
use std::alloc::{AllocError, Global};

/// What C holds of a stream: one, or none. In C it is `{ bool full; void *at; }`, and all zero where there is none.
#[repr(C)]
pub struct CsStream {
    pub(crate) full: bool,
    pub(crate) held: HeldStream,
    ghost same: { full ≡ is_some held.value },
}

impl Drop for CsStream {
    fn drop(self) {
        let CsStream { full, held } = self;
        if full {
            drop(held.into_loose().into_box());
        }
    }
}

impl CsStream {
    ghost use Rattle.std.specs.Prelude.{IfOk};
    ghost use Rattle.chromesquid_c.specs.HoldingStream.{HasNoStream, OfStream};

    /// A handle of this stream.
    pub(crate) fn of(alloc: Global, stream: Pushed) -> Result<CsStream, AllocError>
        ensures holds { IfOk result (λ h. OfStream h (λ s. s ≡ stream)) }
    {
        let boxed = Box::new(alloc, stream)?;
        Ok(CsStream {
            full: true,
            held: HeldStream::of(Loose::of(boxed)),
        })
    }

    /// None.
    pub(crate) fn none(alloc: Global) -> CsStream
        ensures none { HasNoStream result }
    {
        CsStream {
            full: false,
            held: HeldStream::empty(alloc),
        }
    }
}
