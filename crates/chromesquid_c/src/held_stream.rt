//! What C holds of a stream in a block of its own.

ghost use Rattle.std.specs.Prelude.{◌≡◌};
ghost use Rattle.std.specs.declared.option.Option.{Option};
ghost use Rattle.std.specs.declared.option.Option.TheVariants.{None, Some};
ghost use Rattle.chromesquid_c.specs.Streaming.{PushedStream};

use crate::loose::Loose;
use crate::pushed::Pushed;
use std::alloc::{Allocator, Global};
use std::marker::Model;

/// A stream in a block of its own, or none.
#[derive(Drop)]
#[repr(C)]
pub struct HeldStream {
    at: *mut u8,
    alloc: Global,
    pub ghost value: { Option PushedStream },
}

impl Model for HeldStream {
    ghost use Rattle.std.specs.declared.option.Option.{Option};
    ghost use Rattle.std.specs.Box.Ownership.{box_owns};
    ghost use Rattle.chromesquid_c.specs.Owned.{if_some};
    ghost use Rattle.chromesquid_c.specs.contracts.pushed.Pushed.{the_row};

    ghost also_owns = { λ h. if_some
        (box_owns (⟦<Global as Allocator>⟧.dealloc_token h.alloc) the_row h.at) h.value };
}

/// It may go to another thread, as its value may.
unsafe impl Send for HeldStream {}

impl HeldStream {
    ghost use Rattle.std.specs.Prelude.{IsSome};
    ghost use Rattle.std.specs.Borrow.{sem};
    ghost use Rattle.chromesquid_c.specs.StreamLending.{LendsStream};

    pub(crate) fn empty(alloc: Global) -> HeldStream
        ensures { result.value ≡ None }
    {
        HeldStream {
            at: std::ptr::null_mut(),
            alloc,
        }
    }

    pub(crate) fn of(loose: Loose<Pushed, Global>) -> HeldStream
        ensures { result.value ≡ Some loose.value }
    {
        let Loose { at, alloc } = loose;
        HeldStream {
            at: at as *mut u8,
            alloc,
        }
    }

    pub(crate) fn into_loose(self) -> Loose<Pushed, Global>
        requires { IsSome self.value }
        ensures { self.value ≡ Some result.value }
    {
        let HeldStream { at, alloc } = self;
        Loose {
            at: at as *mut Pushed,
            alloc,
        }
    }

    pub(crate) fn get(&mut self) -> &mut Pushed
        requires { IsSome self.old.value }
        ensures* writes_back { sem 𝓛 (LendsStream self.entry result) }
        ensures value { self.old.value ≡ Some result.now }
    {
        unsafe { &mut *(self.at as *mut Pushed) }
    }
}
