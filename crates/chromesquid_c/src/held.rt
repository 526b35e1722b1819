//! What C holds of a value in a block of its own.

ghost use Rattle.std.specs.Prelude.{◌≡◌};
ghost use Rattle.std.specs.declared.option.Option.{Option};
ghost use Rattle.std.specs.declared.option.Option.TheVariants.{None, Some};
ghost use Rattle.chromesquid_c.specs.declared.inner.Inner.{Inner};

use crate::inner::Inner;
use crate::loose::Loose;
use std::alloc::{Allocator, Global};
use std::marker::Model;

/// A value in a block of its own, or none.
#[derive(Drop)]
#[repr(C)]
pub struct Held {
    at: *mut u8,
    alloc: Global,
    pub ghost value: { Option Inner },
}

impl Model for Held {
    ghost use Rattle.std.specs.declared.option.Option.{Option};
    ghost use Rattle.std.specs.Box.Ownership.{box_owns};
    ghost use Rattle.chromesquid_c.specs.Owned.{if_some};
    ghost use Rattle.chromesquid_c.specs.contracts.inner.Inner.{the_row};

    ghost also_owns = { λ h. if_some
        (box_owns (⟦<Global as Allocator>⟧.dealloc_token h.alloc) the_row h.at) h.value };
}

/// It may go to another thread, as its value may.
unsafe impl Send for Held {}

impl Held {
    ghost use Rattle.std.specs.Prelude.{IsSome};
    ghost use Rattle.std.specs.Borrow.{sem};
    ghost use Rattle.chromesquid_c.specs.Lending.{LendsInner};

    pub(crate) fn empty(alloc: Global) -> Held
        ensures { result.value ≡ None }
    {
        Held {
            at: std::ptr::null_mut(),
            alloc,
        }
    }

    pub(crate) fn of(loose: Loose<Inner, Global>) -> Held
        ensures { result.value ≡ Some loose.value }
    {
        let Loose { at, alloc } = loose;
        Held {
            at: at as *mut u8,
            alloc,
        }
    }

    pub(crate) fn into_loose(self) -> Loose<Inner, Global>
        requires { IsSome self.value }
        ensures { self.value ≡ Some result.value }
    {
        let Held { at, alloc } = self;
        Loose {
            at: at as *mut Inner,
            alloc,
        }
    }

    pub(crate) fn get(&mut self) -> &mut Inner
        requires { IsSome self.old.value }
        ensures* writes_back { sem 𝓛 (LendsInner self.entry result) }
        ensures value { self.old.value ≡ Some result.now }
    {
        unsafe { &mut *(self.at as *mut Inner) }
    }
}
