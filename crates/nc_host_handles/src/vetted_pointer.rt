//! The pointer by which C holds a vetted chunk.

ghost use Rattle.std.specs.Prelude.{◌≡◌, Option, Some, None, IfSome, IsNone, MatchOption};
ghost use Rattle.nc_host_handles.specs.machinery.VettedPointer.{may_own, may_coded};
ghost use Rattle.nc_host_handles.specs.declared.vetted_handle.VettedHandle.{VettedHandle};

use crate::parts::{Parts, sent};
use crate::vetted_handle::VettedHandle;
use std::alloc::Global;
use std::marker::Model;
use std::mem::replace;
use std::ptr::null_mut;

/// C's pointer to a vetted chunk, or to nothing (all zero bytes). Only this library follows it.
///
/// Dropping it frees nothing: only `take` gives back what it holds.
#[repr(C)]
#[derive(Drop)]
pub struct NcVetted {
    at: *mut u8,
    alloc: Global,
    pub ghost value: { Option VettedHandle } by { may_coded },
}

impl Model for NcVetted {
    ghost also_owns = { λ h. may_own h.alloc h.at h.value };
}

impl NcVetted {
    /// A pointer to nothing.
    fn nothing(alloc: Global) -> NcVetted
        ensures { result.value ≡ None }
    {
        NcVetted {
            at: null_mut(),
            alloc,
        }
    }

    /// A pointer to the value of these parts.
    fn of_parts(parts: Parts<VettedHandle, Global>) -> NcVetted
        ensures { result.value ≡ Some parts.value }
    {
        let Parts { ptr, alloc } = parts;
        NcVetted {
            at: ptr as *mut u8,
            alloc,
        }
    }

    /// The parts of the value, if there is one.
    fn into_parts(self) -> Option<Parts<VettedHandle, Global>>
        ensures { MatchOption result (self.value ≡ None) (λ parts. self.value ≡ Some parts.value) }
    {
        let NcVetted { at, alloc } = self;
        if at.is_null() {
            None
        } else {
            Some(Parts {
                ptr: at as *mut VettedHandle,
                alloc,
            })
        }
    }

    /// A pointer to this vetted chunk, which may be moved to another thread.
    pub fn of(boxed: Box<VettedHandle, Global>) -> NcVetted
        ensures { result.value ≡ Some boxed.value }
    {
        NcVetted::of_parts(Parts::of(sent(boxed)))
    }

    /// Takes the vetted chunk away, if there is one. Afterwards this is a pointer to nothing.
    pub fn take(&mut self, alloc: Global) -> Option<Box<VettedHandle, Global>>
        ensures some { IfSome result (λ boxed. self.old.value ≡ Some boxed.value) }
        ensures none { IsNone result → self.old.value ≡ None }
        ensures left { self.new.value ≡ None }
    {
        match replace(self, NcVetted::nothing(alloc)).into_parts() {
            None => None,
            Some(parts) => Some(parts.into_box()),
        }
    }
}
