//! The pointer by which C holds a seat.

ghost use Rattle.std.specs.Prelude.{◌≡◌, Option, Some, None, IfSome, IsNone, MatchOption};
ghost use Rattle.nc_host_handles.specs.machinery.SeatPointer.{may_own, may_coded};
ghost use Rattle.nc_gens.specs.Seen.{PassState};

use crate::parts::{Parts, sent};
use crate::seat_handle::SeatHandle;
use std::alloc::Global;
use std::marker::Model;
use std::mem::replace;
use std::ptr::null_mut;

/// C's pointer to a seat, or to nothing (all zero bytes). Only this library follows it.
///
/// Dropping it frees nothing: only `take` gives back what it holds.
#[repr(C)]
#[derive(Drop)]
pub struct NcSeat {
    at: *mut u8,
    alloc: Global,
    pub ghost value: { Option PassState } by { may_coded },
}

impl Model for NcSeat {
    ghost also_owns = { λ h. may_own h.alloc h.at h.value };
}

impl NcSeat {
    /// A pointer to nothing.
    fn nothing(alloc: Global) -> NcSeat
        ensures { result.value ≡ None }
    {
        NcSeat {
            at: null_mut(),
            alloc,
        }
    }

    /// A pointer to the value of these parts.
    fn of_parts(parts: Parts<SeatHandle, Global>) -> NcSeat
        ensures { result.value ≡ Some parts.value }
    {
        let Parts { ptr, alloc } = parts;
        NcSeat {
            at: ptr as *mut u8,
            alloc,
        }
    }

    /// The parts of the value, if there is one.
    fn into_parts(self) -> Option<Parts<SeatHandle, Global>>
        ensures { MatchOption result (self.value ≡ None) (λ parts. self.value ≡ Some parts.value) }
    {
        let NcSeat { at, alloc } = self;
        if at.is_null() {
            None
        } else {
            Some(Parts {
                ptr: at as *mut SeatHandle,
                alloc,
            })
        }
    }

    /// A pointer to this seat, which may be moved to another thread.
    pub fn of(boxed: Box<SeatHandle, Global>) -> NcSeat
        ensures { result.value ≡ Some boxed.value }
    {
        NcSeat::of_parts(Parts::of(sent(boxed)))
    }

    /// Takes the seat away, if there is one. Afterwards this is a pointer to nothing.
    pub fn take(&mut self, alloc: Global) -> Option<Box<SeatHandle, Global>>
        ensures some { IfSome result (λ boxed. self.old.value ≡ Some boxed.value) }
        ensures none { IsNone result → self.old.value ≡ None }
        ensures left { self.new.value ≡ None }
    {
        match replace(self, NcSeat::nothing(alloc)).into_parts() {
            None => None,
            Some(parts) => Some(parts.into_box()),
        }
    }
}
