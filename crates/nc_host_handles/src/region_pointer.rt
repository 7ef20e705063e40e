//! The pointer by which C holds a region.

ghost use Rattle.std.specs.Prelude.{◌≡◌, Option, Some, None, IfSome, IsNone, MatchOption};
ghost use Rattle.nc_host_handles.specs.machinery.RegionPointer.{may_own, may_coded};
ghost use Rattle.nc_host_handles.specs.RegionHandle.{RegionHandleState};

use crate::parts::{Parts, sent};
use crate::region_handle::RegionHandle;
use std::alloc::Global;
use std::marker::Model;
use std::mem::replace;
use std::ptr::null_mut;

/// C's pointer to a region, or to nothing (all zero bytes). Only this library follows it.
///
/// Dropping it frees nothing: only `take` gives back what it holds.
#[repr(C)]
#[derive(Drop)]
pub struct NcRegion {
    at: *mut u8,
    alloc: Global,
    pub ghost value: { Option RegionHandleState } by { may_coded },
}

impl Model for NcRegion {
    ghost also_owns = { λ h. may_own h.alloc h.at h.value };
}

impl NcRegion {
    /// A pointer to nothing.
    fn nothing(alloc: Global) -> NcRegion
        ensures { result.value ≡ None }
    {
        NcRegion {
            at: null_mut(),
            alloc,
        }
    }

    /// A pointer to the value of these parts.
    fn of_parts(parts: Parts<RegionHandle, Global>) -> NcRegion
        ensures { result.value ≡ Some parts.value }
    {
        let Parts { ptr, alloc } = parts;
        NcRegion {
            at: ptr as *mut u8,
            alloc,
        }
    }

    /// The parts of the value, if there is one.
    fn into_parts(self) -> Option<Parts<RegionHandle, Global>>
        ensures { MatchOption result (self.value ≡ None) (λ parts. self.value ≡ Some parts.value) }
    {
        let NcRegion { at, alloc } = self;
        if at.is_null() {
            None
        } else {
            Some(Parts {
                ptr: at as *mut RegionHandle,
                alloc,
            })
        }
    }

    /// A pointer to this region, which may be moved to another thread.
    pub fn of(boxed: Box<RegionHandle, Global>) -> NcRegion
        ensures { result.value ≡ Some boxed.value }
    {
        NcRegion::of_parts(Parts::of(sent(boxed)))
    }

    /// Takes the region away, if there is one. Afterwards this is a pointer to nothing.
    pub fn take(&mut self, alloc: Global) -> Option<Box<RegionHandle, Global>>
        ensures some { IfSome result (λ boxed. self.old.value ≡ Some boxed.value) }
        ensures none { IsNone result → self.old.value ≡ None }
        ensures left { self.new.value ≡ None }
    {
        match replace(self, NcRegion::nothing(alloc)).into_parts() {
            None => None,
            Some(parts) => Some(parts.into_box()),
        }
    }
}
