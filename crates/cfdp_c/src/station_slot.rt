//! A pointer to a `Held`, or nothing, in the memory of the caller.
ghost use Rattle.std.specs.Prelude.{◌≡◌, Option, Some, None, IsSome};
ghost use Rattle.cfdp_c.specs.declared.held.Held.{Held};
ghost use Rattle.cfdp_c.specs.Slots.{slot_owns, kept_coded};

use crate::held::Held;
use crate::parts::Parts;
use std::alloc::Global;
use std::marker::Model;

/// What a caller's pointer points to; the caller knows nothing of it.
pub struct Opaque {
    at: u8,
}

/// Room for one station: none, or the box that has it. A box can't cross to C, so its pointer does,
/// without its type.
#[repr(C)]
#[derive(Drop)]
pub struct StationSlot {
    at: *mut Opaque,
    alloc: Global,
    pub ghost value: { Option Held } by { kept_coded },
}

impl Model for StationSlot {
    ghost also_owns = { λ h. slot_owns h.alloc h.at h.value };
}

impl StationSlot {
    /// Returns a slot without a station.
    pub fn empty(alloc: Global) -> StationSlot
        ensures { result.value ≡ None }
    {
        StationSlot {
            at: std::ptr::null_mut(),
            alloc,
        }
    }

    /// Returns a slot that has the station of a box, by the box's parts.
    pub fn of_parts(parts: Parts<Held, Global>) -> StationSlot
        ensures { result.value ≡ Some parts.value }
    {
        let Parts { ptr, alloc } = parts;
        StationSlot {
            at: ptr as *mut Opaque,
            alloc,
        }
    }

    /// Returns the parts of the box that the slot has.
    pub fn into_parts(self) -> Parts<Held, Global>
        requires { IsSome self.value }
        ensures { Some result.value ≡ self.value }
    {
        let StationSlot { at, alloc } = self;
        Parts {
            ptr: at as *mut Held,
            alloc,
        }
    }
}
