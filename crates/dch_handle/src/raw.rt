// What lies behind a handle, in a struct that may cross to C: its fields name none of the memory that it owns.
ghost use Rattle.std.specs.Prelude.{◌≡◌, true, Option, None, Some};
ghost use Rattle.dch_handle.specs.declared.held.Held.{Held};
ghost use Rattle.dch_handle.specs.Filled.{filled};
ghost use Rattle.dch_handle.specs.Owned.{raw_owns};

use crate::held::Held;
use crate::parts::Parts;
use std::alloc::Global;
use std::marker::Model;
use std::ptr;

/// The address of what is held, or nothing.
#[repr(C)]
#[derive(Drop)]
pub struct Raw {
    at: *mut u8,
    alloc: Global,
    pub ghost value: { Option Held },
}

impl Model for Raw {
    ghost also_owns = { λ raw. raw_owns raw.alloc raw.at raw.value };
}

/// Holds nothing.
pub fn nothing(alloc: Global) -> Raw
    ensures { result.value ≡ None }
{
    Raw {
        at: ptr::null_mut(),
        alloc,
    }
}

/// Holds what a box held.
pub fn of_parts(parts: Parts<Held, Global>) -> Raw
    ensures { result.value ≡ Some parts.value }
{
    let Parts { ptr, alloc } = parts;
    Raw {
        at: ptr as *mut u8,
        alloc,
    }
}

/// Gives back what is held.
pub fn into_parts(raw: Raw) -> Parts<Held, Global>
    requires { filled raw.value ≡ true }
    ensures { raw.value ≡ Some result.value }
{
    let Raw { at, alloc } = raw;
    Parts {
        ptr: at as *mut Held,
        alloc,
    }
}
