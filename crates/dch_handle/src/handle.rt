ghost use Rattle.std.specs.Prelude.{◌≡◌, None, Some, IsSomeAnd};
ghost use Rattle.dch_handle.specs.declared.held.Held.{Held};
ghost use Rattle.dch_handle.specs.Filled.{filled};
ghost use Rattle.dch_handle.specs.Statuses.{IsRefused, IsUnlessMemory, done};

use crate::held::Held;
use crate::parts::Parts;
use crate::raw::{Raw, into_parts, nothing, of_parts};
use crate::status::{DONE, NO_MEMORY};
use std::alloc::Global;
use std::mem;

/// A handle as C keeps it: whether it is open, and what it holds. All zero is a closed one.
#[repr(C)]
#[derive(Drop)]
pub struct Handle {
    pub is_open: bool,
    pub raw: Raw,
    ghost tells: { is_open ≡ filled raw.value },
}

/// Takes out what is held, and leaves the handle closed.
pub fn take(alloc: Global, handle: &mut Handle) -> Option<Box<Held>>
    ensures closed { handle.new.raw.value ≡ None }
    ensures taken { (held : Held) → handle.old.raw.value ≡ Some held → IsSomeAnd result (λ boxed. boxed.value ≡ held) }
    ensures none { handle.old.raw.value ≡ None → result ≡ None }
{
    let Handle { is_open, raw } = mem::replace(
        handle,
        Handle {
            is_open: false,
            raw: nothing(alloc),
        },
    );
    if is_open {
        Some(into_parts(raw).into_box())
    } else {
        None
    }
}

/// Puts something into a handle that is closed.
pub fn put(handle: &mut Handle, held: Box<Held>)
    requires { handle.old.raw.value ≡ None }
    ensures { handle.new.raw.value ≡ Some held.value }
{
    *handle = Handle {
        is_open: true,
        raw: of_parts(Parts::of(held)),
    };
}

/// Puts something behind a closed handle.
pub fn hold(alloc: Global, held: Held, handle: &mut Handle) -> u8
    requires { handle.old.raw.value ≡ None }
    ensures status { IsUnlessMemory done result }
    ensures done { result ≡ done → handle.new.raw.value ≡ Some held }
    ensures same { IsRefused result → handle.new.raw.value ≡ None }
{
    let Ok(held) = Box::new(alloc, held) else {
        return NO_MEMORY;
    };
    put(handle, held);
    DONE
}
