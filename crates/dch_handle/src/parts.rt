// A `Box` as its address and its allocator, which are in sight of whoever keeps them elsewhere.
ghost use Rattle.std.specs.Prelude.{◌≡◌};
ghost use Rattle.std.specs.Box.Ownership.{box_owns};

use std::alloc::Allocator;
use std::marker::Model;

/// What a `Box` is made of. Whoever holds it owns the value, as by the `Box`.
pub struct Parts<T, A: Allocator> {
    /// Where the value lies.
    pub ptr: *mut T,
    /// What gives its memory back.
    pub alloc: A,
    pub ghost value: { T },
}

impl<T, A: Allocator> Model for Parts<T, A> {
    ghost also_owns = { λ parts. box_owns (A.dealloc_token parts.alloc) T.row parts.ptr parts.value };
}

impl<T, A: Allocator> Parts<T, A> {
    /// Takes a `Box` apart. The value stays where it is.
    pub fn of(boxed: Box<T, A>) -> Parts<T, A>
    where
        T: Drop,
        ensures { result.value ≡ boxed.value }
    {
        let (ptr, alloc) = Box::into_raw_with_allocator(boxed);
        Parts { ptr, alloc }
    }

    /// Makes a `Box` of its parts again.
    pub fn into_box(self) -> Box<T, A>
        ensures { result.value ≡ self.value }
    {
        let Parts { ptr, alloc } = self;
        unsafe { Box::from_raw(alloc, ptr) }
    }
}
