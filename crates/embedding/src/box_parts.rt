ghost use Rattle.std.specs.Prelude.{◌≡◌};
ghost use Rattle.std.specs.Box.Ownership.{box_owns};

use std::alloc::Allocator;
use std::marker::Model;

/// A box split into its pointer and its allocator.
pub struct BoxParts<T, A: Allocator> {
    pub pointer: *mut T,
    pub alloc: A,
    pub ghost value: { T },
}

impl<T, A: Allocator> Model for BoxParts<T, A> {
    ghost also_owns = { λ p. box_owns (A.dealloc_token p.alloc) T.row p.pointer p.value };
}

impl<T, A: Allocator> BoxParts<T, A> {
    /// Splits a box.
    pub fn of(value: Box<T, A>) -> BoxParts<T, A>
    where
        T: Drop,
        ensures { result.value ≡ value.value }
    {
        let (pointer, alloc) = Box::into_raw_with_allocator(value);
        BoxParts { pointer, alloc }
    }

    /// Joins the parts into the box again.
    pub fn into_box(self) -> Box<T, A>
        ensures { result.value ≡ self.value }
    {
        let BoxParts { pointer, alloc } = self;
        unsafe { Box::from_raw(alloc, pointer) }
    }
}
