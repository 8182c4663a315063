//! A box taken apart: the address of its value, and what frees the block.

ghost use Rattle.std.specs.Prelude.{◌≡◌};
ghost use Rattle.std.specs.Box.Ownership.{box_owns};

use std::alloc::Allocator;
use std::marker::Model;

/// The block of a box, and the handle that frees it.
pub(crate) struct Block<T, A: Allocator> {
    pub(crate) at: *mut T,
    pub(crate) alloc: A,
    pub ghost value: { T },
}

impl<T, A: Allocator> Model for Block<T, A> {
    ghost also_owns = { λ b. box_owns (A.dealloc_token b.alloc) T.row b.at b.value };
}

impl<T, A: Allocator> Block<T, A> {
    /// The block of this box.
    pub(crate) fn of_box(value: Box<T, A>) -> Block<T, A>
    where
        T: Drop,
        ensures { result.value ≡ value.value }
    {
        let (at, alloc) = Box::into_raw_with_allocator(value);
        Block { at, alloc }
    }

    /// The box of this block.
    pub(crate) fn into_box(self) -> Box<T, A>
        ensures { result.value ≡ self.value }
    {
        let Block { at, alloc } = self;
        unsafe { Box::from_raw(alloc, at) }
    }
}
