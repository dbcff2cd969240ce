//! A box as the pointer to what it holds.

ghost use Rattle.std.specs.Prelude.{◌≡◌};
ghost use Rattle.std_alloc.specs.Box.Ownership.{box_owns};

use std::alloc::Allocator;
use std::marker::Model;

/// A box that was taken apart: the pointer to its value, which is never null, and its allocator. It owns the value and the value's
/// memory, as the box did.
///
/// It can't be dropped: [`OwnedPointer::into_box`] makes the box again, which can. A handle for C moves the two fields into a struct
/// that C may hold, and back.
pub struct OwnedPointer<T, A: Allocator> {
    /// Where the value is.
    pub at: *mut T,
    /// What frees its memory.
    pub alloc: A,
    /// The value.
    pub ghost value: { T },
}

impl<T, A: Allocator> Model for OwnedPointer<T, A> {
    ghost also_owns = { λ p. box_owns (A.dealloc_token p.alloc) T.row p.at p.value };
}

impl<T: Drop, A: Allocator> OwnedPointer<T, A> {
    /// Takes the box apart.
    pub fn of(whole: Box<T, A>) -> OwnedPointer<T, A>
        ensures { result.value ≡ whole.value }
    {
        let (at, alloc) = Box::into_raw_with_allocator(whole);
        OwnedPointer { at, alloc }
    }

    /// Makes the box again.
    pub fn into_box(self) -> Box<T, A>
        ensures { result.value ≡ self.value }
    {
        let OwnedPointer { at, alloc } = self;
        unsafe { Box::from_raw(alloc, at) }
    }
}
