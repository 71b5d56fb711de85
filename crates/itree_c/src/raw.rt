//! A box as its pointer, by which C can hold it.

ghost use Rattle.std.specs.Prelude.{◌≡◌, Option, Some, None};
ghost use Rattle.std.specs.Option.{IsSome};
ghost use Rattle.itree_c.specs.Raw.{owns_at};

use std::alloc::Allocator;
use std::marker::Model;
use std::ptr::null_mut;

/// The parts of a box: where its value lies, and the allocator that gives the memory back. Or there is no box, and the pointer
/// is null. It is no `Drop`, so that whoever has it makes a box of it again or hands the pointer on.
pub struct Raw<T, A: Allocator> {
    pub at: *mut T,
    pub alloc: A,
    pub ghost value: { Option T },
}

impl<T, A: Allocator> Model for Raw<T, A> {
    ghost also_owns = { λ raw. owns_at (A.dealloc_token raw.alloc) T.row raw.at raw.value };
}

impl<T, A: Allocator> Raw<T, A> {
    /// The parts of this box.
    pub fn of(boxed: Box<T, A>) -> Raw<T, A>
    where
        T: Drop,
        ensures { result.value ≡ Some boxed.value }
    {
        let (at, alloc) = Box::into_raw_with_allocator(boxed);
        Raw { at, alloc }
    }

    /// No box, and a null pointer.
    pub fn null(alloc: A) -> Raw<T, A>
        ensures { result.value ≡ None }
    {
        Raw {
            at: null_mut(),
            alloc,
        }
    }

    /// The box again, where there is one.
    pub fn into_box(self) -> Box<T, A>
        requires { IsSome self.value }
        ensures { Some result.value ≡ self.value }
    {
        let Raw { at, alloc } = self;
        unsafe { Box::from_raw(alloc, at) }
    }
}
