// A box taken apart into its pointer and the allocator that frees it. What owns a box behind a pointer is made of these parts, and gives them back.
ghost use Rattle.std.specs.Prelude.{◌≡◌};
ghost use Rattle.std.specs.Box.Ownership.{box_owns};

use std::alloc::Allocator;
use std::marker::Model;

/// The parts of a box. They own what it owned, so they are never dropped: `into_box` puts the box together again.
pub struct Parts<T, A: Allocator> {
    pub ptr: *mut T,
    pub alloc: A,
    /// What lies in the box.
    pub ghost value: { T },
}

impl<T, A: Allocator> Model for Parts<T, A> {
    ghost also_owns = { λ parts. box_owns (A.dealloc_token parts.alloc) T.row parts.ptr parts.value };
}

impl<T, A: Allocator> Parts<T, A> {
    /// The parts of a box.
    pub fn of(whole: Box<T, A>) -> Parts<T, A>
    where
        T: Drop,
        ensures { result.value ≡ whole.value }
    {
        let (ptr, alloc) = Box::into_raw_with_allocator(whole);
        Parts { ptr, alloc }
    }

    /// The box of these parts.
    pub fn into_box(self) -> Box<T, A>
        ensures { result.value ≡ self.value }
    {
        let Parts { ptr, alloc } = self;
        unsafe { Box::from_raw(alloc, ptr) }
    }
}
