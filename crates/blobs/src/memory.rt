// Memory from an allocator as empty places, and its way back.
ghost use Rattle.std.specs.Prelude.{◌≡◌, ◌*◌, ◌^◌, ◌<◌, IfOk};
ghost use Rattle.core.specs.Mem.{type_size};
ghost use Rattle.core.specs.Mem.Slots.{slots_len};
ghost use Rattle.blobs.specs.Held.{IsLeaseOf};

use crate::lease::Lease;
use core::slots::Slots;
use std::alloc::{AllocError, Allocator};
use std::marker::PhantomData;
use std::mem::{align_of, size_of};

/// So many empty places. The kit's `reserve` takes their number from a slice, which is as long as they are.
pub(crate) fn reserve<T, A: Allocator>(
    alloc: &A,
    len: usize,
) -> Result<(Slots<T>, Lease<T, A>), AllocError>
    requires { (len * type_size T.row < 2 ^ 63) × T }
    ensures { IfOk result (λ p. (slots_len p.0 ≡ len) × IsLeaseOf p.1 p.0 alloc.now) }
{
    match alloc.allocate(len * size_of::<T>(), align_of::<T>()) {
        Ok(block) => {
            let ptr = block as *mut T;
            let by = PhantomData;
            let places = unsafe { Slots::from_raw_parts(ptr, len) };
            Ok((places, Lease { ptr, len, by }))
        }
        Err(refused) => Err(refused),
    }
}

/// Frees the memory of places.
pub(crate) fn release<T, A: Allocator>(alloc: &A, places: Slots<T>, lease: Lease<T, A>)
    requires { IsLeaseOf lease places alloc.now }
{
    let Lease {
        ptr: _,
        len: _,
        by: _,
    } = lease;
    let (ptr, len) = unsafe { places.into_raw_parts() };
    unsafe {
        alloc.deallocate(ptr as *mut u8, len * size_of::<T>(), align_of::<T>());
    }
}
