use std::alloc::Allocator;
use std::marker::{Model, PhantomData};

/// The right to free the memory behind some places. It holds no handle, so that the handle can be lent meanwhile.
pub(crate) struct Lease<T, A: Allocator> {
    pub(crate) ptr: *mut T,
    pub(crate) len: usize,
    pub(crate) by: PhantomData<A>,
    ghost alloc: { A },
}

impl<T, A: Allocator> Model for Lease<T, A> {
    ghost use Rattle.core.specs.Mem.Slots.Ownership.{leased};

    ghost also_owns = { λ l. leased (A.dealloc_token l.alloc) T.row l.ptr l.len };
}
