// Where numbers lie, for callers who read them with no call.
ghost use Rattle.std.specs.Prelude.{◌≡◌};
ghost use Rattle.c_lines.specs.Prelude.{code_of, on_held, blob_told, needed_after};
ghost use Rattle.llama_c.specs.Calls.{IsPlaced};

use crate::answers::refused;
use crate::handle::Handle;
use c_lines::{BytesAt, DONE, Fault, Refusal, blob_at, place};
use leaf_places::Places;
use std::alloc::Global;

/// Where the numbers of a leaf lie.
#[unsafe(no_mangle)]
pub extern "C" fn lly_place(
    alloc: Global,
    view: &mut Handle,
    leaf: usize,
    places: &mut Places,
    fault: &mut Fault,
) -> i32
    ensures placed { IsPlaced leaf view.old.part.held result places.old places.new fault.old fault.new }
    ensures left { view.new.part.held ≡ view.old.part.held }
{
    let Some(held) = view.take(alloc) else {
        return refused(Refusal::NoView, fault);
    };
    let answer = place(&held, leaf);
    *view = Handle::new(alloc, Some(held));
    match answer {
        Ok(found) => {
            *places = found;
            DONE
        }
        Err(refusal) => refused(refusal, fault),
    }
}

/// Where the bytes of a blob lie.
#[unsafe(no_mangle)]
pub extern "C" fn lly_blob_at(
    alloc: Global,
    view: &mut Handle,
    blob: usize,
    bytes: &mut *const u8,
    length: &mut usize,
) -> i32
    ensures answer { result ≡ code_of (on_held (blob_told blob) view.old.part.held) }
    ensures length { length.new ≡ needed_after (on_held (blob_told blob) view.old.part.held) length.old }
    ensures left { view.new.part.held ≡ view.old.part.held }
{
    let Some(held) = view.take(alloc) else {
        return Refusal::NoView.number();
    };
    let answer = blob_at(&held, blob);
    *view = Handle::new(alloc, Some(held));
    match answer {
        Ok(BytesAt { first, count }) => {
            *bytes = first;
            *length = count;
            DONE
        }
        Err(refusal) => refusal.number(),
    }
}
