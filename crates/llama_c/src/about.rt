// What a view is.
ghost use Rattle.std.specs.Prelude.{◌≡◌};
ghost use Rattle.record_dim.specs.Prelude.{is_signed};
ghost use Rattle.c_lines.specs.Prelude.{counts_told, extents_told, path_told, reads_of, type_told, value_bits, writes_of, answer_map, code_of, given_or, on_held, buffer_after, needed_after, put_told};

use crate::answers::code;
use crate::handle::Handle;
use c_lines::{DONE, Refusal, counts_of, put_extents, put_path, type_of, value_bits};
use std::alloc::Global;

/// The extents of the array.
#[unsafe(no_mangle)]
pub extern "C" fn lly_extents(
    alloc: Global,
    view: &mut Handle,
    extents: &mut [u64],
    needed: &mut usize,
) -> i32
    ensures answer { result ≡ code_of (put_told (on_held extents_told view.old.part.held) extents.old) }
    ensures extents { extents.new ≡ buffer_after (on_held extents_told view.old.part.held) extents.old }
    ensures needed { needed.new ≡ needed_after (on_held extents_told view.old.part.held) needed.old }
    ensures left { view.new.part.held ≡ view.old.part.held }
{
    let Some(held) = view.take(alloc) else {
        return Refusal::NoView.number();
    };
    let answer = put_extents(&held, extents, needed);
    *view = Handle::new(alloc, Some(held));
    code(answer)
}

/// The path of a leaf, as the header of `print` has it.
#[unsafe(no_mangle)]
pub extern "C" fn lly_path(
    alloc: Global,
    view: &mut Handle,
    leaf: usize,
    text: &mut [u8],
    needed: &mut usize,
) -> i32
    ensures answer { result ≡ code_of (put_told (on_held (path_told leaf) view.old.part.held) text.old) }
    ensures text { text.new ≡ buffer_after (on_held (path_told leaf) view.old.part.held) text.old }
    ensures needed { needed.new ≡ needed_after (on_held (path_told leaf) view.old.part.held) needed.old }
    ensures left { view.new.part.held ≡ view.old.part.held }
{
    let Some(held) = view.take(alloc) else {
        return Refusal::NoView.number();
    };
    let answer = put_path(&held, leaf, text, needed);
    *view = Handle::new(alloc, Some(held));
    code(answer)
}

/// The type of a leaf: how many bits its values have, and whether they have a sign.
#[unsafe(no_mangle)]
pub extern "C" fn lly_type(
    alloc: Global,
    view: &mut Handle,
    leaf: usize,
    bits: &mut u32,
    sign: &mut bool,
) -> i32
    ensures answer { result ≡ code_of (on_held (type_told leaf) view.old.part.held) }
    ensures bits { bits.new ≡ given_or bits.old (answer_map value_bits (on_held (type_told leaf) view.old.part.held)) }
    ensures sign { sign.new ≡ given_or sign.old (answer_map is_signed (on_held (type_told leaf) view.old.part.held)) }
    ensures left { view.new.part.held ≡ view.old.part.held }
{
    let Some(held) = view.take(alloc) else {
        return Refusal::NoView.number();
    };
    let answer = type_of(&held, leaf);
    *view = Handle::new(alloc, Some(held));
    match answer {
        Ok(kind) => {
            *bits = value_bits(kind);
            *sign = kind.signed();
            DONE
        }
        Err(refusal) => refusal.number(),
    }
}

/// How often a leaf was read and written, where the view counts that.
#[unsafe(no_mangle)]
pub extern "C" fn lly_counts(
    alloc: Global,
    view: &mut Handle,
    leaf: usize,
    reads: &mut u64,
    writes: &mut u64,
) -> i32
    ensures answer { result ≡ code_of (on_held (counts_told leaf) view.old.part.held) }
    ensures reads { reads.new ≡ given_or reads.old (answer_map reads_of (on_held (counts_told leaf) view.old.part.held)) }
    ensures writes { writes.new ≡ given_or writes.old (answer_map writes_of (on_held (counts_told leaf) view.old.part.held)) }
    ensures left { view.new.part.held ≡ view.old.part.held }
{
    let Some(held) = view.take(alloc) else {
        return Refusal::NoView.number();
    };
    let answer = counts_of(&held, leaf);
    *view = Handle::new(alloc, Some(held));
    match answer {
        Ok((read, written)) => {
            *reads = read;
            *writes = written;
            DONE
        }
        Err(refusal) => refusal.number(),
    }
}
