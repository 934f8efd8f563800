// What is copied into buffers of the caller.
ghost use Rattle.std.specs.Prelude.{◌≡◌, Ok, None, pos, IfSome};
ghost use Rattle.c_lines.specs.Prelude.{code_of, on_held, blob_told, buffer_after, file_told, lent, needed_after, printed, put_told, record_line, view_line, ReturnsSame};
ghost use Rattle.llama_c.specs.Calls.{IsPutInto, IsReadOnce};

use crate::answers::code;
use crate::handle::Handle;
use c_lines::{Refusal, lend, put_blob, put_file, put_layout, put_record, put_table};
use std::alloc::Global;
use std::marker::Brand;
use std::sync::ledger::Blank;

/// The text of a table, as a script prints it.
#[unsafe(no_mangle)]
pub extern "C" fn lly_print(
    alloc: Global,
    view: &mut Handle,
    text: &mut [u8],
    needed: &mut usize,
) -> i32
    ensures empty { view.old.part.held ≡ None → result ≡ pos 1 }
    ensures put { IsPutInto (on_held (λ table. Ok (printed table)) view.old.part.held) result text.old text.new needed.old needed.new }
    ensures left { IsReadOnce view.old.part.held result view.new.part.held }
{
    let Some(mut held) = view.take(alloc) else {
        return Refusal::NoView.number();
    };
    let answer = put_table::<Brand>(alloc, &mut held, text, needed, Blank::new(1));
    *view = Handle::new(alloc, Some(held));
    code(answer)
}

/// The bytes of the file that a view saves as.
#[unsafe(no_mangle)]
pub extern "C" fn lly_save(
    alloc: Global,
    view: &mut Handle,
    bytes: &mut [u8],
    needed: &mut usize,
) -> i32
    ensures empty { view.old.part.held ≡ None → result ≡ pos 1 }
    ensures put { IsPutInto (on_held file_told view.old.part.held) result bytes.old bytes.new needed.old needed.new }
    ensures left { view.new.part.held ≡ view.old.part.held }
{
    let Some(held) = view.take(alloc) else {
        return Refusal::NoView.number();
    };
    let answer = put_file(alloc, &held, bytes, needed);
    *view = Handle::new(alloc, Some(held));
    code(answer)
}

/// The bytes of a blob of a view.
#[unsafe(no_mangle)]
pub extern "C" fn lly_blob(
    alloc: Global,
    view: &mut Handle,
    blob: usize,
    bytes: &mut [u8],
    needed: &mut usize,
) -> i32
    ensures answer { result ≡ code_of (put_told (on_held (blob_told blob) view.old.part.held) bytes.old) }
    ensures bytes { bytes.new ≡ buffer_after (on_held (blob_told blob) view.old.part.held) bytes.old }
    ensures needed { needed.new ≡ needed_after (on_held (blob_told blob) view.old.part.held) needed.old }
    ensures left { view.new.part.held ≡ view.old.part.held }
{
    let Some(held) = view.take(alloc) else {
        return Refusal::NoView.number();
    };
    let answer = put_blob(&held, blob, bytes, needed);
    *view = Handle::new(alloc, Some(held));
    code(answer)
}

/// The bytes of all blobs of a view, one behind another.
#[unsafe(no_mangle)]
pub extern "C" fn lly_lend(
    alloc: Global,
    view: &mut Handle,
    bytes: &mut [u8],
    needed: &mut usize,
) -> i32
    ensures answer { result ≡ code_of (put_told (on_held (λ table. Ok (lent table)) view.old.part.held) bytes.old) }
    ensures bytes { bytes.new ≡ buffer_after (on_held (λ table. Ok (lent table)) view.old.part.held) bytes.old }
    ensures needed { needed.new ≡ needed_after (on_held (λ table. Ok (lent table)) view.old.part.held) needed.old }
    ensures left { view.new.part.held ≡ view.old.part.held }
    ensures back { IfSome view.old.part.held ReturnsSame }
{
    let Some(held) = view.take(alloc) else {
        return Refusal::NoView.number();
    };
    let answer = lend(&held, bytes, needed);
    *view = Handle::new(alloc, Some(held));
    code(answer)
}

/// The text of the line of a view's record, with `R` as its name.
#[unsafe(no_mangle)]
pub extern "C" fn lly_record(
    alloc: Global,
    view: &mut Handle,
    text: &mut [u8],
    needed: &mut usize,
) -> i32
    ensures empty { view.old.part.held ≡ None → result ≡ pos 1 }
    ensures put { IsPutInto (on_held (λ table. Ok (record_line table)) view.old.part.held) result text.old text.new needed.old needed.new }
    ensures left { view.new.part.held ≡ view.old.part.held }
{
    let Some(held) = view.take(alloc) else {
        return Refusal::NoView.number();
    };
    let answer = put_record(alloc, &held, text, needed);
    *view = Handle::new(alloc, Some(held));
    code(answer)
}

/// The text of the line of a view, with `V` as its name. Both lines make a view of zeros like it.
#[unsafe(no_mangle)]
pub extern "C" fn lly_layout(
    alloc: Global,
    view: &mut Handle,
    text: &mut [u8],
    needed: &mut usize,
) -> i32
    ensures empty { view.old.part.held ≡ None → result ≡ pos 1 }
    ensures put { IsPutInto (on_held (λ table. Ok (view_line table)) view.old.part.held) result text.old text.new needed.old needed.new }
    ensures left { view.new.part.held ≡ view.old.part.held }
{
    let Some(held) = view.take(alloc) else {
        return Refusal::NoView.number();
    };
    let answer = put_layout(alloc, &held, text, needed);
    *view = Handle::new(alloc, Some(held));
    code(answer)
}
