// How large a view is, and where its rows and leaves are.
ghost use Rattle.std.specs.Prelude.{◌≡◌, ◌⊎◌, pos, Some, None, IfSome, Contains, slice_get};
ghost use Rattle.extents.specs.Indices.{indices};
ghost use Rattle.record_dim.specs.Prelude.{texts_of};
ghost use Rattle.c_lines.specs.Prelude.{code_of, given_or, on_held};
ghost use Rattle.llama_c.specs.Calls.{blob_count_told, leaf_count_told, row_count_told};

use crate::handle::Handle;
use c_lines::{DONE, Refusal, blob_count, leaf_of, row_of};
use std::alloc::Global;

/// How many rows a view has.
#[unsafe(no_mangle)]
pub extern "C" fn lly_rows(alloc: Global, view: &mut Handle, rows: &mut u64) -> i32
    ensures answer { result ≡ code_of (on_held row_count_told view.old.part.held) }
    ensures value { rows.new ≡ given_or rows.old (on_held row_count_told view.old.part.held) }
    ensures left { view.new.part.held ≡ view.old.part.held }
{
    let Some(held) = view.take(alloc) else {
        return Refusal::NoView.number();
    };
    *rows = held.extents().count();
    *view = Handle::new(alloc, Some(held));
    DONE
}

/// How many leaves its record has.
#[unsafe(no_mangle)]
pub extern "C" fn lly_leaves(alloc: Global, view: &mut Handle, leaves: &mut usize) -> i32
    ensures answer { result ≡ code_of (on_held leaf_count_told view.old.part.held) }
    ensures value { leaves.new ≡ given_or leaves.old (on_held leaf_count_told view.old.part.held) }
    ensures left { view.new.part.held ≡ view.old.part.held }
{
    let Some(held) = view.take(alloc) else {
        return Refusal::NoView.number();
    };
    *leaves = held.schema().leaf_count();
    *view = Handle::new(alloc, Some(held));
    DONE
}

/// How many blobs it lies in.
#[unsafe(no_mangle)]
pub extern "C" fn lly_blobs(alloc: Global, view: &mut Handle, blobs: &mut usize) -> i32
    ensures answer { result ≡ code_of (on_held blob_count_told view.old.part.held) }
    ensures value { blobs.new ≡ given_or blobs.old (on_held blob_count_told view.old.part.held) }
    ensures left { view.new.part.held ≡ view.old.part.held }
{
    let Some(held) = view.take(alloc) else {
        return Refusal::NoView.number();
    };
    *blobs = blob_count(&held);
    *view = Handle::new(alloc, Some(held));
    DONE
}

/// The row of an index: its place in the lexicographic list of the indices.
#[unsafe(no_mangle)]
pub extern "C" fn lly_row(alloc: Global, view: &mut Handle, index: &[u64], row: &mut u64) -> i32
    ensures empty { view.old.part.held ≡ None → result ≡ pos 1 }
    ensures answers { IfSome view.old.part.held (λ table. (result ≡ pos 0) ⊎ (result ≡ pos 2)) }
    ensures found { result ≡ pos 0 → IfSome view.old.part.held (λ table. slice_get (indices table.extents) row.new ≡ Some index.now) }
    ensures none { result ≡ pos 2 → IfSome view.old.part.held (λ table. Contains (indices table.extents) index.now → ⊥) }
    ensures kept { (result ≡ pos 0 → ⊥) → row.new ≡ row.old }
    ensures left { view.new.part.held ≡ view.old.part.held }
{
    let Some(held) = view.take(alloc) else {
        return Refusal::NoView.number();
    };
    let answer = row_of(&held, index);
    *view = Handle::new(alloc, Some(held));
    match answer {
        Ok(found) => {
            *row = found;
            DONE
        }
        Err(refusal) => refusal.number(),
    }
}

/// The leaf whose path has this text.
#[unsafe(no_mangle)]
pub extern "C" fn lly_leaf(alloc: Global, view: &mut Handle, path: &[u8], leaf: &mut usize) -> i32
    ensures empty { view.old.part.held ≡ None → result ≡ pos 1 }
    ensures answers { IfSome view.old.part.held (λ table. (result ≡ pos 0) ⊎ (result ≡ pos 2)) }
    ensures found { result ≡ pos 0 → IfSome view.old.part.held (λ table. slice_get (texts_of table.fields) leaf.new ≡ Some path.now) }
    ensures none { result ≡ pos 2 → IfSome view.old.part.held (λ table. Contains (texts_of table.fields) path.now → ⊥) }
    ensures kept { (result ≡ pos 0 → ⊥) → leaf.new ≡ leaf.old }
    ensures left { view.new.part.held ≡ view.old.part.held }
{
    let Some(held) = view.take(alloc) else {
        return Refusal::NoView.number();
    };
    let answer = leaf_of(&held, path);
    *view = Handle::new(alloc, Some(held));
    match answer {
        Ok(found) => {
            *leaf = found;
            DONE
        }
        Err(refusal) => refusal.number(),
    }
}
