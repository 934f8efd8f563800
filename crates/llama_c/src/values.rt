// One value of a view.
ghost use Rattle.std.specs.Prelude.{◌≡◌, pos};
ghost use Rattle.views.specs.Prelude.{after_read, after_write};
ghost use Rattle.c_lines.specs.Prelude.{code_of, given_or, held_after, on_held, got, was_set, reads_signed, reads_unsigned};

use crate::answers::code;
use crate::handle::Handle;
use c_lines::{DONE, Refusal, get, set};
use std::alloc::Global;
use std::marker::Brand;
use std::sync::ledger::Blank;

/// The value of a leaf in a row, where each value of the leaf is an `int64_t`.
#[unsafe(no_mangle)]
pub extern "C" fn lly_get(
    alloc: Global,
    view: &mut Handle,
    row: u64,
    leaf: usize,
    value: &mut i64,
) -> i32
    ensures answer { result ≡ code_of (on_held (got reads_signed row leaf) view.old.part.held) }
    ensures value { value.new ≡ given_or value.old (on_held (got reads_signed row leaf) view.old.part.held) }
    ensures left { view.new.part.held ≡ held_after (got reads_signed row leaf) (λ table. after_read table row leaf) view.old.part.held }
{
    let Some(mut held) = view.take(alloc) else {
        return Refusal::NoView.number();
    };
    let answer = get::<i64, Brand>(&mut held, row, leaf, Blank::new(1));
    *view = Handle::new(alloc, Some(held));
    match answer {
        Ok(given) => {
            *value = given;
            DONE
        }
        Err(refusal) => refusal.number(),
    }
}

/// The same as a `uint64_t`, where each value of the leaf is one.
#[unsafe(no_mangle)]
pub extern "C" fn lly_get_u64(
    alloc: Global,
    view: &mut Handle,
    row: u64,
    leaf: usize,
    value: &mut u64,
) -> i32
    ensures answer { result ≡ code_of (on_held (got reads_unsigned row leaf) view.old.part.held) }
    ensures value { pos value.new ≡ given_or (pos value.old) (on_held (got reads_unsigned row leaf) view.old.part.held) }
    ensures left { view.new.part.held ≡ held_after (got reads_unsigned row leaf) (λ table. after_read table row leaf) view.old.part.held }
{
    let Some(mut held) = view.take(alloc) else {
        return Refusal::NoView.number();
    };
    let answer = get::<u64, Brand>(&mut held, row, leaf, Blank::new(1));
    *view = Handle::new(alloc, Some(held));
    match answer {
        Ok(given) => {
            *value = given;
            DONE
        }
        Err(refusal) => refusal.number(),
    }
}

/// Makes the value of a leaf in a row this one, as the view keeps it.
#[unsafe(no_mangle)]
pub extern "C" fn lly_set(
    alloc: Global,
    view: &mut Handle,
    row: u64,
    leaf: usize,
    value: i64,
) -> i32
    ensures answer { result ≡ code_of (on_held (was_set row leaf value) view.old.part.held) }
    ensures left { view.new.part.held ≡ held_after (was_set row leaf value) (λ table. after_write table row leaf value) view.old.part.held }
{
    let Some(mut held) = view.take(alloc) else {
        return Refusal::NoView.number();
    };
    let answer = set::<Brand>(&mut held, row, leaf, i128::from(value), Blank::new(1));
    *view = Handle::new(alloc, Some(held));
    code(answer)
}

/// The same of a `uint64_t`.
#[unsafe(no_mangle)]
pub extern "C" fn lly_set_u64(
    alloc: Global,
    view: &mut Handle,
    row: u64,
    leaf: usize,
    value: u64,
) -> i32
    ensures answer { result ≡ code_of (on_held (was_set row leaf (pos value)) view.old.part.held) }
    ensures left { view.new.part.held ≡ held_after (was_set row leaf (pos value)) (λ table. after_write table row leaf (pos value)) view.old.part.held }
{
    let Some(mut held) = view.take(alloc) else {
        return Refusal::NoView.number();
    };
    let answer = set::<Brand>(&mut held, row, leaf, i128::from(value), Blank::new(1));
    *view = Handle::new(alloc, Some(held));
    code(answer)
}
