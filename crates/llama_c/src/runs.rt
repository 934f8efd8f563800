// One leaf of rows one after another.
ghost use Rattle.std.specs.Prelude.{◌≡◌, pos, length, map, option_map};
ghost use Rattle.c_lines.specs.Prelude.{code_of, given_or, held_after, on_held, fault_left, after_run_as, after_set_run_as, got_run_as, was_set_run_as, after_run, after_set_run, got_run, was_set_run, reads_signed, reads_unsigned};

use crate::answers::{code, refused, told};
use crate::handle::Handle;
use c_lines::{Fault, Refusal, get_run, get_run_as, set_run, set_run_as};
use std::alloc::Global;
use std::marker::Brand;
use std::sync::ledger::Blank;

/// The values of a leaf in as many rows as the array is long, from one row on, where each value of the leaf is an `int64_t`.
#[unsafe(no_mangle)]
pub extern "C" fn lly_get_run(
    alloc: Global,
    view: &mut Handle,
    first: u64,
    leaf: usize,
    values: &mut [i64],
) -> i32
    ensures answer { result ≡ code_of (on_held (got_run reads_signed first (length values.old) leaf) view.old.part.held) }
    ensures values { values.new ≡ given_or values.old (on_held (got_run reads_signed first (length values.old) leaf) view.old.part.held) }
    ensures left { view.new.part.held ≡ held_after (got_run reads_signed first (length values.old) leaf) (after_run first (length values.old) leaf) view.old.part.held }
{
    let Some(mut held) = view.take(alloc) else {
        return Refusal::NoView.number();
    };
    let answer = get_run::<i64, Brand>(&mut held, first, leaf, values, Blank::new(1));
    *view = Handle::new(alloc, Some(held));
    code(answer)
}

/// The same as `uint64_t`s, where each value of the leaf is one.
#[unsafe(no_mangle)]
pub extern "C" fn lly_get_run_u64(
    alloc: Global,
    view: &mut Handle,
    first: u64,
    leaf: usize,
    values: &mut [u64],
) -> i32
    ensures answer { result ≡ code_of (on_held (got_run reads_unsigned first (length values.old) leaf) view.old.part.held) }
    ensures values { map (λ n. pos n) values.new ≡ given_or (map (λ n. pos n) values.old) (on_held (got_run reads_unsigned first (length values.old) leaf) view.old.part.held) }
    ensures left { view.new.part.held ≡ held_after (got_run reads_unsigned first (length values.old) leaf) (after_run first (length values.old) leaf) view.old.part.held }
{
    let Some(mut held) = view.take(alloc) else {
        return Refusal::NoView.number();
    };
    let answer = get_run::<u64, Brand>(&mut held, first, leaf, values, Blank::new(1));
    *view = Handle::new(alloc, Some(held));
    code(answer)
}

/// Makes the values of a leaf in as many rows as the array is long these, from one row on, as the view keeps them. A value that it does not take
/// leaves those before it stored; the fault names its row and its leaf.
#[unsafe(no_mangle)]
pub extern "C" fn lly_set_run(
    alloc: Global,
    view: &mut Handle,
    first: u64,
    leaf: usize,
    values: &[i64],
    fault: &mut Fault,
) -> i32
    ensures answer { result ≡ code_of (on_held (was_set_run first leaf values.now) view.old.part.held) }
    ensures fault { fault.new ≡ fault_left fault.old (on_held (was_set_run first leaf values.now) view.old.part.held) }
    ensures left { view.new.part.held ≡ option_map (after_set_run first leaf values.now) view.old.part.held }
{
    let Some(mut held) = view.take(alloc) else {
        return refused(Refusal::NoView, fault);
    };
    let answer = set_run::<i64, Brand>(&mut held, first, leaf, values, Blank::new(1));
    *view = Handle::new(alloc, Some(held));
    told(answer, fault)
}

/// The same of `uint64_t`s.
#[unsafe(no_mangle)]
pub extern "C" fn lly_set_run_u64(
    alloc: Global,
    view: &mut Handle,
    first: u64,
    leaf: usize,
    values: &[u64],
    fault: &mut Fault,
) -> i32
    ensures answer { result ≡ code_of (on_held (was_set_run first leaf (map (λ n. pos n) values.now)) view.old.part.held) }
    ensures fault { fault.new ≡ fault_left fault.old (on_held (was_set_run first leaf (map (λ n. pos n) values.now)) view.old.part.held) }
    ensures left { view.new.part.held ≡ option_map (after_set_run first leaf (map (λ n. pos n) values.now)) view.old.part.held }
{
    let Some(mut held) = view.take(alloc) else {
        return refused(Refusal::NoView, fault);
    };
    let answer = set_run::<u64, Brand>(&mut held, first, leaf, values, Blank::new(1));
    *view = Handle::new(alloc, Some(held));
    told(answer, fault)
}

/// The values of a leaf in as many rows as numbers of so many bits fill the bytes, from one row on, where each value of the leaf is such a number.
#[unsafe(no_mangle)]
pub extern "C" fn lly_get_run_as(
    alloc: Global,
    view: &mut Handle,
    first: u64,
    leaf: usize,
    bits: u32,
    sign: bool,
    bytes: &mut [u8],
) -> i32
    ensures answer { result ≡ code_of (on_held (got_run_as bits sign first (length bytes.old) leaf) view.old.part.held) }
    ensures bytes { bytes.new ≡ given_or bytes.old (on_held (got_run_as bits sign first (length bytes.old) leaf) view.old.part.held) }
    ensures left { view.new.part.held ≡ held_after (got_run_as bits sign first (length bytes.old) leaf) (after_run_as bits first (length bytes.old) leaf) view.old.part.held }
{
    let Some(mut held) = view.take(alloc) else {
        return Refusal::NoView.number();
    };
    let answer = get_run_as::<Brand>(&mut held, first, leaf, bits, sign, bytes, Blank::new(1));
    *view = Handle::new(alloc, Some(held));
    code(answer)
}

/// Makes the values of a leaf in as many rows as numbers of so many bits fill the bytes these numbers, from one row on, as the view keeps them. A
/// value that it does not take leaves those before it stored; the fault names its row and its leaf.
#[unsafe(no_mangle)]
pub extern "C" fn lly_set_run_as(
    alloc: Global,
    view: &mut Handle,
    first: u64,
    leaf: usize,
    bits: u32,
    sign: bool,
    bytes: &[u8],
    fault: &mut Fault,
) -> i32
    ensures answer { result ≡ code_of (on_held (was_set_run_as bits sign first bytes.now leaf) view.old.part.held) }
    ensures fault { fault.new ≡ fault_left fault.old (on_held (was_set_run_as bits sign first bytes.now leaf) view.old.part.held) }
    ensures left { view.new.part.held ≡ option_map (after_set_run_as bits sign first bytes.now leaf) view.old.part.held }
{
    let Some(mut held) = view.take(alloc) else {
        return refused(Refusal::NoView, fault);
    };
    let answer = set_run_as::<Brand>(&mut held, first, leaf, bits, sign, bytes, Blank::new(1));
    *view = Handle::new(alloc, Some(held));
    told(answer, fault)
}
