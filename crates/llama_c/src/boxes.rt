// One leaf of the rows of a box.
ghost use Rattle.std.specs.Prelude.{◌≡◌, pos, length, map, option_map};
ghost use Rattle.c_lines.specs.Prelude.{code_of, given_or, held_after, on_held, after_box, on_box, after_gather, after_scatter, gathered, put_there, was_scattered, fault_left, reads_signed, reads_unsigned};

use crate::answers::{code, refused, told};
use crate::handle::Handle;
use c_lines::{Fault, Refusal, get_box, set_box};
use std::alloc::Global;
use std::marker::Brand;
use std::sync::ledger::Blank;

/// The values of a leaf in the rows of a box, where each value of the leaf is an `int64_t`: as many as the box has rows. The box has the rows whose index
/// is, in each of its components, the low bound or above it and below the high one.
#[unsafe(no_mangle)]
pub extern "C" fn lly_get_box(
    alloc: Global,
    view: &mut Handle,
    low: &[u64],
    high: &[u64],
    leaf: usize,
    values: &mut [i64],
) -> i32
    ensures answer { result ≡ code_of (on_held (on_box low.now high.now (λ rows. gathered reads_signed rows (length values.old) leaf)) view.old.part.held) }
    ensures values { values.new ≡ given_or values.old (on_held (on_box low.now high.now (λ rows. gathered reads_signed rows (length values.old) leaf)) view.old.part.held) }
    ensures left { view.new.part.held ≡ held_after (on_box low.now high.now (λ rows. gathered reads_signed rows (length values.old) leaf)) (after_box low.now high.now (λ rows. after_gather rows leaf)) view.old.part.held }
{
    let Some(mut held) = view.take(alloc) else {
        return Refusal::NoView.number();
    };
    let answer = get_box::<i64, Brand>(&mut held, low, high, leaf, values, Blank::new(1));
    *view = Handle::new(alloc, Some(held));
    code(answer)
}

/// The same as `uint64_t`s, where each value of the leaf is one.
#[unsafe(no_mangle)]
pub extern "C" fn lly_get_box_u64(
    alloc: Global,
    view: &mut Handle,
    low: &[u64],
    high: &[u64],
    leaf: usize,
    values: &mut [u64],
) -> i32
    ensures answer { result ≡ code_of (on_held (on_box low.now high.now (λ rows. gathered reads_unsigned rows (length values.old) leaf)) view.old.part.held) }
    ensures values { map (λ n. pos n) values.new ≡ given_or (map (λ n. pos n) values.old) (on_held (on_box low.now high.now (λ rows. gathered reads_unsigned rows (length values.old) leaf)) view.old.part.held) }
    ensures left { view.new.part.held ≡ held_after (on_box low.now high.now (λ rows. gathered reads_unsigned rows (length values.old) leaf)) (after_box low.now high.now (λ rows. after_gather rows leaf)) view.old.part.held }
{
    let Some(mut held) = view.take(alloc) else {
        return Refusal::NoView.number();
    };
    let answer = get_box::<u64, Brand>(&mut held, low, high, leaf, values, Blank::new(1));
    *view = Handle::new(alloc, Some(held));
    code(answer)
}

/// Makes the value of a leaf in each row of a box that of the array in its place, one after another, as the view keeps them. A value that it does not
/// take leaves those before it stored; the fault names its row and its leaf.
#[unsafe(no_mangle)]
pub extern "C" fn lly_set_box(
    alloc: Global,
    view: &mut Handle,
    low: &[u64],
    high: &[u64],
    leaf: usize,
    values: &[i64],
    fault: &mut Fault,
) -> i32
    ensures answer { result ≡ code_of (on_held (on_box low.now high.now (λ rows. was_scattered put_there rows leaf values.now)) view.old.part.held) }
    ensures fault { fault.new ≡ fault_left fault.old (on_held (on_box low.now high.now (λ rows. was_scattered put_there rows leaf values.now)) view.old.part.held) }
    ensures left { view.new.part.held ≡ option_map (after_box low.now high.now (λ rows. after_scatter put_there rows leaf values.now)) view.old.part.held }
{
    let Some(mut held) = view.take(alloc) else {
        return refused(Refusal::NoView, fault);
    };
    let answer = set_box::<i64, Brand>(&mut held, low, high, leaf, values, Blank::new(1));
    *view = Handle::new(alloc, Some(held));
    told(answer, fault)
}

/// The same of `uint64_t`s.
#[unsafe(no_mangle)]
pub extern "C" fn lly_set_box_u64(
    alloc: Global,
    view: &mut Handle,
    low: &[u64],
    high: &[u64],
    leaf: usize,
    values: &[u64],
    fault: &mut Fault,
) -> i32
    ensures answer { result ≡ code_of (on_held (on_box low.now high.now (λ rows. was_scattered put_there rows leaf (map (λ n. pos n) values.now))) view.old.part.held) }
    ensures fault { fault.new ≡ fault_left fault.old (on_held (on_box low.now high.now (λ rows. was_scattered put_there rows leaf (map (λ n. pos n) values.now))) view.old.part.held) }
    ensures left { view.new.part.held ≡ option_map (after_box low.now high.now (λ rows. after_scatter put_there rows leaf (map (λ n. pos n) values.now))) view.old.part.held }
{
    let Some(mut held) = view.take(alloc) else {
        return refused(Refusal::NoView, fault);
    };
    let answer = set_box::<u64, Brand>(&mut held, low, high, leaf, values, Blank::new(1));
    *view = Handle::new(alloc, Some(held));
    told(answer, fault)
}
