// Calls on whole tables.
ghost use Rattle.std.specs.Prelude.{◌≡◌};
ghost use Rattle.c_lines.specs.Prelude.{code_of, after_return, returned, fault_left, after_relaid, relaid, done_of};
ghost use Rattle.llama_c.specs.Calls.{copy_told, source_left, target_left, IsCallDone};

use crate::answers::{refused, told};
use crate::handle::Handle;
use c_lines::{Fault, Refusal, copy_into, give_back, lay_anew};
use std::alloc::Global;
use std::marker::Brand;
use std::sync::ledger::Blank;

/// Makes the table of a view that of another with the same record and the same extents, as the target keeps its values. A strict target that
/// does not hold a value has the rows before it; the fault names the row and the leaf of that value.
#[unsafe(no_mangle)]
pub extern "C" fn lly_copy(
    alloc: Global,
    source: &mut Handle,
    target: &mut Handle,
    fault: &mut Fault,
) -> i32
    ensures answer { result ≡ code_of (copy_told source.old.part.held target.old.part.held) }
    ensures fault { fault.new ≡ fault_left fault.old (copy_told source.old.part.held target.old.part.held) }
    ensures source { source.new.part.held ≡ source_left source.old.part.held target.old.part.held }
    ensures target { target.new.part.held ≡ target_left source.old.part.held target.old.part.held }
{
    let Some(mut from) = source.take(alloc) else {
        return refused(Refusal::NoView, fault);
    };
    let Some(mut to) = target.take(alloc) else {
        *source = Handle::new(alloc, Some(from));
        return refused(Refusal::NoView, fault);
    };
    let answer = copy_into::<Brand>(&mut from, &mut to, Blank::new(1));
    *source = Handle::new(alloc, Some(from));
    *target = Handle::new(alloc, Some(to));
    told(answer, fault)
}

/// Lays the table of a view out as a `relayout` line says. On a refusal the old view stays.
#[unsafe(no_mangle)]
pub extern "C" fn lly_relayout(
    alloc: Global,
    view: &mut Handle,
    line: &[u8],
    fault: &mut Fault,
) -> i32
    ensures { IsCallDone (λ table. done_of (relaid line.now table)) (after_relaid line.now)
        view.old.part.held view.new.part.held result fault.old fault.new }
{
    let Some(mut held) = view.take(alloc) else {
        return refused(Refusal::NoView, fault);
    };
    let answer = lay_anew::<Brand>(alloc, &mut held, line, Blank::new(1));
    *view = Handle::new(alloc, Some(held));
    told(answer, fault)
}

/// Makes the table of a view the one of whose blobs these are the bytes, one behind another. On a refusal the old one stays.
#[unsafe(no_mangle)]
pub extern "C" fn lly_return(
    alloc: Global,
    view: &mut Handle,
    bytes: &[u8],
    fault: &mut Fault,
) -> i32
    ensures { IsCallDone (λ table. done_of (returned bytes.now table)) (after_return bytes.now)
        view.old.part.held view.new.part.held result fault.old fault.new }
{
    let Some(mut held) = view.take(alloc) else {
        return refused(Refusal::NoView, fault);
    };
    let answer = give_back::<Brand>(alloc, &mut held, bytes, Blank::new(1));
    *view = Handle::new(alloc, Some(held));
    told(answer, fault)
}
