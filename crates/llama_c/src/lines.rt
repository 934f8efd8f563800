// Calls that take one line of the language.
ghost use Rattle.std.specs.Prelude.{◌≡◌};
ghost use Rattle.c_lines.specs.Prelude.{code_of, is_do, is_kernel, fault_left};
ghost use Rattle.llama_c.specs.Calls.{IsLineDone, IsLineTold, number_or};

use crate::answers::{refused, told};
use crate::handle::Handle;
use c_lines::{DONE, Fault, Refusal, do_line, in_64, run_kernel, tell_line};
use std::alloc::Global;
use std::marker::Brand;
use std::sync::ledger::Blank;

/// Does a line that sets a value, updates, reduces, runs a kernel or a stencil, or lays out anew, and gives its number, if it gives one.
#[unsafe(no_mangle)]
pub extern "C" fn lly_do(
    alloc: Global,
    view: &mut Handle,
    line: &[u8],
    value: &mut i64,
    fault: &mut Fault,
) -> i32
    ensures { IsLineDone is_do line.now view.old.part.held view.new.part.held result value.old value.new fault.old fault.new }
{
    let Some(mut held) = view.take(alloc) else {
        return refused(Refusal::NoView, fault);
    };
    let answer = do_line::<Brand>(alloc, &mut held, line, Blank::new(1));
    *view = Handle::new(alloc, Some(held));
    give(in_64(answer), value, fault)
}

/// Runs the kernel of a `kernel` line over the rows of a view, and gives its number, if it gives one.
#[unsafe(no_mangle)]
pub extern "C" fn lly_kernel(
    alloc: Global,
    view: &mut Handle,
    line: &[u8],
    value: &mut i64,
    fault: &mut Fault,
) -> i32
    ensures { IsLineDone is_kernel line.now view.old.part.held view.new.part.held result value.old value.new fault.old fault.new }
{
    let Some(mut held) = view.take(alloc) else {
        return refused(Refusal::NoView, fault);
    };
    let answer = run_kernel::<Brand>(alloc, &mut held, line, Blank::new(1));
    *view = Handle::new(alloc, Some(held));
    give(in_64(answer), value, fault)
}

// A number that a caller asked for, where there is one.
fn give(answer: Result<Option<i64>, Refusal>, value: &mut i64, fault: &mut Fault) -> i32
    ensures code { result ≡ code_of answer }
    ensures value { value.new ≡ number_or value.old answer }
    ensures fault { fault.new ≡ fault_left fault.old answer }
{
    match answer {
        Ok(Some(number)) => {
            *value = number;
            DONE
        }
        Ok(None) => DONE,
        Err(refusal) => refused(refusal, fault),
    }
}

/// The text that a line shows of a view.
#[unsafe(no_mangle)]
pub extern "C" fn lly_tell(
    alloc: Global,
    view: &mut Handle,
    line: &[u8],
    text: &mut [u8],
    needed: &mut usize,
    fault: &mut Fault,
) -> i32
    ensures { IsLineTold line.now view.old.part.held view.new.part.held result text.old text.new needed.old needed.new fault.old fault.new }
{
    let Some(mut held) = view.take(alloc) else {
        return refused(Refusal::NoView, fault);
    };
    let answer = tell_line::<Brand>(alloc, &mut held, line, text, needed, Blank::new(1));
    *view = Handle::new(alloc, Some(held));
    told(answer, fault)
}
