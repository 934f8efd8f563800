// The words of answers.
ghost use Rattle.c_lines.specs.Prelude.{message_told};
ghost use Rattle.llama_c.specs.Calls.{IsPutInto};

use crate::answers::code;
use c_lines::{Fault, put_message};
use std::alloc::Global;

/// What an answer and its fault are called, as a script prints it where it has words for it.
#[unsafe(no_mangle)]
pub extern "C" fn lly_message(
    alloc: Global,
    answer: i32,
    fault: &Fault,
    text: &mut [u8],
    needed: &mut usize,
) -> i32
    ensures { IsPutInto (message_told answer fault.now) result text.old text.new needed.old needed.new }
{
    code(put_message(alloc, answer, fault, text, needed))
}
