// The line that a text of a call is.
ghost use Rattle.std.specs.Prelude.{◌≡◌, ◌≤◌};
ghost use Rattle.c_lines.specs.Imports.{IfOk, sentence_of, HasItsFields};
ghost use Rattle.c_lines.specs.Answers.{Tells};
ghost use Rattle.c_lines.specs.Lines.{line_answer};

use crate::{Refusal, TextOf};
use line_grammar::{Line, Version};
use schema_lang::{LineFault, MAX_LINE_BYTES, parse_line};
use std::alloc::Global;

/// The line of the second version of the language that a text is.
#[tactic(auto, unfolding(crate::specs::Lines::line_answer))]
pub fn line_of(alloc: Global, text: &[u8], which: TextOf) -> Result<Line, Refusal>
    ensures told { Tells sentence_of (line_answer which text.now) result }
    ensures whole { IfOk result HasItsFields }
{
    if text.len() > MAX_LINE_BYTES {
        return Err(Refusal::LineTooLong(which));
    }
    match parse_line(alloc, text, Version::Two) {
        Ok(line) => Ok(line),
        Err(LineFault::Syntax { column }) => Err(Refusal::Syntax {
            text: which,
            column,
        }),
        Err(LineFault::TooDeep) => Err(Refusal::TooDeep(which)),
        Err(LineFault::NoMemory) => Err(Refusal::NoMemory),
    }
}
