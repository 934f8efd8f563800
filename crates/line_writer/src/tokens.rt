// Tokens and short phrases at the end of a text, each token behind a space.
ghost use Rattle.std.specs.Prelude.{◌≡◌, ◌++◌, ◌∷◌, [], OnOk, codes};
ghost use Rattle.line_writer.specs.Imports.{decimal, byte};
ghost use Rattle.line_writer.specs.Canonical.{number_tokens, bracketed_count, step_tokens, path_tokens};
ghost use Rattle.line_writer.specs.Texts.{with_tokens_behind};

use itoa::Buffer;
use record_dim::{Path, PathStep, Text};
use std::alloc::AllocError as NoMemory;

pub(crate) fn push(text: &mut Text, token: &str) -> Result<(), NoMemory>
    ensures { OnOk result (text.new ≡ text.old ++ byte " " ∷ token.now) }
{
    text.push_str(" ")?;
    text.push_str(token)
}

pub(crate) fn push_count(text: &mut Text, count: u32) -> Result<(), NoMemory>
    ensures { OnOk result (text.new ≡ text.old ++ byte " " ∷ decimal count) }
{
    push(text, Buffer::new().format(count))
}

pub(crate) fn push_number(text: &mut Text, number: i128) -> Result<(), NoMemory>
    ensures { OnOk result (text.new ≡ with_tokens_behind text.old (number_tokens number)) }
{
    if number < 0 {
        push(text, "-")?;
    }
    push(text, Buffer::new().format(number.unsigned_abs()))
}

// The word of the index in a dimension.
pub(crate) fn push_index(text: &mut Text, dimension: u32) -> Result<(), NoMemory>
    ensures { OnOk result (text.new ≡ text.old ++ byte " " ∷ (codes "i" ++ decimal dimension)) }
{
    push(text, "i")?;
    text.push_str(Buffer::new().format(dimension))
}

pub(crate) fn write_bracketed(text: &mut Text, count: u32) -> Result<(), NoMemory>
    ensures { OnOk result (text.new ≡ with_tokens_behind text.old (bracketed_count count)) }
{
    push(text, "[")?;
    push_count(text, count)?;
    push(text, "]")
}

#[tactic(auto, using(crate::proofs::Behind::behind_append))]
pub(crate) fn write_path(text: &mut Text, path: &Path) -> Result<(), NoMemory>
    ensures { OnOk result (text.new ≡ with_tokens_behind text.old (path_tokens path.now)) }
{
    let [PathStep::Name(first), steps @ ..] = path.as_slice() else {
        unreachable!()
    };
    push(text, first.as_str())?;
    for step in steps {
        write_step(text, step)?;
    }
    Ok(())
}

fn write_step(text: &mut Text, step: &PathStep) -> Result<(), NoMemory>
    ensures { OnOk result (text.new ≡ with_tokens_behind text.old (step_tokens step.now)) }
{
    match step {
        PathStep::Name(name) => {
            push(text, ".")?;
            push(text, name.as_str())
        }
        PathStep::At(number) => write_bracketed(text, *number),
    }
}
