ghost use Rattle.std.specs.Prelude.{◌≡◌};
ghost use Rattle.schema_lang.specs.Imports.{Axpy, Clamp, CountWhere, read, inside_kernel, kernel_text, Gives};

use line_grammar::{Comparison, KernelText, KernelWord};
use line_phrases::{ReadError, Tokens, read_const, read_path};
use line_tokens::Sign;
use std::alloc::Global;

// A kernel with its leaves and numbers.
#[tactic(auto, unfolding(line_grammar::specs::Language::kernel_text))]
pub(crate) fn read_kernel(alloc: Global, tokens: &mut Tokens) -> Result<KernelText, ReadError>
    ensures gives { Gives (λ x. (x, tokens.new)) result (read kernel_text tokens.old) }
{
    let word = tokens.item::<KernelWord>()?;
    tokens.sign(Sign::OpenParen)?;
    let kernel = read_inside(alloc, word, tokens)?;
    tokens.sign(Sign::CloseParen)?;
    Ok(kernel)
}

#[tactic(auto, unfolding(line_grammar::specs::Language::inside_kernel))]
fn read_inside(
    alloc: Global,
    word: KernelWord,
    tokens: &mut Tokens,
) -> Result<KernelText, ReadError>
    ensures gives { Gives (λ x. (x, tokens.new)) result (read (inside_kernel word) tokens.old) }
{
    match word {
        KernelWord::Axpy => read_axpy(alloc, tokens),
        KernelWord::Clamp => read_clamp(alloc, tokens),
        KernelWord::Sum => Ok(KernelText::Sum(read_path(alloc, tokens)?)),
        KernelWord::Least => Ok(KernelText::Least(read_path(alloc, tokens)?)),
        KernelWord::Greatest => Ok(KernelText::Greatest(read_path(alloc, tokens)?)),
        KernelWord::CountWhere => read_count_where(alloc, tokens),
    }
}

#[tactic(auto, unfolding(line_grammar::specs::Language::inside_kernel))]
fn read_axpy(alloc: Global, tokens: &mut Tokens) -> Result<KernelText, ReadError>
    ensures gives { Gives (λ x. (x, tokens.new)) result (read (inside_kernel Axpy) tokens.old) }
{
    let a = read_const(tokens)?;
    tokens.sign(Sign::Comma)?;
    let x = read_path(alloc, tokens)?;
    tokens.sign(Sign::Comma)?;
    let y = read_path(alloc, tokens)?;
    Ok(KernelText::Axpy { a, x, y })
}

#[tactic(auto, unfolding(line_grammar::specs::Language::inside_kernel))]
fn read_clamp(alloc: Global, tokens: &mut Tokens) -> Result<KernelText, ReadError>
    ensures gives { Gives (λ x. (x, tokens.new)) result (read (inside_kernel Clamp) tokens.old) }
{
    let x = read_path(alloc, tokens)?;
    tokens.sign(Sign::Comma)?;
    let lo = read_const(tokens)?;
    tokens.sign(Sign::Comma)?;
    let hi = read_const(tokens)?;
    Ok(KernelText::Clamp { x, lo, hi })
}

#[tactic(auto, unfolding(line_grammar::specs::Language::inside_kernel))]
fn read_count_where(alloc: Global, tokens: &mut Tokens) -> Result<KernelText, ReadError>
    ensures gives { Gives (λ x. (x, tokens.new)) result (read (inside_kernel CountWhere) tokens.old) }
{
    let x = read_path(alloc, tokens)?;
    let op = tokens.item::<Comparison>()?;
    let c = read_const(tokens)?;
    Ok(KernelText::CountWhere { x, op, c })
}
