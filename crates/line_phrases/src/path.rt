ghost use Rattle.std.specs.Prelude.{◌≡◌, ◌<◌};
ghost use Rattle.line_phrases.specs.Imports.{length, IfOk, OnOk, IfErr, first, starts, read, part, path, is_same};
ghost use Rattle.line_phrases.specs.Inner.Gives.{Gives, IsSyntax};

use crate::{ReadError, Tokens};
use line_grammar::Count;
use line_tokens::Sign;
use record_dim::{Name, Path, PathStep};
use std::alloc::Global;

/// The path at the front.
#[tactic(auto, unfolding(line_grammar::specs::Language::path), using(crate::specs::PathsLaws::path_steps))]
pub fn read_path(alloc: Global, tokens: &mut Tokens) -> Result<Path, ReadError>
    ensures gives { Gives (λ x. (x, tokens.new)) result (read path tokens.old) }
    ensures shorter { OnOk result (length tokens.new < length tokens.old) }
{
    let name = tokens.item::<Name>()?;
    let mut path = Path::new(alloc, name)?;
    while begins_part(tokens) {
        path.push(read_part(tokens)?)?;
    }
    Ok(path)
}

#[tactic(auto, unfolding(line_grammar::specs::Language::part))]
fn begins_part(tokens: &Tokens) -> bool
    ensures { result ≡ starts (first is_same part) tokens.now }
{
    tokens.begins_sign(Sign::Dot) || tokens.begins_sign(Sign::OpenBracket)
}

#[tactic(auto, unfolding(line_grammar::specs::Language::part))]
fn read_part(tokens: &mut Tokens) -> Result<PathStep, ReadError>
    ensures gives { Gives (λ x. (x, tokens.new)) result (read part tokens.old) }
    ensures shorter { OnOk result (length tokens.new < length tokens.old) }
    ensures fault { IfErr result IsSyntax }
{
    if tokens.begins_sign(Sign::Dot) {
        tokens.sign(Sign::Dot)?;
        let name = tokens.item::<Name>()?;
        return Ok(PathStep::Name(name));
    }
    tokens.sign(Sign::OpenBracket)?;
    let number = tokens.item::<Count>()?;
    tokens.sign(Sign::CloseBracket)?;
    Ok(PathStep::At(number))
}
