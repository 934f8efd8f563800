ghost use Rattle.std.specs.Prelude.{◌≡◌, ◌<◌};
ghost use Rattle.line_phrases.specs.Imports.{length, IfErr, OnOk, read, constant};
ghost use Rattle.line_phrases.specs.Inner.Gives.{Gives, IsSyntax};

use crate::{ReadError, Tokens};
use line_tokens::Sign;

/// A number with or without a minus.
#[tactic(auto, unfolding(line_grammar::specs::Language::constant))]
pub fn read_const(tokens: &mut Tokens) -> Result<i128, ReadError>
    ensures gives { Gives (λ x. (x, tokens.new)) result (read constant tokens.old) }
    ensures shorter { OnOk result (length tokens.new < length tokens.old) }
    ensures fault { IfErr result IsSyntax }
{
    if tokens.begins_sign(Sign::Minus) {
        tokens.sign(Sign::Minus)?;
        let number = tokens.number()?;
        return Ok(-number);
    }
    tokens.number()
}
