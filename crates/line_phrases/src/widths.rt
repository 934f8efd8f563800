ghost use Rattle.std.specs.Prelude.{◌≡◌, ◌≤◌};
ghost use Rattle.line_phrases.specs.Imports.{length, OnOk, read, field_width, field_widths};
ghost use Rattle.line_phrases.specs.Inner.Gives.{Gives};

use crate::lists::{Phrase, read_list};
use crate::{ReadError, Tokens, read_path};
use line_grammar::{Count, Version};
use line_tokens::Sign;
use map_expr::{FieldWidth, WidthList};
use std::alloc::Global;

/// The widths of chosen leaves at the front, in braces. There are none in the first version of the language, nor where no brace
/// is next.
#[tactic(auto, unfolding(line_grammar::specs::Language::field_widths, line_grammar::specs::Language::braced_widths))]
pub(crate) fn read_field_widths(
    alloc: Global,
    version: Version,
    tokens: &mut Tokens,
) -> Result<WidthList, ReadError>
    ensures gives { Gives (λ x. (x, tokens.new)) result (read (field_widths version) tokens.old) }
    ensures no_longer { OnOk result (length tokens.new ≤ length tokens.old) }
{
    if !version.is_two() || !tokens.begins_sign(Sign::OpenBrace) {
        return Ok(WidthList::new(alloc));
    }
    tokens.sign(Sign::OpenBrace)?;
    let fields = read_list::<FieldWidth>(alloc, tokens)?;
    tokens.sign(Sign::CloseBrace)?;
    Ok(fields)
}

impl Phrase for FieldWidth {
    type Value = FieldWidth;

    ghost phrase = { field_width };

    #[tactic(auto, unfolding(line_grammar::specs::Language::field_width))]
    fn read(alloc: Global, tokens: &mut Tokens) -> Result<FieldWidth, ReadError> {
        let path = read_path(alloc, tokens)?;
        tokens.sign(Sign::Colon)?;
        let width = tokens.item::<Count>()?;
        Ok(FieldWidth { path, width })
    }
}
