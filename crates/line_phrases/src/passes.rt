// The passes that a layout is chosen for.
ghost use Rattle.std.specs.Prelude.{◌≡◌, ◌<◌};
ghost use Rattle.line_phrases.specs.Imports.{length, OnOk, read, pass, passes, path};
ghost use Rattle.line_phrases.specs.Inner.Gives.{Gives};

use crate::lists::{Phrase, read_list};
use crate::{ReadError, Tokens, read_path};
use line_grammar::{Count, PassText, PassTextList};
use record_dim::Path;
use std::alloc::Global;

/// The passes at the front, of which there is one at least.
#[tactic(auto, unfolding(line_grammar::specs::Language::passes), using(crate::specs::PassLaws::pass_steps))]
pub fn read_passes(alloc: Global, tokens: &mut Tokens) -> Result<PassTextList, ReadError>
    ensures { Gives (λ x. (x, tokens.new)) result (read passes tokens.old) }
{
    let mut passes = PassTextList::new(alloc);
    passes.push(read_pass(alloc, tokens)?)?;
    while tokens.begins_word("pass") {
        passes.push(read_pass(alloc, tokens)?)?;
    }
    Ok(passes)
}

#[tactic(auto, unfolding(line_grammar::specs::Language::pass))]
fn read_pass(alloc: Global, tokens: &mut Tokens) -> Result<PassText, ReadError>
    ensures gives { Gives (λ x. (x, tokens.new)) result (read pass tokens.old) }
    ensures shorter { OnOk result (length tokens.new < length tokens.old) }
{
    tokens.word("pass")?;
    let paths = read_list::<Path>(alloc, tokens)?;
    tokens.word("times")?;
    let times = tokens.item::<Count>()?;
    Ok(PassText { paths, times })
}

impl Phrase for Path {
    type Value = Path;

    ghost phrase = { path };

    fn read(alloc: Global, tokens: &mut Tokens) -> Result<Path, ReadError> {
        read_path(alloc, tokens)
    }
}
