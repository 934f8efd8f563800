// Lines that the second version has, and what it shows of a view.
ghost use Rattle.std.specs.Prelude.{◌≡◌};
ghost use Rattle.schema_lang.specs.Imports.{sentence_of, may_have_window, read, body, Gives};
ghost use Rattle.line_grammar.specs.declared.line.Command.TheVariants as command;
ghost use Rattle.schema_lang.specs.Inner.Bodies.{common_body};

use crate::bodies::read_flag;
use line_grammar::{Count, Line, ShowKind, Version};
use line_phrases::{ReadError, Tokens, read_maps, read_passes, read_path, read_terms, read_window};
use line_tokens::Sign;
use record_dim::Name;
use std::alloc::Global;

#[tactic(auto, unfolding(line_grammar::specs::Language::body, line_grammar::specs::Language::show_end, line_grammar::specs::Language::window))]
pub(crate) fn read_show(
    alloc: Global,
    version: Version,
    kind: ShowKind,
    tokens: &mut Tokens,
) -> Result<Line, ReadError>
    ensures { Gives (λ x. (sentence_of x, tokens.new)) result (read (body version (command.Show kind)) tokens.old) }
{
    let view = tokens.item::<Name>()?;
    if !may_have_window(version, kind) || !tokens.begins_word("window") {
        return Ok(Line::show(kind, view));
    }
    let window = read_window(alloc, tokens)?;
    Ok(Line::PrintWindow { view, window })
}

// Whether a window may stand behind what is shown.
fn may_have_window(version: Version, kind: ShowKind) -> bool
    ensures { result ≡ may_have_window version kind }
{
    matches!((version, kind), (Version::Two, ShowKind::Print))
}

#[tactic(auto, unfolding(line_grammar::specs::Language::body))]
pub(crate) fn read_advise(
    alloc: Global,
    version: Version,
    tokens: &mut Tokens,
) -> Result<Line, ReadError>
    ensures { Gives (λ x. (sentence_of x, tokens.new)) result (read (body version command.Advise) tokens.old) }
{
    let view = tokens.item::<Name>()?;
    tokens.word("granule")?;
    let granule = tokens.item::<Count>()?;
    let passes = read_passes(alloc, tokens)?;
    tokens.word("among")?;
    let maps = read_maps(alloc, version, tokens)?;
    let splits = read_flag("splits", tokens)?;
    Ok(Line::Advise {
        view,
        granule,
        passes,
        maps,
        splits,
    })
}

#[tactic(auto, unfolding(line_grammar::specs::Language::body))]
pub(crate) fn read_stencil(alloc: Global, tokens: &mut Tokens) -> Result<Line, ReadError>
    ensures { Gives (λ x. (sentence_of x, tokens.new)) result (read (common_body command.Stencil) tokens.old) }
{
    let view = tokens.item::<Name>()?;
    let window = read_window(alloc, tokens)?;
    tokens.word("set")?;
    let path = read_path(alloc, tokens)?;
    tokens.sign(Sign::Equals)?;
    let terms = read_terms(alloc, tokens)?;
    tokens.sign(Sign::Slash)?;
    let divisor = tokens.item::<Count>()?;
    tokens.word("rounds")?;
    let rounds = tokens.item::<Count>()?;
    Ok(Line::Stencil {
        view,
        window,
        path,
        terms,
        divisor,
        rounds,
    })
}
