// Paths and expressions over the leaves of a view.
ghost use Rattle.std.specs.Prelude.{◌≡◌, ◌<◌, ◌⊎◌, IfOk, IfErr, length};
ghost use Rattle.expr_lang.specs.Prelude.{term_of, bound_term};
ghost use Rattle.command_checks.specs.Imports.{schema_fields, IsBoundOver, leaf_count_of, leaf_of, bound, text_of_leaf};
ghost use Rattle.command_checks.specs.Inner.Gives.{Gives};

use crate::fault::StepFault;
use expr_lang::{BindFault, Bound, Expr, bind};
use record_dim::{Path, Text};
use std::alloc::Global;
use views::View;
use worlds::{CommandFault, UnknownName};

/// The number of the leaf that has this path.
pub fn leaf_of(alloc: Global, view: &View, path: &Path) -> Result<usize, StepFault>
    ensures leaf { Gives (λ leaf. leaf) result (leaf_of view.now.fields path.now) }
    ensures inside { IfOk result (λ leaf. leaf < leaf_count_of view.now) }
{
    match view.schema().leaf_of(path) {
        Some(leaf) => Ok(leaf),
        None => Err(unknown_path(path.copy(alloc)?)),
    }
}

/// The refusal of a path that names nothing.
pub(crate) fn unknown_path(path: Path) -> StepFault
    ensures { result ≡ StepFault.Command (CommandFault.Unknown (UnknownName.Path path)) }
{
    StepFault::Command(CommandFault::Unknown(UnknownName::Path(path)))
}

/// The expression over the leaves of a view.
pub fn bound(alloc: Global, view: &View, expr: &Expr) -> Result<Bound, StepFault>
    ensures bound { Gives bound_term result (bound view.now.fields (length view.now.extents) (term_of expr.now)) }
    ensures over { IfOk result (IsBoundOver view.now) }
{
    match bind(alloc, expr, view.schema(), view.extents().rank()) {
        Ok(bound) => Ok(bound),
        Err(BindFault::UnknownPath(path)) => Err(unknown_path(path)),
        Err(BindFault::UnknownIndex(dimension)) => Err(StepFault::Command(CommandFault::Unknown(
            UnknownName::Index(dimension),
        ))),
        Err(BindFault::NoMemory) => Err(StepFault::NoMemory),
    }
}

/// The path text of a leaf; no text where there is no leaf of this number.
pub fn leaf_text(alloc: Global, view: &View, leaf: usize) -> Result<Text, StepFault>
    ensures text { IfOk result (λ text. text ≡ text_of_leaf view.now.fields leaf) }
    ensures starved { IfErr result (λ fault. fault ≡ StepFault.NoMemory) }
{
    let schema = view.schema();
    let mut text = Text::new(alloc);
    if leaf >= schema.leaf_count() {
        return Ok(text);
    }
    text.push_str(schema.path_text(leaf))?;
    Ok(text)
}
