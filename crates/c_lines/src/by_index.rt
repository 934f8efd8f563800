// Rows by their indices.
ghost use Rattle.std.specs.Prelude.{◌≡◌};
ghost use Rattle.c_lines.specs.Imports.{IfOk, IfErr, Some, Contains, slice_get, indices};
ghost use Rattle.c_lines.specs.declared.refusal.Refusal.TheVariants.{NoPlace};

use crate::refusal::Refusal;
use views::View;

/// The row of an index, or `NoPlace` where there is none.
pub fn row_of(view: &View, index: &[u64]) -> Result<u64, Refusal>
    ensures found { IfOk result (λ row. slice_get (indices view.now.extents) row ≡ Some index.now) }
    ensures none { IfErr result (λ refusal. (refusal ≡ NoPlace) × (Contains (indices view.now.extents) index.now → ⊥)) }
{
    let extents = view.extents();
    if extents.holds(index) {
        Ok(extents.row_of(index))
    } else {
        Err(Refusal::NoPlace)
    }
}
