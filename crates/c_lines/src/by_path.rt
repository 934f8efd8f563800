// Leaves by their paths.
ghost use Rattle.std.specs.Prelude.{◌≡◌};
ghost use Rattle.c_lines.specs.Imports.{IfOk, IfErr, Some, Contains, slice_get, texts_of};
ghost use Rattle.c_lines.specs.declared.refusal.Refusal.TheVariants.{NoPlace};

use crate::refusal::Refusal;
use views::View;

/// The leaf whose path has this text, as `pos.x` and `h[2]`, or `NoPlace` where there is none.
pub fn leaf_of(view: &View, path: &[u8]) -> Result<usize, Refusal>
    ensures found { IfOk result (λ leaf. slice_get (texts_of view.now.fields) leaf ≡ Some path.now) }
    ensures none { IfErr result (λ refusal. (refusal ≡ NoPlace) × (Contains (texts_of view.now.fields) path.now → ⊥)) }
{
    let schema = view.schema();
    for leaf in 0..schema.leaf_count() {
        if schema.path_text(leaf).as_bytes() == path {
            return Ok(leaf);
        }
    }
    Err(Refusal::NoPlace)
}
