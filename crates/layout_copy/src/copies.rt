// A copy that goes by whole blobs, by runs of slots, or field by field.
ghost use Rattle.std.specs.Prelude.{◌≡◌, ◌+◌, ◌≤◌, ◌↔◌, IsTrue, IsErrOf, length};
ghost use Rattle.layout_copy.specs.Imports.{Strategy, leaf_count_of, after_log};
ghost use Rattle.layout_copy.specs.Copies.{AreAlike, IsCopied, source_log};
ghost use Rattle.layout_copy.specs.Costs.{copy_cost, IsWay};

use crate::fault::CopyFault;
use crate::fieldwise::copy_fields;
use crate::runs::copy_runs;
use crate::ways::way_of;
use map_any::Strategy;
use record_dim::Steps;
use std::sync::ledger::Ledger;
use views::{View, laws_of_table};

/// Makes the table of a view that of another, of each value what the target keeps. `Mismatch` comes exactly where they have other schemas or
/// other extents, and then nothing changes. `Narrow` comes exactly where the target is strict and a value does not fit it, and names the first
/// by rows, then leaves; exactly the rows before it are copied. It goes by whole blobs, by runs of slots, or field by field, as the two
/// expressions say; but field by field where the source keeps low bits, the target is strict, and some leaf is not stored in the sign and the
/// width of its type. In the first two ways it takes a step for each 64 bytes of a blob or run and one for the rest, in the last at most two
/// for each leaf of each row. It takes no memory.
pub fn copy<L: Ledger>(
    source: &mut View,
    target: &mut View,
    steps: &mut Steps<L>,
) -> Result<(), CopyFault>
    ensures copied { IsCopied source.old target.old target.new result }
    ensures source { source.new ≡ after_log source.old (source_log (leaf_count_of source.old) (length source.old.rows) result) }
    ensures steps { (strategy : Strategy) → IsWay source.old target.old strategy
        → steps.new ≤ steps.old + copy_cost strategy source.old.mapping target.old.mapping target.old.fields target.old.extents }
    ensures none { IsErrOf result CopyFault.Mismatch → steps.new ≡ steps.old }
{
    if !are_alike(source, target) {
        return Err(CopyFault::Mismatch);
    }
    laws_of_table(source);
    laws_of_table(target);
    let strategy = way_of(source, target);
    match strategy {
        Strategy::Blobs => target.move_blobs(source, steps),
        Strategy::Runs => copy_runs(source, target, steps),
        Strategy::Fields => return copy_fields(source, target, steps),
    }
    source.touch_all(1, 0);
    target.touch_all(0, 1);
    Ok(())
}

// Whether two views have one schema and the same extents, and so as many rows.
fn are_alike(source: &View, target: &View) -> bool
    ensures value { IsTrue result ↔ AreAlike source.now target.now }
    ensures rows { IsTrue result → length source.now.rows ≡ length target.now.rows }
{
    source.schema().same(target.schema()) && source.extents() == target.extents()
}
