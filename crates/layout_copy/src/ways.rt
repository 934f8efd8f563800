// By which way a table is copied into another.
ghost use Rattle.std.specs.Prelude.{ℕ, ◌≡◌, ◌<◌, ◌↔◌, IsTrue, length};
ghost use Rattle.layout_copy.specs.Imports.{hold_at, IsOwn, kind_at, leaf_types_of, table_holds};
ghost use Rattle.layout_copy.specs.Costs.{MayMoveTo, IsWay};

use map_any::{AnyMap, Strategy};
use places::{Hold, Mapping};
use views::{StoreMode, View};

/// By which way the table of a view is copied into another one: by the way of their expressions, but field by field where the source keeps
/// low bits, the target is strict, and some leaf is not stored in the sign and the width of its type. It takes no memory.
pub(crate) fn way_of(source: &View, target: &View) -> Strategy
    ensures { IsWay source.now target.now result }
{
    if !may_move(source, target) {
        return Strategy::Fields;
    }
    AnyMap::strategy(source.map(), target.map())
}

// Whether the blobs of a view may hold what those of another with the same leaves hold.
fn may_move(source: &View, target: &View) -> bool
    ensures { IsTrue result ↔ MayMoveTo source.now target.now }
{
    source.mode() == StoreMode::Strict || target.mode() == StoreMode::Wrap || has_own_holds(target)
}

// Whether each leaf is stored in the sign and the width of its type.
fn has_own_holds(view: &View) -> bool
    ensures { IsTrue result ↔ ((leaf : ℕ) → leaf < length (leaf_types_of view.now)
        → IsOwn (kind_at (leaf_types_of view.now) leaf) (hold_at (table_holds view.now) leaf)) }
{
    let schema = view.schema();
    let map = view.map();
    for leaf in 0..schema.leaf_count() {
        if map.hold(leaf) != Hold::of(schema.leaf_type(leaf)) {
            return false;
        }
    }
    true
}
