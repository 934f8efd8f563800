ghost use Rattle.map_any.specs.Maps.{term_of_map};
ghost use Rattle.map_any.specs.Strategies.{IsStrategy};

use crate::any::AnyMap;
use crate::arrays::array_in;

/// How the table of one mapping is copied into that of another, over the same leaves and rows.
#[derive(Clone, Copy, Debug, PartialEq, Eq)]
pub enum Strategy {
    /// Blob by blob: both are of one expression, counters at its top left out.
    Blobs,
    /// By runs of slots of a leaf: both are arrays of leaves, or blocks of such, whose slots are in one order.
    Runs,
    /// Leaf by leaf of each row.
    Fields,
}

impl AnyMap {
    /// How the table of one mapping is copied into that of another.
    pub fn strategy(one: &AnyMap, two: &AnyMap) -> Strategy
        ensures { IsStrategy (term_of_map one.now) (term_of_map two.now) result }
    {
        if one.expr.uncounted().same(two.expr.uncounted()) {
            return Strategy::Blobs;
        }
        match (array_in(&one.expr), array_in(&two.expr)) {
            (Some((order, _)), Some((other, _))) if order == other => Strategy::Runs,
            _ => Strategy::Fields,
        }
    }
}
