// How the rows of a short form go in groups.
ghost use Rattle.std.specs.Prelude.{IfSome};
ghost use Rattle.leaf_places.specs.Inner.Placing.{AreGroupsOf};

use piece_bits::{ShortRule, Walk};

/// How rows go in groups: how many are one, how far each lies behind the one before it, and how far each group does; or in Morton order.
#[derive(Clone, Copy)]
pub struct Groups {
    pub lanes: u64,
    pub lane: u64,
    pub block: u64,
    pub in_digits: bool,
}

/// How so many rows go in groups along the walk of a short form. Where all lie evenly they are one group.
pub fn groups_of(short: &ShortRule, rows: u64) -> Option<Groups>
    ensures { IfSome result (AreGroupsOf short.now rows) }
{
    let block = short.block;
    match short.walk {
        Walk::Plain => Some(Groups {
            lanes: rows.max(1),
            lane: block,
            block: 0,
            in_digits: false,
        }),
        Walk::Blocks => Some(Groups {
            lanes: short.mask + 1,
            lane: short.lane,
            block,
            in_digits: false,
        }),
        Walk::Columns => Some(Groups {
            lanes: short.columns.columns,
            lane: short.lines.checked_mul(block)?,
            block,
            in_digits: false,
        }),
        Walk::Morton => Some(Groups {
            lanes: short.columns.columns,
            lane: 0,
            block,
            in_digits: true,
        }),
        Walk::None => None,
    }
}
