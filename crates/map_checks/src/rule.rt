use linearize::Order;
use places::PieceRules;
use record_dim::Sequence;

/// Where a cell lies in every row: its pieces in the slot that the order gives the row, least significant first.
#[derive(Drop)]
pub struct Rule {
    pub order: Order,
    pub pieces: PieceRules,
}

/// A rule for each cell of a plan, in order.
pub type PlanRules = Sequence<Rule>;
