use crate::HoldList;
use crate::rule::PlanRules;
use record_dim::Sequence;

/// The bytes of each blob, in order.
pub type LengthList = Sequence<u64>;

/// What a mapping goes by: how each cell is stored, how long the blobs are, and where each cell lies.
#[derive(Drop)]
pub struct Plan {
    pub holds: HoldList,
    pub lengths: LengthList,
    pub rules: PlanRules,
}
