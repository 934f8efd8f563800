use map_checks::Rule;
use piece_bits::{ShortRule, Wide};
use record_dim::Sequence;

/// Where a leaf lies in every row, with what is worked out once for all accesses to it.
#[derive(Drop)]
pub struct LeafRule {
    pub rule: Rule,
    /// The short form of the rule, where it has one.
    pub short: ShortRule,
    /// The rows whose value is one load of eight bytes.
    pub wide: Wide,
    /// From this value to the greatest, a value is declared and is held: those of 64 bits, which are compared at once. Where none is sure to
    /// be, the least is above the greatest.
    pub least: i64,
    pub greatest: i64,
}

/// A rule for each leaf, in order.
pub type RuleList = Sequence<LeafRule>;
