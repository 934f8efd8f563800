//! Mappings of run time: an expression over the leaves of a schema and the extents of an array, by rows.
#![tactic(auto)]

mod any;
mod any_map;
mod arrays;
mod cell_map;
mod leaf_rule;
mod leaf_rules;
mod planned;
mod runs;
mod strategy;

pub use any::AnyMap;
pub use arrays::{ArraySlots, BytePlace, BytePlaces};
pub use cell_map::CellMap;
pub use leaf_rule::{LeafRule, RuleList};
pub use map_checks::{HoldList, LengthList, MakeMap, Rule};
pub use map_expr::{BadMapping, MapExpr, MapExprList};
pub use piece_bits::{Field, ShortRule, Walk, Wide, Word};
pub use strategy::Strategy;
