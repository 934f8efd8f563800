//! What refuses an expression as a mapping of cells: its splits, widths of no cell, its parts that are not full; how its cells are stored; and
//! the plan that a mapping of it goes by.
#![tactic(auto)]

mod bad_field;
mod bad_side;
mod base_plan;
#[tactic(auto, using(crate::proofs::Auto::steps))]
mod bit_plans;
#[tactic(auto, using(crate::proofs::Auto::steps))]
mod cells;
mod fault;
#[tactic(auto, using(crate::proofs::Auto::steps))]
mod full;
mod hold_list;
#[tactic(auto, using(crate::proofs::Auto::steps))]
mod holds;
mod inner_cells;
#[tactic(auto, using(crate::proofs::Auto::steps))]
mod join_plan;
#[tactic(auto, using(crate::proofs::Auto::steps))]
mod make;
mod merge;
#[tactic(auto, using(crate::proofs::Auto::steps))]
mod not_full;
mod one_piece;
#[tactic(auto, using(crate::proofs::Auto::steps))]
mod orders;
mod plan;
mod rule;
#[tactic(auto, using(crate::proofs::Auto::steps))]
mod sides;
mod split_plan;
mod split_rules;
#[tactic(auto, using(crate::proofs::Auto::steps))]
mod swap_plan;
#[tactic(auto, using(crate::proofs::Auto::steps))]
mod widths;

pub use bad_field::has_bad_field;
pub use bad_side::has_bad_side;
pub use cells::{cells_of, kind_at};
pub use fault::MakeMap;
pub use full::check_full;
pub use hold_list::{HoldList, hold_at};
pub use holds::full_holds;
pub use inner_cells::{bytes_cells, changed_cells};
pub use make::make_plan;
pub use merge::merge_holds;
pub use not_full::has_part_not_full;
pub use orders::{slot_of_row, slots_of};
pub use plan::{LengthList, Plan};
pub use rule::{PlanRules, Rule};
pub use sides::{SideList, Sides, split_cells};
pub use widths::{cell_widths, width_law};
